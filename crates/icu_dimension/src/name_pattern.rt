//! A number with the name of a currency.

use icu_dimension_data::parts::CURRENCY;
use std::alloc::{AllocError, Global};
use std::marker::Model;
use writeable::{EventWriter, WriteFault, Writeable};

/// The texts of a pattern with a placeholder for a number and one for a name, as CLDR's `{0} {1}`,
/// borrowed.
#[derive(Clone, Copy)]
pub struct NameTexts<'a> {
    /// Whether the number comes before the name, as in `{0} {1}`, or behind it, as in `{1} {0}`.
    pub number_first: bool,
    /// What stands before both.
    pub before: &'a str,
    /// What stands between them, as a space.
    pub between: &'a str,
    /// What stands behind both.
    pub after: &'a str,
    /// The name, as `US dollars`.
    pub name: &'a str,
}

/// A number with the name of a currency, for one plural category.
#[derive(Drop)]
pub struct NamePattern {
    number_first: bool,
    before: String,
    between: String,
    after: String,
    name: String,
}

impl Model for NamePattern {
    ghost use Rattle.std.specs.String.{string_bytes};
    ghost use Rattle.icu_dimension.specs.Names.{NameText};

    ghost Value = { NameText };

    ghost view = { λ p. record {
      number_first = p.number_first;
      before = string_bytes p.before;
      between = string_bytes p.between;
      after = string_bytes p.after;
      name = string_bytes p.name;
    } };
}

/// A value with the name of a currency.
#[derive(Drop)]
pub struct Named<'a, W> {
    pattern: &'a NamePattern,
    value: W,
}

impl<'a, W> Model for Named<'a, W> {
    ghost use Rattle.icu_dimension.specs.Names.{NamedValue};

    ghost Value = { NamedValue W };

    ghost view = { λ n. record { pattern = n.pattern.now; value = n.value } };
}

impl NamePattern {
    ghost use Rattle.std.specs.Prelude.{◌≡◌, IfOk};
    ghost use Rattle.icu_dimension.specs.LentNames.{lent_name};
    ghost use Rattle.icu_dimension.specs.Names.{name_events, name_then_number, number_then_name, with_name};

    /// The pattern of these texts.
    pub fn new(alloc: Global, texts: &NameTexts<'_>) -> Result<Self, AllocError>
        ensures { IfOk result (λ p. p ≡ lent_name texts.now) }
    {
        Ok(NamePattern {
            number_first: texts.number_first,
            before: String::from_str(alloc, texts.before)?,
            between: String::from_str(alloc, texts.between)?,
            after: String::from_str(alloc, texts.after)?,
            name: String::from_str(alloc, texts.name)?,
        })
    }

    /// The pattern with a number, or what stands in its place (this project's own).
    pub fn interpolate<W: Writeable>(&self, value: W) -> Named<'_, W>
        ensures { result ≡ record { pattern = self.now; value = value } }
    {
        Named {
            pattern: self,
            value,
        }
    }

    #[tactic(auto, unfolding(crate::specs::Names::name_events))]
    fn write_name<K: EventWriter>(&self, out: &mut K) -> Result<(), WriteFault>
        ensures { K.wrote out.old result (name_events self.now.name) out.new }
    {
        out.part(CURRENCY, self.name.as_str())
    }

    fn write_number_then_name<W: Writeable, K: EventWriter>(
        &self,
        number: &W,
        out: &mut K,
    ) -> Result<(), WriteFault>
        ensures { K.wrote out.old result (number_then_name self.now (W.events number.now)) out.new }
    {
        out.text(self.before.as_str())?;
        number.write_events(out)?;
        out.text(self.between.as_str())?;
        self.write_name(out)?;
        out.text(self.after.as_str())
    }

    fn write_name_then_number<W: Writeable, K: EventWriter>(
        &self,
        number: &W,
        out: &mut K,
    ) -> Result<(), WriteFault>
        ensures { K.wrote out.old result (name_then_number self.now (W.events number.now)) out.new }
    {
        out.text(self.before.as_str())?;
        self.write_name(out)?;
        out.text(self.between.as_str())?;
        number.write_events(out)?;
        out.text(self.after.as_str())
    }

    /// Writes a number, or what stands in its place, with the name.
    fn write_with<W: Writeable, K: EventWriter>(
        &self,
        number: &W,
        out: &mut K,
    ) -> Result<(), WriteFault>
        ensures { K.wrote out.old result (with_name self.now (W.events number.now)) out.new }
    {
        if self.number_first {
            self.write_number_then_name(number, out)
        } else {
            self.write_name_then_number(number, out)
        }
    }
}

impl<W: Writeable> Writeable for Named<'_, W> {
    ghost use Rattle.icu_dimension.specs.Names.{with_name};

    ghost events = { λ n. with_name n.pattern (W.events n.value) };

    fn write_events<K: EventWriter>(&self, out: &mut K) -> Result<(), WriteFault> {
        self.pattern.write_with(&self.value, out)
    }
}
