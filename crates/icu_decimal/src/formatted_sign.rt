//! A sign around a value.

ghost use Rattle.std.specs.Prelude.{◌≡◌, Option, option_map};
ghost use Rattle.std.specs.Option.{option_eq};
ghost use Rattle.icu_decimal.specs.Signed.{affixes_of, same_affixes};

use std::fmt;
use std::marker::Model;
use writeable::{EventWriter, Part, WriteFault, Writeable};

/// A value with the affixes of its sign around it (ICU4X `FormattedSign`).
#[derive(Drop)]
pub struct FormattedSign<'l, T> {
    pub(crate) value: T,
    /// The part around each affix, what stands before the value and what stands after it; none
    /// without a sign.
    pub(crate) sign: Option<(Part, &'l str, &'l str)>,
}

impl<'l, T> Model for FormattedSign<'l, T> {
    ghost use Rattle.std.specs.Prelude.{option_map};
    ghost use Rattle.icu_decimal.specs.Signed.{Signed, affixes_of};

    ghost Value = { Signed T };

    ghost view = { λ f. record { affixes = option_map affixes_of f.sign; value = f.value } };
}

impl<T> FormattedSign<'_, T> {
    /// The value inside the sign.
    pub fn value(&self) -> &T
        ensures { result.now ≡ self.now.value }
    {
        &self.value
    }
}

impl<T: PartialEq> PartialEq for FormattedSign<'_, T> {
    ghost use Rattle.std.specs.Ordering.{eq_of_both, on};
    ghost use Rattle.std.specs.Option.{option_eq};
    ghost use Rattle.std.specs.Cmp.{and_per, on_per, partial_equiv_from_equiv};
    ghost use Rattle.std.specs.Cmp.Lexicographic.{options_equiv};
    ghost use Rattle.icu_decimal.specs.Signed.{same_affixes, same_affixes_laws};

    ghost eq = { eq_of_both (on (λ f. f.value) T.eq)
        (on (λ f. f.affixes) (option_eq same_affixes)) };

    ghost laws = { and_per (on_per (λ f. f.value) {E = T.eq} T.laws)
        (on_per (λ f. f.affixes) {E = option_eq same_affixes}
        (partial_equiv_from_equiv (options_equiv same_affixes_laws))) };

    /// Whether the values and the affixes are equal.
    fn eq(&self, other: &Self) -> bool {
        self.value == other.value && are_same(&self.sign, &other.sign)
    }
}

/// Whether two signs have equal parts and texts.
fn are_same(a: &Option<(Part, &str, &str)>, b: &Option<(Part, &str, &str)>) -> bool
    ensures { result ≡ option_eq same_affixes (option_map affixes_of a.now)
        (option_map affixes_of b.now) }
{
    match (a, b) {
        (Some((part, prefix, suffix)), Some((other, before, after))) => {
            part.category == other.category
                && part.value == other.value
                && prefix == before
                && suffix == after
        }
        (None, None) => true,
        _ => false,
    }
}

impl<T: Writeable> Writeable for FormattedSign<'_, T> {
    ghost use Rattle.std.specs.Prelude.{List};
    ghost use Rattle.writeable.specs.Events.{Event};
    ghost use Rattle.icu_decimal.specs.Signed.{affixed_events};

    ghost events = { λ f. affixed_events f.affixes (T.events f.value) };

    fn write_events<K: EventWriter>(&self, out: &mut K) -> Result<(), WriteFault> {
        self.write_prefix(out)?;
        self.value.write_events(out)?;
        self.write_suffix(out)
    }
}

impl<T> FormattedSign<'_, T> {
    ghost use Rattle.icu_decimal.specs.Signed.{prefix_events, suffix_events};

    /// Writes what stands before the value.
    fn write_prefix<K: EventWriter>(&self, out: &mut K) -> Result<(), WriteFault>
        ensures { K.wrote out.old result (prefix_events self.now.affixes) out.new }
    {
        match self.sign {
            Some((part, prefix, _)) => out.part(part, prefix),
            None => Ok(()),
        }
    }

    /// Writes what stands after the value.
    fn write_suffix<K: EventWriter>(&self, out: &mut K) -> Result<(), WriteFault>
        ensures { K.wrote out.old result (suffix_events self.now.affixes) out.new }
    {
        match self.sign {
            Some((part, _, suffix)) => out.part(part, suffix),
            None => Ok(()),
        }
    }
}

impl<T: Writeable> fmt::Display for FormattedSign<'_, T> {
    ghost use Rattle.std.specs.Prelude.{Some};
    ghost use Rattle.writeable.specs.Events.{text_of};
    ghost use Rattle.icu_decimal.specs.Signed.{affixed_events};

    ghost output = { λ f. Some (text_of (affixed_events f.affixes (T.events f.value))) };

    ghost styled_output = { λ f _. Some (text_of (affixed_events f.affixes (T.events f.value))) };

    // promise: Display never pads, whatever width and fill are.
    // mutations: displayed_as_a_mark_under_a_width
    fn fmt<W: fmt::Write>(&self, f: &mut fmt::Formatter<W>) -> fmt::Result {
        self.write_events(f).map_err(|_| fmt::Error)
    }
}
