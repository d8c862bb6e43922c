//! Formatted decimals: what a formatter writes, as a value.

ghost use Rattle.std.specs.Prelude.{◌≡◌, ◌<◌, ◌++◌, All};
ghost use Rattle.writeable.specs.Events.{Event, text_of};

use crate::cow::Cow;
use crate::decimal_formatter::DecimalFormatter;
use crate::formatted_sign::FormattedSign;
use crate::parts;
use fixed_decimal::UnsignedDecimal;
use icu_decimal_options::grouper::secondary_size;
use icu_decimal_options::options::DecimalFormatterOptions;
use icu_decimal_symbols::DecimalSymbols;
use icu_plurals::PluralOperands;
use std::fmt;
use std::marker::Model;
use writeable::{EventWriter, Grouping, WriteFault, Writeable};

/// A formatted decimal (ICU4X `FormattedDecimal`): its characters with their parts.
#[derive(PartialEq, Drop)]
pub struct FormattedDecimal<'l> {
    pub(crate) signed: FormattedSign<'l, FormattedUnsignedDecimal<'l>>,
}

impl<'l> Model for FormattedDecimal<'l> {
    ghost use Rattle.icu_decimal.specs.Formatted.{FormattedNumber};
    ghost use Rattle.icu_decimal.specs.Signed.{Signed};

    ghost Value = { Signed FormattedNumber };

    ghost view = { λ f. f.signed };

    ghost inverse = { λ signed. record { signed = signed } };
}

/// A formatted number without sign (ICU4X `FormattedUnsignedDecimal`).
#[derive(Drop)]
pub struct FormattedUnsignedDecimal<'l> {
    pub(crate) value: Cow<'l, UnsignedDecimal>,
    pub(crate) format: &'l DecimalFormatter,
}

impl<'l> Model for FormattedUnsignedDecimal<'l> {
    ghost use Rattle.icu_decimal.specs.Formatted.{FormattedNumber};
    ghost use Rattle.icu_decimal.specs.Cow.{value_of};

    ghost Value = { FormattedNumber };

    ghost view = { λ f. record { format = f.format.now; number = value_of f.value } };
}

impl PartialEq for FormattedUnsignedDecimal<'_> {
    ghost use Rattle.std.specs.Ordering.{eq_of_both, on};
    ghost use Rattle.std.proofs.Common.{rules};
    ghost use Rattle.std.specs.Cmp.{and_per, on_per};
    ghost use Rattle.std.specs.Cmp.Rules.{comparing};

    ghost eq = { eq_of_both (on (λ f. f.number) ⟦<UnsignedDecimal as PartialEq>⟧.eq)
        (eq_of_both (on (λ f. f.format.options) ⟦<DecimalFormatterOptions as PartialEq>⟧.eq)
        (eq_of_both (on (λ f. f.format.symbols) ⟦<DecimalSymbols as PartialEq>⟧.eq)
        (on (λ f. f.format.digits) ⟦<[char; 10] as PartialEq>⟧.eq))) };

    ghost laws = { and_per (on_per (λ f. f.number) {E = ⟦<UnsignedDecimal as PartialEq>⟧.eq}
        (Prim.search (comparing, rules)))
        (and_per (on_per (λ f. f.format.options) {E = ⟦<DecimalFormatterOptions as PartialEq>⟧.eq}
        (Prim.search (comparing, rules)))
        (and_per (on_per (λ f. f.format.symbols) {E = ⟦<DecimalSymbols as PartialEq>⟧.eq}
        (Prim.search (comparing, rules)))
        (on_per (λ f. f.format.digits) {E = ⟦<[char; 10] as PartialEq>⟧.eq}
        (Prim.search (comparing, rules))))) };

    /// Whether the numbers, the options, the symbols and the digits are equal, wherever they are
    /// kept.
    fn eq(&self, other: &Self) -> bool {
        self.value.get() == other.value.get()
            && self.format.options() == other.format.options()
            && self.format.symbols() == other.format.symbols()
            && self.format.digits() == other.format.digits()
    }
}

impl Writeable for FormattedDecimal<'_> {
    ghost use Rattle.icu_decimal.specs.Formatted.{signed_number_events};

    ghost events = { signed_number_events };

    // promise: Writing the value writes just the events that it shows.
    // mutations: lent_value_not_written
    fn write_events<K: EventWriter>(&self, out: &mut K) -> Result<(), WriteFault> {
        self.signed.write_events(out)
    }
}

impl Writeable for FormattedUnsignedDecimal<'_> {
    ghost use Rattle.icu_decimal.specs.Formatted.{number_events};

    ghost events = { number_events };

    fn write_events<K: EventWriter>(&self, out: &mut K) -> Result<(), WriteFault> {
        let value = self.value.get();
        self.write_integer(value.integer(), out)?;
        self.write_fraction(value.fraction(), out)
    }
}

impl FormattedUnsignedDecimal<'_> {
    ghost use Rattle.icu_plurals.specs.Operands.{operands_of};
    ghost use Rattle.icu_decimal.specs.Decimal.{grouped_events, integer_events, fraction_events};

    /// The plural operands of the number; this takes no memory (this project's own).
    pub fn plural_operands(&self) -> PluralOperands
        ensures { result ≡ operands_of self.now.number 0 }
    {
        PluralOperands::from_significand_and_exponent(self.value.get(), 0)
    }

    /// Writes the digits at power 0 and above, as the integer part.
    fn write_integer<K: EventWriter>(&self, integer: &[u8], out: &mut K) -> Result<(), WriteFault>
        requires { All (λ d. d < 10) integer.now }
        ensures { K.wrote out.old result (integer_events self.now.format integer.now) out.new }
    {
        out.open(parts::INTEGER)?;
        self.write_grouped(integer, out)?;
        out.close()
    }

    /// Writes digits in the groups that the options ask for.
    fn write_grouped<K: EventWriter>(&self, integer: &[u8], out: &mut K) -> Result<(), WriteFault>
        requires { All (λ d. d < 10) integer.now }
        ensures { K.wrote out.old result (grouped_events self.now.format integer.now) out.new }
    {
        if !self.format.is_grouped(integer.len()) {
            return self.format.write_digits(integer, out);
        }
        let symbols = self.format.symbols();
        let sizes = symbols.grouping_sizes;
        let grouping = Grouping {
            primary: usize::from(sizes.primary),
            secondary: secondary_size(sizes),
            part: Some(parts::GROUP),
            separator: symbols.grouping_separator(),
        };
        self.format.write_groups(integer, &grouping, out)
    }

    /// Writes the decimal separator and the digits below power 0, as parts; without such digits
    /// nothing.
    fn write_fraction<K: EventWriter>(&self, fraction: &[u8], out: &mut K) -> Result<(), WriteFault>
        requires { All (λ d. d < 10) fraction.now }
        ensures { K.wrote out.old result (fraction_events self.now.format fraction.now) out.new }
    {
        if fraction.is_empty() {
            return Ok(());
        }
        out.part(parts::DECIMAL, self.format.symbols().decimal_separator())?;
        out.open(parts::FRACTION)?;
        self.format.write_digits(fraction, out)?;
        out.close()
    }
}

impl fmt::Display for FormattedDecimal<'_> {
    ghost use Rattle.std.specs.Prelude.{Some};
    ghost use Rattle.writeable.specs.Events.{text_of};
    ghost use Rattle.icu_decimal.specs.Formatted.{signed_number_events};

    ghost output = { λ f. Some (text_of (signed_number_events f)) };

    ghost styled_output = { λ f _. Some (text_of (signed_number_events f)) };

    fn fmt<W: fmt::Write>(&self, f: &mut fmt::Formatter<W>) -> fmt::Result {
        self.signed.fmt(f)
    }
}

impl fmt::Display for FormattedUnsignedDecimal<'_> {
    ghost use Rattle.std.specs.Prelude.{Some};
    ghost use Rattle.writeable.specs.Events.{text_of};
    ghost use Rattle.icu_decimal.specs.Formatted.{number_events};

    ghost output = { λ f. Some (text_of (number_events f)) };

    ghost styled_output = { λ f _. Some (text_of (number_events f)) };

    fn fmt<W: fmt::Write>(&self, f: &mut fmt::Formatter<W>) -> fmt::Result {
        self.write_events(f).map_err(|_| fmt::Error)
    }
}
