//! Formatted compact numbers: what a compact formatter writes, as a value.

ghost use Rattle.std.specs.Prelude.{◌≡◌};

use crate::cow::Cow;
use crate::formatted_decimal::FormattedUnsignedDecimal;
use fixed_decimal::UnsignedDecimal;
use icu_pattern::{PatternRef, SinglePlaceholder};
use icu_plurals::PluralOperands;
use std::fmt;
use std::marker::Model;
use writeable::{EventWriter, WriteFault, Writeable};

/// A number in the pattern of its exponent, with the number's parts: `format_with_exponent` writes
/// it inside the sign.
#[derive(Drop)]
pub struct InterpolatedDecimal<'l> {
    pub(crate) number: FormattedUnsignedDecimal<'l>,
    /// The pattern; none where the number is written alone.
    pub(crate) pattern: Option<PatternRef<'l, SinglePlaceholder>>,
}

impl<'l> Model for InterpolatedDecimal<'l> {
    ghost use Rattle.icu_decimal.specs.CompactFormat.{FilledNumber};
    ghost use Rattle.icu_decimal.specs.PatternOrAlone.{pattern_or_alone};

    ghost Value = { FilledNumber };

    ghost view = { λ f. record { pattern = pattern_or_alone f.pattern; number = f.number } };
}

/// A compact number without its sign (ICU4X `FormattedUnsignedCompactDecimal`): its characters,
/// without parts.
#[derive(Drop)]
pub struct FormattedUnsignedCompactDecimal<'l> {
    pub(crate) filled: InterpolatedDecimal<'l>,
    pub(crate) exponent: u8,
}

impl<'l> Model for FormattedUnsignedCompactDecimal<'l> {
    ghost use Rattle.icu_decimal.specs.CompactFormat.{FormattedCompact};

    ghost Value = { FormattedCompact };

    ghost view = { λ f. record { filled = f.filled; exponent = f.exponent } };
}

impl FormattedUnsignedCompactDecimal<'_> {
    ghost use Rattle.icu_plurals.specs.Operands.{operands_of};
    ghost use Rattle.icu_decimal.specs.CompactFormat.{significand_of};

    /// The digits that are written.
    pub fn significand(&self) -> &UnsignedDecimal
        ensures { result.now ≡ significand_of self.now }
    {
        self.filled.number.value.get()
    }

    /// The power of ten that the pattern names.
    pub fn exponent(&self) -> u8
        ensures { result ≡ self.now.exponent }
    {
        self.exponent
    }

    /// The plural operands of the compact number: those of its significand and its exponent (ICU4X
    /// `plural_operands`).
    pub fn plural_operands(&self) -> PluralOperands
        ensures { result ≡ operands_of (significand_of self.now) self.now.exponent }
    {
        PluralOperands::from_significand_and_exponent(self.significand(), self.exponent)
    }
}

impl Writeable for InterpolatedDecimal<'_> {
    ghost use Rattle.icu_decimal.specs.CompactFormat.{filled_number_events};

    ghost events = { filled_number_events };

    fn write_events<K: EventWriter>(&self, out: &mut K) -> Result<(), WriteFault> {
        match self.pattern {
            Some(pattern) => pattern
                .interpolate(Cow::Borrowed(&self.number))
                .write_events(out),
            None => self.number.write_events(out),
        }
    }
}

impl Writeable for FormattedUnsignedCompactDecimal<'_> {
    ghost use Rattle.icu_decimal.specs.CompactFormat.{compact_number_events};

    ghost events = { compact_number_events };

    fn write_events<K: EventWriter>(&self, out: &mut K) -> Result<(), WriteFault> {
        self.filled.write_characters(out)
    }
}

impl fmt::Display for InterpolatedDecimal<'_> {
    ghost use Rattle.std.specs.Prelude.{Some};
    ghost use Rattle.writeable.specs.Events.{text_of};
    ghost use Rattle.icu_decimal.specs.CompactFormat.{filled_number_events};

    ghost output = { λ f. Some (text_of (filled_number_events f)) };

    ghost styled_output = { λ f _. Some (text_of (filled_number_events f)) };

    fn fmt<W: fmt::Write>(&self, f: &mut fmt::Formatter<W>) -> fmt::Result {
        self.write_events(f).map_err(|_| fmt::Error)
    }
}

impl fmt::Display for FormattedUnsignedCompactDecimal<'_> {
    ghost use Rattle.std.specs.Prelude.{Some};
    ghost use Rattle.writeable.specs.Events.{text_of};
    ghost use Rattle.icu_decimal.specs.CompactFormat.{compact_number_events};

    ghost output = { λ f. Some (text_of (compact_number_events f)) };

    ghost styled_output = { λ f _. Some (text_of (compact_number_events f)) };

    fn fmt<W: fmt::Write>(&self, f: &mut fmt::Formatter<W>) -> fmt::Result {
        self.filled.write_characters(f).map_err(|_| fmt::Error)
    }
}
