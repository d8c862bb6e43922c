//! The compact formatter.

ghost use Rattle.std.specs.Prelude.{◌≡◌, ◌≢◌, ◌↔◌, ◌<◌, ℕ, List, length, slice_get, IfSome, IfOk, IfErr, IsOk, IsErrOf, IsTrue};
ghost use Rattle.std.specs.String.{string_bytes};
ghost use Rattle.fixed_decimal.specs.Size.{place, size};
ghost use Rattle.fixed_decimal.specs.declared.signs.Sign.TheVariants.{None as NoSign};
ghost use Rattle.icu_plurals.specs.Elements.{selected};
ghost use Rattle.writeable.specs.Events.{Event, text_of};
ghost use Rattle.icu_plurals.specs.Operands.{operands_of};
ghost use Rattle.icu_pattern.specs.Refs.{text_of_ref};
ghost use Rattle.icu_plurals.specs.Rules.{category_of};
ghost use Rattle.icu_decimal_data.specs.CompactTable.{IsCompactTable, IsIndex, entry_at, exponent_for};
ghost use Rattle.icu_decimal.specs.CompactNumber.{ShowsPastLimits};
ghost use Rattle.icu_decimal.specs.CompactFormat.{IsCompactFormat, IsCompacted, pattern_of, exponent_needed, magnitude_with, events_with_exponent};
ghost use Rattle.icu_decimal.specs.CompactFormat.{signed_filled_events, value_with_exponent, significand_of, compact_number_events, signed_compact_events};
ghost use Rattle.icu_decimal.specs.PatternOrAlone.{pattern_or_alone};
ghost use Rattle.icu_decimal.specs.Readable.{IsReadableCompact};
ghost use Rattle.icu_decimal.specs.Signed.{affixes_for};

use crate::compact_rounding::{exponent_or_zero, nearest_compact};
use crate::cow::Cow;
use crate::decimal_formatter::DecimalFormatter;
use crate::error::{CompactExponentError, FormatError};
use crate::formatted_compact::{FormattedUnsignedCompactDecimal, InterpolatedDecimal};
use crate::formatted_sign::FormattedSign;
use fixed_decimal::{Decimal, UnsignedDecimal};
use icu_decimal_data::CompactPatterns;
use icu_decimal_data::laws::entries_are_a_compact_table;
use icu_pattern::{PatternRef, SinglePlaceholder};
use icu_plurals::{PluralOperands, PluralRules};
use std::alloc::Global;
use std::marker::Model;
use writeable::Writeable;

/// Writes decimals in compact form, as `15K` (ICU4X `CompactDecimalFormatter`; UTS 35 Part 3,
/// Compact Number Formats).
#[derive(Drop)]
pub struct CompactDecimalFormatter {
    pub(crate) decimal_formatter: DecimalFormatter,
    plural_rules: PluralRules,
    pub(crate) patterns: CompactPatterns<SinglePlaceholder>,
}

impl Model for CompactDecimalFormatter {
    ghost use Rattle.icu_decimal.specs.CompactFormat.{CompactFormat};

    ghost Value = { CompactFormat };

    ghost view = { λ f. record {
      decimal = f.decimal_formatter;
      rules = f.plural_rules;
      table = f.patterns;
    } };
}

impl CompactDecimalFormatter {
    /// The formatter of these parts.
    pub fn from_parts(
        decimal_formatter: DecimalFormatter,
        plural_rules: PluralRules,
        patterns: CompactPatterns<SinglePlaceholder>,
    ) -> Self
        ensures parts { result ≡ record {
          decimal = decimal_formatter;
          rules = plural_rules;
          table = patterns;
        } }
        ensures table { IsCompactTable result.table }
    {
        entries_are_a_compact_table(&patterns);
        CompactDecimalFormatter {
            decimal_formatter,
            plural_rules,
            patterns,
        }
    }

    /// The formatter of the digits and of the sign (this project's own).
    pub fn decimal_formatter(&self) -> &DecimalFormatter
        ensures { result.now ≡ self.now.decimal }
    {
        &self.decimal_formatter
    }

    /// The plural rules that choose among the patterns of an entry (this project's own).
    pub fn plural_rules(&self) -> &PluralRules
        ensures { result.now ≡ self.now.rules }
    {
        &self.plural_rules
    }

    /// The table of patterns (this project's own).
    pub fn patterns(&self) -> &CompactPatterns<SinglePlaceholder>
        ensures { result.now ≡ self.now.table }
    {
        &self.patterns
    }

    /// The decimal as the nearest compact number.
    ///
    /// Let e be the table's exponent for the magnitude m. The number is rounded at power e if m is
    /// above e, else at m - 1 (two significant digits). The result is the nearest compact number of
    /// all magnitudes, the even one of two equally near. It is written as the input's sign around
    /// the characters of a significand in its pattern; the significand times ten to the exponent is
    /// that number.
    ///
    /// `Overflow` exactly where that number is ten to the power 32768 or more, whether or not
    /// memory is found. `Sink` is never reported.
    // promise: The sign stands around the nearest compact number.
    // mutations: rounding_left_out, compact_sign_lost
    // promise: `Overflow` comes exactly where that is 10^32768 or more.
    // mutations: rounding_overflows_one_digit_early
    // promise: The value has the sign's affixes, and the entry's pattern.
    // mutations: compact_affixes_of_the_other_sign
    pub fn format<'l>(
        &'l self,
        alloc: Global,
        value: &Decimal,
    ) -> Result<FormattedSign<'l, FormattedUnsignedCompactDecimal<'l>>, FormatError>
        ensures nearest { IfOk result (λ r.
            IsCompactFormat self.now value.now.sign value.now.absolute
            (significand_of r.value) r.value.exponent (signed_compact_events r)) }
        ensures affixes { IfOk result (λ r.
            r.affixes ≡ affixes_for self.now.decimal.symbols value.now.sign) }
        ensures value { IfOk result (λ r. IsCompacted self.now value.now.absolute r.value) }
        ensures overflow { IsErrOf result FormatError.Overflow
            ↔ ShowsPastLimits self.now.table (size value.now.absolute) }
        ensures no_sink { IfErr result (λ e. e ≢ FormatError.Sink) }
    {
        let number = self.format_unsigned(alloc, &value.absolute)?;
        Ok(self.decimal_formatter.format_sign(value.sign, number))
    }

    /// The nearest compact number, without a sign. `Sink` is never reported.
    pub fn format_unsigned<'l>(
        &'l self,
        alloc: Global,
        value: &UnsignedDecimal,
    ) -> Result<FormattedUnsignedCompactDecimal<'l>, FormatError>
        ensures nearest { IfOk result (λ r.
            IsCompactFormat self.now NoSign value.now (significand_of r) r.exponent
            (compact_number_events r)) }
        ensures value { IfOk result (λ r. IsCompacted self.now value.now r) }
        ensures overflow { IsErrOf result FormatError.Overflow
            ↔ ShowsPastLimits self.now.table (size value.now) }
        ensures no_sink { IfErr result (λ e. e ≢ FormatError.Sink) }
    {
        let compacted = nearest_compact(alloc, &self.patterns, value)?;
        let pattern = self.pattern_of(compacted.index, &compacted.significand);
        let number = self
            .decimal_formatter
            .format_unsigned(Cow::Owned(compacted.significand));
        Ok(FormattedUnsignedCompactDecimal {
            filled: InterpolatedDecimal { number, pattern },
            exponent: compacted.exponent,
        })
    }

    /// The text of the nearest compact number. `Sink` is never reported.
    pub fn format_to_string(&self, alloc: Global, value: &Decimal) -> Result<String, FormatError>
        ensures nearest { IfOk result (λ t. (significand : _) × (exponent : ℕ)
            × (events : List Event)
            × IsCompactFormat self.now value.now.sign value.now.absolute significand exponent events
            × (string_bytes t ≡ text_of events)) }
        ensures overflow { IsErrOf result FormatError.Overflow
            ↔ ShowsPastLimits self.now.table (size value.now.absolute) }
        ensures no_sink { IfErr result (λ e. e ≢ FormatError.Sink) }
    {
        let formatted = self.format(alloc, value)?;
        match formatted.write_to_string(alloc) {
            Ok(text) => Ok(text),
            Err(_) => Err(FormatError::OutOfMemory),
        }
    }

    /// A significand with a given exponent. Its digits are written as they are, with their parts;
    /// this takes no memory.
    ///
    /// The exponent has to be the table's for the magnitude of the significand plus the exponent.
    /// The magnitude of a significand 0 is 0.
    // promise: Just the exponent of the magnitude is accepted.
    // mutations: given_exponent_not_judged
    // promise: The digits are written as they are given, in the pattern.
    // mutations: given_pattern_left_out
    pub fn format_with_exponent<'l>(
        &'l self,
        significand: &'l Decimal,
        exponent: u8,
    ) -> Result<FormattedSign<'l, InterpolatedDecimal<'l>>, CompactExponentError>
        ensures accepted { IsOk result
            ↔ (exponent ≡ exponent_needed self.now significand.now.absolute exponent) }
        ensures given { IfOk result (λ r.
            signed_filled_events r ≡ events_with_exponent self.now significand.now.sign
            significand.now.absolute
            exponent) }
        ensures value { IfOk result (λ r.
            r ≡ value_with_exponent self.now significand.now.sign significand.now.absolute
            exponent) }
        ensures refused { IfErr result (λ e.
            e ≡ record {
              actual = exponent;
              expected = exponent_needed self.now significand.now.absolute exponent;
              magnitude = magnitude_with significand.now.absolute exponent;
            }) }
    {
        let absolute = &significand.absolute;
        let magnitude = absolute.nonzero_magnitude_start() as i32 + exponent as i32;
        let index = self.patterns.entry_index(magnitude);
        let expected = exponent_or_zero(&self.patterns, index);
        if exponent != expected {
            return Err(CompactExponentError {
                actual: exponent,
                expected,
                magnitude,
            });
        }
        let pattern = self.pattern_of(index, absolute);
        let number = self
            .decimal_formatter
            .format_unsigned(Cow::Borrowed(absolute));
        let filled = InterpolatedDecimal { number, pattern };
        Ok(self.decimal_formatter.format_sign(significand.sign, filled))
    }

    /// Whether the formatter is readable: each text of `format` and of `format_with_exponent` then
    /// determines its sign, its significand, in range and every digit, and its exponent (this
    /// project's own).
    ///
    /// A formatter is readable if its plain formatter is (`DecimalFormatter::is_readable`), each
    /// pattern has a placeholder and no digit, and affixes and pattern together determine the sign
    /// and the exponent. Numbers without a pattern count too, and so does each pattern of the
    /// table, even one that the plural rules never select. So a formatter that isn't readable may
    /// still have texts that determine their numbers. This takes no memory.
    // promise: It decides exactly whether compact numbers are readable.
    // mutations: readable_compact_by_the_table_alone
    pub fn is_readable(&self) -> bool
        ensures { IsTrue result ↔ IsReadableCompact self.now }
    {
        if !self.decimal_formatter.is_readable() {
            return false;
        }
        self.decimal_formatter.is_readable_by(&self.patterns)
    }

    /// The exponent with which numbers of a magnitude are written; 0 where the table has no entry
    /// for the magnitude.
    // promise: It is the exponent of the magnitude's entry; without one, 0.
    // mutations: compact_exponent_of_the_next_magnitude
    pub fn compact_exponent_for_magnitude(&self, magnitude: i16) -> u8
        ensures { result ≡ exponent_for self.now.table (place magnitude) }
    {
        exponent_or_zero(&self.patterns, self.patterns.entry_index(magnitude as i32))
    }

    /// The pattern of an entry for a significand; none without an entry.
    fn pattern_of(
        &self,
        index: Option<usize>,
        significand: &UnsignedDecimal,
    ) -> Option<PatternRef<'_, SinglePlaceholder>>
        requires { IsIndex self.now.table index }
        ensures { pattern_or_alone result
            ≡ pattern_of self.now (entry_at self.now.table index) significand.now }
    {
        match index {
            Some(index) => Some(self.pattern_at(index, significand)),
            None => None,
        }
    }

    /// The pattern of the entry at an index for a significand. Operands are computed only if the
    /// entry has several.
    fn pattern_at(
        &self,
        index: usize,
        significand: &UnsignedDecimal,
    ) -> PatternRef<'_, SinglePlaceholder>
        requires { index < length self.now.table }
        ensures { IfSome (slice_get self.now.table index) (λ e. text_of_ref result
            ≡ selected e.elements (operands_of significand.now 0)
            (category_of self.now.rules (operands_of significand.now 0))) }
    {
        if let Some(pattern) = self.patterns.sole_pattern(index) {
            return pattern;
        }
        let operands = PluralOperands::from_significand_and_exponent(significand, 0);
        self.patterns.pick(index, &operands, &self.plural_rules)
    }
}
