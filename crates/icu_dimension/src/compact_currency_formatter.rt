//! Compact amounts of money (ICU4X, `CompactCurrencyFormatter`).

ghost use Rattle.std.specs.Prelude.{◌≡◌, ◌≢◌, ◌↔◌, IfErr, IfOk, IsErrOf, IsOkUnless, is_some};
ghost use Rattle.std.specs.String.{string_bytes};
ghost use Rattle.fixed_decimal.specs.Size.{size};
ghost use Rattle.writeable.specs.Events.{text_of};
ghost use Rattle.icu_decimal_data.specs.CompactTable.{IsIndex, entry_at};
ghost use Rattle.icu_decimal.specs.CompactFormat.{FormattedCompact, IsCompacted, exponent_needed};
ghost use Rattle.icu_decimal.specs.CompactNumber.{ShowsPastLimits};
ghost use Rattle.icu_decimal_interface.specs.UsesShown.{WroteSuch};
ghost use Rattle.icu_decimal_interface.specs.WritesSuch.{KeepsLimitSuch, WritesSuch};
ghost use Rattle.icu_dimension.specs.CompactMoney.{amount_given, compact_events, compact_money, entry_shown, entry_with, formatter_of};

use crate::currency_formatter::CurrencyFormatter;
use crate::frame::Lent;
use fixed_decimal::{Decimal, Sign, UnsignedDecimal};
use icu_decimal::error::FormatError;
use icu_decimal::{CompactDecimalFormatter, DecimalFormatter, FormattedUnsignedCompactDecimal};
use icu_dimension_data::{CompactCurrencyPatterns, SignedPatterns};
use icu_plurals::PluralRules;
use std::alloc::Global;
use std::marker::Model;
use writeable::{EventWriter, PartsWrite, WithParts, WriteFault, Writeable};

/// Writes amounts of money in compact form with the symbol of their currency, as `$1.5M` or
/// `€ -1,5 mln.`: the compact number that is nearest to the amount, by the compact formatter of its
/// sign.
///
/// CLDR has short patterns for money, with signs and symbol in them; they aren't made of compact
/// numbers and a pattern of money. An amount below the first of them, which has none, is written in
/// the pattern of money: `$0.5`.
#[derive(Drop)]
pub struct CompactCurrencyFormatter {
    none: CompactDecimalFormatter,
    minus: CompactDecimalFormatter,
    plus: CompactDecimalFormatter,
    patterns: SignedPatterns,
}

impl Model for CompactCurrencyFormatter {
    ghost use Rattle.icu_dimension.specs.CompactMoney.{CompactMoney};

    ghost Value = { CompactMoney };

    ghost view = { λ f. record {
      none = f.none;
      minus = f.minus;
      plus = f.plus;
      patterns = f.patterns;
    } };
}

/// A formatter and rules, copied.
fn copied(
    alloc: Global,
    formatter: &DecimalFormatter,
    rules: &PluralRules,
) -> Result<(DecimalFormatter, PluralRules), FormatError>
    ensures copied { IfOk result (λ c. (c.0 ≡ formatter.now) × (c.1 ≡ rules.now)) }
    ensures memory { IsOkUnless result FormatError.OutOfMemory }
{
    let formatter = formatter.copy(alloc)?;
    match rules.copy(alloc) {
        Ok(rules) => Ok((formatter, rules)),
        Err(_) => Err(FormatError::OutOfMemory),
    }
}

/// The index of the entry by which a significand with an exponent is displayed.
fn entry_index(
    formatter: &CompactDecimalFormatter,
    significand: &UnsignedDecimal,
    exponent: u8,
) -> Option<usize>
    ensures entry { entry_at formatter.now.table result
        ≡ entry_with formatter.now.table significand.now exponent }
    ensures index { IsIndex formatter.now.table result }
{
    let magnitude = significand.nonzero_magnitude_start() as i32 + exponent as i32;
    formatter.patterns().entry_index(magnitude)
}

/// Whether an entry displays a significand with an exponent.
#[tactic(auto, using(crate::proofs::EntryShown::some_at))]
fn has_entry_with(
    formatter: &CompactDecimalFormatter,
    significand: &UnsignedDecimal,
    exponent: u8,
) -> bool
    ensures { result ≡ is_some (entry_with formatter.now.table significand.now exponent) }
{
    entry_index(formatter, significand, exponent).is_some()
}

impl CompactCurrencyFormatter {
    /// The formatter of amounts with the compact patterns of a currency: numbers are written as the
    /// formatter of money writes them, and plural rules choose among the patterns of an entry.
    /// Numbers and rules are copied twice.
    pub fn from_parts(
        alloc: Global,
        money: CurrencyFormatter<DecimalFormatter>,
        rules: PluralRules,
        tables: CompactCurrencyPatterns,
    ) -> Result<Self, FormatError>
        ensures parts { IfOk result (λ f. f ≡ compact_money money rules tables) }
        ensures memory { IsOkUnless result FormatError.OutOfMemory }
    {
        let CurrencyFormatter {
            formatter,
            patterns,
        } = money;
        let CompactCurrencyPatterns { none, minus, plus } = tables;
        let (first, first_rules) = copied(alloc, &formatter, &rules)?;
        let (second, second_rules) = copied(alloc, &formatter, &rules)?;
        Ok(CompactCurrencyFormatter {
            none: CompactDecimalFormatter::from_parts(formatter, rules, none),
            minus: CompactDecimalFormatter::from_parts(first, first_rules, minus),
            plus: CompactDecimalFormatter::from_parts(second, second_rules, plus),
            patterns,
        })
    }

    /// The compact formatter of a sign. It takes no memory.
    pub fn for_sign(&self, sign: Sign) -> &CompactDecimalFormatter
        ensures { result.now ≡ formatter_of self.now sign }
    {
        match sign {
            Sign::None => &self.none,
            Sign::Negative => &self.minus,
            Sign::Positive => &self.plus,
        }
    }

    /// The patterns of money for each sign, in which a compact number stands that has no entry in
    /// the table (this project's own).
    pub fn patterns(&self) -> &SignedPatterns
        ensures { result.now ≡ self.now.patterns }
    {
        &self.patterns
    }

    /// Whether a compact number of a sign is displayed by an entry of the table, whose pattern has
    /// the symbol and the sign in it (this project's own).
    pub fn has_entry(&self, sign: Sign, number: &FormattedUnsignedCompactDecimal<'_>) -> bool
        ensures { result ≡ is_some (entry_shown (formatter_of self.now sign).table number.now) }
    {
        has_entry_with(self.for_sign(sign), number.significand(), number.exponent())
    }

    /// Writes an amount into any writer: the characters of the nearest compact number and, if no
    /// entry of the table displays it, the parts of the sign and of the symbol around it.
    ///
    /// After `Overflow` and `OutOfMemory` the writer is unchanged. `Sink` only where the writer
    /// failed. `Overflow` exactly where the compact number is too large. It takes memory for that
    /// number.
    pub fn write_into<K: EventWriter>(
        &self,
        alloc: Global,
        value: &Decimal,
        out: &mut K,
    ) -> Result<(), FormatError>
        ensures written { WroteSuch K.wrote out.old result
            (IsCompacted (formatter_of self.now value.now.sign) value.now.absolute)
            (compact_events (formatter_of self.now value.now.sign).table self.now.patterns
            value.now.sign) out.new }
        ensures overflow { IsErrOf result FormatError.Overflow
            ↔ ShowsPastLimits (formatter_of self.now value.now.sign).table
            (size value.now.absolute) }
    {
        let number = self
            .for_sign(value.sign)
            .format_unsigned(alloc, &value.absolute)?;
        let amount = CompactAmount {
            money: self,
            sign: value.sign,
            number: &number,
        };
        match amount.write_events(out) {
            Ok(()) => Ok(()),
            Err(_) => Err(FormatError::Sink),
        }
    }

    /// Writes the amount of a significand with an exponent that is given, which isn't rounded, into
    /// any writer: the parts of the number and, if no entry of the table displays it, those of the
    /// sign and of the symbol around it. The exponent is that which the table has for the amount
    /// ([`CompactDecimalFormatter::format_with_exponent`]). It takes no memory (this project's own).
    // promise: A given amount stands in the compact pattern of its sign.
    // mutations: given_amount_in_the_pattern_of_no_sign
    pub fn write_given<K: EventWriter>(
        &self,
        significand: &Decimal,
        exponent: u8,
        out: &mut K,
    ) -> Result<(), WriteFault>
        requires { exponent ≡ exponent_needed (formatter_of self.now significand.now.sign)
            significand.now.absolute exponent }
        ensures { K.wrote out.old result
            (amount_given (formatter_of self.now significand.now.sign) self.now.patterns
            significand.now.sign significand.now.absolute exponent) out.new }
    {
        let compact = self.for_sign(significand.sign);
        let Ok(formatted) = compact.format_with_exponent(significand, exponent) else {
            unreachable!();
        };
        if has_entry_with(compact, &significand.absolute, exponent) {
            return formatted.value().write_events(out);
        }
        let pattern = self.patterns.for_sign(significand.sign);
        let number = Lent {
            value: formatted.value(),
        };
        pattern.interpolate(number).write_events(out)
    }

    /// Writes an amount to a sink, with the same parts.
    ///
    /// After `Overflow` and `OutOfMemory` the sink is unchanged. `Sink` only where the sink failed
    /// in this call, and it then holds a beginning of the events besides. `Overflow` exactly where
    /// the compact number is too large.
    // promise: A compact amount is the nearest of its sign's table.
    // mutations: compact_money_by_the_table_of_no_sign
    pub fn write<S: PartsWrite>(
        &self,
        alloc: Global,
        value: &Decimal,
        sink: &mut S,
    ) -> Result<(), FormatError>
        ensures written { WritesSuch S.events S.failures sink.old result
            (IsCompacted (formatter_of self.now value.now.sign) value.now.absolute)
            (compact_events (formatter_of self.now value.now.sign).table self.now.patterns
            value.now.sign) sink.new }
        ensures limited { KeepsLimitSuch S.events S.limit S.refusals sink.old result
            (IsCompacted (formatter_of self.now value.now.sign) value.now.absolute)
            (compact_events (formatter_of self.now value.now.sign).table self.now.patterns
            value.now.sign) sink.new }
        ensures overflow { IsErrOf result FormatError.Overflow
            ↔ ShowsPastLimits (formatter_of self.now value.now.sign).table
            (size value.now.absolute) }
    {
        let mut out = WithParts { sink };
        let result = self.write_into(alloc, value, &mut out);
        out.into_inner();
        result
    }

    /// The characters that `write` writes, as a text. `Sink` is never reported.
    pub fn write_to_string(&self, alloc: Global, value: &Decimal) -> Result<String, FormatError>
        ensures text { IfOk result (λ t. (n : FormattedCompact)
            × IsCompacted (formatter_of self.now value.now.sign) value.now.absolute n
            × (string_bytes t ≡ text_of (compact_events (formatter_of self.now value.now.sign).table
            self.now.patterns value.now.sign n))) }
        ensures overflow { IsErrOf result FormatError.Overflow
            ↔ ShowsPastLimits (formatter_of self.now value.now.sign).table
            (size value.now.absolute) }
        ensures no_sink { IfErr result (λ e. e ≢ FormatError.Sink) }
    {
        let mut text = String::new(alloc);
        match self.write_into(alloc, value, &mut text) {
            Ok(()) => Ok(text),
            Err(FormatError::Overflow) => Err(FormatError::Overflow),
            Err(_) => Err(FormatError::OutOfMemory),
        }
    }
}

/// A compact number; if no entry displays it, in the pattern of a sign.
#[derive(Drop)]
struct CompactAmount<'a, 'l> {
    money: &'a CompactCurrencyFormatter,
    sign: Sign,
    number: &'a FormattedUnsignedCompactDecimal<'l>,
}

impl Writeable for CompactAmount<'_, '_> {
    ghost events = { λ a. compact_events (formatter_of a.money.now a.sign).table
        a.money.now.patterns a.sign a.number.now };

    fn write_events<K: EventWriter>(&self, out: &mut K) -> Result<(), WriteFault> {
        let money = self.money;
        if money.has_entry(self.sign, self.number) {
            return self.number.write_events(out);
        }
        let pattern = money.patterns.for_sign(self.sign);
        pattern
            .interpolate(Lent { value: self.number })
            .write_events(out)
    }
}
