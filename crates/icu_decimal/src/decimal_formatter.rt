//! The plain formatter.

ghost use Rattle.std.specs.Prelude.{◌≡◌, ◌<◌, ◌↔◌, IsTrue, All, List, IfOk, IsOkUnless, codes};
ghost use Rattle.std.specs.String.{string_bytes};
ghost use Rattle.writeable.specs.Events.{Event, text_of, digit_events};
ghost use Rattle.writeable.specs.Groups.{grouped_events};
ghost use Rattle.icu_decimal.specs.Decimal.{decimal_events, signed_events, unsigned_events, strategy_of};
ghost use Rattle.icu_decimal_options.specs.Grouping.{is_grouped};
ghost use Rattle.icu_decimal_readable.specs.Readable.{IsReadable, IsReadableTable};

use crate::cow::Cow;
use crate::error::FormatError;
use crate::formatted_decimal::{FormattedDecimal, FormattedUnsignedDecimal};
use crate::formatted_sign::FormattedSign;
use crate::parts;
use fixed_decimal::{Decimal, Sign, UnsignedDecimal};
use icu_decimal_data::CompactPatterns;
use icu_decimal_options::grouper::longest_ungrouped;
use icu_decimal_options::options::{DecimalFormatterOptions, GroupingStrategy};
use icu_decimal_readable::{are_numbers_readable, is_table_readable};
use icu_decimal_symbols::DecimalSymbols;
use icu_pattern::SinglePlaceholder;
use std::alloc::Global;
use std::marker::Model;
use writeable::{ASCII_DIGITS, EventWriter, Grouping, WriteFault, Writeable};

/// Writes decimals in the digits, signs, separators and group sizes of a locale (ICU4X
/// `DecimalFormatter`).
#[derive(Drop)]
pub struct DecimalFormatter {
    options: DecimalFormatterOptions,
    symbols: DecimalSymbols,
    digits: [char; 10],
    /// The greatest count of digits that are not grouped.
    longest_ungrouped: usize,
    /// Whether the digits are the characters '0' to '9', for which writers have calls of their own.
    is_ascii: bool,
}

impl Model for DecimalFormatter {
    ghost use Rattle.std.specs.Prelude.{◌≡◌, IsTrue};
    ghost use Rattle.writeable.specs.Events.{ascii_characters};
    ghost use Rattle.icu_decimal.specs.Decimal.{DecimalFormat, strategy_of};
    ghost use Rattle.icu_decimal_options.specs.Grouping.{IsLongestUngrouped};

    ghost Value = { DecimalFormat };

    ghost view = { λ f. record { symbols = f.symbols; digits = f.digits; options = f.options } };

    ghost invariant = { λ f.
        IsLongestUngrouped f.longest_ungrouped f.symbols.grouping_sizes (strategy_of f.options)
        × (IsTrue f.is_ascii → f.digits ≡ ascii_characters) };
}

impl DecimalFormatter {
    ghost use Rattle.icu_decimal.specs.Formatted.{signed_number_events, number_events};
    ghost use Rattle.icu_decimal.specs.Cow.{value_of};
    ghost use Rattle.icu_decimal.specs.Signed.{affixes_for};

    /// The formatter of these symbols, these characters of the digits 0 to 9, and these options.
    pub fn from_parts(
        symbols: DecimalSymbols,
        digits: [char; 10],
        options: DecimalFormatterOptions,
    ) -> Self
        ensures { result ≡ record { symbols = symbols; digits = digits; options = options } }
    {
        let strategy = options.grouping_strategy.unwrap_or(GroupingStrategy::Auto);
        DecimalFormatter {
            longest_ungrouped: longest_ungrouped(strategy, symbols.grouping_sizes),
            is_ascii: digits == ASCII_DIGITS,
            options,
            symbols,
            digits,
        }
    }

    /// An equal formatter, with memory of its own.
    pub fn copy(&self, alloc: Global) -> Result<Self, FormatError>
        ensures equal { IfOk result (λ f. f ≡ self.now) }
        ensures memory { IsOkUnless result FormatError.OutOfMemory }
    {
        match self.symbols.copy(alloc) {
            Ok(symbols) => Ok(DecimalFormatter {
                options: self.options,
                symbols,
                digits: self.digits,
                longest_ungrouped: self.longest_ungrouped,
                is_ascii: self.is_ascii,
            }),
            Err(_) => Err(FormatError::OutOfMemory),
        }
    }

    /// The formatted decimal, which borrows its argument. This takes no memory, and writing it
    /// takes only the sink's.
    // promise: Formatter and decimal determine what is shown.
    // mutations: sign_lost, fraction_zero_at_the_end_cut
    pub fn format<'l>(&'l self, value: &'l Decimal) -> FormattedDecimal<'l>
        ensures value { result ≡ record {
          affixes = affixes_for self.now.symbols value.now.sign;
          value = record { format = self.now; number = value.now.absolute };
        } }
        ensures shown { signed_number_events result
            ≡ decimal_events self.now value.now.sign value.now.absolute }
    {
        let number = self.format_unsigned(Cow::Borrowed(&value.absolute));
        FormattedDecimal {
            signed: self.format_sign(value.sign, number),
        }
    }

    /// Whether each text determines its decimal: the sign, the range and every digit (this
    /// project's own).
    ///
    /// It does if the ten digits differ and none of them stands in an affix or a separator, if the
    /// decimal separator isn't empty and isn't the grouping separator, and if the pairs of affixes
    /// of minus, plus and no sign differ. Characters are compared, not bytes.
    // promise: It decides exactly whether plain numbers are readable.
    // mutations: readable_by_latin_digits
    pub fn is_readable(&self) -> bool
        ensures { IsTrue result ↔ IsReadable self.now.symbols.strings self.now.digits }
    {
        are_numbers_readable(&self.symbols, &self.digits)
    }

    /// The text of the decimal.
    // promise: The text is that of the decimal's events.
    // mutations: formatter_text_empty
    pub fn format_to_string(&self, alloc: Global, value: &Decimal) -> Result<String, FormatError>
        ensures text { IfOk result (λ t.
            string_bytes t ≡ text_of (decimal_events self.now value.now.sign value.now.absolute)) }
        ensures memory { IsOkUnless result FormatError.OutOfMemory }
    {
        match self.format(value).write_to_string(alloc) {
            Ok(text) => Ok(text),
            Err(_) => Err(FormatError::OutOfMemory),
        }
    }

    /// Whether compact numbers by this table are readable, if the formatter's own numbers are.
    pub(crate) fn is_readable_by(&self, patterns: &CompactPatterns<SinglePlaceholder>) -> bool
        ensures { IsTrue result
            ↔ IsReadableTable self.now.symbols.strings self.now.digits patterns.now }
    {
        is_table_readable(patterns, &self.symbols, &self.digits)
    }

    /// A number without a sign (ICU4X `format_unsigned`); this takes no memory.
    pub fn format_unsigned<'l>(
        &'l self,
        value: Cow<'l, UnsignedDecimal>,
    ) -> FormattedUnsignedDecimal<'l>
        ensures { result ≡ record { format = self.now; number = value_of value.entry } }
    {
        FormattedUnsignedDecimal {
            value,
            format: self,
        }
    }

    /// The options (this project's own).
    pub fn options(&self) -> &DecimalFormatterOptions
        ensures { result.now ≡ self.now.options }
    {
        &self.options
    }

    /// The symbols (this project's own).
    pub fn symbols(&self) -> &DecimalSymbols
        ensures { result.now ≡ self.now.symbols }
    {
        &self.symbols
    }

    /// The characters of the digits 0 to 9 (this project's own).
    pub fn digits(&self) -> &[char; 10]
        ensures { result.now ≡ self.now.digits }
    {
        &self.digits
    }

    /// Whether that many digits are grouped.
    pub(crate) fn is_grouped(&self, count: usize) -> bool
        ensures { IsTrue result
            ↔ IsTrue
            (is_grouped count self.now.symbols.grouping_sizes (strategy_of self.now.options)) }
    {
        self.longest_ungrouped < count
    }

    /// Writes digits with the formatter's characters.
    pub(crate) fn write_digits<K: EventWriter>(
        &self,
        digits: &[u8],
        out: &mut K,
    ) -> Result<(), WriteFault>
        requires { All (λ d. d < 10) digits.now }
        ensures { K.wrote out.old result (digit_events self.now.digits digits.now) out.new }
    {
        if self.is_ascii {
            return out.ascii_digits(digits);
        }
        out.digits(digits, &self.digits)
    }

    /// Writes digits in groups with the formatter's characters.
    pub(crate) fn write_groups<K: EventWriter>(
        &self,
        digits: &[u8],
        grouping: &Grouping<'_>,
        out: &mut K,
    ) -> Result<(), WriteFault>
        requires primary { 0 < grouping.now.primary }
        requires secondary { 0 < grouping.now.secondary }
        requires below_ten { All (λ d. d < 10) digits.now }
        ensures { K.wrote out.old result
            (grouped_events grouping.now self.now.digits digits.now) out.new }
    {
        if self.is_ascii {
            return out.ascii_groups(digits, grouping);
        }
        out.groups(digits, grouping, &self.digits)
    }

    /// The value with the affixes of the sign around it; this takes no memory.
    pub fn format_sign<'l, T>(&'l self, sign: Sign, value: T) -> FormattedSign<'l, T>
        ensures { result ≡ record { affixes = affixes_for self.now.symbols sign; value = value } }
    {
        let sign = match sign {
            Sign::None => None,
            Sign::Negative => Some((
                parts::MINUS_SIGN,
                self.symbols.minus_sign_prefix(),
                self.symbols.minus_sign_suffix(),
            )),
            Sign::Positive => Some((
                parts::PLUS_SIGN,
                self.symbols.plus_sign_prefix(),
                self.symbols.plus_sign_suffix(),
            )),
        };
        FormattedSign { value, sign }
    }
}
