//! Reading a text as a compact number.

ghost use Rattle.std.specs.Prelude.{◌≡◌, ◌<◌, ℕ, All, IfErr, IfOk, chars};
ghost use Rattle.fixed_decimal.specs.Unsigned.{IsUnsigned};
ghost use Rattle.icu_decimal_data.specs.CompactTable.{TableEntry};
ghost use Rattle.icu_decimal.specs.Readable.{IsReadableCompact};
ghost use Rattle.icu_decimal_reading.specs.CompactReading.{IsCompactTextOf, IsNoCompactText, IsOfNoSign};
ghost use Rattle.icu_decimal_reading.specs.CompactReading.{compact_fault_byte, differs_by, differs_by_digits, differs_throughout};
ghost use Rattle.icu_decimal_reading.specs.Reading.{IfNoNumber, IsAt, number_of, values};

use crate::NotRead;
use crate::compact_decimal::CompactDecimal;
use crate::compact_written::give_sign;
use crate::digits::{last_run, values_of};
use crate::number::number_of;
use fixed_decimal::{Decimal, Sign};
use icu_decimal::CompactDecimalFormatter;
use std::alloc::Global;

/// The exponent of an entry of the table with which a text is that of a significand, which gets the
/// text's sign.
fn exponent_by_table(
    alloc: Global,
    formatter: &CompactDecimalFormatter,
    significand: &mut Decimal,
    text: &str,
) -> Result<u8, NotRead>
    ensures absolute { significand.new.absolute ≡ significand.old.absolute }
    ensures read { IfOk result (λ n. IsCompactTextOf formatter.now (chars text.now)
        significand.new.sign significand.old.absolute n) }
    ensures refused { IfErr result (IfNoNumber (All (λ (e : TableEntry).
        IsOfNoSign formatter.now (chars text.now) significand.old.absolute e.exponent)
        formatter.now.table)) }
    ensures byte { IfErr result (IsAt (differs_by formatter.now (chars text.now)
        significand.old.absolute formatter.now.table)) }
{
    let patterns = formatter.patterns();
    let mut nearest = 0;
    for index in 0..patterns.len() {
        let exponent = patterns.exponent(index);
        let Some(byte) = give_sign(alloc, formatter, significand, exponent, text)? else {
            return Ok(exponent);
        };
        nearest = byte.max(nearest);
    }
    Err(NotRead::NoNumber { byte: nearest })
}

/// The exponent with which a text is that of a significand, which gets the text's sign.
fn exponent_with(
    alloc: Global,
    formatter: &CompactDecimalFormatter,
    significand: &mut Decimal,
    text: &str,
) -> Result<u8, NotRead>
    ensures absolute { significand.new.absolute ≡ significand.old.absolute }
    ensures read { IfOk result (λ n. IsCompactTextOf formatter.now (chars text.now)
        significand.new.sign significand.old.absolute n) }
    ensures refused { IfErr result (IfNoNumber ((n : ℕ) →
        IsOfNoSign formatter.now (chars text.now) significand.old.absolute n)) }
    ensures byte { IfErr result (IsAt (differs_throughout formatter.now (chars text.now)
        significand.old.absolute)) }
{
    let Some(byte) = give_sign(alloc, formatter, significand, 0, text)? else {
        return Ok(0);
    };
    match exponent_by_table(alloc, formatter, significand, text) {
        Err(NotRead::NoNumber { byte: other }) => Err(NotRead::NoNumber {
            byte: byte.max(other),
        }),
        found => found,
    }
}

/// Reads a text as a compact number with these digits in its significand, so many of them behind
/// the separator.
fn read_compact_scaled(
    alloc: Global,
    formatter: &CompactDecimalFormatter,
    digits: &[u8],
    scale: usize,
    text: &str,
) -> Result<CompactDecimal, NotRead>
    requires { All (λ d. d < 10) digits.now }
    ensures read { IfOk result (λ r. IsCompactTextOf formatter.now (chars text.now)
        r.significand.sign r.significand.absolute r.exponent) }
    ensures valid { IfOk result (λ r. IsUnsigned r.significand.absolute) }
    ensures refused { IfErr result (IfNoNumber ((n : ℕ) → IsUnsigned (number_of digits.now scale)
        → IsOfNoSign formatter.now (chars text.now) (number_of digits.now scale) n)) }
    ensures byte { IfErr result (IsAt (differs_by_digits formatter.now (chars text.now) digits.now
        scale)) }
{
    let Some(absolute) = number_of(alloc, digits, scale)? else {
        return Err(NotRead::NoNumber { byte: 0 });
    };
    let mut significand = Decimal {
        sign: Sign::None,
        absolute,
    };
    let exponent = exponent_with(alloc, formatter, &mut significand, text)?;
    Ok(CompactDecimal {
        significand,
        exponent,
    })
}

/// Reads a text as a compact number with these digits in its significand.
fn read_compact_digits(
    alloc: Global,
    formatter: &CompactDecimalFormatter,
    digits: &[u8],
    text: &str,
) -> Result<CompactDecimal, NotRead>
    requires below_ten { All (λ d. d < 10) digits.now }
    requires digits { digits.now ≡ values formatter.now.decimal.digits (chars text.now) }
    ensures read { IfOk result (λ r. IsCompactTextOf formatter.now (chars text.now)
        r.significand.sign r.significand.absolute r.exponent) }
    ensures valid { IfOk result (λ r. IsUnsigned r.significand.absolute) }
    ensures refused { IsReadableCompact formatter.now
        → IfErr result (IfNoNumber (IsNoCompactText formatter.now (chars text.now))) }
    ensures byte { IfErr result (IsAt (compact_fault_byte formatter.now (chars text.now))) }
{
    let byte = match read_compact_scaled(alloc, formatter, digits, 0, text) {
        Err(NotRead::NoNumber { byte }) => byte,
        read => return read,
    };
    let scale = last_run(formatter.decimal_formatter().digits(), text);
    match read_compact_scaled(alloc, formatter, digits, scale, text) {
        Err(NotRead::NoNumber { byte: other }) => Err(NotRead::NoNumber {
            byte: byte.max(other),
        }),
        read => read,
    }
}

/// Reads the text of a compact number, as the formatter writes it: a significand in the pattern of
/// an exponent that the formatter accepts.
///
/// The digits of the text are those characters that are digits of the formatter. The significand is
/// the whole number with these digits, or the one with the last run of digits as its fraction. The
/// exponent is 0, or that of an entry of the table. If the text is that of none of them, with any
/// sign, the answer is `NoNumber`.
///
/// What is read is accepted by [`CompactDecimalFormatter::format_with_exponent`], and written again
/// in the same bytes ([`laws::read_compact_is_written`]). If the formatter is readable
/// ([`CompactDecimalFormatter::is_readable`]), each text that it writes is read as its significand,
/// in sign, range and every digit, and its exponent ([`laws::written_compact_is_read`]). No other
/// text is read.
///
/// It takes memory for the digits, the significand, and texts, of which it holds one at a time: at
/// most six for each exponent that the formatter accepts for the significand.
///
/// [`laws::read_compact_is_written`]: crate::laws::read_compact_is_written
/// [`laws::written_compact_is_read`]: crate::laws::written_compact_is_read
// promise: A compact text is that of the number that is read.
// mutations: compact_exponent_one_too_large
// promise: If readable, each compact text is read.
// mutations: compact_plus_not_tried, first_entry_not_tried
// promise: `NoNumber` names the byte where a compact text differs.
// mutations: compact_fault_of_the_nearer_sign
pub fn read_compact(
    alloc: Global,
    formatter: &CompactDecimalFormatter,
    text: &str,
) -> Result<CompactDecimal, NotRead>
    ensures read { IfOk result (λ r. IsCompactTextOf formatter.now (chars text.now)
        r.significand.sign r.significand.absolute r.exponent) }
    ensures valid { IfOk result (λ r. IsUnsigned r.significand.absolute) }
    // No text that a readable formatter writes is rejected.
    ensures refused { IsReadableCompact formatter.now
        → IfErr result (IfNoNumber (IsNoCompactText formatter.now (chars text.now))) }
    ensures byte { IfErr result (IsAt (compact_fault_byte formatter.now (chars text.now))) }
{
    let digits = values_of(alloc, formatter.decimal_formatter().digits(), text)?;
    read_compact_digits(alloc, formatter, &digits, text)
}
