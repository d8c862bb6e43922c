//! The texts of a significand with an exponent, compared with a text.

ghost use Rattle.std.specs.Prelude.{◌≡◌, ◌≢◌, IfOk, IsOkUnless, MatchOption, chars};
ghost use Rattle.std.specs.String.{string_bytes};
ghost use Rattle.icu_decimal.specs.CompactFormat.{exponent_needed};
ghost use Rattle.icu_decimal_reading.specs.CompactReading.{alike_with, compact_written, differs_with, IsCompactTextOf, IsOfNoSign};

use crate::NotRead;
use crate::alike::bytes_alike;
use fixed_decimal::{Decimal, Sign};
use icu_decimal::CompactDecimalFormatter;
use std::alloc::Global;
use writeable::Writeable;

/// The text of a significand with an exponent; `None` if the formatter doesn't accept the exponent.
fn compact_text(
    alloc: Global,
    formatter: &CompactDecimalFormatter,
    significand: &Decimal,
    exponent: u8,
) -> Result<Option<String>, NotRead>
    ensures text { IfOk result (λ o. MatchOption o
        (exponent ≢ exponent_needed formatter.now significand.now.absolute exponent)
        (λ t. (exponent ≡ exponent_needed formatter.now significand.now.absolute exponent)
        × (chars (string_bytes t) ≡ compact_written formatter.now significand.now.sign
        significand.now.absolute
        exponent))) }
    ensures memory { IsOkUnless result NotRead.OutOfMemory }
{
    let Ok(shown) = formatter.format_with_exponent(significand, exponent) else {
        return Ok(None);
    };
    match shown.write_to_string(alloc) {
        Ok(text) => Ok(Some(text)),
        Err(_) => Err(NotRead::OutOfMemory),
    }
}

/// The first byte at which a text differs from that of a significand with an exponent; `None` if
/// it is that text.
fn difference_with(
    alloc: Global,
    formatter: &CompactDecimalFormatter,
    significand: &Decimal,
    exponent: u8,
    text: &str,
) -> Result<Option<usize>, NotRead>
    ensures differs { IfOk result (λ o. MatchOption o
        (IsCompactTextOf formatter.now (chars text.now) significand.now.sign
        significand.now.absolute
        exponent)
        (λ byte. (byte ≡ alike_with formatter.now (chars text.now) significand.now.sign
        significand.now.absolute
        exponent)
        × ¬ (IsCompactTextOf formatter.now (chars text.now) significand.now.sign
        significand.now.absolute
        exponent))) }
    ensures memory { IsOkUnless result NotRead.OutOfMemory }
{
    let Some(written) = compact_text(alloc, formatter, significand, exponent)? else {
        return Ok(Some(0));
    };
    if text == written.as_str() {
        return Ok(None);
    }
    Ok(Some(bytes_alike(text, written.as_str())))
}

/// Gives a significand the sign with which a text is that of the significand with an exponent.
/// `None` if there is one; else the first byte at which the text differs from all three.
pub(crate) fn give_sign(
    alloc: Global,
    formatter: &CompactDecimalFormatter,
    significand: &mut Decimal,
    exponent: u8,
    text: &str,
) -> Result<Option<usize>, NotRead>
    ensures absolute { significand.new.absolute ≡ significand.old.absolute }
    ensures found { IfOk result (λ o. MatchOption o
        (IsCompactTextOf formatter.now (chars text.now) significand.new.sign
        significand.old.absolute
        exponent)
        (λ byte. (byte ≡ differs_with formatter.now (chars text.now) significand.old.absolute
        exponent)
        × IsOfNoSign formatter.now (chars text.now) significand.old.absolute exponent)) }
    ensures memory { IsOkUnless result NotRead.OutOfMemory }
{
    significand.sign = Sign::None;
    let Some(none) = difference_with(alloc, formatter, significand, exponent, text)? else {
        return Ok(None);
    };
    significand.sign = Sign::Negative;
    let Some(minus) = difference_with(alloc, formatter, significand, exponent, text)? else {
        return Ok(None);
    };
    significand.sign = Sign::Positive;
    let Some(plus) = difference_with(alloc, formatter, significand, exponent, text)? else {
        return Ok(None);
    };
    Ok(Some(none.max(minus).max(plus)))
}
