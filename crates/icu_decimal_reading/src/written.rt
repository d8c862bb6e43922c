//! The texts of a number, compared with a text.

ghost use Rattle.std.specs.Prelude.{◌≡◌, ◌≢◌, IfErr, IfOk, IsOkUnless, MatchOption, chars};
ghost use Rattle.std.specs.String.{string_bytes};
ghost use Rattle.fixed_decimal.specs.declared.signs.Sign.{Sign as OfSign};
ghost use Rattle.icu_decimal_reading.specs.Reading.{alike, differs_from, IfNoNumber, IsAt, ungrouped, written};

use crate::NotRead;
use crate::alike::bytes_alike;
use fixed_decimal::{Sign, UnsignedDecimal};
use icu_decimal::{Cow, DecimalFormatter};
use icu_decimal_options::{DecimalFormatterOptions, GroupingStrategy};
use std::alloc::Global;
use writeable::Writeable;

/// The text of a number with a sign.
fn text_of(
    alloc: Global,
    formatter: &DecimalFormatter,
    sign: Sign,
    number: &UnsignedDecimal,
) -> Result<String, NotRead>
    ensures text { IfOk result (λ t.
        chars (string_bytes t) ≡ written formatter.now sign number.now) }
    ensures memory { IsOkUnless result NotRead.OutOfMemory }
{
    let shown = formatter.format_sign(sign, formatter.format_unsigned(Cow::Borrowed(number)));
    match shown.write_to_string(alloc) {
        Ok(text) => Ok(text),
        Err(_) => Err(NotRead::OutOfMemory),
    }
}

/// The first byte at which a text differs from that of the number with a sign; `None` if it is
/// that text.
fn difference(
    alloc: Global,
    formatter: &DecimalFormatter,
    sign: Sign,
    number: &UnsignedDecimal,
    text: &str,
) -> Result<Option<usize>, NotRead>
    ensures differs { IfOk result (λ o. MatchOption o
        (chars text.now ≡ written formatter.now sign number.now)
        (λ byte. (byte ≡ alike (chars text.now) (written formatter.now sign number.now))
        × (chars text.now ≢ written formatter.now sign number.now))) }
    ensures memory { IsOkUnless result NotRead.OutOfMemory }
{
    let written = text_of(alloc, formatter, sign, number)?;
    if text == written.as_str() {
        return Ok(None);
    }
    Ok(Some(bytes_alike(text, written.as_str())))
}

/// The sign with which a text is that of the number.
pub(crate) fn sign_of(
    alloc: Global,
    formatter: &DecimalFormatter,
    number: &UnsignedDecimal,
    text: &str,
) -> Result<Sign, NotRead>
    ensures read { IfOk result (λ sign. chars text.now ≡ written formatter.now sign number.now) }
    ensures refused { IfErr result (IfNoNumber ((sign : OfSign) →
        chars text.now ≢ written formatter.now sign number.now)) }
    ensures byte { IfErr result (IsAt (differs_from formatter.now (chars text.now) number.now)) }
{
    let Some(none) = difference(alloc, formatter, Sign::None, number, text)? else {
        return Ok(Sign::None);
    };
    let Some(minus) = difference(alloc, formatter, Sign::Negative, number, text)? else {
        return Ok(Sign::Negative);
    };
    let Some(plus) = difference(alloc, formatter, Sign::Positive, number, text)? else {
        return Ok(Sign::Positive);
    };
    Err(NotRead::NoNumber {
        byte: none.max(minus).max(plus),
    })
}

/// The same formatter without groups.
pub(crate) fn ungrouped(
    alloc: Global,
    formatter: &DecimalFormatter,
) -> Result<DecimalFormatter, NotRead>
    ensures format { IfOk result (λ f. f ≡ ungrouped formatter.now) }
    ensures memory { IsOkUnless result NotRead.OutOfMemory }
{
    match formatter.symbols().copy(alloc) {
        Ok(symbols) => Ok(DecimalFormatter::from_parts(
            symbols,
            *formatter.digits(),
            DecimalFormatterOptions::from(GroupingStrategy::Never),
        )),
        Err(_) => Err(NotRead::OutOfMemory),
    }
}
