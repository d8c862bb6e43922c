//! The number that some digits make.

ghost use Rattle.std.specs.Prelude.{◌≡◌, ◌<◌, ◌-◌, ◌++◌, false, true, All, IfOk, IfSome, IsOkUnless, MatchOption, OnOk, length, take, drop};
ghost use Rattle.fixed_decimal.specs.declared.signs.Sign.{Sign as OfSign};
ghost use Rattle.fixed_decimal.specs.Text.{digits_text, fraction_text, Reads};
ghost use Rattle.fixed_decimal.specs.Unsigned.{IsUnsigned};
ghost use Rattle.icu_decimal_reading.specs.Reading.{is_decimal, number_of};

use crate::NotRead;
use fixed_decimal::{Decimal, UnsignedDecimal};
use std::alloc::{AllocError, Global};

/// The most digits that a decimal has before its separator, and the most behind it.
const MOST_DIGITS: usize = 32768;

/// Whether so many digits are a decimal's, with so many of them behind its separator.
fn is_decimal(count: usize, scale: usize) -> bool
    ensures { result ≡ is_decimal count scale }
{
    scale < count && count - scale <= MOST_DIGITS && scale <= MOST_DIGITS
}

/// Writes digits as ASCII.
fn push_digits(bytes: &mut Vec<u8>, digits: &[u8]) -> Result<(), AllocError>
    requires { All (λ d. d < 10) digits.now }
    ensures { OnOk result (bytes.new.items ≡ bytes.old.items ++ digits_text digits.now) }
{
    for digit in digits {
        bytes.push(b'0' + *digit)?;
    }
    Ok(())
}

/// The text form of the number with these digits, so many of them behind the point.
fn spelled(alloc: Global, digits: &[u8], scale: usize) -> Result<Vec<u8>, AllocError>
    requires below_ten { All (λ d. d < 10) digits.now }
    requires within { scale < length digits.now }
    ensures { IfOk result (λ v. v.items ≡ digits_text (take (length digits.now - scale) digits.now)
        ++ fraction_text (drop (length digits.now - scale) digits.now)) }
{
    let mut bytes = Vec::new(alloc);
    let (integer, fraction) = digits.split_at(digits.len() - scale);
    push_digits(&mut bytes, integer)?;
    if !fraction.is_empty() {
        bytes.push(b'.')?;
        push_digits(&mut bytes, fraction)?;
    }
    Ok(bytes)
}

/// The number that a text form without a sign spells.
fn read_form(alloc: Global, form: &[u8]) -> Result<UnsignedDecimal, NotRead>
    ensures reads { IfOk result (λ u. (sign : OfSign) × Reads form.now sign u) }
    ensures valid { IfOk result (λ u. IsUnsigned u) }
    ensures memory { IsOkUnless result NotRead.OutOfMemory }
{
    match Decimal::try_from_utf8(alloc, form) {
        Ok(decimal) => Ok(decimal.absolute),
        Err(_) => Err(NotRead::OutOfMemory),
    }
}

/// The number with these digits, so many of them behind the separator; `None` if it is no decimal.
pub(crate) fn number_of(
    alloc: Global,
    digits: &[u8],
    scale: usize,
) -> Result<Option<UnsignedDecimal>, NotRead>
    requires { All (λ d. d < 10) digits.now }
    ensures number { IfOk result (λ o. MatchOption o
        (is_decimal (length digits.now) scale ≡ false)
        (λ u. (is_decimal (length digits.now) scale ≡ true)
        × (u ≡ number_of digits.now scale))) }
    ensures valid { IfOk result (λ o. IfSome o (λ u. IsUnsigned u)) }
    ensures memory { IsOkUnless result NotRead.OutOfMemory }
{
    if !is_decimal(digits.len(), scale) {
        return Ok(None);
    }
    let form = spelled(alloc, digits, scale)?;
    Ok(Some(read_form(alloc, &form)?))
}
