//! A hundred times a number.

ghost use Rattle.std.specs.Prelude.{◌≡◌, ◌≢◌, ◌∷◌, ◌++◌, ◌<◌, [], All, drop, length, negsuc};
ghost use Rattle.std.specs.Prelude.{IfErr, IfOk, IsErrOf, OnOk};
ghost use Rattle.fixed_decimal.specs.Text.{digits_text, fraction_text};
ghost use Rattle.fixed_decimal.specs.Unsigned.{IsWithinLimits, digit_at, fraction, integer};
ghost use Rattle.icu_dimension.specs.Percent.{fraction_hundredfold, hundredfold, integer_hundredfold, trimmed};

use fixed_decimal::{Decimal, DecimalError, UnsignedDecimal};
use icu_decimal::error::FormatError;
use std::alloc::{AllocError, Global};

/// The digits without zeros at their front; the last digit stays.
fn without_first_zeros(digits: &[u8]) -> &[u8]
    ensures trimmed { result.now ≡ trimmed digits.now }
    ensures below_ten { All (λ d. d < 10) digits.now → All (λ d. d < 10) result.now }
{
    let mut rest = digits;
    while rest.len() > 1 && rest[0] == 0 {
        rest = rest.split_at(1).1;
    }
    rest
}

/// The digits at power -2 and above.
fn whole_digits(alloc: Global, value: &UnsignedDecimal) -> Result<Vec<u8>, AllocError>
    ensures digits { IfOk result (λ v. v.items
        ≡ integer value.now ++ digit_at value.now (negsuc 0) ∷ digit_at value.now (negsuc 1) ∷ []) }
    ensures below_ten { IfOk result (λ v. All (λ d. d < 10) v.items) }
{
    let mut digits = Vec::from_slice(alloc, value.integer())?;
    digits.push(value.digit_at(-1))?;
    digits.push(value.digit_at(-2))?;
    Ok(digits)
}

/// The digits below power -2.
fn rest_digits(value: &UnsignedDecimal) -> &[u8]
    ensures digits { result.now ≡ drop 2 (fraction value.now) }
    ensures below_ten { All (λ d. d < 10) result.now }
{
    let fraction = value.fraction();
    if fraction.len() < 2 {
        return &[];
    }
    fraction.split_at(2).1
}

/// Appends digits as a text.
fn push_digits(text: &mut Vec<u8>, digits: &[u8]) -> Result<(), AllocError>
    requires { All (λ d. d < 10) digits.now }
    ensures { OnOk result (text.new.items ≡ text.old.items ++ digits_text digits.now) }
{
    for digit in digits {
        text.push(b'0' + *digit)?;
    }
    Ok(())
}

/// Appends a point and the digits behind it, if there are any.
fn push_fraction(text: &mut Vec<u8>, digits: &[u8]) -> Result<(), AllocError>
    requires { All (λ d. d < 10) digits.now }
    ensures { OnOk result (text.new.items ≡ text.old.items ++ fraction_text digits.now) }
{
    if digits.is_empty() {
        return Ok(());
    }
    text.push(b'.')?;
    push_digits(text, digits)
}

/// The text of a hundred times the number.
fn hundredfold_text(alloc: Global, value: &UnsignedDecimal) -> Result<Vec<u8>, AllocError>
    ensures text { IfOk result (λ v. v.items ≡ digits_text (integer_hundredfold value.now)
        ++ fraction_text (fraction_hundredfold value.now)) }
    ensures integer { OnOk result (All (λ d. d < 10) (integer_hundredfold value.now)) }
    ensures fraction { OnOk result (All (λ d. d < 10) (fraction_hundredfold value.now)) }
{
    let digits = whole_digits(alloc, value)?;
    let mut text = Vec::new(alloc);
    push_digits(&mut text, without_first_zeros(&digits))?;
    push_fraction(&mut text, rest_digits(value))?;
    Ok(text)
}

/// A hundred times the number, exactly and without leading zeros: the percents that it is (this
/// project's own).
///
/// `Overflow` if that has more than 32768 digits at power 0 and above. `Sink` is never reported.
// promise: The point moves two digits, and no digit changes.
// mutations: percent_by_moving_the_point_the_other_way, percent_fraction_left_out
pub fn percents_of(alloc: Global, value: &UnsignedDecimal) -> Result<UnsignedDecimal, FormatError>
    ensures times { IfOk result (λ v. v ≡ hundredfold value.now) }
    ensures within { OnOk result (IsWithinLimits (hundredfold value.now)) }
    ensures limit { IsErrOf result FormatError.Overflow
        → ¬ IsWithinLimits (hundredfold value.now) }
    ensures no_sink { IfErr result (λ e. e ≢ FormatError.Sink) }
{
    let Ok(text) = hundredfold_text(alloc, value) else {
        return Err(FormatError::OutOfMemory);
    };
    match Decimal::try_from_utf8(alloc, &text) {
        Ok(decimal) => {
            let Decimal { absolute, .. } = decimal;
            Ok(absolute)
        }
        Err(DecimalError::Limit) => Err(FormatError::Overflow),
        Err(DecimalError::OutOfMemory) => Err(FormatError::OutOfMemory),
        Err(DecimalError::Syntax) => unreachable!(),
    }
}
