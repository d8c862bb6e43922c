//! Calls of `fixed_decimal`. A decimal is spelled as text: its sign, its digits over the whole
//! written range, and the point.

use crate::powers::{changed_in_place, multiplied_pow10};
use crate::words::{equal_or_different, said, yes_or_no};
use fixed_decimal::{Decimal, DecimalError, Sign, SignDisplay, UnsignedDecimal};
use std::alloc::{AllocError, Global};

/// Writes digits.
fn push_digits(text: &mut String, digits: &[u8]) -> Result<(), AllocError> {
    for digit in digits {
        text.push((b'0' + *digit % 10) as char)?;
    }
    Ok(())
}

/// Writes a number.
fn push_number(text: &mut String, number: &UnsignedDecimal) -> Result<(), AllocError> {
    push_digits(text, number.integer())?;
    let fraction = number.fraction();
    if !fraction.is_empty() {
        text.push('.')?;
    }
    push_digits(text, fraction)
}

/// A number as it is spelled.
fn spelled_number(alloc: Global, number: &UnsignedDecimal) -> Result<String, AllocError> {
    let mut text = String::new(alloc);
    push_number(&mut text, number)?;
    Ok(text)
}

/// A decimal as it is spelled.
pub(crate) fn spelled(alloc: Global, decimal: &Decimal) -> Result<String, AllocError> {
    let mut text = String::new(alloc);
    match decimal.sign {
        Sign::Negative => text.push('-')?,
        Sign::Positive => text.push('+')?,
        Sign::None => {}
    }
    push_number(&mut text, &decimal.absolute)?;
    Ok(text)
}

/// The name of an error.
pub(crate) fn name_of(error: DecimalError) -> &'static str {
    match error {
        DecimalError::Syntax => "Syntax",
        DecimalError::Limit => "Limit",
        DecimalError::OutOfMemory => "OutOfMemory",
    }
}

/// The answer of a call that may fail; an error by its name.
pub(crate) fn reported(
    alloc: Global,
    returned: Result<Option<String>, DecimalError>,
) -> Result<Option<String>, AllocError> {
    match returned {
        Ok(returned) => Ok(returned),
        Err(DecimalError::OutOfMemory) => Err(AllocError),
        Err(error) => said(alloc, name_of(error)),
    }
}

/// A decimal that was made.
fn made(
    alloc: Global,
    decimal: Result<Decimal, DecimalError>,
) -> Result<Option<String>, AllocError> {
    match decimal {
        Ok(decimal) => Ok(Some(spelled(alloc, &decimal)?)),
        Err(error) => reported(alloc, Err(error)),
    }
}

/// A number that was made.
fn made_number(
    alloc: Global,
    number: Result<UnsignedDecimal, DecimalError>,
) -> Result<Option<String>, AllocError> {
    match number {
        Ok(number) => Ok(Some(spelled_number(alloc, &number)?)),
        Err(error) => reported(alloc, Err(error)),
    }
}

/// A decimal that was made of another one, or the error and the other one that was handed back.
pub(crate) fn made_of(
    alloc: Global,
    decimal: Result<Decimal, (Decimal, DecimalError)>,
) -> Result<Option<String>, DecimalError> {
    match decimal {
        Ok(decimal) => Ok(Some(spelled(alloc, &decimal)?)),
        Err((_, DecimalError::OutOfMemory)) => Err(DecimalError::OutOfMemory),
        Err((same, error)) => {
            let same = spelled(alloc, &same)?;
            Ok(Some(format!(in alloc; "{} | {same}", name_of(error))?))
        }
    }
}

/// The same for numbers.
pub(crate) fn made_of_number(
    alloc: Global,
    number: Result<UnsignedDecimal, (UnsignedDecimal, DecimalError)>,
) -> Result<Option<String>, DecimalError> {
    match number {
        Ok(number) => Ok(Some(spelled_number(alloc, &number)?)),
        Err((_, DecimalError::OutOfMemory)) => Err(DecimalError::OutOfMemory),
        Err((same, error)) => {
            let same = spelled_number(alloc, &same)?;
            Ok(Some(format!(in alloc; "{} | {same}", name_of(error))?))
        }
    }
}

/// The bytes of a text and of bytes in hexadecimal digits behind it.
fn bytes_of(alloc: Global, text: &str, more: &[String]) -> Result<Option<Vec<u8>>, AllocError> {
    let mut bytes = Vec::from_slice(alloc, text.as_bytes())?;
    for byte in more {
        match u8::from_str_radix(byte.as_str(), 16) {
            Ok(byte) => bytes.push(byte)?,
            Err(_) => return Ok(None),
        }
    }
    Ok(Some(bytes))
}

fn try_from_utf8(alloc: Global, text: &str, more: &[String]) -> Result<Option<String>, AllocError> {
    match bytes_of(alloc, text, more)? {
        Some(bytes) => made(alloc, Decimal::try_from_utf8(alloc, &bytes)),
        None => Ok(None),
    }
}

fn from_u64(alloc: Global, value: &str) -> Result<Option<String>, AllocError> {
    match value.parse() {
        Ok(value) => made(alloc, Decimal::from_u64(alloc, value)),
        Err(_) => Ok(None),
    }
}

fn from_i64(alloc: Global, value: &str) -> Result<Option<String>, AllocError> {
    match value.parse() {
        Ok(value) => made(alloc, Decimal::from_i64(alloc, value)),
        Err(_) => Ok(None),
    }
}

fn unsigned_from_u64(alloc: Global, value: &str) -> Result<Option<String>, AllocError> {
    match value.parse() {
        Ok(value) => made_number(alloc, UnsignedDecimal::from_u64(alloc, value)),
        Err(_) => Ok(None),
    }
}

/// Makes a decimal of an argument.
pub(crate) fn decimal_of(alloc: Global, text: &str) -> Result<Decimal, DecimalError> {
    Decimal::try_from_str(alloc, text)
}

/// Makes a number of an argument.
pub(crate) fn number_of(alloc: Global, text: &str) -> Result<UnsignedDecimal, DecimalError> {
    Ok(decimal_of(alloc, text)?.absolute)
}

fn copy_of(alloc: Global, decimal: &Decimal) -> Result<Option<String>, DecimalError> {
    let copy = decimal.copy(alloc)?;
    let is_equal = equal_or_different(copy == *decimal);
    let copy = spelled(alloc, &copy)?;
    Ok(Some(format!(in alloc; "{copy} | {is_equal}")?))
}

fn copy_number(alloc: Global, number: &UnsignedDecimal) -> Result<Option<String>, DecimalError> {
    let copy = number.copy(alloc)?;
    let is_equal = equal_or_different(copy == *number);
    let copy = spelled_number(alloc, &copy)?;
    Ok(Some(format!(in alloc; "{copy} | {is_equal}")?))
}

fn copy(alloc: Global, text: &str) -> Result<Option<String>, DecimalError> {
    let decimal = decimal_of(alloc, text)?;
    copy_of(alloc, &decimal)
}

/// Whether a decimal equals that of a text.
fn is_equal_to(alloc: Global, left: &Decimal, right: &str) -> Result<bool, DecimalError> {
    let right = decimal_of(alloc, right)?;
    Ok(*left == right)
}

/// Whether the decimals of two texts are equal.
fn are_equal(alloc: Global, left: &str, right: &str) -> Result<bool, DecimalError> {
    let left = decimal_of(alloc, left)?;
    is_equal_to(alloc, &left, right)
}

fn eq(alloc: Global, left: &str, right: &str) -> Result<Option<String>, DecimalError> {
    let is_equal = are_equal(alloc, left, right)?;
    Ok(said(alloc, equal_or_different(is_equal))?)
}

/// The range of powers, the digits before the point and those behind it.
fn digits(alloc: Global, number: &UnsignedDecimal) -> Result<Option<String>, AllocError> {
    let range = number.magnitude_range();
    let mut returned = format!(in alloc; "{} to {} | ", range.start(), range.end())?;
    push_digits(&mut returned, number.integer())?;
    returned.push_str(" | ")?;
    push_digits(&mut returned, number.fraction())?;
    Ok(Some(returned))
}

/// What a call answers of a number alone, which it borrows.
fn of_number(
    alloc: Global,
    call: &str,
    number: &UnsignedDecimal,
) -> Result<Option<String>, AllocError> {
    match call {
        "digits" => digits(alloc, number),
        "nonzero_magnitude_start" => {
            let magnitude = number.nonzero_magnitude_start();
            Ok(Some(format!(in alloc; "{magnitude}")?))
        }
        "is_zero" => said(alloc, yes_or_no(number.is_zero())),
        _ => Ok(None),
    }
}

/// The same of the number of a text.
fn of_text(alloc: Global, call: &str, text: &str) -> Result<Option<String>, DecimalError> {
    let number = number_of(alloc, text)?;
    match call {
        "UnsignedDecimal::copy" => copy_number(alloc, &number),
        _ => Ok(of_number(alloc, call, &number)?),
    }
}

/// The digit of a number at a power.
fn digit_of(alloc: Global, text: &str, power: i16) -> Result<u8, DecimalError> {
    Ok(number_of(alloc, text)?.digit_at(power))
}

fn digit_at(alloc: Global, text: &str, power: &str) -> Result<Option<String>, DecimalError> {
    match power.parse() {
        Ok(power) => {
            let digit = digit_of(alloc, text, power)?;
            Ok(Some(format!(in alloc; "{digit}")?))
        }
        Err(_) => Ok(None),
    }
}

fn trimmed_end(alloc: Global, text: &str) -> Result<Option<String>, DecimalError> {
    let trimmed = number_of(alloc, text)?.trimmed_end();
    Ok(Some(spelled_number(alloc, &trimmed)?))
}

fn trimmed_start(alloc: Global, text: &str) -> Result<Option<String>, DecimalError> {
    let trimmed = number_of(alloc, text)?.trimmed_start();
    Ok(Some(spelled_number(alloc, &trimmed)?))
}

fn padded(
    alloc: Global,
    text: &str,
    integer: &str,
    fraction: &str,
) -> Result<Option<String>, DecimalError> {
    let (Ok(integer), Ok(fraction)) = (integer.parse(), fraction.parse()) else {
        return Ok(None);
    };
    let padded = number_of(alloc, text)?.padded(alloc, integer, fraction)?;
    Ok(Some(spelled_number(alloc, &padded)?))
}

/// The display of signs of a name.
fn sign_display(name: &str) -> Option<SignDisplay> {
    match name {
        "Auto" => Some(SignDisplay::Auto),
        "Never" => Some(SignDisplay::Never),
        "Always" => Some(SignDisplay::Always),
        "ExceptZero" => Some(SignDisplay::ExceptZero),
        "Negative" => Some(SignDisplay::Negative),
        _ => None,
    }
}

fn with_sign_display(
    alloc: Global,
    text: &str,
    display: &str,
) -> Result<Option<String>, DecimalError> {
    match sign_display(display) {
        Some(display) => {
            let decimal = decimal_of(alloc, text)?.with_sign_display(display);
            Ok(Some(spelled(alloc, &decimal)?))
        }
        None => Ok(None),
    }
}

fn rounded(alloc: Global, text: &str, power: &str) -> Result<Option<String>, DecimalError> {
    match power.parse() {
        Ok(power) => made_of(alloc, decimal_of(alloc, text)?.rounded(power)),
        Err(_) => Ok(None),
    }
}

fn rounded_number(alloc: Global, text: &str, power: &str) -> Result<Option<String>, DecimalError> {
    match power.parse() {
        Ok(power) => made_of_number(alloc, number_of(alloc, text)?.rounded(power)),
        Err(_) => Ok(None),
    }
}

fn rounded_significand(
    alloc: Global,
    text: &str,
    power: &str,
    exponent: &str,
) -> Result<Option<String>, DecimalError> {
    let (Ok(power), Ok(exponent)) = (power.parse::<i16>(), exponent.parse::<u8>()) else {
        return Ok(None);
    };
    let number = number_of(alloc, text)?;
    let is_within = exponent as i16 <= *number.magnitude_range().end();
    if !is_within || exponent as i32 - power as i32 > 32768 {
        return Ok(None);
    }
    let significand = number.rounded_significand(alloc, power, exponent)?;
    Ok(Some(spelled_number(alloc, &significand)?))
}

/// What a call answers of the digits of a number.
fn result_of_digits(
    alloc: Global,
    call: &str,
    arguments: &[String],
) -> Result<Option<String>, DecimalError> {
    match arguments {
        [text, powers @ ..] if call == "multiply_pow10" || call == "round" => {
            changed_in_place(alloc, call, text, powers)
        }
        [text] => match call {
            "Decimal::copy" => copy(alloc, text),
            "trimmed_end" => trimmed_end(alloc, text),
            "trimmed_start" => trimmed_start(alloc, text),
            "UnsignedDecimal::copy" | "digits" | "nonzero_magnitude_start" | "is_zero" => {
                of_text(alloc, call, text)
            }
            _ => Ok(None),
        },
        [text, other] => match call {
            "Decimal::eq" => eq(alloc, text, other),
            "digit_at" => digit_at(alloc, text, other),
            "with_sign_display" => with_sign_display(alloc, text, other),
            "rounded" => rounded(alloc, text, other),
            "UnsignedDecimal::rounded" => rounded_number(alloc, text, other),
            "multiplied_pow10" => multiplied_pow10(alloc, text, other),
            _ => Ok(None),
        },
        [text, power, exponent] if call == "rounded_significand" => {
            rounded_significand(alloc, text, power, exponent)
        }
        [text, integer, fraction] if call == "padded" => padded(alloc, text, integer, fraction),
        _ => Ok(None),
    }
}

/// What a call of decimals answers.
pub(crate) fn returned(
    alloc: Global,
    call: &str,
    arguments: &[String],
) -> Result<Option<String>, AllocError> {
    match arguments {
        [] if call == "one" => made_number(alloc, UnsignedDecimal::one(alloc)),
        [text, more @ ..] if call == "try_from_utf8" => try_from_utf8(alloc, text, more),
        [text] => match call {
            "Decimal::try_from_str" => made(alloc, Decimal::try_from_str(alloc, text)),
            "from_u64" => from_u64(alloc, text),
            "from_i64" => from_i64(alloc, text),
            "UnsignedDecimal::from_u64" => unsigned_from_u64(alloc, text),
            _ => reported(alloc, result_of_digits(alloc, call, arguments)),
        },
        _ => reported(alloc, result_of_digits(alloc, call, arguments)),
    }
}
