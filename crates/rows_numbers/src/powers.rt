//! Calls of `fixed_decimal` that multiply by powers of ten, and those that change a decimal in place.

use crate::decimals::{decimal_of, made_of_number, name_of, number_of, spelled};
use fixed_decimal::{Decimal, DecimalError};
use std::alloc::Global;

/// The product of a number and a power of ten.
pub(crate) fn multiplied_pow10(
    alloc: Global,
    text: &str,
    power: &str,
) -> Result<Option<String>, DecimalError> {
    match power.parse() {
        Ok(power) => made_of_number(alloc, number_of(alloc, text)?.multiplied_pow10(power)),
        Err(_) => Ok(None),
    }
}

/// Changes a decimal in place, and appends what the call answers.
fn change(
    decimal: &mut Decimal,
    call: &str,
    power: i16,
    returned: &mut String,
) -> Result<(), DecimalError> {
    let result = match call {
        "round" => decimal.round(power),
        _ => decimal.multiply_pow10(power),
    };
    match result {
        Ok(()) => Ok(returned.push_str("done ")?),
        Err(DecimalError::OutOfMemory) => Err(DecimalError::OutOfMemory),
        Err(error) => {
            returned.push_str(name_of(error))?;
            Ok(returned.push(' ')?)
        }
    }
}

/// Changes a decimal in place by one power after another. Whether each text is a power.
fn change_by(
    decimal: &mut Decimal,
    call: &str,
    powers: &[String],
    returned: &mut String,
) -> Result<bool, DecimalError> {
    for power in powers {
        match power.as_str().parse() {
            Ok(power) => change(decimal, call, power, returned)?,
            Err(_) => return Ok(false),
        }
    }
    Ok(true)
}

/// What each call in place answers, and the decimal behind the last of them.
pub(crate) fn changed_in_place(
    alloc: Global,
    call: &str,
    text: &str,
    powers: &[String],
) -> Result<Option<String>, DecimalError> {
    let mut returned = String::new(alloc);
    let mut decimal = decimal_of(alloc, text)?;
    if !change_by(&mut decimal, call, powers, &mut returned)? {
        return Ok(None);
    }
    returned.push_str("| ")?;
    returned.push_str(spelled(alloc, &decimal)?.as_str())?;
    Ok(Some(returned))
}
