//! Calls of `fixed_decimal` that round by a mode. A mode has the name of its variant, and an
//! increment is a number.

use crate::decimals::{decimal_of, made_of, made_of_number, reported};
use fixed_decimal::{
    DecimalError, RoundingIncrement, Sign, SignedRoundingMode, UnsignedRoundingMode,
};
use std::alloc::{AllocError, Global};

/// The mode of a name that asks for no sign.
fn unsigned_mode(name: &str) -> Option<UnsignedRoundingMode> {
    match name {
        "Expand" => Some(UnsignedRoundingMode::Expand),
        "Trunc" => Some(UnsignedRoundingMode::Trunc),
        "HalfExpand" => Some(UnsignedRoundingMode::HalfExpand),
        "HalfTrunc" => Some(UnsignedRoundingMode::HalfTrunc),
        "HalfEven" => Some(UnsignedRoundingMode::HalfEven),
        _ => None,
    }
}

/// The mode of a name.
pub(crate) fn mode_of(name: &str) -> Option<SignedRoundingMode> {
    match name {
        "Ceil" => Some(SignedRoundingMode::Ceil),
        "Floor" => Some(SignedRoundingMode::Floor),
        "HalfCeil" => Some(SignedRoundingMode::HalfCeil),
        "HalfFloor" => Some(SignedRoundingMode::HalfFloor),
        _ => match unsigned_mode(name) {
            Some(mode) => Some(SignedRoundingMode::Unsigned(mode)),
            None => None,
        },
    }
}

/// The increment of a number.
fn increment_of(number: &str) -> Option<RoundingIncrement> {
    match number {
        "1" => Some(RoundingIncrement::MultiplesOf1),
        "2" => Some(RoundingIncrement::MultiplesOf2),
        "5" => Some(RoundingIncrement::MultiplesOf5),
        "25" => Some(RoundingIncrement::MultiplesOf25),
        _ => None,
    }
}

/// A decimal rounded by a mode.
fn with_mode(
    alloc: Global,
    text: &str,
    power: &str,
    mode: &str,
) -> Result<Option<String>, DecimalError> {
    let (Ok(power), Some(mode)) = (power.parse::<i16>(), mode_of(mode)) else {
        return Ok(None);
    };
    made_of(
        alloc,
        decimal_of(alloc, text)?.rounded_with_mode(power, mode),
    )
}

/// The same of its number, and whether there is a minus.
fn number_with_mode(
    alloc: Global,
    text: &str,
    power: &str,
    mode: &str,
) -> Result<Option<String>, DecimalError> {
    let (Ok(power), Some(mode)) = (power.parse::<i16>(), mode_of(mode)) else {
        return Ok(None);
    };
    let decimal = decimal_of(alloc, text)?;
    let minus = decimal.sign == Sign::Negative;
    made_of_number(
        alloc,
        decimal.absolute.rounded_with_mode(power, mode, minus),
    )
}

/// A decimal rounded by a mode and an increment.
fn with_increment(
    alloc: Global,
    text: &str,
    power: &str,
    mode: &str,
    increment: RoundingIncrement,
) -> Result<Option<String>, DecimalError> {
    let (Ok(power), Some(mode)) = (power.parse::<i16>(), mode_of(mode)) else {
        return Ok(None);
    };
    let decimal = decimal_of(alloc, text)?;
    made_of(
        alloc,
        decimal.rounded_with_mode_and_increment(power, mode, increment),
    )
}

/// The same of its number, and whether there is a minus.
fn number_with_increment(
    alloc: Global,
    text: &str,
    power: &str,
    mode: &str,
    increment: RoundingIncrement,
) -> Result<Option<String>, DecimalError> {
    let (Ok(power), Some(mode)) = (power.parse::<i16>(), mode_of(mode)) else {
        return Ok(None);
    };
    let decimal = decimal_of(alloc, text)?;
    let minus = decimal.sign == Sign::Negative;
    let number = decimal.absolute;
    let rounded = number.rounded_with_mode_and_increment(power, mode, minus, increment);
    made_of_number(alloc, rounded)
}

/// What a call answers that takes an increment.
fn result_of_increments(
    alloc: Global,
    call: &str,
    text: &str,
    power: &str,
    mode: &str,
    increment: &str,
) -> Result<Option<String>, DecimalError> {
    let Some(increment) = increment_of(increment) else {
        return Ok(None);
    };
    match call {
        "rounded_with_mode_and_increment" => with_increment(alloc, text, power, mode, increment),
        "UnsignedDecimal::rounded_with_mode_and_increment" => {
            number_with_increment(alloc, text, power, mode, increment)
        }
        _ => Ok(None),
    }
}

/// What a call answers that takes a mode.
fn result_of_modes(
    alloc: Global,
    call: &str,
    arguments: &[String],
) -> Result<Option<String>, DecimalError> {
    match arguments {
        [text, power, mode] => match call {
            "rounded_with_mode" => with_mode(alloc, text, power, mode),
            "UnsignedDecimal::rounded_with_mode" => number_with_mode(alloc, text, power, mode),
            _ => Ok(None),
        },
        [text, power, mode, increment] => {
            result_of_increments(alloc, call, text, power, mode, increment)
        }
        _ => Ok(None),
    }
}

/// What a call that rounds by a mode answers.
pub(crate) fn returned(
    alloc: Global,
    call: &str,
    arguments: &[String],
) -> Result<Option<String>, AllocError> {
    reported(alloc, result_of_modes(alloc, call, arguments))
}
