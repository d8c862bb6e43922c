//! Numbers of rows, as a formatter shows them.

use crate::CallResult;
use crate::arguments::number_in;
use fixed_decimal::{Decimal, DecimalError};
use icu_decimal::error::FormatError;
use icu_decimal_interface::AbstractFormatter;
use icu_message::{ShownNumber, whole_number};
use std::alloc::{AllocError, Global};
use std::str;

/// Why a number isn't shown.
#[derive(Clone, Copy)]
pub(crate) enum Unshown {
    /// The text isn't a decimal.
    NoDecimal,
    /// What is shown is too large.
    Overflow,
    /// Memory ran out.
    Memory,
}

/// A text's decimal, as a formatter shows it.
fn shown<F: AbstractFormatter>(
    alloc: Global,
    formatter: &F,
    text: &str,
) -> Result<ShownNumber, Unshown> {
    let decimal = match Decimal::try_from_str(alloc, text) {
        Ok(decimal) => decimal,
        Err(DecimalError::OutOfMemory) => return Err(Unshown::Memory),
        Err(_) => return Err(Unshown::NoDecimal),
    };
    match ShownNumber::of(alloc, formatter, &decimal) {
        Ok(number) => Ok(number),
        Err(FormatError::Overflow) => Err(Unshown::Overflow),
        Err(_) => Err(Unshown::Memory),
    }
}

/// The numbers of arguments, as a formatter shows them.
pub(crate) fn shown_numbers<F: AbstractFormatter>(
    alloc: Global,
    formatter: &F,
    arguments: &[String],
) -> Result<Vec<ShownNumber>, Unshown> {
    let mut numbers = Vec::new(alloc);
    for argument in arguments {
        if let Some((_, text)) = number_in(argument) {
            let number = shown(alloc, formatter, text)?;
            if numbers.push(number).is_err() {
                return Err(Unshown::Memory);
            }
        }
    }
    Ok(numbers)
}

/// What is said of a number that isn't shown.
pub(crate) fn reason_unshown(alloc: Global, fault: Unshown) -> CallResult {
    match fault {
        Unshown::NoDecimal => Ok(None),
        Unshown::Overflow => Ok(Some(String::from_str(alloc, "Overflow")?)),
        Unshown::Memory => Err(AllocError),
    }
}

/// A number's text, its operands that say most, and the whole number that it is.
fn said(alloc: Global, number: &ShownNumber) -> CallResult {
    let operands = number.operands().raw();
    match (str::from_utf8(number.text()), number.whole()) {
        (Ok(text), Some(whole)) => Ok(Some(format!(in alloc;
            "{text} i={} v={} c={} whole {whole}",
            operands.i, operands.v, operands.c
        )?)),
        (Ok(text), None) => Ok(Some(format!(in alloc;
            "{text} i={} v={} c={}",
            operands.i, operands.v, operands.c
        )?)),
        (Err(_), _) => Ok(None),
    }
}

/// What a formatter shows of a text's decimal.
pub(crate) fn of<F: AbstractFormatter>(alloc: Global, formatter: &F, text: &str) -> CallResult {
    match shown(alloc, formatter, text) {
        Ok(number) => said(alloc, &number),
        Err(fault) => reason_unshown(alloc, fault),
    }
}

/// The whole number that a text's decimal is.
pub(crate) fn whole_of_text(alloc: Global, text: &str) -> CallResult {
    match Decimal::try_from_str(alloc, text) {
        Ok(decimal) => match whole_number(&decimal) {
            Some(whole) => Ok(Some(format!(in alloc; "{whole}")?)),
            None => Ok(Some(String::from_str(alloc, "none")?)),
        },
        Err(DecimalError::OutOfMemory) => Err(AllocError),
        Err(_) => Ok(None),
    }
}
