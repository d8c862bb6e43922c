//! The call of `number_rounding`. A precision is a number skeleton, and a mode has the name of its
//! variant. What is shown is spelled as a significand and, by a table, its exponent.

use crate::compact_tables::{Unmade, table_of};
use crate::decimals::{decimal_of, spelled};
use crate::rounding::mode_of;
use crate::words::said;
use fixed_decimal::DecimalError;
use icu_decimal_data::CompactError;
use icu_pattern::SinglePlaceholder;
use number_rounding::{Rounding, ShownError, ShownNumber, divides_one, shown};
use number_skeleton::read_skeleton;
use rows::Documents;
use std::alloc::{AllocError, Global};

/// The rounding of a precision, a mode and a count of digits.
fn rounding_of(precision: &str, mode: &str, integer_digits: &str) -> Option<Rounding> {
    let (Ok(skeleton), Some(mode), Ok(integer_digits)) = (
        read_skeleton(precision),
        mode_of(mode),
        integer_digits.parse(),
    ) else {
        return None;
    };
    Some(Rounding {
        precision: skeleton.precision?,
        mode,
        hides_zeros_of_whole: skeleton.hides_zeros_of_whole,
        integer_digits,
    })
}

/// What is shown, as it is spelled.
fn reported(
    alloc: Global,
    shown: Result<ShownNumber, ShownError>,
    has_table: bool,
) -> Result<Option<String>, DecimalError> {
    match shown {
        Ok(number) => {
            let significand = spelled(alloc, &number.significand)?;
            if !has_table {
                return Ok(Some(significand));
            }
            Ok(Some(format!(in alloc; "{significand} e{}", number.exponent)?))
        }
        Err(ShownError::OutOfMemory) => Err(DecimalError::OutOfMemory),
        Err(ShownError::Overflow) => Ok(said(alloc, "Overflow")?),
    }
}

/// A number without a table.
fn plain(alloc: Global, rounding: &Rounding, text: &str) -> Result<Option<String>, DecimalError> {
    let decimal = decimal_of(alloc, text)?;
    reported(
        alloc,
        shown::<SinglePlaceholder>(alloc, rounding, None, &decimal),
        false,
    )
}

/// A number by a table; an increment of which 1 is no multiple is reported.
fn by_table(
    alloc: Global,
    documents: &Documents,
    table: &str,
    rounding: &Rounding,
    text: &str,
) -> Result<Option<String>, DecimalError> {
    if !divides_one(&rounding.precision) {
        return Ok(said(alloc, "IncrementOfCompact")?);
    }
    let table = match table_of(alloc, documents, table, "none") {
        Ok(table) => table,
        Err(Unmade::Rejected(CompactError::OutOfMemory)) => return Err(DecimalError::OutOfMemory),
        Err(_) => return Ok(None),
    };
    let decimal = decimal_of(alloc, text)?;
    reported(alloc, shown(alloc, rounding, Some(&table), &decimal), true)
}

/// What the call answers.
fn result_of_shown(
    alloc: Global,
    documents: &Documents,
    arguments: &[String],
) -> Result<Option<String>, DecimalError> {
    match arguments {
        [precision, mode, digits, text] => match rounding_of(precision, mode, digits) {
            Some(rounding) => plain(alloc, &rounding, text),
            None => Ok(None),
        },
        [table, precision, mode, digits, text] => match rounding_of(precision, mode, digits) {
            Some(rounding) => by_table(alloc, documents, table, &rounding, text),
            None => Ok(None),
        },
        _ => Ok(None),
    }
}

/// What the call of `number_rounding` answers.
pub(crate) fn returned(
    alloc: Global,
    documents: &Documents,
    call: &str,
    arguments: &[String],
) -> Result<Option<String>, AllocError> {
    if call != "shown" {
        return Ok(None);
    }
    crate::decimals::reported(alloc, result_of_shown(alloc, documents, arguments))
}
