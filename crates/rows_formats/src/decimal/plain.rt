//! What plain formatters answer.

use super::asked::decimal_of;
use super::making::{Question, Setting};
use super::shown;
use super::spelled::{said, value, with_text, yes_or_no};
use crate::CallResult;
use fixed_decimal::Decimal;
use icu_decimal::DecimalFormatter;
use icu_decimal::error::FormatError;
use std::alloc::{AllocError, Global};

/// What `format` gives of a decimal.
fn of_decimal(
    alloc: Global,
    formatter: &DecimalFormatter,
    decimal: &Decimal,
    limit: Option<usize>,
) -> CallResult {
    let returned = value(alloc, &formatter.format(decimal), limit);
    with_text(
        alloc,
        returned,
        formatter.format_to_string(alloc, decimal),
        limit,
    )
}

fn format(
    alloc: Global,
    setting: Setting<'_>,
    formatter: &DecimalFormatter,
    number: &str,
) -> CallResult {
    match decimal_of(alloc, number, setting.asked.sign)? {
        Some(decimal) => of_decimal(alloc, formatter, &decimal, setting.asked.limit),
        None => Ok(None),
    }
}

/// Whether two formatters give equal values of a decimal.
fn is_equal(one: &DecimalFormatter, other: &DecimalFormatter, decimal: &Decimal) -> bool {
    one.format(decimal) == other.format(decimal)
}

/// The same of the number that a text spells.
fn are_equal(
    alloc: Global,
    one: &DecimalFormatter,
    other: &DecimalFormatter,
    number: &str,
) -> CallResult {
    match decimal_of(alloc, number, None)? {
        Some(decimal) => said(
            alloc,
            if is_equal(one, other, &decimal) {
                "equal"
            } else {
                "different"
            },
        ),
        None => Ok(None),
    }
}

/// Whether a formatter's copy gives an equal value of a decimal.
fn copy(alloc: Global, formatter: &DecimalFormatter, number: &str) -> CallResult {
    match formatter.copy(alloc) {
        Ok(copy) => are_equal(alloc, formatter, &copy, number),
        Err(FormatError::OutOfMemory) => Err(AllocError),
        Err(_) => Ok(None),
    }
}

/// What a plain formatter answers.
pub(crate) fn returned(
    alloc: Global,
    setting: Setting<'_>,
    formatter: &DecimalFormatter,
    (call, words): Question<'_>,
) -> CallResult {
    match words {
        [] => match call {
            "try_new_unstable" => said(alloc, "made"),
            "is_readable" => said(alloc, yes_or_no(formatter.is_readable())),
            _ => Ok(None),
        },
        [number] if call == "format" => format(alloc, setting, formatter, number.as_str()),
        [number] if call == "copy" => copy(alloc, formatter, number.as_str()),
        _ => shown::returned(alloc, setting, formatter, (call, words)),
    }
}
