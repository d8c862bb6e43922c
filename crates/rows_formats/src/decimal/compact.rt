//! What compact formatters answer.

use super::asked::decimal_of;
use super::making::{Question, Setting};
use super::shown;
use super::spelled::{held_of, made, name_of, no_number, said, value, with_text, yes_or_no};
use crate::CallResult;
use fixed_decimal::{Decimal, UnsignedDecimal};
use icu_decimal::{CompactDecimalFormatter, FormattedUnsignedCompactDecimal};
use icu_plurals::PluralOperands;
use std::alloc::{AllocError, Global};

fn is_readable(alloc: Global, formatter: &CompactDecimalFormatter, words: &[String]) -> CallResult {
    match words {
        [] => said(alloc, yes_or_no(formatter.is_readable())),
        _ => Ok(None),
    }
}

/// What `format` gives of a decimal.
fn value_of(
    alloc: Global,
    formatter: &CompactDecimalFormatter,
    decimal: &Decimal,
    limit: Option<usize>,
) -> CallResult {
    match formatter.format(alloc, decimal) {
        Ok(formatted) => value(alloc, &formatted, limit),
        Err(error) => no_number(alloc, error),
    }
}

/// The same, compared with the text of a decimal.
fn of_decimal(
    alloc: Global,
    formatter: &CompactDecimalFormatter,
    decimal: &Decimal,
    limit: Option<usize>,
) -> CallResult {
    let returned = value_of(alloc, formatter, decimal, limit);
    with_text(
        alloc,
        returned,
        formatter.format_to_string(alloc, decimal),
        limit,
    )
}

fn format(
    alloc: Global,
    setting: Setting<'_>,
    formatter: &CompactDecimalFormatter,
    words: &[String],
) -> CallResult {
    let [number] = words else {
        return Ok(None);
    };
    match decimal_of(alloc, number.as_str(), setting.asked.sign)? {
        Some(decimal) => of_decimal(alloc, formatter, &decimal, setting.asked.limit),
        None => Ok(None),
    }
}

/// Appends digits.
fn push_digits(digits: &[u8], text: &mut String) -> Result<(), AllocError> {
    for digit in digits {
        text.push((b'0' + *digit % 10) as char)?;
    }
    Ok(())
}

/// A number as its digits and its point.
pub(crate) fn digits_of_number(
    alloc: Global,
    number: &UnsignedDecimal,
) -> Result<String, AllocError> {
    let mut text = String::new(alloc);
    push_digits(number.integer(), &mut text)?;
    let fraction = number.fraction();
    if !fraction.is_empty() {
        text.push('.')?;
        push_digits(fraction, &mut text)?;
    }
    Ok(text)
}

/// The significand and the exponent of a compact number.
fn parts_of(alloc: Global, number: &FormattedUnsignedCompactDecimal<'_>) -> CallResult {
    let significand = digits_of_number(alloc, number.significand())?;
    let exponent = number.exponent();
    Ok(Some(format!(in alloc; "{significand} exponent {exponent}")?))
}

/// What is asked of a compact number: its parts, or a condition of its operands.
fn of_value(
    alloc: Global,
    value: &FormattedUnsignedCompactDecimal<'_>,
    condition: Option<&str>,
) -> CallResult {
    match condition {
        Some(condition) => said(alloc, held_of(alloc, condition, value.plural_operands())?),
        None => parts_of(alloc, value),
    }
}

/// The same of the compact number of a decimal.
fn number_of(
    alloc: Global,
    formatter: &CompactDecimalFormatter,
    decimal: &Decimal,
    condition: Option<&str>,
) -> CallResult {
    match formatter.format(alloc, decimal) {
        Ok(formatted) => of_value(alloc, formatted.value(), condition),
        Err(error) => no_number(alloc, error),
    }
}

/// The same of the number that a text spells.
fn number(
    alloc: Global,
    setting: Setting<'_>,
    formatter: &CompactDecimalFormatter,
    number: &str,
    condition: Option<&str>,
) -> CallResult {
    match decimal_of(alloc, number, setting.asked.sign)? {
        Some(decimal) => number_of(alloc, formatter, &decimal, condition),
        None => Ok(None),
    }
}

/// The significand and the exponent of the compact number of a text.
fn significand(
    alloc: Global,
    setting: Setting<'_>,
    formatter: &CompactDecimalFormatter,
    words: &[String],
) -> CallResult {
    match words {
        [text] => number(alloc, setting, formatter, text.as_str(), None),
        _ => Ok(None),
    }
}

/// Whether a condition holds of the operands of the compact number of a text.
fn operands_of_value(
    alloc: Global,
    setting: Setting<'_>,
    formatter: &CompactDecimalFormatter,
    words: &[String],
) -> CallResult {
    match words {
        [text, condition] => {
            number(
                alloc,
                setting,
                formatter,
                text.as_str(),
                Some(condition.as_str()),
            )
        }
        _ => Ok(None),
    }
}

/// What `format_with_exponent` gives of a significand.
fn given_of(
    alloc: Global,
    formatter: &CompactDecimalFormatter,
    significand: &Decimal,
    exponent: u8,
    limit: Option<usize>,
) -> CallResult {
    match formatter.format_with_exponent(significand, exponent) {
        Ok(formatted) => value(alloc, &formatted, limit),
        Err(error) => Ok(Some(error.to_string(alloc)?)),
    }
}

fn format_with_exponent(
    alloc: Global,
    setting: Setting<'_>,
    formatter: &CompactDecimalFormatter,
    words: &[String],
) -> CallResult {
    let [significand, exponent] = words else {
        return Ok(None);
    };
    let Ok(exponent) = exponent.parse() else {
        return Ok(None);
    };
    match decimal_of(alloc, significand.as_str(), setting.asked.sign)? {
        Some(decimal) => given_of(alloc, formatter, &decimal, exponent, setting.asked.limit),
        None => Ok(None),
    }
}

/// The category of a significand with an exponent by the formatter's own rules.
fn plural_rules(
    alloc: Global,
    setting: Setting<'_>,
    formatter: &CompactDecimalFormatter,
    words: &[String],
) -> CallResult {
    let [significand, exponent] = words else {
        return Ok(None);
    };
    let Ok(exponent) = exponent.parse() else {
        return Ok(None);
    };
    match decimal_of(alloc, significand.as_str(), setting.asked.sign)? {
        Some(decimal) => {
            let operands = PluralOperands::from_significand_and_exponent(
                &decimal.absolute,
                exponent,
            );
            said(
                alloc,
                name_of(formatter.plural_rules().category_for(operands)),
            )
        }
        None => Ok(None),
    }
}

/// The type and the exponent of the entry of a magnitude in the formatter's table.
fn patterns(alloc: Global, formatter: &CompactDecimalFormatter, words: &[String]) -> CallResult {
    let [magnitude] = words else {
        return Ok(None);
    };
    let Ok(magnitude) = magnitude.parse() else {
        return Ok(None);
    };
    let table = formatter.patterns();
    match table.entry_index(magnitude) {
        Some(index) => Ok(Some(format!(in alloc;
            "type {} exponent {}",
            table.log10_type(index),
            table.exponent(index)
        )?)),
        None => said(alloc, "none"),
    }
}

fn exponent_at(alloc: Global, formatter: &CompactDecimalFormatter, words: &[String]) -> CallResult {
    let [magnitude] = words else {
        return Ok(None);
    };
    let Ok(magnitude) = magnitude.parse() else {
        return Ok(None);
    };
    let exponent = formatter.compact_exponent_for_magnitude(magnitude);
    Ok(Some(format!(in alloc; "{exponent}")?))
}

/// What a compact formatter answers.
pub(crate) fn returned(
    alloc: Global,
    setting: Setting<'_>,
    formatter: &CompactDecimalFormatter,
    (call, words): Question<'_>,
) -> CallResult {
    match call {
        "try_new_unstable" => made(alloc, words),
        "is_readable" => is_readable(alloc, formatter, words),
        "format" => format(alloc, setting, formatter, words),
        "significand" => significand(alloc, setting, formatter, words),
        "operands_of_value" => operands_of_value(alloc, setting, formatter, words),
        "compact_exponent_for_magnitude" => exponent_at(alloc, formatter, words),
        "patterns" => patterns(alloc, formatter, words),
        "plural_rules" => plural_rules(alloc, setting, formatter, words),
        "format_with_exponent" => format_with_exponent(alloc, setting, formatter, words),
        _ => shown::returned(alloc, setting, formatter, (call, words)),
    }
}
