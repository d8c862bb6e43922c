//! What every formatter answers through `AbstractFormatter`.

use super::asked::decimal_of;
use super::frames;
use super::making::{Question, Setting, rules_of};
use super::spelled::{
    held_of, name_of, no_data, no_number, said, sink_of, value, with_condition, written,
};
use crate::CallResult;
use fixed_decimal::{Decimal, Sign, UnsignedDecimal};
use icu_decimal::error::FormatError;
use icu_decimal_interface::AbstractFormatter;
use icu_plurals::PluralOperands;
use std::alloc::{AllocError, Global};

/// What `write_unsigned` leaves in a sink.
fn write_unsigned<F: AbstractFormatter>(
    alloc: Global,
    formatter: &F,
    number: &UnsignedDecimal,
    limit: Option<usize>,
) -> CallResult {
    let mut sink = sink_of(alloc, limit);
    let returned = formatter.write_unsigned(alloc, number, &mut sink);
    written(alloc, &sink, returned)
}

/// What `write_shown` leaves in a sink, and whether a condition holds of the operands that it
/// returns.
fn write_shown<F: AbstractFormatter>(
    alloc: Global,
    formatter: &F,
    number: &UnsignedDecimal,
    limit: Option<usize>,
    condition: &str,
) -> CallResult {
    let mut sink = sink_of(alloc, limit);
    match formatter.write_shown(alloc, number, &mut sink) {
        Ok(operands) => {
            let held = held_of(alloc, condition, operands)?;
            with_condition(alloc, written(alloc, &sink, Ok(())), held)
        }
        Err(error) => written(alloc, &sink, Err(error)),
    }
}

/// The text that `write_shown_into` leaves in a buffer, and whether a condition holds of the
/// operands that it returns.
fn write_shown_into<F: AbstractFormatter>(
    alloc: Global,
    formatter: &F,
    number: &UnsignedDecimal,
    condition: &str,
) -> CallResult {
    let mut out = String::new(alloc);
    match formatter.write_shown_into(alloc, number, &mut out) {
        Ok(operands) => {
            let held = held_of(alloc, condition, operands)?;
            with_condition(alloc, Ok(Some(out)), held)
        }
        Err(FormatError::Overflow) => said(alloc, "Overflow"),
        Err(_) => Err(AllocError),
    }
}

/// What stands in a text of two numbers with a dash between them.
fn write_pair_into<F: AbstractFormatter>(
    alloc: Global,
    setting: Setting<'_>,
    formatter: &F,
    first: &UnsignedDecimal,
    second: &str,
) -> CallResult {
    match decimal_of(alloc, second, setting.asked.sign)? {
        Some(second) => frames::write_pair(alloc, formatter, first, &second.absolute),
        None => Ok(None),
    }
}

/// Whether a condition holds of the operands that `plural_operands` returns.
fn plural_operands<F: AbstractFormatter>(
    alloc: Global,
    formatter: &F,
    number: &UnsignedDecimal,
    condition: &str,
) -> CallResult {
    match formatter.plural_operands(alloc, number) {
        Ok(operands) => said(alloc, held_of(alloc, condition, operands)?),
        Err(error) => no_number(alloc, error),
    }
}

/// The category of operands by the rules of the locale.
fn category_of(alloc: Global, setting: Setting<'_>, operands: PluralOperands) -> CallResult {
    match rules_of(alloc, setting) {
        Ok(rules) => said(alloc, name_of(rules.category_for(operands))),
        Err(error) => no_data(alloc, error),
    }
}

/// The category of a number as it is shown, by the rules of the locale.
fn category<F: AbstractFormatter>(
    alloc: Global,
    setting: Setting<'_>,
    formatter: &F,
    number: &UnsignedDecimal,
) -> CallResult {
    match formatter.plural_operands(alloc, number) {
        Ok(operands) => category_of(alloc, setting, operands),
        Err(error) => no_number(alloc, error),
    }
}

/// What is asked of a number alone.
fn of_number_alone<F: AbstractFormatter>(
    alloc: Global,
    setting: Setting<'_>,
    formatter: &F,
    number: &UnsignedDecimal,
    call: &str,
) -> CallResult {
    let limit = setting.asked.limit;
    match call {
        "write_unsigned" => write_unsigned(alloc, formatter, number, limit),
        "category" => category(alloc, setting, formatter, number),
        "write_framed" => frames::write_framed(alloc, formatter, number, limit),
        "framed_to_string" => frames::framed_to_string(alloc, formatter, number),
        _ => Ok(None),
    }
}

/// What is asked of a number and a condition, or of two numbers.
fn of_number_and_condition<F: AbstractFormatter>(
    alloc: Global,
    setting: Setting<'_>,
    formatter: &F,
    number: &UnsignedDecimal,
    (call, condition): (&str, &str),
) -> CallResult {
    let limit = setting.asked.limit;
    match call {
        "write_shown" => write_shown(alloc, formatter, number, limit, condition),
        "write_shown_into" => write_shown_into(alloc, formatter, number, condition),
        "write_pair_into" => write_pair_into(alloc, setting, formatter, number, condition),
        "plural_operands" => plural_operands(alloc, formatter, number, condition),
        "framed_to_string" => frames::picked(alloc, formatter, number, condition),
        _ => Ok(None),
    }
}

/// What is asked of a number.
fn of_number<F: AbstractFormatter>(
    alloc: Global,
    setting: Setting<'_>,
    formatter: &F,
    number: &UnsignedDecimal,
    (call, words): Question<'_>,
) -> CallResult {
    match words {
        [] => of_number_alone(alloc, setting, formatter, number, call),
        [condition] => {
            of_number_and_condition(
                alloc,
                setting,
                formatter,
                number,
                (call, condition.as_str()),
            )
        }
        _ => Ok(None),
    }
}

/// What a text is with the affixes of a sign around it.
fn format_sign<F: AbstractFormatter>(
    alloc: Global,
    formatter: &F,
    text: &str,
    sign: &str,
) -> CallResult {
    let sign = match sign {
        "Negative" => Sign::Negative,
        "Positive" => Sign::Positive,
        _ => Sign::None,
    };
    value(alloc, &formatter.format_sign(text, sign), None)
}

/// What is asked of the number of the first word.
fn of_first<F: AbstractFormatter>(
    alloc: Global,
    setting: Setting<'_>,
    formatter: &F,
    (call, words): Question<'_>,
) -> CallResult {
    match words.split_first() {
        Some((number, words)) => match decimal_of(alloc, number.as_str(), setting.asked.sign)? {
            Some(decimal) => of_number(alloc, setting, formatter, &decimal.absolute, (call, words)),
            None => Ok(None),
        },
        None => Ok(None),
    }
}

/// What a formatter answers.
pub(crate) fn returned<F: AbstractFormatter>(
    alloc: Global,
    setting: Setting<'_>,
    formatter: &F,
    (call, words): Question<'_>,
) -> CallResult {
    match words {
        [text, sign] if call == "format_sign" => {
            format_sign(alloc, formatter, text.as_str(), sign.as_str())
        }
        _ => of_first(alloc, setting, formatter, (call, words)),
    }
}
