//! Separators and the ends of ranges.

use crate::faults::Fault;
use fixed_decimal::Decimal;
use icu_decimal::DecimalFormatter;
use icu_decimal::options::{DecimalFormatterOptions, GroupingStrategy};
use icu_decimal_data::DecimalSymbols;
use icu_ranges::{DecimalRange, RangePattern};
use std::alloc::Global;
use writeable::{ASCII_DIGITS, Writeable};

/// The separator of a text, in brackets.
pub(crate) fn separator(alloc: Global, text: &str) -> Result<String, Fault> {
    let pattern = RangePattern::parse(alloc, text)?;
    Ok(format!(in alloc; "[{}]", pattern.separator())?)
}

/// The range pattern of a text, as `{0}–{1}`, or with an approximately sign, as `{0}–{1}; ≈`.
pub(crate) fn pattern_of(alloc: Global, text: &str) -> Result<RangePattern, Fault> {
    match text.split_once("; ") {
        Some((pattern, sign)) => {
            let pattern = RangePattern::parse(alloc, pattern)?;
            Ok(pattern.with_approximately_sign(String::from_str(alloc, sign)?))
        }
        None => Ok(RangePattern::parse(alloc, text)?),
    }
}

/// The separator of a text and its approximately sign, in brackets.
pub(crate) fn approximately_sign(alloc: Global, text: &str) -> Result<String, Fault> {
    let pattern = pattern_of(alloc, text)?;
    Ok(format!(in alloc;
        "[{}] [{}]",
        pattern.separator(),
        pattern.approximately_sign()
    )?)
}

/// The digits of a decimal, with its sign.
fn digits_of(alloc: Global, decimal: &Decimal) -> Result<String, Fault> {
    let Ok(symbols) = DecimalSymbols::new_en_for_testing(alloc) else {
        return Err(Fault::OutOfMemory);
    };
    let options = DecimalFormatterOptions {
        grouping_strategy: Some(GroupingStrategy::Never),
    };
    let formatter = DecimalFormatter::from_parts(symbols, ASCII_DIGITS, options);
    Ok(formatter.format(decimal).write_to_string(alloc)?)
}

/// The range of two decimals; `Descending` with both if they are none.
pub(crate) fn range_made(alloc: Global, start: &str, end: &str) -> Result<String, Fault> {
    let start = Decimal::try_from_str(alloc, start)?;
    let end = Decimal::try_from_str(alloc, end)?;
    match DecimalRange::try_new(start, end) {
        Ok(range) => {
            let first = digits_of(alloc, range.start())?;
            let second = digits_of(alloc, range.end())?;
            Ok(format!(in alloc; "{first} to {second}")?)
        }
        Err(ends) => {
            let first = digits_of(alloc, &ends.start)?;
            let second = digits_of(alloc, &ends.end)?;
            Ok(format!(in alloc; "Descending {first} {second}")?)
        }
    }
}

/// The range of two words.
pub(crate) fn range(alloc: Global, start: &str, end: &str) -> Result<DecimalRange, Fault> {
    let start = Decimal::try_from_str(alloc, start)?;
    let end = Decimal::try_from_str(alloc, end)?;
    match DecimalRange::try_new(start, end) {
        Ok(range) => Ok(range),
        Err(_) => Err(Fault::Named("Descending")),
    }
}
