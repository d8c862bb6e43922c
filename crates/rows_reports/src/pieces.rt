//! Calls of `locnum_explain` for lines of explanations, and of `number_forms` for texts in notes.

use crate::CallResult;
use crate::bytes::{appended, bytes_of};
use fixed_decimal::{Decimal, DecimalError};
use icu_decimal::provider::CompactPatterns;
use icu_pattern::{PatternRef, SinglePlaceholder};
use icu_plurals::{PluralCategory, PluralRules};
use locnum_explain::{
    push_around, push_entry, push_magnitude, push_operands, push_parts, push_pattern,
};
use number_forms::push_reported;
use std::alloc::{AllocError, Global};
use std::collections::BTreeMap;
use writeable::Part;

/// A part of a name.
fn part_of(name: &str) -> Option<Part> {
    match name {
        "first" => Some(Part {
            category: "rows",
            value: "first",
        }),
        "second" => Some(Part {
            category: "rows",
            value: "second",
        }),
        _ => None,
    }
}

/// The part of a text `NAME:START-END`.
fn span_of(text: &str) -> Option<(usize, usize, Part)> {
    let (name, range) = text.split_once(':')?;
    let (start, end) = range.split_once('-')?;
    let start = start.parse().ok()?;
    let end = end.parse().ok()?;
    Some((start, end, part_of(name)?))
}

/// Appends the parts of texts. Whether each text has one.
fn push_spans(texts: &[String], spans: &mut Vec<(usize, usize, Part)>) -> Result<bool, AllocError> {
    for text in texts {
        match span_of(text.as_str()) {
            Some(span) => spans.push(span)?,
            None => return Ok(false),
        }
    }
    Ok(true)
}

/// The decimal of a text.
fn decimal_of(alloc: Global, text: &str) -> Result<Option<Decimal>, AllocError> {
    match Decimal::try_from_str(alloc, text) {
        Ok(decimal) => Ok(Some(decimal)),
        Err(DecimalError::OutOfMemory) => Err(AllocError),
        Err(_) => Ok(None),
    }
}

/// What `push_parts` appends for parts.
fn lines_of(alloc: Global, width: usize, text: &str, parts: &[(usize, usize, Part)]) -> CallResult {
    let mut out = Vec::from_slice(alloc, b">")?;
    push_parts(width, text, parts, &mut out)?;
    Ok(Some(appended(alloc, &out)?))
}

/// What `push_parts` appends.
fn parts_lines(alloc: Global, width: &str, text: &str, parts: &[String]) -> CallResult {
    let Ok(width) = width.parse() else {
        return Ok(None);
    };
    let mut spans = Vec::new(alloc);
    if push_spans(parts, &mut spans)? {
        lines_of(alloc, width, text, &spans)
    } else {
        Ok(None)
    }
}

/// What `push_magnitude` appends.
fn magnitude_line(alloc: Global, number: &str) -> CallResult {
    let Some(decimal) = decimal_of(alloc, number)? else {
        return Ok(None);
    };
    let mut out = Vec::from_slice(alloc, b">")?;
    push_magnitude(&decimal.absolute, &mut out)?;
    Ok(Some(appended(alloc, &out)?))
}

/// What `push_operands` appends for a decimal.
fn operands_by(alloc: Global, rules: &PluralRules, decimal: &Decimal) -> CallResult {
    let mut out = Vec::from_slice(alloc, b">")?;
    push_operands(rules, &decimal.absolute, &mut out)?;
    Ok(Some(appended(alloc, &out)?))
}

/// What `push_operands` appends for a decimal by rules with one condition, that of the category
/// `one`.
fn operands_of(alloc: Global, condition: &str, decimal: &Decimal) -> CallResult {
    match PluralRules::from_rules(alloc, &[(PluralCategory::One, condition)]) {
        Ok(rules) => operands_by(alloc, &rules, decimal),
        Err(_) => Err(AllocError),
    }
}

/// What `push_operands` appends by rules with one condition.
fn operands_line(alloc: Global, condition: &str, number: &str) -> CallResult {
    match decimal_of(alloc, number)? {
        Some(decimal) => operands_of(alloc, condition, &decimal),
        None => Ok(None),
    }
}

/// What `push_pattern` appends for a literal with a number at this byte, or with none.
fn pattern_line(alloc: Global, placeholder: &str, literal: &str) -> CallResult {
    let placeholder = if placeholder == "none" {
        None
    } else {
        placeholder.parse().ok()
    };
    let pattern: PatternRef<'_, SinglePlaceholder> = match PatternRef::try_new(
        placeholder,
        literal,
    ) {
        Ok(pattern) => pattern,
        Err(_) => return Ok(None),
    };
    let mut out = Vec::from_slice(alloc, b">")?;
    push_pattern(pattern, &mut out)?;
    Ok(Some(appended(alloc, &out)?))
}

/// What `push_entry` appends for a magnitude.
fn entry_of(
    alloc: Global,
    table: &CompactPatterns<SinglePlaceholder>,
    magnitude: i32,
) -> CallResult {
    let mut out = Vec::from_slice(alloc, b">")?;
    push_entry(table, magnitude, &mut out)?;
    Ok(Some(appended(alloc, &out)?))
}

/// What `push_entry` appends by a table without entries.
fn entry_line(alloc: Global, magnitude: &str) -> CallResult {
    let Ok(magnitude) = magnitude.parse() else {
        return Ok(None);
    };
    match CompactPatterns::new(alloc, BTreeMap::new(alloc), None) {
        Ok(table) => entry_of(alloc, &table, magnitude),
        Err(_) => Err(AllocError),
    }
}

/// What `push_around` appends for a decimal.
fn around(alloc: Global, power: i32, decimal: &Decimal) -> CallResult {
    let mut out = Vec::from_slice(alloc, b">")?;
    push_around(alloc, power, &decimal.absolute, &mut out)?;
    Ok(Some(appended(alloc, &out)?))
}

/// What `push_around` appends.
fn around_line(alloc: Global, power: &str, number: &str) -> CallResult {
    let Ok(power) = power.parse() else {
        return Ok(None);
    };
    match decimal_of(alloc, number)? {
        Some(decimal) => around(alloc, power, &decimal),
        None => Ok(None),
    }
}

/// What `push_reported` appends.
fn reported(alloc: Global, text: &str) -> CallResult {
    let mut out = Vec::from_slice(alloc, b">")?;
    push_reported(&bytes_of(alloc, text)?, &mut out)?;
    Ok(Some(appended(alloc, &out)?))
}

/// What a call of a piece of an explanation answers for one word.
fn result_by_one(alloc: Global, call: &str, word: &str) -> CallResult {
    match call {
        "push_magnitude" => magnitude_line(alloc, word),
        "push_entry" => entry_line(alloc, word),
        "push_reported" => reported(alloc, word),
        _ => Ok(None),
    }
}

/// What a call of a piece of an explanation answers for two words.
fn result_by_two(alloc: Global, call: &str, first: &str, second: &str) -> CallResult {
    match call {
        "push_operands" => operands_line(alloc, first, second),
        "push_pattern" => pattern_line(alloc, first, second),
        "push_around" => around_line(alloc, first, second),
        _ => Ok(None),
    }
}

/// What a call of a piece of an explanation answers.
pub(crate) fn returned(alloc: Global, call: &str, arguments: &[String]) -> CallResult {
    match arguments {
        [width, text, parts @ ..] if call == "push_parts" => {
            parts_lines(alloc, width.as_str(), text.as_str(), parts)
        }
        [word] => result_by_one(alloc, call, word.as_str()),
        [first, second] => result_by_two(alloc, call, first.as_str(), second.as_str()),
        _ => Ok(None),
    }
}
