//! Calls of `PluralElements`. Elements are spelled as their setters are called, one after another:
//! `other 8, one 4, few none`; `other` comes first.

use crate::plural_rules::{operands_of, rules_of};
use crate::words::{equal_or_different, optional, said, yes_or_no};
use icu_plurals::PluralElements;
use rows::Documents;
use std::alloc::{AllocError, Global};

/// Elements of texts.
type Elements<'a> = PluralElements<&'a str>;

/// Elements with a value in the slot of a name.
pub(crate) fn with_value<T: Drop>(
    elements: PluralElements<T>,
    name: &str,
    value: Option<T>,
) -> Option<PluralElements<T>> {
    match name {
        "explicit_zero" => Some(elements.with_explicit_zero_value(value)),
        "explicit_one" => Some(elements.with_explicit_one_value(value)),
        "zero" => Some(elements.with_zero_value(value)),
        "one" => Some(elements.with_one_value(value)),
        "two" => Some(elements.with_two_value(value)),
        "few" => Some(elements.with_few_value(value)),
        "many" => Some(elements.with_many_value(value)),
        _ => None,
    }
}

/// The elements that an argument spells.
fn elements_of(text: &str) -> Option<Elements<'_>> {
    let mut parts = text.split(", ");
    let mut elements = PluralElements::new(parts.next()?.strip_prefix("other ")?);
    for part in parts {
        let (name, value) = part.split_once(' ')?;
        elements = with_value(elements, name, optional(value))?;
    }
    Some(elements)
}

/// The values of the eight slots, a hyphen where there is none.
fn slots(alloc: Global, text: &str) -> Result<Option<String>, AllocError> {
    let Some(elements) = elements_of(text) else {
        return Ok(None);
    };
    let mut returned = String::new(alloc);
    for slot in 0..8 {
        if slot > 0 {
            returned.push(' ')?;
        }
        returned.push_str(elements.slot(slot).copied().unwrap_or("-"))?;
    }
    Ok(Some(returned))
}

/// The value of elements with no other one.
fn sole(alloc: Global, text: &str) -> Result<Option<String>, AllocError> {
    match elements_of(text) {
        Some(elements) => said(alloc, elements.sole().copied().unwrap_or("none")),
        None => Ok(None),
    }
}

/// Whether elements are equal.
fn eq(alloc: Global, one: &str, other: &str) -> Result<Option<String>, AllocError> {
    match (elements_of(one), elements_of(other)) {
        (Some(one), Some(other)) => said(alloc, equal_or_different(one == other)),
        _ => Ok(None),
    }
}

/// Whether elements equal others once they have no value for exactly one.
fn equal_without_explicit_one(
    alloc: Global,
    one: &str,
    other: &str,
) -> Result<Option<String>, AllocError> {
    match (elements_of(one), elements_of(other)) {
        (Some(one), Some(other)) => {
            said(alloc, yes_or_no(one.equal_without_explicit_one(&other)))
        }
        _ => Ok(None),
    }
}

/// The value that a number gets by rules.
fn get(
    alloc: Global,
    documents: &Documents,
    text: &str,
    (rules, number, exponent): (&str, &str, &str),
) -> Result<Option<String>, AllocError> {
    let (Some(elements), Some(rules), Some(operands)) = (
        elements_of(text),
        rules_of(alloc, documents, rules)?,
        operands_of(alloc, number, exponent)?,
    ) else {
        return Ok(None);
    };
    said(alloc, elements.get(operands, &rules))
}

/// What a call of elements answers.
pub(crate) fn returned(
    alloc: Global,
    documents: &Documents,
    call: &str,
    arguments: &[String],
) -> Result<Option<String>, AllocError> {
    match arguments {
        [text] => match call {
            "PluralElements::slot" => slots(alloc, text),
            "sole" => sole(alloc, text),
            _ => Ok(None),
        },
        [one, other] => match call {
            "PluralElements::eq" => eq(alloc, one, other),
            "equal_without_explicit_one" => equal_without_explicit_one(alloc, one, other),
            _ => Ok(None),
        },
        [text, rules, number, exponent] if call == "PluralElements::get" => {
            get(alloc, documents, text, (rules, number, exponent))
        }
        _ => Ok(None),
    }
}
