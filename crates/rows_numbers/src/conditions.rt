//! Calls of `icu_plurals_conditions`. A condition that was read is spelled anew: its alternatives
//! between `or`, their relations between `and`.

use crate::words::said;
use icu_plurals_conditions::condition::{Alternative, Item, Operand, Relation};
use icu_plurals_conditions::{Condition, RulesError, first_fault, read_condition};
use std::alloc::{AllocError, Global};

/// The letter of an operand.
fn letter(operand: Operand) -> &'static str {
    match operand {
        Operand::N => "n",
        Operand::I => "i",
        Operand::V => "v",
        Operand::W => "w",
        Operand::F => "f",
        Operand::T => "t",
        Operand::C => "c",
        Operand::E => "e",
    }
}

/// Writes a value or a range.
fn push_item(alloc: Global, text: &mut String, item: Item) -> Result<(), AllocError> {
    let item = match item {
        Item::Value(value) => format!(in alloc; "{value}")?,
        Item::Range(first, last) => format!(in alloc; "{first}..{last}")?,
    };
    text.push_str(item.as_str())
}

/// Writes a relation.
fn push_relation(alloc: Global, text: &mut String, relation: &Relation) -> Result<(), AllocError> {
    text.push_str(letter(relation.operand))?;
    if let Some(modulus) = relation.modulus {
        let modulus = format!(in alloc; " % {modulus}")?;
        text.push_str(modulus.as_str())?;
    }
    text.push_str(if relation.negated { " != " } else { " = " })?;
    for (index, item) in relation.ranges.iter().enumerate() {
        if index > 0 {
            text.push_str(", ")?;
        }
        push_item(alloc, text, *item)?;
    }
    Ok(())
}

/// Writes an alternative.
fn push_alternative(
    alloc: Global,
    text: &mut String,
    alternative: &Alternative,
) -> Result<(), AllocError> {
    for (index, relation) in alternative.relations.iter().enumerate() {
        if index > 0 {
            text.push_str(" and ")?;
        }
        push_relation(alloc, text, relation)?;
    }
    Ok(())
}

/// A condition as it is spelled.
fn spelled(alloc: Global, condition: &Condition) -> Result<String, AllocError> {
    let mut text = String::new(alloc);
    for (index, alternative) in condition.alternatives.iter().enumerate() {
        if index > 0 {
            text.push_str(" or ")?;
        }
        push_alternative(alloc, &mut text, alternative)?;
    }
    Ok(text)
}

/// The byte of the first fault.
fn fault(alloc: Global, text: &str) -> Result<Option<String>, AllocError> {
    match first_fault(text) {
        Some(byte) => Ok(Some(format!(in alloc; "{byte}")?)),
        None => said(alloc, "none"),
    }
}

/// A condition that was made.
fn made(
    alloc: Global,
    condition: Result<Condition, RulesError>,
) -> Result<Option<String>, AllocError> {
    match condition {
        Ok(condition) => Ok(Some(spelled(alloc, &condition)?)),
        Err(RulesError::OutOfMemory) => Err(AllocError),
        Err(RulesError::BadRule { .. }) => Ok(None),
    }
}

/// The condition of a text without a fault.
fn read(alloc: Global, text: &str) -> Result<Option<String>, AllocError> {
    match first_fault(text) {
        Some(_) => Ok(None),
        None => made(alloc, read_condition(alloc, text)),
    }
}

/// A copy of the condition of a text without a fault.
fn copied(alloc: Global, text: &str) -> Result<Option<String>, AllocError> {
    if first_fault(text).is_some() {
        return Ok(None);
    }
    match read_condition(alloc, text) {
        Ok(condition) => made(alloc, condition.copy(alloc)),
        Err(error) => made(alloc, Err(error)),
    }
}

/// What a call of conditions answers.
pub(crate) fn returned(
    alloc: Global,
    call: &str,
    arguments: &[String],
) -> Result<Option<String>, AllocError> {
    let [text] = arguments else {
        return Ok(None);
    };
    match call {
        "first_fault" => fault(alloc, text),
        "read_condition" => read(alloc, text),
        "Condition::copy" => copied(alloc, text),
        _ => Ok(None),
    }
}
