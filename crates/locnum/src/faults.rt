//! Where the fault of a file of tables stands in it.

use crate::entries::entry_at_fault;
use crate::held::{code_of, list_of, text_of};
use crate::positions::push_not_json;
use icu_table_entries::{EntryFault, Key, TableError};
use itoa::Buffer;
use number_forms::push_reported;
use serde_json::Value;
use std::alloc::{AllocError, Global};

/// Appends a number.
fn push_number(number: u64, out: &mut Vec<u8>) -> Result<(), AllocError> {
    let mut digits = Buffer::new();
    out.extend_from_slice(digits.format(number).as_bytes())
}

/// Appends a label and a number.
pub(crate) fn push_labelled(
    label: &[u8],
    number: u64,
    out: &mut Vec<u8>,
) -> Result<(), AllocError> {
    out.extend_from_slice(label)?;
    push_number(number, out)
}

/// Appends a label and the text of a field, where the entry has it.
fn push_field(
    label: &[u8],
    entry: &Value,
    field: &str,
    out: &mut Vec<u8>,
) -> Result<(), AllocError> {
    let Some(text) = text_of(entry, field) else {
        return Ok(());
    };
    out.extend_from_slice(label)?;
    push_reported(text.as_bytes(), out)
}

/// The number at a place of a row.
fn number_at(row: &Value, index: usize) -> u64 {
    row.get(index).and_then(Value::as_u64).unwrap_or(0)
}

/// How often `{0}` stands in a text.
fn count_placeholders(text: &str) -> usize {
    text.matches("{0}").count()
}

/// Whether a text among elements has a second place.
fn has_second_placeholder(elements: &Value) -> bool {
    let Some(elements) = elements.as_object() else {
        return false;
    };
    elements.values().any(|text| text
        .as_str()
        .is_some_and(|text| count_placeholders(text) > 1))
}

/// Whether a row of a compact table has a fault by itself, or behind an exponent.
fn is_at_fault(row: &Value, before: u64, fault: EntryFault) -> bool {
    let (log10_type, exponent) = (number_at(row, 0), number_at(row, 1));
    match fault {
        EntryFault::ExponentAboveType => exponent > log10_type,
        EntryFault::ExponentsFall => exponent < before,
        EntryFault::TooManyZeros => log10_type.saturating_sub(exponent) > 15,
        EntryFault::RepeatedPatterns { log10_type: later } => log10_type == u64::from(later),
        EntryFault::BadPlace => row
            .get(2)
            .is_some_and(|elements| has_second_placeholder(elements)),
        _ => false,
    }
}

/// The type of the row of a compact table that has a fault.
fn type_at_fault(rows: &[Value], fault: EntryFault) -> Option<u64> {
    let mut before = 0;
    for row in rows {
        if is_at_fault(row, before, fault) {
            return Some(number_at(row, 0));
        }
        before = number_at(row, 1);
    }
    None
}

/// Whether a text isn't the code of a currency.
fn is_no_code(text: &str) -> bool {
    text.len() != 3 || !text.bytes().all(|byte| byte.is_ascii_uppercase())
}

/// Appends the row of an entry that has a fault, where it can be found again.
fn push_row(entry: &Value, fault: EntryFault, out: &mut Vec<u8>) -> Result<(), AllocError> {
    if let Some(log10_type) = type_at_fault(list_of(entry, "patterns"), fault) {
        return push_labelled(b", type ", log10_type, out);
    }
    if fault != EntryFault::BadCurrencyCode {
        return Ok(());
    }
    for row in list_of(entry, "symbols") {
        if let Some(code) = code_of(row) {
            if is_no_code(code) {
                out.extend_from_slice(b", ")?;
                return push_reported(code.as_bytes(), out);
            }
        }
    }
    Ok(())
}

/// Appends where an entry stands: its locale, the key of its list, and what it is for.
fn push_position(
    key: &str,
    entry: &Value,
    index: usize,
    out: &mut Vec<u8>,
) -> Result<(), AllocError> {
    push_field(b"locale ", entry, "locale", out)?;
    if text_of(entry, "locale").is_some() {
        out.extend_from_slice(b", ")?;
    }
    out.extend_from_slice(key.as_bytes())?;
    push_field(b", system ", entry, "system", out)?;
    push_field(b", ", entry, "width", out)?;
    push_field(b" ", entry, "unit", out)?;
    match code_of(entry) {
        Some(code) => {
            out.extend_from_slice(b", ")?;
            push_reported(code.as_bytes(), out)
        }
        None if text_of(entry, "locale").is_none() => {
            push_labelled(b", entry ", index as u64, out)
        }
        None => Ok(()),
    }
}

/// Appends why an entry is rejected.
fn push_reason(alloc: Global, fault: EntryFault, out: &mut Vec<u8>) -> Result<(), AllocError> {
    let reason = match fault {
        EntryFault::ExponentAboveType => "the exponent is above the type",
        EntryFault::ExponentsFall => "the exponent is below the one before",
        EntryFault::TooManyZeros => "the exponent is more than 15 below the type",
        EntryFault::RepeatedPatterns { .. } => {
            "the patterns are those of the type before, and the exponent isn't"
        }
        fault => return out.extend_from_slice(fault.to_string(alloc)?.as_bytes()),
    };
    out.extend_from_slice(reason.as_bytes())
}

/// Appends where an entry is rejected, and why.
fn push_entry(
    alloc: Global,
    tables: &Value,
    (key, index): (Key, usize),
    fault: EntryFault,
    out: &mut Vec<u8>,
) -> Result<(), AllocError> {
    if let Some(entry) = list_of(tables, key.name()).get(index) {
        push_position(key.name(), entry, index, out)?;
        push_row(entry, fault, out)?;
        out.extend_from_slice(b": ")?;
    }
    push_reason(alloc, fault, out)
}

/// Appends where the first entry stands that is rejected alone for this reason.
fn push_entry_at_fault(
    alloc: Global,
    tables: &Value,
    error: TableError,
    out: &mut Vec<u8>,
) -> Result<(), AllocError> {
    let Some(entry) = entry_at_fault(alloc, tables, error)? else {
        return Ok(());
    };
    push_position(entry.key, entry.value, entry.index, out)?;
    out.extend_from_slice(b": ")
}

/// Appends what is wrong with a key.
fn push_key(key: Key, reason: &[u8], out: &mut Vec<u8>) -> Result<(), AllocError> {
    if key == Key::Document {
        return out.extend_from_slice(b"not an object of JSON");
    }
    out.extend_from_slice(key.name().as_bytes())?;
    out.extend_from_slice(reason)
}

/// Appends why the text of a file of tables is rejected, and where.
pub(crate) fn push_fault(
    alloc: Global,
    text: &str,
    error: TableError,
    out: &mut Vec<u8>,
) -> Result<(), AllocError> {
    if error == TableError::NotJson {
        return push_not_json(alloc, text, out);
    }
    let Ok(tables) = Value::from_str(alloc, text) else {
        return out.extend_from_slice(error.to_string(alloc)?.as_bytes());
    };
    match error {
        TableError::Missing(key) => {
            push_entry_at_fault(alloc, &tables, error, out)?;
            push_key(key, b" is missing", out)
        }
        TableError::WrongKind(key) => {
            push_entry_at_fault(alloc, &tables, error, out)?;
            push_key(key, b" has the wrong kind", out)
        }
        TableError::Entry { key, index, fault } => {
            push_entry(alloc, &tables, (key, index), fault, out)
        }
        error => out.extend_from_slice(error.to_string(alloc)?.as_bytes()),
    }
}
