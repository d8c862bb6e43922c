//! Calls of `icu_decimal_data`.

use crate::bytes::{self, bytes_of};
use crate::compact_tables::{Unmade, spelled, spelled_view, table_of, table_without_placeholder};
use crate::patterns::text_of;
use crate::plural_rules::{operands_of, rules_of};
use crate::words::{equal_or_different, said, yes_or_no};
use icu_decimal_data::{CompactError, CompactPatterns, CompactView, DecimalSymbols, SymbolsError};
use icu_decimal_readable::is_table_readable;
use icu_pattern::{NoPlaceholder, PatternBackend, SinglePlaceholder};
use rows::Documents;
use std::alloc::{AllocError, Global};

/// A table of patterns with a place.
type Table = CompactPatterns<SinglePlaceholder>;

/// The digits of Latin.
const LATIN: [char; 10] = ['0', '1', '2', '3', '4', '5', '6', '7', '8', '9'];

/// The name of an error of tables.
fn name_of(error: CompactError) -> &'static str {
    match error {
        CompactError::ExponentsFall => "ExponentsFall",
        CompactError::ExponentAboveType => "ExponentAboveType",
        CompactError::TooManyZeros => "TooManyZeros",
        CompactError::TooLarge => "TooLarge",
        CompactError::OutOfMemory => "OutOfMemory",
    }
}

/// The answer of a call that may fail; an error by its name.
fn reported(
    alloc: Global,
    returned: Result<Option<String>, Unmade>,
) -> Result<Option<String>, AllocError> {
    match returned {
        Ok(returned) => Ok(returned),
        Err(Unmade::Unreadable) => Ok(None),
        Err(Unmade::Rejected(CompactError::OutOfMemory)) => Err(AllocError),
        Err(Unmade::Rejected(error)) => said(alloc, name_of(error)),
    }
}

/// A table with a place in its patterns.
fn table(alloc: Global, documents: &Documents, text: &str) -> Result<Table, Unmade> {
    table_of(alloc, documents, text, "none")
}

fn new(
    alloc: Global,
    documents: &Documents,
    text: &str,
    zero: &str,
) -> Result<Option<String>, Unmade> {
    let table = table_of(alloc, documents, text, zero)?;
    Ok(Some(spelled(alloc, &table)?))
}

/// The same for patterns without a place.
fn new_without_placeholder(
    alloc: Global,
    documents: &Documents,
    text: &str,
) -> Result<Option<String>, Unmade> {
    let table = table_without_placeholder(alloc, documents, text)?;
    Ok(Some(spelled(alloc, &table)?))
}

/// A copy, and whether it and its bytes are equal.
fn copy(
    alloc: Global,
    documents: &Documents,
    text: &str,
    zero: &str,
) -> Result<Option<String>, Unmade> {
    let table = table_of(alloc, documents, text, zero)?;
    let copy = match table.copy(alloc) {
        Ok(copy) => copy,
        Err(error) => return Err(Unmade::Rejected(error)),
    };
    let is_equal = copy == table && copy.as_bytes() == table.as_bytes();
    let copy = spelled(alloc, &copy)?;
    Ok(Some(format!(in alloc; "{copy} | {}", equal_or_different(is_equal))?))
}

fn eq(
    alloc: Global,
    documents: &Documents,
    one: &str,
    other: &str,
) -> Result<Option<String>, Unmade> {
    let is_equal = table(alloc, documents, one)? == table(alloc, documents, other)?;
    Ok(said(alloc, equal_or_different(is_equal))?)
}

/// The bytes of a table, as they are borrowed or packed.
fn table_bytes(
    alloc: Global,
    documents: &Documents,
    is_packed: bool,
    text: &str,
    zero: &str,
) -> Result<Option<String>, Unmade> {
    let table = table_of(alloc, documents, text, zero)?;
    if !is_packed {
        return Ok(Some(bytes::spelled(alloc, table.as_bytes())?));
    }
    match table.pack(alloc) {
        Ok(packed) => Ok(Some(bytes::spelled(alloc, &packed)?)),
        Err(error) => Err(Unmade::Rejected(error)),
    }
}

/// How many bytes a table has, and whether they are read again.
fn byte_count(alloc: Global, documents: &Documents, text: &str) -> Result<Option<String>, Unmade> {
    let table = table(alloc, documents, text)?;
    let bytes = table.as_bytes();
    let is_read = CompactView::<SinglePlaceholder>::parse(bytes).is_ok();
    let read = if is_read { "read again" } else { "not read" };
    Ok(Some(format!(in alloc; "{} bytes, {read}", bytes.len())?))
}

/// The index of a magnitude's entry and its exponent.
fn entry_index(
    alloc: Global,
    documents: &Documents,
    text: &str,
    magnitude: &str,
) -> Result<Option<String>, Unmade> {
    let Ok(magnitude) = magnitude.parse() else {
        return Ok(None);
    };
    let table = table(alloc, documents, text)?;
    match table.entry_index(magnitude) {
        Some(index) => {
            let exponent = table.exponent(index);
            Ok(Some(format!(in alloc; "index {index} exponent {exponent}")?))
        }
        None => Ok(said(alloc, "none")?),
    }
}

/// The pattern of a slot of an entry.
fn slot(
    alloc: Global,
    documents: &Documents,
    text: &str,
    (index, slot): (&str, &str),
) -> Result<Option<String>, Unmade> {
    let (Ok(index), Ok(slot)) = (index.parse::<usize>(), slot.parse::<u8>()) else {
        return Ok(None);
    };
    let table = table(alloc, documents, text)?;
    if index >= table.len() || slot >= 8 {
        return Ok(None);
    }
    match table.slot(index, slot) {
        Some(pattern) => Ok(Some(text_of(alloc, pattern)?)),
        None => Ok(said(alloc, "none")?),
    }
}

/// The sole pattern of an entry.
fn sole_pattern(
    alloc: Global,
    documents: &Documents,
    text: &str,
    index: &str,
) -> Result<Option<String>, Unmade> {
    let Ok(index) = index.parse::<usize>() else {
        return Ok(None);
    };
    let table = table(alloc, documents, text)?;
    if index >= table.len() {
        return Ok(None);
    }
    match table.sole_pattern(index) {
        Some(pattern) => Ok(Some(text_of(alloc, pattern)?)),
        None => Ok(said(alloc, "none")?),
    }
}

/// The pattern that a number picks of an entry.
fn pick(
    alloc: Global,
    documents: &Documents,
    text: &str,
    (index, rules, number): (&str, &str, &str),
) -> Result<Option<String>, Unmade> {
    let (Ok(index), Some(rules), Some(operands)) = (
        index.parse::<usize>(),
        rules_of(alloc, documents, rules)?,
        operands_of(alloc, number, "0")?,
    ) else {
        return Ok(None);
    };
    let table = table(alloc, documents, text)?;
    if index >= table.len() {
        return Ok(None);
    }
    Ok(Some(text_of(alloc, table.pick(index, &operands, &rules))?))
}

/// Whether a table with English symbols determines its numbers.
fn readable(alloc: Global, documents: &Documents, text: &str) -> Result<Option<String>, Unmade> {
    let table = table(alloc, documents, text)?;
    match DecimalSymbols::new_en_for_testing(alloc) {
        Ok(symbols) => {
            let is_readable = is_table_readable(&table, &symbols, &LATIN);
            Ok(said(alloc, yes_or_no(is_readable))?)
        }
        Err(SymbolsError::OutOfMemory) => Err(Unmade::Rejected(CompactError::OutOfMemory)),
        Err(_) => Ok(None),
    }
}

/// What bytes are read as.
fn parse<P: PatternBackend>(
    alloc: Global,
    bytes: Option<Vec<u8>>,
) -> Result<Option<String>, AllocError> {
    let Some(bytes) = bytes else {
        return Ok(None);
    };
    match CompactView::<P>::parse(&bytes) {
        Ok(view) => Ok(Some(spelled_view(alloc, view)?)),
        Err(damaged) => Ok(Some(format!(in alloc; "Damaged {}", damaged.byte)?)),
    }
}

/// The damaged byte of each beginning of bytes, from none of them to all, `read` where it is none.
fn parse_beginnings(alloc: Global, bytes: Option<Vec<u8>>) -> Result<Option<String>, AllocError> {
    let Some(bytes) = bytes else {
        return Ok(None);
    };
    let mut returned = String::new(alloc);
    for len in 0..=bytes.len() {
        let beginning = bytes.get(..len).unwrap_or_default();
        let word = match CompactView::<SinglePlaceholder>::parse(beginning) {
            Ok(_) => String::from_str(alloc, "read")?,
            Err(damaged) => format!(in alloc; "{} ", damaged.byte)?,
        };
        returned.push_str(word.as_str())?;
    }
    Ok(Some(returned))
}

/// The type and the exponent of a magnitude's entry, and the exponent of the magnitude.
fn entry_for_magnitude(
    alloc: Global,
    bytes: Option<Vec<u8>>,
    magnitude: &str,
) -> Result<Option<String>, AllocError> {
    let (Some(bytes), Ok(magnitude)) = (bytes, magnitude.parse()) else {
        return Ok(None);
    };
    let Ok(view) = CompactView::<SinglePlaceholder>::parse(&bytes) else {
        return Ok(None);
    };
    let exponent = view.exponent_for_magnitude(magnitude);
    match view.entry_for_magnitude(magnitude) {
        Some(entry) => {
            let log10_type = entry.log10_type();
            let own = entry.exponent();
            Ok(Some(format!(in alloc; "type {log10_type} exponent {own} | {exponent}")?))
        }
        None => Ok(Some(format!(in alloc; "none | {exponent}")?)),
    }
}

/// What a call of tables answers.
fn result_of_tables(
    alloc: Global,
    documents: &Documents,
    call: &str,
    arguments: &[String],
) -> Result<Option<String>, Unmade> {
    match arguments {
        [text] => match call {
            "CompactPatterns::new_without_place" => new_without_placeholder(alloc, documents, text),
            "byte_count" => byte_count(alloc, documents, text),
            "is_table_readable" => readable(alloc, documents, text),
            _ => Ok(None),
        },
        [text, other] => match call {
            "CompactPatterns::new" => new(alloc, documents, text, other),
            "CompactPatterns::copy" => copy(alloc, documents, text, other),
            "CompactPatterns::eq" => eq(alloc, documents, text, other),
            "CompactPatterns::as_bytes" => table_bytes(alloc, documents, false, text, other),
            "pack" => table_bytes(alloc, documents, true, text, other),
            "entry_index" => entry_index(alloc, documents, text, other),
            "sole_pattern" => sole_pattern(alloc, documents, text, other),
            _ => Ok(None),
        },
        [text, index, at] if call == "CompactPatterns::slot" => {
            slot(alloc, documents, text, (index, at))
        }
        [text, index, rules, number] if call == "pick" => {
            pick(alloc, documents, text, (index, rules, number))
        }
        _ => Ok(None),
    }
}

/// What a call of tables or of their bytes answers.
pub(crate) fn returned(
    alloc: Global,
    documents: &Documents,
    call: &str,
    arguments: &[String],
) -> Result<Option<String>, AllocError> {
    match arguments {
        [text, changes @ ..] if call == "CompactView::parse" => {
            parse::<SinglePlaceholder>(alloc, bytes_of(alloc, documents, text, changes)?)
        }
        [text, changes @ ..] if call == "CompactView::parse_without_place" => {
            parse::<NoPlaceholder>(alloc, bytes_of(alloc, documents, text, changes)?)
        }
        [text] if call == "CompactView::parse_beginnings" => {
            parse_beginnings(alloc, bytes_of(alloc, documents, text, &[])?)
        }
        [text, magnitude] if call == "entry_for_magnitude" => {
            let bytes = bytes_of(alloc, documents, text, &[])?;
            entry_for_magnitude(alloc, bytes, magnitude)
        }
        _ => reported(alloc, result_of_tables(alloc, documents, call, arguments)),
    }
}
