//! Compact tables as rows spell them: entries with `; ` between them, each a type, an exponent and
//! the patterns of elements, as `3 3 other {0} mille, explicit_one mille; 6 6 other {0} M`. A
//! document whose name ends in `.txt` has an entry in each line.

use crate::elements::with_value;
use crate::patterns::{pattern_of, text_of};
use icu_decimal_data::{CompactError, CompactPatterns, CompactView, EntryView};
use icu_pattern::{
    NoPlaceholder, Pattern, PatternBackend, PatternError, PatternRef, SinglePlaceholder,
};
use icu_plurals::PluralElements;
use rows::Documents;
use std::alloc::{AllocError, Global};
use std::collections::BTreeMap;

/// The patterns of an entry.
type Elements<P> = PluralElements<Pattern<P>>;

/// Entries by their types.
type Map<P> = BTreeMap<u8, (u8, Elements<P>)>;

/// Why an argument makes no table.
#[derive(Drop)]
pub(crate) enum Unmade {
    /// It spells none.
    Unreadable,
    /// The table is rejected.
    Rejected(CompactError),
}

impl From<AllocError> for Unmade {
    fn from(_refused: AllocError) -> Unmade {
        Unmade::Rejected(CompactError::OutOfMemory)
    }
}

/// The pattern that a text spells.
fn pattern<P: PatternBackend>(alloc: Global, text: &str) -> Result<Pattern<P>, Unmade> {
    match pattern_of(alloc, text) {
        Ok(pattern) => Ok(pattern),
        Err(PatternError::OutOfMemory) => Err(Unmade::Rejected(CompactError::OutOfMemory)),
        Err(PatternError::BadPlace) => Err(Unmade::Unreadable),
    }
}

/// Elements with the pattern of a name and a text.
fn with_part<P: PatternBackend>(
    alloc: Global,
    elements: Elements<P>,
    part: &str,
) -> Result<Elements<P>, Unmade> {
    let (name, text) = part.split_once(' ').ok_or(Unmade::Unreadable)?;
    let value = pattern(alloc, text)?;
    with_value(elements, name, Some(value)).ok_or(Unmade::Unreadable)
}

/// Elements with the pattern for all other numbers alone.
fn with_other<P: PatternBackend>(alloc: Global, part: &str) -> Result<Elements<P>, Unmade> {
    let text = part.strip_prefix("other ").ok_or(Unmade::Unreadable)?;
    Ok(PluralElements::new(pattern(alloc, text)?))
}

/// The patterns that a text spells.
fn elements_of<P: PatternBackend>(alloc: Global, text: &str) -> Result<Elements<P>, Unmade> {
    let mut parts = text.split(", ");
    let mut elements = with_other(alloc, parts.next().unwrap_or_default())?;
    for part in parts {
        elements = with_part(alloc, elements, part)?;
    }
    Ok(elements)
}

/// Puts the entry that a text spells into a map.
fn insert_entry<P: PatternBackend>(
    alloc: Global,
    map: &mut Map<P>,
    text: &str,
) -> Result<(), Unmade> {
    let Some((log10_type, rest)) = text.split_once(' ') else {
        return Err(Unmade::Unreadable);
    };
    let Some((exponent, patterns)) = rest.split_once(' ') else {
        return Err(Unmade::Unreadable);
    };
    let (Ok(log10_type), Ok(exponent)) = (log10_type.parse(), exponent.parse()) else {
        return Err(Unmade::Unreadable);
    };
    let elements = elements_of(alloc, patterns)?;
    match map.insert(log10_type, (exponent, elements)) {
        Ok(_) => Ok(()),
        Err(_) => Err(Unmade::Rejected(CompactError::OutOfMemory)),
    }
}

/// The map of the entries that an argument spells, or of the lines of the document that it names.
fn map_of<P: PatternBackend>(
    alloc: Global,
    documents: &Documents,
    text: &str,
) -> Result<Map<P>, Unmade> {
    let mut map = BTreeMap::new(alloc);
    if text.ends_with(".txt") {
        for line in documents.text(text).unwrap_or_default().lines() {
            if !line.starts_with('#') {
                insert_entry(alloc, &mut map, line)?;
            }
        }
    } else if !text.is_empty() {
        for entry in text.split("; ") {
            insert_entry(alloc, &mut map, entry)?;
        }
    }
    Ok(map)
}

/// The table of a map, behind types with the patterns of `zero`.
fn made<P: PatternBackend>(
    alloc: Global,
    map: Map<P>,
    zero: Option<&Elements<P>>,
) -> Result<CompactPatterns<P>, Unmade> {
    match CompactPatterns::new(alloc, map, zero) {
        Ok(table) => Ok(table),
        Err(error) => Err(Unmade::Rejected(error)),
    }
}

/// The table of the entries that an argument spells, behind types with the patterns of `zero`.
pub(crate) fn table_of(
    alloc: Global,
    documents: &Documents,
    text: &str,
    zero: &str,
) -> Result<CompactPatterns<SinglePlaceholder>, Unmade> {
    let map = map_of(alloc, documents, text)?;
    if zero == "none" {
        return made(alloc, map, None);
    }
    let zero = elements_of(alloc, zero)?;
    made(alloc, map, Some(&zero))
}

/// The same for patterns without a place.
pub(crate) fn table_without_placeholder(
    alloc: Global,
    documents: &Documents,
    text: &str,
) -> Result<CompactPatterns<NoPlaceholder>, Unmade> {
    made(alloc, map_of(alloc, documents, text)?, None)
}

/// The name of a slot.
fn name_of_slot(slot: u8) -> &'static str {
    match slot {
        0 => "explicit_zero",
        1 => "explicit_one",
        2 => "zero",
        3 => "one",
        4 => "two",
        5 => "few",
        6 => "many",
        _ => "other",
    }
}

/// Writes the pattern of a slot, if it has one.
fn push_slot<P: PatternBackend>(
    alloc: Global,
    text: &mut String,
    slot: u8,
    pattern: Option<PatternRef<'_, P>>,
) -> Result<(), AllocError> {
    let Some(pattern) = pattern else {
        return Ok(());
    };
    if slot < 7 {
        text.push_str(", ")?;
    }
    text.push_str(name_of_slot(slot))?;
    text.push(' ')?;
    text.push_str(text_of(alloc, pattern)?.as_str())
}

/// Writes what stands before the patterns of an entry.
fn push_head(
    alloc: Global,
    text: &mut String,
    log10_type: u8,
    exponent: u8,
) -> Result<(), AllocError> {
    if !text.is_empty() {
        text.push_str("; ")?;
    }
    let head = format!(in alloc; "{log10_type} {exponent} ")?;
    text.push_str(head.as_str())
}

/// A table as it is spelled.
pub(crate) fn spelled<P: PatternBackend>(
    alloc: Global,
    table: &CompactPatterns<P>,
) -> Result<String, AllocError> {
    let mut text = String::new(alloc);
    for index in 0..table.len() {
        push_head(
            alloc,
            &mut text,
            table.log10_type(index),
            table.exponent(index),
        )?;
        push_slot(alloc, &mut text, 7, table.slot(index, 7))?;
        for slot in 0..7 {
            push_slot(alloc, &mut text, slot, table.slot(index, slot))?;
        }
    }
    if table.is_empty() {
        text.push_str("empty")?;
    }
    Ok(text)
}

/// The entry of just this type, if there is one.
fn entry_of<P: PatternBackend>(
    view: CompactView<'_, P>,
    log10_type: u8,
) -> Option<EntryView<'_, P>> {
    let entry = view.entry_for_magnitude(log10_type as i16)?;
    if entry.log10_type() == log10_type {
        Some(entry)
    } else {
        None
    }
}

/// A table that is lent, as it is spelled.
pub(crate) fn spelled_view<P: PatternBackend>(
    alloc: Global,
    view: CompactView<'_, P>,
) -> Result<String, AllocError> {
    let mut text = String::new(alloc);
    for log10_type in 0..=255 {
        if let Some(entry) = entry_of(view, log10_type) {
            push_head(alloc, &mut text, entry.log10_type(), entry.exponent())?;
            push_slot(alloc, &mut text, 7, entry.slot(7))?;
            for slot in 0..7 {
                push_slot(alloc, &mut text, slot, entry.slot(slot))?;
            }
        }
    }
    if text.is_empty() {
        text.push_str("empty")?;
    }
    Ok(text)
}
