//! The one byte string of a compact table: the entries of a view make a table of just the view's
//! bytes, and a copy is one allocation.

ghost use Rattle.std.specs.Prelude.{◌<◌};

use crate::numbers::symbol_bytes::refused_allocation;
use crate::numbers::table_bytes::JAPANESE;
use icu_decimal_data::{CompactError, CompactPatterns, CompactView, EntryView};
use icu_pattern::{Pattern, PatternBackend, PatternError, SinglePlaceholder};
use icu_plurals::PluralElements;
use std::alloc::Global;
use std::collections::BTreeMap;

type Elements<P> = PluralElements<Pattern<P>>;

type Map<P> = BTreeMap<u8, (u8, Elements<P>)>;

type Table = CompactPatterns<SinglePlaceholder>;

type View<'a> = CompactView<'a, SinglePlaceholder>;

/// A pattern; the call is repeated if memory ran out.
fn pattern<P: PatternBackend>(
    alloc: Global,
    placeholder: Option<usize>,
    literal: &str,
) -> Result<Pattern<P>, PatternError> {
    match Pattern::try_new(alloc, placeholder, literal) {
        Err(PatternError::OutOfMemory) => Pattern::try_new(alloc, placeholder, literal),
        answered => answered,
    }
}

/// The table of a map, if there is one.
fn made<P: PatternBackend>(
    alloc: Global,
    map: Option<Map<P>>,
    zero_magnitude: Option<&Elements<P>>,
) -> Result<CompactPatterns<P>, CompactError> {
    match map {
        Some(map) => CompactPatterns::new(alloc, map, zero_magnitude),
        None => Err(CompactError::OutOfMemory),
    }
}

/// The pattern of a slot, made again; `BadPlace` where the slot is absent.
fn pattern_of(
    alloc: Global,
    entry: EntryView<'_, SinglePlaceholder>,
    slot: u8,
) -> Result<Pattern<SinglePlaceholder>, PatternError>
    requires { slot < 8 }
{
    match entry.slot(slot) {
        Some(shown) => pattern(alloc, shown.placeholder(), shown.literal()),
        None => Err(PatternError::BadPlace),
    }
}

/// Patterns with one in a slot but the last.
fn with_pattern(
    elements: Elements<SinglePlaceholder>,
    slot: u8,
    pattern: Pattern<SinglePlaceholder>,
) -> Elements<SinglePlaceholder> {
    match slot {
        0 => elements.with_explicit_zero_value(Some(pattern)),
        1 => elements.with_explicit_one_value(Some(pattern)),
        2 => elements.with_zero_value(Some(pattern)),
        3 => elements.with_one_value(Some(pattern)),
        4 => elements.with_two_value(Some(pattern)),
        5 => elements.with_few_value(Some(pattern)),
        _ => elements.with_many_value(Some(pattern)),
    }
}

/// Patterns with that of an entry's slot, made again, if it has one there.
fn with_slot(
    alloc: Global,
    elements: Elements<SinglePlaceholder>,
    entry: EntryView<'_, SinglePlaceholder>,
    slot: u8,
) -> Result<Elements<SinglePlaceholder>, PatternError>
    requires { slot < 8 }
{
    if entry.slot(slot).is_none() {
        return Ok(elements);
    }
    match pattern_of(alloc, entry, slot) {
        Ok(pattern) => Ok(with_pattern(elements, slot, pattern)),
        Err(error) => Err(error),
    }
}

/// Patterns with those of an entry's slots but the last.
fn with_slots(
    alloc: Global,
    mut elements: Elements<SinglePlaceholder>,
    entry: EntryView<'_, SinglePlaceholder>,
) -> Result<Elements<SinglePlaceholder>, PatternError> {
    for slot in 0..7 {
        elements = with_slot(alloc, elements, entry, slot)?;
    }
    Ok(elements)
}

/// The patterns of an entry, made again.
fn elements_of(
    alloc: Global,
    entry: EntryView<'_, SinglePlaceholder>,
) -> Result<Elements<SinglePlaceholder>, PatternError> {
    match pattern_of(alloc, entry, 7) {
        Ok(other) => with_slots(alloc, PluralElements::new(other), entry),
        Err(error) => Err(error),
    }
}

/// The map with an entry; none if memory ran out.
fn with_entry(
    alloc: Global,
    mut map: Map<SinglePlaceholder>,
    entry: EntryView<'_, SinglePlaceholder>,
) -> Option<Map<SinglePlaceholder>> {
    match elements_of(alloc, entry) {
        Ok(elements) => match map.insert(entry.log10_type(), (entry.exponent(), elements)) {
            Ok(_) => Some(map),
            Err(_) => None,
        },
        Err(_) => None,
    }
}

/// The entry of just this type, if there is one.
fn entry_of(view: View<'_>, log10_type: u8) -> Option<EntryView<'_, SinglePlaceholder>> {
    let entry = view.entry_for_magnitude(log10_type as i16)?;
    if entry.log10_type() == log10_type {
        Some(entry)
    } else {
        None
    }
}

/// The map of a view's entries; none if memory ran out.
fn map_of(alloc: Global, view: View<'_>) -> Option<Map<SinglePlaceholder>> {
    let mut map = BTreeMap::new(alloc);
    for log10_type in 0..=255 {
        if let Some(entry) = entry_of(view, log10_type) {
            map = with_entry(alloc, map, entry)?;
        }
    }
    Some(map)
}

/// The table of a view's entries; the call is repeated if memory ran out.
fn remade(alloc: Global, view: View<'_>) -> Result<Table, CompactError> {
    match made(alloc, map_of(alloc, view), None) {
        Err(CompactError::OutOfMemory) => made(alloc, map_of(alloc, view), None),
        answered => answered,
    }
}

/// Whether bytes are rejected, or those of the table that their entries make.
fn are_refused_or_remade(alloc: Global, bytes: &[u8]) -> bool {
    match View::parse(bytes) {
        Ok(view) => match remade(alloc, view) {
            Ok(table) => table.as_bytes() == bytes,
            Err(_) => false,
        },
        Err(_) => true,
    }
}

/// The first value with which a byte of long Japanese is read, but not as the bytes of a table.
fn misread(alloc: Global, index: usize) -> Option<u8> {
    if index >= JAPANESE.len() {
        return None;
    }
    for value in 0..=255 {
        let mut bytes = JAPANESE;
        bytes[index] = value;
        if !are_refused_or_remade(alloc, &bytes) {
            return Some(value);
        }
    }
    None
}

#[test]
fn what_a_view_shows_makes_its_bytes(rt: HostRuntime) {
    for index in 0..JAPANESE.len() {
        assert!(rt; misread(rt.alloc(), index) == None, "byte {index}");
    }
}

/// Which of four copies is rejected, counted from 2 on; none is 0.
fn refused_copy(alloc: Global, table: &Table) -> u64 {
    let mut refused = 0;
    for count in 2..6 {
        if table.copy(alloc).is_err() {
            refused = count;
        }
    }
    refused
}

/// Which call is rejected of one that makes the table without entries and four that copy it,
/// counted from 1 on; none is 0.
fn refused_call(alloc: Global) -> u64 {
    let made: Result<Table, CompactError> = CompactPatterns::new(alloc, BTreeMap::new(alloc), None);
    match made {
        Ok(table) => refused_copy(alloc, &table),
        Err(_) => 1,
    }
}

/// Where the run says which allocation fails, it is the call of that number that is rejected:
/// so no call asks for a second one.
#[test]
fn a_copy_is_one_allocation(rt: HostRuntime) {
    let refused = refused_call(rt.alloc());
    if let Some(allocation) = refused_allocation(&rt) {
        assert_eq!(rt; allocation, refused);
    }
}
