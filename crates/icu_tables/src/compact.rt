//! Compact tables.

ghost use Rattle.std.specs.Prelude.{◌≡◌, IfOk, OnOk, IsOkUnless, map, None};
ghost use Rattle.std.specs.Ordering.{nat_cmp};
ghost use Rattle.std.specs.BTreeMap.{insert_entry};
ghost use Rattle.serde_json.specs.View.{view};
ghost use Rattle.icu_decimal_data.specs.Kept.{as_table};
ghost use Rattle.icu_tables.specs.Compact.{rises, listed_entry_in, listed_entries_in, listed_table_at, entries_of, table_of_entries, table_of};
ghost use Rattle.icu_tables.specs.Compact.{compact_in, IsAbove, Rise};
ghost use Rattle.icu_table_entries.specs.Reading.{Gives};

use icu_decimal_data::{CompactError, CompactPatterns};
use icu_pattern::SinglePlaceholder;
use icu_provider::DataLocale;
use icu_table_entries::entries::EntryKind;
use icu_table_entries::fields::{
    byte_in, list_at, object_in, optional_text_at, text_at, triple_in,
};
use icu_table_entries::named::{NamedEntry, name_of};
use icu_table_entries::texts::{
    Patterns, Texts, category_texts_in, optional_patterns_of, optional_texts_at, patterns_of,
};
use icu_table_entries::whole_numbers::has_float;
use icu_table_entries::{EntryFault, Key, Position, TableError};
use serde_json::Value;
use std::alloc::Global;
use std::collections::BTreeMap;
use std::marker::Model;

/// A type, its exponent and the texts of its patterns, not yet judged.
#[derive(Drop)]
pub struct ListedEntry<'a> {
    /// The power of ten at which the entry begins.
    pub log10_type: u8,
    /// The power of ten that its patterns name.
    pub exponent: u8,
    /// The texts of its patterns.
    pub texts: Texts<'a>,
}

/// The type, if it is above the one before it.
fn rising(before: Option<u8>, log10_type: u8) -> Result<u8, TableError>
    ensures read { Gives (λ x. x) result (rises before log10_type) }
    ensures above { IfOk result (λ t. IsAbove before t) }
{
    match before {
        Some(before) if before >= log10_type => Err(TableError::WrongKind(Key::Patterns)),
        _ => Ok(log10_type),
    }
}

/// The entry of a list of three values.
#[tactic(auto, unfolding(crate::specs::Compact::listed_entry_in))]
fn listed_entry_in(before: Option<u8>, value: &Value) -> Result<ListedEntry<'_>, TableError>
    ensures read { Gives (λ x. x) result (listed_entry_in before (view value.now)) }
    ensures above { IfOk result (λ e. IsAbove before e.log10_type) }
{
    let (log10_type, (exponent, texts)) = triple_in(value, Key::Patterns)?;
    Ok(ListedEntry {
        log10_type: rising(before, byte_in(log10_type, Key::Patterns)?)?,
        exponent: byte_in(exponent, Key::Patterns)?,
        texts: category_texts_in(texts, Key::Patterns)?,
    })
}

/// Each entry in turn: a list of its type, above the one before it, its exponent and its texts.
pub fn listed_entries_in(
    alloc: Global,
    values: &[Value],
) -> Result<Vec<ListedEntry<'_>>, TableError>
    ensures entries { Gives (λ v. v.items) result (listed_entries_in None (map view values.now)) }
    ensures rise { IfOk result (λ v. Rise None v.items) }
{
    let mut found = Vec::new(alloc);
    let mut before = None;
    for index in 0..values.len() {
        let entry = listed_entry_in(before, &values[index])?;
        before = Some(entry.log10_type);
        found.push(entry)?;
    }
    Ok(found)
}

/// What an object says about a table, not yet judged.
#[derive(Drop)]
pub struct ListedTable<'a> {
    entries: Vec<ListedEntry<'a>>,
    zero: Option<Texts<'a>>,
}

impl<'a> Model for ListedTable<'a> {
    ghost use Rattle.std.specs.Prelude.{None};
    ghost use Rattle.icu_tables.specs.Compact.{ListedTable as TableData, Rise};

    ghost Value = { TableData };

    ghost view = { λ t. record { entries = t.entries.items; zero = t.zero } };

    ghost invariant = { λ t. Rise None t.entries.items };
}

/// What an object says about a table.
#[tactic(auto, unfolding(crate::specs::Compact::listed_table_at))]
pub fn listed_table_at(alloc: Global, value: &Value) -> Result<ListedTable<'_>, TableError>
    ensures { Gives (λ x. x) result (listed_table_at (view value.now)) }
{
    Ok(ListedTable {
        entries: listed_entries_in(alloc, list_at(value, Key::Patterns)?)?,
        zero: optional_texts_at(value, Key::Zero)?,
    })
}

/// Adds an entry to the map.
fn with_entry(
    map: &mut BTreeMap<u8, (u8, Patterns)>,
    log10_type: u8,
    exponent: u8,
    patterns: Patterns,
) -> Result<(), TableError>
    ensures added { OnOk result (map.new.entries ≡ insert_entry nat_cmp map.old.entries log10_type
        (exponent, patterns)) }
    ensures memory { IsOkUnless result TableError.OutOfMemory }
{
    match map.insert(log10_type, (exponent, patterns)) {
        Ok(_) => Ok(()),
        Err(_) => Err(TableError::OutOfMemory),
    }
}

/// The map of these entries.
fn entries_of(
    alloc: Global,
    position: Position,
    entries: &[ListedEntry<'_>],
) -> Result<BTreeMap<u8, (u8, Patterns)>, TableError>
    requires { Rise None entries.now }
    ensures { Gives (λ m. as_table m.entries) result (entries_of position entries.now) }
{
    let mut map = BTreeMap::new(alloc);
    for index in 0..entries.len() {
        let entry = &entries[index];
        let patterns = patterns_of(alloc, position, &entry.texts)?;
        with_entry(&mut map, entry.log10_type, entry.exponent, patterns)?;
    }
    Ok(map)
}

/// The table of a map and of the patterns of numbers that aren't shortened.
fn table_of_entries(
    alloc: Global,
    position: Position,
    entries: BTreeMap<u8, (u8, Patterns)>,
    zero: &Option<Patterns>,
) -> Result<CompactPatterns<SinglePlaceholder>, TableError>
    ensures { Gives (λ x. x) result
        (table_of_entries position zero.now (as_table entries.entries)) }
{
    match CompactPatterns::new(alloc, entries, zero.as_ref()) {
        Ok(table) => Ok(table),
        Err(CompactError::ExponentsFall) => Err(position.refusal(EntryFault::ExponentsFall)),
        Err(CompactError::ExponentAboveType) => {
            Err(position.refusal(EntryFault::ExponentAboveType))
        }
        Err(CompactError::TooManyZeros) => Err(position.refusal(EntryFault::TooManyZeros)),
        Err(CompactError::TooLarge) => Err(position.refusal(EntryFault::PatternsTooLarge)),
        Err(CompactError::OutOfMemory) => Err(TableError::OutOfMemory),
    }
}

/// The table of what an object says.
#[tactic(auto, unfolding(crate::specs::Compact::table_of))]
fn table_of(
    alloc: Global,
    position: Position,
    listed: &ListedTable<'_>,
) -> Result<CompactPatterns<SinglePlaceholder>, TableError>
    ensures { Gives (λ x. x) result (table_of position listed.now) }
{
    let entries = entries_of(alloc, position, &listed.entries)?;
    let zero = optional_patterns_of(alloc, position, &listed.zero)?;
    table_of_entries(alloc, position, entries, &zero)
}

/// A compact table under its name.
pub struct CompactEntry;

impl EntryKind for CompactEntry {
    type Entry = NamedEntry<CompactPatterns<SinglePlaceholder>>;

    ghost use Rattle.icu_tables.specs.Compact.{compact_at};
    ghost use Rattle.icu_table_entries.specs.Named.{is_of};

    ghost read_at = { compact_at };

    ghost serves = { is_of };

    #[tactic(auto, unfolding(crate::specs::Compact::compact_at))]
    fn from_entry(
        alloc: Global,
        position: Position,
        value: &Value,
    ) -> Result<Self::Entry, TableError> {
        let value = object_in(value, position.key)?;
        let locale = text_at(value, Key::Locale)?;
        let system = optional_text_at(value, Key::System)?;
        let listed = listed_table_at(alloc, value)?;
        let name = name_of(position, locale, system)?;
        let content = table_of(alloc, position, &listed)?;
        Ok(NamedEntry { name, content })
    }

    fn serves(entry: &Self::Entry, locale: &DataLocale) -> bool {
        entry.name.is_of(locale)
    }
}

/// The compact table of a JSON object with `patterns` and an optional `zero` (this project's own
/// format, `docs/FORMATS.md`), or its first fault.
///
/// Faults are reported in this order: `Float`, if anywhere in the value a number isn't a 64-bit
/// whole number; `WrongKind` of the document, if the value is no object; wrong kinds in the object;
/// faults of its patterns; faults of the table, which [`CompactPatterns::new`] finds. The last two
/// are reported for entry 0 of the document.
// promise: The value determines a compact table, or its first fault.
// mutations: float_in_a_table_let_through
#[tactic(auto, unfolding(crate::specs::Compact::compact_in))]
pub fn compact_from_value(
    alloc: Global,
    value: &Value,
) -> Result<CompactPatterns<SinglePlaceholder>, TableError>
    ensures { Gives (λ x. x) result (compact_in (view value.now)) }
{
    if has_float(value) {
        return Err(TableError::Float);
    }
    let listed = listed_table_at(alloc, object_in(value, Key::Document)?)?;
    let position = Position {
        key: Key::Document,
        index: 0,
    };
    table_of(alloc, position, &listed)
}
