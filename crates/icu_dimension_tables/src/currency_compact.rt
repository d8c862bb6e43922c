//! Entries of the compact patterns of money.

ghost use Rattle.std.specs.Prelude.{◌≡◌, IfOk, None};
ghost use Rattle.serde_json.specs.View.{view};
ghost use Rattle.icu_table_entries.specs.Reading.{Gives};
ghost use Rattle.icu_tables.specs.Compact.{Rise};
ghost use Rattle.icu_dimension_data.specs.CompactRows.{RowsRise};
ghost use Rattle.icu_dimension_tables.specs.CurrencyCompact.{compact_row_of, compact_rows_of, exponent_of, first_repeated, repeats};
ghost use Rattle.icu_dimension_tables.specs.CurrencyCompact.{unless_repeated};

use crate::by_category::elements_read;
use crate::money_pattern::MoneyPattern;
use icu_dimension_data::{CompactRow, CompactRows};
use icu_provider::DataLocale;
use icu_table_entries::entries::EntryKind;
use icu_table_entries::fields::{list_at, object_in, optional_text_at, text_at};
use icu_table_entries::named::{NamedEntry, name_of};
use icu_table_entries::{EntryFault, Key, Position, TableError};
use icu_tables::compact::{ListedEntry, listed_entries_in};
use serde_json::Value;
use std::alloc::Global;

/// The most that a type may be above its exponent.
const MOST_ABOVE: u8 = 15;

/// The exponent, if it isn't below the one before it, nor above its type, nor more than 15 below
/// it.
#[tactic(auto, unfolding(crate::specs::CurrencyCompact::exponent_of))]
fn exponent_of(
    position: Position,
    before: u8,
    log10_type: u8,
    exponent: u8,
) -> Result<u8, TableError>
    ensures { Gives (λ x. x) result (exponent_of position before log10_type exponent) }
{
    if exponent < before {
        return Err(position.refusal(EntryFault::ExponentsFall));
    }
    if log10_type < exponent {
        return Err(position.refusal(EntryFault::ExponentAboveType));
    }
    if log10_type - exponent > MOST_ABOVE {
        return Err(position.refusal(EntryFault::TooManyZeros));
    }
    Ok(exponent)
}

/// The row of what an entry gives.
#[tactic(auto, unfolding(crate::specs::CurrencyCompact::compact_row_of))]
fn compact_row_of(
    alloc: Global,
    position: Position,
    before: u8,
    entry: &ListedEntry<'_>,
) -> Result<CompactRow, TableError>
    ensures { Gives (λ x. x) result (compact_row_of position before entry.now) }
{
    let exponent = exponent_of(position, before, entry.log10_type, entry.exponent)?;
    let texts = entry.texts.elements();
    let patterns = elements_read::<MoneyPattern>(alloc, position, &texts)?;
    Ok(CompactRow {
        log10_type: entry.log10_type,
        exponent,
        patterns,
    })
}

/// Each row in turn.
fn compact_rows_of(
    alloc: Global,
    position: Position,
    entries: &[ListedEntry<'_>],
) -> Result<Vec<CompactRow>, TableError>
    requires { Rise None entries.now }
    ensures rows { Gives (λ v. v.items) result (compact_rows_of position 0 entries.now) }
    ensures rise { IfOk result (λ v. RowsRise None v.items) }
{
    let mut found = Vec::new(alloc);
    let mut before = 0;
    for index in 0..entries.len() {
        let row = compact_row_of(alloc, position, before, &entries[index])?;
        before = row.exponent;
        found.push(row)?;
    }
    Ok(found)
}

/// Whether an entry has another exponent than the one before it, and the same texts, that one's
/// text for exactly one taken away.
fn repeats(before: &ListedEntry<'_>, entry: &ListedEntry<'_>) -> bool
    ensures { result ≡ repeats before.now entry.now }
{
    let texts = before.texts.elements();
    before.exponent != entry.exponent && texts.equal_without_explicit_one(&entry.texts.elements())
}

/// The type of the first entry that repeats the one before it so.
fn first_repeated(entries: &[ListedEntry<'_>]) -> Option<u8>
    ensures { result ≡ first_repeated entries.now }
{
    for index in 1..entries.len() {
        let entry = &entries[index];
        if repeats(&entries[index - 1], entry) {
            return Some(entry.log10_type);
        }
    }
    None
}

/// The rows, unless a type repeats the one before it: a table would drop it, and amounts would be
/// shown by the power of ten of the one before.
fn unless_repeated(
    position: Position,
    repeated: Option<u8>,
    rows: CompactRows,
) -> Result<CompactRows, TableError>
    ensures { Gives (λ x. x) result (unless_repeated position repeated rows) }
{
    match repeated {
        Some(log10_type) => Err(position.refusal(EntryFault::RepeatedPatterns { log10_type })),
        None => Ok(rows),
    }
}

/// The compact patterns of money of a locale and perhaps a numbering system, under its name.
pub struct CurrencyCompactEntry;

impl EntryKind for CurrencyCompactEntry {
    type Entry = NamedEntry<CompactRows>;

    ghost use Rattle.icu_dimension_tables.specs.CurrencyCompact.{currency_compact_at};
    ghost use Rattle.icu_table_entries.specs.Named.{is_of};

    ghost read_at = { currency_compact_at };

    ghost serves = { is_of };

    // promise: Texts that are repeated with a new exponent are rejected.
    // mutations: repeated_texts_let_through
    #[tactic(auto, unfolding(crate::specs::CurrencyCompact::currency_compact_at))]
    fn from_entry(
        alloc: Global,
        position: Position,
        value: &Value,
    ) -> Result<Self::Entry, TableError> {
        let value = object_in(value, position.key)?;
        let locale = text_at(value, Key::Locale)?;
        let system = optional_text_at(value, Key::System)?;
        let listed = listed_entries_in(alloc, list_at(value, Key::Patterns)?)?;
        let name = name_of(position, locale, system)?;
        let rows = compact_rows_of(alloc, position, &listed)?;
        let content = unless_repeated(position, first_repeated(&listed), CompactRows { rows })?;
        Ok(NamedEntry { name, content })
    }

    fn serves(entry: &Self::Entry, locale: &DataLocale) -> bool {
        entry.name.is_of(locale)
    }
}
