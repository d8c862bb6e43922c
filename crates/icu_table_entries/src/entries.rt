//! Lists of entries.

ghost use Rattle.std.specs.Prelude.{◌≡◌, ℕ, Bool, List, Result, map, option_map};
ghost use Rattle.serde_json.specs.Data.{Data};
ghost use Rattle.serde_json.specs.View.{view};
ghost use Rattle.icu_table_entries.specs.Reading.{Gives, entries_at, entries_in, entries_under, optional_at};
ghost use Rattle.icu_table_entries.specs.declared.error.Position.{Position};
ghost use Rattle.icu_table_entries.specs.declared.error.TableError.{TableError};

use crate::error::{Key, Position, TableError};
use crate::fields::{list_in, member_at};
use icu_provider::DataLocale;
use serde_json::Value;
use std::alloc::Global;

/// A kind of entries of lists.
pub trait EntryKind {
    /// An entry.
    type Entry: Drop;

    /// What the value of an entry reads as.
    ghost read_at: { Position → Data → Result Self.Entry TableError };

    /// Whether an entry may answer a request in a locale.
    ghost serves: { List ℕ → Self.Entry → Bool };

    /// The entry of a value, or its first fault.
    fn from_entry(
        alloc: Global,
        position: Position,
        value: &Value,
    ) -> Result<Self::Entry, TableError>
        ensures { Gives (λ x. x) result (read_at position (view value.now)) };

    /// Whether the entry may answer a request in this locale.
    fn serves(entry: &Self::Entry, locale: &DataLocale) -> bool
        ensures { result ≡ serves locale.now entry.now };
}

/// Each entry in turn.
// promise: Entries are read in order; the first fault has its index.
// mutations: refusal_without_its_index
pub fn entries<T: EntryKind>(
    alloc: Global,
    key: Key,
    values: &[Value],
) -> Result<Vec<T::Entry>, TableError>
    ensures { Gives (λ v. v.items) result (entries_at T.read_at key 0 (map view values.now)) }
{
    let mut found = Vec::new(alloc);
    for (index, value) in values.iter().enumerate() {
        found.push(T::from_entry(alloc, Position { key, index }, value)?)?;
    }
    Ok(found)
}

/// The entries of a list.
#[tactic(auto, unfolding(crate::specs::Reading::entries_in))]
pub fn entries_in<T: EntryKind>(
    alloc: Global,
    value: &Value,
    key: Key,
) -> Result<Vec<T::Entry>, TableError>
    ensures { Gives (λ v. v.items) result (entries_in T.read_at key (view value.now)) }
{
    entries::<T>(alloc, key, list_in(value, key)?)
}

/// The entries under a required key.
#[tactic(auto, unfolding(crate::specs::Reading::entries_under))]
pub fn entries_under<T: EntryKind>(
    alloc: Global,
    value: &Value,
    key: Key,
) -> Result<Vec<T::Entry>, TableError>
    ensures { Gives (λ v. v.items) result (entries_under T.read_at key (view value.now)) }
{
    entries_in::<T>(alloc, member_at(value, key)?, key)
}

/// The entries under a key that may be absent.
#[tactic(auto, unfolding(crate::specs::Reading::optional_at))]
pub fn optional_entries<T: EntryKind>(
    alloc: Global,
    value: &Value,
    key: Key,
) -> Result<Option<Vec<T::Entry>>, TableError>
    ensures { Gives (option_map (λ v. v.items)) result
        (optional_at (entries_in T.read_at key) key (view value.now)) }
{
    match value.get(key.name()) {
        Some(member) => Ok(Some(entries_in::<T>(alloc, member, key)?)),
        None => Ok(None),
    }
}
