//! Entries of range patterns.

ghost use Rattle.std.specs.Prelude.{◌≡◌, Ok, option_map};
ghost use Rattle.icu_table_entries.specs.Reading.{Gives};
ghost use Rattle.icu_range_tables.specs.RangePatterns.{approximately_of, range_pattern_of, with_sign};

use icu_provider::DataLocale;
use icu_ranges::{RangePattern, RangePatternError};
use icu_table_entries::entries::EntryKind;
use icu_table_entries::fields::{object_in, optional_text_at, text_at};
use icu_table_entries::named::{NamedEntry, name_of};
use icu_table_entries::{EntryFault, Key, Position, TableError};
use serde_json::Value;
use std::alloc::Global;

/// The range pattern of a text.
pub fn range_pattern_of(
    alloc: Global,
    position: Position,
    text: &str,
) -> Result<RangePattern, TableError>
    ensures { Gives (λ x. x) result (range_pattern_of position text.now) }
{
    match RangePattern::parse(alloc, text) {
        Ok(pattern) => Ok(pattern),
        Err(RangePatternError::BadRangePattern) => {
            Err(position.refusal(EntryFault::BadRangePattern))
        }
        Err(RangePatternError::OutOfMemory) => Err(TableError::OutOfMemory),
    }
}

/// The sign for approximately, unless it is an empty text.
#[tactic(auto, unfolding(crate::specs::RangePatterns::approximately_of))]
fn approximately_of(position: Position, sign: Option<&str>) -> Result<Option<&str>, TableError>
    ensures { Gives (option_map (λ s. s.now)) result
        (approximately_of position (option_map (λ s. s.now) sign.entry)) }
{
    match sign {
        Some(text) if text.is_empty() => Err(position.refusal(EntryFault::EmptyText {
            name: Key::Approximately,
        })),
        sign => Ok(sign),
    }
}

/// A range pattern with the sign for approximately, if there is one.
fn with_sign(
    alloc: Global,
    pattern: RangePattern,
    sign: Option<&str>,
) -> Result<RangePattern, TableError>
    ensures { Gives (λ x. x) result
        (Ok (with_sign (option_map (λ s. s.now) sign.entry) pattern)) }
{
    match sign {
        Some(text) => Ok(pattern.with_approximately_sign(String::from_str(alloc, text)?)),
        None => Ok(pattern),
    }
}

/// Range patterns under their name.
pub struct RangesEntry;

impl EntryKind for RangesEntry {
    type Entry = NamedEntry<RangePattern>;

    ghost use Rattle.icu_range_tables.specs.RangePatterns.{ranges_at};
    ghost use Rattle.icu_table_entries.specs.Named.{is_of};

    ghost read_at = { ranges_at };

    ghost serves = { is_of };

    #[tactic(auto, unfolding(crate::specs::RangePatterns::ranges_at))]
    fn from_entry(
        alloc: Global,
        position: Position,
        value: &Value,
    ) -> Result<Self::Entry, TableError> {
        let value = object_in(value, position.key)?;
        let locale = text_at(value, Key::Locale)?;
        let system = optional_text_at(value, Key::System)?;
        let text = text_at(value, Key::Pattern)?;
        let sign = optional_text_at(value, Key::Approximately)?;
        let name = name_of(position, locale, system)?;
        let pattern = range_pattern_of(alloc, position, text)?;
        let sign = approximately_of(position, sign)?;
        let content = with_sign(alloc, pattern, sign)?;
        Ok(NamedEntry { name, content })
    }

    fn serves(entry: &Self::Entry, locale: &DataLocale) -> bool {
        entry.name.is_of(locale)
    }
}
