//! Entries of the plural categories of ranges.

ghost use Rattle.std.specs.Prelude.{◌≡◌, map};
ghost use Rattle.serde_json.specs.View.{view};
ghost use Rattle.icu_tables.specs.Rules.{category_named};
ghost use Rattle.icu_table_entries.specs.Reading.{Gives};
ghost use Rattle.icu_range_tables.specs.PluralRanges.{category_of, names_lent, plural_ranges_of, range_of, ranges_of};
ghost use Rattle.icu_range_tables.specs.PluralRanges.{spelled_range_in, spelled_ranges_in};

use icu_plurals::PluralCategory;
use icu_provider::DataLocale;
use icu_ranges::{PluralRange, PluralRanges, first_repeated};
use icu_table_entries::entries::EntryKind;
use icu_table_entries::fields::{list_at, object_in, text_at, text_in, triple_in};
use icu_table_entries::named::{NamedEntry, name_of};
use icu_table_entries::{EntryFault, Key, Position, TableError};
use serde_json::Value;
use std::alloc::Global;

/// The names of the categories of the start, of the end and of the range.
type Names<'a> = (&'a str, &'a str, &'a str);

/// The names of a triple, which aren't judged yet.
#[tactic(auto, unfolding(crate::specs::PluralRanges::spelled_range_in))]
fn spelled_range_in(value: &Value) -> Result<Names<'_>, TableError>
    ensures { Gives names_lent result (spelled_range_in (view value.now)) }
{
    let (start, (end, range)) = triple_in(value, Key::Ranges)?;
    let start = text_in(start, Key::Ranges)?;
    let end = text_in(end, Key::Ranges)?;
    let range = text_in(range, Key::Ranges)?;
    Ok((start, end, range))
}

/// Each triple in turn.
fn spelled_ranges_in(alloc: Global, values: &[Value]) -> Result<Vec<Names<'_>>, TableError>
    ensures { Gives (λ v. map names_lent v.items) result (spelled_ranges_in (map view values.now)) }
{
    let mut found = Vec::new(alloc);
    for index in 0..values.len() {
        found.push(spelled_range_in(&values[index])?)?;
    }
    Ok(found)
}

/// The plural category of a name.
#[tactic(auto, unfolding(icu_tables::specs::Rules::category_named))]
fn category_named(name: &str) -> Option<PluralCategory>
    ensures { result ≡ category_named name.now }
{
    match name {
        "zero" => Some(PluralCategory::Zero),
        "one" => Some(PluralCategory::One),
        "two" => Some(PluralCategory::Two),
        "few" => Some(PluralCategory::Few),
        "many" => Some(PluralCategory::Many),
        "other" => Some(PluralCategory::Other),
        _ => None,
    }
}

/// The plural category of a name in a triple.
fn category_of(position: Position, range: usize, name: &str) -> Result<PluralCategory, TableError>
    ensures { Gives (λ x. x) result (category_of position range name.now) }
{
    match category_named(name) {
        Some(category) => Ok(category),
        None => Err(position.refusal(EntryFault::BadCategory { range })),
    }
}

/// The categories of a triple.
fn range_of(position: Position, range: usize, names: Names<'_>) -> Result<PluralRange, TableError>
    ensures { Gives (λ x. x) result (range_of position range (names_lent names.entry)) }
{
    let (start, end, of_range) = names;
    let start = category_of(position, range, start)?;
    let end = category_of(position, range, end)?;
    let result = category_of(position, range, of_range)?;
    Ok(PluralRange { start, end, result })
}

/// The categories of each triple in turn.
fn ranges_of(
    alloc: Global,
    position: Position,
    spelled: &[Names<'_>],
) -> Result<Vec<PluralRange>, TableError>
    ensures { Gives (λ v. v.items) result (ranges_of position 0 (map names_lent spelled.now)) }
{
    let mut found = Vec::new(alloc);
    for index in 0..spelled.len() {
        found.push(range_of(position, index, spelled[index])?)?;
    }
    Ok(found)
}

/// The categories of ranges, unless a pair of categories has two entries.
fn plural_ranges_of(
    alloc: Global,
    position: Position,
    ranges: &[PluralRange],
) -> Result<PluralRanges, TableError>
    ensures { Gives (λ x. x) result (plural_ranges_of position ranges.now) }
{
    if let Some(range) = first_repeated(ranges) {
        return Err(position.refusal(EntryFault::RepeatedPair { range }));
    }
    match PluralRanges::try_new(alloc, ranges) {
        Ok(ranges) => Ok(ranges),
        Err(_) => Err(TableError::OutOfMemory),
    }
}

/// The categories of ranges under their name.
pub struct PluralRangesEntry;

impl EntryKind for PluralRangesEntry {
    type Entry = NamedEntry<PluralRanges>;

    ghost use Rattle.icu_range_tables.specs.PluralRanges.{plural_ranges_at};
    ghost use Rattle.icu_table_entries.specs.Named.{is_of};

    ghost read_at = { plural_ranges_at };

    ghost serves = { is_of };

    #[tactic(auto, unfolding(crate::specs::PluralRanges::plural_ranges_at))]
    fn from_entry(
        alloc: Global,
        position: Position,
        value: &Value,
    ) -> Result<Self::Entry, TableError> {
        let value = object_in(value, position.key)?;
        let locale = text_at(value, Key::Locale)?;
        let values = list_at(value, Key::Ranges)?;
        let spelled = spelled_ranges_in(alloc, values)?;
        let name = name_of(position, locale, None)?;
        let ranges = ranges_of(alloc, position, &spelled)?;
        let content = plural_ranges_of(alloc, position, &ranges)?;
        Ok(NamedEntry { name, content })
    }

    fn serves(entry: &Self::Entry, locale: &DataLocale) -> bool {
        entry.name.is_of(locale)
    }
}
