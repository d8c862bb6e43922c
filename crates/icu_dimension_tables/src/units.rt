//! Entries of units.

ghost use Rattle.std.specs.Prelude.{◌≡◌, option_map};
ghost use Rattle.icu_provider.specs.Identifier.{identifier_of};
ghost use Rattle.icu_table_entries.specs.Reading.{Gives};
ghost use Rattle.icu_dimension_tables.specs.Units.{first_unit, same_width, width_of};

use icu_provider::{DataIdentifierBorrowed, DataLocale};
use icu_table_entries::entries::EntryKind;
use icu_table_entries::fields::{member_at, object_in, text_at};
use icu_table_entries::named::locale_of;
use icu_table_entries::texts::{Patterns, category_texts_in, patterns_of};
use icu_table_entries::{EntryFault, Key, Position, TableError};
use serde_json::Value;
use std::alloc::Global;
use std::marker::Model;

/// How wide a unit is written.
#[derive(Clone, Copy)]
pub enum UnitWidth {
    /// As in `5 kilometers`.
    Long,
    /// As in `5 km`.
    Short,
    /// As in `5km`.
    Narrow,
}

impl UnitWidth {
    /// Whether two widths are the same.
    fn is(self, other: UnitWidth) -> bool
        ensures { result ≡ same_width self other }
    {
        match (self, other) {
            (UnitWidth::Long, UnitWidth::Long) => true,
            (UnitWidth::Short, UnitWidth::Short) => true,
            (UnitWidth::Narrow, UnitWidth::Narrow) => true,
            _ => false,
        }
    }
}

/// The width of a name.
#[tactic(auto, unfolding(crate::specs::Units::width_of))]
fn width_of(position: Position, name: &str) -> Result<UnitWidth, TableError>
    ensures { Gives (λ x. x) result (width_of position name.now) }
{
    match name {
        "long" => Ok(UnitWidth::Long),
        "short" => Ok(UnitWidth::Short),
        "narrow" => Ok(UnitWidth::Narrow),
        _ => Err(position.refusal(EntryFault::BadWidth)),
    }
}

/// The patterns of a unit in a locale and a width.
#[derive(Drop)]
pub struct UnitPatterns {
    locale: DataLocale,
    unit: String,
    width: UnitWidth,
    patterns: Patterns,
}

impl Model for UnitPatterns {
    ghost use Rattle.std.specs.Prelude.{Some};
    ghost use Rattle.std.specs.String.{string_bytes};
    ghost use Rattle.icu_dimension_tables.specs.Units.{UnitPatterns as PatternsOfUnit};

    ghost Value = { PatternsOfUnit };

    ghost view = { λ u. record {
      identifier = record { system = Some (string_bytes u.unit); locale = u.locale };
      width = u.width;
      patterns = u.patterns;
    } };
}

impl UnitPatterns {
    /// The identifier of the patterns.
    fn identifier(&self) -> DataIdentifierBorrowed<'_>
        ensures { identifier_of result ≡ self.now.identifier }
    {
        DataIdentifierBorrowed::for_marker_attributes_and_locale(self.unit.as_str(), &self.locale)
    }
}

/// The patterns of a unit.
pub struct UnitEntry;

impl EntryKind for UnitEntry {
    type Entry = UnitPatterns;

    ghost use Rattle.std.specs.Prelude.{nat_eq};
    ghost use Rattle.std.specs.Cmp.Lexicographic.{pointwise};
    ghost use Rattle.icu_dimension_tables.specs.Units.{units_at};

    ghost read_at = { units_at };

    ghost serves = { λ locale entry. pointwise nat_eq locale entry.identifier.locale };

    #[tactic(auto, unfolding(crate::specs::Units::units_at))]
    fn from_entry(
        alloc: Global,
        position: Position,
        value: &Value,
    ) -> Result<Self::Entry, TableError> {
        let value = object_in(value, position.key)?;
        let locale = text_at(value, Key::Locale)?;
        let width = text_at(value, Key::Width)?;
        let unit = text_at(value, Key::Unit)?;
        let patterns = member_at(value, Key::Patterns)?;
        let texts = category_texts_in(patterns, Key::Patterns)?;
        let locale = locale_of(position, locale)?;
        let width = width_of(position, width)?;
        let patterns = patterns_of(alloc, position, &texts)?;
        let unit = String::from_str(alloc, unit)?;
        Ok(UnitPatterns {
            locale,
            unit,
            width,
            patterns,
        })
    }

    fn serves(entry: &Self::Entry, locale: &DataLocale) -> bool {
        *locale == entry.locale
    }
}

/// The patterns of the first entry of a width with an identifier.
#[tactic(auto, unfolding(crate::specs::Units::first_unit))]
pub fn first_unit<'a>(
    entries: &'a [UnitPatterns],
    width: UnitWidth,
    id: &DataIdentifierBorrowed<'_>,
) -> Option<&'a Patterns>
    ensures { option_map (λ x. x.now) result ≡ first_unit width (identifier_of id.now) entries.now }
{
    for entry in entries {
        if width.is(entry.width) && *id == entry.identifier() {
            return Some(&entry.patterns);
        }
    }
    None
}
