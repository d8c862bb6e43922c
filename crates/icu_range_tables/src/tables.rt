//! Whole documents.

ghost use Rattle.serde_json.specs.View.{view};
ghost use Rattle.icu_table_entries.specs.Reading.{Gives};
ghost use Rattle.icu_range_tables.specs.RangeTables.{range_tables_at, range_tables_of};

use crate::plural_ranges::PluralRangesEntry;
use crate::range_patterns::RangesEntry;
use icu_ranges::{PluralRanges, RangePattern};
use icu_table_entries::entries::optional_entries;
use icu_table_entries::fields::object_in;
use icu_table_entries::named::NamedEntry;
use icu_table_entries::whole_numbers::value_of;
use icu_table_entries::{Key, TableError};
use serde_json::Value;
use std::alloc::Global;
use std::marker::Model;

/// The data of formatters of ranges, read from a JSON document (this project's own format,
/// `docs/FORMATS.md`): range patterns and the plural categories of ranges, each by its locale.
#[derive(Drop)]
pub struct RangeTables {
    pub(crate) ranges: Option<Vec<NamedEntry<RangePattern>>>,
    pub(crate) plural_ranges: Option<Vec<NamedEntry<PluralRanges>>>,
}

impl Model for RangeTables {
    ghost use Rattle.std.specs.Prelude.{option_map};
    ghost use Rattle.icu_range_tables.specs.RangeTables.{RangeData};

    ghost Value = { RangeData };

    ghost view = { λ t. record {
      ranges = option_map (λ v. v.items) t.ranges;
      plural_ranges = option_map (λ v. v.items) t.plural_ranges;
    } };
}

impl RangeTables {
    /// The tables of a JSON text, or its first fault.
    ///
    /// A text that isn't JSON is rejected first, then a value that has a number anywhere that isn't
    /// a 64-bit whole number. Then the key `ranges` is judged and then `plural_ranges`, and each
    /// list entry by entry. In an entry the kinds of all fields are judged before their contents.
    /// Each key may be absent; unknown keys are ignored, and of equal keys the last one counts.
    // promise: The text determines the ranges, or its first fault.
    // mutations: plural_ranges_judged_before_ranges
    #[tactic(auto, unfolding(crate::specs::RangeTables::range_tables_of))]
    pub fn from_json(alloc: Global, text: &str) -> Result<RangeTables, TableError>
        ensures { Gives (λ x. x) result (range_tables_of text.now) }
    {
        let value = value_of(alloc, text)?;
        RangeTables::from_value(alloc, &value)
    }

    /// The tables of a value that was read from JSON, or its first fault.
    ///
    /// Keys are judged as by [`RangeTables::from_json`], which first searches the value for numbers
    /// that aren't 64-bit whole numbers.
    #[tactic(auto, unfolding(crate::specs::RangeTables::range_tables_at))]
    pub fn from_value(alloc: Global, value: &Value) -> Result<RangeTables, TableError>
        ensures { Gives (λ x. x) result (range_tables_at (view value.now)) }
    {
        let value = object_in(value, Key::Document)?;
        Ok(RangeTables {
            ranges: optional_entries::<RangesEntry>(alloc, value, Key::Ranges)?,
            plural_ranges: optional_entries::<PluralRangesEntry>(alloc, value, Key::PluralRanges)?,
        })
    }
}
