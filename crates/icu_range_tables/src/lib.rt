//! The range patterns and the categories of ranges of locales, read from JSON.
#![tactic(auto)]

mod plural_ranges;
mod provider;
mod range_patterns;
mod tables;

pub use icu_table_entries::{EntryFault, Key, TableError};
pub use tables::RangeTables;
