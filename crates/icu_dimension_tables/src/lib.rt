//! The data of formatters of money, percents and units, read from JSON.
#![tactic(auto)]

mod all_tables;
mod by_category;
mod copying;
mod currency_compact;
mod currency_digits;
mod currency_names;
mod currency_symbols;
mod for_locale;
mod money;
mod money_pattern;
mod name_placeholders;
mod number_patterns;
mod percents;
mod provider;
mod sign_texts;
mod tables;
mod units;

pub use all_tables::AllTables;
pub use icu_table_entries::{EntryFault, Key, TableError};
pub use tables::DimensionTables;
