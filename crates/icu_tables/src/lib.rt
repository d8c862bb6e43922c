//! The data of formatters, read from JSON.
//!
//! ```
//! let tables = Tables::from_json(rt.alloc(), TABLES).ok()?;
//! let prefs = CompactDecimalFormatterPreferences {
//!     locale_preferences: DataLocale::try_from_str("en").ok()?,
//!     numbering_system: None,
//! };
//! let options = CompactDecimalFormatterOptions::default();
//! let formatter = CompactDecimalFormatter::try_new_short_unstable(
//!     rt.alloc(),
//!     &tables,
//!     prefs,
//!     options,
//! ).ok()?;
//! let decimal = Decimal::try_from_str(rt.alloc(), "15127").ok()?;
//! let text = formatter.format_to_string(rt.alloc(), &decimal).ok()?;
//! println!(rt; "{text}").ok()
//! ```
//!
//! prints `15K`.
#![tactic(auto)]

pub mod compact;
mod digits;
pub mod for_locale;
pub mod provider;
mod rules;
pub mod symbols;
mod tables;
pub mod tokens;

pub use compact::compact_from_value;
pub use icu_table_entries::{EntryFault, Key, TableError};
pub use tables::Tables;
