//! Number symbols and compact patterns of a locale, as ICU4X's data provider gives them to a
//! decimal formatter; their markers, and loading them by several identifiers in turn.
//!
//! ```
//! let Ok(symbols) = DecimalSymbols::new_en_for_testing(rt.alloc()) else {
//!     return None;
//! };
//! let view = SymbolsView::parse(symbols.strings.as_bytes()).ok()?;
//! println!(rt; "between groups {}", view.grouping_separator()).ok()
//! ```
//!
//! prints `between groups ,`.
#![tactic(auto)]

mod compact;
mod compact_view;
mod error;
mod fallback;
mod kept;
pub mod laws;
mod markers;
mod table_bytes;
mod table_damage;
mod table_search;
mod table_slots;
mod table_writing;

pub use compact::CompactPatterns;
pub use compact_view::{CompactView, EntryView};
pub use error::{CompactError, Damaged, SymbolsError};
pub use fallback::load_with_fallback;
pub use icu_decimal_symbols::{
    DecimalSymbolStrsBuilder, DecimalSymbols, DecimalSymbolsStrs, GroupingSizes, SymbolsView,
    decimal_symbols, grouping_sizes, symbols, symbols_view,
};
pub use markers::{DecimalCompactLongV1, DecimalCompactShortV1, DecimalDigitsV1, DecimalSymbolsV1};
