//! What a locale says about numbers, and how a provider is asked for it (ICU4X `provider`).

pub use crate::loading::load_preferred;
pub use icu_decimal_data::{
    CompactError, CompactPatterns, CompactView, Damaged, DecimalCompactLongV1,
    DecimalCompactShortV1, DecimalDigitsV1, DecimalSymbolsV1, EntryView, SymbolsError,
    load_with_fallback,
};
pub use icu_decimal_symbols::{
    DecimalSymbolStrsBuilder, DecimalSymbols, DecimalSymbolsStrs, GroupingSizes, SymbolsView,
};
