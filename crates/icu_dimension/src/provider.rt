//! What a locale says about money, percents and units, and how a provider is asked for it.

pub use crate::currency_data::{CurrencyPatterns, CurrencySymbols};
pub use crate::loading::load_currency_digits;
pub use crate::markers::{
    CurrencyCompactShortV1, CurrencyDecimalSymbolsV1, CurrencyDigitsV1, CurrencyNamesV1,
    CurrencyPatternsV1, CurrencySymbolsV1, PercentPatternsV1, PermillePatternsV1, UnitsLongV1,
    UnitsNarrowV1, UnitsShortV1,
};
pub use icu_dimension_data::{CompactCurrencyPatterns, CompactRow, CompactRows};
