//! The markers of the data that formatters use.

use crate::compact::CompactPatterns;
use icu_decimal_symbols::DecimalSymbols;
use icu_pattern::SinglePlaceholder;
use icu_provider::DataMarker;

/// The symbols of a locale, or of a numbering system in a locale (ICU4X, `DecimalSymbolsV1`).
pub struct DecimalSymbolsV1;

impl DataMarker for DecimalSymbolsV1 {
    type DataStruct = DecimalSymbols;
}

/// The characters of the digits 0 to 9 of a numbering system (ICU4X, `DecimalDigitsV1`). They are
/// requested for the preferred system in the locale, if there is one. Without it, or if nothing is
/// found, they are requested for the system that the symbols name, in the undetermined locale.
pub struct DecimalDigitsV1;

impl DataMarker for DecimalDigitsV1 {
    type DataStruct = [char; 10];
}

/// The short compact patterns of a locale, as `{0}K` (ICU4X, `DecimalCompactShortV1`).
pub struct DecimalCompactShortV1;

impl DataMarker for DecimalCompactShortV1 {
    type DataStruct = CompactPatterns<SinglePlaceholder>;
}

/// The long compact patterns of a locale, as `{0} thousand` (ICU4X, `DecimalCompactLongV1`).
pub struct DecimalCompactLongV1;

impl DataMarker for DecimalCompactLongV1 {
    type DataStruct = CompactPatterns<SinglePlaceholder>;
}
