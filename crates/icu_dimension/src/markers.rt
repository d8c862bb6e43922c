//! The kinds of data of which formatters of money, percents and units are made.

use crate::currency_data::{CurrencyPatterns, CurrencySymbols};
use crate::name_pattern::NamePattern;
use icu_decimal_symbols::DecimalSymbols;
use icu_dimension_data::{CompactRows, CurrencyDigits, SignedPatterns};
use icu_pattern::{Pattern, SinglePlaceholder};
use icu_plurals::PluralElements;
use icu_provider::DataMarker;

/// The symbols for numbers of money, if a locale has its own: `currencyDecimal` and
/// `currencyGroup`. They are asked for just before [`DecimalSymbolsV1`], by the same identifiers.
///
/// [`DecimalSymbolsV1`]: icu_decimal_data::DecimalSymbolsV1
pub struct CurrencyDecimalSymbolsV1;

impl DataMarker for CurrencyDecimalSymbolsV1 {
    type DataStruct = DecimalSymbols;
}

/// The patterns of money, asked for by the preferred numbering system in the locale, or else by the
/// locale.
pub struct CurrencyPatternsV1;

impl DataMarker for CurrencyPatternsV1 {
    type DataStruct = CurrencyPatterns;
}

/// The symbols of a currency, asked for by its code in the locale.
pub struct CurrencySymbolsV1;

impl DataMarker for CurrencySymbolsV1 {
    type DataStruct = CurrencySymbols;
}

/// A number with the name of a currency by plural category, asked for by its code in the locale.
pub struct CurrencyNamesV1;

impl DataMarker for CurrencyNamesV1 {
    type DataStruct = PluralElements<NamePattern>;
}

/// The short compact patterns of money, asked for by the preferred numbering system in the locale,
/// or else by the locale. They are those of every currency.
pub struct CurrencyCompactShortV1;

impl DataMarker for CurrencyCompactShortV1 {
    type DataStruct = CompactRows;
}

/// The digits of currencies, asked for in the undetermined locale, `und`.
pub struct CurrencyDigitsV1;

impl DataMarker for CurrencyDigitsV1 {
    type DataStruct = CurrencyDigits;
}

/// The patterns of percents for the three signs, asked for by the preferred numbering system in the
/// locale, or else by the locale.
pub struct PercentPatternsV1;

impl DataMarker for PercentPatternsV1 {
    type DataStruct = SignedPatterns;
}

/// The patterns of permilles for the three signs (this project's own), asked for as those of
/// percents.
pub struct PermillePatternsV1;

impl DataMarker for PermillePatternsV1 {
    type DataStruct = SignedPatterns;
}

/// The long patterns of a unit, as `{0} kilometers`, asked for by the unit in the locale.
pub struct UnitsLongV1;

impl DataMarker for UnitsLongV1 {
    type DataStruct = PluralElements<Pattern<SinglePlaceholder>>;
}

/// The short patterns of a unit, as `{0} km`, asked for by the unit in the locale.
pub struct UnitsShortV1;

impl DataMarker for UnitsShortV1 {
    type DataStruct = PluralElements<Pattern<SinglePlaceholder>>;
}

/// The narrow patterns of a unit, as `{0}km`, asked for by the unit in the locale.
pub struct UnitsNarrowV1;

impl DataMarker for UnitsNarrowV1 {
    type DataStruct = PluralElements<Pattern<SinglePlaceholder>>;
}
