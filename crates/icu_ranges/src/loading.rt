//! Range patterns and the categories of ranges from a provider of data.

ghost use Rattle.std.specs.Prelude.{Ok, []};
ghost use Rattle.icu_provider.specs.Answer.{Answers};
ghost use Rattle.icu_decimal.specs.Loaded.{preferably};
ghost use Rattle.icu_decimal_data.specs.Decided.{or_else};
ghost use Rattle.icu_decimal_options.specs.Preferences.{locale_id};

use crate::plural_ranges::PluralRanges;
use crate::range_pattern::RangePattern;
use icu_decimal::provider::load_preferred;
use icu_decimal_options::preferences::DecimalFormatterPreferences;
use icu_plurals::PluralRulesPreferences;
use icu_provider::{
    DataError, DataErrorKind, DataIdentifierBorrowed, DataMarker, DataProvider, DataRequest,
};
use std::alloc::Global;

/// The range pattern of a locale, asked for by the preferred numbering system in the locale, or
/// else by the locale (this project's own).
pub struct RangePatternsV1;

impl DataMarker for RangePatternsV1 {
    type DataStruct = RangePattern;
}

/// The plural categories of ranges, asked for by the locale (ICU4X `PluralsRangesV1`).
pub struct PluralsRangesV1;

impl DataMarker for PluralsRangesV1 {
    type DataStruct = PluralRanges;
}

impl RangePattern {
    /// The provider's range pattern for the preferred numbering system in the locale, if one is
    /// preferred and has a pattern, and else for the locale.
    // promise: A range pattern is asked for as the symbols of numbers are.
    // mutations: loading_pattern_without_the_system
    pub fn try_new_unstable<D: DataProvider<RangePatternsV1>>(
        alloc: Global,
        provider: &D,
        prefs: DecimalFormatterPreferences,
    ) -> Result<Self, DataError>
        ensures { Answers result
            (preferably (D.answer provider.now) prefs (locale_id prefs.locale_preferences)) }
    {
        let locale = &prefs.locale_preferences;
        load_preferred::<RangePatternsV1, D>(
            alloc,
            provider,
            prefs.nu_id(locale),
            DataIdentifierBorrowed::for_locale(locale),
        )
    }
}

impl PluralRanges {
    /// The provider's categories of ranges for the locale. A locale without an entry has none, so
    /// that each of its ranges has the category `Other`. The provider is asked once, without a
    /// numbering system and silently.
    // promise: A locale without an entry has no categories of ranges.
    // mutations: loading_no_entry_told_as_an_error
    pub fn try_new_unstable<D: DataProvider<PluralsRangesV1>>(
        alloc: Global,
        provider: &D,
        prefs: PluralRulesPreferences,
    ) -> Result<Self, DataError>
        ensures { Answers result
            (or_else (D.answer provider.now (locale_id prefs.locale_preferences)) (Ok [])) }
    {
        let id = DataIdentifierBorrowed::for_locale(&prefs.locale_preferences);
        match provider.load(alloc, &DataRequest { id, silent: true }) {
            Err(
                DataError {
                    kind: DataErrorKind::IdentifierNotFound,
                    ..
                },
            ) => Ok(PluralRanges::empty(alloc)),
            decided => decided,
        }
    }
}
