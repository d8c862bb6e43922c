//! Plural rules from a provider of data.

ghost use Rattle.std.specs.Prelude.{None};
ghost use Rattle.icu_provider.specs.Answer.{Answers};

use crate::rules::PluralRules;
use icu_provider::{
    DataError, DataIdentifierBorrowed, DataLocale, DataMarker, DataProvider, DataRequest,
};
use std::alloc::Global;

/// The cardinal rules of a locale (ICU4X, `PluralsCardinalV1`).
pub struct PluralsCardinalV1;

impl DataMarker for PluralsCardinalV1 {
    type DataStruct = PluralRules;
}

/// The ordinal rules of a locale (ICU4X, `PluralsOrdinalV1`).
pub struct PluralsOrdinalV1;

impl DataMarker for PluralsOrdinalV1 {
    type DataStruct = PluralRules;
}

/// The locale to make plural rules for (ICU4X, `PluralRulesPreferences`).
#[derive(Clone, Copy, Debug, PartialEq, Eq)]
pub struct PluralRulesPreferences {
    /// The locale. Its text is passed to the provider unchanged.
    pub locale_preferences: DataLocale,
}

impl Default for PluralRulesPreferences {
    ghost use Rattle.std.specs.Prelude.{◌≡◌, codes};

    ghost is_default = { λ prefs. prefs ≡ record { locale_preferences = codes "und" } };

    /// The undetermined locale, `und`.
    fn default() -> Self {
        PluralRulesPreferences {
            locale_preferences: DataLocale::default(),
        }
    }
}

impl PluralRules {
    /// The cardinal rules that the provider has for the locale. The provider is asked once, without
    /// a numbering system and not silently.
    // promise: The rules, or the error, are the provider's by the locale.
    // mutations: cardinal_rules_asked_by_a_system
    pub fn try_new_cardinal_unstable<D: DataProvider<PluralsCardinalV1>>(
        alloc: Global,
        provider: &D,
        prefs: PluralRulesPreferences,
    ) -> Result<Self, DataError>
        ensures { Answers result
            (D.answer provider.now (record { system = None; locale = prefs.locale_preferences })) }
    {
        let id = DataIdentifierBorrowed::for_locale(&prefs.locale_preferences);
        provider.load(alloc, &DataRequest { id, silent: false })
    }

    /// The ordinal rules that the provider has for the locale, as of `1st`, `2nd` and `3rd`. The
    /// provider is asked once, without a numbering system and not silently.
    // promise: Ordinal rules are the provider's by the locale.
    // mutations: ordinal_rules_asked_by_a_system
    pub fn try_new_ordinal_unstable<D: DataProvider<PluralsOrdinalV1>>(
        alloc: Global,
        provider: &D,
        prefs: PluralRulesPreferences,
    ) -> Result<Self, DataError>
        ensures { Answers result
            (D.answer provider.now (record { system = None; locale = prefs.locale_preferences })) }
    {
        let locale = &prefs.locale_preferences;
        let id = DataIdentifierBorrowed::for_locale(locale);
        let request = DataRequest { id, silent: false };
        provider.load(alloc, &request)
    }
}
