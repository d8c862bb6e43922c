//! The locales and numbering systems to format for (ICU4X `preferences`).

ghost use Rattle.std.specs.Prelude.{◌≡◌, None, codes, option_map};
ghost use Rattle.icu_provider.specs.Identifier.{identifier_of};
ghost use Rattle.icu_decimal_options.specs.Preferences.{preferred_id, plain_preferences};

use icu_plurals::PluralRulesPreferences;
pub use icu_provider::NumberingSystem;
use icu_provider::{DataIdentifierBorrowed, DataLocale};

/// The locale and the numbering system to format for (ICU4X `DecimalFormatterPreferences`).
#[derive(Debug, Clone, Copy, PartialEq, Eq)]
pub struct DecimalFormatterPreferences {
    /// The locale. Its text is passed to the provider unchanged: a numbering system in it, as
    /// `-u-nu-thai`, has no effect.
    pub locale_preferences: DataLocale,
    /// The preferred numbering system; `None` leaves the choice to the locale.
    pub numbering_system: Option<NumberingSystem>,
}

/// The undetermined locale, `und`, and no preferred system.
impl Default for DecimalFormatterPreferences {
    ghost is_default = { λ prefs.
        prefs ≡ record { locale_preferences = codes "und"; numbering_system = None } };

    fn default() -> Self {
        DecimalFormatterPreferences {
            locale_preferences: DataLocale::default(),
            numbering_system: None,
        }
    }
}

impl DecimalFormatterPreferences {
    /// The identifier to request data by first: the preferred numbering system in the locale. None
    /// without a preferred system.
    // promise: Data are asked by the preferred system, if there is one.
    // mutations: preferences_system_in_their_own_locale
    pub fn nu_id<'a>(&'a self, locale: &'a DataLocale) -> Option<DataIdentifierBorrowed<'a>>
        ensures { option_map identifier_of result
            ≡ preferred_id self.entry.now.numbering_system locale.entry.now }
    {
        match &self.numbering_system {
            Some(system) => Some(DataIdentifierBorrowed::for_marker_attributes_and_locale(
                system.as_str(),
                locale,
            )),
            None => None,
        }
    }
}

/// The locale and the numbering system to format for in compact form (ICU4X
/// `CompactDecimalFormatterPreferences`).
#[derive(Debug, Clone, Copy, PartialEq, Eq)]
pub struct CompactDecimalFormatterPreferences {
    /// The locale. Its text is passed to the provider unchanged.
    pub locale_preferences: DataLocale,
    /// The preferred numbering system; `None` leaves the choice to the locale.
    pub numbering_system: Option<NumberingSystem>,
}

/// The undetermined locale, `und`, and no preferred system.
impl Default for CompactDecimalFormatterPreferences {
    ghost is_default = { λ prefs.
        prefs ≡ record { locale_preferences = codes "und"; numbering_system = None } };

    fn default() -> Self {
        let plain = DecimalFormatterPreferences::default();
        CompactDecimalFormatterPreferences {
            locale_preferences: plain.locale_preferences,
            numbering_system: plain.numbering_system,
        }
    }
}

impl From<&CompactDecimalFormatterPreferences> for DecimalFormatterPreferences {
    ghost from_gives = { λ compact plain. plain ≡ plain_preferences compact.now };

    fn from(compact: &CompactDecimalFormatterPreferences) -> Self {
        DecimalFormatterPreferences {
            locale_preferences: compact.locale_preferences,
            numbering_system: compact.numbering_system,
        }
    }
}

impl From<&CompactDecimalFormatterPreferences> for PluralRulesPreferences {
    ghost from_gives = { λ compact plural.
        plural ≡ record { locale_preferences = compact.now.locale_preferences } };

    fn from(prefs: &CompactDecimalFormatterPreferences) -> Self {
        PluralRulesPreferences {
            locale_preferences: prefs.locale_preferences,
        }
    }
}
