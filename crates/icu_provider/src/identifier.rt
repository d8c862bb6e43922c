//! Identifiers of data, and requests.

ghost use Rattle.icu_provider.specs.Locale.{IsLocale};

use crate::locale::DataLocale;

/// The identifier of data: a locale, and the name of a numbering system or none (ICU4X,
/// `DataIdentifierBorrowed`, whose marker attributes are the numbering system here).
#[derive(Clone, Copy, Debug)]
pub struct DataIdentifierBorrowed<'a> {
    system: Option<&'a str>,
    locale: &'a str,
    ghost valid: { IsLocale locale.now },
}

impl<'a> DataIdentifierBorrowed<'a> {
    ghost use Rattle.std.specs.Prelude.{◌≡◌, Some, None, codes, option_map};
    ghost use Rattle.icu_provider.specs.Identifier.{identifier_of};
    ghost use Rattle.icu_provider.specs.Locale.{IsLocale};

    fn new(system: Option<&'a str>, locale: &'a str) -> Self
        requires { IsLocale locale.now }
        ensures { identifier_of result ≡ record {
          system = option_map (λ s. s.now) system.entry;
          locale = locale.entry.now;
        } }
    {
        DataIdentifierBorrowed { system, locale }
    }

    /// The locale, without a numbering system.
    pub fn for_locale(locale: &'a DataLocale) -> Self
        ensures { identifier_of result ≡ record { system = None; locale = locale.entry.now } }
    {
        Self::new(None, locale.as_str())
    }

    /// Any text as the numbering system, and the undetermined locale, `und`.
    #[tactic(auto, unfolding(crate::specs::Locale::is_locale))]
    pub fn for_marker_attributes(system: &'a str) -> Self
        ensures { identifier_of result ≡ record {
          system = Some system.entry.now;
          locale = codes "und";
        } }
    {
        Self::new(Some(system), "und")
    }

    /// Any text as the numbering system, and a locale.
    // promise: The identifier has the numbering system and the locale.
    // mutations: identifier_of_both_without_the_system
    pub fn for_marker_attributes_and_locale(system: &'a str, locale: &'a DataLocale) -> Self
        ensures { identifier_of result ≡ record {
          system = Some system.entry.now;
          locale = locale.entry.now;
        } }
    {
        Self::new(Some(system), locale.as_str())
    }

    /// The name of the numbering system.
    pub fn system(&self) -> Option<&'a str>
        ensures { option_map (λ s. s.now) result ≡ (identifier_of self.now).system }
    {
        self.system
    }

    /// The text of the locale.
    pub fn locale(&self) -> &'a str
        ensures text { result.now ≡ (identifier_of self.now).locale }
        ensures valid { IsLocale result.now }
    {
        self.locale
    }
}

impl PartialEq for DataIdentifierBorrowed<'_> {
    ghost use Rattle.std.specs.Prelude.{◌≡◌, ◌↔◌, IsTrue};
    ghost use Rattle.std.specs.Cmp.{partial_equiv_from_equiv};
    ghost use Rattle.std.specs.Ordering.{on};
    ghost use Rattle.std.proofs.lemmas.Cmp.{on_equiv};
    ghost use Rattle.icu_provider.specs.Identifier.{identifier_of, same_identifier, same_identifier_equiv};

    ghost eq = { on identifier_of same_identifier };

    ghost laws = { partial_equiv_from_equiv (on_equiv identifier_of same_identifier_equiv) };

    /// Whether both the numbering systems and the locales are equal.
    fn eq(&self, other: &Self) -> bool
        ensures computed { result
            ≡ same_identifier (identifier_of self.now) (identifier_of other.now) }
        ensures same { IsTrue result ↔ (identifier_of self.now ≡ identifier_of other.now) }
    {
        (self.system, self.locale) == (other.system, other.locale)
    }
}

impl Eq for DataIdentifierBorrowed<'_> {
    ghost use Rattle.std.proofs.lemmas.Cmp.{on_equiv};
    ghost use Rattle.icu_provider.specs.Identifier.{identifier_of, same_identifier_equiv};

    ghost laws = { on_equiv identifier_of same_identifier_equiv };
}

/// A request to a data provider (ICU4X, `DataRequest`).
#[derive(Clone, Copy, Debug)]
pub struct DataRequest<'a> {
    /// The identifier of the data.
    pub id: DataIdentifierBorrowed<'a>,
    /// Whether the provider need not log that it has no data, because another identifier will be
    /// tried.
    pub silent: bool,
}
