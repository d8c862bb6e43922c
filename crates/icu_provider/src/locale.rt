//! The texts of locales.

ghost use Rattle.std.specs.Prelude.{◌≡◌, ◌↔◌, IsTrue, IsOk, IfOk, ⊤, codes, nat_eq};
ghost use Rattle.std.specs.List.{list_all};
ghost use Rattle.icu_provider.specs.Ascii.{is_alphanumeric_or_hyphen};
ghost use Rattle.icu_provider.specs.Locale.{is_locale, IsLocale};

use crate::short_text::ShortText;
use std::alloc::AllocError;
use std::marker::Model;
use thiserror::Error;

/// The text isn't that of a locale: it isn't 1 to 63 ASCII letters, digits or hyphens.
#[derive(Clone, Copy, Debug, PartialEq, Eq, Error)]
#[error("not the text of a locale")]
pub struct BadLocale;

/// The text of a locale, as `ar-EG`, to request data for (ICU4X, `DataLocale`). It is kept as it is
/// given, in upper and lower case, and its subtags aren't checked. It is a small value that takes
/// no memory.
#[derive(Debug)]
pub struct DataLocale {
    text: ShortText<63>,
}

impl Model for DataLocale {
    ghost use Rattle.std.specs.Prelude.{ℕ, List};
    ghost use Rattle.icu_provider.specs.Locale.{IsLocale};

    ghost Value = { List ℕ };

    ghost view = { λ s. s.text };

    ghost invariant = { λ s. IsLocale s.text };

    ghost inverse = { λ text. record { text = text } };
}

fn is_alphanumeric_or_hyphen_byte(byte: u8) -> bool
    ensures { result ≡ is_alphanumeric_or_hyphen byte }
{
    byte.is_ascii_alphanumeric() || byte == b'-'
}

fn are_alphanumeric_or_hyphens(bytes: &[u8]) -> bool
    ensures { result ≡ list_all is_alphanumeric_or_hyphen bytes.now }
{
    bytes
        .iter()
        .all(|byte| is_alphanumeric_or_hyphen_byte(*byte))
}

#[tactic(auto, unfolding(crate::specs::Locale::is_locale))]
fn is_locale_text(bytes: &[u8]) -> bool
    ensures { result ≡ is_locale bytes.now }
{
    1 <= bytes.len() && bytes.len() <= 63 && are_alphanumeric_or_hyphens(bytes)
}

impl DataLocale {
    /// The locale of this text.
    // promise: Exactly 1 to 63 ASCII letters, digits, hyphens are accepted.
    // mutations: locale_sixty_four_letters_accepted
    pub fn try_from_str(text: &str) -> Result<Self, BadLocale>
        ensures accepted { IsOk result ↔ IsLocale text.now }
        ensures text { IfOk result (λ locale. locale ≡ text.now) }
    {
        if !is_locale_text(text.as_bytes()) {
            return Err(BadLocale);
        }
        Ok(Self::of(text))
    }

    fn of(locale: &str) -> Self
        requires { IsLocale locale.now }
        ensures { result ≡ locale.now }
    {
        DataLocale {
            text: ShortText::new(locale),
        }
    }

    /// The text.
    pub fn as_str(&self) -> &str
        ensures text { result.now ≡ self.now }
        ensures valid { IsLocale self.now }
    {
        self.text.as_str()
    }
}

impl Default for DataLocale {
    ghost is_default = { λ locale. locale ≡ codes "und" };

    /// The undetermined locale, `und` (UTS 35, Unknown or Invalid Identifiers).
    #[tactic(auto, unfolding(crate::specs::Locale::is_locale))]
    fn default() -> Self {
        Self::of("und")
    }
}

impl Clone for DataLocale {
    ghost is_clone = { λ s r. r ≡ s };

    ghost is_infallible = { λ _. ⊤ };

    fn clone(&self) -> Result<DataLocale, AllocError> {
        Ok(*self)
    }
}

impl Copy for DataLocale {}

impl PartialEq for DataLocale {
    ghost use Rattle.std.specs.Prelude.{◌≡◌, ◌↔◌, IsTrue, nat_eq};
    ghost use Rattle.std.specs.Cmp.{partial_equiv_from_equiv};
    ghost use Rattle.std.specs.Cmp.Lexicographic.{pointwise};
    ghost use Rattle.std.proofs.lemmas.Cmp.{nat_list_eq_equiv};

    ghost eq = { pointwise nat_eq };

    ghost laws = { partial_equiv_from_equiv nat_list_eq_equiv };

    /// Whether the texts are equal, byte by byte.
    fn eq(&self, other: &Self) -> bool
        ensures computed { result ≡ pointwise nat_eq self.now other.now }
        ensures same { IsTrue result ↔ (self.now ≡ other.now) }
    {
        self.as_str() == other.as_str()
    }
}

impl Eq for DataLocale {
    ghost use Rattle.std.proofs.lemmas.Cmp.{nat_list_eq_equiv};

    ghost laws = { nat_list_eq_equiv };
}
