//! The texts of signs and of a currency's symbol.

use std::alloc::{AllocError, Global};
use std::marker::Model;

/// The texts for the tokens of a pattern, borrowed: those of a locale, and the symbol of a
/// currency.
#[derive(Clone, Copy)]
pub struct AffixTexts<'a> {
    /// The minus sign, as `-` or `−`.
    pub minus_sign: &'a str,
    /// The plus sign, as `+`.
    pub plus_sign: &'a str,
    /// The percent sign, as `%`; of a pattern of permilles the per mille sign, as `‰`.
    pub percent_sign: &'a str,
    /// The symbol of the currency, as `$` or `CHF`; for percents it may be empty.
    pub currency: &'a str,
}

/// The same texts, owned.
#[derive(Drop)]
pub(crate) struct KeptTexts {
    pub(crate) minus_sign: String,
    pub(crate) plus_sign: String,
    pub(crate) percent_sign: String,
    pub(crate) currency: String,
}

impl Model for KeptTexts {
    ghost use Rattle.std.specs.String.{string_bytes};
    ghost use Rattle.icu_dimension_data.specs.Resolved.{Texts};

    ghost Value = { Texts };

    ghost view = { λ t. record {
      minus_sign = string_bytes t.minus_sign;
      plus_sign = string_bytes t.plus_sign;
      percent_sign = string_bytes t.percent_sign;
      currency = string_bytes t.currency;
    } };
}

impl AffixTexts<'_> {
    ghost use Rattle.std.specs.Prelude.{◌≡◌, IfOk};
    ghost use Rattle.icu_dimension_data.specs.LentTexts.{lent_texts};

    /// The texts, with memory of their own.
    pub(crate) fn keep(&self, alloc: Global) -> Result<KeptTexts, AllocError>
        ensures { IfOk result (λ t. t ≡ lent_texts self.now) }
    {
        Ok(KeptTexts {
            minus_sign: String::from_str(alloc, self.minus_sign)?,
            plus_sign: String::from_str(alloc, self.plus_sign)?,
            percent_sign: String::from_str(alloc, self.percent_sign)?,
            currency: String::from_str(alloc, self.currency)?,
        })
    }
}
