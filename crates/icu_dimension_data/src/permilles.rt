//! Patterns of permilles, made of those of percents.

ghost use Rattle.std.specs.Prelude.{◌≡◌, IfOk, map};
ghost use Rattle.icu_dimension_data.specs.Permilles.{per_mille_for};

use crate::affix_token::AffixToken;
use crate::cldr_pattern::CldrPattern;
use crate::subpattern::Subpattern;
use std::alloc::{AllocError, Global};

/// The per mille sign in the place of the percent sign.
fn per_mille_for(token: AffixToken) -> AffixToken
    ensures { result ≡ per_mille_for token }
{
    match token {
        AffixToken::PercentSign => AffixToken::PerMilleSign,
        other => other,
    }
}

/// The tokens with the per mille sign in the place of the percent sign.
fn per_mille_signs(alloc: Global, tokens: &[AffixToken]) -> Result<Vec<AffixToken>, AllocError>
    ensures { IfOk result (λ v. v.items ≡ map per_mille_for tokens.now) }
{
    tokens
        .iter()
        .map(|token| per_mille_for(*token))
        .collect(alloc)
}

impl Subpattern {
    ghost use Rattle.std.specs.Prelude.{◌≡◌, IfOk};
    ghost use Rattle.icu_dimension_data.specs.Permilles.{with_per_mille};

    /// With the per mille sign in the place of the percent sign.
    fn with_per_mille(&self, alloc: Global) -> Result<Self, AllocError>
        ensures { IfOk result (λ s. s ≡ with_per_mille self.now) }
    {
        Ok(Subpattern {
            before: per_mille_signs(alloc, &self.before)?,
            after: per_mille_signs(alloc, &self.after)?,
        })
    }
}

impl CldrPattern {
    ghost use Rattle.std.specs.Prelude.{◌≡◌, IfOk};
    ghost use Rattle.icu_dimension_data.specs.Permilles.{permilles_of};

    /// The pattern of permilles, for a pattern of percents (this project's own): the same, with the
    /// per mille sign in the place of each percent sign, which is then the text
    /// [`AffixTexts::percent_sign`](crate::AffixTexts).
    // promise: A permille is written as a percent, with its own sign.
    // mutations: permilles_with_the_percent_sign
    pub fn permilles(&self, alloc: Global) -> Result<Self, AllocError>
        ensures { IfOk result (λ p. p ≡ permilles_of self.now) }
    {
        let first = self.first.with_per_mille(alloc)?;
        let second = match &self.second {
            Some(second) => Some(second.with_per_mille(alloc)?),
            None => None,
        };
        Ok(CldrPattern { first, second })
    }
}
