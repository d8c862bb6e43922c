//! The patterns of the three signs, made of a pattern of CLDR.

ghost use Rattle.std.specs.Prelude.{◌≡◌, IfOk, map};
ghost use Rattle.std.specs.List.{list_any};
ghost use Rattle.icu_dimension_data.specs.Resolved.{is_minus, plus_for};

use crate::affix_texts::AffixTexts;
use crate::affix_token::AffixToken;
use crate::cldr_pattern::CldrPattern;
use crate::signed_patterns::SignedPatterns;
use crate::spacing::are_digits;
use crate::subpattern::Subpattern;
use std::alloc::{AllocError, Global};

impl AffixToken {
    ghost use Rattle.std.specs.Prelude.{◌≡◌};
    ghost use Rattle.icu_dimension_data.specs.Resolved.{is_minus, plus_for};

    fn is_minus(self) -> bool
        ensures { result ≡ is_minus self }
    {
        matches!(self, AffixToken::MinusSign)
    }

    /// The plus sign in the place of the minus sign.
    fn plus_for(self) -> AffixToken
        ensures { result ≡ plus_for self }
    {
        match self {
            AffixToken::MinusSign => AffixToken::PlusSign,
            other => other,
        }
    }
}

fn contains_minus(tokens: &[AffixToken]) -> bool
    ensures { result ≡ list_any is_minus tokens.now }
{
    tokens.iter().any(|token| token.is_minus())
}

/// The tokens with the plus sign in the place of the minus sign.
fn plus_signs(alloc: Global, tokens: &[AffixToken]) -> Result<Vec<AffixToken>, AllocError>
    ensures { IfOk result (λ v. v.items ≡ map plus_for tokens.now) }
{
    tokens.iter().map(|token| token.plus_for()).collect(alloc)
}

impl Subpattern {
    ghost use Rattle.std.specs.Prelude.{◌≡◌, IfOk};
    ghost use Rattle.icu_dimension_data.specs.Resolved.{has_minus, led_by, with_plus};

    /// With a sign in front.
    fn led_by(&self, alloc: Global, sign: AffixToken) -> Result<Self, AllocError>
        ensures { IfOk result (λ s. s ≡ led_by sign self.now) }
    {
        let mut before = Vec::new(alloc);
        before.push(sign)?;
        before.extend_from_slice(&self.before)?;
        Ok(Subpattern {
            before,
            after: Vec::from_slice(alloc, &self.after)?,
        })
    }

    fn has_minus(&self) -> bool
        ensures { result ≡ has_minus self.now }
    {
        contains_minus(&self.before) || contains_minus(&self.after)
    }

    /// With the plus sign in the place of the minus sign.
    fn with_plus(&self, alloc: Global) -> Result<Self, AllocError>
        ensures { IfOk result (λ s. s ≡ with_plus self.now) }
    {
        Ok(Subpattern {
            before: plus_signs(alloc, &self.before)?,
            after: plus_signs(alloc, &self.after)?,
        })
    }
}

impl CldrPattern {
    ghost use Rattle.std.specs.Prelude.{◌≡◌, IfOk};
    ghost use Rattle.icu_dimension_data.specs.LentTexts.{lent_texts};
    ghost use Rattle.icu_dimension_data.specs.Resolved.{minus_affixes, plus_affixes, resolved};

    /// What stands around negative numbers.
    fn minus(&self, alloc: Global) -> Result<Subpattern, AllocError>
        ensures { IfOk result (λ s. s ≡ minus_affixes self.now) }
    {
        match &self.second {
            Some(second) => second.copy(alloc),
            None => self.first.led_by(alloc, AffixToken::MinusSign),
        }
    }

    /// What stands around numbers that are marked as positive.
    fn plus(&self, alloc: Global) -> Result<Subpattern, AllocError>
        ensures { IfOk result (λ s. s ≡ plus_affixes self.now) }
    {
        let minus = self.minus(alloc)?;
        if minus.has_minus() {
            minus.with_plus(alloc)
        } else {
            self.first.led_by(alloc, AffixToken::PlusSign)
        }
    }

    /// The patterns of the three signs around numbers with these ten digits, with these texts in
    /// them.
    ///
    /// Without a sign it is the first subpattern. With a minus it is the second one, or if there is
    /// none the minus sign and the first. With a plus it is that of minus, with the plus sign in
    /// place of the minus sign; if no minus sign stands there, as in `(¤0)`, it is the plus sign
    /// and the first subpattern. Where the currency's symbol and the number would touch, U+00A0
    /// stands between them, unless the symbol's character on that side is a symbol or a separator:
    /// `CHF 1`, but `$1`. Beside digits whose general category isn't Nd, as those of `hanidec`, no
    /// space is inserted (UTS 35 Part 3, Currencies: currency spacing, `surroundingMatch`).
    // promise: Each sign has the pattern that `resolved` makes for it.
    // mutations: resolve_plus_left_as_minus
    // promise: U+00A0 stands at the symbol exactly where `spaced` has it.
    // mutations: resolve_space_behind_a_separator
    pub fn resolve(
        &self,
        alloc: Global,
        texts: &AffixTexts<'_>,
        digits: &[char; 10],
    ) -> Result<SignedPatterns, AllocError>
        ensures { IfOk result (λ p. p ≡ resolved digits.now self.now (lent_texts texts.now)) }
    {
        let none = self.first.copy(alloc)?;
        let minus = self.minus(alloc)?;
        let plus = self.plus(alloc)?;
        let inserted = are_digits(digits);
        Ok(SignedPatterns {
            none: none.spaced(inserted, texts.currency)?,
            minus: minus.spaced(inserted, texts.currency)?,
            plus: plus.spaced(inserted, texts.currency)?,
            texts: texts.keep(alloc)?,
        })
    }
}
