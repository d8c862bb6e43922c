//! What stands around numbers of one sign, as a pattern with one placeholder, as compact tables
//! hold patterns.

use crate::affix_texts::KeptTexts;
use crate::affix_token::AffixToken;
use crate::signed_patterns::SignedPattern;
use crate::subpattern::Subpattern;
use icu_pattern::{Pattern, PatternError, SinglePlaceholder};
use std::alloc::Global;

impl KeptTexts {
    ghost use Rattle.std.specs.Prelude.{◌≡◌, IfOk, IsOkUnless};
    ghost use Rattle.std.specs.String.{string_bytes};
    ghost use Rattle.icu_dimension_data.specs.Flat.{affix_text};

    /// The characters of tokens, as a text.
    fn text_of(&self, alloc: Global, tokens: &[AffixToken]) -> Result<String, PatternError>
        ensures text { IfOk result (λ t. string_bytes t ≡ affix_text self.now tokens.now) }
        ensures memory { IsOkUnless result PatternError.OutOfMemory }
    {
        let mut text = String::new(alloc);
        match self.write_tokens(tokens, &mut text) {
            Ok(()) => Ok(text),
            Err(_) => Err(PatternError::OutOfMemory),
        }
    }
}

impl SignedPattern<'_> {
    ghost use Rattle.std.specs.Prelude.{◌≡◌, IfOk, IsOkUnless};
    ghost use Rattle.icu_dimension_data.specs.Flat.{flat};

    /// The pattern with one placeholder, for a number: all that stands around the number, the texts
    /// of signs and symbol too, is its literal, without parts. Compact tables hold such patterns.
    // promise: The pattern has its two sides as its literal.
    // mutations: to_pattern_place_at_the_front
    #[tactic(auto, using(crate::proofs::Seams::has_seam))]
    pub fn to_pattern(&self, alloc: Global) -> Result<Pattern<SinglePlaceholder>, PatternError>
        ensures flat { IfOk result (λ p. p ≡ flat self.now) }
        ensures memory { IsOkUnless result PatternError.OutOfMemory }
    {
        let SignedPattern { affixes, texts } = self;
        let affixes: &Subpattern = affixes;
        let mut literal = texts.text_of(alloc, &affixes.before)?;
        let placeholder = literal.len();
        let after = texts.text_of(alloc, &affixes.after)?;
        literal.push_str(after.as_str())?;
        Pattern::try_new(alloc, Some(placeholder), literal.as_str())
    }
}
