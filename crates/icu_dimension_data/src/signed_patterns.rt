//! Patterns for each sign, and what they write around a value.

use crate::affix_texts::{AffixTexts, KeptTexts};
use crate::affix_token::AffixToken;
use crate::parts::{CURRENCY, MINUS_SIGN, PER_MILLE_SIGN, PERCENT_SIGN, PLUS_SIGN};
use crate::subpattern::Subpattern;
use fixed_decimal::Sign;
use std::fmt;
use std::marker::Model;
use writeable::{EventWriter, WriteFault, Writeable};

/// What stands around numbers without a sign, with a minus and with a plus, as
/// [`CldrPattern::resolve`] makes it.
///
/// [`CldrPattern::resolve`]: crate::CldrPattern::resolve
#[derive(Drop)]
pub struct SignedPatterns {
    pub(crate) none: Subpattern,
    pub(crate) minus: Subpattern,
    pub(crate) plus: Subpattern,
    pub(crate) texts: KeptTexts,
}

impl Model for SignedPatterns {
    ghost use Rattle.icu_dimension_data.specs.Resolved.{Signed};

    ghost Value = { Signed };

    ghost view = { λ p. record { none = p.none; minus = p.minus; plus = p.plus; texts = p.texts } };
}

impl SignedPatterns {
    ghost use Rattle.std.specs.Prelude.{◌≡◌};
    ghost use Rattle.icu_dimension_data.specs.LentTexts.{lent_texts};
    ghost use Rattle.icu_dimension_data.specs.Resolved.{affixes_of};

    /// The texts in the patterns. It takes no memory.
    pub fn texts(&self) -> AffixTexts<'_>
        ensures { lent_texts result ≡ self.now.texts }
    {
        AffixTexts {
            minus_sign: self.texts.minus_sign.as_str(),
            plus_sign: self.texts.plus_sign.as_str(),
            percent_sign: self.texts.percent_sign.as_str(),
            currency: self.texts.currency.as_str(),
        }
    }

    /// What stands around numbers of a sign. It takes no memory.
    pub fn for_sign(&self, sign: Sign) -> SignedPattern<'_>
        ensures { result ≡ record { affixes = affixes_of self.now sign; texts = self.now.texts } }
    {
        let affixes = match sign {
            Sign::None => &self.none,
            Sign::Negative => &self.minus,
            Sign::Positive => &self.plus,
        };
        SignedPattern {
            affixes,
            texts: &self.texts,
        }
    }
}

/// What stands around numbers of one sign, borrowed.
#[derive(Drop)]
pub struct SignedPattern<'a> {
    pub(crate) affixes: &'a Subpattern,
    pub(crate) texts: &'a KeptTexts,
}

impl<'a> Model for SignedPattern<'a> {
    ghost use Rattle.icu_dimension_data.specs.Surrounding.{SignedText};

    ghost Value = { SignedText };

    ghost view = { λ p. record { affixes = p.affixes.now; texts = p.texts.now } };
}

impl<'a> SignedPattern<'a> {
    ghost use Rattle.std.specs.Prelude.{◌≡◌};

    /// The pattern around a value.
    pub fn interpolate<W: Writeable>(self, value: W) -> Surrounded<'a, W>
        ensures { result ≡ record { pattern = self.entry; value = value } }
    {
        Surrounded {
            pattern: self,
            value,
        }
    }
}

/// A value and what a pattern has around it; signs, symbol and percent sign are in parts of their
/// own.
#[derive(Drop)]
pub struct Surrounded<'a, W> {
    pattern: SignedPattern<'a>,
    value: W,
}

impl<'a, W> Model for Surrounded<'a, W> {
    ghost use Rattle.icu_dimension_data.specs.Surrounding.{SurroundedValue};

    ghost Value = { SurroundedValue W };

    ghost view = { λ s. record { pattern = s.pattern; value = s.value } };
}

impl KeptTexts {
    ghost use Rattle.icu_dimension_data.specs.Surrounding.{affix_events, token_events};

    fn write_token<K: EventWriter>(&self, token: AffixToken, out: &mut K) -> Result<(), WriteFault>
        ensures { K.wrote out.old result (token_events self.now token) out.new }
    {
        match token {
            AffixToken::Character(character) => out.character(character),
            AffixToken::CurrencySymbol => out.part(CURRENCY, self.currency.as_str()),
            AffixToken::MinusSign => out.part(MINUS_SIGN, self.minus_sign.as_str()),
            AffixToken::PlusSign => out.part(PLUS_SIGN, self.plus_sign.as_str()),
            AffixToken::PercentSign => out.part(PERCENT_SIGN, self.percent_sign.as_str()),
            AffixToken::PerMilleSign => out.part(PER_MILLE_SIGN, self.percent_sign.as_str()),
        }
    }

    pub(crate) fn write_tokens<K: EventWriter>(
        &self,
        tokens: &[AffixToken],
        out: &mut K,
    ) -> Result<(), WriteFault>
        ensures { K.wrote out.old result (affix_events self.now tokens.now) out.new }
    {
        for token in tokens {
            self.write_token(*token, out)?;
        }
        Ok(())
    }
}

impl<W: Writeable> Writeable for Surrounded<'_, W> {
    ghost use Rattle.icu_dimension_data.specs.Surrounding.{surrounded};

    ghost events = { λ s. surrounded s.pattern (W.events s.value) };

    // promise: A value stands between the pattern's two sides, with parts.
    // mutations: interpolate_suffix_before_the_number
    fn write_events<K: EventWriter>(&self, out: &mut K) -> Result<(), WriteFault> {
        let SignedPattern { affixes, texts } = &self.pattern;
        texts.write_tokens(&affixes.before, out)?;
        self.value.write_events(out)?;
        texts.write_tokens(&affixes.after, out)
    }
}

impl<W: Writeable> fmt::Display for Surrounded<'_, W> {
    ghost use Rattle.std.specs.Prelude.{Some};
    ghost use Rattle.writeable.specs.Events.{text_of};
    ghost use Rattle.icu_dimension_data.specs.Surrounding.{surrounded};

    ghost output = { λ s. Some (text_of (surrounded s.pattern (W.events s.value))) };

    ghost styled_output = { λ s _. Some (text_of (surrounded s.pattern (W.events s.value))) };

    fn fmt<F: fmt::Write>(&self, f: &mut fmt::Formatter<F>) -> fmt::Result {
        self.write_events(f).map_err(|_| fmt::Error)
    }
}
