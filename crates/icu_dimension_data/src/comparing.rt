//! The characters around numbers of one sign: whether another pattern has the same, and whether
//! they are free of some.

ghost use Rattle.std.specs.Prelude.{◌≡◌, ◌↔◌, IsTrue, All, Contains};
ghost use Rattle.icu_dimension_data.specs.Comparing.{affix_characters};

use crate::affix_texts::KeptTexts;
use crate::affix_token::AffixToken;
use crate::signed_patterns::SignedPattern;
use crate::subpattern::Subpattern;
use std::marker::Model;
use std::str::Chars;

/// The characters of tokens that are left, one after the other.
#[derive(Drop)]
struct AffixCharacters<'a> {
    texts: &'a KeptTexts,
    /// What is left of the text of the last token.
    text: Chars<'a>,
    /// The tokens after it.
    tokens: &'a [AffixToken],
}

impl<'a> Model for AffixCharacters<'a> {
    ghost use Rattle.std.specs.Prelude.{ℕ, List, ◌++◌, chars};
    ghost use Rattle.std.specs.Str.{IsUtf8};
    ghost use Rattle.std.specs.Str.Iter.{chars_rest};
    ghost use Rattle.icu_dimension_data.specs.Comparing.{affix_characters};

    ghost Value = { List ℕ };

    ghost view = { λ a. chars (chars_rest a.text) ++ affix_characters a.texts.now a.tokens.now };

    ghost invariant = { λ a. IsUtf8 (chars_rest a.text) };
}

impl KeptTexts {
    ghost use Rattle.std.specs.Prelude.{◌≡◌};
    ghost use Rattle.icu_dimension_data.specs.Comparing.{token_text};

    /// The text in the place of a token; a character that stands for itself has none.
    fn text_of_token(&self, token: AffixToken) -> &str
        ensures { result.now ≡ token_text self.now token }
    {
        match token {
            AffixToken::Character(_) => "",
            AffixToken::CurrencySymbol => self.currency.as_str(),
            AffixToken::MinusSign => self.minus_sign.as_str(),
            AffixToken::PlusSign => self.plus_sign.as_str(),
            AffixToken::PercentSign | AffixToken::PerMilleSign => self.percent_sign.as_str(),
        }
    }
}

impl<'a> AffixCharacters<'a> {
    ghost use Rattle.std.specs.Prelude.{◌≡◌, [], ◌∷◌};
    ghost use Rattle.std.specs.Option.{MatchOption};
    ghost use Rattle.icu_dimension_data.specs.Comparing.{affix_characters};

    fn new(texts: &'a KeptTexts, tokens: &'a [AffixToken]) -> Self
        ensures { result ≡ affix_characters texts.now tokens.now }
    {
        let text = "".chars();
        AffixCharacters {
            texts,
            text,
            tokens,
        }
    }

    /// The next character, if any is left.
    fn next_character(&mut self) -> Option<char>
        ensures { MatchOption result (self.old ≡ []) (λ c. self.old ≡ c ∷ self.new) }
    {
        loop {
            if let Some(character) = self.text.next() {
                return Some(character);
            }
            let (token, rest) = self.tokens.split_first()?;
            self.tokens = rest;
            if let AffixToken::Character(character) = *token {
                return Some(character);
            }
            self.text = self.texts.text_of_token(*token).chars();
        }
    }
}

/// Whether both have the same characters.
fn are_same(mut one: AffixCharacters<'_>, mut other: AffixCharacters<'_>) -> bool
    ensures { IsTrue result ↔ (one.entry ≡ other.entry) }
{
    while let Some(character) = one.next_character() {
        if other.next_character() != Some(character) {
            return false;
        }
    }
    other.next_character().is_none()
}

/// Whether no character is one of those listed.
fn are_free_of(listed: &[char], mut characters: AffixCharacters<'_>) -> bool
    ensures { IsTrue result ↔ All (λ c. ¬ (Contains listed.now c)) characters.entry }
{
    while let Some(character) = characters.next_character() {
        if listed.contains(&character) {
            return false;
        }
    }
    true
}

impl SignedPattern<'_> {
    ghost use Rattle.std.specs.Prelude.{◌≡◌, ◌↔◌, IsTrue};
    ghost use Rattle.icu_dimension_data.specs.Comparing.{HasNoneOf, HaveSameCharacters};
    ghost use Rattle.icu_dimension_data.specs.Comparing.{affix_characters};

    /// The characters before the number.
    fn before(&self) -> AffixCharacters<'_>
        ensures { result ≡ affix_characters self.now.texts self.now.affixes.before }
    {
        let affixes: &Subpattern = self.affixes;
        AffixCharacters::new(self.texts, &affixes.before)
    }

    /// The characters after the number.
    fn after(&self) -> AffixCharacters<'_>
        ensures { result ≡ affix_characters self.now.texts self.now.affixes.after }
    {
        let affixes: &Subpattern = self.affixes;
        AffixCharacters::new(self.texts, &affixes.after)
    }

    /// Whether another pattern has the same characters before a number, and the same after it;
    /// parts don't count (this project's own). It takes no memory.
    // promise: It decides whether both sides have the same characters.
    // mutations: same_characters_by_their_count
    pub fn has_same_characters(&self, other: &SignedPattern<'_>) -> bool
        ensures { IsTrue result ↔ HaveSameCharacters self.now other.now }
    {
        are_same(self.before(), other.before()) && are_same(self.after(), other.after())
    }

    /// Whether none of the listed characters stands before a number or after it (this project's
    /// own). It takes no memory.
    pub fn has_none_of(&self, listed: &[char]) -> bool
        ensures { IsTrue result ↔ HasNoneOf listed.now self.now }
    {
        are_free_of(listed, self.before()) && are_free_of(listed, self.after())
    }
}
