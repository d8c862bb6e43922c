//! The space between a currency's symbol and a number.

ghost use Rattle.std.specs.Prelude.{◌≡◌, IfOk};
ghost use Rattle.std.specs.Option.{option_copied};
ghost use Rattle.icu_dimension_data.specs.Resolved.{are_digits, first_character, is_digit, is_symbol, last_character};
ghost use Rattle.icu_dimension_data.specs.Resolved.{needs_space, stands_apart, spaced};

use crate::affix_token::AffixToken;
use crate::subpattern::Subpattern;
use std::alloc::AllocError;
use ucd_category::{GeneralCategory, GeneralCategoryGroup};

/// U+00A0, which breaks no line.
const NO_BREAK_SPACE: AffixToken = AffixToken::Character('\u{a0}');

/// Whether no space is needed between the character and a number: it is a symbol or a separator.
fn stands_apart(character: char) -> bool
    ensures { result ≡ stands_apart character }
{
    let category = GeneralCategory::for_char(character);
    GeneralCategoryGroup::Symbol.contains(category)
        || GeneralCategoryGroup::Separator.contains(category)
}

/// Whether a space may be inserted beside the digit: its general category is Nd, `[:digit:]`.
fn is_digit(digit: char) -> bool
    ensures { result ≡ is_digit digit }
{
    matches!(
        GeneralCategory::for_char(digit),
        GeneralCategory::DecimalNumber
    )
}

/// Whether a space may be inserted beside numbers with these ten digits.
pub(crate) fn are_digits(digits: &[char; 10]) -> bool
    ensures { result ≡ are_digits digits.now }
{
    digits.iter().all(|digit| is_digit(*digit))
}

/// Whether a space is inserted between digits and a text with this character on their side.
fn needs_space(character: Option<char>) -> bool
    ensures { result ≡ needs_space character }
{
    match character {
        Some(character) => !stands_apart(character),
        None => false,
    }
}

fn first_character(text: &str) -> Option<char>
    ensures { result ≡ first_character text.now }
{
    text.chars().next()
}

fn last_character(text: &str) -> Option<char>
    ensures { result ≡ last_character text.now }
{
    text.chars().last()
}

fn is_symbol(token: Option<&AffixToken>) -> bool
    ensures { result ≡ is_symbol (option_copied token.entry) }
{
    matches!(token, Some(AffixToken::CurrencySymbol))
}

impl Subpattern {
    ghost use Rattle.std.specs.Prelude.{◌≡◌, IfOk};
    ghost use Rattle.icu_dimension_data.specs.Resolved.{spaced};

    /// With a space between the number and a symbol directly beside it, if spaces are inserted
    /// beside such numbers and the symbol needs one.
    pub(crate) fn spaced(mut self, inserted: bool, currency: &str) -> Result<Self, AllocError>
        ensures { IfOk result (λ s. s ≡ spaced inserted currency.now self) }
    {
        if is_symbol(self.before.last()) && needs_space(last_character(currency)) && inserted {
            self.before.push(NO_BREAK_SPACE)?;
        }
        if is_symbol(self.after.first()) && needs_space(first_character(currency)) && inserted {
            self.after.insert(0, NO_BREAK_SPACE)?;
        }
        Ok(self)
    }
}
