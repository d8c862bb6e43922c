//! Patterns of money and of percents.

ghost use Rattle.std.specs.Prelude.{◌≡◌, IfOk, false, chars};
ghost use Rattle.icu_table_entries.specs.Reading.{Gives};
ghost use Rattle.icu_dimension_tables.specs.MoneyPattern.{mark_in_each, mark_step, money_pattern_of, percent_pattern_of};

use crate::by_category::TextKind;
use crate::number_patterns::number_pattern_of;
use icu_dimension_data::CldrPattern;
use icu_table_entries::{EntryFault, Position, TableError};
use std::alloc::{AllocError, Global};

/// The characters of a text.
fn characters(alloc: Global, text: &str) -> Result<Vec<char>, AllocError>
    ensures { IfOk result (λ v. v.items ≡ chars text.now) }
{
    text.chars().collect(alloc)
}

/// What a character changes of whether it stands in a quote, and whether a mark stood in the
/// subpattern so far; none where a subpattern ends without it.
fn mark_step(mark: char, is_quoted: bool, is_seen: bool, character: char) -> Option<(bool, bool)>
    ensures { result ≡ mark_step mark is_quoted is_seen character }
{
    match character {
        '\'' => Some((!is_quoted, is_seen)),
        _ if is_quoted => Some((true, is_seen)),
        _ if character == mark => Some((false, true)),
        ';' if is_seen => Some((false, false)),
        ';' => None,
        _ => Some((false, is_seen)),
    }
}

/// Whether a mark stands in each subpattern of a pattern, outside quotes.
#[tactic(auto, unfolding(crate::specs::MoneyPattern::mark_in_each))]
fn mark_in_each(mark: char, characters: &[char]) -> bool
    ensures { result ≡ mark_in_each mark false false characters.now }
{
    let mut state = (false, false);
    for character in characters {
        match mark_step(mark, state.0, state.1, *character) {
            Some(next) => state = next,
            None => return false,
        }
    }
    state.1
}

/// The pattern of a text that has the symbol's place in each subpattern.
// promise: A pattern of money without its `¤` is rejected.
// mutations: place_of_the_symbol_not_asked_for
#[tactic(auto, unfolding(crate::specs::MoneyPattern::money_pattern_of))]
pub fn money_pattern_of(
    alloc: Global,
    position: Position,
    text: &str,
) -> Result<CldrPattern, TableError>
    ensures { Gives (λ x. x) result (money_pattern_of position text.now) }
{
    let pattern = number_pattern_of(alloc, position, text)?;
    if mark_in_each('¤', &characters(alloc, text)?) {
        Ok(pattern)
    } else {
        Err(position.refusal(EntryFault::NoSymbolPlace))
    }
}

/// The pattern of a text that has the percent sign's place in each subpattern.
#[tactic(auto, unfolding(crate::specs::MoneyPattern::percent_pattern_of))]
pub fn percent_pattern_of(
    alloc: Global,
    position: Position,
    text: &str,
) -> Result<CldrPattern, TableError>
    ensures { Gives (λ x. x) result (percent_pattern_of position text.now) }
{
    let pattern = number_pattern_of(alloc, position, text)?;
    if mark_in_each('%', &characters(alloc, text)?) {
        Ok(pattern)
    } else {
        Err(position.refusal(EntryFault::NoPercentPlace))
    }
}

/// Texts that are patterns of money.
pub struct MoneyPattern;

impl TextKind for MoneyPattern {
    type Read = CldrPattern;

    ghost use Rattle.icu_dimension_tables.specs.MoneyPattern.{money_pattern_of};

    ghost read_text = { money_pattern_of };

    fn from_text(alloc: Global, position: Position, text: &str) -> Result<CldrPattern, TableError> {
        money_pattern_of(alloc, position, text)
    }
}
