//! Patterns as they are spelled: `{0}` is the placeholder.

ghost use Rattle.std.specs.Prelude.{◌≡◌, ◌++◌, IfOk, IsOkUnless, option_map, string_bytes, true, length, Some, None};
ghost use Rattle.icu_pattern.specs.Patterns.{has_fitting_placeholder};
ghost use Rattle.icu_table_entries.specs.Reading.{Gives};
ghost use Rattle.icu_table_entries.specs.Spelling.{split_at_placeholder, pattern_of, optional_pattern_of};

use crate::error::{EntryFault, Position, TableError};
use icu_pattern::{Pattern, PatternError, SinglePlaceholder};
use std::alloc::{AllocError, Global};

/// The texts before and after the first `{0}`.
fn split_at_placeholder(text: &str) -> Option<(&str, &str)>
    ensures { option_map (λ p. (p.0.now, p.1.now)) result ≡ split_at_placeholder text.now }
{
    text.split_once("{0}")
}

/// One text after another.
fn joined(alloc: Global, before: &str, after: &str) -> Result<String, AllocError>
    ensures { IfOk result (λ s. string_bytes s ≡ before.now ++ after.now) }
{
    let mut text = String::from_str(alloc, before)?;
    text.push_str(after)?;
    Ok(text)
}

/// The pattern of a placeholder that fits.
fn fitting(
    alloc: Global,
    placeholder: Option<usize>,
    literal: &str,
) -> Result<Pattern<SinglePlaceholder>, TableError>
    requires { has_fitting_placeholder (record { placeholder = placeholder; literal = literal.now })
        ≡ true }
    ensures given { IfOk result (λ p. p
        ≡ record { placeholder = placeholder; literal = literal.now }) }
    ensures memory { IsOkUnless result TableError.OutOfMemory }
{
    match Pattern::try_new(alloc, placeholder, literal) {
        Ok(pattern) => Ok(pattern),
        Err(PatternError::OutOfMemory) => Err(TableError::OutOfMemory),
        Err(PatternError::BadPlace) => unreachable!(),
    }
}

/// The pattern with a placeholder between two texts.
#[tactic(auto, using(crate::proofs::Splits::boundary_between))]
fn around(
    alloc: Global,
    before: &str,
    after: &str,
) -> Result<Pattern<SinglePlaceholder>, TableError>
    ensures given { IfOk result (λ p.
        p ≡ record { placeholder = Some (length before.now); literal = before.now ++ after.now }) }
    ensures memory { IsOkUnless result TableError.OutOfMemory }
{
    let literal = joined(alloc, before, after)?;
    fitting(alloc, Some(before.len()), literal.as_str())
}

/// The pattern of a text; rejected if it has more than one placeholder.
// promise: A text with two places is rejected.
// mutations: second_place_let_through
#[tactic(auto, unfolding(crate::specs::Spelling::pattern_of))]
pub fn pattern_of(
    alloc: Global,
    position: Position,
    text: &str,
) -> Result<Pattern<SinglePlaceholder>, TableError>
    ensures { Gives (λ x. x) result (pattern_of position text.now) }
{
    let Some((before, after)) = split_at_placeholder(text) else {
        return fitting(alloc, None, text);
    };
    if split_at_placeholder(after).is_some() {
        return Err(position.refusal(EntryFault::BadPlace));
    }
    around(alloc, before, after)
}

/// The pattern of a text, if there is one.
#[tactic(auto, unfolding(crate::specs::Spelling::optional_pattern_of))]
pub fn optional_pattern_of(
    alloc: Global,
    position: Position,
    text: Option<&str>,
) -> Result<Option<Pattern<SinglePlaceholder>>, TableError>
    ensures { Gives (λ x. x) result
        (optional_pattern_of position (option_map (λ t. t.now) text.entry)) }
{
    match text {
        Some(text) => Ok(Some(pattern_of(alloc, position, text)?)),
        None => Ok(None),
    }
}
