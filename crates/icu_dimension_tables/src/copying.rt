//! Patterns for plural categories with memory of their own.

ghost use Rattle.std.specs.Prelude.{◌≡◌, ◌<◌, IfOk, None, slice_index_or};
ghost use Rattle.icu_plurals.specs.Elements.{slots};

use icu_pattern::{Pattern, PatternError, SinglePlaceholder};
use icu_plurals::PluralElements;
use icu_table_entries::texts::Patterns;
use std::alloc::Global;

/// A copy of the pattern in a slot, if there is one.
fn slot_copy(
    alloc: Global,
    patterns: &Patterns,
    slot: u8,
) -> Result<Option<Pattern<SinglePlaceholder>>, PatternError>
    requires { slot < 8 }
    ensures { IfOk result (λ p. p ≡ slice_index_or (slots patterns.now) slot None) }
{
    match patterns.slot(slot) {
        Some(pattern) => Ok(Some(pattern.copy(alloc)?)),
        None => Ok(None),
    }
}

/// A copy of the pattern for all other numbers.
fn other_copy(
    alloc: Global,
    patterns: &Patterns,
) -> Result<Pattern<SinglePlaceholder>, PatternError>
    ensures { IfOk result (λ p. p ≡ patterns.now.other) }
{
    match patterns.slot(7) {
        Some(pattern) => pattern.copy(alloc),
        None => unreachable!(),
    }
}

/// Equal patterns, with memory of their own.
pub fn patterns_copy(alloc: Global, patterns: &Patterns) -> Result<Patterns, PatternError>
    ensures { IfOk result (λ p. p ≡ patterns.now) }
{
    let copied = PluralElements::new(other_copy(alloc, patterns)?)
        .with_explicit_zero_value(slot_copy(alloc, patterns, 0)?)
        .with_explicit_one_value(slot_copy(alloc, patterns, 1)?)
        .with_zero_value(slot_copy(alloc, patterns, 2)?)
        .with_one_value(slot_copy(alloc, patterns, 3)?)
        .with_two_value(slot_copy(alloc, patterns, 4)?)
        .with_few_value(slot_copy(alloc, patterns, 5)?)
        .with_many_value(slot_copy(alloc, patterns, 6)?);
    Ok(copied)
}
