//! The texts of patterns for plural categories, and their patterns.

ghost use Rattle.serde_json.specs.View.{view};
ghost use Rattle.icu_table_entries.specs.CategoryTexts.{category_texts_in, first_patterns_of, patterns_of, optional_patterns_of};
ghost use Rattle.icu_table_entries.specs.CategoryTexts.{has_one_member, with_one_and_two, with_few_and_many};
ghost use Rattle.icu_table_entries.specs.Spelling.{optional_pattern_of};
ghost use Rattle.icu_table_entries.specs.Reading.{Gives, ◌>>=◌ as ◌and_then◌, optional_at};
ghost use Rattle.std.specs.Prelude.{◌≡◌, Ok, option_map};

use crate::error::{Key, Position, TableError};
use crate::fields::{object_in, optional_text_at, text_at};
use crate::pattern_text::{optional_pattern_of, pattern_of};
use icu_pattern::{Pattern, SinglePlaceholder};
use icu_plurals::PluralElements;
use serde_json::Value;
use std::alloc::Global;
use std::marker::Model;

/// The texts of patterns, not yet judged.
#[derive(Drop)]
pub struct Texts<'a> {
    explicit_zero: Option<&'a str>,
    explicit_one: Option<&'a str>,
    zero: Option<&'a str>,
    one: Option<&'a str>,
    two: Option<&'a str>,
    few: Option<&'a str>,
    many: Option<&'a str>,
    other: &'a str,
}

impl<'a> Model for Texts<'a> {
    ghost use Rattle.std.specs.Prelude.{option_map};
    ghost use Rattle.icu_table_entries.specs.PatternTexts.{Texts as PatternTexts};

    ghost Value = { PatternTexts };

    ghost view = { λ t. record {
      explicit_zero = option_map (λ s. s.now) t.explicit_zero;
      explicit_one = option_map (λ s. s.now) t.explicit_one;
      zero = option_map (λ s. s.now) t.zero;
      one = option_map (λ s. s.now) t.one;
      two = option_map (λ s. s.now) t.two;
      few = option_map (λ s. s.now) t.few;
      many = option_map (λ s. s.now) t.many;
      other = t.other.now;
    } };
}

impl<'a> Texts<'a> {
    ghost use Rattle.std.specs.Prelude.{◌≡◌};
    ghost use Rattle.icu_table_entries.specs.PatternTexts.{only_other, texts_lent};

    /// A text for the category other alone.
    fn of_other(other: &'a str) -> Self
        ensures { result ≡ only_other other.now }
    {
        Texts {
            explicit_zero: None,
            explicit_one: None,
            zero: None,
            one: None,
            two: None,
            few: None,
            many: None,
            other,
        }
    }

    /// The texts by plural category.
    pub fn elements(&self) -> PluralElements<&'a str>
        ensures { texts_lent result ≡ self.now }
    {
        PluralElements::new(self.other)
            .with_explicit_zero_value(self.explicit_zero)
            .with_explicit_one_value(self.explicit_one)
            .with_zero_value(self.zero)
            .with_one_value(self.one)
            .with_two_value(self.two)
            .with_few_value(self.few)
            .with_many_value(self.many)
    }
}

/// Whether an object has just one member.
#[tactic(auto, using(crate::proofs::OneMember::one_member_rules))]
fn has_one_member(value: &Value) -> bool
    ensures { result ≡ has_one_member (view value.now) }
{
    match value.as_object() {
        Some(members) => members.len() == 1,
        None => false,
    }
}

/// The texts of an object. Where the one for all other numbers is all that it has, no other is
/// looked for.
#[tactic(auto, unfolding(crate::specs::CategoryTexts::category_texts_in))]
pub fn category_texts_in(value: &Value, key: Key) -> Result<Texts<'_>, TableError>
    ensures { Gives (λ x. x) result (category_texts_in key (view value.now)) }
{
    let value = object_in(value, key)?;
    let other = text_at(value, Key::Other)?;
    if has_one_member(value) {
        return Ok(Texts::of_other(other));
    }
    Ok(Texts {
        explicit_zero: optional_text_at(value, Key::ExplicitZero)?,
        explicit_one: optional_text_at(value, Key::ExplicitOne)?,
        zero: optional_text_at(value, Key::Zero)?,
        one: optional_text_at(value, Key::One)?,
        two: optional_text_at(value, Key::Two)?,
        few: optional_text_at(value, Key::Few)?,
        many: optional_text_at(value, Key::Many)?,
        other,
    })
}

/// The texts under a key that may be absent.
#[tactic(auto, unfolding(crate::specs::Reading::optional_at))]
pub fn optional_texts_at(value: &Value, key: Key) -> Result<Option<Texts<'_>>, TableError>
    ensures { Gives (λ x. x) result (optional_at (category_texts_in key) key (view value.now)) }
{
    match value.get(key.name()) {
        Some(member) => Ok(Some(category_texts_in(member, key)?)),
        None => Ok(None),
    }
}

/// Patterns for plural categories.
pub type Patterns = PluralElements<Pattern<SinglePlaceholder>>;

/// The patterns of the categories other and zero, and those for exactly zero and one.
#[tactic(auto, unfolding(crate::specs::CategoryTexts::first_patterns_of))]
fn first_patterns_of(
    alloc: Global,
    position: Position,
    texts: &Texts<'_>,
) -> Result<Patterns, TableError>
    ensures { Gives (λ x. x) result (first_patterns_of position texts.now) }
{
    let other = pattern_of(alloc, position, texts.other)?;
    let explicit_zero = optional_pattern_of(alloc, position, texts.explicit_zero)?;
    let explicit_one = optional_pattern_of(alloc, position, texts.explicit_one)?;
    let zero = optional_pattern_of(alloc, position, texts.zero)?;
    Ok(
        PluralElements::new(other)
            .with_explicit_zero_value(explicit_zero)
            .with_explicit_one_value(explicit_one)
            .with_zero_value(zero),
    )
}

/// The patterns of two texts that may be absent.
fn pair_of(
    alloc: Global,
    position: Position,
    first: Option<&str>,
    second: Option<&str>,
) -> Result<
    (
        Option<Pattern<SinglePlaceholder>>,
        Option<Pattern<SinglePlaceholder>>,
    ),
    TableError,
>
    ensures { Gives (λ x. x) result
        (optional_pattern_of position (option_map (λ t. t.now) first.entry) and_then
        λ x. optional_pattern_of position (option_map (λ t. t.now) second.entry) and_then
        λ y. Ok (x, y)) }
{
    let first = optional_pattern_of(alloc, position, first)?;
    let second = optional_pattern_of(alloc, position, second)?;
    Ok((first, second))
}

/// These patterns, with those of the categories one and two.
#[tactic(auto, unfolding(crate::specs::CategoryTexts::with_one_and_two))]
fn with_one_and_two(
    alloc: Global,
    position: Position,
    texts: &Texts<'_>,
    patterns: Patterns,
) -> Result<Patterns, TableError>
    ensures { Gives (λ x. x) result (with_one_and_two position texts.now patterns) }
{
    match pair_of(alloc, position, texts.one, texts.two) {
        Ok((one, two)) => Ok(patterns.with_one_value(one).with_two_value(two)),
        Err(error) => Err(error),
    }
}

/// These patterns, with those of the categories few and many.
#[tactic(auto, unfolding(crate::specs::CategoryTexts::with_few_and_many))]
fn with_few_and_many(
    alloc: Global,
    position: Position,
    texts: &Texts<'_>,
    patterns: Patterns,
) -> Result<Patterns, TableError>
    ensures { Gives (λ x. x) result (with_few_and_many position texts.now patterns) }
{
    match pair_of(alloc, position, texts.few, texts.many) {
        Ok((few, many)) => Ok(patterns.with_few_value(few).with_many_value(many)),
        Err(error) => Err(error),
    }
}

/// The patterns of these texts.
#[tactic(auto, unfolding(crate::specs::CategoryTexts::patterns_of))]
pub fn patterns_of(
    alloc: Global,
    position: Position,
    texts: &Texts<'_>,
) -> Result<Patterns, TableError>
    ensures { Gives (λ x. x) result (patterns_of position texts.now) }
{
    let patterns = first_patterns_of(alloc, position, texts)?;
    let patterns = with_one_and_two(alloc, position, texts, patterns)?;
    with_few_and_many(alloc, position, texts, patterns)
}

/// The patterns of these texts, if there are any.
#[tactic(auto, unfolding(crate::specs::CategoryTexts::optional_patterns_of))]
pub fn optional_patterns_of(
    alloc: Global,
    position: Position,
    texts: &Option<Texts<'_>>,
) -> Result<Option<Patterns>, TableError>
    ensures { Gives (λ x. x) result (optional_patterns_of position texts.now) }
{
    match texts {
        Some(texts) => Ok(Some(patterns_of(alloc, position, texts)?)),
        None => Ok(None),
    }
}
