//! Patterns of an amount and the name of its currency.

ghost use Rattle.std.specs.Prelude.{◌≡◌, ◌<◌, IfOk, option_map, length};
ghost use Rattle.icu_table_entries.specs.Reading.{Gives};
ghost use Rattle.icu_dimension_tables.specs.NamePlaceholders.{name_placeholders_of, placeholders_in, sides_of, split_at};

use crate::by_category::TextKind;
use icu_table_entries::{EntryFault, Position, TableError};
use std::alloc::{AllocError, Global};
use std::marker::Model;

/// How the place of the amount is spelled.
const AMOUNT: &str = "{0}";

/// How the place of the name is spelled.
const NAME: &str = "{1}";

/// The texts before and after the first such mark.
fn split_at<'a>(text: &'a str, mark: &str) -> Option<(&'a str, &'a str)>
    requires { 0 < length mark.now }
    ensures { option_map (λ p. (p.0.now, p.1.now)) result ≡ split_at mark.now text.now }
{
    text.split_once(mark)
}

/// The texts before and after a mark that stands there just once.
#[tactic(auto, unfolding(crate::specs::NamePlaceholders::sides_of))]
fn sides_of<'a>(text: &'a str, mark: &str) -> Option<(&'a str, &'a str)>
    requires { 0 < length mark.now }
    ensures { option_map (λ p. (p.0.now, p.1.now)) result ≡ sides_of mark.now text.now }
{
    let (before, after) = split_at(text, mark)?;
    match split_at(after, mark) {
        Some(_) => None,
        None => Some((before, after)),
    }
}

/// Which of the amount and the name comes first, and the texts around them, borrowed.
#[derive(Drop)]
struct PlaceholdersIn<'a> {
    amount_first: bool,
    before: &'a str,
    between: &'a str,
    after: &'a str,
}

impl<'a> Model for PlaceholdersIn<'a> {
    ghost use Rattle.icu_dimension_tables.specs.NamePlaceholders.{NamePlaceholders as PlaceholdersOfName};

    ghost Value = { PlaceholdersOfName };

    ghost view = { λ p. record {
      amount_first = p.amount_first;
      before = p.before.now;
      between = p.between.now;
      after = p.after.now;
    } };
}

/// The places in a text that has each of the two marks just once.
#[tactic(auto, unfolding(crate::specs::NamePlaceholders::placeholders_in))]
fn placeholders_in(text: &str) -> Option<PlaceholdersIn<'_>>
    ensures { option_map (λ x. x) result ≡ placeholders_in text.now }
{
    sides_of(text, NAME)?;
    let (left, right) = sides_of(text, AMOUNT)?;
    match (split_at(left, NAME), split_at(right, NAME)) {
        (None, Some((between, after))) => Some(PlaceholdersIn {
            amount_first: true,
            before: left,
            between,
            after,
        }),
        (Some((before, between)), None) => Some(PlaceholdersIn {
            amount_first: false,
            before,
            between,
            after: right,
        }),
        _ => None,
    }
}

/// Which of the amount and the name comes first, and the texts around them.
#[derive(Drop)]
pub struct NamePlaceholders {
    pub amount_first: bool,
    pub before: String,
    pub between: String,
    pub after: String,
}

impl Model for NamePlaceholders {
    ghost use Rattle.std.specs.String.{string_bytes};
    ghost use Rattle.icu_dimension_tables.specs.NamePlaceholders.{NamePlaceholders as PlaceholdersOfName};

    ghost Value = { PlaceholdersOfName };

    ghost view = { λ p. record {
      amount_first = p.amount_first;
      before = string_bytes p.before;
      between = string_bytes p.between;
      after = string_bytes p.after;
    } };
}

impl PlaceholdersIn<'_> {
    /// The same with memory of its own.
    fn owned(&self, alloc: Global) -> Result<NamePlaceholders, AllocError>
        ensures { IfOk result (λ p. p ≡ self.now) }
    {
        Ok(NamePlaceholders {
            amount_first: self.amount_first,
            before: String::from_str(alloc, self.before)?,
            between: String::from_str(alloc, self.between)?,
            after: String::from_str(alloc, self.after)?,
        })
    }
}

/// Texts that have a place for an amount and one for a name.
pub struct NamePattern;

impl TextKind for NamePattern {
    type Read = NamePlaceholders;

    ghost use Rattle.icu_dimension_tables.specs.NamePlaceholders.{name_placeholders_of};

    ghost read_text = { name_placeholders_of };

    #[tactic(auto, unfolding(crate::specs::NamePlaceholders::name_placeholders_of))]
    fn from_text(
        alloc: Global,
        position: Position,
        text: &str,
    ) -> Result<NamePlaceholders, TableError> {
        match placeholders_in(text) {
            Some(placeholders) => Ok(placeholders.owned(alloc)?),
            None => Err(position.refusal(EntryFault::BadNamePlaces)),
        }
    }
}
