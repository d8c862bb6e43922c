//! The names of currencies, in their places beside amounts.

ghost use Rattle.std.specs.Prelude.{◌≡◌, IfOk};
ghost use Rattle.icu_dimension_data.specs.ByCategory.{elements_map};
ghost use Rattle.icu_dimension_tables.specs.CurrencyNames.{name_in, names_with_placeholders};

use crate::name_placeholders::NamePlaceholders;
use icu_dimension::{NamePattern, NameTexts};
use icu_dimension_data::by_category::{SlotMaker, elements_made, other_of};
use icu_plurals::PluralElements;
use std::alloc::{AllocError, Global};
use std::marker::Model;

/// The name of a currency.
#[derive(Drop)]
pub struct CurrencyName {
    text: String,
}

impl Model for CurrencyName {
    ghost use Rattle.std.specs.Prelude.{ℕ, List};
    ghost use Rattle.std.specs.String.{string_bytes};

    ghost Value = { List ℕ };

    ghost view = { λ n. string_bytes n.text };
}

/// Texts that are names.
#[derive(Drop)]
struct NamesListed<'a, 't> {
    texts: &'a PluralElements<&'t str>,
}

/// The name of a text.
fn name_of(alloc: Global, text: &str) -> Result<CurrencyName, AllocError>
    ensures { IfOk result (λ n. n ≡ text.now) }
{
    let text = String::from_str(alloc, text)?;
    Ok(CurrencyName { text })
}

impl SlotMaker for NamesListed<'_, '_> {
    type Made = CurrencyName;

    ghost use Rattle.std.specs.Prelude.{None, option_map, slice_index_or};
    ghost use Rattle.icu_plurals.specs.Elements.{slots};

    ghost in_slot = { λ n slot.
        option_map (λ s. s.now) (slice_index_or (slots n.texts.now) slot None) };

    ghost for_others = { λ n. n.texts.now.other.now };

    fn make(&self, alloc: Global, slot: u8) -> Result<Option<CurrencyName>, AllocError> {
        match self.texts.slot(slot) {
            Some(text) => Ok(Some(name_of(alloc, text)?)),
            None => Ok(None),
        }
    }

    fn make_other(&self, alloc: Global) -> Result<CurrencyName, AllocError> {
        name_of(alloc, other_of(self.texts))
    }
}

/// The names that are given.
pub fn names_listed(
    alloc: Global,
    texts: &PluralElements<&str>,
) -> Result<PluralElements<CurrencyName>, AllocError>
    ensures { IfOk result (λ e. e ≡ elements_map (λ s. s.now) texts.now) }
{
    elements_made(alloc, &NamesListed { texts })
}

/// A name in its place.
fn name_in(
    alloc: Global,
    placeholders: &NamePlaceholders,
    name: &CurrencyName,
) -> Result<NamePattern, AllocError>
    ensures { IfOk result (λ p. p ≡ name_in placeholders.now name.now) }
{
    let texts = NameTexts {
        number_first: placeholders.amount_first,
        before: placeholders.before.as_str(),
        between: placeholders.between.as_str(),
        after: placeholders.after.as_str(),
        name: name.text.as_str(),
    };
    NamePattern::new(alloc, &texts)
}

/// Names and their places.
#[derive(Drop)]
struct NamesWithPlaceholders<'a> {
    placeholders: &'a PluralElements<NamePlaceholders>,
    names: &'a PluralElements<CurrencyName>,
}

impl SlotMaker for NamesWithPlaceholders<'_> {
    type Made = NamePattern;

    ghost use Rattle.icu_dimension_tables.specs.CurrencyNames.{name_in, named_at};

    ghost in_slot = { λ n. named_at n.placeholders.now n.names.now };

    ghost for_others = { λ n. name_in n.placeholders.now.other n.names.now.other };

    /// What a slot has: its places and its name, where it has either, or those for all other
    /// numbers.
    #[tactic(auto, unfolding(crate::specs::CurrencyNames::slot_named))]
    fn make(&self, alloc: Global, slot: u8) -> Result<Option<NamePattern>, AllocError> {
        let (placeholders, name) = match (self.placeholders.slot(slot), self.names.slot(slot)) {
            (None, None) => return Ok(None),
            (None, Some(name)) => (other_of(self.placeholders), name),
            (Some(own), None) => (own, other_of(self.names)),
            (Some(own), Some(name)) => (own, name),
        };
        Ok(Some(name_in(alloc, placeholders, name)?))
    }

    fn make_other(&self, alloc: Global) -> Result<NamePattern, AllocError> {
        name_in(alloc, other_of(self.placeholders), other_of(self.names))
    }
}

/// The names of a currency, each in its place.
pub fn names_with_placeholders(
    alloc: Global,
    placeholders: &PluralElements<NamePlaceholders>,
    names: &PluralElements<CurrencyName>,
) -> Result<PluralElements<NamePattern>, AllocError>
    ensures { IfOk result (λ e. e ≡ names_with_placeholders placeholders.now names.now) }
{
    elements_made(
        alloc,
        &NamesWithPlaceholders {
            placeholders,
            names,
        },
    )
}
