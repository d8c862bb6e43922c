//! Texts for plural categories, and what they are read as.

ghost use Rattle.std.specs.Prelude.{◌<◌, ℕ, List, Option, Result, None, option_map, slice_index_or};
ghost use Rattle.serde_json.specs.View.{view};
ghost use Rattle.icu_plurals.specs.Elements.{slots};
ghost use Rattle.icu_dimension_data.specs.ByCategory.{elements_map};
ghost use Rattle.icu_dimension_tables.specs.ByCategory.{elements_read, optional_read};
ghost use Rattle.icu_table_entries.specs.CategoryTexts.{category_texts_in};
ghost use Rattle.icu_table_entries.specs.Reading.{Gives};
ghost use Rattle.icu_table_entries.specs.declared.error.Position.{Position};
ghost use Rattle.icu_table_entries.specs.declared.error.TableError.{TableError};

use icu_dimension_data::by_category::other_of;
use icu_plurals::PluralElements;
use icu_table_entries::fields::{object_in, optional_text_at, text_at};
use icu_table_entries::{Key, Position, TableError};
use serde_json::Value;
use std::alloc::Global;

/// A kind of texts.
pub trait TextKind {
    /// What a text is read as.
    type Read: Drop;

    /// What a text reads as.
    ghost read_text: { Position → List ℕ → Result Self.Read TableError };

    /// What a text reads as, or its fault.
    fn from_text(alloc: Global, position: Position, text: &str) -> Result<Self::Read, TableError>
        ensures { Gives (λ x. x) result (read_text position text.now) };
}

/// The texts of an object, by plural category.
#[tactic(auto, unfolding(icu_table_entries::specs::CategoryTexts::category_texts_in))]
pub fn texts_in(value: &Value, key: Key) -> Result<PluralElements<&str>, TableError>
    ensures { Gives (elements_map (λ s. s.now)) result (category_texts_in key (view value.now)) }
{
    let value = object_in(value, key)?;
    let texts = PluralElements::new(text_at(value, Key::Other)?)
        .with_explicit_zero_value(optional_text_at(value, Key::ExplicitZero)?)
        .with_explicit_one_value(optional_text_at(value, Key::ExplicitOne)?)
        .with_zero_value(optional_text_at(value, Key::Zero)?)
        .with_one_value(optional_text_at(value, Key::One)?)
        .with_two_value(optional_text_at(value, Key::Two)?)
        .with_few_value(optional_text_at(value, Key::Few)?)
        .with_many_value(optional_text_at(value, Key::Many)?);
    Ok(texts)
}

/// What the text in a slot is read as, if there is one.
#[tactic(auto, unfolding(crate::specs::ByCategory::optional_read))]
fn slot_read<T: TextKind>(
    alloc: Global,
    position: Position,
    texts: &PluralElements<&str>,
    slot: u8,
) -> Result<Option<T::Read>, TableError>
    requires { slot < 8 }
    ensures { Gives (λ x. x) result (optional_read T.read_text position
        (option_map (λ s. s.now) (slice_index_or (slots texts.now) slot None))) }
{
    match texts.slot(slot) {
        Some(text) => Ok(Some(T::from_text(alloc, position, text)?)),
        None => Ok(None),
    }
}

/// What texts are read as, each in its slot.
#[tactic(auto, unfolding(crate::specs::ByCategory::elements_read))]
pub fn elements_read<T: TextKind>(
    alloc: Global,
    position: Position,
    texts: &PluralElements<&str>,
) -> Result<PluralElements<T::Read>, TableError>
    ensures { Gives (λ x. x) result
        (elements_read T.read_text position (elements_map (λ s. s.now) texts.now)) }
{
    let elements = PluralElements::new(T::from_text(alloc, position, other_of(texts))?)
        .with_explicit_zero_value(slot_read::<T>(alloc, position, texts, 0)?)
        .with_explicit_one_value(slot_read::<T>(alloc, position, texts, 1)?)
        .with_zero_value(slot_read::<T>(alloc, position, texts, 2)?)
        .with_one_value(slot_read::<T>(alloc, position, texts, 3)?)
        .with_two_value(slot_read::<T>(alloc, position, texts, 4)?)
        .with_few_value(slot_read::<T>(alloc, position, texts, 5)?)
        .with_many_value(slot_read::<T>(alloc, position, texts, 6)?);
    Ok(elements)
}
