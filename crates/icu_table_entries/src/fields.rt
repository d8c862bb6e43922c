//! The members of an object, and what stands in them.

ghost use Rattle.std.specs.Prelude.{map, Option, option_map};
ghost use Rattle.serde_json.specs.View.{view};
ghost use Rattle.icu_table_entries.specs.Reading.{Gives, member_at, object_in, optional_at, text_in, list_in, byte_in, text_at, list_at};
ghost use Rattle.icu_table_entries.specs.Reading.{pair_in, triple_in, four_in, texts_in, texts_at};

use crate::error::{Key, TableError};
use serde_json::Value;

/// The value under a required key.
#[tactic(auto, unfolding(crate::specs::Reading::member_at))]
pub fn member_at(value: &Value, key: Key) -> Result<&Value, TableError>
    ensures { Gives (λ x. view x.now) result (member_at key (view value.now)) }
{
    value.get(key.name()).ok_or(TableError::Missing(key))
}

/// The value itself, if it is an object.
#[tactic(auto, unfolding(crate::specs::Reading::object_in))]
pub fn object_in(value: &Value, key: Key) -> Result<&Value, TableError>
    ensures { Gives (λ x. view x.now) result (object_in key (view value.now)) }
{
    match value.as_object() {
        Some(_) => Ok(value),
        None => Err(TableError::WrongKind(key)),
    }
}

/// A text.
#[tactic(auto, unfolding(crate::specs::Reading::text_in))]
pub fn text_in(value: &Value, key: Key) -> Result<&str, TableError>
    ensures { Gives (λ x. x.now) result (text_in key (view value.now)) }
{
    value.as_str().ok_or(TableError::WrongKind(key))
}

/// A list.
#[tactic(auto, using(crate::proofs::Lists::list_rules), unfolding(crate::specs::Reading::list_in))]
pub fn list_in(value: &Value, key: Key) -> Result<&[Value], TableError>
    ensures { Gives (λ x. map view x.now) result (list_in key (view value.now)) }
{
    match value.as_array() {
        Some(values) => Ok(values.as_slice()),
        None => Err(TableError::WrongKind(key)),
    }
}

/// A whole number below 256.
#[tactic(auto, unfolding(crate::specs::Reading::byte_in))]
pub fn byte_in(value: &Value, key: Key) -> Result<u8, TableError>
    ensures { Gives (λ x. x) result (byte_in key (view value.now)) }
{
    match value.as_u64() {
        Some(n) if n < 256 => Ok(n as u8),
        _ => Err(TableError::WrongKind(key)),
    }
}

/// The text under a required key.
#[tactic(auto, unfolding(crate::specs::Reading::text_at))]
pub fn text_at(value: &Value, key: Key) -> Result<&str, TableError>
    ensures { Gives (λ x. x.now) result (text_at key (view value.now)) }
{
    text_in(member_at(value, key)?, key)
}

/// The text under a key that may be absent.
#[tactic(auto, unfolding(crate::specs::Reading::optional_at))]
pub fn optional_text_at(value: &Value, key: Key) -> Result<Option<&str>, TableError>
    ensures { Gives (option_map (λ x. x.now)) result
        (optional_at (text_in key) key (view value.now)) }
{
    match value.get(key.name()) {
        Some(member) => Ok(Some(text_in(member, key)?)),
        None => Ok(None),
    }
}

/// The list under a required key.
#[tactic(auto, unfolding(crate::specs::Reading::list_at))]
pub fn list_at(value: &Value, key: Key) -> Result<&[Value], TableError>
    ensures { Gives (λ x. map view x.now) result (list_at key (view value.now)) }
{
    list_in(member_at(value, key)?, key)
}

/// A list of exactly two values.
#[tactic(auto, unfolding(crate::specs::Reading::pair_in, crate::specs::Reading::two_of))]
pub fn pair_in(value: &Value, key: Key) -> Result<(&Value, &Value), TableError>
    ensures { Gives (λ x. (view x.0.now, view x.1.now)) result (pair_in key (view value.now)) }
{
    match list_in(value, key)? {
        [first, second] => Ok((first, second)),
        _ => Err(TableError::WrongKind(key)),
    }
}

/// A list of exactly three values.
#[tactic(auto, unfolding(crate::specs::Reading::triple_in, crate::specs::Reading::three_of))]
pub fn triple_in(value: &Value, key: Key) -> Result<(&Value, (&Value, &Value)), TableError>
    ensures { Gives (λ x. (view x.0.now, (view x.1.0.now, view x.1.1.now))) result
        (triple_in key (view value.now)) }
{
    match list_in(value, key)? {
        [first, second, third] => Ok((first, (second, third))),
        _ => Err(TableError::WrongKind(key)),
    }
}

/// A list of exactly four values.
#[tactic(auto, unfolding(crate::specs::Reading::four_in, crate::specs::Reading::four_of))]
pub fn four_in(value: &Value, key: Key) -> Result<(&Value, (&Value, (&Value, &Value))), TableError>
    ensures { Gives
        (λ x. (view x.0.now, (view x.1.0.now, (view x.1.1.0.now, view x.1.1.1.now))))
        result (four_in key (view value.now)) }
{
    match list_in(value, key)? {
        [first, second, third, fourth] => Ok((first, (second, (third, fourth)))),
        _ => Err(TableError::WrongKind(key)),
    }
}

/// A list of exactly two texts.
#[tactic(auto, unfolding(crate::specs::Reading::texts_in))]
fn texts_in(value: &Value, key: Key) -> Result<(&str, &str), TableError>
    ensures { Gives (λ x. (x.0.now, x.1.now)) result (texts_in key (view value.now)) }
{
    let (first, second) = pair_in(value, key)?;
    Ok((text_in(first, key)?, text_in(second, key)?))
}

/// The list of exactly two texts under a required key.
#[tactic(auto, unfolding(crate::specs::Reading::texts_at))]
pub fn texts_at(value: &Value, key: Key) -> Result<(&str, &str), TableError>
    ensures { Gives (λ x. (x.0.now, x.1.now)) result (texts_at key (view value.now)) }
{
    texts_in(member_at(value, key)?, key)
}
