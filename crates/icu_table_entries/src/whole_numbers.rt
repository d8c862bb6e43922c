//! Numbers that aren't whole ones of 64 bits, and the values of texts without them.

ghost use Rattle.std.specs.Prelude.{◌≡◌};
ghost use Rattle.serde_json.specs.View.{view, items_view, members_view};
ghost use Rattle.serde_json.specs.Written.{has_float, items_have_float, members_have_float};
ghost use Rattle.icu_table_entries.specs.Reading.{Gives, value_of};

use crate::error::TableError;
use serde_json::{Map, Value};
use std::alloc::Global;

/// Whether a float stands anywhere in the value.
#[cycle(floats)]
pub fn has_float(value: &Value) -> bool
    ensures { result ≡ has_float (view value.now) }
{
    match value {
        Value::Null | Value::Bool(_) | Value::String(_) => false,
        Value::Number(number) => number.is_f64(),
        Value::Array(values) => items_have_float(values),
        Value::Object(members) => members_have_float(members),
    }
}

#[cycle(floats)]
fn items_have_float(values: &Vec<Value>) -> bool
    ensures { result ≡ items_have_float (items_view values.now.items) }
{
    for value in values {
        if has_float(value) {
            return true;
        }
    }
    false
}

#[cycle(floats)]
fn members_have_float(members: &Map<String, Value>) -> bool
    ensures { result ≡ members_have_float (members_view members.now.entries) }
{
    for (_key, value) in members.iter() {
        if has_float(value) {
            return true;
        }
    }
    false
}

/// The value of a JSON text whose numbers are all 64-bit whole numbers.
// promise: JSON is read, but for numbers that aren't 64-bit integers.
// mutations: float_let_through, memory_told_as_not_json
#[tactic(auto, unfolding(crate::specs::Reading::value_of))]
pub fn value_of(alloc: Global, text: &str) -> Result<Value, TableError>
    ensures { Gives view result (value_of text.now) }
{
    match Value::from_str(alloc, text) {
        Ok(value) => {
            if has_float(&value) {
                return Err(TableError::Float);
            }
            Ok(value)
        }
        Err(error) if error.is_memory() => Err(TableError::OutOfMemory),
        Err(_) => Err(TableError::NotJson),
    }
}
