//! Owned values of what is read from a text, token by token.

ghost use Rattle.serde_json.specs.View.{items_view, members_view, view};
ghost use Rattle.serde_json.specs.Data.{unsigned as natural_number};
ghost use Rattle.serde_json.specs.Read.{number_from, number_of};
ghost use Rattle.std.specs.Prelude.{◌≡◌, IfOk, IfSome, Some, false};
ghost use Rattle.icu_tables.specs.Owned.{AreItems, AreMembers, IsValue};

use fast_float::Numeral;
use icu_table_entries::TableError;
use json::{Reader, Token};
use serde_json::{Map, Number, Value};
use std::alloc::{AllocError, AllocFailed, Global};

/// Why a text isn't read for one locale only.
#[derive(Clone, Copy, Debug, PartialEq, Eq)]
pub enum Unread {
    /// Memory ran out.
    OutOfMemory,
    /// It has something rare or rejected: the caller reads it as a whole.
    Other,
}

impl From<AllocError> for Unread {
    fn from(_error: AllocError) -> Unread {
        Unread::OutOfMemory
    }
}

impl<T: Drop> From<AllocFailed<T>> for Unread {
    fn from(_error: AllocFailed<T>) -> Unread {
        Unread::OutOfMemory
    }
}

impl From<json::Invalid> for Unread {
    fn from(_error: json::Invalid) -> Unread {
        Unread::Other
    }
}

impl From<TableError> for Unread {
    fn from(error: TableError) -> Unread {
        match error {
            TableError::OutOfMemory => Unread::OutOfMemory,
            _ => Unread::Other,
        }
    }
}

/// The number of a text that has digits only, below 2 to the power 64.
fn natural(text: &str) -> Result<u64, Unread>
    ensures { IfOk result (λ n. number_of text.now ≡ Some (natural_number n)) }
{
    let bytes = text.as_bytes();
    if bytes.is_empty() || bytes[0] == b'-' {
        return Err(Unread::Other);
    }
    match unsigned(&Numeral::scan(bytes)) {
        Some(number) => Ok(number),
        None => Err(Unread::Other),
    }
}

/// The number of a numeral without a sign, which is a whole one below 2 to the power 64.
fn unsigned(numeral: &Numeral<'_>) -> Option<u64>
    ensures { IfSome result (λ n. number_from false numeral.now ≡ Some (natural_number n)) }
{
    numeral.to_u64()
}

/// The next value of the reader, if all its numbers are whole ones below 2 to the power 64. Lists
/// and objects may nest `depth` deep.
#[cycle(owned)]
pub fn owned(alloc: Global, reader: &mut Reader<'_>, depth: usize) -> Result<Value, Unread>
    ensures { IfOk result (λ v. IsValue depth reader.old (view v) reader.new) }
{
    let Some(token) = reader.next() else {
        return Err(Unread::Other);
    };
    match token {
        Token::Null => Ok(Value::Null),
        Token::Bool(truth) => Ok(Value::Bool(truth)),
        Token::Number(text) => Ok(Value::Number(Number::from(natural(text)?))),
        Token::String(text) => Ok(Value::String(String::from_str(alloc, text)?)),
        Token::BeginArray if depth > 0 => {
            Ok(Value::Array(owned_items(alloc, reader, depth - 1)?))
        }
        Token::BeginObject if depth > 0 => {
            Ok(Value::Object(owned_members(alloc, reader, depth - 1)?))
        }
        _ => Err(Unread::Other),
    }
}

/// The items up to the bracket that closes a list, each `depth` deep at most.
#[cycle(owned)]
fn owned_items(alloc: Global, reader: &mut Reader<'_>, depth: usize) -> Result<Vec<Value>, Unread>
    ensures { IfOk result (λ v. AreItems depth reader.old (items_view v.items) reader.new) }
{
    let mut found = Vec::new(alloc);
    'items: while !reader.take_end_array() {
        found.push(owned(alloc, reader, depth)?)?;
    }
    Ok(found)
}

/// The members up to the brace that closes an object, each `depth` deep at most.
#[cycle(owned)]
fn owned_members(
    alloc: Global,
    reader: &mut Reader<'_>,
    depth: usize,
) -> Result<Map<String, Value>, Unread>
    ensures { IfOk result (λ m. AreMembers depth reader.old (members_view m.entries) reader.new) }
{
    let mut found = Map::new(alloc);
    'members: while let Some(name) = reader.next_key()? {
        let key = String::from_str(alloc, name)?;
        let value = owned(alloc, reader, depth)?;
        drop(found.insert(key, value)?);
    }
    Ok(found)
}
