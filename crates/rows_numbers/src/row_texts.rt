//! Calls of `rows` itself: how rows are spelled.

use rows::{Row, decoded, escaped};
use std::alloc::{AllocError, Global};

/// A row as it was read: the call, each argument in brackets, and the answer that is wanted.
fn read_row(alloc: Global, line: &str) -> Result<String, AllocError> {
    let Some(row) = Row::read(alloc, line)? else {
        return String::from_str(alloc, "isn't a row");
    };
    let mut text = String::from_str(alloc, row.call.as_str())?;
    for argument in &row.arguments {
        text.push_str(" [")?;
        text.push_str(argument.as_str())?;
        text.push(']')?;
    }
    text.push_str(" = ")?;
    text.push_str(row.wanted.as_str())?;
    Ok(text)
}

/// What a call of `rows` answers.
pub(crate) fn returned(
    alloc: Global,
    call: &str,
    arguments: &[String],
) -> Result<Option<String>, AllocError> {
    let [text] = arguments else {
        return Ok(None);
    };
    match call {
        "read_row" => Ok(Some(read_row(alloc, text.as_str())?)),
        "decoded" => Ok(Some(decoded(alloc, text.as_str())?)),
        "escaped" => Ok(Some(escaped(alloc, text.as_str())?)),
        _ => Ok(None),
    }
}
