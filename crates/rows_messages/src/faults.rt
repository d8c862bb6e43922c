//! How faults are spelled: their name, and the byte or the name in the message.

use crate::CallResult;
use icu_message::{Message, ParseError, WriteError};
use std::alloc::{AllocError, Global};
use std::str;

/// The name of a fault, and its byte; `None` if memory ran out.
fn fault_of(fault: ParseError) -> Option<(&'static str, usize)> {
    match fault {
        ParseError::TooLong { byte } => Some(("TooLong", byte)),
        ParseError::End { byte } => Some(("End", byte)),
        ParseError::Unopened { byte } => Some(("Unopened", byte)),
        ParseError::OpenQuote { byte } => Some(("OpenQuote", byte)),
        ParseError::TooDeep { byte } => Some(("TooDeep", byte)),
        ParseError::Name { byte } => Some(("Name", byte)),
        ParseError::Kind { byte } => Some(("Kind", byte)),
        ParseError::Style { byte } => Some(("Style", byte)),
        ParseError::Skeleton { byte, .. } => Some(("Skeleton", byte)),
        ParseError::TwoKinds { byte } => Some(("TwoKinds", byte)),
        ParseError::Offset { byte } => Some(("Offset", byte)),
        ParseError::Key { byte } => Some(("Key", byte)),
        ParseError::Repeated { byte } => Some(("Repeated", byte)),
        ParseError::NoOther { byte } => Some(("NoOther", byte)),
        ParseError::Unexpected { byte } => Some(("Unexpected", byte)),
        ParseError::OutOfMemory => None,
    }
}

/// A fault of a text; that of a skeleton with what is wrong.
pub(crate) fn of_text(alloc: Global, fault: ParseError) -> CallResult {
    if let ParseError::Skeleton { kind, byte } = fault {
        return Ok(Some(format!(in alloc; "Skeleton {byte} {kind}")?));
    }
    match fault_of(fault) {
        Some((name, byte)) => Ok(Some(format!(in alloc; "{name} {byte}")?)),
        None => Err(AllocError),
    }
}

/// A fault of arguments.
pub(crate) fn of_arguments(alloc: Global, message: &Message, fault: WriteError) -> CallResult {
    let (kind, word) = match fault {
        WriteError::MissingArgument { name } => ("MissingArgument", name),
        WriteError::NotANumber { name } => ("NotANumber", name),
        WriteError::NotAText { name } => ("NotAText", name),
        WriteError::OutOfMemory => return Err(AllocError),
    };
    match str::from_utf8(message.word(word)) {
        Ok(name) => Ok(Some(format!(in alloc; "{kind} {name}")?)),
        Err(_) => Ok(None),
    }
}
