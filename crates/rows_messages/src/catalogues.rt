//! Calls of catalogues.

use crate::CallResult;
use crate::faults::of_text;
use crate::messages::{names_of, spelled};
use icu_message_catalogue::{Catalogue, CatalogueError};
use std::alloc::{AllocError, Global};

/// The name of a fault, with its id, and the fault of a message with its byte.
fn of_catalogue(alloc: Global, fault: &CatalogueError) -> CallResult {
    match fault {
        CatalogueError::NotJson => Ok(Some(String::from_str(alloc, "NotJson")?)),
        CatalogueError::NotAnObject => Ok(Some(String::from_str(alloc, "NotAnObject")?)),
        CatalogueError::WrongKind { id } => Ok(Some(format!(in alloc; "WrongKind {id}")?)),
        CatalogueError::Message { id, fault } => match of_text(alloc, *fault)? {
            Some(fault) => Ok(Some(format!(in alloc; "Message {id} {fault}")?)),
            None => Ok(None),
        },
        CatalogueError::OutOfMemory => Err(AllocError),
    }
}

/// The ids, in their order.
fn ids(alloc: Global, catalogue: &Catalogue) -> CallResult {
    let mut out = String::new(alloc);
    for id in catalogue.ids() {
        if !out.is_empty() {
            out.push(' ')?;
        }
        out.push_str(id)?;
    }
    Ok(Some(out))
}

/// The locale, or `none`.
fn locale(alloc: Global, catalogue: &Catalogue) -> CallResult {
    Ok(Some(String::from_str(alloc, catalogue.locale().unwrap_or("none"))?))
}

/// The spelling of an id's message, or `none`.
fn message(alloc: Global, catalogue: &Catalogue, id: &str) -> CallResult {
    match catalogue.message(id) {
        Some(message) => spelled(alloc, message),
        None => Ok(Some(String::from_str(alloc, "none")?)),
    }
}

/// The names of an id's message with their kinds.
fn signature(alloc: Global, catalogue: &Catalogue, id: &str) -> CallResult {
    match catalogue.message(id) {
        Some(message) => names_of(alloc, message),
        None => Ok(None),
    }
}

/// What a call of a catalogue answers.
fn asked(alloc: Global, catalogue: &Catalogue, question: (&str, &[String])) -> CallResult {
    match question {
        ("Catalogue::ids", []) => ids(alloc, catalogue),
        ("Catalogue::locale", []) => locale(alloc, catalogue),
        ("Catalogue::message", [id]) => message(alloc, catalogue, id),
        ("Catalogue::signature", [id]) => signature(alloc, catalogue, id),
        _ => Ok(None),
    }
}

/// What a call answers of the catalogue of a text.
fn with_text(alloc: Global, text: &str, question: (&str, &[String])) -> CallResult {
    match Catalogue::from_json(alloc, text) {
        Ok(catalogue) => asked(alloc, &catalogue, question),
        Err(CatalogueError::OutOfMemory) => Err(AllocError),
        Err(fault) if question.0 == "CatalogueError::display" => {
            Ok(Some(format!(in alloc; "{fault}")?))
        }
        Err(fault) => of_catalogue(alloc, &fault),
    }
}

/// A catalogue of so many ids, `id0` and on, each with its own message.
fn counted(alloc: Global, count: usize) -> Result<String, AllocError> {
    let mut text = String::from_str(alloc, "{")?;
    for number in 0..count {
        if number > 0 {
            text.push(',')?;
        }
        text.push_str(format!(in alloc; "\"id{number}\":\"message {number}\"")?.as_str())?;
    }
    text.push('}')?;
    Ok(text)
}

/// What a call of a catalogue answers.
pub(crate) fn returned(alloc: Global, call: &str, arguments: &[String]) -> CallResult {
    match arguments {
        [count, id] if call == "Catalogue::counted" => match count.as_str().parse::<usize>() {
            Ok(count) => {
                let text = counted(alloc, count)?;
                let id = [String::from_str(alloc, id)?];
                with_text(alloc, &text, ("Catalogue::message", &id))
            }
            Err(_) => Ok(None),
        },
        [text, rest @ ..] if call.starts_with("Catalogue") => with_text(alloc, text, (call, rest)),
        _ => Ok(None),
    }
}
