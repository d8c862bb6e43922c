//! Calls of messages that need no locale.

use crate::CallResult;
use crate::faults::of_text;
use crate::numbers::whole_of_text;
use icu_message::{ArgumentKind, Message, NamedKind, ParseError};
use number_skeleton::FaultKind;
use std::alloc::{AllocError, Global};
use std::str;

/// The text of bytes.
pub(crate) fn text_of(alloc: Global, bytes: &[u8]) -> CallResult {
    match str::from_utf8(bytes) {
        Ok(text) => Ok(Some(String::from_str(alloc, text)?)),
        Err(_) => Ok(None),
    }
}

/// The spelling of a message.
pub(crate) fn spelled(alloc: Global, message: &Message) -> CallResult {
    let mut out = Vec::new(alloc);
    message.spell(&mut out)?;
    text_of(alloc, &out)
}

/// How a text that is read is spelled.
fn spell(alloc: Global, text: &str) -> CallResult {
    match Message::parse(alloc, text) {
        Ok(message) => spelled(alloc, &message),
        Err(fault) => of_text(alloc, fault),
    }
}

/// Whether a text is read, or its first fault.
fn parse(alloc: Global, text: &str) -> CallResult {
    match Message::parse(alloc, text) {
        Ok(_) => Ok(Some(String::from_str(alloc, "read")?)),
        Err(fault) => of_text(alloc, fault),
    }
}

/// Appends a name and its kind to a list.
fn list(out: &mut String, message: &Message, named: NamedKind) -> Result<(), AllocError> {
    if !out.is_empty() {
        out.push_str(", ")?;
    }
    if let Ok(name) = str::from_utf8(message.word(named.name)) {
        out.push_str(name)?;
    }
    out.push_str(match named.kind {
        ArgumentKind::Any => " any",
        ArgumentKind::Number => " number",
        ArgumentKind::Text => " text",
    })?;
    Ok(())
}

/// The names of a message with their kinds.
pub(crate) fn names_of(alloc: Global, message: &Message) -> CallResult {
    let mut out = String::new(alloc);
    for named in &message.signature(alloc)? {
        list(&mut out, message, *named)?;
    }
    Ok(Some(out))
}

/// The names of a text that is read, with their kinds.
fn signature(alloc: Global, text: &str) -> CallResult {
    match Message::parse(alloc, text) {
        Ok(message) => names_of(alloc, &message),
        Err(fault) => of_text(alloc, fault),
    }
}

/// The least and the most places of a name in a text that is read.
fn places_of(alloc: Global, text: &str, name: &str) -> CallResult {
    match Message::parse(alloc, text) {
        Ok(message) => {
            let places = message.places_of(alloc, name)?;
            Ok(Some(format!(in alloc; "{} {}", places.least, places.most)?))
        }
        Err(fault) => of_text(alloc, fault),
    }
}

/// How the errors of a fault at byte 7 are displayed.
fn display(alloc: Global, name: &str) -> CallResult {
    let byte = 7;
    let fault = match name {
        "TooLong" => ParseError::TooLong { byte },
        "End" => ParseError::End { byte },
        "Unopened" => ParseError::Unopened { byte },
        "OpenQuote" => ParseError::OpenQuote { byte },
        "TooDeep" => ParseError::TooDeep { byte },
        "Name" => ParseError::Name { byte },
        "Kind" => ParseError::Kind { byte },
        "Style" => ParseError::Style { byte },
        "Skeleton" => ParseError::Skeleton {
            kind: FaultKind::UnknownStem,
            byte,
        },
        "TwoKinds" => ParseError::TwoKinds { byte },
        "Offset" => ParseError::Offset { byte },
        "Key" => ParseError::Key { byte },
        "Repeated" => ParseError::Repeated { byte },
        "NoOther" => ParseError::NoOther { byte },
        "Unexpected" => ParseError::Unexpected { byte },
        "OutOfMemory" => ParseError::OutOfMemory,
        _ => return Ok(None),
    };
    Ok(Some(format!(in alloc; "{fault}")?))
}

/// What a call of messages answers.
pub(crate) fn returned(alloc: Global, call: &str, arguments: &[String]) -> CallResult {
    match arguments {
        [text] if call == "parse" => parse(alloc, text),
        [text] if call == "spell" => spell(alloc, text),
        [text] if call == "signature" => signature(alloc, text),
        [text, name] if call == "places_of" => places_of(alloc, text, name),
        [name] if call == "display" => display(alloc, name),
        [text] if call == "whole_number" => whole_of_text(alloc, text),
        _ => Ok(None),
    }
}
