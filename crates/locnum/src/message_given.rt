//! The message that is asked for: a text, or an id of a catalogue.

use crate::streams::report_error;
use crate::{Failure, put_note};
use clap::ArgMatches;
use icu_message::{ChoiceKind, Message, ParseError, Piece};
use icu_message_catalogue::{Catalogue, CatalogueError};
use std::alloc::AllocError;
use std::io::ErrorKind;
use std::{fs, str};

/// Where a message comes from.
#[derive(Clone, Copy)]
pub(crate) enum MessageSource<'a> {
    /// The text of an option.
    Text(&'a str),
    /// An id of a catalogue, which is a file.
    Id(&'a str, &'a str),
}

/// Options that don't stand beside a message.
const APART: [&str; 2] = ["explain", "padding"];

/// Writes a note to standard error.
fn note(rt: &HostRuntime, note: Result<String, AllocError>) -> Failure {
    match note {
        Ok(note) => put_note(rt, note.as_bytes()),
        Err(_) => Failure::OutOfMemory,
    }
}

/// The name of an option that is given, and doesn't stand beside a message.
fn apart(matches: &ArgMatches<'_>) -> Option<&'static str> {
    for name in APART {
        if matches.get_flag(name) || (name == "padding" && matches.contains_id(name)) {
            return Some(name);
        }
    }
    None
}

/// Where the message comes from that is asked for, if one is.
pub(crate) fn source_given<'a>(
    rt: &HostRuntime,
    matches: &ArgMatches<'a>,
) -> Result<Option<MessageSource<'a>>, Failure> {
    let alloc = rt.alloc();
    let source = match (
        matches.get_str("message"),
        matches.get_str("messages"),
        matches.get_str("id"),
    ) {
        (None, None, None) => return Ok(None),
        (Some(text), None, None) => MessageSource::Text(text),
        (None, Some(file), Some(id)) => MessageSource::Id(file, id),
        (Some(_), _, _) => {
            let text = "locnum: --message: not with --messages and --id\n";
            return Err(note(rt, String::from_str(alloc, text)));
        }
        (None, _, _) => {
            let text = "locnum: --messages and --id: only together\n";
            return Err(note(rt, String::from_str(alloc, text)));
        }
    };
    match apart(matches) {
        Some(name) => {
            Err(note(
                rt,
                format!(in alloc; "locnum: --{name}: not with a message\n"),
            ))
        }
        None => Ok(Some(source)),
    }
}

/// The message of a text.
pub(crate) fn message_of_text(rt: &HostRuntime, text: &str) -> Result<Message, Failure> {
    match Message::parse(rt.alloc(), text) {
        Ok(message) => Ok(message),
        Err(ParseError::OutOfMemory) => Err(Failure::OutOfMemory),
        Err(fault) => Err(note(rt, format!(in rt.alloc(); "locnum: --message: {fault}\n"))),
    }
}

/// The text of a file.
pub(crate) fn text_of_file(rt: &HostRuntime, path: &str) -> Result<String, Failure> {
    let bytes = match fs::read(rt, path) {
        Ok(bytes) => bytes,
        Err(error) if error.kind() == ErrorKind::OutOfMemory => return Err(Failure::OutOfMemory),
        Err(error) => {
            report_error(rt, path, Some(error));
            return Err(Failure::Reported);
        }
    };
    match str::from_utf8(&bytes) {
        Ok(text) => Ok(String::from_str(rt.alloc(), text)?),
        Err(_) => Err(note(rt, format!(in rt.alloc(); "locnum: {path}: not UTF-8\n"))),
    }
}

/// The catalogue of a file's text.
pub(crate) fn catalogue_of(rt: &HostRuntime, path: &str, text: &str) -> Result<Catalogue, Failure> {
    match Catalogue::from_json(rt.alloc(), text) {
        Ok(catalogue) => Ok(catalogue),
        Err(CatalogueError::OutOfMemory) => Err(Failure::OutOfMemory),
        Err(fault) => Err(note(rt, format!(in rt.alloc(); "locnum: {path}: {fault}\n"))),
    }
}

/// The message of a catalogue's id.
pub(crate) fn message_of_id<'a>(
    rt: &HostRuntime,
    catalogue: &'a Catalogue,
    path: &str,
    id: &str,
) -> Result<&'a Message, Failure> {
    match catalogue.message(id) {
        Some(message) => Ok(message),
        None => Err(note(
            rt,
            format!(in rt.alloc(); "locnum: {path}: no message {id}\n"),
        )),
    }
}

/// Whether a message picks by numbers, in this way.
pub(crate) fn picks_by(message: &Message, kind: ChoiceKind) -> bool {
    for piece in message.pieces() {
        if let Piece::Choice(found, _) = *piece {
            if found == kind {
                return true;
            }
        }
    }
    false
}
