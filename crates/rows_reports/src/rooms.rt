//! Calls of `decimal_lines` that fill a room.

use crate::CallResult;
use crate::bytes::{bytes_of, text_of};
use crate::faults::not_written;
use decimal_lines::{FillError, Mode, format_lines, format_some, format_text};
use std::alloc::{AllocError, Global};

/// Which call fills a room.
#[derive(Clone, Copy)]
enum By {
    Text,
    Lines,
    Progress,
}

/// What fills a room of so many bytes.
#[derive(Clone, Copy)]
pub(crate) struct Filling<'a> {
    by: By,
    room: usize,
    input: &'a str,
}

impl<'a> Filling<'a> {
    /// What a call fills.
    pub(crate) fn of(call: &str, room: &str, input: &'a str) -> Option<Filling<'a>> {
        let Ok(room) = room.parse() else {
            return None;
        };
        let by = match call {
            "format_text" => By::Text,
            "format_lines" => By::Lines,
            "format_some" => By::Progress,
            _ => return None,
        };
        Some(Filling { by, room, input })
    }
}

/// The name of an outcome.
fn outcome_name(outcome: Result<(), FillError>) -> Result<&'static str, AllocError> {
    match outcome {
        Ok(()) => Ok("all"),
        Err(FillError::TooSmall) => Ok("TooSmall"),
        Err(FillError::OutOfMemory) => Err(AllocError),
    }
}

/// An outcome, and what the room holds then.
fn with_room(alloc: Global, outcome: &str, room: &[u8]) -> CallResult {
    let room = text_of(alloc, room)?;
    Ok(Some(format!(in alloc; "{outcome} | '{room}'")?))
}

/// What `format_text` answers, and what the room holds then.
fn by_text(alloc: Global, mode: &Mode, text: &[u8], room: &mut [u8]) -> CallResult {
    match format_text(alloc, mode, text, room) {
        Ok(count) => with_room(alloc, format!(in alloc; "{count}")?.as_str(), room),
        Err(error) => match not_written(alloc, error)? {
            Some(name) => with_room(alloc, name.as_str(), room),
            None => Ok(None),
        },
    }
}

/// What `format_lines` answers, and what the room holds then.
fn by_lines(alloc: Global, mode: &Mode, input: &[u8], room: &mut [u8]) -> CallResult {
    let filled = format_lines(alloc, mode, input, room);
    let outcome = outcome_name(filled.outcome)?;
    let written = filled.written;
    let outcome = format!(in alloc; "{outcome} | written {written}")?;
    with_room(alloc, outcome.as_str(), room)
}

/// What `format_some` answers, and what the room holds then.
fn by_some(alloc: Global, mode: &Mode, input: &[u8], room: &mut [u8]) -> CallResult {
    let progress = format_some(alloc, mode, input, room);
    let outcome = outcome_name(progress.outcome)?;
    let consumed = progress.consumed;
    let written = progress.written;
    let needed = progress.needed;
    let outcome = format!(in alloc;
        "{outcome} | consumed {consumed} written {written} needed {needed}"
    )?;
    with_room(alloc, outcome.as_str(), room)
}

/// What a call answers that fills a room, and what the room holds then; before it holds `x`.
pub(crate) fn filled(alloc: Global, mode: &Mode, filling: Filling<'_>) -> CallResult {
    let input = bytes_of(alloc, filling.input)?;
    let mut room = Vec::from_elem(alloc, b'x', filling.room)?;
    match filling.by {
        By::Text => by_text(alloc, mode, &input, &mut room),
        By::Lines => by_lines(alloc, mode, &input, &mut room),
        By::Progress => by_some(alloc, mode, &input, &mut room),
    }
}
