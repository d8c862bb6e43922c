//! Calls of `locnum_lines` for a caller that cuts an input itself.

use crate::CallResult;
use crate::bytes::{bytes_of, push_behind, push_text, text_if, text_of};
use crate::options::settings_of;
use crate::words::Pair;
use locnum_lines::{
    FoundNumber, LineSettings, NumberFinder, RecordState, behind_mark, push_padded,
};
use std::alloc::{AllocError, Global};

/// How many numbers are listed at most.
const MOST_LISTED: usize = 20;

/// Appends a number and where it stands.
fn push_number(number: &FoundNumber, text: &mut String) -> Result<(), AllocError> {
    push_text(&number.position, text)?;
    text.push_str(": ")?;
    push_text(&number.text, text)?;
    text.push_str(" | ")
}

/// Appends the count of numbers and the last.
fn push_last(alloc: Global, numbers: &[FoundNumber], text: &mut String) -> Result<(), AllocError> {
    text.push_str(format!(in alloc; "{} numbers to ", numbers.len())?.as_str())?;
    match numbers.last() {
        Some(last) => push_number(last, text),
        None => Ok(()),
    }
}

/// Appends the numbers of a record; of more than twenty their count and the last.
fn push_numbers(
    alloc: Global,
    numbers: &[FoundNumber],
    text: &mut String,
) -> Result<(), AllocError> {
    if numbers.len() > MOST_LISTED {
        return push_last(alloc, numbers, text);
    }
    for number in numbers {
        push_number(number, text)?;
    }
    Ok(())
}

/// Appends the numbers that a finder finds in a record.
fn push_record(
    alloc: Global,
    settings: &LineSettings,
    record: &[u8],
    finder: &mut NumberFinder,
    text: &mut String,
) -> Result<(), AllocError> {
    let numbers = finder.find(alloc, settings, record)?;
    push_numbers(alloc, &numbers, text)
}

/// Appends the numbers that a finder finds in records.
fn push_records(
    alloc: Global,
    settings: &LineSettings,
    records: &[String],
    finder: &mut NumberFinder,
    text: &mut String,
) -> Result<(), AllocError> {
    for record in records {
        push_record(
            alloc,
            settings,
            &bytes_of(alloc, record.as_str())?,
            finder,
            text,
        )?;
    }
    Ok(())
}

/// Appends the greatest number of fields, whether the search stopped, and the notes.
fn push_end(alloc: Global, finder: &NumberFinder, text: &mut String) -> Result<(), AllocError> {
    text.push_str(format!(in alloc; "most fields {}", finder.most_fields())?.as_str())?;
    text.push_str(text_if(finder.is_stopped(), " | stopped"))?;
    push_behind(" | ", finder.notes(), text)
}

/// The numbers that `NumberFinder::find` finds in records, and what it leaves.
fn found(alloc: Global, settings: &LineSettings, records: &[String]) -> CallResult {
    let mut finder = NumberFinder::new(alloc, settings);
    let mut text = String::new(alloc);
    push_records(alloc, settings, records, &mut finder, &mut text)?;
    push_end(alloc, &finder, &mut text)?;
    Ok(Some(text))
}

/// Whether quotes are open behind pieces of a record.
fn open_behind(alloc: Global, settings: &LineSettings, pieces: &[String]) -> CallResult {
    let mut state = RecordState::new();
    for piece in pieces {
        state.pass(settings, &bytes_of(alloc, piece.as_str())?);
    }
    let returned = if state.is_open() { "open" } else { "closed" };
    Ok(Some(String::from_str(alloc, returned)?))
}

/// What stands behind the mark of an input.
fn behind(alloc: Global, settings: &LineSettings, text: &str) -> CallResult {
    let bytes = bytes_of(alloc, text)?;
    Ok(Some(text_of(alloc, behind_mark(settings.source, &bytes))?))
}

/// What `push_padded` appends to `>`, and `<`, so that spaces at its end are seen.
fn padded(alloc: Global, settings: &LineSettings, text: &str) -> CallResult {
    let mut out = Vec::from_slice(alloc, b">")?;
    push_padded(settings.padding, &bytes_of(alloc, text)?, &mut out)?;
    out.push(b'<')?;
    Ok(Some(text_of(alloc, &out)?))
}

/// What a call answers by settings for one text.
fn by_text(alloc: Global, call: &str, text: &str, settings: &LineSettings) -> CallResult {
    match call {
        "behind_mark" => behind(alloc, settings, text),
        "push_padded" => padded(alloc, settings, text),
        _ => Ok(None),
    }
}

/// What a call answers by settings.
fn by_settings(alloc: Global, call: &str, words: &[String], settings: &LineSettings) -> CallResult {
    match call {
        "find" => found(alloc, settings, words),
        "is_open" => open_behind(alloc, settings, words),
        _ => match words {
            [text] => by_text(alloc, call, text.as_str(), settings),
            _ => Ok(None),
        },
    }
}

/// What a call answers whose arguments end in options.
pub(crate) fn returned<'a>(
    alloc: Global,
    call: &str,
    words: &[String],
    options: &'a [Pair<'a>],
) -> CallResult {
    match settings_of(alloc, options)? {
        Some(settings) => by_settings(alloc, call, words, &settings.lines),
        None => Ok(None),
    }
}
