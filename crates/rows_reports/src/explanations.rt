//! Calls of `locnum_explain`.

use crate::CallResult;
use crate::bytes::{appended, bytes_of};
use crate::words::texts_of;
use locnum_explain::{DigitsBy, Settings, explain, explain_at, explain_line, explain_lines};
use locnum_options::Given;
use number_forms::Form;
use std::alloc::{AllocError, Global};

/// What is explained: a text, that of a line, those of lines up to one that is rejected or all of
/// them, or one under a place.
#[derive(Clone, Copy)]
enum Subject<'a> {
    Text(&'a str),
    Line(&'a str),
    Lines(bool, &'a [String]),
    At(&'a str, &'a str),
}

/// What is explained, and how many columns a line of parts has at most.
#[derive(Clone, Copy)]
pub(crate) struct Explained<'a> {
    width: usize,
    subject: Subject<'a>,
}

/// What a call explains by this word alone.
fn subject_by_one<'a>(call: &str, word: &'a str) -> Option<Subject<'a>> {
    match call {
        "explain" => Some(Subject::Text(word)),
        "explain_line" => Some(Subject::Line(word)),
        _ => None,
    }
}

/// What a call explains by this word and those behind it.
fn subject_by<'a>(call: &str, word: &'a str, others: &'a [String]) -> Option<Subject<'a>> {
    if call == "explain_lines" {
        return Some(Subject::Lines(word == "stop", others));
    }
    match others {
        [] => subject_by_one(call, word),
        [text] if call == "explain_at" => Some(Subject::At(word, text.as_str())),
        _ => None,
    }
}

impl<'a> Explained<'a> {
    /// What a call explains by these words, of which the first is the width.
    pub(crate) fn of(call: &str, words: &'a [String]) -> Option<Explained<'a>> {
        let (width, words) = words.split_first()?;
        let Ok(width) = width.parse() else {
            return None;
        };
        let (word, others) = words.split_first()?;
        let subject = subject_by(call, word.as_str(), others)?;
        Some(Explained { width, subject })
    }
}

/// Whether the style is a compact one.
fn is_compact(style: Option<&str>) -> bool {
    match style {
        Some("short") => true,
        Some("long") => true,
        Some(_) => false,
        None => false,
    }
}

/// The options that say how fine numbers are.
const PRECISIONS: [&str; 4] = ["fraction", "significant", "increment", "skeleton"];

/// The style or the currency as what says how fine numbers are.
fn digits_of_kind<'a>(given: &Given<'a>) -> DigitsBy<'a> {
    if is_compact(given.text("style")) {
        return DigitsBy::Compact;
    }
    match given.text("currency") {
        Some(code) if given.flag("cash") => DigitsBy::Cash(code),
        Some(code) => DigitsBy::Currency(code),
        None => DigitsBy::Given,
    }
}

/// What says how fine numbers are.
fn digits_by<'a>(given: &Given<'a>) -> DigitsBy<'a> {
    for name in PRECISIONS {
        if let Some(text) = given.text(name) {
            return DigitsBy::Option { name, text };
        }
    }
    digits_of_kind(given)
}

/// Appends what is told, and says whether a text is rejected.
fn push(
    alloc: Global,
    settings: &Settings<'_>,
    form: &Form,
    subject: Subject<'_>,
    out: &mut Vec<u8>,
) -> Result<bool, AllocError> {
    match subject {
        Subject::Text(text) => explain(alloc, settings, form, &bytes_of(alloc, text)?, out),
        Subject::Line(line) => explain_line(alloc, settings, form, &bytes_of(alloc, line)?, out),
        Subject::Lines(stops, lines) => {
            explain_lines(alloc, settings, stops, form, &texts_of(alloc, lines)?, out)
        }
        Subject::At(position, text) => {
            let text = bytes_of(alloc, text)?;
            explain_at(alloc, settings, form, position.as_bytes(), &text, out)
        }
    }
}

/// An explanation, and whether a text is rejected.
pub(crate) fn explanation(
    alloc: Global,
    form: &Form,
    given: &Given<'_>,
    asked: Explained<'_>,
) -> CallResult {
    let settings = Settings {
        width: asked.width,
        digits: digits_by(given),
        mode: given.text("round"),
    };
    let mut out = Vec::from_slice(alloc, b">")?;
    let is_refused = push(alloc, &settings, form, asked.subject, &mut out)?;
    let mut text = appended(alloc, &out)?;
    if is_refused {
        text.push_str(" | rejected")?;
    }
    Ok(Some(text))
}
