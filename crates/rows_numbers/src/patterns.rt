//! Calls of `icu_pattern`. A pattern is spelled as CLDR spells it, with `{0}` in the place of the
//! value.

use crate::words::{equal_or_different, said, yes_or_no};
use icu_pattern::{
    NoPlaceholder, Pattern, PatternBackend, PatternError, PatternRef, SinglePlaceholder,
};
use std::alloc::{AllocError, Global};
use writeable::{EventWriter, OutOfMemory, Part, PartsText, WriteFault, Writeable};

/// The part that the value is.
const INTEGER: Part = Part {
    category: "decimal",
    value: "integer",
};

/// A text that is written as a part.
#[derive(Drop)]
struct Integer<'a> {
    text: &'a str,
}

impl Writeable for Integer<'_> {
    ghost use Rattle.std.specs.Prelude.{List, ◌∷◌, ◌++◌, [], codes};
    ghost use Rattle.writeable.specs.Events.{Event, text_events};
    ghost use Rattle.writeable.specs.Events.Event.{Open, Close};

    ghost events = { λ n. Open (codes "decimal") (codes "integer")
        ∷ (text_events n.text.now ++ Close ∷ []) };

    fn write_events<K: EventWriter>(&self, out: &mut K) -> Result<(), WriteFault> {
        out.open(INTEGER)?;
        out.text(self.text)?;
        out.close()
    }
}

/// A pattern as it is spelled.
pub(crate) fn text_of<P: PatternBackend>(
    alloc: Global,
    pattern: PatternRef<'_, P>,
) -> Result<String, AllocError> {
    let literal = pattern.literal();
    match pattern.placeholder() {
        Some(placeholder) => {
            let before = literal.get(..placeholder).unwrap_or("?");
            let behind = literal.get(placeholder..).unwrap_or("?");
            format!(in alloc; "{before}{{0}}{behind}")
        }
        None => String::from_str(alloc, literal),
    }
}

/// The same in quotes.
fn spelled<P: PatternBackend>(
    alloc: Global,
    pattern: PatternRef<'_, P>,
) -> Result<String, AllocError> {
    let text = text_of(alloc, pattern)?;
    format!(in alloc; "\"{text}\"")
}

/// The answer of a call that may fail; an error by its name.
fn reported(
    alloc: Global,
    returned: Result<Option<String>, PatternError>,
) -> Result<Option<String>, AllocError> {
    match returned {
        Ok(returned) => Ok(returned),
        Err(PatternError::OutOfMemory) => Err(AllocError),
        Err(PatternError::BadPlace) => said(alloc, "BadPlace"),
    }
}

/// The pattern that a text spells.
pub(crate) fn pattern_of<P: PatternBackend>(
    alloc: Global,
    text: &str,
) -> Result<Pattern<P>, PatternError> {
    match text.split_once("{0}") {
        Some((before, behind)) => {
            let literal = format!(in alloc; "{before}{behind}")?;
            Pattern::try_new(alloc, Some(before.len()), literal.as_str())
        }
        None => Pattern::try_new(alloc, None, text),
    }
}

/// The place of an argument, or `none`; nothing if it is neither.
fn placeholder_of(argument: &str) -> Option<Option<usize>> {
    if argument == "none" {
        return Some(None);
    }
    match argument.parse() {
        Ok(placeholder) => Some(Some(placeholder)),
        Err(_) => None,
    }
}

/// The pattern that was made, or the name of the error.
fn owned<P: PatternBackend>(
    alloc: Global,
    placeholder: Option<usize>,
    literal: &str,
) -> Result<String, PatternError> {
    match Pattern::<P>::try_new(alloc, placeholder, literal) {
        Ok(pattern) => Ok(spelled(alloc, pattern.as_ref())?),
        Err(PatternError::OutOfMemory) => Err(PatternError::OutOfMemory),
        Err(PatternError::BadPlace) => Ok(String::from_str(alloc, "BadPlace")?),
    }
}

/// The same of a pattern that borrows its literal.
fn borrowed<P: PatternBackend>(
    alloc: Global,
    placeholder: Option<usize>,
    literal: &str,
) -> Result<String, PatternError> {
    match PatternRef::<P>::try_new(placeholder, literal) {
        Ok(pattern) => Ok(spelled(alloc, pattern)?),
        Err(PatternError::OutOfMemory) => Err(PatternError::OutOfMemory),
        Err(PatternError::BadPlace) => Ok(String::from_str(alloc, "BadPlace")?),
    }
}

/// Whether the backend accepts, the pattern, and the pattern that borrows.
fn try_new<P: PatternBackend>(
    alloc: Global,
    placeholder: &str,
    literal: &str,
) -> Result<Option<String>, PatternError> {
    let Some(placeholder) = placeholder_of(placeholder) else {
        return Ok(None);
    };
    let accepts = yes_or_no(P::accepts(placeholder, literal));
    let owned = owned::<P>(alloc, placeholder, literal)?;
    let borrowed = borrowed::<P>(alloc, placeholder, literal)?;
    Ok(Some(format!(in alloc; "{accepts} | {owned} | {borrowed}")?))
}

/// A copy, and whether it is equal.
fn copy<P: PatternBackend>(alloc: Global, text: &str) -> Result<Option<String>, PatternError> {
    let pattern = pattern_of::<P>(alloc, text)?;
    let copy = pattern.copy(alloc)?;
    let is_equal = equal_or_different(copy == pattern);
    let copy = spelled(alloc, copy.as_ref())?;
    Ok(Some(format!(in alloc; "{copy} | {is_equal}")?))
}

/// Whether patterns are equal, and whether those are that borrow.
fn eq<P: PatternBackend>(
    alloc: Global,
    one: &str,
    other: &str,
) -> Result<Option<String>, PatternError> {
    let one = pattern_of::<P>(alloc, one)?;
    let other = pattern_of::<P>(alloc, other)?;
    let owned = equal_or_different(one == other);
    let borrowed = equal_or_different(one.as_ref() == other.as_ref());
    Ok(Some(format!(in alloc; "{owned} | {borrowed}")?))
}

/// The text of a sink and its parts.
fn text_with_parts(alloc: Global, sink: &PartsText) -> Result<String, AllocError> {
    let spans = match sink.spans(alloc) {
        Ok(spans) => spans,
        Err(OutOfMemory) => return Err(AllocError),
    };
    let mut returned = format!(in alloc; "{} |", sink.text())?;
    if spans.is_empty() {
        returned.push_str(" no parts")?;
    }
    for (start, end, part) in &spans {
        let span = format!(in alloc; " {} {} {start}-{end}", part.category, part.value)?;
        returned.push_str(span.as_str())?;
    }
    Ok(returned)
}

/// What a sink with parts, or one without, holds of a value.
fn written<W: Writeable>(alloc: Global, value: &W, has_parts: bool) -> Result<String, AllocError> {
    let mut sink = PartsText::new(alloc);
    let result = if has_parts {
        value.write_to_parts(&mut sink)
    } else {
        value.write_to(&mut sink)
    };
    match result {
        Ok(()) => text_with_parts(alloc, &sink),
        Err(WriteFault) => Err(AllocError),
    }
}

/// The text of a value that is written to a string.
fn string_of<W: Writeable>(alloc: Global, value: &W) -> Result<String, AllocError> {
    match value.write_to_string(alloc) {
        Ok(text) => Ok(text),
        Err(WriteFault) => Err(AllocError),
    }
}

/// What a pattern with a value in its place writes, in one of several ways.
fn interpolate<P: PatternBackend>(
    alloc: Global,
    way: &str,
    text: &str,
    value: &str,
) -> Result<Option<String>, PatternError> {
    let pattern = pattern_of::<P>(alloc, text)?;
    let part = pattern.interpolate(Integer { text: value });
    let text = match way {
        "write_to_parts" => written(alloc, &part, true)?,
        "write_to" => written(alloc, &part, false)?,
        "display" => format!(in alloc; "{part}")?,
        "write_to_string" => string_of(alloc, &pattern.interpolate(value))?,
        "borrowed" => format!(in alloc; "{}", pattern.as_ref().interpolate(value))?,
        _ => return Ok(None),
    };
    Ok(Some(text))
}

/// The pattern that passes a value through, what it writes, and what it writes with parts.
fn pass_through(alloc: Global, value: &str) -> Result<Option<String>, AllocError> {
    let pattern = Pattern::pass_through(alloc);
    let text = string_of(alloc, &pattern.interpolate(value))?;
    let parts = written(alloc, &pattern.interpolate(Integer { text: value }), true)?;
    let pattern = spelled(alloc, pattern.as_ref())?;
    Ok(Some(format!(in alloc; "{pattern} | {text} | {parts}")?))
}

/// What a call of patterns of a backend answers.
fn result_of<P: PatternBackend>(
    alloc: Global,
    call: &str,
    arguments: &[String],
) -> Result<Option<String>, PatternError> {
    match arguments {
        [text] if call == "Pattern::copy" => copy::<P>(alloc, text),
        [placeholder, literal] if call == "try_new" => try_new::<P>(alloc, placeholder, literal),
        [one, other] if call == "Pattern::eq" => eq::<P>(alloc, one, other),
        [way, text, value] if call == "interpolate" => interpolate::<P>(alloc, way, text, value),
        _ => Ok(None),
    }
}

/// What a call of patterns answers. The first argument is the backend, `single` or `none`.
pub(crate) fn returned(
    alloc: Global,
    call: &str,
    arguments: &[String],
) -> Result<Option<String>, AllocError> {
    match arguments {
        [value] if call == "pass_through" => pass_through(alloc, value),
        [backend, arguments @ ..] => match backend.as_str() {
            "single" => reported(
                alloc,
                result_of::<SinglePlaceholder>(alloc, call, arguments),
            ),
            "none" => reported(alloc, result_of::<NoPlaceholder>(alloc, call, arguments)),
            _ => Ok(None),
        },
        _ => Ok(None),
    }
}
