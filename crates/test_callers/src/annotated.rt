//! Calls of writeable: worked texts with parts.

use std::alloc::Global;
use writeable::{OutOfMemory, Part, PartsText, PartsWrite, WriteFault};

mod bytes;
mod groups;
mod limit;
mod spans;
mod writers;
mod written;

const INTEGER: Part = Part {
    category: "decimal",
    value: "integer",
};

const GROUP: Part = Part {
    category: "decimal",
    value: "group",
};

const MINUS_SIGN: Part = Part {
    category: "decimal",
    value: "minusSign",
};

const DECIMAL: Part = Part {
    category: "decimal",
    value: "decimal",
};

const FRACTION: Part = Part {
    category: "decimal",
    value: "fraction",
};

/// Writes one event for each character: an opening bracket opens a part, `)` closes one, and the
/// others are text.
fn write_marked(sink: &mut PartsText, marked: &str) -> Result<(), WriteFault> {
    for character in marked.chars() {
        match character {
            '(' => sink.open_part(INTEGER)?,
            '[' => sink.open_part(GROUP)?,
            '{' => sink.open_part(MINUS_SIGN)?,
            '<' => sink.open_part(DECIMAL)?,
            '/' => sink.open_part(FRACTION)?,
            ')' => sink.close_part()?,
            text => sink.write_char(text)?,
        }
    }
    Ok(())
}

/// The marked text in a new sink, and what the last call answered. Where a growth failed it is
/// written again.
fn sink_with(
    alloc: Global,
    limit: Option<usize>,
    marked: &str,
) -> (Result<(), WriteFault>, PartsText) {
    let mut sink = new_sink(alloc, limit);
    let mut written = write_marked(&mut sink, marked);
    if sink.growth_refused() {
        sink = new_sink(alloc, limit);
        written = write_marked(&mut sink, marked);
    }
    (written, sink)
}

fn new_sink(alloc: Global, limit: Option<usize>) -> PartsText {
    match limit {
        Some(limit) => PartsText::with_limit(alloc, limit),
        None => PartsText::new(alloc),
    }
}

/// Whether a sink holds this text with these spans; asked once more where memory ran out.
fn is_annotated(
    alloc: Global,
    sink: &PartsText,
    text: &str,
    want: &[(usize, usize, Part)],
) -> bool {
    if sink.text() != text {
        return false;
    }
    match sink.spans(alloc) {
        Ok(spans) => spans.as_slice() == want,
        Err(OutOfMemory) => match sink.spans(alloc) {
            Ok(spans) => spans.as_slice() == want,
            Err(OutOfMemory) => false,
        },
    }
}
