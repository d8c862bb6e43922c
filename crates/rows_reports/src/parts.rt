//! Texts with their parts.

use std::alloc::{AllocError, Global};
use writeable::{Part, PartsText};

/// How many parts are listed at most.
const MOST_LISTED: usize = 20;

/// Appends parts, each with the bytes at which it starts and ends; of more than twenty their count.
fn push_parts(
    alloc: Global,
    spans: &[(usize, usize, Part)],
    text: &mut String,
) -> Result<(), AllocError> {
    if spans.len() > MOST_LISTED {
        return text.push_str(format!(in alloc; " {} parts", spans.len())?.as_str());
    }
    for (start, end, part) in spans {
        let value = part.value;
        text.push_str(format!(in alloc; " {value} {start}-{end}")?.as_str())?;
    }
    Ok(())
}

/// Appends a text, and its parts in the order in which they open.
fn push_spelled(alloc: Global, marked: &PartsText, text: &mut String) -> Result<(), AllocError> {
    text.push_str(marked.text())?;
    text.push_str(" |")?;
    match marked.spans(alloc) {
        Ok(spans) => push_parts(alloc, &spans, text),
        Err(_) => Err(AllocError),
    }
}

/// A text, and its parts in the order in which they open, each with the bytes at which it starts and
/// ends; of more than twenty their count.
pub(crate) fn spelled(alloc: Global, marked: &PartsText) -> Result<String, AllocError> {
    let mut text = String::new(alloc);
    push_spelled(alloc, marked, &mut text)?;
    Ok(text)
}
