//! Where a text isn't JSON.

use crate::faults::push_labelled;
use json::{Reader, Scratch, Token};
use serde_json::Value;
use std::alloc::{AllocError, Global};

/// The byte behind the last token of a text that is JSON so far; none where each token is one.
fn end_of_good(alloc: Global, text: &str) -> Option<usize> {
    let mut scratch = Scratch::new(alloc);
    let mut reader = Reader::new(text, &mut scratch).ok()?;
    let mut good = 0;
    for _ in 0..text.len() {
        match reader.next()? {
            Token::Bad => return Some(good),
            _ => good = reader.offset(),
        }
    }
    None
}

/// How many blanks a text has in front.
fn count_blanks(bytes: &[u8]) -> usize {
    bytes.len() - bytes.trim_ascii_start().len()
}

/// The byte at which a text stops being JSON, if the tokens say it.
fn first_bad(alloc: Global, text: &str) -> Option<usize> {
    let bytes = text.as_bytes();
    let good = end_of_good(alloc, text)?.min(bytes.len());
    Some(good.saturating_add(count_blanks(bytes.split_at(good).1)))
}

/// How many characters begin among bytes of UTF-8.
fn count_characters(bytes: &[u8]) -> usize {
    bytes.iter().filter(|byte| **byte & 0xc0 != 0x80).count()
}

/// How many line feeds stand among bytes.
fn count_lines(bytes: &[u8]) -> usize {
    bytes.iter().filter(|byte| **byte == b'\n').count()
}

/// The bytes of a text's last line.
fn last_line(bytes: &[u8]) -> &[u8] {
    match bytes.iter().rposition(|byte| *byte == b'\n') {
        Some(end) => bytes
            .split_at(end)
            .1
            .split_first()
            .map_or(&[], |line| line.1),
        None => bytes,
    }
}

/// The line and the column of a byte of a text, each from 1 on.
fn line_and_column(bytes: &[u8], offset: usize) -> (u64, u64) {
    let before = bytes.split_at(offset.min(bytes.len())).0;
    let line = count_lines(before) as u64;
    let column = count_characters(last_line(before)) as u64;
    (line.saturating_add(1), column.saturating_add(1))
}

/// Appends where a text stops being JSON.
pub(crate) fn push_not_json(
    alloc: Global,
    text: &str,
    out: &mut Vec<u8>,
) -> Result<(), AllocError> {
    let (line, column) = match (first_bad(alloc, text), Value::from_str(alloc, text)) {
        (Some(offset), _) => line_and_column(text.as_bytes(), offset),
        (None, Err(error)) => (error.line() as u64, (error.column() as u64).max(1)),
        (None, Ok(_)) => return out.extend_from_slice(b"not JSON"),
    };
    push_labelled(b"line ", line, out)?;
    push_labelled(b", column ", column, out)?;
    out.extend_from_slice(b": not JSON")
}
