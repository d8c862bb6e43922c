//! What a field of CSV contains, and how a text is written as one (RFC 4180).

ghost use Rattle.std.specs.Prelude.{◌≡◌, ◌++◌, IfOk, IfSome, OnOk};
ghost use Rattle.locnum_lines.specs.Csv.{between_quotes, content_from, core_length, doubled, is_content, is_in_quotes, is_special, kept, quoted, wants_quotes};
ghost use Rattle.locnum_lines.specs.declared.cutting.FieldState.TheVariants.{Front};

use crate::cutting::{FieldState, csv_state};
use memchr::memchr;
use std::alloc::{AllocError, Global};

/// How long a field is without a carriage return at its end.
pub(crate) fn core_length(text: &[u8]) -> usize
    ensures { result ≡ core_length text.now }
{
    let length = text.len();
    if length > 0 && text[length - 1] == b'\r' {
        length - 1
    } else {
        length
    }
}

/// Whether a field is in quotes.
pub(crate) fn is_in_quotes(text: &[u8]) -> bool
    ensures { result ≡ is_in_quotes text.now }
{
    match text {
        [b'"', ..] => true,
        _ => false,
    }
}

/// Whether a byte at this place is of the content.
fn is_content(state: FieldState, byte: u8) -> bool
    ensures { result ≡ is_content state byte }
{
    match state {
        FieldState::Front | FieldState::Quoted => byte != b'"',
        FieldState::Plain | FieldState::AfterQuote => true,
    }
}

/// Appends what this byte gives to the content.
fn keep(state: FieldState, byte: u8, content: &mut Vec<u8>) -> Result<(), AllocError>
    ensures { OnOk result (content.new.items ≡ content.old.items ++ kept state byte) }
{
    if is_content(state, byte) {
        content.push(byte)?;
    }
    Ok(())
}

/// The content of a field whose content stands in it byte for byte: outside of quotes, or between
/// quotes of which none stands for one.
pub(crate) fn content_within(text: &[u8]) -> Option<&[u8]>
    ensures { IfSome result (λ content. content.now ≡ content_from Front text.now) }
{
    if !is_in_quotes(text) {
        return Some(text);
    }
    let (_quote, rest) = text.split_at(1);
    let n = memchr(b'"', rest)?;
    if n + 1 < rest.len() {
        return None;
    }
    Some(rest.split_at(n).0)
}

/// The content of a field.
pub(crate) fn content_of(alloc: Global, text: &[u8]) -> Result<Vec<u8>, AllocError>
    ensures { IfOk result (λ content. content.items ≡ content_from Front text.now) }
{
    let mut content = Vec::new(alloc);
    let mut state = FieldState::Front;
    for byte in text {
        keep(state, *byte, &mut content)?;
        state = csv_state(state, *byte);
    }
    Ok(content)
}

/// Whether a byte is a quote, the delimiter, or the byte that ends a line.
fn is_special(delimiter: u8, end: u8, byte: u8) -> bool
    ensures { result ≡ is_special delimiter end byte }
{
    byte == b'"' || byte == delimiter || byte == end
}

/// Whether a text can't stand without quotes.
pub(crate) fn wants_quotes(delimiter: u8, end: u8, text: &[u8]) -> bool
    ensures { result ≡ wants_quotes delimiter end text.now }
{
    for byte in text {
        if is_special(delimiter, end, *byte) {
            return true;
        }
    }
    false
}

/// Appends a byte between quotes.
fn push_between_quotes(byte: u8, out: &mut Vec<u8>) -> Result<(), AllocError>
    ensures { OnOk result (out.new.items ≡ out.old.items ++ between_quotes byte) }
{
    if byte == b'"' {
        out.push(b'"')?;
    }
    out.push(byte)?;
    Ok(())
}

/// Appends a text with each of its quotes twice.
fn push_doubled(text: &[u8], out: &mut Vec<u8>) -> Result<(), AllocError>
    ensures { OnOk result (out.new.items ≡ out.old.items ++ doubled text.now) }
{
    let Some(_) = memchr(b'"', text) else {
        return out.extend_from_slice(text);
    };
    for byte in text {
        push_between_quotes(*byte, out)?;
    }
    Ok(())
}

/// Appends a text in quotes.
pub(crate) fn push_quoted(text: &[u8], out: &mut Vec<u8>) -> Result<(), AllocError>
    ensures { OnOk result (out.new.items ≡ out.old.items ++ quoted text.now) }
{
    out.push(b'"')?;
    push_doubled(text, out)?;
    out.push(b'"')?;
    Ok(())
}
