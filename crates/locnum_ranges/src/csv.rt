//! What a field of CSV contains, and how a text is written as one (RFC 4180).

ghost use Rattle.std.specs.Prelude.{◌≡◌, ◌++◌, IfOk, OnOk};
ghost use Rattle.locnum_lines.specs.Csv.{as_field, between_quotes, core_length, doubled, is_in_quotes, is_special, quoted, wants_quotes};
ghost use Rattle.locnum_ranges.specs.Contents.{content_from, is_content, kept};
ghost use Rattle.locnum_ranges.specs.declared.cutting.Place.TheVariants.{Front};

use crate::cutting::{Place, csv_place};
use std::alloc::{AllocError, Global};

/// How long a text is without a carriage return at its end.
pub(crate) fn core_length(text: &[u8]) -> usize
    ensures { result ≡ core_length text.now }
{
    let length = text.len();
    if length > 0 && text[length - 1] == b'\r' {
        length - 1
    } else {
        length
    }
}

/// Whether a field is in quotes.
pub(crate) fn is_in_quotes(text: &[u8]) -> bool
    ensures { result ≡ is_in_quotes text.now }
{
    match text {
        [b'"', ..] => true,
        _ => false,
    }
}

/// Whether a byte at this place is of the content.
fn is_content(place: Place, byte: u8) -> bool
    ensures { result ≡ is_content place byte }
{
    match place {
        Place::Front | Place::Quoted => byte != b'"',
        Place::Plain | Place::AfterQuote => true,
    }
}

/// Appends what this byte gives to the content.
fn keep(place: Place, byte: u8, content: &mut Vec<u8>) -> Result<(), AllocError>
    ensures { OnOk result (content.new.items ≡ content.old.items ++ kept place byte) }
{
    if is_content(place, byte) {
        content.push(byte)?;
    }
    Ok(())
}

/// The content of a field.
pub(crate) fn content_of(alloc: Global, text: &[u8]) -> Result<Vec<u8>, AllocError>
    ensures { IfOk result (λ content. content.items ≡ content_from Front text.now) }
{
    let mut content = Vec::new(alloc);
    let mut place = Place::Front;
    for byte in text {
        keep(place, *byte, &mut content)?;
        place = csv_place(place, *byte);
    }
    Ok(content)
}

/// Whether a byte is a quote, the delimiter, or the byte that ends a line.
fn is_special(delimiter: u8, end: u8, byte: u8) -> bool
    ensures { result ≡ is_special delimiter end byte }
{
    byte == b'"' || byte == delimiter || byte == end
}

/// Whether a text can't stand without quotes.
fn wants_quotes(delimiter: u8, end: u8, text: &[u8]) -> bool
    ensures { result ≡ wants_quotes delimiter end text.now }
{
    for byte in text {
        if is_special(delimiter, end, *byte) {
            return true;
        }
    }
    false
}

/// Appends a byte between quotes.
fn push_between_quotes(byte: u8, out: &mut Vec<u8>) -> Result<(), AllocError>
    ensures { OnOk result (out.new.items ≡ out.old.items ++ between_quotes byte) }
{
    if byte == b'"' {
        out.push(b'"')?;
    }
    out.push(byte)?;
    Ok(())
}

/// Appends a text with each of its quotes twice.
fn push_doubled(text: &[u8], out: &mut Vec<u8>) -> Result<(), AllocError>
    ensures { OnOk result (out.new.items ≡ out.old.items ++ doubled text.now) }
{
    for byte in text {
        push_between_quotes(*byte, out)?;
    }
    Ok(())
}

/// Appends a text in quotes.
fn push_quoted(text: &[u8], out: &mut Vec<u8>) -> Result<(), AllocError>
    ensures { OnOk result (out.new.items ≡ out.old.items ++ quoted text.now) }
{
    out.push(b'"')?;
    push_doubled(text, out)?;
    out.push(b'"')?;
    Ok(())
}

/// Appends a text as a field that was in quotes or not.
pub(crate) fn push_as_field(
    delimiter: u8,
    end: u8,
    was_quoted: bool,
    text: &[u8],
    out: &mut Vec<u8>,
) -> Result<(), AllocError>
    ensures { OnOk result
        (out.new.items ≡ out.old.items ++ as_field delimiter end was_quoted text.now) }
{
    if was_quoted || wants_quotes(delimiter, end, text) {
        return push_quoted(text, out);
    }
    out.extend_from_slice(text)
}
