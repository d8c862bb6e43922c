//! Bytes, as texts of rows, and what is appended to a text.

use std::alloc::{AllocError, Global};
use std::str;

/// The byte for which a character stands: U+F780 to U+F7FF are the bytes 80 to FF where these
/// aren't UTF-8.
fn lone_byte(character: char) -> Option<u8> {
    let byte = (character as u32).checked_sub(0xf700)?;
    match u8::try_from(byte) {
        Ok(byte) if byte >= 0x80 => Some(byte),
        _ => None,
    }
}

/// The bytes of a text with characters that stand for bytes.
pub(crate) fn bytes_of(alloc: Global, text: &str) -> Result<Vec<u8>, AllocError> {
    let mut bytes = Vec::new(alloc);
    let mut room = [0; 4];
    for character in text.chars() {
        match lone_byte(character) {
            Some(byte) => bytes.push(byte)?,
            None => bytes.extend_from_slice(character.encode_utf8(&mut room).as_bytes())?,
        }
    }
    Ok(bytes)
}

/// The character that stands for a byte: an ASCII byte stands for itself.
fn character_of(byte: u8) -> char {
    if byte.is_ascii() {
        return char::from(byte);
    }
    char::from_u32(0xf700 + u32::from(byte)).unwrap_or_default()
}

/// Appends the characters that stand for bytes.
fn push_characters(bytes: &[u8], text: &mut String) -> Result<(), AllocError> {
    for byte in bytes {
        text.push(character_of(*byte))?;
    }
    Ok(())
}

/// Appends the text of bytes: where they aren't UTF-8, each that isn't ASCII is the character that
/// stands for it.
pub(crate) fn push_text(bytes: &[u8], text: &mut String) -> Result<(), AllocError> {
    match str::from_utf8(bytes) {
        Ok(part) => text.push_str(part),
        Err(_) => push_characters(bytes, text),
    }
}

/// Appends a front and the text of bytes behind it, or nothing if there are no bytes.
pub(crate) fn push_behind(front: &str, bytes: &[u8], text: &mut String) -> Result<(), AllocError> {
    if bytes.is_empty() {
        return Ok(());
    }
    text.push_str(front)?;
    push_text(bytes, text)
}

/// A text if something is so, and else the empty one.
pub(crate) fn text_if(is_so: bool, text: &'static str) -> &'static str {
    if is_so { text } else { "" }
}

/// The text of bytes, as [`push_text`] appends it.
pub(crate) fn text_of(alloc: Global, bytes: &[u8]) -> Result<String, AllocError> {
    let mut text = String::new(alloc);
    push_text(bytes, &mut text)?;
    Ok(text)
}

/// What stands behind the mark that an output had before; the mark is `>`.
pub(crate) fn appended(alloc: Global, bytes: &[u8]) -> Result<String, AllocError> {
    match bytes.strip_prefix(b">") {
        Some(rest) => text_of(alloc, rest),
        None => String::from_str(alloc, "not appended"),
    }
}
