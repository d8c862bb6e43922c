//! Byte strings as rows spell them: text, and bytes in hexadecimal digits in angle brackets, as
//! `<01 00>-+`. A document whose name ends in `.hex` has such digits alone, with comments in lines
//! that begin with `#`. A word `62:04` behind a byte string sets its byte 62 to 04, or appends it.

use rows::Documents;
use std::alloc::{AllocError, Global};

/// Appends bytes in hexadecimal digits; whether they all are.
fn push_hexadecimal(bytes: &mut Vec<u8>, text: &str) -> Result<bool, AllocError> {
    for word in text.split_ascii_whitespace() {
        match u8::from_str_radix(word, 16) {
            Ok(byte) => bytes.push(byte)?,
            Err(_) => return Ok(false),
        }
    }
    Ok(true)
}

/// The bytes of a document of hexadecimal digits.
fn bytes_of_document(alloc: Global, document: &str) -> Result<Option<Vec<u8>>, AllocError> {
    let mut bytes = Vec::new(alloc);
    for line in document.lines() {
        if !line.starts_with('#') && !push_hexadecimal(&mut bytes, line)? {
            return Ok(None);
        }
    }
    Ok(Some(bytes))
}

/// The bytes of a text with angle brackets.
fn bytes_of_text(alloc: Global, text: &str) -> Result<Option<Vec<u8>>, AllocError> {
    let mut bytes = Vec::new(alloc);
    for (index, piece) in text.split('<').enumerate() {
        let behind = match piece.split_once('>') {
            Some((digits, behind)) => {
                if !push_hexadecimal(&mut bytes, digits)? {
                    return Ok(None);
                }
                behind
            }
            None if index == 0 => piece,
            None => return Ok(None),
        };
        bytes.extend_from_slice(behind.as_bytes())?;
    }
    Ok(Some(bytes))
}

/// Sets a byte, or appends it; whether the word says which.
fn set_byte(bytes: &mut Vec<u8>, word: &str) -> Result<bool, AllocError> {
    let Some((index, value)) = word.split_once(':') else {
        return Ok(false);
    };
    let (Ok(index), Ok(value)) = (index.parse::<usize>(), u8::from_str_radix(value, 16)) else {
        return Ok(false);
    };
    if index == bytes.len() {
        bytes.push(value)?;
        return Ok(true);
    }
    match bytes.get_mut(index) {
        Some(byte) => {
            *byte = value;
            Ok(true)
        }
        None => Ok(false),
    }
}

/// The bytes that an argument spells, or the document that it names, with the changes of further
/// words.
pub(crate) fn bytes_of(
    alloc: Global,
    documents: &Documents,
    text: &str,
    changes: &[String],
) -> Result<Option<Vec<u8>>, AllocError> {
    let bytes = if text.ends_with(".hex") {
        match documents.text(text) {
            Some(document) => bytes_of_document(alloc, document)?,
            None => None,
        }
    } else {
        bytes_of_text(alloc, text)?
    };
    let Some(mut bytes) = bytes else {
        return Ok(None);
    };
    for change in changes {
        if !set_byte(&mut bytes, change)? {
            return Ok(None);
        }
    }
    Ok(Some(bytes))
}

/// Whether a byte stands for itself.
fn is_plain(byte: u8) -> bool {
    byte.is_ascii_graphic() && byte != b'<' && byte != b'>'
}

/// Bytes as they are spelled.
pub(crate) fn spelled(alloc: Global, bytes: &[u8]) -> Result<String, AllocError> {
    let mut text = String::new(alloc);
    let mut is_inside = false;
    for byte in bytes {
        if is_plain(*byte) {
            text.push_str(if is_inside { ">" } else { "" })?;
            text.push(*byte as char)?;
            is_inside = false;
        } else {
            text.push(if is_inside { ' ' } else { '<' })?;
            let digits = format!(in alloc; "{byte:02x}")?;
            text.push_str(digits.as_str())?;
            is_inside = true;
        }
    }
    text.push_str(if is_inside { ">" } else { "" })?;
    Ok(text)
}
