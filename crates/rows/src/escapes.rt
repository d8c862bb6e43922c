//! Characters and repetitions in braces.

use std::alloc::{AllocError, Global};

/// The character of two to six hexadecimal digits in upper case.
fn character(digits: &str) -> Option<char> {
    let is_spelled = digits.bytes().all(|byte| byte.is_ascii_digit()
        || (b'A'..=b'F').contains(&byte));
    if !is_spelled || digits.len() < 2 || digits.len() > 6 {
        return None;
    }
    char::from_u32(u32::from_str_radix(digits, 16).ok()?)
}

/// The text and the count of `TEXT*COUNT`.
fn repetition(inside: &str) -> Option<(&str, usize)> {
    let (text, count) = inside.rsplit_once('*')?;
    if text.is_empty() {
        return None;
    }
    match count.parse() {
        Ok(count) => Some((text, count)),
        Err(_) => None,
    }
}

/// Writes what braces with this text between them stand for.
fn push_braced(decoded: &mut String, inside: &str) -> Result<(), AllocError> {
    if let Some(character) = character(inside) {
        return Ok(decoded.push(character)?);
    }
    if let Some((text, count)) = repetition(inside) {
        for _ in 0..count {
            decoded.push_str(text)?;
        }
        return Ok(());
    }
    decoded.push('{')?;
    decoded.push_str(inside)?;
    Ok(decoded.push('}')?)
}

/// A text with what a brace closes: `before` is what stands in front of the opening one, if there is
/// one.
fn closed(before: Option<String>, mut inside: String) -> Result<String, AllocError> {
    match before {
        Some(mut text) => {
            push_braced(&mut text, inside.as_str())?;
            Ok(text)
        }
        None => {
            inside.push('}')?;
            Ok(inside)
        }
    }
}

/// A text with `{A0}` for the character U+00A0, for two to six hexadecimal digits in upper case,
/// and `{9*40}` for forty nines, for any text, which may have braces too: `{1234{0A}*40}` is forty
/// lines. Other braces stand for themselves.
pub fn decoded(alloc: Global, text: &str) -> Result<String, AllocError> {
    // what stands in front of each brace that is still open
    let mut before = Vec::new(alloc);
    let mut inside = String::new(alloc);
    for character in text.chars() {
        match character {
            '{' => {
                before.push(inside)?;
                inside = String::new(alloc);
            }
            '}' => inside = closed(before.pop(), inside)?,
            other => inside.push(other)?,
        }
    }
    let mut decoded = String::new(alloc);
    for text in &before {
        decoded.push_str(text.as_str())?;
        decoded.push('{')?;
    }
    decoded.push_str(inside.as_str())?;
    Ok(decoded)
}

/// Whether a character can't be seen on a page.
fn is_unseen(character: char) -> bool {
    matches!(
        character,
        '\0'..='\u{1f}'
            | '\u{7f}'..='\u{a0}'
            | '\u{ad}'
            | '\u{61c}'
            | '\u{2000}'..='\u{200f}'
            | '\u{2028}'..='\u{202f}'
            | '\u{2060}'..='\u{206f}'
            | '\u{feff}'
    )
}

/// Writes a character as a row has it, `count` times.
fn push_run(
    alloc: Global,
    escaped: &mut String,
    character: char,
    count: usize,
) -> Result<(), AllocError> {
    if count > 20 && !is_unseen(character) {
        return push_counted(alloc, escaped, character, count);
    }
    for _ in 0..count {
        push_seen(alloc, escaped, character)?;
    }
    Ok(())
}

/// Writes `{C*N}`.
fn push_counted(
    alloc: Global,
    escaped: &mut String,
    character: char,
    count: usize,
) -> Result<(), AllocError> {
    let text = format!(in alloc; "{{{character}*{count}}}")?;
    escaped.push_str(text.as_str())
}

/// Writes a character, one that can't be seen by its number.
fn push_seen(alloc: Global, escaped: &mut String, character: char) -> Result<(), AllocError> {
    if is_unseen(character) {
        let text = format!(in alloc; "{{{:02X}}}", character as u32)?;
        escaped.push_str(text.as_str())
    } else {
        Ok(escaped.push(character)?)
    }
}

/// A text as a row has it: a character that can't be seen is in braces, and more than twenty equal
/// ones are counted.
pub fn escaped(alloc: Global, text: &str) -> Result<String, AllocError> {
    let mut escaped = String::new(alloc);
    let mut run: Option<(char, usize)> = None;
    for character in text.chars() {
        run = match run {
            Some((before, count)) if before == character => Some((before, count.saturating_add(1))),
            Some((before, count)) => {
                push_run(alloc, &mut escaped, before, count)?;
                Some((character, 1))
            }
            None => Some((character, 1)),
        };
    }
    if let Some((before, count)) = run {
        push_run(alloc, &mut escaped, before, count)?;
    }
    Ok(escaped)
}
