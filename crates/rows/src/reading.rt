//! Rows as lines spell them.

use crate::escapes::decoded;
use std::alloc::{AllocError, Global};

/// A row: the answer that a call with these arguments has to give.
#[derive(Debug, Drop)]
pub struct Row {
    /// The name of the call.
    pub call: String,
    /// The arguments, without quotes and with their characters in place of braces.
    pub arguments: Vec<String>,
    /// The answer that is wanted.
    pub wanted: String,
}

/// Where in a line a character stands: in a quoted argument, or not.
#[derive(Clone, Copy)]
struct WordState {
    quote: Option<char>,
    is_in_word: bool,
}

/// The place outside of any argument.
const BETWEEN: WordState = WordState {
    quote: None,
    is_in_word: false,
};

impl WordState {
    /// The place behind a character.
    fn behind(self, character: char) -> WordState {
        match self.quote {
            Some(quote) if quote == character => BETWEEN,
            Some(_) => self,
            None => match character {
                ' ' => BETWEEN,
                '"' | '\'' if !self.is_in_word => WordState {
                    quote: Some(character),
                    is_in_word: true,
                },
                _ => WordState {
                    quote: None,
                    is_in_word: true,
                },
            },
        }
    }
}

/// Where ` = ` begins, outside of quotes, or the ` =` at the end of a line.
fn end_of_arguments(line: &str) -> Option<usize> {
    let mut state = BETWEEN;
    for (at, character) in line.char_indices() {
        let is_end = state.quote.is_none()
            && line
                .get(at..)
                .is_some_and(|rest| rest.starts_with(" = ") || rest == " =");
        if is_end {
            return Some(at);
        }
        state = state.behind(character);
    }
    None
}

/// The words of the call and its arguments.
fn words_of(alloc: Global, text: &str) -> Result<Vec<String>, AllocError> {
    let mut words = Vec::new(alloc);
    let mut word = String::new(alloc);
    let mut state = BETWEEN;
    for character in text.chars() {
        let behind = state.behind(character);
        if behind.is_in_word {
            // the quote that begins an argument isn't of it
            if state.is_in_word || behind.quote.is_none() {
                word.push(character)?;
            }
        } else if state.is_in_word {
            words.push(decoded(alloc, word.as_str())?)?;
            word.clear();
        }
        state = behind;
    }
    if state.is_in_word {
        words.push(decoded(alloc, word.as_str())?)?;
    }
    Ok(words)
}

impl Row {
    /// The row that a line spells: words with spaces between them, ` = `, and the answer up to the
    /// end of the line. A word that begins with `"` or `'` ends at the next such character, and may
    /// have spaces, or nothing. In words and in the answer [`decoded`] holds. `None` if the line has no ` = `
    /// outside of quotes, or no word.
    pub fn read(alloc: Global, line: &str) -> Result<Option<Row>, AllocError> {
        let Some(end) = end_of_arguments(line) else {
            return Ok(None);
        };
        let (Some(before), Some(behind)) = (line.get(..end), line.get(end..)) else {
            return Ok(None);
        };
        let wanted = behind.strip_prefix(" = ").unwrap_or_default();
        let mut arguments = words_of(alloc, before)?;
        if arguments.is_empty() {
            return Ok(None);
        }
        let call = arguments.remove(0);
        Ok(Some(Row {
            call,
            arguments,
            wanted: decoded(alloc, wanted)?,
        }))
    }
}
