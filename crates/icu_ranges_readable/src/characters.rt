//! Tests of the characters of texts.

ghost use Rattle.std.specs.Prelude.{◌≡◌, IfOk, chars};
ghost use Rattle.std.specs.String.{string_bytes};
ghost use Rattle.icu_ranges_readable.specs.Characters.{begins_visibly, begins_with_space, has, has_any, has_mark, is_mark, until};

use icu_decimal_symbols::DecimalSymbols;
use std::alloc::{AllocError, Global};

/// Whether a character is one of some.
pub(crate) fn is_among(character: char, characters: &[char]) -> bool
    ensures { result ≡ has character characters.now }
{
    for found in characters {
        if *found == character {
            return true;
        }
    }
    false
}

/// Whether a character stands in a text.
fn has(character: char, text: &str) -> bool
    ensures { result ≡ has character (chars text.now) }
{
    for found in text.chars() {
        if found == character {
            return true;
        }
    }
    false
}

/// Whether one of some characters stands in a text.
pub(crate) fn has_any(characters: &[char], text: &str) -> bool
    ensures { result ≡ has_any characters.now (chars text.now) }
{
    for character in characters {
        if has(*character, text) {
            return true;
        }
    }
    false
}

/// Whether a text has a first character that isn't a space.
pub(crate) fn begins_visibly(text: &str) -> bool
    ensures { result ≡ begins_visibly (chars text.now) }
{
    match text.chars().next() {
        Some(character) => character != ' ',
        None => false,
    }
}

/// Whether the first character of a text is a space.
pub(crate) fn begins_with_space(text: &str) -> bool
    ensures { result ≡ begins_with_space (chars text.now) }
{
    match text.chars().next() {
        Some(character) => character == ' ',
        None => false,
    }
}

/// The characters of a text in front of the first such character.
pub(crate) fn text_until(alloc: Global, character: char, text: &str) -> Result<String, AllocError>
    ensures { IfOk result (λ t. chars (string_bytes t) ≡ until character (chars text.now)) }
{
    let mut front = String::new(alloc);
    for found in text.chars() {
        if found == character {
            return Ok(front);
        }
        front.push(found)?;
    }
    Ok(front)
}

/// Whether a character isn't a space, and stands in neither separator of numbers.
fn is_mark(symbols: &DecimalSymbols, character: char) -> bool
    ensures { result ≡ is_mark symbols.now.strings character }
{
    if character == ' ' || has(character, symbols.decimal_separator()) {
        return false;
    }
    !has(character, symbols.grouping_separator())
}

/// Whether some character of a text is such a mark.
pub(crate) fn has_mark(symbols: &DecimalSymbols, text: &str) -> bool
    ensures { result ≡ has_mark symbols.now.strings (chars text.now) }
{
    for character in text.chars() {
        if is_mark(symbols, character) {
            return true;
        }
    }
    false
}
