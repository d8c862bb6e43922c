//! The characters of a text, as they are shown.

ghost use Rattle.std.specs.Prelude.{◌≡◌, ◌<◌, ◌++◌, OnOk, chars, drop, map, take};
ghost use Rattle.std.specs.Char.{encode_utf8};
ghost use Rattle.number_forms.specs.Characters.{from_byte, is_hidden, visible, visible_text};

use std::alloc::AllocError;

/// Whether a character isn't seen, ends a line, or turns the text around it.
fn is_hidden(character: char) -> bool
    ensures { result ≡ is_hidden character }
{
    match character {
        '\0'..='\u{1f}' => true,
        '\u{7f}'..='\u{9f}' => true,
        '\u{61c}' => true,
        '\u{200e}'..='\u{200f}' => true,
        '\u{2028}'..='\u{202e}' => true,
        '\u{2066}'..='\u{2069}' => true,
        _ => false,
    }
}

/// The character that is shown in the place of one.
#[tactic(auto, unfolding(crate::specs::Characters::visible))]
fn visible(character: char) -> char
    ensures { result ≡ visible character }
{
    if is_hidden(character) { '?' } else { character }
}

/// Appends a character as it is shown.
fn push_character(character: char, out: &mut Vec<u8>) -> Result<(), AllocError>
    ensures { OnOk result (out.new.items ≡ out.old.items ++ encode_utf8 (visible character)) }
{
    let mut room = [0; 4];
    out.extend_from_slice(visible(character).encode_utf8(&mut room).as_bytes())
}

/// Appends that many characters of a text from one on.
pub(crate) fn push_characters(
    text: &str,
    start: usize,
    count: usize,
    out: &mut Vec<u8>,
) -> Result<(), AllocError>
    ensures { OnOk result (out.new.items ≡ out.old.items
        ++ visible_text (take count (drop start (chars text.now)))) }
{
    for character in text.chars().skip(start).take(count) {
        push_character(character, out)?;
    }
    Ok(())
}

/// The byte that is shown in the place of one, where bytes aren't UTF-8.
#[tactic(auto, unfolding(crate::specs::Characters::visible))]
fn visible_byte(byte: u8) -> u8
    ensures small { result < 128 }
    ensures value { result ≡ visible (from_byte byte) }
{
    if byte < 32 || byte >= 127 { b'?' } else { byte }
}

/// Appends bytes that aren't UTF-8.
pub(crate) fn push_bytes(bytes: &[u8], out: &mut Vec<u8>) -> Result<(), AllocError>
    ensures { OnOk result (out.new.items ≡ out.old.items
        ++ visible_text (map from_byte bytes.now)) }
{
    for byte in bytes {
        out.push(visible_byte(*byte))?;
    }
    Ok(())
}
