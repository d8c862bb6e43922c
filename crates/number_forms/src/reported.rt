//! A text as a note shows it.

ghost use Rattle.std.specs.Prelude.{◌≡◌, ◌++◌, OnOk, chars, codes, decimal, length, map};
ghost use Rattle.std.specs.List.{list_all};
ghost use Rattle.std.specs.Char.{is_ascii_whitespace};
ghost use Rattle.number_forms.specs.Characters.{from_byte};
ghost use Rattle.number_forms.specs.Reported.{length_text, reported, shortened};

use crate::characters::{push_bytes, push_characters};
use itoa::Buffer;
use std::alloc::AllocError;
use std::str;

/// How many characters of a text are shown at most, where it isn't cut.
const MOST: usize = 60;

/// How many of its first characters, and of its last ones, are shown of a longer text.
const KEPT: usize = 28;

/// Whether a text has nothing to show.
fn is_blank(text: &[u8]) -> bool
    ensures { result ≡ list_all is_ascii_whitespace text.now }
{
    text.iter().all(|byte| byte.is_ascii_whitespace())
}

/// Appends a number.
fn push_decimal(number: usize, out: &mut Vec<u8>) -> Result<(), AllocError>
    ensures { OnOk result (out.new.items ≡ out.old.items ++ decimal number) }
{
    let mut digits = Buffer::new();
    out.extend_from_slice(digits.format(number).as_bytes())
}

/// Appends how long a text is that is cut.
#[tactic(auto, unfolding(crate::specs::Reported::length_text))]
fn push_length(count: usize, out: &mut Vec<u8>) -> Result<(), AllocError>
    ensures { OnOk result (out.new.items ≡ out.old.items ++ length_text count) }
{
    out.extend_from_slice(b" (")?;
    push_decimal(count, out)?;
    out.extend_from_slice(b" characters)")?;
    Ok(())
}

/// How many characters a text has.
fn count_of(text: &str) -> usize
    ensures { result ≡ length (chars text.now) }
{
    text.chars().count()
}

/// Appends a text of UTF-8.
fn push_text(text: &str, out: &mut Vec<u8>) -> Result<(), AllocError>
    ensures { OnOk result (out.new.items ≡ out.old.items ++ shortened (chars text.now)) }
{
    let count = count_of(text);
    if count <= MOST {
        return push_characters(text, 0, count, out);
    }
    push_characters(text, 0, KEPT, out)?;
    out.extend_from_slice(b"..")?;
    push_characters(text, count - KEPT, KEPT, out)?;
    push_length(count, out)?;
    Ok(())
}

/// Appends a text that isn't UTF-8.
fn push_unreadable(text: &[u8], out: &mut Vec<u8>) -> Result<(), AllocError>
    ensures { OnOk result (out.new.items ≡ out.old.items ++ shortened (map from_byte text.now)) }
{
    let count = text.len();
    if count <= MOST {
        return push_bytes(text, out);
    }
    push_bytes(text.split_at(KEPT).0, out)?;
    out.extend_from_slice(b"..")?;
    push_bytes(text.split_at(count - KEPT).1, out)?;
    push_length(count, out)?;
    Ok(())
}

/// Appends a text of the input as notes and explanations show it (this project's own), so that it
/// takes part of a line, whatever it holds.
///
/// Blanks alone are `(empty)`. A question mark stands for each control character of Unicode: those
/// that end a line, that aren't seen, and that turn the text around them; and in a text that isn't
/// UTF-8 for each byte that isn't ASCII. A text of more than 60 characters is cut in its middle:
/// its first 28, `..`, its last 28, and how many it has. No more than what is shown is copied.
/// Without memory some bytes of it may stand there.
// promise: A text is shown without controls, and cut if it is long.
// mutations: bidi_override_shown, long_text_with_its_front_twice
#[tactic(auto, unfolding(crate::specs::Reported::reported))]
pub fn push_reported(text: &[u8], out: &mut Vec<u8>) -> Result<(), AllocError>
    ensures { OnOk result (out.new.items ≡ out.old.items ++ reported text.now) }
{
    if is_blank(text) {
        return out.extend_from_slice(b"(empty)");
    }
    match str::from_utf8(text) {
        Ok(text) => push_text(text, out),
        Err(_) => push_unreadable(text, out),
    }
}
