//! The columns of a text on a terminal.

ghost use Rattle.std.specs.Prelude.{◌≡◌};
ghost use Rattle.locnum_explain.specs.Columns.{column_at, columns_of, is_turned, runs_leftward};

use std::str;
use unicode_width::UnicodeWidthStr;

/// The columns that a text takes; of bytes that aren't UTF-8, their count.
pub(crate) fn columns_of(text: &[u8]) -> usize
    ensures { result ≡ columns_of text.now }
{
    match str::from_utf8(text) {
        Ok(text) => text.width(),
        Err(_) => text.len(),
    }
}

/// The columns that this many first bytes of a text take.
pub(crate) fn column_at(text: &[u8], bytes: usize) -> usize
    ensures { result ≡ column_at text.now bytes }
{
    columns_of(text.split_at(bytes.min(text.len())).0)
}

/// Whether a character is written from right to left, or makes a terminal do so.
fn runs_leftward(character: char) -> bool
    ensures { result ≡ runs_leftward character }
{
    match character {
        '\u{590}'..='\u{8ff}' => true,
        '\u{200f}' => true,
        '\u{202b}' => true,
        '\u{202e}' => true,
        '\u{2067}' => true,
        '\u{fb1d}'..='\u{fdff}' => true,
        '\u{fe70}'..='\u{fefc}' => true,
        '\u{10800}'..='\u{10fff}' => true,
        '\u{1e800}'..='\u{1efff}' => true,
        _ => false,
    }
}

/// Whether a terminal may turn a part of the text around.
pub(crate) fn is_turned(text: &str) -> bool
    ensures { result ≡ is_turned text.now }
{
    text.chars().any(|character| runs_leftward(character))
}
