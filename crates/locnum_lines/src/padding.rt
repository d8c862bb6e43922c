//! Numbers that are filled up with spaces to a width.

ghost use Rattle.std.specs.Prelude.{◌≡◌, ◌+◌, ◌^◌, ◌<◌, ◌≤◌, ◌++◌, All, IsTrue, OnOk, Some, length, option_map};
ghost use Rattle.locnum_lines.specs.Padding.{columns_of, padded, spaces};
ghost use Rattle.locnum_lines.specs.Widths.{own_width, padding_width, width_by};

use crate::settings::{Delimiter, LineSettings};
use std::alloc::AllocError;
use std::str;
use unicode_width::UnicodeWidthStr;

/// Where a number stands in its columns.
#[derive(Clone, Copy, Debug, PartialEq, Eq)]
pub enum Alignment {
    /// In front of the spaces.
    Left,
    /// Behind the spaces.
    Right,
}

/// How many columns each number takes at least (`--padding` of GNU `numfmt`). A number that takes
/// more stays as it is.
#[derive(Clone, Copy, Debug, PartialEq, Eq)]
pub struct Padding {
    /// As many at least, by UAX #11 and the widths of `unicode_width`.
    pub columns: u16,
    /// Where the number stands in them.
    pub alignment: Alignment,
}

/// How many columns one number takes at least.
#[derive(Clone, Copy, Debug, PartialEq, Eq)]
pub(crate) struct Width {
    /// As many at least.
    pub(crate) columns: usize,
    /// Where the number stands in them.
    pub(crate) alignment: Alignment,
}

/// The width that all numbers have, if they have one.
pub(crate) fn padding_width(padding: Option<Padding>) -> Option<Width>
    ensures { result ≡ option_map padding_width padding }
{
    let padding = padding?;
    Some(Width {
        columns: usize::from(padding.columns),
        alignment: padding.alignment,
    })
}

/// The width that a field of this number has, which blanks end.
fn own_width(index: usize, before: &[u8], number: &[u8]) -> Option<Width>
    requires { length before.now + length number.now < 2 ^ 64 }
    ensures { result ≡ own_width index before.now number.now }
{
    if index <= 1 && before.is_empty() {
        return None;
    }
    Some(Width {
        columns: before.len() + number.len(),
        alignment: Alignment::Right,
    })
}

/// The width of a number in a field of this number, behind the blanks in front of it.
pub(crate) fn width_by(
    settings: &LineSettings,
    index: usize,
    before: &[u8],
    number: &[u8],
) -> Option<Width>
    requires { length before.now + length number.now < 2 ^ 64 }
    ensures { result
        ≡ width_by settings.now.delimiter settings.now.padding index before.now number.now }
{
    let None = settings.padding else {
        return padding_width(settings.padding);
    };
    match settings.delimiter {
        Delimiter::Blanks => own_width(index, before, number),
        Delimiter::Byte(_) | Delimiter::Csv(_) => None,
    }
}

/// Whether each byte is a printable character of ASCII, which takes one column. All bytes are
/// tested, so that the loop has no other branch than its own.
fn is_printable(text: &[u8]) -> bool
    ensures { IsTrue result → All (λ b. (32 ≤ b) × (b ≤ 126)) text.now }
{
    let mut printable = true;
    for byte in text {
        printable &= 32 <= *byte && *byte <= 126;
    }
    printable
}

/// The columns that a text takes; of bytes that aren't UTF-8, their count.
pub(crate) fn columns_of(text: &[u8]) -> usize
    ensures { result ≡ columns_of text.now }
{
    if is_printable(text) {
        return text.len();
    }
    match str::from_utf8(text) {
        Ok(text) => text.width(),
        Err(_) => text.len(),
    }
}

/// Appends that many spaces.
fn push_spaces(count: usize, out: &mut Vec<u8>) -> Result<(), AllocError>
    ensures { OnOk result (out.new.items ≡ out.old.items ++ spaces count) }
{
    let Some(length) = out.len().checked_add(count) else {
        return Err(AllocError);
    };
    out.resize(length, b' ')
}

/// Appends a text in columns of this width.
// promise: Padding counts the columns of a terminal, not bytes.
// mutations: padding_by_bytes
pub(crate) fn push_aligned(width: Width, text: &[u8], out: &mut Vec<u8>) -> Result<(), AllocError>
    ensures { OnOk result (out.new.items ≡ out.old.items ++ padded (Some width) text.now) }
{
    let missing = width.columns.saturating_sub(columns_of(text));
    match width.alignment {
        Alignment::Left => {
            out.extend_from_slice(text)?;
            push_spaces(missing, out)
        }
        Alignment::Right => {
            push_spaces(missing, out)?;
            out.extend_from_slice(text)
        }
    }
}

/// Appends a text, filled up with spaces to the columns of a padding; without a padding, the text.
pub fn push_padded(
    padding: Option<Padding>,
    text: &[u8],
    out: &mut Vec<u8>,
) -> Result<(), AllocError>
    ensures { OnOk result (out.new.items
        ≡ out.old.items ++ padded (option_map padding_width padding) text.now) }
{
    match padding_width(padding) {
        Some(width) => push_aligned(width, text, out),
        None => out.extend_from_slice(text),
    }
}
