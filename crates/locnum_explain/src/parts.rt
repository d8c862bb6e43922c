//! The parts of a text: each underlined, or each by itself.

ghost use Rattle.std.specs.Prelude.{◌≡◌, ◌++◌, ◌-◌, OnOk, drop, map, take};
ghost use Rattle.std.specs.List.{flat_map, list_all};
ghost use Rattle.writeable.specs.PartSpans.{span};
ghost use Rattle.locnum_explain.specs.Columns.{columns_of};
ghost use Rattle.locnum_explain.specs.Parts.{are_marked, has_room, listed_line, mark_line, part_line, parts_lines};

use crate::columns::{column_at, columns_of, is_turned};
use crate::repeating::push_times;
use std::alloc::AllocError;
use writeable::Part;

/// How many bytes a name and the spaces behind it take, where parts are listed.
const LISTED: usize = 11;

/// Appends the line that marks a part under the text.
fn push_mark_line(
    text: &[u8],
    part: &(usize, usize, Part),
    out: &mut Vec<u8>,
) -> Result<(), AllocError>
    ensures { OnOk result (out.new.items ≡ out.old.items ++ mark_line text.now (span part.now)) }
{
    let start = column_at(text, part.0);
    let end = column_at(text, part.1);
    out.extend_from_slice(b"  ")?;
    push_times(b' ', start, out)?;
    push_times(b'^', end.saturating_sub(start), out)?;
    push_times(b' ', columns_of(text).saturating_sub(end), out)?;
    out.extend_from_slice(b"  ")?;
    out.extend_from_slice(part.2.value.as_bytes())?;
    out.push(b'\n')?;
    Ok(())
}

/// The bytes of a text from one to another.
fn bytes_between(text: &[u8], start: usize, end: usize) -> &[u8]
    ensures { result.now ≡ take (end - start) (drop start text.now) }
{
    let behind = text.split_at(start.min(text.len())).1;
    behind
        .split_at(end.saturating_sub(start).min(behind.len()))
        .0
}

/// Appends the line with the name of a part and its bytes.
fn push_listed_line(
    text: &[u8],
    part: &(usize, usize, Part),
    out: &mut Vec<u8>,
) -> Result<(), AllocError>
    ensures { OnOk result (out.new.items ≡ out.old.items
        ++ listed_line text.now (span part.now)) }
{
    let name = part.2.value.as_bytes();
    out.extend_from_slice(b"  ")?;
    out.extend_from_slice(name)?;
    push_times(b' ', LISTED.saturating_sub(name.len()), out)?;
    out.extend_from_slice(bytes_between(text, part.0, part.1))?;
    out.push(b'\n')?;
    Ok(())
}

/// Appends the line of a part.
fn push_part_line(
    is_marked: bool,
    text: &[u8],
    part: &(usize, usize, Part),
    out: &mut Vec<u8>,
) -> Result<(), AllocError>
    ensures { OnOk result (out.new.items ≡ out.old.items
        ++ part_line is_marked text.now (span part.now)) }
{
    if is_marked {
        push_mark_line(text, part, out)
    } else {
        push_listed_line(text, part, out)
    }
}

/// Whether the line that marks a part isn't wider than that many columns.
fn has_room(columns: usize, width: usize, part: &(usize, usize, Part)) -> bool
    ensures { result ≡ has_room columns width (span part.now) }
{
    let name = part.2.value.len();
    match width.checked_sub(4) {
        Some(room) => match room.checked_sub(name) {
            Some(room) => columns <= room,
            None => false,
        },
        None => false,
    }
}

/// Whether each line that marks a part has room.
fn have_room(columns: usize, width: usize, parts: &[(usize, usize, Part)]) -> bool
    ensures { result ≡ list_all (λ s. has_room columns width (span s)) parts.now }
{
    parts.iter().all(|part| has_room(columns, width, part))
}

/// Whether the parts of a text are marked under it.
fn are_marked(width: usize, text: &str, parts: &[(usize, usize, Part)]) -> bool
    ensures { result ≡ are_marked width text.now (map span parts.now) }
{
    have_room(columns_of(text.as_bytes()), width, parts) && !is_turned(text)
}

/// Appends the text in a line, and for each of its parts a line that marks it there (this project's
/// own).
///
/// The text begins in column 2. A part is marked by `^` in its columns, by UAX #11 and the widths
/// of `unicode_width`, and its name stands behind the columns of the text, so wide and combining
/// characters keep the marks in their places. Where a line of a part would be wider than `width`
/// columns, or the text has a character that is written from right to left, each line has the name
/// of a part and its bytes instead. Nothing is coloured. Parts are given by the bytes at which they
/// start and end, as `PartsText::spans` lists them, in the order of opening. Without memory some
/// bytes of the lines may stand there.
// promise: Marks stand under each part's columns, with its name.
// mutations: parts_columns_by_bytes, parts_marked_past_the_width
#[tactic(auto, unfolding(crate::specs::Parts::parts_lines))]
pub fn push_parts(
    width: usize,
    text: &str,
    parts: &[(usize, usize, Part)],
    out: &mut Vec<u8>,
) -> Result<(), AllocError>
    ensures { OnOk result (out.new.items ≡ out.old.items
        ++ parts_lines width text.now (map span parts.now)) }
{
    let is_marked = are_marked(width, text, parts);
    out.extend_from_slice(b"  ")?;
    out.extend_from_slice(text.as_bytes())?;
    out.push(b'\n')?;
    push_part_lines(is_marked, text.as_bytes(), parts, out)
}

/// Appends the line of each part.
fn push_part_lines(
    is_marked: bool,
    text: &[u8],
    parts: &[(usize, usize, Part)],
    out: &mut Vec<u8>,
) -> Result<(), AllocError>
    ensures { OnOk result (out.new.items ≡ out.old.items
        ++ flat_map (part_line is_marked text.now) (map span parts.now)) }
{
    for part in parts {
        push_part_line(is_marked, text, part, out)?;
    }
    Ok(())
}
