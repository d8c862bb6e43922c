//! Digits by characters of any length, in groups or not, as bytes: room is asked for once.
ghost use Rattle.std.specs.Prelude.{◌≡◌, ◌+◌, ◌*◌, ◌<◌, ◌≤◌, ◌++◌, All, OnErr, OnOk, length, vec_len, vec_capacity};
ghost use Rattle.std.specs.Char.{encode_utf8};
ghost use Rattle.std.specs.Str.{IsUtf8};
ghost use Rattle.writeable.specs.Events.{digit_events, text_of};
ghost use Rattle.writeable.specs.Groups.{cut, joined, group_texts};

use crate::groups::{Grouping, first_group, next_group};
use crate::sink::WriteFault;
use crate::wide_digits::{push_wide, widest};
use std::mem;

/// Appends digits; room is asked for once.
pub(crate) fn push_wide_digits(
    out: &mut Vec<u8>,
    digits: &[u8],
    characters: &[char; 10],
) -> Result<(), WriteFault>
    requires below_ten { All (λ d. d < 10) digits.now }
    ensures ok { OnOk result (out.new.items ≡ out.old.items
        ++ text_of (digit_events characters.now digits.now)) }
    ensures err { OnErr result (out.new.items ≡ out.old.items) }
    ensures is_text { IsUtf8 out.old.items → IsUtf8 out.new.items }
{
    let width = widest(characters);
    let Ok(()) = out.reserve(digits.len().saturating_mul(width)) else {
        return Err(WriteFault);
    };
    let alloc = *out.allocator();
    let taken = mem::replace(out, Vec::new(alloc));
    *out = push_wide(taken, digits, characters, width);
    Ok(())
}

/// Appends digits in groups, with the separator between two; room is asked for once.
pub(crate) fn push_wide_groups(
    out: &mut Vec<u8>,
    digits: &[u8],
    grouping: &Grouping<'_>,
    characters: &[char; 10],
) -> Result<(), WriteFault>
    requires primary { 0 < grouping.now.primary }
    requires secondary { 0 < grouping.now.secondary }
    requires below_ten { All (λ d. d < 10) digits.now }
    ensures ok { OnOk result (out.new.items ≡ out.old.items
        ++ joined grouping.now.separator.now
        (group_texts characters.now (cut grouping.now.primary grouping.now.secondary digits.now))) }
    ensures err { OnErr result (out.new.items ≡ out.old.items) }
    ensures is_text { IsUtf8 out.old.items → IsUtf8 out.new.items }
    ensures separator { IsUtf8 grouping.now.separator.now }
{
    let width = widest(characters);
    let separator = grouping.separator.as_bytes();
    // at most one separator stands before each digit
    let room = digits
        .len()
        .saturating_mul(width.saturating_add(separator.len()));
    let Ok(()) = out.reserve(room) else {
        return Err(WriteFault);
    };
    let alloc = *out.allocator();
    let taken = mem::replace(out, Vec::new(alloc));
    *out = push_groups(taken, digits, grouping, characters, width);
    Ok(())
}

/// Appends digits in groups, for which there is room. No character has more than `width` bytes.
fn push_groups(
    mut out: Vec<u8>,
    digits: &[u8],
    grouping: &Grouping<'_>,
    characters: &[char; 10],
    width: usize,
) -> Vec<u8>
    requires primary { 0 < grouping.now.primary }
    requires secondary { 0 < grouping.now.secondary }
    requires below_ten { All (λ d. d < 10) digits.now }
    requires widths { All (λ c. length (encode_utf8 c) ≤ width) characters.now }
    requires room { vec_len out + length digits.now * (width + length grouping.now.separator.now)
        ≤ vec_capacity out }
    ensures items { result.items ≡ out.items ++ joined grouping.now.separator.now
        (group_texts characters.now (cut grouping.now.primary grouping.now.secondary digits.now)) }
    ensures is_text { IsUtf8 out.items → IsUtf8 result.items }
{
    let (primary, secondary) = (grouping.primary, grouping.secondary);
    let separator = grouping.separator.as_bytes();
    let (first, mut rest) = digits.split_at(first_group(digits.len(), primary, secondary));
    out = push_wide(out, first, characters, width);
    'groups: while !rest.is_empty() {
        let (group, after) = rest.split_at(next_group(rest.len(), primary, secondary));
        out = push_separator(out, separator);
        out = push_wide(out, group, characters, width);
        rest = after;
    }
    out
}

/// Appends bytes, for which there is room. Most separators have one to three, and take no copy of
/// memory.
#[inline(always)]
fn push_separator(mut out: Vec<u8>, bytes: &[u8]) -> Vec<u8>
    requires room { vec_len out + length bytes.now ≤ vec_capacity out }
    ensures items { result.items ≡ out.items ++ bytes.now }
    ensures len { vec_len result ≡ vec_len out + length bytes.now }
    ensures capacity { vec_capacity result ≡ vec_capacity out }
{
    for index in 0..bytes.len() {
        out.push_reserved(bytes[index]);
    }
    out
}
