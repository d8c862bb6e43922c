//! Digits in groups, as bytes: where each digit and the separator are one byte, room is asked for
//! once.
ghost use Rattle.std.specs.Prelude.{◌≡◌, ◌+◌, ◌*◌, ◌<◌, ◌≤◌, ◌∷◌, ◌++◌, [], All, IsTrue, OnErr, OnOk, length, take, vec_len, vec_capacity};
ghost use Rattle.writeable.specs.Events.{digit_events, text_of};
ghost use Rattle.writeable.specs.Groups.{cut, joined, group_texts};

use crate::groups::{first_group, next_group};
use crate::sink::WriteFault;
use std::mem;

/// How many digits stand in a group of thousands.
const THOUSANDS: usize = 3;

/// Whether each of the characters is one byte. All ten are tested, so that the loop has no other
/// branch than its own.
pub(crate) fn are_ascii(characters: &[char; 10]) -> bool
    ensures { IsTrue result → All (λ c. c < 128) characters.now }
{
    let mut ascii = true;
    for character in characters {
        ascii &= character.is_ascii();
    }
    ascii
}

/// Whether there is room for that many bytes more.
#[inline(always)]
fn has_room(out: &Vec<u8>, count: usize) -> bool
    ensures { IsTrue result → vec_len out.now + count ≤ vec_capacity out.now }
{
    count <= out.capacity() - out.len()
}

/// Appends digits; room is asked for once.
pub(crate) fn push_byte_digits(
    out: &mut Vec<u8>,
    digits: &[u8],
    characters: &[char; 10],
) -> Result<(), WriteFault>
    requires below_ten { All (λ d. d < 10) digits.now }
    requires ascii { All (λ c. c < 128) characters.now }
    ensures ok { OnOk result (out.new.items ≡ out.old.items
        ++ text_of (digit_events characters.now digits.now)) }
    ensures err { OnErr result (out.new.items ≡ out.old.items) }
{
    if !has_room(out, digits.len()) {
        return push_more_digits(out, digits, characters);
    }
    append_ascii(out, digits, characters);
    Ok(())
}

/// Appends digits where room is missing. It is a function of its own, so that `push_byte_digits` is
/// short.
#[inline(never)]
fn push_more_digits(
    out: &mut Vec<u8>,
    digits: &[u8],
    characters: &[char; 10],
) -> Result<(), WriteFault>
    requires below_ten { All (λ d. d < 10) digits.now }
    requires ascii { All (λ c. c < 128) characters.now }
    ensures ok { OnOk result (out.new.items ≡ out.old.items
        ++ text_of (digit_events characters.now digits.now)) }
    ensures err { OnErr result (out.new.items ≡ out.old.items) }
{
    let Ok(()) = out.reserve(digits.len()) else {
        return Err(WriteFault);
    };
    append_ascii(out, digits, characters);
    Ok(())
}

/// Appends digits, for which there is room.
#[inline(always)]
fn append_ascii(out: &mut Vec<u8>, digits: &[u8], characters: &[char; 10])
    requires below_ten { All (λ d. d < 10) digits.now }
    requires ascii { All (λ c. c < 128) characters.now }
    requires room { vec_len out.old + length digits.now ≤ vec_capacity out.old }
    ensures { out.new.items ≡ out.old.items ++ text_of (digit_events characters.now digits.now) }
{
    let alloc = *out.allocator();
    let taken = mem::replace(out, Vec::new(alloc));
    *out = push_ascii(taken, digits, characters);
}

/// Appends digits in groups, with the separator between two; room is asked for once.
pub(crate) fn push_byte_groups(
    out: &mut Vec<u8>,
    digits: &[u8],
    primary: usize,
    secondary: usize,
    separator: u8,
    characters: &[char; 10],
) -> Result<(), WriteFault>
    requires primary { 0 < primary }
    requires secondary { 0 < secondary }
    requires below_ten { All (λ d. d < 10) digits.now }
    requires ascii { All (λ c. c < 128) characters.now }
    ensures ok { OnOk result (out.new.items ≡ out.old.items
        ++ joined (separator ∷ [])
        (group_texts characters.now (cut primary secondary digits.now))) }
    ensures err { OnErr result (out.new.items ≡ out.old.items) }
{
    // at most one separator stands before each digit
    let Ok(()) = out.reserve(2 * digits.len()) else {
        return Err(WriteFault);
    };
    let alloc = *out.allocator();
    let taken = mem::replace(out, Vec::new(alloc));
    if primary == THOUSANDS && secondary == THOUSANDS {
        *out = push_thousands(taken, digits, separator, characters);
        return Ok(());
    }
    *out = push_sizes(taken, digits, primary, secondary, separator, characters);
    Ok(())
}

/// Appends digits in groups of three, for which there is room.
fn push_thousands(
    mut out: Vec<u8>,
    digits: &[u8],
    separator: u8,
    characters: &[char; 10],
) -> Vec<u8>
    requires below_ten { All (λ d. d < 10) digits.now }
    requires ascii { All (λ c. c < 128) characters.now }
    requires room { vec_len out + 2 * length digits.now ≤ vec_capacity out }
    ensures { result.items ≡ out.items
        ++ joined (separator ∷ []) (group_texts characters.now (cut 3 3 digits.now)) }
{
    let first = first_group(digits.len(), THOUSANDS, THOUSANDS);
    out = push_front(out, digits, first, characters);
    let mut rest = digits.split_at(first).1;
    'groups: while rest.len() >= THOUSANDS {
        let (group, after) = rest.split_at(THOUSANDS);
        out.push_reserved(separator);
        out = push_three(out, group, characters);
        rest = after;
    }
    out
}

/// Appends digits in groups of any sizes, for which there is room.
fn push_sizes(
    mut out: Vec<u8>,
    digits: &[u8],
    primary: usize,
    secondary: usize,
    separator: u8,
    characters: &[char; 10],
) -> Vec<u8>
    requires primary { 0 < primary }
    requires secondary { 0 < secondary }
    requires below_ten { All (λ d. d < 10) digits.now }
    requires ascii { All (λ c. c < 128) characters.now }
    requires room { vec_len out + 2 * length digits.now ≤ vec_capacity out }
    ensures { result.items ≡ out.items
        ++ joined (separator ∷ []) (group_texts characters.now (cut primary secondary digits.now)) }
{
    let (first, mut rest) = digits.split_at(first_group(digits.len(), primary, secondary));
    out = push_ascii(out, first, characters);
    'groups: while !rest.is_empty() {
        let (group, after) = rest.split_at(next_group(rest.len(), primary, secondary));
        out.push_reserved(separator);
        out = push_ascii(out, group, characters);
        rest = after;
    }
    out
}

/// Appends the characters of the first `count` digits, three at most.
#[inline(always)]
fn push_front(out: Vec<u8>, digits: &[u8], count: usize, characters: &[char; 10]) -> Vec<u8>
    requires count { count ≤ 3 }
    requires inside { count ≤ length digits.now }
    requires below_ten { All (λ d. d < 10) digits.now }
    requires ascii { All (λ c. c < 128) characters.now }
    requires room { vec_len out + 2 * length digits.now ≤ vec_capacity out }
    ensures items { result.items ≡ out.items
        ++ text_of (digit_events characters.now (take count digits.now)) }
    ensures len { vec_len result ≡ vec_len out + count }
    ensures capacity { vec_capacity result ≡ vec_capacity out }
{
    if digits.len() > THOUSANDS {
        push_first(out, digits, count, characters)
    } else {
        push_ascii(out, digits.split_at(count).0, characters)
    }
}

/// Appends the characters of the first `count` digits, three at most: four are written, and the
/// rest is cut off again, so that no jump asks how many there are.
#[inline(always)]
fn push_first(mut out: Vec<u8>, digits: &[u8], count: usize, characters: &[char; 10]) -> Vec<u8>
    requires count { count ≤ 3 }
    requires four { 4 ≤ length digits.now }
    requires below_ten { All (λ d. d < 10) digits.now }
    requires ascii { All (λ c. c < 128) characters.now }
    requires room { vec_len out + 4 ≤ vec_capacity out }
    ensures items { result.items ≡ out.items
        ++ text_of (digit_events characters.now (take count digits.now)) }
    ensures len { vec_len result ≡ vec_len out + count }
    ensures capacity { vec_capacity result ≡ vec_capacity out }
{
    let end = out.len() + count;
    out.push_reserved(characters[digits[0] as usize] as u8);
    out.push_reserved(characters[digits[1] as usize] as u8);
    out.push_reserved(characters[digits[2] as usize] as u8);
    out.push_reserved(characters[digits[3] as usize] as u8);
    out.truncate(end);
    out
}

/// Appends the characters of three digits.
#[inline(always)]
fn push_three(mut out: Vec<u8>, digits: &[u8], characters: &[char; 10]) -> Vec<u8>
    requires three { length digits.now ≡ 3 }
    requires below_ten { All (λ d. d < 10) digits.now }
    requires ascii { All (λ c. c < 128) characters.now }
    requires room { vec_len out + 3 ≤ vec_capacity out }
    ensures items { result.items ≡ out.items ++ text_of (digit_events characters.now digits.now) }
    ensures len { vec_len result ≡ vec_len out + 3 }
    ensures capacity { vec_capacity result ≡ vec_capacity out }
{
    out.push_reserved(characters[digits[0] as usize] as u8);
    out.push_reserved(characters[digits[1] as usize] as u8);
    out.push_reserved(characters[digits[2] as usize] as u8);
    out
}

/// Appends the characters of digits.
fn push_ascii(mut out: Vec<u8>, digits: &[u8], characters: &[char; 10]) -> Vec<u8>
    requires below_ten { All (λ d. d < 10) digits.now }
    requires ascii { All (λ c. c < 128) characters.now }
    requires room { vec_len out + length digits.now ≤ vec_capacity out }
    ensures items { result.items ≡ out.items ++ text_of (digit_events characters.now digits.now) }
    ensures len { vec_len result ≡ vec_len out + length digits.now }
    ensures capacity { vec_capacity result ≡ vec_capacity out }
{
    for index in 0..digits.len() {
        out.push_reserved(characters[digits[index] as usize] as u8);
    }
    out
}
