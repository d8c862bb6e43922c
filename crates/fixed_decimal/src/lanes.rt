//! Short texts, tested whole: sixteen bytes in one step.

ghost use Rattle.std.specs.Prelude.{◌≡◌, ◌+◌, ◌-◌, ◌<◌, ◌≤◌, ◌++◌, length, take, drop, replicate, ℕ};
ghost use Rattle.std.specs.List.{prefix_len, AllPass};
ghost use Rattle.std.specs.Char.{is_ascii_digit};
ghost use Rattle.fixed_decimal.specs.Text.{digit_values};

use std::simd::prelude::*;

/// How many bytes are tested in one step. A decimal of as many digits takes no memory.
pub(crate) const LANES: usize = 16;

/// The place of each lane.
const INDEXES: [u8; LANES] = [0, 1, 2, 3, 4, 5, 6, 7, 8, 9, 10, 11, 12, 13, 14, 15];

/// A text, and zeros behind it.
pub(crate) fn padded(text: &[u8]) -> [u8; LANES]
    requires { length text.now ≤ LANES }
    ensures { result ≡ text.now ++ replicate (LANES - length text.now) 0 }
{
    match text.len() {
        8.. => by_ends(text, 8),
        4..=7 => by_ends(text, 4),
        2..=3 => by_ends(text, 2),
        _ => by_ends(text, text.len()),
    }
}

/// A text, and zeros behind it, by copies of its first `part` bytes and of its last, which may
/// overlap. Where the caller gives `part` as a constant, each copy is one load and one store.
#[inline(always)]
fn by_ends(text: &[u8], part: usize) -> [u8; LANES]
    requires part { part ≤ length text.now }
    requires both { length text.now ≤ part + part }
    requires short { length text.now ≤ LANES }
    ensures { result ≡ text.now ++ replicate (LANES - length text.now) 0 }
{
    let front = with_text([0; LANES], 0, &text[..part]);
    let lane = text.len() - part;
    with_text(front, lane, &text[lane..])
}

/// Two texts one behind the other, and zeros behind them.
pub(crate) fn both_padded(front: &[u8], back: &[u8]) -> [u8; LANES]
    requires { length front.now + length back.now ≤ LANES }
    ensures { result ≡ front.now
        ++ (back.now ++ replicate (LANES - (length front.now + length back.now)) 0) }
{
    let mut lanes = [0; LANES];
    let (before, after) = lanes.split_at_mut(front.len());
    before.copy_from_slice(front);
    after[..back.len()].copy_from_slice(back);
    lanes
}

/// The lanes with a text written over them from index `lane` on.
pub(crate) fn with_text(mut lanes: [u8; LANES], lane: usize, text: &[u8]) -> [u8; LANES]
    requires { lane + length text.now ≤ LANES }
    ensures { result ≡ take lane lanes ++ (text.now ++ drop (lane + length text.now) lanes) }
{
    lanes[lane..lane + text.len()].copy_from_slice(text);
    lanes
}

/// The lanes without the one at `lane`: those behind it move up by one, and the first one goes
/// last.
pub(crate) fn without_lane(lanes: [u8; LANES], lane: usize) -> [u8; LANES]
    requires { lane < LANES }
    ensures { result ≡ take lane lanes ++ (drop (lane + 1) lanes ++ take 1 lanes) }
{
    let lanes = u8x16::from_array(lanes);
    let before = u8x16::from_array(INDEXES).simd_lt(u8x16::splat(lane as u8));
    before
        .select(lanes, lanes.rotate_elements_left::<1>())
        .to_array()
}

/// How many digits the lanes have from index `start` on, before the first byte that is no digit.
pub(crate) fn digits_from(lanes: &[u8], start: usize) -> usize
    requires lanes { length lanes.now ≡ LANES }
    requires start { start ≤ LANES }
    ensures { result ≡ prefix_len is_ascii_digit (drop start lanes.now) }
{
    let values = u8x16::from_slice(lanes) - u8x16::splat(b'0');
    let others = values.simd_ge(u8x16::splat(10)).to_bitmask() >> start;
    if others == 0 {
        LANES - start
    } else {
        others.trailing_zeros() as usize
    }
}

/// How many digits a text has from index `start` on, before the first byte that is no digit. Only
/// its lanes are read; the text is an argument for the contract.
pub(crate) fn digits_in(text: &[u8], lanes: &[u8], start: usize) -> usize
    requires short { length text.now ≤ LANES }
    requires lanes { lanes.now ≡ text.now ++ replicate (LANES - length text.now) 0 }
    requires start { start ≤ length text.now }
    ensures count { result ≡ prefix_len is_ascii_digit (drop start text.now) }
    ensures within { result + start ≤ length text.now }
{
    let _ = text;
    digits_from(lanes, start)
}

/// The values of the lanes that are digits; of the others nothing is said.
pub(crate) fn values_of(lanes: &[u8]) -> [u8; LANES]
    requires { length lanes.now ≡ LANES }
    ensures { (n : ℕ) → AllPass is_ascii_digit (take n lanes.now)
        → take n result ≡ digit_values (take n lanes.now) }
{
    (u8x16::from_slice(lanes) - u8x16::splat(b'0')).to_array()
}
