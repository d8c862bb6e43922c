//! Lists of digits: what they begin and end with, and zeros around them.

ghost use Rattle.std.specs.Prelude.{◌≡◌, ◌≢◌, ◌+◌, ◌-◌, ◌<◌, ◌≤◌, ◌^◌, ◌↔◌, ◌++◌, IsTrue, All, OnOk, OnErr, IsOkUnless, length, take, drop};
ghost use Rattle.std.specs.Prelude.{replicate, reverse, slice_index};
ghost use Rattle.smallvec.specs.SmallVec.{HasRoomFor, small_vec_len};

use crate::DecimalError;
use smallvec::SmallVec;

/// The digits of a decimal: short numbers keep them in the value, and take no memory.
pub(crate) type Digits = SmallVec<u8, 16>;

/// The most digits that may stand at power 0 and above, and the most below it.
pub const MAX_DIGITS: usize = 32768;

/// Whether every digit is 0.
pub fn is_all_zero(digits: &[u8]) -> bool
    ensures { IsTrue result ↔ All (λ d. d ≡ 0) digits.now }
{
    digits.iter().all(|d| *d == 0)
}

/// The digit at an index, 0 past the end.
pub fn digit_or_zero(digits: &[u8], index: usize) -> u8
    ensures { result ≡ slice_index digits.now index }
{
    digits.get(index).copied().unwrap_or(0)
}

/// How many zeros the digits begin with.
pub fn leading_zeros(digits: &[u8]) -> usize
    ensures within { result ≤ length digits.now }
    ensures zeros { digits.now ≡ replicate result 0 ++ drop result digits.now }
    ensures stops { result < length digits.now → slice_index digits.now result ≢ 0 }
{
    let mut first = 0;
    while first < digits.len() && digits[first] == 0 {
        first += 1;
    }
    first
}

/// How many digits are left without the zeros at their end; the first `least` digits stay in any
/// case.
pub fn without_zeros(digits: &[u8], least: usize) -> usize
    requires { least ≤ length digits.now }
    ensures least { least ≤ result }
    ensures within { result ≤ length digits.now }
    ensures zeros { digits.now ≡ take result digits.now
        ++ replicate (length digits.now - result) 0 }
    ensures stops { least < result → slice_index digits.now (result - 1) ≢ 0 }
{
    let mut left = digits.len();
    while left > least && digits[left - 1] == 0 {
        left -= 1;
    }
    left
}

/// How many of the first `kept` digits are left without the nines at their end.
pub fn without_nines(digits: &[u8], kept: usize) -> usize
    requires { kept ≤ length digits.now }
    ensures within { result ≤ kept }
    ensures nines { take kept digits.now ≡ take result digits.now ++ replicate (kept - result) 9 }
    ensures stops { 0 < result → slice_index digits.now (result - 1) ≢ 9 }
{
    let mut left = kept;
    while left > 0 && digits[left - 1] == 9 {
        left -= 1;
    }
    left
}

/// Writes `count` zeros at the end, for which there is room.
pub fn push_zeros(digits: &mut Digits, count: usize)
    requires room { HasRoomFor digits.old count }
    ensures zeros { digits.new.items ≡ digits.old.items ++ replicate count 0 }
    ensures capacity { digits.new.capacity ≡ digits.old.capacity }
{
    for _ in 0..count {
        digits.push_reserved(0);
    }
}

/// Writes zeros before and behind the digits; where memory runs out the digits are unchanged.
pub fn widen(digits: &mut Digits, front: usize, back: usize) -> Result<(), DecimalError>
    requires { small_vec_len digits.old + (front + back) < 2 ^ 32 }
    ensures items { OnOk result (digits.new.items ≡ replicate front 0
        ++ (digits.old.items ++ replicate back 0)) }
    ensures memory { IsOkUnless result DecimalError.OutOfMemory }
    ensures unchanged { OnErr result (digits.new.items ≡ digits.old.items) }
{
    digits.reserve(front + back)?;
    push_zeros(digits, back);
    push_zeros(digits, front);
    digits.rotate_right(front);
    Ok(())
}

/// Leaves out the first `count` digits.
pub fn cut_front(digits: &mut Digits, count: usize)
    requires { count ≤ small_vec_len digits.old }
    ensures { digits.new.items ≡ drop count digits.old.items }
{
    let left = digits.len() - count;
    digits.rotate_left(count);
    digits.truncate(left);
}

/// Reverses the order of the digits.
pub fn reverse_digits(digits: &mut Digits)
    ensures { digits.new.items ≡ reverse digits.old.items }
{
    digits.reverse();
}
