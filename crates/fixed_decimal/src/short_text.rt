//! Reading short texts: all bytes are tested and turned into digits at once.

ghost use Rattle.std.specs.Prelude.{◌≡◌, ◌+◌, ◌-◌, ◌<◌, ◌≤◌, ◌++◌, length, take, drop, replicate, max, IfSome, IfNone, List, ℕ};
ghost use Rattle.std.specs.List.{AllPass};
ghost use Rattle.std.specs.Char.{is_ascii_digit};
ghost use Rattle.fixed_decimal.specs.Unsigned.{IsUnsigned};
ghost use Rattle.fixed_decimal.specs.Text.{digit_values, IsNumeral, IsNumber, integer_of};
ghost use Rattle.fixed_decimal.specs.ShortDigits.{short_number};

use crate::lanes::{LANES, both_padded, digits_in, padded, values_of, without_lane};

/// The digits of a short text.
#[derive(Clone, Copy)]
pub(crate) struct ShortDigits {
    /// The digits, from the greatest power down, in the first lanes.
    pub(crate) values: [u8; LANES],
    /// How many of the lanes are digits.
    pub(crate) count: usize,
    /// How many of the digits stand below power 0.
    pub(crate) scale: usize,
}

/// The digits of the number that a short text writes, if it writes one.
pub(crate) fn short_digits(text: &[u8]) -> Option<ShortDigits>
    requires { length text.now ≤ LANES }
    ensures spelled { IfSome result (λ s.
        IsNumber text.now (short_number s.values s.count s.scale)) }
    ensures valid { IfSome result (λ s. IsUnsigned (short_number s.values s.count s.scale)) }
    ensures count { IfSome result (λ s. s.count ≤ LANES) }
    ensures none { IfNone result ((before after : List ℕ) → ¬ (IsNumeral text.now before after)) }
{
    let lanes = padded(text);
    let count = digits_in(text, &lanes, 0);
    if count == text.len() {
        return if count > 0 {
            Some(whole(text, &lanes))
        } else {
            None
        };
    }
    let after = &text[count + 1..];
    if text[count] == b'.'
        && !after.is_empty()
        && digits_in(text, &lanes, count + 1) == after.len()
    {
        Some(pointed(lanes, &text[..count], after))
    } else {
        None
    }
}

/// The whole number of a text of digits; the lanes begin with the text.
fn whole(text: &[u8], lanes: &[u8]) -> ShortDigits
    requires some { 0 < length text.now }
    requires short { length text.now ≤ LANES }
    requires lanes { lanes.now ≡ text.now ++ replicate (LANES - length text.now) 0 }
    requires written { AllPass is_ascii_digit text.now }
    ensures digits { take result.count result.values ≡ digit_values text.now }
    ensures scale { result.scale ≡ 0 }
    ensures valid { IsUnsigned (short_number result.values result.count result.scale) }
    ensures count { result.count ≤ LANES }
{
    ShortDigits {
        values: values_of(lanes),
        count: text.len(),
        scale: 0,
    }
}

/// The number with these digits before and after a point; the lanes begin with those before it, and
/// those after it stand behind the point's lane.
fn pointed(lanes: [u8; LANES], before: &[u8], after: &[u8]) -> ShortDigits
    requires lanes { take (length before.now) lanes ≡ before.now }
    requires behind { take (length after.now) (drop (length before.now + 1) lanes) ≡ after.now }
    requires inside { length before.now < LANES }
    requires before_digits { AllPass is_ascii_digit before.now }
    requires after_digits { AllPass is_ascii_digit after.now }
    requires room { max 1 (length before.now) + length after.now ≤ LANES }
    ensures digits { take result.count result.values ≡ integer_of (digit_values before.now)
        ++ digit_values after.now }
    ensures scale { result.scale ≡ length after.now }
    ensures valid { IsUnsigned (short_number result.values result.count result.scale) }
    ensures count { result.count ≤ LANES }
{
    if before.is_empty() {
        return joined(both_padded(b"0", after), b"0", after);
    }
    joined(without_lane(lanes, before.len()), before, after)
}

/// The number with these digits at power 0 and above, at least one, and these below power 0; the
/// lanes begin with all of them.
fn joined(lanes: [u8; LANES], integer: &[u8], fraction: &[u8]) -> ShortDigits
    requires lanes { (rest : List ℕ) × (lanes ≡ integer.now ++ (fraction.now ++ rest)) }
    requires some { 0 < length integer.now }
    requires integer_digits { AllPass is_ascii_digit integer.now }
    requires fraction_digits { AllPass is_ascii_digit fraction.now }
    requires room { length integer.now + length fraction.now ≤ LANES }
    ensures digits { take result.count result.values ≡ integer_of (digit_values integer.now)
        ++ digit_values fraction.now }
    ensures scale { result.scale ≡ length fraction.now }
    ensures valid { IsUnsigned (short_number result.values result.count result.scale) }
    ensures count { result.count ≤ LANES }
{
    ShortDigits {
        values: values_of(&lanes),
        count: integer.len() + fraction.len(),
        scale: fraction.len(),
    }
}
