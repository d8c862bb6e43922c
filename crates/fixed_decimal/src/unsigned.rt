//! Decimals without a sign.

ghost use Rattle.std.specs.Prelude.{false, ◌≡◌, ◌<◌, ◌↔◌, All, IsTrue};
ghost use Rattle.std.specs.Range.{range_inclusive_start, range_inclusive_end, range_inclusive_exhausted};

use crate::digits::{Digits, digit_or_zero, is_all_zero, leading_zeros};
use std::marker::Model;
use std::ops::RangeInclusive;

/// A decimal without a sign: a written range of powers that includes 0, and a digit at each power
/// of the range.
///
/// `0012`, `12` and `12.0` are the same number and three values: leading and trailing zeros are
/// written digits.
#[derive(Debug, Drop)]
pub struct UnsignedDecimal {
    /// The digits, from the greatest power down.
    pub(crate) digits: Digits,
    /// How many of them stand below power 0.
    pub(crate) scale: u16,
}

impl Model for UnsignedDecimal {
    ghost use Rattle.fixed_decimal.specs.Unsigned.{Unsigned, IsUnsigned};

    ghost Value = { Unsigned };

    ghost view = { λ a. record { digits = a.digits.items; scale = a.scale } };

    ghost invariant = { λ a. IsUnsigned (record { digits = a.digits.items; scale = a.scale }) };
}

impl UnsignedDecimal {
    ghost use Rattle.fixed_decimal.specs.Unsigned.{IsUnsigned, digit_at, high, low, integer, fraction};
    ghost use Rattle.fixed_decimal.specs.Size.{size, magnitude};

    /// The least and the greatest written power (ICU4X `magnitude_range`).
    pub fn magnitude_range(&self) -> RangeInclusive<i16>
        ensures low { range_inclusive_start result ≡ low self.now }
        ensures high { range_inclusive_end result ≡ high self.now }
        ensures unspent { range_inclusive_exhausted result ≡ false }
        ensures valid { IsUnsigned self.now }
    {
        let integer_count = self.digits.len() - self.scale as usize;
        let low = (-(self.scale as i32)) as i16;
        let high = (integer_count - 1) as i16;
        low..=high
    }

    /// The power of the first digit that is not 0, and 0 for zero (ICU4X
    /// `nonzero_magnitude_start`).
    // promise: It is the power of the first digit other than 0, or 0.
    // mutations: nonzero_magnitude_start_of_the_written_range
    pub fn nonzero_magnitude_start(&self) -> i16
        ensures power { result ≡ magnitude (size self.now) }
        ensures valid { IsUnsigned self.now }
    {
        let integer_count = self.digits.len() - self.scale as usize;
        let first = leading_zeros(&self.digits);
        if first == self.digits.len() {
            return 0;
        }
        (integer_count as i32 - 1 - first as i32) as i16
    }

    /// The digit at a power, 0 outside the written range (ICU4X `digit_at`).
    // promise: Each power has its digit, and 0 outside the written range.
    // mutations: digit_at_one_power_off
    pub fn digit_at(&self, power: i16) -> u8
        ensures digit { result ≡ digit_at self.now power }
        ensures below_ten { result < 10 }
        ensures valid { IsUnsigned self.now }
    {
        let integer_count = (self.digits.len() - self.scale as usize) as i32;
        let index = integer_count - 1 - power as i32;
        if index < 0 {
            return 0;
        }
        digit_or_zero(&self.digits, index as usize)
    }

    /// The written digits at power 0 and above, from the greatest power down.
    pub fn integer(&self) -> &[u8]
        ensures digits { result.now ≡ integer self.now }
        ensures below_ten { All (λ d. d < 10) result.now }
        ensures valid { IsUnsigned self.now }
    {
        self.digits
            .split_at(self.digits.len() - self.scale as usize)
            .0
    }

    /// The written digits below power 0, from power -1 down.
    pub fn fraction(&self) -> &[u8]
        ensures digits { result.now ≡ fraction self.now }
        ensures below_ten { All (λ d. d < 10) result.now }
        ensures valid { IsUnsigned self.now }
    {
        self.digits
            .split_at(self.digits.len() - self.scale as usize)
            .1
    }

    /// Whether the number is zero, whatever its written range (ICU4X `is_zero`).
    // promise: It is true exactly where the size is zero.
    // mutations: is_zero_by_the_first_digit
    pub fn is_zero(&self) -> bool
        ensures zero { IsTrue result ↔ (size self.now ≡ 0) }
        ensures valid { IsUnsigned self.now }
    {
        is_all_zero(&self.digits)
    }
}
