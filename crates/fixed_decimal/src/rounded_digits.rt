//! Digits as rounding leaves them.

ghost use Rattle.std.specs.Prelude.{◌≡◌, ◌≢◌, ◌+◌, ◌-◌, ◌<◌, ◌≤◌, ◌⊎◌, ◌++◌, None, length, replicate, slice_index, option_to_list, OnOk, OnErr, IfOk, IfSome};
ghost use Rattle.smallvec.specs.SmallVec.{HasRoomFor, small_vec_len};
ghost use Rattle.fixed_decimal.specs.RoundedDigits.{digits_left};

use crate::digits::{Digits, push_zeros, without_zeros};
use smallvec::SmallVec;
use std::alloc::{AllocError, Global};

/// More digits than rounding leaves of any decimal, and few enough that sums of such counts do not
/// overflow.
pub(crate) const TOO_MANY_DIGITS: usize = 200_000;

/// Digits as rounding leaves them: the first ones of a value, then one that a carry raised, then
/// zeros.
#[derive(Clone, Copy)]
pub(crate) struct RoundedDigits {
    pub(crate) kept: usize,
    pub(crate) raised: Option<u8>,
    pub(crate) zeros: usize,
}

impl RoundedDigits {
    /// The first digits and then zeros, none of them raised.
    pub(crate) fn cut(kept: usize, zeros: usize) -> Self
        ensures { result ≡ record { kept = kept; raised = None; zeros = zeros } }
    {
        RoundedDigits {
            kept,
            raised: None,
            zeros,
        }
    }

    /// Turns a value's digits into these; where memory runs out they are unchanged.
    pub(crate) fn leave(self, digits: &mut Digits) -> Result<(), AllocError>
        requires kept { self.kept ≤ small_vec_len digits.old }
        requires small { self.kept + self.zeros < TOO_MANY_DIGITS }
        ensures items { OnOk result (digits.new.items
            ≡ digits_left digits.old.items self.kept self.raised self.zeros) }
        ensures unchanged { OnErr result (digits.new.items ≡ digits.old.items) }
    {
        let count = self.kept + self.zeros + 1;
        digits.reserve(count.saturating_sub(digits.len()))?;
        digits.truncate(self.kept);
        self.push_rest(digits);
        Ok(())
    }

    /// What rounding leaves of a value's digits, as a new list.
    pub(crate) fn gathered(self, alloc: Global, digits: &[u8]) -> Result<Digits, AllocError>
        requires kept { self.kept ≤ length digits.now }
        requires small { self.kept + self.zeros < TOO_MANY_DIGITS }
        ensures { IfOk result (λ ds.
            ds.items ≡ digits_left digits.now self.kept self.raised self.zeros) }
    {
        let mut gathered = SmallVec::from_slice(alloc, &digits[..self.kept])?;
        gathered.reserve(self.zeros + 1)?;
        self.push_rest(&mut gathered);
        Ok(gathered)
    }

    /// Appends the raised digit and the zeros, for which there is room.
    pub(crate) fn push_rest(self, digits: &mut Digits)
        requires { HasRoomFor digits.old (self.zeros + 1) }
        ensures items { digits.new.items ≡ (digits.old.items ++ option_to_list self.raised)
            ++ replicate self.zeros 0 }
        ensures capacity { digits.new.capacity ≡ digits.old.capacity }
    {
        if let Some(digit) = self.raised {
            digits.push_reserved(digit);
        }
        push_zeros(digits, self.zeros);
    }

    /// The same without those zeros at the end that are among the last `scale` digits, and how many
    /// of these `scale` digits are left.
    pub(crate) fn without_last_zeros(self, digits: &[u8], scale: usize) -> (Self, usize)
        requires kept { self.kept ≤ length digits.now }
        requires small { self.kept + self.zeros < TOO_MANY_DIGITS }
        requires raised { IfSome self.raised (λ d. d ≢ 0) }
        requires some { scale < length (digits_left digits.now self.kept self.raised self.zeros) }
        ensures kept { result.0.kept ≤ length digits.now }
        ensures small { result.0.kept + result.0.zeros < TOO_MANY_DIGITS }
        ensures scale { result.1 ≤ scale }
        ensures zeros { digits_left digits.now self.kept self.raised self.zeros
            ≡ digits_left digits.now result.0.kept result.0.raised result.0.zeros
            ++ replicate (scale - result.1) 0 }
        ensures last { let left =
            digits_left digits.now result.0.kept result.0.raised result.0.zeros in
            (result.1 ≡ 0) ⊎ (slice_index left (length left - 1) ≢ 0) }
    {
        let RoundedDigits {
            kept,
            raised,
            zeros,
        } = self;
        if zeros >= scale {
            let zeros = zeros - scale;
            return (
                RoundedDigits {
                    kept,
                    raised,
                    zeros,
                },
                0,
            );
        }
        let scale = scale - zeros;
        if raised.is_some() {
            return (
                RoundedDigits {
                    kept,
                    raised,
                    zeros: 0,
                },
                scale,
            );
        }
        let left = without_zeros(&digits[..kept], kept - scale);
        (RoundedDigits::cut(left, 0), scale - (kept - left))
    }
}
