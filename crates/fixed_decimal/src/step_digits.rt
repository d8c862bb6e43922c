//! Digits as rounding by an increment leaves them.

ghost use Rattle.std.specs.Prelude.{◌≡◌, ◌+◌, ◌<◌, ◌≤◌, ◌++◌, None, OnOk, OnErr};
ghost use Rattle.smallvec.specs.SmallVec.{HasRoomFor, small_vec_len};
ghost use Rattle.fixed_decimal.specs.Increments.{tail_digits, steps_left};

use crate::RoundingIncrement;
use crate::digits::{Digits, push_zeros};
use crate::rounded_digits::{RoundedDigits, TOO_MANY_DIGITS};
use std::alloc::AllocError;

/// Digits as rounding by an increment leaves them: those of a head, then those of a tail, then
/// zeros.
#[derive(Clone, Copy)]
pub(crate) struct StepDigits {
    pub(crate) head: RoundedDigits,
    pub(crate) increment: RoundingIncrement,
    pub(crate) tail: u8,
    pub(crate) zeros: usize,
}

impl StepDigits {
    /// The first digits and then zeros, without a tail, as by the increment of 1.
    pub(crate) fn cut(kept: usize, zeros: usize) -> Self
        ensures { result ≡ record {
          head = record { kept = kept; raised = None; zeros = zeros };
          increment = RoundingIncrement.MultiplesOf1;
          tail = 0;
          zeros = 0;
        } }
    {
        StepDigits {
            head: RoundedDigits::cut(kept, zeros),
            increment: RoundingIncrement::MultiplesOf1,
            tail: 0,
            zeros: 0,
        }
    }

    /// Turns a value's digits into these; where memory runs out they are unchanged.
    pub(crate) fn leave(self, digits: &mut Digits) -> Result<(), AllocError>
        requires kept { self.head.kept ≤ small_vec_len digits.old }
        requires small { self.head.kept + self.head.zeros + self.zeros < TOO_MANY_DIGITS }
        ensures items { OnOk result (digits.new.items
            ≡ steps_left digits.old.items self.head.kept self.head.raised self.head.zeros
            self.increment self.tail self.zeros) }
        ensures unchanged { OnErr result (digits.new.items ≡ digits.old.items) }
    {
        let StepDigits {
            head,
            increment,
            tail,
            zeros,
        } = self;
        let count = head.kept + head.zeros + zeros + 3;
        digits.reserve(count.saturating_sub(digits.len()))?;
        digits.truncate(head.kept);
        head.push_rest(digits);
        push_tail(digits, increment, tail);
        push_zeros(digits, zeros);
        Ok(())
    }
}

/// Appends the digits of a tail, for which there is room.
fn push_tail(digits: &mut Digits, increment: RoundingIncrement, tail: u8)
    requires { HasRoomFor digits.old 2 }
    ensures items { digits.new.items ≡ digits.old.items ++ tail_digits increment tail }
    ensures capacity { digits.new.capacity ≡ digits.old.capacity }
{
    match increment {
        RoundingIncrement::MultiplesOf1 => {}
        RoundingIncrement::MultiplesOf2 | RoundingIncrement::MultiplesOf5 => {
            digits.push_reserved(tail);
        }
        RoundingIncrement::MultiplesOf25 => {
            digits.push_reserved(tail / 10);
            digits.push_reserved(tail % 10);
        }
    }
}
