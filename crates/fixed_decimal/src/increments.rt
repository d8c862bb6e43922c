//! Increments: rounding to 1, 2, 5 or 25 times a power of ten.

ghost use Rattle.std.specs.Prelude.{◌≡◌, ◌+◌, ◌*◌, ◌<◌, ◌≤◌, ◌^◌, MatchBool, All, length, take, drop};
ghost use Rattle.std.specs.Ordering.{MatchOrdering};
ghost use Rattle.fixed_decimal.specs.Size.{weighed};
ghost use Rattle.fixed_decimal.specs.Increments.{step_of, tail_count, tail_of, steps_of, IsTailTaken};
ghost use Rattle.fixed_decimal.specs.RoundedBy.{RoundsUpBy, RoundsDownBy, IsOdd, IsEven};

use crate::UnsignedRoundingMode;
use crate::digits::{digit_or_zero, is_all_zero};
use crate::rounding::{against_half, ends_odd};
use std::cmp::Ordering;

/// How many times ten to the power a rounded number is a multiple of (ICU4X `RoundingIncrement`).
#[derive(Clone, Copy, Debug, PartialEq, Eq)]
pub enum RoundingIncrement {
    /// Once: the last digit is any.
    MultiplesOf1,
    /// Twice: the last digit is even.
    MultiplesOf2,
    /// Five times: the last digit is 0 or 5.
    MultiplesOf5,
    /// 25 times: the last two digits are 00, 25, 50 or 75.
    MultiplesOf25,
}

/// The number of which an increment makes multiples.
pub(crate) fn step_of(increment: RoundingIncrement) -> u8
    ensures value { result ≡ step_of increment }
    ensures some { 0 < result }
    ensures small { result ≤ 25 }
{
    match increment {
        RoundingIncrement::MultiplesOf1 => 1,
        RoundingIncrement::MultiplesOf2 => 2,
        RoundingIncrement::MultiplesOf5 => 5,
        RoundingIncrement::MultiplesOf25 => 25,
    }
}

/// How many last digits decide whether a whole number is a multiple: they are the number's tail,
/// and the digits in front of them its head.
pub(crate) fn tail_count(increment: RoundingIncrement) -> usize
    ensures value { result ≡ tail_count increment }
    ensures small { result ≤ 2 }
{
    match increment {
        RoundingIncrement::MultiplesOf1 => 0,
        RoundingIncrement::MultiplesOf2 | RoundingIncrement::MultiplesOf5 => 1,
        RoundingIncrement::MultiplesOf25 => 2,
    }
}

/// The least number with more digits than a tail.
pub(crate) fn tail_limit(increment: RoundingIncrement) -> u8
    ensures { result ≡ 10 ^ tail_count increment }
{
    match increment {
        RoundingIncrement::MultiplesOf1 => 1,
        RoundingIncrement::MultiplesOf2 | RoundingIncrement::MultiplesOf5 => 10,
        RoundingIncrement::MultiplesOf25 => 100,
    }
}

/// What a mode makes of the tail behind the first `head` digits: a multiple with as many digits, or
/// the least number that has more, a carry into the head.
pub(crate) fn tail_taken(
    digits: &[u8],
    head: usize,
    mode: UnsignedRoundingMode,
    increment: RoundingIncrement,
) -> u8
    requires inside { head < length digits.now }
    requires below_ten { All (λ d. d < 10) digits.now }
    ensures { let behind = drop (head + tail_count increment) digits.now in
        IsTailTaken mode increment (weighed 0 (take head digits.now))
        (tail_of increment digits.now head) (10 ^ length behind) (weighed 0 behind) result }
{
    let tail = tail_of(digits, head, increment);
    let step = step_of(increment);
    let steps = tail / step;
    let over = tail % step;
    let kept = (head + tail_count(increment)).min(digits.len());
    let is_odd = steps_are_odd(digits, head, steps, increment);
    if rounds_up_by_steps(digits, kept, over, step, is_odd, mode) {
        (steps + 1) * step
    } else {
        steps * step
    }
}

/// The number that the tail behind the first `head` digits writes, with zeros past the last digit.
fn tail_of(digits: &[u8], head: usize, increment: RoundingIncrement) -> u8
    requires inside { head < length digits.now }
    requires below_ten { All (λ d. d < 10) digits.now }
    ensures value { result ≡ tail_of increment digits.now head }
    ensures small { result < 10 ^ tail_count increment }
{
    match increment {
        RoundingIncrement::MultiplesOf1 => 0,
        RoundingIncrement::MultiplesOf2 | RoundingIncrement::MultiplesOf5 => digits[head],
        RoundingIncrement::MultiplesOf25 => digits[head] * 10 + digit_or_zero(digits, head + 1),
    }
}

/// Whether the first `head` digits and a tail of `steps` steps make an odd number of steps.
fn steps_are_odd(digits: &[u8], head: usize, steps: u8, increment: RoundingIncrement) -> bool
    requires { head ≤ length digits.now }
    ensures { let count = steps_of increment (weighed 0 (take head digits.now)) steps in
        MatchBool result (IsOdd count) (IsEven count) }
{
    match increment {
        RoundingIncrement::MultiplesOf1 | RoundingIncrement::MultiplesOf2 => {
            if ends_odd(digits, head) {
                steps % 2 == 0
            } else {
                steps % 2 == 1
            }
        }
        RoundingIncrement::MultiplesOf5 | RoundingIncrement::MultiplesOf25 => steps % 2 == 1,
    }
}

/// Whether a mode rounds up a number of which `over`, less than the step, and the digits from
/// `kept` on stand behind the last whole step; `is_odd` says whether the number of steps is odd.
fn rounds_up_by_steps(
    digits: &[u8],
    kept: usize,
    over: u8,
    step: u8,
    is_odd: bool,
    mode: UnsignedRoundingMode,
) -> bool
    requires within { kept ≤ length digits.now }
    requires below_ten { All (λ d. d < 10) digits.now }
    requires below_step { over < step }
    requires small { step ≤ 25 }
    ensures { let base = 10 ^ length (drop kept digits.now) in
        let rest = over * base + weighed 0 (drop kept digits.now) in
        (q : _) → MatchBool is_odd (IsOdd q) (IsEven q) →
        MatchBool result (RoundsUpBy mode (step * base) q rest)
        (RoundsDownBy mode (step * base) q rest) }
{
    match mode {
        UnsignedRoundingMode::Expand => {
            if over > 0 {
                true
            } else {
                !is_all_zero(&digits[kept..])
            }
        }
        UnsignedRoundingMode::Trunc => false,
        UnsignedRoundingMode::HalfExpand => match against_half_step(digits, kept, over, step) {
            Ordering::Less => false,
            Ordering::Equal | Ordering::Greater => true,
        },
        UnsignedRoundingMode::HalfTrunc => match against_half_step(digits, kept, over, step) {
            Ordering::Less | Ordering::Equal => false,
            Ordering::Greater => true,
        },
        UnsignedRoundingMode::HalfEven => match against_half_step(digits, kept, over, step) {
            Ordering::Less => false,
            Ordering::Equal => is_odd,
            Ordering::Greater => true,
        },
    }
}

/// How `over` and the digits from `kept` on compare with half a step.
fn against_half_step(digits: &[u8], kept: usize, over: u8, step: u8) -> Ordering
    requires within { kept ≤ length digits.now }
    requires below_ten { All (λ d. d < 10) digits.now }
    requires below_step { over < step }
    requires small { step ≤ 25 }
    ensures { let base = 10 ^ length (drop kept digits.now) in
        let rest = over * base + weighed 0 (drop kept digits.now) in
        MatchOrdering result (2 * rest < step * base) (2 * rest ≡ step * base)
        (step * base < 2 * rest) }
{
    let twice = 2 * over;
    if twice > step {
        return Ordering::Greater;
    }
    if twice == step {
        if is_all_zero(&digits[kept..]) {
            return Ordering::Equal;
        }
        return Ordering::Greater;
    }
    if twice + 1 < step {
        return Ordering::Less;
    }
    if kept == digits.len() {
        return Ordering::Less;
    }
    against_half(digits, kept)
}
