//! Rounding to a multiple of an increment, by a mode.

ghost use Rattle.std.specs.Prelude.{◌≡◌, ◌≢◌, ◌+◌, ◌-◌, ◌<◌, ◌≤◌, ◌↔◌, ◌++◌, All, MatchResult, length, take, replicate, slice_index, option_to_list, IfOk, IfErr, IfNone, IfSome};
ghost use Rattle.std.specs.Prelude.{IsErrAnd, pos, negsuc, ◌-ℤ◌, ◌≤ℤ◌};
ghost use Rattle.fixed_decimal.specs.Unsigned.{IsUnsigned};
ghost use Rattle.fixed_decimal.specs.Rounding.{scale_at};
ghost use Rattle.fixed_decimal.specs.Size.{weighed};
ghost use Rattle.fixed_decimal.specs.RoundedBy.{IsRoundedBy, IsRoundedSize, RoundsPastLimitsBy, SizeRoundsPastLimits};
ghost use Rattle.fixed_decimal.specs.Increments.{tail_count, unit_of, steps_left};

use crate::digits::{MAX_DIGITS, without_nines};
use crate::increments::{step_of, tail_count, tail_limit, tail_taken};
use crate::modes::size_mode;
use crate::rounded_digits::{RoundedDigits, TOO_MANY_DIGITS};
use crate::rounding::{rounds_up_from_nothing, scale_below, zeros_below};
use crate::step_digits::StepDigits;
use crate::{
    DecimalError, RoundingIncrement, SignedRoundingMode, UnsignedDecimal, UnsignedRoundingMode,
};

impl UnsignedDecimal {
    /// The multiple of the increment at the power that the mode takes of a number with or without a
    /// minus (ICU4X `round_with_mode_and_increment`): of 25 at power -2, a multiple of 0.25.
    ///
    /// Where the result would need power 32768 the answer is `Limit`, before memory is asked for; a
    /// value that is rejected is handed back.
    // promise: It is the multiple of the increment that the mode takes.
    // mutations: even_by_the_last_digit, increment_carry_lost
    // promise: `Limit` comes exactly if the multiple is 10^32768 or more.
    // mutations: increment_limit_of_two_digits_left_out
    // promise: The multiple's digits are valid, within the limits.
    // mutations: increment_tail_in_one_digit
    pub fn rounded_with_mode_and_increment(
        self,
        power: i16,
        mode: SignedRoundingMode,
        minus: bool,
        increment: RoundingIncrement,
    ) -> Result<Self, (Self, DecimalError)>
        ensures rounded { IfOk result (λ y.
            IsRoundedBy mode minus (unit_of increment power) self power y) }
        ensures valid { MatchResult result (λ y. IsUnsigned y) (λ e. IsUnsigned e.0) }
        ensures limit { IsErrAnd result (λ e. e.1 ≡ DecimalError.Limit)
            ↔ RoundsPastLimitsBy mode minus (unit_of increment power) self }
        ensures no_syntax { IfErr result (λ e. e.1 ≢ DecimalError.Syntax) }
        ensures handed_back { IfErr result (λ e. e.0 ≡ self) }
    {
        match increment {
            RoundingIncrement::MultiplesOf1 => self.rounded_with_mode(power, mode, minus),
            _ => self.rounded_by_steps(power, size_mode(mode, minus), increment),
        }
    }

    /// The multiple of an increment of more than 1 that a mode takes.
    fn rounded_by_steps(
        mut self,
        power: i16,
        mode: UnsignedRoundingMode,
        increment: RoundingIncrement,
    ) -> Result<Self, (Self, DecimalError)>
        requires { increment ≢ RoundingIncrement.MultiplesOf1 }
        ensures rounded { IfOk result (λ y.
            IsRoundedSize mode (unit_of increment power) self power y) }
        ensures valid { MatchResult result (λ y. IsUnsigned y) (λ e. IsUnsigned e.0) }
        ensures limit { IsErrAnd result (λ e. e.1 ≡ DecimalError.Limit)
            ↔ SizeRoundsPastLimits mode (unit_of increment power) self }
        ensures no_syntax { IfErr result (λ e. e.1 ≢ DecimalError.Syntax) }
        ensures handed_back { IfErr result (λ e. e.0 ≡ self) }
    {
        let Some(rounded) = round_steps(&self.digits, self.scale, power, mode, increment) else {
            return Err((self, DecimalError::Limit));
        };
        match rounded.leave(&mut self.digits) {
            Ok(()) => {
                self.scale = scale_below(power);
                Ok(self)
            }
            Err(_) => Err((self, DecimalError::OutOfMemory)),
        }
    }
}

/// What rounding by an increment of more than 1 leaves of the digits, the last `scale` of which
/// stand below power 0; none where the result would need power 32768.
fn round_steps(
    digits: &[u8],
    scale: u16,
    power: i16,
    mode: UnsignedRoundingMode,
    increment: RoundingIncrement,
) -> Option<StepDigits>
    requires valid { IsUnsigned (record { digits = digits.now; scale = scale }) }
    requires more { increment ≢ RoundingIncrement.MultiplesOf1 }
    ensures kept { IfSome result (λ r. r.head.kept ≤ length digits.now) }
    ensures small { IfSome result (λ r.
        r.head.kept + r.head.zeros + r.zeros < TOO_MANY_DIGITS) }
    ensures valid { IfSome result (λ r.
        IsUnsigned (record {
          digits = steps_left digits.now r.head.kept r.head.raised r.head.zeros r.increment r.tail
              r.zeros;
          scale = scale_at power;
        })) }
    ensures rounded { IfSome result (λ r.
        IsRoundedSize mode (unit_of increment power)
        (record { digits = digits.now; scale = scale }) power
        (record {
          digits = steps_left digits.now r.head.kept r.head.raised r.head.zeros r.increment r.tail
              r.zeros;
          scale = scale_at power;
        })) }
    ensures none { IfNone result (SizeRoundsPastLimits mode (unit_of increment power)
        (record { digits = digits.now; scale = scale })) }
{
    let count = digits.len();
    let integer_count = count - scale as usize;
    let zeros = zeros_below(power);
    let Some(head) = head_count(integer_count, power, increment) else {
        return round_little(digits, scale, power, mode, increment);
    };
    if head >= count {
        return Some(StepDigits::cut(count, head + tail_count(increment) - count));
    }
    let tail = tail_taken(digits, head, mode, increment);
    if tail < tail_limit(increment) {
        return Some(StepDigits {
            head: RoundedDigits::cut(head, 0),
            increment,
            tail,
            zeros,
        });
    }
    let left = without_nines(digits, head);
    if left == 0 && integer_count == MAX_DIGITS {
        return None;
    }
    Some(StepDigits {
        head: raised_head(digits, head, left),
        increment,
        tail: 0,
        zeros,
    })
}

/// The same where the number is less than half a unit, as its head would end in front of the first
/// digit.
fn round_little(
    digits: &[u8],
    scale: u16,
    power: i16,
    mode: UnsignedRoundingMode,
    increment: RoundingIncrement,
) -> Option<StepDigits>
    requires valid { IsUnsigned (record { digits = digits.now; scale = scale }) }
    requires more { increment ≢ RoundingIncrement.MultiplesOf1 }
    requires little { ((pos (length digits.now - scale) -ℤ power)
        -ℤ pos (tail_count increment)) ≤ℤ negsuc 0 }
    ensures kept { IfSome result (λ r. r.head.kept ≤ length digits.now) }
    ensures small { IfSome result (λ r.
        r.head.kept + r.head.zeros + r.zeros < TOO_MANY_DIGITS) }
    ensures valid { IfSome result (λ r.
        IsUnsigned (record {
          digits = steps_left digits.now r.head.kept r.head.raised r.head.zeros r.increment r.tail
              r.zeros;
          scale = scale_at power;
        })) }
    ensures rounded { IfSome result (λ r.
        IsRoundedSize mode (unit_of increment power)
        (record { digits = digits.now; scale = scale }) power
        (record {
          digits = steps_left digits.now r.head.kept r.head.raised r.head.zeros r.increment r.tail
              r.zeros;
          scale = scale_at power;
        })) }
    ensures none { IfNone result (SizeRoundsPastLimits mode (unit_of increment power)
        (record { digits = digits.now; scale = scale })) }
{
    let zeros = zeros_below(power);
    if !rounds_up_from_nothing(digits, mode) {
        let integer_count = digits.len() - scale as usize;
        return Some(StepDigits::cut(0, integer_count.max(zeros)));
    }
    if zeros + tail_count(increment) > MAX_DIGITS {
        return None;
    }
    Some(StepDigits {
        head: RoundedDigits::cut(0, 0),
        increment,
        tail: step_of(increment),
        zeros,
    })
}

/// One more than the first `head` digits write, the first `left` of which have but nines behind
/// them.
fn raised_head(digits: &[u8], head: usize, left: usize) -> RoundedDigits
    requires within { head < length digits.now }
    requires left { left ≤ head }
    requires below_ten { All (λ d. d < 10) digits.now }
    requires nines { take head digits.now ≡ take left digits.now ++ replicate (head - left) 9 }
    requires stops { 0 < left → slice_index digits.now (left - 1) ≢ 9 }
    ensures kept { result.kept ≤ head }
    ensures zeros { result.zeros ≤ head }
    ensures below_ten { All (λ d. d < 10)
        (take result.kept digits.now ++ option_to_list result.raised) }
    ensures one_more { weighed result.zeros
        (take result.kept digits.now ++ option_to_list result.raised)
        ≡ weighed 0 (take head digits.now) + 1 }
    ensures as_long { 0 < left →
        length (take result.kept digits.now ++ option_to_list result.raised) + result.zeros ≡ head }
    ensures longer { left ≡ 0 →
        length (take result.kept digits.now ++ option_to_list result.raised) + result.zeros
        ≡ head + 1 }
{
    if left == 0 {
        return RoundedDigits {
            kept: 0,
            raised: Some(1),
            zeros: head,
        };
    }
    RoundedDigits {
        kept: left - 1,
        raised: Some(digits[left - 1] + 1),
        zeros: head - left,
    }
}

/// How many digits stand in front of the tail of a number rounded at the power; none where the
/// first digit of the tail stands more than one power above that of the number.
fn head_count(integer_count: usize, power: i16, increment: RoundingIncrement) -> Option<usize>
    requires { integer_count ≤ MAX_DIGITS }
    ensures none { IfNone result (((pos integer_count -ℤ power)
        -ℤ pos (tail_count increment)) ≤ℤ negsuc 0) }
    ensures some { IfSome result (λ head.
        pos (head + tail_count increment) ≡ pos integer_count -ℤ power) }
{
    let head = integer_count as i32 - power as i32 - tail_count(increment) as i32;
    if head < 0 { None } else { Some(head as usize) }
}
