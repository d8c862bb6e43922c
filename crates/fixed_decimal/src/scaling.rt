//! Multiplying by a power of ten.

ghost use Rattle.std.specs.Prelude.{MatchResult, ◌≡◌, ◌≢◌, ◌<◌, ◌≤◌, ◌↔◌, ◌++◌, ◌⊎◌, replicate, OnOk, OnErr, OnSome, IfOk, IfErr, IfSome, IfNone};
ghost use Rattle.std.specs.Prelude.{IsErrOf, IsErrAnd, pos, ◌+ℤ◌, ◌-ℤ◌, ◌≤ℤ◌, ◌<ℤ◌};
ghost use Rattle.std.specs.Int.{int_max};
ghost use Rattle.fixed_decimal.specs.Unsigned.{IsUnsigned};
ghost use Rattle.fixed_decimal.specs.Size.{size};
ghost use Rattle.fixed_decimal.specs.Scaling.{IsMoved, IsTimesTenTo, MovesPastLimits};

use crate::digits::{MAX_DIGITS, widen};
use crate::{DecimalError, UnsignedDecimal};

impl UnsignedDecimal {
    /// The number times ten to the power: each digit that many powers higher, and the range widened
    /// to include 0 (ICU4X `multiplied_pow10`).
    ///
    /// `Limit` is determined before memory is asked for; a value that is rejected is handed back.
    // promise: Each digit moves; the size is multiplied by the power.
    // mutations: multiplied_pow10_the_other_way
    // promise: `Limit` comes exactly where a power would be out of range.
    // mutations: multiplied_pow10_limit_one_too_low
    pub fn multiplied_pow10(mut self, power: i16) -> Result<Self, (Self, DecimalError)>
        ensures moved { IfOk result (λ y. IsMoved self power y) }
        ensures size { IfOk result (λ y. IsTimesTenTo power (size self) (size y)) }
        ensures valid { MatchResult result (λ y. IsUnsigned y) (λ e. IsUnsigned e.0) }
        ensures limit { IsErrAnd result (λ e. e.1 ≡ DecimalError.Limit)
            ↔ MovesPastLimits self power }
        ensures no_syntax { IfErr result (λ e. e.1 ≢ DecimalError.Syntax) }
        ensures handed_back { IfErr result (λ e. e.0 ≡ self) }
    {
        match self.multiply_pow10(power) {
            Ok(()) => Ok(self),
            Err(error) => Err((self, error)),
        }
    }

    /// The same in place; an error leaves the value unchanged.
    pub(crate) fn multiply_pow10(&mut self, power: i16) -> Result<(), DecimalError>
        ensures moved { OnOk result (IsMoved self.old power self.new) }
        ensures size { OnOk result (IsTimesTenTo power (size self.old) (size self.new)) }
        ensures valid { IsUnsigned self.new }
        ensures limit { IsErrOf result DecimalError.Limit ↔ MovesPastLimits self.old power }
        ensures no_syntax { ¬ (IsErrOf result DecimalError.Syntax) }
        ensures unchanged { OnErr result (self.new ≡ self.old) }
    {
        let integer_count = self.digits.len() - self.scale as usize;
        let Some(range) = moved_range(integer_count, self.scale, power) else {
            return Err(DecimalError::Limit);
        };
        widen(&mut self.digits, range.front, range.back)?;
        self.scale = range.scale;
        Ok(())
    }
}

/// How many powers a decimal may have at 0 and above, and how many below 0.
const MAX_POWERS: i32 = 32768;

/// How many zeros a moved range needs before and behind the digits, and how many digits then stand
/// below power 0.
#[derive(Clone, Copy)]
struct MovedRange {
    front: usize,
    back: usize,
    scale: u16,
}

/// The range moved by a power and widened to include 0, if no power leaves the limits.
fn moved_range(integer_count: usize, scale: u16, power: i16) -> Option<MovedRange>
    requires integer_some { 0 < integer_count }
    requires integer_limit { integer_count ≤ MAX_DIGITS }
    requires scale_limit { scale ≤ MAX_DIGITS }
    ensures front { IfSome result (λ r.
        pos r.front ≡ int_max (pos 0) (pos 1 -ℤ (pos integer_count +ℤ power))) }
    ensures back { IfSome result (λ r. pos r.back ≡ int_max (pos 0) (power -ℤ pos scale)) }
    ensures scale { IfSome result (λ r. pos r.scale ≡ int_max (pos 0) (pos scale -ℤ power)) }
    ensures high { OnSome result ((pos integer_count +ℤ power) ≤ℤ pos 32768) }
    ensures low { OnSome result ((pos scale -ℤ power) ≤ℤ pos 32768) }
    ensures none { IfNone result ((pos 32768 <ℤ (pos integer_count +ℤ power))
        ⊎ (pos 32768 <ℤ (pos scale -ℤ power))) }
{
    let high = integer_count as i32 + power as i32;
    let low = scale as i32 - power as i32;
    if high > MAX_POWERS || low > MAX_POWERS {
        return None;
    }
    Some(MovedRange {
        front: (1 - high).max(0) as usize,
        back: (-low).max(0) as usize,
        scale: low.max(0) as u16,
    })
}
