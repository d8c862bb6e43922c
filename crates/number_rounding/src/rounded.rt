//! Rounding at a place.

ghost use Rattle.std.specs.Prelude.{◌≡◌, ◌≤◌, ◌<◌, ◌+◌, ◌-◌, ◌*◌, ◌^◌, ◌⊎◌, ◌↔◌, IfOk, IsErrOf};
ghost use Rattle.fixed_decimal.specs.Unsigned.{IsUnsigned};
ghost use Rattle.fixed_decimal.specs.Size.{finest, place, size};
ghost use Rattle.fixed_decimal.specs.Nearest.{IsMultiple};
ghost use Rattle.fixed_decimal.specs.Increments.{step_of, unit_of};
ghost use Rattle.fixed_decimal.specs.Modes.{IsTaken, size_mode};
ghost use Rattle.fixed_decimal.specs.RoundedBy.{IsRoundedBy, RoundsPastLimitsBy};
ghost use Rattle.number_rounding.specs.Steps.{step, DividesOne};

use crate::places::{FINEST, increment_of, place_of, step_place};
use crate::{Rounding, ShownError};
use fixed_decimal::{DecimalError, RoundingIncrement, SignedRoundingMode, UnsignedDecimal};

/// How many powers below 0 a decimal may have.
const MAX_BELOW: u32 = 32768;

/// The power at a place.
fn power_at(at: u32) -> i16
    requires low { finest ≤ at + 32768 }
    requires high { at ≤ finest + 32767 }
    ensures { place result ≡ at }
{
    (at as i32 - FINEST as i32) as i16
}

/// The multiple of an increment at a place that a mode takes of a number with or without a minus. A
/// decimal is a multiple of each power of ten below that of its last digit.
fn rounded(
    value: UnsignedDecimal,
    at: u32,
    increment: RoundingIncrement,
    mode: SignedRoundingMode,
    minus: bool,
) -> Result<UnsignedDecimal, ShownError>
    requires valid { IsUnsigned value }
    requires fine { at + 32768 < finest → increment ≡ RoundingIncrement.MultiplesOf1 }
    requires coarse { at ≤ finest + 32767 }
    ensures taken { IfOk result (λ y.
        IsTaken (IsMultiple (step_of increment * 10 ^ at)) (size_mode mode minus)
        (step_of increment * 10 ^ at) (size value) (size y)) }
    ensures valid { IfOk result (λ y. IsUnsigned y) }
    ensures overflow { IsErrOf result ShownError.Overflow
        ↔ RoundsPastLimitsBy mode minus (step_of increment * 10 ^ at) value }
{
    if at + MAX_BELOW < FINEST {
        return Ok(value);
    }
    rounded_at(value, power_at(at), mode, minus, increment)
}

/// The multiple of an increment at a power that a mode takes of a number with or without a minus.
fn rounded_at(
    value: UnsignedDecimal,
    power: i16,
    mode: SignedRoundingMode,
    minus: bool,
    increment: RoundingIncrement,
) -> Result<UnsignedDecimal, ShownError>
    requires { IsUnsigned value }
    ensures taken { IfOk result (λ y.
        IsTaken (IsMultiple (unit_of increment power)) (size_mode mode minus)
        (unit_of increment power) (size value) (size y)) }
    ensures valid { IfOk result (λ y. IsUnsigned y) }
    ensures overflow { IsErrOf result ShownError.Overflow
        ↔ RoundsPastLimitsBy mode minus (unit_of increment power) value }
{
    match at_increment(value, power, mode, minus, increment) {
        Ok(rounded) => Ok(rounded),
        Err(DecimalError::Limit) => Err(ShownError::Overflow),
        Err(DecimalError::OutOfMemory) => Err(ShownError::OutOfMemory),
        Err(DecimalError::Syntax) => unreachable!(),
    }
}

/// The same with the error that `fixed_decimal` reports.
fn at_increment(
    value: UnsignedDecimal,
    power: i16,
    mode: SignedRoundingMode,
    minus: bool,
    increment: RoundingIncrement,
) -> Result<UnsignedDecimal, DecimalError>
    ensures rounded { IfOk result (λ y.
        IsRoundedBy mode minus (unit_of increment power) value power y) }
    ensures valid { IfOk result (λ y. IsUnsigned y) }
    ensures limit { IsErrOf result DecimalError.Limit
        ↔ RoundsPastLimitsBy mode minus (unit_of increment power) value }
    ensures no_syntax { ¬ (IsErrOf result DecimalError.Syntax) }
{
    match value.rounded_with_mode_and_increment(power, mode, minus, increment) {
        Ok(rounded) => Ok(rounded),
        Err((_, error)) => Err(error),
    }
}

/// The multiple of the unit of a number's magnitude that the mode takes, where the table has an
/// exponent for the magnitude.
pub(crate) fn rounded_for(
    rounding: &Rounding,
    value: UnsignedDecimal,
    power: i16,
    exponent: u8,
    minus: bool,
) -> Result<UnsignedDecimal, ShownError>
    requires valid { IsUnsigned value }
    requires exponent { exponent ≤ place power }
    requires divides { (exponent ≡ 0) ⊎ DividesOne rounding.now.precision }
    ensures taken { IfOk result (λ y.
        IsTaken (IsMultiple (step rounding.now.precision (place power - exponent) * 10 ^ exponent))
        (size_mode rounding.now.mode minus)
        (step rounding.now.precision (place power - exponent) * 10 ^ exponent)
        (size value) (size y)) }
    ensures valid { IfOk result (λ y. IsUnsigned y) }
    ensures overflow { IsErrOf result ShownError.Overflow
        ↔ RoundsPastLimitsBy rounding.now.mode minus
        (step rounding.now.precision (place power - exponent) * 10 ^ exponent) value }
{
    let k = place_of(power) - exponent as u32;
    let at = step_place(rounding.precision, k) + exponent as u32;
    let increment = increment_of(rounding.precision);
    rounded(value, at, increment, rounding.mode, minus)
}
