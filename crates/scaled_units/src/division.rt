//! The quotient of a number by a power of a base.

ghost use Rattle.std.specs.Prelude.{◌≡◌, ◌+◌, ◌*◌, ◌^◌, ◌<◌, ◌≤◌, ◌⊎◌, IfOk, IsErrOf, pos, ◌-ℤ◌};
ghost use Rattle.fixed_decimal.specs.Unsigned.{IsUnsigned};
ghost use Rattle.fixed_decimal.specs.Size.{size};
ghost use Rattle.fixed_decimal.specs.Scaling.{IsTimesTenTo, MovesPastLimits};
ghost use Rattle.scaled_units.specs.Scales.{base_value, cofactor, places};
ghost use Rattle.scaled_units.specs.Shown.{IsPowerOf, max_power};

use crate::Base;
use crate::digits::{LARGE, whole_up_to_large};
use crate::product::{MAX_POWER, times_power};
use fixed_decimal::{DecimalError, UnsignedDecimal};
use std::alloc::Global;

/// The greatest power with a letter to which the base is at most the number, and 0 below the base.
pub(crate) fn power_of(number: &UnsignedDecimal, base: Base) -> u8
    ensures power { IsPowerOf base (size number.now) result }
    ensures valid { IsUnsigned number.now }
{
    greatest_power(whole_up_to_large(number.integer()), base)
}

/// The same of a whole number.
fn greatest_power(whole: u128, base: Base) -> u8
    requires { whole ≤ LARGE }
    ensures within { result ≤ max_power }
    ensures reached { (result ≡ 0) ⊎ (base_value base ^ result ≤ whole) }
    ensures greatest { (result ≡ max_power) ⊎ (whole < base_value base ^ (result + 1)) }
{
    let value = base.value() as u128;
    let mut power: u8 = 0;
    let mut unit = value;
    while power < MAX_POWER && unit <= whole {
        unit *= value;
        power += 1;
    }
    power
}

/// The quotient by a power of the base, exactly.
pub(crate) fn divided(
    alloc: Global,
    number: &UnsignedDecimal,
    base: Base,
    power: u8,
) -> Result<UnsignedDecimal, DecimalError>
    requires { power ≤ max_power }
    ensures quotient { IfOk result (λ q. size q * base_value base ^ power ≡ size number.now) }
    ensures valid { IfOk result (λ q. IsUnsigned q) }
    ensures limit { IsErrOf result DecimalError.Limit
        → 32768 < number.now.scale + places base * power }
    ensures no_syntax { ¬ (IsErrOf result DecimalError.Syntax) }
{
    match moved(alloc, number, power_down(base, power)) {
        Ok(moved) => times_power(alloc, &moved, base.cofactor(), power),
        Err(error) => Err(error),
    }
}

/// The power of ten by which the point is moved for a quotient by a power of the base.
fn power_down(base: Base, power: u8) -> i16
    requires { power ≤ max_power }
    ensures { result ≡ pos 0 -ℤ pos (places base * power) }
{
    -((base.places() * power) as i16)
}

/// A new number: the number times ten to the power.
fn moved(
    alloc: Global,
    number: &UnsignedDecimal,
    power: i16,
) -> Result<UnsignedDecimal, DecimalError>
    ensures size { IfOk result (λ y. IsTimesTenTo power (size number.now) (size y)) }
    ensures valid { IsUnsigned number.now }
    ensures limit { IsErrOf result DecimalError.Limit → MovesPastLimits number.now power }
    ensures no_syntax { ¬ (IsErrOf result DecimalError.Syntax) }
{
    match number.copy(alloc) {
        Ok(copy) => at_power(copy, power),
        Err(_) => Err(DecimalError::OutOfMemory),
    }
}

/// A number times ten to the power, with the error alone.
fn at_power(number: UnsignedDecimal, power: i16) -> Result<UnsignedDecimal, DecimalError>
    ensures size { IfOk result (λ y. IsTimesTenTo power (size number) (size y)) }
    ensures limit { IsErrOf result DecimalError.Limit → MovesPastLimits number power }
    ensures no_syntax { ¬ (IsErrOf result DecimalError.Syntax) }
{
    match number.multiplied_pow10(power) {
        Ok(moved) => Ok(moved),
        Err((_, error)) => Err(error),
    }
}
