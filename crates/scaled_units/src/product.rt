//! A number times a power of a small number.

ghost use Rattle.std.specs.Prelude.{◌≡◌, ◌*◌, ◌^◌, ◌<◌, ◌≤◌, ◌++◌, IfOk, IsErrOf, length, replicate, pos};
ghost use Rattle.smallvec.specs.SmallVec.{HasRoomFor};
ghost use Rattle.fixed_decimal.specs.Unsigned.{AreDigits, IsUnsigned};
ghost use Rattle.fixed_decimal.specs.Size.{size, ten_to, weighed};

use crate::digits::multiply;
use crate::spelling::{Bytes, absolute_of};
use fixed_decimal::{DecimalError, UnsignedDecimal};
use smallvec::SmallVec;
use std::alloc::{AllocError, Global};

/// The greatest power that has a letter.
pub(crate) const MAX_POWER: u8 = 8;

/// How many digits the greatest factor has.
const FACTOR_DIGITS: usize = 7;

/// The number times a power of a factor, exactly, without zeros in front.
pub(crate) fn times_power(
    alloc: Global,
    value: &UnsignedDecimal,
    factor: u32,
    power: u8,
) -> Result<UnsignedDecimal, DecimalError>
    requires factor { factor ≤ 10 ^ 7 }
    requires power { power ≤ MAX_POWER }
    ensures size { IfOk result (λ y. size y ≡ size value.now * factor ^ power) }
    ensures scale { IfOk result (λ y. y.scale ≡ value.now.scale) }
    ensures valid { IfOk result (λ y. IsUnsigned y) }
    ensures limit { IsErrOf result DecimalError.Limit
        → ten_to (pos 32768) ≤ size value.now * factor ^ power }
    ensures no_syntax { ¬ (IsErrOf result DecimalError.Syntax) }
{
    let zeros = FACTOR_DIGITS * power as usize;
    let Ok(mut digits) = digits_with_room(alloc, value, zeros) else {
        return Err(DecimalError::OutOfMemory);
    };
    multiply_times(digits.as_mut_slice(), factor, power);
    absolute_of(alloc, &digits, value.fraction().len())
}

/// The digits of a number, with that many zeros in front.
fn digits_with_room(
    alloc: Global,
    value: &UnsignedDecimal,
    zeros: usize,
) -> Result<Bytes, AllocError>
    requires { zeros ≤ 100 }
    ensures digits { IfOk result (λ v. v.items ≡ replicate zeros 0 ++ value.now.digits) }
    ensures valid { IsUnsigned value.now }
{
    let integer = value.integer();
    let fraction = value.fraction();
    let mut digits = SmallVec::with_capacity(alloc, zeros + integer.len() + fraction.len())?;
    push_zeros(&mut digits, zeros);
    digits.extend_from_slice(integer)?;
    digits.extend_from_slice(fraction)?;
    Ok(digits)
}

/// Appends zeros, for which there is room.
fn push_zeros(digits: &mut Bytes, count: usize)
    requires { HasRoomFor digits.old count }
    ensures items { digits.new.items ≡ digits.old.items ++ replicate count 0 }
    ensures capacity { digits.new.capacity ≡ digits.old.capacity }
{
    for _ in 0..count {
        digits.push_reserved(0);
    }
}

/// Multiplies the number that the digits write by a power of a factor; there has to be room for the
/// product.
fn multiply_times(digits: &mut [u8], factor: u32, power: u8)
    requires digits { AreDigits digits.old }
    requires small { factor ≤ 10 ^ 7 }
    requires room { weighed 0 digits.old * 10 ^ (7 * power) < 10 ^ length digits.old }
    ensures product { weighed 0 digits.new ≡ weighed 0 digits.old * factor ^ power }
    ensures digits { AreDigits digits.new }
    ensures length { length digits.new ≡ length digits.old }
{
    for _ in 0..power {
        multiply(digits, factor);
    }
}
