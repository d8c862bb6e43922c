//! What is shown of a number by a scale.

ghost use Rattle.std.specs.Prelude.{◌≡◌, ◌-◌, ◌*◌, ◌^◌, ◌≤◌, IfOk, IsErrOf, nat_lt, pos};
ghost use Rattle.fixed_decimal.specs.Unsigned.{IsUnsigned};
ghost use Rattle.fixed_decimal.specs.Size.{finest, size, ten_to};
ghost use Rattle.fixed_decimal.specs.Nearest.{IsMultiple};
ghost use Rattle.fixed_decimal.specs.Modes.{IsTaken, size_mode};
ghost use Rattle.fixed_decimal.specs.RoundedBy.{RoundsPastLimitsBy};
ghost use Rattle.scaled_units.specs.Reading.{IsWritten};
ghost use Rattle.scaled_units.specs.Shown.{digits_shown, fraction_shown, unit_shown};

use crate::Base;
use crate::digits::whole_up_to_large;
use crate::product::MAX_POWER;
use fixed_decimal::{DecimalError, SignedRoundingMode, UnsignedDecimal};
use std::alloc::Global;

/// Whether a number is below a small whole number.
pub(crate) fn is_below(number: &UnsignedDecimal, bound: u32) -> bool
    ensures { result ≡ nat_lt (size number.now) (bound * ten_to (pos 0)) }
{
    whole_up_to_large(number.integer()) < bound as u128
}

/// How many digits a number with a power has below power 0.
fn digits_shown(power: u8, below_ten: bool) -> u8
    ensures digits { result ≡ digits_shown power below_ten }
    ensures small { result ≤ 1 }
{
    if power > 0 && below_ten { 1 } else { 0 }
}

/// What a mode makes of a quotient with a power: a multiple of a tenth if there is a letter and it
/// is below ten, else of one.
pub(crate) fn rounded(
    quotient: UnsignedDecimal,
    power: u8,
    mode: SignedRoundingMode,
    minus: bool,
) -> Result<UnsignedDecimal, DecimalError>
    ensures taken { IfOk result (λ y. let unit = unit_shown power (size quotient) in
        IsTaken (IsMultiple unit) (size_mode mode minus) unit (size quotient) (size y)) }
    ensures limit { IsErrOf result DecimalError.Limit
        → RoundsPastLimitsBy mode minus (unit_shown power (size quotient)) quotient }
    ensures no_syntax { ¬ (IsErrOf result DecimalError.Syntax) }
{
    let fraction = digits_shown(power, is_below(&quotient, 10));
    rounded_to(quotient, fraction, mode, minus)
}

/// What a mode makes of a number: a multiple of one, or of a tenth.
fn rounded_to(
    number: UnsignedDecimal,
    fraction: u8,
    mode: SignedRoundingMode,
    minus: bool,
) -> Result<UnsignedDecimal, DecimalError>
    requires { fraction ≤ 1 }
    ensures taken { IfOk result (λ y. let unit = 10 ^ (finest - fraction) in
        IsTaken (IsMultiple unit) (size_mode mode minus) unit (size number) (size y)) }
    ensures limit { IsErrOf result DecimalError.Limit
        → RoundsPastLimitsBy mode minus (10 ^ (finest - fraction)) number }
    ensures no_syntax { ¬ (IsErrOf result DecimalError.Syntax) }
{
    match number.rounded_with_mode(last_power(fraction), mode, minus) {
        Ok(rounded) => Ok(rounded),
        Err((_, error)) => Err(error),
    }
}

/// The power of the last of at most one digit below power 0.
fn last_power(fraction: u8) -> i16
    requires { fraction ≤ 1 }
    ensures { ten_to result ≡ 10 ^ (finest - fraction) }
{
    if fraction == 0 {
        return 0;
    }
    -1
}

/// A new number: the same, written with the digits that are shown with a power.
pub(crate) fn with_power(
    alloc: Global,
    number: &UnsignedDecimal,
    power: u8,
) -> Result<UnsignedDecimal, DecimalError>
    ensures size { IfOk result (λ y. size y ≡ size number.now) }
    ensures written { IfOk result (λ y. IsWritten y (fraction_shown power (size y))) }
    ensures valid { IfOk result (λ y. IsUnsigned y) }
    ensures no_limit { ¬ (IsErrOf result DecimalError.Limit) }
    ensures no_syntax { ¬ (IsErrOf result DecimalError.Syntax) }
{
    let fraction = digits_shown(power, is_below(number, 10));
    number.padded(alloc, 1, fraction as usize)
}

/// The number one, as it is shown with a power.
pub(crate) fn one_with_power(alloc: Global, power: u8) -> Result<UnsignedDecimal, DecimalError>
    ensures size { IfOk result (λ y. size y ≡ ten_to (pos 0)) }
    ensures written { IfOk result (λ y. IsWritten y (fraction_shown power (size y))) }
    ensures valid { IfOk result (λ y. IsUnsigned y) }
    ensures no_limit { ¬ (IsErrOf result DecimalError.Limit) }
    ensures no_syntax { ¬ (IsErrOf result DecimalError.Syntax) }
{
    match UnsignedDecimal::from_u64(alloc, 1) {
        Ok(one) => with_power(alloc, &one, power),
        Err(_) => Err(DecimalError::OutOfMemory),
    }
}
