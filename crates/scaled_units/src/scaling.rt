//! Showing a number by a scale.

ghost use Rattle.std.specs.Prelude.{◌≡◌, ◌+◌, ◌*◌, ◌<◌, ◌≤◌, ◌⊎◌, ℕ, IfOk, IsErrOf, MatchBool, pos};
ghost use Rattle.fixed_decimal.specs.Unsigned.{IsUnsigned};
ghost use Rattle.fixed_decimal.specs.Size.{size, ten_to};
ghost use Rattle.fixed_decimal.specs.Nearest.{IsMultiple};
ghost use Rattle.fixed_decimal.specs.Modes.{IsTaken, size_mode};
ghost use Rattle.fixed_decimal.specs.RoundedBy.{RoundsPastLimitsBy};
ghost use Rattle.fixed_decimal.specs.SignDisplay.{is_negative};
ghost use Rattle.scaled_units.specs.Scales.{base_of, base_value};
ghost use Rattle.scaled_units.specs.Reading.{IsWritten};
ghost use Rattle.scaled_units.specs.Shown.{max_power, fraction_shown, unit_shown, IsCarried, IsScaled, IsScaledPastLimits};

use crate::division::{divided, power_of};
use crate::product::MAX_POWER;
use crate::showing::{is_below, one_with_power, rounded, with_power};
use crate::{Base, Scale, ScaleError};
use fixed_decimal::{Decimal, DecimalError, Sign, SignedRoundingMode, UnsignedDecimal};
use std::alloc::Global;

/// A number that is shown by a scale, and the power that its letter stands for.
#[derive(Drop)]
pub struct ScaledNumber {
    /// The number before the letter.
    pub number: Decimal,
    /// The power, 0 without a letter.
    pub power: u8,
}

/// The same without a sign.
#[derive(Drop)]
struct Shown {
    number: UnsignedDecimal,
    power: u8,
}

/// Shows a number by a scale, as `numfmt --to` does: 1536 by `iec` is 1.5 with the power 1.
///
/// The number is divided by the greatest power of the base that isn't above its size, and rounded
/// once: to a tenth below ten if there is a letter, else to a whole number. What reaches the base
/// has the next letter.
// promise: The quotient by the power of its letter is rounded once.
// mutations: tenths_without_a_letter
// promise: What reaches the base is one of the next letter.
// mutations: carry_to_the_next_letter_left_out
pub fn scale_down(
    alloc: Global,
    decimal: &Decimal,
    scale: Scale,
    mode: SignedRoundingMode,
) -> Result<ScaledNumber, ScaleError>
    ensures scaled { IfOk result (λ r. IsScaled (base_of scale)
        (size_mode mode (is_negative decimal.now.sign)) (size decimal.now.absolute)
        r.number.absolute r.power) }
    ensures sign { IfOk result (λ r. r.number.sign ≡ decimal.now.sign) }
    ensures valid { IfOk result (λ r. IsUnsigned r.number.absolute) }
    ensures limit { IsErrOf result ScaleError.Limit
        → IsScaledPastLimits (base_of scale) decimal.now.absolute }
{
    match size_shown(
        alloc,
        &decimal.absolute,
        scale.base(),
        mode,
        is_minus(decimal.sign),
    ) {
        Ok(Shown { number, power }) => Ok(ScaledNumber {
            number: Decimal {
                sign: decimal.sign,
                absolute: number,
            },
            power,
        }),
        Err(DecimalError::Limit) => Err(ScaleError::Limit),
        Err(DecimalError::OutOfMemory) => Err(ScaleError::OutOfMemory),
        Err(DecimalError::Syntax) => unreachable!(),
    }
}

/// Whether a sign is a minus.
fn is_minus(sign: Sign) -> bool
    ensures { result ≡ is_negative sign }
{
    match sign {
        Sign::Negative => true,
        Sign::None | Sign::Positive => false,
    }
}

/// The same of a number without its sign, by the error of `fixed_decimal`.
fn size_shown(
    alloc: Global,
    number: &UnsignedDecimal,
    base: Base,
    mode: SignedRoundingMode,
    minus: bool,
) -> Result<Shown, DecimalError>
    ensures scaled { IfOk result (λ r.
        IsScaled base (size_mode mode minus) (size number.now) r.number r.power) }
    ensures valid { IfOk result (λ r. IsUnsigned r.number) }
    ensures limit { IsErrOf result DecimalError.Limit → IsScaledPastLimits base number.now }
    ensures no_syntax { ¬ (IsErrOf result DecimalError.Syntax) }
{
    let power = power_of(number, base);
    match divided(alloc, number, base, power) {
        Ok(quotient) => quotient_shown(alloc, quotient, base, power, mode, minus),
        Err(error) => Err(error),
    }
}

/// What is shown of a quotient by a power of the base.
fn quotient_shown(
    alloc: Global,
    quotient: UnsignedDecimal,
    base: Base,
    power: u8,
    mode: SignedRoundingMode,
    minus: bool,
) -> Result<Shown, DecimalError>
    requires { power ≤ max_power }
    ensures shown { IfOk result (λ r. let unit = unit_shown power (size quotient) in (y : ℕ)
        × IsTaken (IsMultiple unit) (size_mode mode minus) unit (size quotient) y
        × IsCarried base power y r.power (size r.number)) }
    ensures written { IfOk result (λ r. IsWritten r.number
        (fraction_shown r.power (size r.number))) }
    ensures valid { IfOk result (λ r. IsUnsigned r.number) }
    ensures limit { IsErrOf result DecimalError.Limit
        → RoundsPastLimitsBy mode minus (unit_shown power (size quotient)) quotient }
    ensures no_syntax { ¬ (IsErrOf result DecimalError.Syntax) }
{
    match rounded(quotient, power, mode, minus) {
        Ok(rounded) => carried(alloc, &rounded, base, power),
        Err(error) => Err(error),
    }
}

/// What is shown of a rounded quotient.
fn carried(
    alloc: Global,
    rounded: &UnsignedDecimal,
    base: Base,
    power: u8,
) -> Result<Shown, DecimalError>
    requires { power ≤ max_power }
    ensures carried { IfOk result (λ r.
        IsCarried base power (size rounded.now) r.power (size r.number)) }
    ensures written { IfOk result (λ r. IsWritten r.number
        (fraction_shown r.power (size r.number))) }
    ensures valid { IfOk result (λ r. IsUnsigned r.number) }
    ensures no_limit { ¬ (IsErrOf result DecimalError.Limit) }
    ensures no_syntax { ¬ (IsErrOf result DecimalError.Syntax) }
{
    if reaches_next(rounded, base, power) {
        return one_carried(alloc, power + 1);
    }
    match with_power(alloc, rounded, power) {
        Ok(number) => Ok(Shown { number, power }),
        Err(error) => Err(error),
    }
}

/// The number one with a power.
fn one_carried(alloc: Global, power: u8) -> Result<Shown, DecimalError>
    ensures power { IfOk result (λ r. r.power ≡ power) }
    ensures size { IfOk result (λ r. size r.number ≡ ten_to (pos 0)) }
    ensures written { IfOk result (λ r. IsWritten r.number
        (fraction_shown r.power (size r.number))) }
    ensures valid { IfOk result (λ r. IsUnsigned r.number) }
    ensures no_limit { ¬ (IsErrOf result DecimalError.Limit) }
    ensures no_syntax { ¬ (IsErrOf result DecimalError.Syntax) }
{
    match one_with_power(alloc, power) {
        Ok(number) => Ok(Shown { number, power }),
        Err(error) => Err(error),
    }
}

/// Whether a rounded quotient reaches the base, and there is a next letter.
fn reaches_next(rounded: &UnsignedDecimal, base: Base, power: u8) -> bool
    requires { power ≤ max_power }
    ensures { MatchBool result
        ((power < max_power) × (base_value base * ten_to (pos 0) ≤ size rounded.now))
        ((power ≡ max_power) ⊎ (size rounded.now < base_value base * ten_to (pos 0))) }
{
    if power == MAX_POWER {
        return false;
    }
    !is_below(rounded, base.value())
}
