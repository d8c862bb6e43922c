//! Reading a number with a suffix.

ghost use Rattle.std.specs.Prelude.{◌≡◌, ◌*◌, ◌≤◌, ◌↔◌, ◌⊎◌, IfOk, IfErr, IsErrOf, IsOk, Err, pos};
ghost use Rattle.fixed_decimal.specs.Unsigned.{Unsigned, IsUnsigned};
ghost use Rattle.fixed_decimal.specs.Size.{size, ten_to};
ghost use Rattle.fixed_decimal.specs.Text.{Reads, ReadsNothing};
ghost use Rattle.scaled_units.specs.Suffixes.{text_unit, number_part};
ghost use Rattle.scaled_units.specs.Reading.{digits_kept, unit_value, IsInUnit, IsRead, IsPastLimits, IsReadPastLimits, IsOfSuffix};

use crate::product::times_power;
use crate::suffix::{number_length, suffix_unit};
use crate::{FromScale, NotScaled, Unit};
use fixed_decimal::{Decimal, DecimalError, UnsignedDecimal};
use std::alloc::Global;

/// A number times a unit.
fn in_unit(
    alloc: Global,
    number: &UnsignedDecimal,
    unit: Unit,
) -> Result<UnsignedDecimal, DecimalError>
    requires { unit.power ≤ 8 }
    ensures in_unit { IfOk result (λ y. IsInUnit unit number.now y) }
    ensures valid { IfOk result (λ y. IsUnsigned y) }
    ensures limit { IsErrOf result DecimalError.Limit
        → ten_to (pos 32768) ≤ size number.now * unit_value unit }
    ensures no_syntax { ¬ (IsErrOf result DecimalError.Syntax) }
{
    let fraction = digits_kept(unit.power, number.fraction().len());
    match times_power(alloc, number, unit.base.value(), unit.power) {
        Ok(product) => product.padded(alloc, 1, fraction),
        Err(error) => Err(error),
    }
}

/// How many digits below power 0 stay at least: those of the number where it has no suffix.
fn digits_kept(power: u8, scale: usize) -> usize
    ensures kept { result ≡ digits_kept power scale }
    ensures within { result ≤ scale }
{
    if power == 0 { scale } else { 0 }
}

/// The number that a text spells, times a unit.
fn number_in_unit(alloc: Global, text: &[u8], unit: Unit) -> Result<Decimal, NotScaled>
    requires { unit.power ≤ 8 }
    ensures read { IfOk result (λ d. (n : Unsigned) × Reads text.now d.sign n
        × IsInUnit unit n d.absolute) }
    ensures valid { IfOk result (λ d. IsUnsigned d.absolute) }
    ensures number { IsErrOf result NotScaled.Number ↔ ReadsNothing text.now }
    ensures limit { IsErrOf result NotScaled.Limit → IsPastLimits text.now unit }
    ensures no_suffix { IfErr result (λ e. ¬ (IsOfSuffix e)) }
{
    match Decimal::try_from_utf8(alloc, text) {
        Ok(decimal) => decimal_in_unit(alloc, decimal, unit),
        Err(DecimalError::Syntax) => Err(NotScaled::Number),
        Err(DecimalError::Limit) => Err(NotScaled::Limit),
        Err(DecimalError::OutOfMemory) => Err(NotScaled::OutOfMemory),
    }
}

/// A decimal times a unit.
fn decimal_in_unit(alloc: Global, decimal: Decimal, unit: Unit) -> Result<Decimal, NotScaled>
    requires { unit.power ≤ 8 }
    ensures sign { IfOk result (λ d. d.sign ≡ decimal.sign) }
    ensures in_unit { IfOk result (λ d. IsInUnit unit decimal.absolute d.absolute) }
    ensures valid { IfOk result (λ d. IsUnsigned d.absolute) }
    ensures limit { IsErrOf result NotScaled.Limit
        → ten_to (pos 32768) ≤ size decimal.absolute * unit_value unit }
    ensures others { IfErr result (λ e. (e ≡ NotScaled.Limit) ⊎ (e ≡ NotScaled.OutOfMemory)) }
{
    match in_unit(alloc, &decimal.absolute, unit) {
        Ok(absolute) => Ok(Decimal {
            sign: decimal.sign,
            absolute,
        }),
        Err(DecimalError::Limit) => Err(NotScaled::Limit),
        Err(DecimalError::OutOfMemory) => Err(NotScaled::OutOfMemory),
        Err(DecimalError::Syntax) => unreachable!(),
    }
}

/// Reads a decimal with an optional suffix, as `numfmt --from` does: `1.5K` by `si` is 1500, by
/// `iec` 1536.
///
/// The number goes up to the first byte that no number has. The faults of the suffix are determined
/// first, then `Number`, both before memory is asked for. What is read has no zeros in front, and
/// with a suffix no needless digits below power 0.
// promise: What is read is the number times the power of its letter.
// mutations: binary_letter_as_a_thousand
// promise: Each fault of a suffix comes just where it stands.
// mutations: suffix_taken_by_none, missing_i_passed_over
pub fn read_scaled(alloc: Global, scale: FromScale, text: &str) -> Result<Decimal, NotScaled>
    ensures read { IfOk result (λ d. IsRead scale text.now d.sign d.absolute) }
    ensures valid { IfOk result (λ d. IsUnsigned d.absolute) }
    ensures suffix { (fault : NotScaled) → text_unit scale text.now ≡ Err fault
        → result ≡ Err fault }
    ensures suffix_only { (fault : NotScaled) → IsOfSuffix fault → IsErrOf result fault
        → text_unit scale text.now ≡ Err fault }
    ensures number { IsOk (text_unit scale text.now)
        → (IsErrOf result NotScaled.Number ↔ ReadsNothing (number_part text.now)) }
    ensures limit { IsErrOf result NotScaled.Limit → IsReadPastLimits scale text.now }
{
    let bytes = text.as_bytes();
    let count = number_length(bytes);
    let (number, suffix) = bytes.split_at(count);
    match suffix_unit(scale, count, suffix) {
        Ok(unit) => number_in_unit(alloc, number, unit),
        Err(fault) => Err(fault),
    }
}
