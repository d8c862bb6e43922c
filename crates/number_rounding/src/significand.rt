//! The significand of a rounded number, with the digits that are written.

ghost use Rattle.std.specs.Prelude.{◌≡◌, ◌↔◌, ◌≤◌, ◌<◌, ◌+◌, ◌*◌, ◌^◌, ◌⊎◌, ℕ, IfOk, OnOk, IsTrue, All, IsErrOf, pos, ◌-ℤ◌};
ghost use Rattle.std.specs.Int.{int_max};
ghost use Rattle.fixed_decimal.specs.Unsigned.{IsUnsigned, high};
ghost use Rattle.fixed_decimal.specs.Size.{finest, place, size, magnitude};
ghost use Rattle.fixed_decimal.specs.Padding.{IsExactWith};
ghost use Rattle.number_rounding.specs.LeastDigits.{significant_below, chosen_least, least_digits};
ghost use Rattle.number_rounding.specs.Steps.{fraction_place, significant_place};
ghost use Rattle.number_rounding.specs.Shown.{is_whole, least_fraction_digits, IsFractionCount};

use crate::places::{FINEST, UNRESOLVED, fraction_place, place_of, significant_place};
use crate::{Rounding, ShownError};
use fixed_decimal::{DecimalError, UnsignedDecimal};
use skeleton_settings::{Precision, Priority};
use std::alloc::Global;

/// A number over ten to an exponent, without zeros at its end below power 0.
fn over_ten_to(value: UnsignedDecimal, exponent: u8) -> Result<UnsignedDecimal, ShownError>
    requires { IsUnsigned value }
    ensures size { IfOk result (λ s. size s * 10 ^ exponent ≡ size value) }
    ensures valid { IfOk result (λ s. IsUnsigned s) }
    ensures overflow { IsErrOf result ShownError.Overflow → (s : ℕ)
        × (s * 10 ^ exponent ≡ size value) × ((n : ℕ) → IsExactWith s n → 32768 < n) }
{
    match value.trimmed_end().multiplied_pow10(-(exponent as i16)) {
        Ok(significand) => Ok(significand),
        Err((_, DecimalError::OutOfMemory)) => Err(ShownError::OutOfMemory),
        Err((_, DecimalError::Limit)) => Err(ShownError::Overflow),
        Err((_, DecimalError::Syntax)) => unreachable!(),
    }
}

/// How many of that many significant digits, the first of which stands at `k`, stand below power 0.
fn significant_below(few: u16, k: u32) -> usize
    requires { k ≤ finest + 32767 }
    ensures { result ≡ significant_below few k }
{
    (few as u32 + FINEST).saturating_sub(k + 1) as usize
}

/// The least count of the kind of digits that the priority chooses.
fn chosen_least(priority: Priority, is_finer: bool, significant: usize, fraction: usize) -> usize
    ensures { result ≡ chosen_least priority is_finer significant fraction }
{
    match priority {
        Priority::Relaxed if is_finer => significant,
        Priority::Relaxed => fraction,
        Priority::Strict if is_finer => fraction,
        Priority::Strict => significant,
    }
}

/// How many digits below power 0 a significand of a magnitude has at least.
fn least_digits(precision: Precision, power: i16) -> usize
    ensures { (s : ℕ) → power ≡ magnitude s → result ≡ least_digits precision s }
{
    let k = place_of(power);
    match precision {
        Precision::Fraction { least, .. } => least as usize,
        Precision::Significant { least, .. } => significant_below(least, k),
        Precision::Increment { least, .. } => least as usize,
        Precision::Currency { .. } => UNRESOLVED as usize,
        Precision::Both {
            least,
            keeps_least: true,
            ..
        } => least as usize,
        Precision::Both {
            least,
            most,
            few,
            many,
            priority,
            keeps_least: false,
        } => chosen_least(
            priority,
            significant_place(many, k) <= fraction_place(most),
            significant_below(few, k),
            least as usize,
        ),
    }
}

/// Whether each digit is 0.
fn is_all_zero(digits: &[u8]) -> bool
    ensures { IsTrue result ↔ All (λ d. d ≡ 0) digits.now }
{
    digits.iter().all(|digit| *digit == 0)
}

/// Whether a number is whole.
fn is_whole(value: &UnsignedDecimal) -> bool
    ensures { result ≡ is_whole (size value.now) }
{
    is_all_zero(value.fraction())
}

/// How many digits below power 0 a significand has at least.
fn least_fraction_digits(rounding: &Rounding, significand: &UnsignedDecimal) -> usize
    ensures { result ≡ least_fraction_digits rounding.now (size significand.now) }
{
    if rounding.hides_zeros_of_whole && is_whole(significand) {
        return 0;
    }
    least_digits(rounding.precision, significand.nonzero_magnitude_start())
}

/// The significand of a rounded number over ten to an exponent. It has the digits that it needs,
/// and those that the rounding wants.
pub(crate) fn significand_of(
    alloc: Global,
    rounding: &Rounding,
    value: UnsignedDecimal,
    exponent: u8,
) -> Result<UnsignedDecimal, ShownError>
    requires { IsUnsigned value }
    ensures size { IfOk result (λ s. size s * 10 ^ exponent ≡ size value) }
    ensures valid { IfOk result (λ s. IsUnsigned s) }
    ensures high { IfOk result (λ s. high s ≡ int_max
        (int_max (pos 0) (pos rounding.now.integer_digits -ℤ pos 1)) (magnitude (size s))) }
    ensures scale { IfOk result (λ s. IsFractionCount rounding.now (size s) s.scale) }
    ensures overflow { IsErrOf result ShownError.Overflow → (32768 < rounding.now.integer_digits)
        ⊎ ((s : ℕ) × (count : ℕ) × (s * 10 ^ exponent ≡ size value)
        × IsFractionCount rounding.now s count × (32768 < count)) }
    ensures within { OnOk result (rounding.now.integer_digits ≤ 32768) }
{
    let significand = match over_ten_to(value, exponent) {
        Ok(significand) => significand,
        Err(error) => return Err(error),
    };
    let least = least_fraction_digits(rounding, &significand);
    match significand.padded(alloc, rounding.integer_digits as usize, least) {
        Ok(padded) => Ok(padded),
        Err(DecimalError::OutOfMemory) => Err(ShownError::OutOfMemory),
        Err(DecimalError::Limit) => Err(ShownError::Overflow),
        Err(DecimalError::Syntax) => unreachable!(),
    }
}
