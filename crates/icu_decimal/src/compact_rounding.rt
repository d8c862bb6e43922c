//! The nearest compact number of a decimal: the entry by which it is displayed, and its
//! significand.

ghost use Rattle.std.specs.Prelude.{◌≡◌, ◌≢◌, ℕ, ◌*◌, ◌^◌, ◌⊎◌, IfOk, IfErr, IsErrOf, IsOkUnless, ◌↔◌, ℤ, pos, ◌-ℤ◌, ◌≤ℤ◌, ◌<ℤ◌};
ghost use Rattle.std.specs.Int.{int_max};
ghost use Rattle.fixed_decimal.specs.Size.{place, ten_to, magnitude_place, magnitude, size};
ghost use Rattle.fixed_decimal.specs.Trimming.{IsTrimmed};
ghost use Rattle.fixed_decimal.specs.Unsigned.{IsUnsigned, high};
ghost use Rattle.icu_decimal_data.specs.CompactTable.{IsIndex, entry_at, entry_for, exponent_of};
ghost use Rattle.icu_decimal.specs.CompactNumber.{rounding_place, ShowsPastLimits};
ghost use Rattle.icu_decimal.specs.Decomposed.{IsDecomposed};
ghost use Rattle.icu_decimal.specs.RoundedAt.{IsRoundedAt, RoundsPast};

use crate::error::FormatError;
use fixed_decimal::{DecimalError, UnsignedDecimal};
use icu_decimal_data::CompactPatterns;
use icu_pattern::PatternBackend;
use std::alloc::Global;

/// A significand, and the entry by which it is displayed.
#[derive(Drop)]
pub(crate) struct Compacted {
    pub(crate) significand: UnsignedDecimal,
    pub(crate) exponent: u8,
    pub(crate) index: Option<usize>,
}

/// The nearest compact number.
pub(crate) fn nearest_compact<P: PatternBackend>(
    alloc: Global,
    table: &CompactPatterns<P>,
    value: &UnsignedDecimal,
) -> Result<Compacted, FormatError>
    ensures decomposed { IfOk result (λ r. (y : ℕ)
        × IsDecomposed table.now value.now y (entry_at table.now r.index) r.significand) }
    ensures exponent { IfOk result (λ r. r.exponent ≡ exponent_of (entry_at table.now r.index)) }
    ensures index { IfOk result (λ r. IsIndex table.now r.index) }
    ensures overflow { IsErrOf result FormatError.Overflow
        ↔ ShowsPastLimits table.now (size value.now) }
    ensures no_sink { IfErr result (λ e. e ≢ FormatError.Sink) }
{
    let power = value.nonzero_magnitude_start();
    let index = table.entry_index(power as i32);
    let exponent = exponent_or_zero(table, index);
    let significand = significand_at(alloc, value, power, exponent)?;
    let to = significand.nonzero_magnitude_start() as i32 + exponent as i32;
    let reached = reached_index(table, index, power, to);
    if reached == index {
        return Ok(Compacted {
            significand,
            exponent,
            index,
        });
    }
    let reached_exponent = exponent_or_zero(table, reached);
    let left = power_left(to, reached_exponent);
    match power_of_ten(alloc, left) {
        Ok(ten) => Ok(Compacted {
            significand: ten,
            exponent: reached_exponent,
            index: reached,
        }),
        Err(_) => Err(FormatError::OutOfMemory),
    }
}

/// The exponent of an entry, 0 without one.
pub(crate) fn exponent_or_zero<P: PatternBackend>(
    table: &CompactPatterns<P>,
    index: Option<usize>,
) -> u8
    requires { IsIndex table.now index }
    ensures { result ≡ exponent_of (entry_at table.now index) }
{
    match index {
        Some(index) => table.exponent(index),
        None => 0,
    }
}

/// The index of the entry at the magnitude that rounding reached; it is looked up only after a
/// carry.
fn reached_index<P: PatternBackend>(
    table: &CompactPatterns<P>,
    index: Option<usize>,
    power: i16,
    to: i32,
) -> Option<usize>
    requires entry { entry_at table.now index ≡ entry_for table.now (place power) }
    requires index { IsIndex table.now index }
    ensures entry { entry_at table.now result ≡ entry_for table.now (place to) }
    ensures index { IsIndex table.now result }
{
    if to == power as i32 {
        index
    } else {
        table.entry_index(to)
    }
}

/// A power less an exponent.
fn power_left(power: i32, exponent: u8) -> i16
    requires exponent { pos exponent ≤ℤ power }
    requires within { power ≤ℤ pos 32767 }
    ensures left { result ≡ power -ℤ pos exponent }
    ensures low { pos 0 ≤ℤ result }
{
    (power - exponent as i32) as i16
}

/// Ten to a power from 0 on.
fn power_of_ten(alloc: Global, power: i16) -> Result<UnsignedDecimal, DecimalError>
    requires { pos 0 ≤ℤ power }
    ensures size { IfOk result (λ s. size s ≡ ten_to power) }
    ensures high { IfOk result (λ s. high s ≡ power) }
    ensures trimmed { IfOk result (λ s. IsTrimmed s) }
    ensures valid { IfOk result (λ s. IsUnsigned s) }
    ensures memory { IsOkUnless result DecimalError.OutOfMemory }
{
    match UnsignedDecimal::one(alloc)?.multiplied_pow10(power) {
        Ok(power) => Ok(power),
        Err((_, error)) => Err(error),
    }
}

/// The power at which a number of a magnitude is rounded, given the exponent for that magnitude.
fn round_power(exponent: u8, magnitude: i16) -> i32
    ensures place { place result ≡ rounding_place exponent (place magnitude) }
    ensures below { result <ℤ magnitude }
    ensures high { (exponent ≡ 0) ⊎ (pos exponent ≤ℤ magnitude)
        → (exponent ≡ 0) ⊎ (pos 0 ≤ℤ result) }
    ensures low { result <ℤ pos 0 → result ≡ magnitude -ℤ pos 1 }
{
    let magnitude = magnitude as i32;
    let exponent = exponent as i32;
    if magnitude > exponent {
        exponent
    } else {
        magnitude - 1
    }
}

/// The number, rounded at the power that its magnitude and the exponent determine, and divided by
/// ten to the exponent.
fn significand_at(
    alloc: Global,
    value: &UnsignedDecimal,
    power: i16,
    exponent: u8,
) -> Result<UnsignedDecimal, FormatError>
    requires power { power ≡ magnitude (size value.now) }
    requires valid { IsUnsigned value.now }
    requires exponent { (exponent ≡ 0) ⊎ (pos exponent ≤ℤ power) }
    ensures nearest { IfOk result (λ s.
        IsRoundedAt (rounding_place exponent (magnitude_place (size value.now))) (size value.now)
        (size s * 10 ^ exponent)) }
    ensures high { IfOk result (λ s.
        high s ≡ int_max (pos 0)
        (int_max (high value.now) (magnitude (size s * 10 ^ exponent)) -ℤ pos exponent)) }
    ensures trimmed { IfOk result (λ s. IsTrimmed s) }
    ensures valid { IfOk result (λ s. IsUnsigned s) }
    ensures overflow { IsErrOf result FormatError.Overflow
        ↔ RoundsPast (rounding_place exponent (magnitude_place (size value.now))) (size value.now) }
    ensures no_sink { IfErr result (λ e. e ≢ FormatError.Sink) }
{
    let at = round_power(exponent, power);
    if at < -32768 {
        return match value.copy(alloc) {
            Ok(copy) => Ok(copy.trimmed_end()),
            Err(_) => Err(FormatError::OutOfMemory),
        };
    }
    match value.rounded_significand(alloc, at as i16, exponent) {
        Ok(significand) => Ok(significand),
        Err(DecimalError::Limit) => Err(FormatError::Overflow),
        Err(DecimalError::OutOfMemory) => Err(FormatError::OutOfMemory),
        Err(DecimalError::Syntax) => unreachable!(),
    }
}
