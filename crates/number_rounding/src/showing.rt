//! What is shown of a number.

ghost use Rattle.std.specs.Prelude.{◌≡◌, ◌≤◌, ◌<◌, ◌-◌, ◌*◌, ◌^◌, ◌⊎◌, ◌↔◌, ℕ, [], IfOk, OnOk, IsErrOf};
ghost use Rattle.fixed_decimal.specs.Unsigned.{IsUnsigned};
ghost use Rattle.fixed_decimal.specs.Size.{finest, place, size, magnitude};
ghost use Rattle.fixed_decimal.specs.Nearest.{IsMultiple};
ghost use Rattle.fixed_decimal.specs.Modes.{IsTaken, size_mode};
ghost use Rattle.fixed_decimal.specs.RoundedBy.{RoundsPastLimitsBy};
ghost use Rattle.fixed_decimal.specs.SignDisplay.{is_negative};
ghost use Rattle.icu_decimal_data.specs.CompactTable.{IsCompactTable, IsIndex, entry_at, entry_for, exponent_of};
ghost use Rattle.number_rounding.specs.Steps.{step, DividesOne};
ghost use Rattle.number_rounding.specs.Shown.{entries_of, IsShown, ShowsPastLimits};

use crate::rounded::rounded_for;
use crate::significand::significand_of;
use crate::{Rounding, ShownError};
use fixed_decimal::{Decimal, Sign};
use icu_decimal_data::CompactPatterns;
use icu_pattern::PatternBackend;
use std::alloc::Global;

/// What is shown of a number: a significand with its written digits and the sign of the number, and
/// the exponent and the index of the entry of a compact table, if there is one.
#[derive(Drop)]
pub struct ShownNumber {
    /// The significand.
    pub significand: Decimal,
    /// The exponent.
    pub exponent: u8,
    /// The index of the entry.
    pub entry: Option<usize>,
}

/// What is shown of a number by a rounding and the entries of a compact table, if there is one. It
/// is rounded once, at the unit of its own magnitude; the entry is that of the rounded number.
///
/// A number of `1.50` by `@@+` and a table is `1.5`: digits as they are given are of no account.
// promise: The showable number is shown that the mode takes.
// mutations: entry_of_the_input_after_a_carry, mode_by_the_other_sign
// promise: The significand has the digits it needs and those wanted.
// mutations: least_digits_as_before_a_carry, zeros_of_whole_kept
// promise: `Overflow` comes only where a power would be out of range.
// mutations: overflow_where_memory_failed
pub fn shown<P: PatternBackend>(
    alloc: Global,
    rounding: &Rounding,
    table: Option<&CompactPatterns<P>>,
    decimal: &Decimal,
) -> Result<ShownNumber, ShownError>
    requires { (entries_of table ≡ []) ⊎ DividesOne rounding.now.precision }
    ensures shown { IfOk result (λ r. (y : ℕ)
        × IsShown rounding.now (entries_of table.entry) (is_negative decimal.now.sign)
        (size decimal.now.absolute) y (entry_at (entries_of table.entry) r.entry)
        r.significand.absolute) }
    ensures sign { IfOk result (λ r. r.significand.sign ≡ decimal.now.sign) }
    ensures exponent { IfOk result (λ r.
        r.exponent ≡ exponent_of (entry_at (entries_of table.entry) r.entry)) }
    ensures index { IfOk result (λ r. IsIndex (entries_of table.entry) r.entry) }
    ensures overflow { IsErrOf result ShownError.Overflow
        → ShowsPastLimits rounding.now (entries_of table.entry) (is_negative decimal.now.sign)
        (size decimal.now.absolute) }
    ensures within { OnOk result (¬ (ShowsPastLimits rounding.now (entries_of table.entry)
        (is_negative decimal.now.sign) (size decimal.now.absolute))) }
{
    match decimal.copy(alloc) {
        Ok(copy) => shown_of(alloc, rounding, table, copy),
        Err(_) => Err(ShownError::OutOfMemory),
    }
}

/// The same of a number that isn't needed any more.
fn shown_of<P: PatternBackend>(
    alloc: Global,
    rounding: &Rounding,
    table: Option<&CompactPatterns<P>>,
    decimal: Decimal,
) -> Result<ShownNumber, ShownError>
    requires { (entries_of table ≡ []) ⊎ DividesOne rounding.now.precision }
    ensures shown { IfOk result (λ r. (y : ℕ)
        × IsShown rounding.now (entries_of table.entry) (is_negative decimal.sign)
        (size decimal.absolute) y (entry_at (entries_of table.entry) r.entry)
        r.significand.absolute) }
    ensures sign { IfOk result (λ r. r.significand.sign ≡ decimal.sign) }
    ensures exponent { IfOk result (λ r.
        r.exponent ≡ exponent_of (entry_at (entries_of table.entry) r.entry)) }
    ensures index { IfOk result (λ r. IsIndex (entries_of table.entry) r.entry) }
    ensures overflow { IsErrOf result ShownError.Overflow
        → ShowsPastLimits rounding.now (entries_of table.entry) (is_negative decimal.sign)
        (size decimal.absolute) }
    ensures within { OnOk result (¬ (ShowsPastLimits rounding.now (entries_of table.entry)
        (is_negative decimal.sign) (size decimal.absolute))) }
{
    let Decimal { sign, absolute } = decimal;
    let minus = is_minus(sign);
    let power = absolute.nonzero_magnitude_start();
    let exponent = exponent_at(table, entry_index(table, power));
    let rounded = match rounded_for(rounding, absolute, power, exponent, minus) {
        Ok(rounded) => rounded,
        Err(error) => return Err(error),
    };
    let entry = entry_index(table, rounded.nonzero_magnitude_start());
    let exponent = exponent_at(table, entry);
    match significand_of(alloc, rounding, rounded, exponent) {
        Ok(absolute) => Ok(ShownNumber {
            significand: Decimal { sign, absolute },
            exponent,
            entry,
        }),
        Err(error) => Err(error),
    }
}

/// Whether a sign is a minus.
fn is_minus(sign: Sign) -> bool
    ensures { result ≡ is_negative sign }
{
    match sign {
        Sign::Negative => true,
        Sign::None | Sign::Positive => false,
    }
}

/// The index of the entry for a magnitude.
#[tactic(auto, unfolding(icu_decimal_data::specs::CompactTable::entry_for))]
fn entry_index<P: PatternBackend>(table: Option<&CompactPatterns<P>>, power: i16) -> Option<usize>
    ensures entry { entry_at (entries_of table.entry) result
        ≡ entry_for (entries_of table.entry) (place power) }
    ensures index { IsIndex (entries_of table.entry) result }
    ensures table { IsCompactTable (entries_of table.entry) }
{
    match table {
        Some(table) => table.entry_index(power as i32),
        None => None,
    }
}

/// The exponent of an entry, 0 without one.
fn exponent_at<P: PatternBackend>(table: Option<&CompactPatterns<P>>, index: Option<usize>) -> u8
    requires { IsIndex (entries_of table) index }
    ensures { result ≡ exponent_of (entry_at (entries_of table.entry) index) }
{
    match (table, index) {
        (Some(table), Some(index)) => table.exponent(index),
        _ => 0,
    }
}
