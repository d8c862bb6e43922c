//! Compact numbers by a rounding that is asked for.

ghost use Rattle.std.specs.Prelude.{◌≡◌, Ok, IfErr, IfOk};
ghost use Rattle.fixed_decimal.specs.SignDisplay.{is_negative};
ghost use Rattle.icu_decimal.specs.CompactFormat.{events_with_exponent, exponent_needed};
ghost use Rattle.decimal_lines.specs.SingleText.{IsRefusal, WroteEvents};
ghost use Rattle.number_forms.specs.Shortened.{divides_one, shortened, shortened_events, shortened_number};

use crate::scaled::scale;
use decimal_lines::TextError;
use fixed_decimal::Decimal;
use icu_decimal::CompactDecimalFormatter;
use icu_decimal_data::laws::entries_are_a_compact_table;
use number_rounding::{Rounding, ShownError, ShownNumber, divides_one, shown};
use skeleton_settings::Precision;
use std::alloc::Global;
use writeable::{EventWriter, Writeable};

/// Whether compact numbers have the increment of a precision: 1 is a multiple of it. A precision
/// without an increment they have (this project's own).
pub fn has_compact_increment(precision: &Precision) -> bool
    ensures { result ≡ divides_one precision.now }
{
    divides_one(precision)
}

/// What compact numbers by a rounding show of a number: a significand with the number's sign, and
/// the exponent of its pattern (this project's own).
///
/// `Overflow` where the shown number is too large, and for an increment of which 1 is no multiple
/// (see [`has_compact_increment`]).
// promise: Significand and exponent are those of the shown number.
// mutations: compact_number_always_rounded_down
pub fn shorten(
    alloc: Global,
    rounding: &Rounding,
    formatter: &CompactDecimalFormatter,
    decimal: &Decimal,
) -> Result<ShownNumber, TextError>
    ensures ok { IfOk result (λ r. shortened rounding.now formatter.now.table
        (is_negative decimal.now.sign) decimal.now.absolute ≡ Ok (record {
          significand = r.significand.absolute;
          exponent = r.exponent;
        })) }
    ensures sign { IfOk result (λ r. r.significand.sign ≡ decimal.now.sign) }
    ensures needed { IfOk result (λ r.
        r.exponent ≡ exponent_needed formatter.now r.significand.absolute r.exponent) }
    ensures refused { IfErr result (λ error. IsRefusal (shortened rounding.now formatter.now.table
        (is_negative decimal.now.sign) decimal.now.absolute) error) }
{
    if !divides_one(&rounding.precision) {
        return Err(TextError::Overflow);
    }
    let table = formatter.patterns();
    entries_are_a_compact_table(table);
    match shown(alloc, rounding, Some(table), decimal) {
        Ok(shown) => Ok(shown),
        Err(ShownError::Overflow) => Err(TextError::Overflow),
        Err(ShownError::OutOfMemory) => Err(TextError::OutOfMemory),
    }
}

/// The number that is shown.
pub(crate) fn shortened_number(
    alloc: Global,
    rounding: &Rounding,
    formatter: &CompactDecimalFormatter,
    decimal: &Decimal,
) -> Result<Decimal, TextError>
    ensures ok { IfOk result (λ d. shortened_number rounding.now formatter.now decimal.now.sign
        decimal.now.absolute ≡ Ok d.absolute) }
    ensures sign { IfOk result (λ d. d.sign ≡ decimal.now.sign) }
    ensures refused { IfErr result (λ error. IsRefusal (shortened_number rounding.now formatter.now
        decimal.now.sign decimal.now.absolute) error) }
{
    let shown = shorten(alloc, rounding, formatter, decimal)?;
    let (mut number, exponent) = (shown.significand, shown.exponent);
    scale(alloc, &mut number, i16::from(exponent))?;
    Ok(number)
}

/// Writes a significand with its exponent.
fn write_given<K: EventWriter>(
    formatter: &CompactDecimalFormatter,
    significand: &Decimal,
    exponent: u8,
    out: &mut K,
) -> Result<(), TextError>
    requires { exponent ≡ exponent_needed formatter.now significand.now.absolute exponent }
    ensures { WroteEvents K.wrote out.old result (Ok (events_with_exponent formatter.now
        significand.now.sign significand.now.absolute exponent)) out.new }
{
    match formatter.format_with_exponent(significand, exponent) {
        Ok(formatted) => match formatted.write_events(out) {
            Ok(()) => Ok(()),
            Err(_) => Err(TextError::OutOfMemory),
        },
        Err(_) => unreachable!(),
    }
}

/// Writes what is shown of a number.
pub(crate) fn write_shortened<K: EventWriter>(
    alloc: Global,
    rounding: &Rounding,
    formatter: &CompactDecimalFormatter,
    decimal: &Decimal,
    out: &mut K,
) -> Result<(), TextError>
    ensures { WroteEvents K.wrote out.old result (shortened_events rounding.now formatter.now
        decimal.now.sign decimal.now.absolute) out.new }
{
    match shorten(alloc, rounding, formatter, decimal) {
        Ok(shown) => write_given(formatter, &shown.significand, shown.exponent, out),
        Err(error) => Err(error),
    }
}
