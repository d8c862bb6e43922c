//! Compact numbers by a rounding that is asked for, with their currency or with a unit.

ghost use Rattle.std.specs.Prelude.{◌≡◌, Ok};
ghost use Rattle.decimal_lines.specs.SingleText.{WroteEvents};
ghost use Rattle.icu_decimal.specs.CompactFormat.{exponent_needed};
ghost use Rattle.icu_dimension.specs.CompactMoney.{formatter_of};
ghost use Rattle.number_forms.specs.ShortenedWith.{money_given, money_shortened, names_given, names_shortened, operands_shown, units_given};
ghost use Rattle.number_forms.specs.ShortenedWith.{units_shortened};

use crate::shortened::shorten;
use decimal_lines::TextError;
use fixed_decimal::{Decimal, Sign};
use icu_decimal::CompactDecimalFormatter;
use icu_dimension::{CompactCurrencyFormatter, LongCurrencyFormatter, UnitsFormatter};
use icu_plurals::PluralOperands;
use number_rounding::{Rounding, ShownNumber};
use std::alloc::Global;
use writeable::{EventWriter, WriteFault};

/// The plural operands of what is shown, with its exponent.
fn operands_shown(shown: &ShownNumber) -> PluralOperands
    ensures { result ≡ operands_shown (record {
      significand = shown.now.significand.absolute;
      exponent = shown.now.exponent;
    }) }
{
    PluralOperands::from_significand_and_exponent(&shown.significand.absolute, shown.exponent)
}

/// Writes a number that is shown with its unit.
fn write_units_of<K: EventWriter>(
    units: &UnitsFormatter<CompactDecimalFormatter>,
    sign: Sign,
    shown: &ShownNumber,
    out: &mut K,
) -> Result<(), WriteFault>
    requires { shown.now.exponent ≡ exponent_needed units.now.formatter
        shown.now.significand.absolute shown.now.exponent }
    ensures { K.wrote out.old result (units_given units.now sign (record {
      significand = shown.now.significand.absolute;
      exponent = shown.now.exponent;
    })) out.new }
{
    let significand = &shown.significand;
    let operands = operands_shown(shown);
    let Ok(formatted) = units
        .formatter()
        .format_with_exponent(significand, shown.exponent)
    else {
        unreachable!();
    };
    units.write_given(sign, operands, formatted.value(), out)
}

/// Writes a number that is shown with its unit; a writer that fails counts as out of
/// memory.
fn write_units_given<K: EventWriter>(
    units: &UnitsFormatter<CompactDecimalFormatter>,
    sign: Sign,
    shown: &ShownNumber,
    out: &mut K,
) -> Result<(), TextError>
    requires { shown.now.exponent ≡ exponent_needed units.now.formatter
        shown.now.significand.absolute shown.now.exponent }
    ensures { WroteEvents K.wrote out.old result (Ok (units_given units.now sign (record {
      significand = shown.now.significand.absolute;
      exponent = shown.now.exponent;
    }))) out.new }
{
    match write_units_of(units, sign, shown, out) {
        Ok(()) => Ok(()),
        Err(_) => Err(TextError::OutOfMemory),
    }
}

/// Writes a number that is shown with the name of its currency.
fn write_names_of<K: EventWriter>(
    names: &LongCurrencyFormatter<CompactDecimalFormatter>,
    sign: Sign,
    shown: &ShownNumber,
    out: &mut K,
) -> Result<(), WriteFault>
    requires { shown.now.exponent ≡ exponent_needed names.now.formatter
        shown.now.significand.absolute shown.now.exponent }
    ensures { K.wrote out.old result (names_given names.now sign (record {
      significand = shown.now.significand.absolute;
      exponent = shown.now.exponent;
    })) out.new }
{
    let significand = &shown.significand;
    let operands = operands_shown(shown);
    let Ok(formatted) = names
        .formatter()
        .format_with_exponent(significand, shown.exponent)
    else {
        unreachable!();
    };
    names.write_given(sign, operands, formatted.value(), out)
}

/// Writes a number that is shown with the name of its currency; a writer that fails counts as out of
/// memory.
fn write_names_given<K: EventWriter>(
    names: &LongCurrencyFormatter<CompactDecimalFormatter>,
    sign: Sign,
    shown: &ShownNumber,
    out: &mut K,
) -> Result<(), TextError>
    requires { shown.now.exponent ≡ exponent_needed names.now.formatter
        shown.now.significand.absolute shown.now.exponent }
    ensures { WroteEvents K.wrote out.old result (Ok (names_given names.now sign (record {
      significand = shown.now.significand.absolute;
      exponent = shown.now.exponent;
    }))) out.new }
{
    match write_names_of(names, sign, shown, out) {
        Ok(()) => Ok(()),
        Err(_) => Err(TextError::OutOfMemory),
    }
}

/// Writes what is shown of a number with its unit.
pub(crate) fn write_units_shortened<K: EventWriter>(
    alloc: Global,
    rounding: &Rounding,
    units: &UnitsFormatter<CompactDecimalFormatter>,
    decimal: &Decimal,
    out: &mut K,
) -> Result<(), TextError>
    ensures { WroteEvents K.wrote out.old result (units_shortened rounding.now units.now
        decimal.now.sign decimal.now.absolute) out.new }
{
    match shorten(alloc, rounding, units.formatter(), decimal) {
        Ok(shown) => write_units_given(units, decimal.sign, &shown, out),
        Err(error) => Err(error),
    }
}

/// Writes what is shown of an amount with the name of its currency.
pub(crate) fn write_names_shortened<K: EventWriter>(
    alloc: Global,
    rounding: &Rounding,
    names: &LongCurrencyFormatter<CompactDecimalFormatter>,
    decimal: &Decimal,
    out: &mut K,
) -> Result<(), TextError>
    ensures { WroteEvents K.wrote out.old result (names_shortened rounding.now names.now
        decimal.now.sign decimal.now.absolute) out.new }
{
    match shorten(alloc, rounding, names.formatter(), decimal) {
        Ok(shown) => write_names_given(names, decimal.sign, &shown, out),
        Err(error) => Err(error),
    }
}

/// Writes an amount that is shown with the symbol of its currency.
fn write_money_given<K: EventWriter>(
    money: &CompactCurrencyFormatter,
    shown: &ShownNumber,
    out: &mut K,
) -> Result<(), TextError>
    requires { shown.now.exponent ≡ exponent_needed
        (formatter_of money.now shown.now.significand.sign)
        shown.now.significand.absolute shown.now.exponent }
    ensures { WroteEvents K.wrote out.old result
        (Ok (money_given money.now shown.now.significand.sign (record {
          significand = shown.now.significand.absolute;
          exponent = shown.now.exponent;
        }))) out.new }
{
    match money.write_given(&shown.significand, shown.exponent, out) {
        Ok(()) => Ok(()),
        Err(_) => Err(TextError::OutOfMemory),
    }
}

/// Writes what is shown of an amount with the symbol of its currency.
pub(crate) fn write_money_shortened<K: EventWriter>(
    alloc: Global,
    rounding: &Rounding,
    money: &CompactCurrencyFormatter,
    decimal: &Decimal,
    out: &mut K,
) -> Result<(), TextError>
    ensures { WroteEvents K.wrote out.old result (money_shortened rounding.now money.now
        decimal.now.sign decimal.now.absolute) out.new }
{
    match shorten(alloc, rounding, money.for_sign(decimal.sign), decimal) {
        Ok(shown) => write_money_given(money, &shown, out),
        Err(error) => Err(error),
    }
}
