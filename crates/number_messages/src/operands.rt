//! The plural operands of what a formatter writes.

ghost use Rattle.std.specs.Prelude.{◌≡◌, IfOk};
ghost use Rattle.icu_plurals.specs.Operands.{operands_of};
ghost use Rattle.number_messages.specs.Operands.{HasCompactOperands, HasModeOperands, HasOperands, HasShortOperands};

use decimal_lines::{Mode, TextError};
use fixed_decimal::Decimal;
use icu_decimal::CompactDecimalFormatter;
use icu_decimal_data::laws::entries_are_a_compact_table;
use icu_decimal_interface::AbstractFormatter;
use icu_plurals::PluralOperands;
use number_formatters::Formatter;
use number_rounding::{Rounding, divides_one, shown};
use std::alloc::Global;

/// The operands of a number in full.
fn plain_operands(decimal: &Decimal) -> PluralOperands
    ensures { result ≡ operands_of decimal.now.absolute 0 }
{
    PluralOperands::from_significand_and_exponent(&decimal.absolute, 0)
}

/// The operands of the nearest compact number.
fn compact_operands(
    alloc: Global,
    formatter: &CompactDecimalFormatter,
    decimal: &Decimal,
) -> Result<PluralOperands, TextError>
    ensures { IfOk result
        (λ o. HasCompactOperands formatter.now decimal.now.absolute o) }
{
    match formatter.plural_operands(alloc, &decimal.absolute) {
        Ok(operands) => Ok(operands),
        Err(_) => Err(TextError::OutOfMemory),
    }
}

/// The operands of a compact number with digits that are asked for.
fn short_operands(
    alloc: Global,
    rounding: &Rounding,
    formatter: &CompactDecimalFormatter,
    decimal: &Decimal,
) -> Result<PluralOperands, TextError>
    ensures { IfOk result (λ o. HasShortOperands rounding.now formatter.now decimal.now.sign
        decimal.now.absolute o) }
{
    if !divides_one(&rounding.precision) {
        return Err(TextError::OutOfMemory);
    }
    let table = formatter.patterns();
    entries_are_a_compact_table(table);
    match shown(alloc, rounding, Some(table), decimal) {
        Ok(shown) => Ok(PluralOperands::from_significand_and_exponent(
            &shown.significand.absolute,
            shown.exponent,
        )),
        Err(_) => Err(TextError::OutOfMemory),
    }
}

/// The operands of what numbers are written by.
fn mode_operands(alloc: Global, mode: &Mode, decimal: &Decimal) -> Result<PluralOperands, TextError>
    ensures { IfOk result (λ o. HasModeOperands mode.now decimal.now.absolute o) }
{
    match mode {
        Mode::Plain(_) => Ok(plain_operands(decimal)),
        Mode::Compact(formatter) => compact_operands(alloc, formatter, decimal),
    }
}

/// The operands of what a formatter writes for a decimal. The formatter writes one: so what is
/// reported is that memory ran out.
pub(crate) fn operands_shown(
    alloc: Global,
    formatter: &Formatter,
    decimal: &Decimal,
) -> Result<PluralOperands, TextError>
    ensures { IfOk result (λ o. HasOperands formatter.now decimal.now.sign
        decimal.now.absolute o) }
{
    match formatter {
        Formatter::Numbers(mode) => mode_operands(alloc, mode, decimal),
        Formatter::ShortNumbers(numbers, by) => short_operands(alloc, by, numbers, decimal),
        Formatter::Money(_)
        | Formatter::MoneyNamed(_)
        | Formatter::Percent(_)
        | Formatter::Units(_) => Ok(plain_operands(decimal)),
        Formatter::MoneyShort(money) => {
            compact_operands(alloc, money.for_sign(decimal.sign), decimal)
        }
        Formatter::ShortMoney(money, by) => {
            short_operands(alloc, by, money.for_sign(decimal.sign), decimal)
        }
        Formatter::ShortNamed(names, by) => {
            short_operands(alloc, by, names.formatter(), decimal)
        }
        Formatter::ShortUnits(units, by) => {
            short_operands(alloc, by, units.formatter(), decimal)
        }
    }
}
