//! Ranges of compact numbers with a unit or with the name of a currency, by a rounding that is
//! asked for.

ghost use Rattle.std.specs.Prelude.{◌≡◌, ◌≢◌, IfErr, IfOk, OnOk, Ok};
ghost use Rattle.icu_decimal.specs.CompactFormat.{exponent_needed};
ghost use Rattle.number_forms.specs.ShortenedWith.{operands_shown};
ghost use Rattle.number_ranges.specs.Compact.{end_shown, names_shortened, names_shown, start_shown, units_shortened, units_shown};
ghost use Rattle.number_ranges.specs.WroteRange.{AppendsRange, IsRefusal};

use crate::error::RangeTextError;
use crate::given::{push_given_names, push_given_units};
use crate::reported::{end_error, start_error};
use fixed_decimal::Decimal;
use icu_decimal::CompactDecimalFormatter;
use icu_dimension::{LongCurrencyFormatter, UnitsFormatter};
use icu_plurals::PluralOperands;
use icu_unit_ranges::{GivenNumber, PluralRangeStyle};
use number_forms::shorten;
use number_rounding::{Rounding, ShownNumber};
use std::alloc::Global;

/// What is shown of the start.
fn start_shown(
    alloc: Global,
    by: &Rounding,
    formatter: &CompactDecimalFormatter,
    decimal: &Decimal,
) -> Result<ShownNumber, RangeTextError>
    ensures ok { IfOk result (λ r. start_shown by.now formatter.now
        (decimal.now.sign, decimal.now.absolute) ≡ Ok (record {
          significand = r.significand.absolute;
          exponent = r.exponent;
        })) }
    ensures sign { IfOk result (λ r. r.significand.sign ≡ decimal.now.sign) }
    ensures needed { IfOk result (λ r.
        r.exponent ≡ exponent_needed formatter.now r.significand.absolute r.exponent) }
    ensures refused { IfErr result (λ error. IsRefusal (start_shown by.now formatter.now
        (decimal.now.sign, decimal.now.absolute)) error) }
{
    match shorten(alloc, by, formatter, decimal) {
        Ok(shown) => Ok(shown),
        Err(error) => Err(start_error(error)),
    }
}

/// What is shown of the end.
fn end_shown(
    alloc: Global,
    by: &Rounding,
    formatter: &CompactDecimalFormatter,
    decimal: &Decimal,
) -> Result<ShownNumber, RangeTextError>
    ensures ok { IfOk result (λ r. end_shown by.now formatter.now
        (decimal.now.sign, decimal.now.absolute) ≡ Ok (record {
          significand = r.significand.absolute;
          exponent = r.exponent;
        })) }
    ensures sign { IfOk result (λ r. r.significand.sign ≡ decimal.now.sign) }
    ensures needed { IfOk result (λ r.
        r.exponent ≡ exponent_needed formatter.now r.significand.absolute r.exponent) }
    ensures refused { IfErr result (λ error. IsRefusal (end_shown by.now formatter.now
        (decimal.now.sign, decimal.now.absolute)) error) }
{
    match shorten(alloc, by, formatter, decimal) {
        Ok(shown) => Ok(shown),
        Err(error) => Err(end_error(error)),
    }
}

/// The plural operands of what is shown, with its exponent.
fn operands_shown(shown: &ShownNumber) -> PluralOperands
    ensures { result ≡ operands_shown (record {
      significand = shown.now.significand.absolute;
      exponent = shown.now.exponent;
    }) }
{
    PluralOperands::from_significand_and_exponent(&shown.significand.absolute, shown.exponent)
}

/// Appends two numbers that are shown with a unit as a range.
fn push_units_shown(
    alloc: Global,
    units: &UnitsFormatter<CompactDecimalFormatter>,
    style: &PluralRangeStyle<'_>,
    start: &ShownNumber,
    end: &ShownNumber,
    out: &mut Vec<u8>,
) -> Result<(), RangeTextError>
    requires start { start.now.exponent ≡ exponent_needed units.now.formatter
        start.now.significand.absolute start.now.exponent }
    requires end { end.now.exponent ≡ exponent_needed units.now.formatter
        end.now.significand.absolute end.now.exponent }
    ensures ok { OnOk result (AppendsRange (Ok (units_shown units.now (record {
      style = record {
        separator = style.now.style.pattern.now;
        fallback = style.now.style.fallback;
      };
      plural_ranges = style.now.plural_ranges.now;
    }) start.now.significand.sign end.now.significand.sign (record {
      significand = start.now.significand.absolute;
      exponent = start.now.exponent;
    }) (record {
      significand = end.now.significand.absolute;
      exponent = end.now.exponent;
    }))) out.old.items out.new.items) }
    ensures memory { IfErr result (λ error. error ≡ RangeTextError.OutOfMemory) }
{
    let numbers = units.formatter();
    let Ok(first) = numbers.format_with_exponent(&start.significand, start.exponent) else {
        unreachable!();
    };
    let Ok(last) = numbers.format_with_exponent(&end.significand, end.exponent) else {
        unreachable!();
    };
    let lower = GivenNumber {
        sign: start.significand.sign,
        operands: operands_shown(start),
        number: first.value(),
    };
    let upper = GivenNumber {
        sign: end.significand.sign,
        operands: operands_shown(end),
        number: last.value(),
    };
    push_given_units(alloc, units, style, &lower, &upper, out)
}

/// Appends two amounts that are shown with the name of their currency as a range.
fn push_names_shown(
    alloc: Global,
    money: &LongCurrencyFormatter<CompactDecimalFormatter>,
    style: &PluralRangeStyle<'_>,
    start: &ShownNumber,
    end: &ShownNumber,
    out: &mut Vec<u8>,
) -> Result<(), RangeTextError>
    requires start { start.now.exponent ≡ exponent_needed money.now.formatter
        start.now.significand.absolute start.now.exponent }
    requires end { end.now.exponent ≡ exponent_needed money.now.formatter
        end.now.significand.absolute end.now.exponent }
    ensures ok { OnOk result (AppendsRange (Ok (names_shown money.now (record {
      style = record {
        separator = style.now.style.pattern.now;
        fallback = style.now.style.fallback;
      };
      plural_ranges = style.now.plural_ranges.now;
    }) start.now.significand.sign end.now.significand.sign (record {
      significand = start.now.significand.absolute;
      exponent = start.now.exponent;
    }) (record {
      significand = end.now.significand.absolute;
      exponent = end.now.exponent;
    }))) out.old.items out.new.items) }
    ensures memory { IfErr result (λ error. error ≡ RangeTextError.OutOfMemory) }
{
    let numbers = money.formatter();
    let Ok(first) = numbers.format_with_exponent(&start.significand, start.exponent) else {
        unreachable!();
    };
    let Ok(last) = numbers.format_with_exponent(&end.significand, end.exponent) else {
        unreachable!();
    };
    let lower = GivenNumber {
        sign: start.significand.sign,
        operands: operands_shown(start),
        number: first.value(),
    };
    let upper = GivenNumber {
        sign: end.significand.sign,
        operands: operands_shown(end),
        number: last.value(),
    };
    push_given_names(alloc, money, style, &lower, &upper, out)
}

/// Appends two compact numbers with a unit as a range.
pub(crate) fn push_compact_units(
    alloc: Global,
    by: &Rounding,
    units: &UnitsFormatter<CompactDecimalFormatter>,
    style: &PluralRangeStyle<'_>,
    start: &Decimal,
    end: &Decimal,
    out: &mut Vec<u8>,
) -> Result<(), RangeTextError>
    ensures ok { OnOk result (AppendsRange (units_shortened by.now units.now (record {
      style = record {
        separator = style.now.style.pattern.now;
        fallback = style.now.style.fallback;
      };
      plural_ranges = style.now.plural_ranges.now;
    }) (start.now.sign, start.now.absolute) (end.now.sign, end.now.absolute))
        out.old.items out.new.items) }
    ensures refused { IfErr result (λ error. IsRefusal (units_shortened by.now units.now (record {
      style = record {
        separator = style.now.style.pattern.now;
        fallback = style.now.style.fallback;
      };
      plural_ranges = style.now.plural_ranges.now;
    }) (start.now.sign, start.now.absolute) (end.now.sign, end.now.absolute)) error) }
    ensures unchanged { IfErr result (λ error. error ≢ RangeTextError.OutOfMemory →
        out.new.items ≡ out.old.items) }
{
    let first = start_shown(alloc, by, units.formatter(), start)?;
    let last = end_shown(alloc, by, units.formatter(), end)?;
    push_units_shown(alloc, units, style, &first, &last, out)
}

/// Appends two compact amounts with the name of their currency as a range.
pub(crate) fn push_compact_names(
    alloc: Global,
    by: &Rounding,
    money: &LongCurrencyFormatter<CompactDecimalFormatter>,
    style: &PluralRangeStyle<'_>,
    start: &Decimal,
    end: &Decimal,
    out: &mut Vec<u8>,
) -> Result<(), RangeTextError>
    ensures ok { OnOk result (AppendsRange (names_shortened by.now money.now (record {
      style = record {
        separator = style.now.style.pattern.now;
        fallback = style.now.style.fallback;
      };
      plural_ranges = style.now.plural_ranges.now;
    }) (start.now.sign, start.now.absolute) (end.now.sign, end.now.absolute))
        out.old.items out.new.items) }
    ensures refused { IfErr result (λ error. IsRefusal (names_shortened by.now money.now (record {
      style = record {
        separator = style.now.style.pattern.now;
        fallback = style.now.style.fallback;
      };
      plural_ranges = style.now.plural_ranges.now;
    }) (start.now.sign, start.now.absolute) (end.now.sign, end.now.absolute)) error) }
    ensures unchanged { IfErr result (λ error. error ≢ RangeTextError.OutOfMemory →
        out.new.items ≡ out.old.items) }
{
    let first = start_shown(alloc, by, money.formatter(), start)?;
    let last = end_shown(alloc, by, money.formatter(), end)?;
    push_names_shown(alloc, money, style, &first, &last, out)
}
