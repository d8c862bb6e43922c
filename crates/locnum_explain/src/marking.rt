//! The parts that are marked in an explanation: in compact numbers all parts of the number.

ghost use Rattle.std.specs.Prelude.{◌≡◌, ◌++◌, IfOk, List, OnOk, option_map, unwrap_or};
ghost use Rattle.writeable.specs.Events.{Event};
ghost use Rattle.icu_decimal.specs.CompactFormat.{events_with_exponent, significand_of};
ghost use Rattle.icu_dimension_data.specs.Surrounding.{surrounded};
ghost use Rattle.locnum_explain.specs.Lines.{marked_lines};
ghost use Rattle.locnum_explain.specs.Marks.{amount_marks, marks_by, number_marks};

use crate::parts::push_parts;
use decimal_lines::Mode;
use fixed_decimal::{Decimal, Sign};
use icu_decimal::{CompactDecimalFormatter, FormattedUnsignedCompactDecimal};
use icu_dimension::CompactCurrencyFormatter;
use icu_dimension_data::SignedPattern;
use number_formatters::Formatter;
use number_forms::Form;
use std::alloc::{AllocError, Global};
use writeable::{PartsText, Writeable};

/// The significand of a compact number, with this sign.
fn significand_of(
    alloc: Global,
    sign: Sign,
    number: &FormattedUnsignedCompactDecimal<'_>,
) -> Result<Decimal, AllocError>
    ensures { IfOk result (λ d. (d.sign ≡ sign) × (d.absolute ≡ significand_of number.now)) }
{
    match number.significand().copy(alloc) {
        Ok(absolute) => Ok(Decimal { sign, absolute }),
        Err(_) => Err(AllocError),
    }
}

/// A significand with an exponent, as a compact formatter writes it with the number's parts.
fn mark_with_exponent(
    alloc: Global,
    formatter: &CompactDecimalFormatter,
    significand: &Decimal,
    exponent: u8,
) -> Result<PartsText, AllocError>
    ensures { IfOk result (λ text. text.events ≡ events_with_exponent formatter.now
        significand.now.sign significand.now.absolute exponent) }
{
    let Ok(given) = formatter.format_with_exponent(significand, exponent) else {
        return Err(AllocError);
    };
    let mut text = PartsText::new(alloc);
    match given.write_to_parts(&mut text) {
        Ok(()) => Ok(text),
        Err(_) => Err(AllocError),
    }
}

/// The same in a pattern of money.
fn mark_framed<'a>(
    alloc: Global,
    formatter: &'a CompactDecimalFormatter,
    significand: &'a Decimal,
    exponent: u8,
    pattern: SignedPattern<'a>,
) -> Result<PartsText, AllocError>
    ensures { IfOk result (λ text. text.events ≡ surrounded pattern.entry
        (events_with_exponent formatter.now significand.now.sign significand.now.absolute
        exponent)) }
{
    let Ok(given) = formatter.format_with_exponent(significand, exponent) else {
        return Err(AllocError);
    };
    let mut text = PartsText::new(alloc);
    match pattern.interpolate(given).write_to_parts(&mut text) {
        Ok(()) => Ok(text),
        Err(_) => Err(AllocError),
    }
}

/// The compact number nearest to a decimal, with its sign.
fn mark_number(
    alloc: Global,
    formatter: &CompactDecimalFormatter,
    decimal: &Decimal,
) -> Result<PartsText, AllocError>
    ensures { IfOk result (λ text. text.events
        ≡ number_marks formatter.now decimal.now.sign decimal.now.absolute) }
{
    let Ok(formatted) = formatter.format(alloc, decimal) else {
        return Err(AllocError);
    };
    let number = formatted.value();
    let significand = significand_of(alloc, decimal.sign, number)?;
    mark_with_exponent(alloc, formatter, &significand, number.exponent())
}

/// The compact amount nearest to a decimal.
fn mark_amount(
    alloc: Global,
    money: &CompactCurrencyFormatter,
    decimal: &Decimal,
) -> Result<PartsText, AllocError>
    ensures { IfOk result (λ text. text.events
        ≡ amount_marks money.now decimal.now.sign decimal.now.absolute) }
{
    let formatter = money.for_sign(decimal.sign);
    let Ok(formatted) = formatter.format(alloc, decimal) else {
        return Err(AllocError);
    };
    let number = formatted.value();
    let significand = significand_of(alloc, Sign::None, number)?;
    if money.has_entry(decimal.sign, number) {
        return mark_with_exponent(alloc, formatter, &significand, number.exponent());
    }
    let pattern = money.patterns().for_sign(decimal.sign);
    mark_framed(alloc, formatter, &significand, number.exponent(), pattern)
}

/// The text whose parts are marked, for a decimal, unless it is the one that the form writes.
fn marks_of(
    alloc: Global,
    formatter: &Formatter,
    decimal: &Decimal,
) -> Result<Option<PartsText>, AllocError>
    ensures { IfOk result (λ marks. (events : List Event) →
        unwrap_or (option_map (λ t. t.events) marks) events
        ≡ marks_by formatter.now events decimal.now.sign decimal.now.absolute) }
{
    match formatter {
        Formatter::Numbers(Mode::Compact(compact)) => {
            Ok(Some(mark_number(alloc, compact, decimal)?))
        }
        Formatter::MoneyShort(money) => Ok(Some(mark_amount(alloc, money, decimal)?)),
        Formatter::Numbers(Mode::Plain(_))
        | Formatter::ShortNumbers(_, _)
        | Formatter::ShortMoney(_, _)
        | Formatter::ShortNamed(_, _)
        | Formatter::ShortUnits(_, _)
        | Formatter::Money(_)
        | Formatter::MoneyNamed(_)
        | Formatter::Percent(_)
        | Formatter::Units(_) => Ok(None),
    }
}

/// Appends a text in a line, and under it the parts of another one, which has the same characters.
fn push_spans(
    alloc: Global,
    width: usize,
    text: &PartsText,
    marks: &PartsText,
    out: &mut Vec<u8>,
) -> Result<(), AllocError>
    ensures { OnOk result (out.new.items ≡ out.old.items
        ++ marked_lines width text.now.events marks.now.events) }
{
    match marks.spans(alloc) {
        Ok(spans) => push_parts(width, text.text(), &spans, out),
        Err(_) => Err(AllocError),
    }
}

/// Appends what a form writes for a text in a line, and its parts under it.
// promise: All parts of a compact number are marked under it.
// mutations: compact_number_without_its_parts
pub(crate) fn push_marked(
    alloc: Global,
    width: usize,
    form: &Form,
    decimal: &Decimal,
    text: &PartsText,
    out: &mut Vec<u8>,
) -> Result<(), AllocError>
    ensures { OnOk result (out.new.items ≡ out.old.items ++ marked_lines width text.now.events
        (marks_by form.now.formatter text.now.events decimal.now.sign decimal.now.absolute)) }
{
    match marks_of(alloc, form.formatter(), decimal)? {
        Some(marks) => push_spans(alloc, width, text, &marks, out),
        None => push_spans(alloc, width, text, text, out),
    }
}
