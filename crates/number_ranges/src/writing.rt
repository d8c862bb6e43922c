//! Two decimals as a range, where ranges have no plural categories.

ghost use Rattle.std.specs.Prelude.{◌≡◌, ◌≢◌, IfErr, IfOk, OnErr, OnOk};
ghost use Rattle.writeable.specs.Events.{text_of};
ghost use Rattle.number_formatters.specs.declared.formatter.Formatter.TheVariants.{Money, Percent};
ghost use Rattle.number_ranges.specs.Ranges.{whole_range, written_range};
ghost use Rattle.number_ranges.specs.WroteRange.{AppendsRange, IsRefusal, written_or};

use crate::error::RangeTextError;
use crate::marking::{mark_end, mark_start};
use fixed_decimal::Decimal;
use icu_decimal::error::FormatError;
use icu_decimal::{Cow, DecimalFormatter};
use icu_dimension::{CurrencyFormatter, PercentFormatter};
use icu_ranges::RangeStyle;
use number_formatters::Formatter;
use number_forms::Form;
use std::alloc::Global;

/// Why a range wasn't written, if it wasn't: a writer that fails counts as out of memory.
pub(crate) fn written_or(written: Result<(), FormatError>) -> Result<(), RangeTextError>
    ensures { result ≡ written_or written }
{
    match written {
        Ok(()) => Ok(()),
        Err(_) => Err(RangeTextError::OutOfMemory),
    }
}

/// Appends two amounts of money as a range.
fn push_money(
    alloc: Global,
    formatter: &CurrencyFormatter<DecimalFormatter>,
    style: &RangeStyle<'_>,
    start: &Decimal,
    end: &Decimal,
    out: &mut Vec<u8>,
) -> Result<(), RangeTextError>
    ensures ok { OnOk result (AppendsRange (written_range (Money formatter.now) (record {
      separator = style.now.pattern.now;
      fallback = style.now.fallback;
    }) (start.now.sign, start.now.absolute) (end.now.sign, end.now.absolute))
        out.old.items out.new.items) }
    ensures memory { IfErr result (λ error. error ≡ RangeTextError.OutOfMemory) }
{
    let numbers = formatter.formatter();
    let first = numbers.format_unsigned(Cow::Borrowed(&start.absolute));
    let last = numbers.format_unsigned(Cow::Borrowed(&end.absolute));
    let signs = (start.sign, end.sign);
    written_or(style.write_amounts_into(alloc, formatter.patterns(), signs, &first, &last, out))
}

/// Appends two numbers of percents as a range.
fn push_percents(
    alloc: Global,
    formatter: &PercentFormatter<DecimalFormatter>,
    style: &RangeStyle<'_>,
    start: &Decimal,
    end: &Decimal,
    out: &mut Vec<u8>,
) -> Result<(), RangeTextError>
    ensures ok { OnOk result (AppendsRange (written_range (Percent formatter.now) (record {
      separator = style.now.pattern.now;
      fallback = style.now.fallback;
    }) (start.now.sign, start.now.absolute) (end.now.sign, end.now.absolute))
        out.old.items out.new.items) }
    ensures memory { IfErr result (λ error. error ≡ RangeTextError.OutOfMemory) }
{
    let numbers = formatter.formatter();
    let first = numbers.format_unsigned(Cow::Borrowed(&start.absolute));
    let last = numbers.format_unsigned(Cow::Borrowed(&end.absolute));
    let signs = (start.sign, end.sign);
    written_or(style.write_amounts_into(alloc, formatter.patterns(), signs, &first, &last, out))
}

/// Appends two decimals as a range, each whole.
fn push_whole(
    alloc: Global,
    form: &Form,
    style: &RangeStyle<'_>,
    start: &Decimal,
    end: &Decimal,
    out: &mut Vec<u8>,
) -> Result<(), RangeTextError>
    ensures ok { OnOk result (AppendsRange (whole_range form.now.formatter (record {
      separator = style.now.pattern.now;
      fallback = style.now.fallback;
    }) (start.now.sign, start.now.absolute) (end.now.sign, end.now.absolute))
        out.old.items out.new.items) }
    ensures refused { IfErr result (λ error. IsRefusal (whole_range form.now.formatter (record {
      separator = style.now.pattern.now;
      fallback = style.now.fallback;
    }) (start.now.sign, start.now.absolute) (end.now.sign, end.now.absolute)) error) }
    ensures unchanged { IfErr result (λ error. error ≢ RangeTextError.OutOfMemory →
        out.new.items ≡ out.old.items) }
{
    let first = mark_start(alloc, form, start)?;
    let last = mark_end(alloc, form, end)?;
    written_or(style.write_texts_into(alloc, &first.text(), &last.text(), out))
}

/// Appends two decimals as a range.
pub(crate) fn push_written(
    alloc: Global,
    form: &Form,
    style: &RangeStyle<'_>,
    start: &Decimal,
    end: &Decimal,
    out: &mut Vec<u8>,
) -> Result<(), RangeTextError>
    ensures ok { OnOk result (AppendsRange (written_range form.now.formatter (record {
      separator = style.now.pattern.now;
      fallback = style.now.fallback;
    }) (start.now.sign, start.now.absolute) (end.now.sign, end.now.absolute))
        out.old.items out.new.items) }
    ensures refused { IfErr result (λ error. IsRefusal (written_range form.now.formatter (record {
      separator = style.now.pattern.now;
      fallback = style.now.fallback;
    }) (start.now.sign, start.now.absolute) (end.now.sign, end.now.absolute)) error) }
    ensures unchanged { IfErr result (λ error. error ≢ RangeTextError.OutOfMemory →
        out.new.items ≡ out.old.items) }
{
    match form.formatter() {
        Formatter::Money(money) => push_money(alloc, money, style, start, end, out),
        Formatter::Percent(percents) => push_percents(alloc, percents, style, start, end, out),
        _ => push_whole(alloc, form, style, start, end, out),
    }
}
