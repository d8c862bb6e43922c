//! What a form writes for the range of two texts.

ghost use Rattle.std.specs.Prelude.{◌≡◌, ◌≢◌, IfErr, OnOk, Ok};
ghost use Rattle.number_ranges.specs.ByCategory.{names_written, range_events, units_written, written_by_category};
ghost use Rattle.number_ranges.specs.WroteRange.{AppendsRange, IsRefusal};

use crate::compact::{push_compact_names, push_compact_units};
use crate::ends::{ascending, end_of, start_of};
use crate::error::RangeTextError;
use crate::given::{push_given_names, push_given_units};
use crate::writing::push_written;
use fixed_decimal::Decimal;
use icu_decimal::{Cow, DecimalFormatter};
use icu_dimension::{LongCurrencyFormatter, UnitsFormatter};
use icu_unit_ranges::{GivenNumber, PluralRangeStyle};
use number_formatters::Formatter;
use number_forms::Form;
use std::alloc::Global;

/// Appends two numbers with a unit as a range.
fn push_units(
    alloc: Global,
    formatter: &UnitsFormatter<DecimalFormatter>,
    style: &PluralRangeStyle<'_>,
    start: &Decimal,
    end: &Decimal,
    out: &mut Vec<u8>,
) -> Result<(), RangeTextError>
    ensures ok { OnOk result (AppendsRange (Ok (units_written formatter.now (record {
      style = record {
        separator = style.now.style.pattern.now;
        fallback = style.now.style.fallback;
      };
      plural_ranges = style.now.plural_ranges.now;
    }) (start.now.sign, start.now.absolute) (end.now.sign, end.now.absolute)))
        out.old.items out.new.items) }
    ensures memory { IfErr result (λ error. error ≡ RangeTextError.OutOfMemory) }
{
    let numbers = formatter.formatter();
    let first = numbers.format_unsigned(Cow::Borrowed(&start.absolute));
    let last = numbers.format_unsigned(Cow::Borrowed(&end.absolute));
    let lower = GivenNumber {
        sign: start.sign,
        operands: first.plural_operands(),
        number: &first,
    };
    let upper = GivenNumber {
        sign: end.sign,
        operands: last.plural_operands(),
        number: &last,
    };
    push_given_units(alloc, formatter, style, &lower, &upper, out)
}

/// Appends two amounts with the name of their currency as a range.
fn push_names(
    alloc: Global,
    formatter: &LongCurrencyFormatter<DecimalFormatter>,
    style: &PluralRangeStyle<'_>,
    start: &Decimal,
    end: &Decimal,
    out: &mut Vec<u8>,
) -> Result<(), RangeTextError>
    ensures ok { OnOk result (AppendsRange (Ok (names_written formatter.now (record {
      style = record {
        separator = style.now.style.pattern.now;
        fallback = style.now.style.fallback;
      };
      plural_ranges = style.now.plural_ranges.now;
    }) (start.now.sign, start.now.absolute) (end.now.sign, end.now.absolute)))
        out.old.items out.new.items) }
    ensures memory { IfErr result (λ error. error ≡ RangeTextError.OutOfMemory) }
{
    let numbers = formatter.formatter();
    let first = numbers.format_unsigned(Cow::Borrowed(&start.absolute));
    let last = numbers.format_unsigned(Cow::Borrowed(&end.absolute));
    let lower = GivenNumber {
        sign: start.sign,
        operands: first.plural_operands(),
        number: &first,
    };
    let upper = GivenNumber {
        sign: end.sign,
        operands: last.plural_operands(),
        number: &last,
    };
    push_given_names(alloc, formatter, style, &lower, &upper, out)
}

/// Appends two decimals as a range.
fn push_written_by_category(
    alloc: Global,
    form: &Form,
    style: &PluralRangeStyle<'_>,
    start: &Decimal,
    end: &Decimal,
    out: &mut Vec<u8>,
) -> Result<(), RangeTextError>
    ensures ok { OnOk result (AppendsRange (written_by_category form.now.formatter (record {
      style = record {
        separator = style.now.style.pattern.now;
        fallback = style.now.style.fallback;
      };
      plural_ranges = style.now.plural_ranges.now;
    }) (start.now.sign, start.now.absolute) (end.now.sign, end.now.absolute))
        out.old.items out.new.items) }
    ensures refused { IfErr result (λ error. IsRefusal (written_by_category form.now.formatter
        (record {
          style = record {
            separator = style.now.style.pattern.now;
            fallback = style.now.style.fallback;
          };
          plural_ranges = style.now.plural_ranges.now;
        }) (start.now.sign, start.now.absolute) (end.now.sign, end.now.absolute)) error) }
    ensures unchanged { IfErr result (λ error. error ≢ RangeTextError.OutOfMemory →
        out.new.items ≡ out.old.items) }
{
    match form.formatter() {
        Formatter::Units(units) => push_units(alloc, units, style, start, end, out),
        Formatter::MoneyNamed(money) => push_names(alloc, money, style, start, end, out),
        Formatter::ShortUnits(units, by) => {
            push_compact_units(alloc, by, units, style, start, end, out)
        }
        Formatter::ShortNamed(money, by) => {
            push_compact_names(alloc, by, money, style, start, end, out)
        }
        _ => push_written(alloc, form, &style.style, start, end, out),
    }
}

/// Appends what a form writes for the range of two texts (this project's own).
///
/// Each text is a decimal and nothing else, which is read, scaled and rounded as by `Form::push`.
/// Amounts and percents without a sign have once what stands around both numbers, if it is more
/// than one character. Numbers with a unit or with the name of a currency stand in the pattern of
/// the range's category, as `0–1 kilometers` and `1.00–2.00 US dollars`. All others are written
/// whole.
///
/// `Start` and `End` where a text isn't written by the form; `Descending` where the first number is
/// above the second. After an error the buffer is unchanged, unless memory ran out.
// promise: The buffer grows by just the range of the two texts.
// mutations: range_of_the_end_twice, range_of_units_whole
// promise: An error says which end has it, or that they descend.
// mutations: range_error_of_the_end_as_the_start, range_descending_written
#[tactic(auto, unfolding(crate::specs::ByCategory::range_events))]
pub fn push_range(
    alloc: Global,
    form: &Form,
    style: &PluralRangeStyle<'_>,
    start: &[u8],
    end: &[u8],
    out: &mut Vec<u8>,
) -> Result<(), RangeTextError>
    ensures ok { OnOk result (AppendsRange (range_events form.now (record {
      style = record {
        separator = style.now.style.pattern.now;
        fallback = style.now.style.fallback;
      };
      plural_ranges = style.now.plural_ranges.now;
    }) start.now end.now) out.old.items out.new.items) }
    ensures refused { IfErr result (λ error. IsRefusal (range_events form.now (record {
      style = record {
        separator = style.now.style.pattern.now;
        fallback = style.now.style.fallback;
      };
      plural_ranges = style.now.plural_ranges.now;
    }) start.now end.now) error) }
    ensures unchanged { IfErr result (λ error. error ≢ RangeTextError.OutOfMemory →
        out.new.items ≡ out.old.items) }
{
    let first = start_of(alloc, form, start)?;
    let last = end_of(alloc, form, end)?;
    ascending(first.read, last.read)?;
    push_written_by_category(alloc, form, style, &first.written, &last.written, out)
}
