//! Ranges of amounts of money with the name of their currency.

ghost use Rattle.std.specs.Prelude.{◌≡◌};
ghost use Rattle.icu_dimension.specs.Names.{names_framed};
ghost use Rattle.icu_ranges.specs.Ranges.{single_of};
ghost use Rattle.icu_ranges.specs.Writing.{WroteText};
ghost use Rattle.icu_unit_ranges.specs.NameRanges.{names_approximated, names_joined, names_range_framed};
ghost use Rattle.icu_unit_ranges.specs.Values.{range_category, value_for};

use crate::given::{GivenNumber, WithName, WithSign};
use crate::plural_range_style::PluralRangeStyle;
use crate::single::is_single;
use crate::units::signed_joined;
use crate::values::value_for;
use fixed_decimal::Sign;
use icu_decimal::error::FormatError;
use icu_decimal_interface::AbstractFormatter;
use icu_dimension::{LongCurrencyFormatter, NamePattern};
use icu_ranges::{Approximated, RangeIdentityFallback};
use std::alloc::Global;
use writeable::{EventWriter, OutOfMemory, WriteFault, Writeable};

/// The pattern with the name of a range.
fn name_of_range<'a, F: AbstractFormatter, A, B>(
    style: &PluralRangeStyle<'_>,
    money: &'a LongCurrencyFormatter<F>,
    start: &GivenNumber<'_, A>,
    end: &GivenNumber<'_, B>,
) -> &'a NamePattern
    ensures { result.now ≡ value_for money.now.elements
        (range_category style.now.plural_ranges.now money.now.rules start.now.operands
        end.now.operands) }
{
    let category = style
        .plural_ranges
        .category_for_range(money.plural_rules(), start.operands, end.operands);
    value_for(money.elements(), category)
}

/// Writes two numbers joined, with the name of their range.
fn write_both<F: AbstractFormatter, A: Writeable, B: Writeable, K: EventWriter>(
    alloc: Global,
    style: &PluralRangeStyle<'_>,
    money: &LongCurrencyFormatter<F>,
    start: &GivenNumber<'_, A>,
    end: &GivenNumber<'_, B>,
    out: &mut K,
) -> Result<(), FormatError>
    ensures { WroteText K.wrote out.old result (names_joined (record {
      style = record {
        separator = style.now.style.pattern.now;
        fallback = style.now.style.fallback;
      };
      plural_ranges = style.now.plural_ranges.now;
    }) (F.symbols money.now.formatter) money.now.rules money.now.elements start.now.sign
        end.now.sign start.now.operands (A.events start.now.number.now) end.now.operands
        (B.events end.now.number.now)) out.new }
{
    let pattern = name_of_range(style, money, start, end);
    let both = match signed_joined(alloc, style.style.pattern, money.formatter(), start, end) {
        Ok(both) => both,
        Err(OutOfMemory) => return Err(FormatError::OutOfMemory),
    };
    match pattern.interpolate(both).write_events(out) {
        Ok(()) => Ok(()),
        Err(WriteFault) => Err(FormatError::Sink),
    }
}

/// Writes an amount with the name of its currency, the approximately sign in front of its sign.
fn write_approximated<F: AbstractFormatter, A: Writeable, K: EventWriter>(
    sign: &str,
    money: &LongCurrencyFormatter<F>,
    given: &GivenNumber<'_, A>,
    out: &mut K,
) -> Result<(), WriteFault>
    ensures { K.wrote out.old result (names_approximated sign.now (F.symbols money.now.formatter)
        money.now.rules money.now.elements given.now.sign given.now.operands
        (A.events given.now.number.now)) out.new }
{
    let signed = WithSign {
        formatter: money.formatter(),
        given,
    };
    let number = Approximated {
        sign,
        value: &signed,
    };
    let approximate = GivenNumber {
        sign: Sign::None,
        operands: given.operands,
        number: &number,
    };
    WithName {
        money,
        given: &approximate,
    }
    .write_events(out)
}

/// Writes an amount where both ends of a range have one text.
fn write_alone<F: AbstractFormatter, A: Writeable, K: EventWriter>(
    style: &PluralRangeStyle<'_>,
    money: &LongCurrencyFormatter<F>,
    given: &GivenNumber<'_, A>,
    out: &mut K,
) -> Result<(), WriteFault>
    ensures { K.wrote out.old result (single_of style.now.style.fallback
        (names_framed (F.symbols money.now.formatter) money.now.rules money.now.elements
        given.now.sign given.now.operands (A.events given.now.number.now))
        (names_approximated style.now.style.pattern.now.approximately
        (F.symbols money.now.formatter) money.now.rules money.now.elements given.now.sign
        given.now.operands (A.events given.now.number.now))) out.new }
{
    match style.style.fallback {
        RangeIdentityFallback::Approximately => {
            write_approximated(style.style.pattern.approximately_sign(), money, given, out)
        }
        RangeIdentityFallback::SingleValue | RangeIdentityFallback::Range => {
            WithName { money, given }.write_events(out)
        }
    }
}

/// Writes two amounts with the name of their currency as a range.
pub(crate) fn write_names<F: AbstractFormatter, A: Writeable, B: Writeable, K: EventWriter>(
    alloc: Global,
    style: &PluralRangeStyle<'_>,
    money: &LongCurrencyFormatter<F>,
    start: &GivenNumber<'_, A>,
    end: &GivenNumber<'_, B>,
    out: &mut K,
) -> Result<(), FormatError>
    ensures { WroteText K.wrote out.old result (names_range_framed (record {
      style = record {
        separator = style.now.style.pattern.now;
        fallback = style.now.style.fallback;
      };
      plural_ranges = style.now.plural_ranges.now;
    }) (F.symbols money.now.formatter) money.now.rules money.now.elements start.now.sign
        end.now.sign start.now.operands (A.events start.now.number.now) end.now.operands
        (B.events end.now.number.now)) out.new }
{
    let first = WithName {
        money,
        given: start,
    };
    let second = WithName { money, given: end };
    match is_single(alloc, style.style.fallback, &first, &second) {
        Ok(true) => match write_alone(style, money, start, out) {
            Ok(()) => Ok(()),
            Err(WriteFault) => Err(FormatError::Sink),
        },
        Ok(false) => write_both(alloc, style, money, start, end, out),
        Err(OutOfMemory) => Err(FormatError::OutOfMemory),
    }
}
