//! Ranges of numbers with a unit.

ghost use Rattle.std.specs.Prelude.{◌≡◌, IfOk};
ghost use Rattle.icu_decimal.specs.Decimal.{signed_events};
ghost use Rattle.icu_dimension.specs.Units.{units_framed};
ghost use Rattle.icu_ranges.specs.Joined.{joined};
ghost use Rattle.icu_ranges.specs.Ranges.{single_of};
ghost use Rattle.icu_ranges.specs.Writing.{WroteText};
ghost use Rattle.icu_unit_ranges.specs.Recordings.{kept_events};
ghost use Rattle.icu_unit_ranges.specs.UnitRanges.{range_unit, units_approximated, units_joined, units_range_framed};
ghost use Rattle.icu_unit_ranges.specs.Values.{range_category};

use crate::given::{GivenNumber, WithSign, WithUnit};
use crate::plural_range_style::PluralRangeStyle;
use crate::recording::Recording;
use crate::single::{is_single, joined};
use crate::unit_pattern::{range_unit, write_unit};
use fixed_decimal::Sign;
use icu_decimal::error::FormatError;
use icu_decimal_interface::AbstractFormatter;
use icu_dimension::UnitsFormatter;
use icu_pattern::{Pattern, SinglePlaceholder};
use icu_ranges::{Approximated, RangeIdentityFallback, RangePattern};
use std::alloc::Global;
use writeable::{EventWriter, OutOfMemory, WriteFault, Writeable};

/// Two numbers with their signs, joined.
pub(crate) fn signed_joined<F: AbstractFormatter, A: Writeable, B: Writeable>(
    alloc: Global,
    pattern: &RangePattern,
    formatter: &F,
    start: &GivenNumber<'_, A>,
    end: &GivenNumber<'_, B>,
) -> Result<Recording, OutOfMemory>
    ensures { IfOk result (λ r. kept_events r.kept.items ≡ joined pattern.now
        (signed_events (F.symbols formatter.now) start.now.sign (A.events start.now.number.now))
        (signed_events (F.symbols formatter.now) end.now.sign (B.events end.now.number.now))) }
{
    let first = WithSign {
        formatter,
        given: start,
    };
    let second = WithSign {
        formatter,
        given: end,
    };
    joined(alloc, pattern, &first, &second)
}

/// The pattern of a range.
fn pattern_of_range<'a, F: AbstractFormatter, A, B>(
    style: &PluralRangeStyle<'_>,
    units: &'a UnitsFormatter<F>,
    start: &GivenNumber<'_, A>,
    end: &GivenNumber<'_, B>,
) -> &'a Pattern<SinglePlaceholder>
    ensures { result.now ≡ range_unit units.now.elements
        (range_category style.now.plural_ranges.now units.now.rules start.now.operands
        end.now.operands) }
{
    let category = style
        .plural_ranges
        .category_for_range(units.plural_rules(), start.operands, end.operands);
    range_unit(units.elements(), category)
}

/// Writes two numbers joined, in the pattern of their range.
fn write_both<F: AbstractFormatter, A: Writeable, B: Writeable, K: EventWriter>(
    alloc: Global,
    style: &PluralRangeStyle<'_>,
    units: &UnitsFormatter<F>,
    start: &GivenNumber<'_, A>,
    end: &GivenNumber<'_, B>,
    out: &mut K,
) -> Result<(), FormatError>
    ensures { WroteText K.wrote out.old result (units_joined (record {
      style = record {
        separator = style.now.style.pattern.now;
        fallback = style.now.style.fallback;
      };
      plural_ranges = style.now.plural_ranges.now;
    }) (F.symbols units.now.formatter) units.now.rules units.now.elements start.now.sign
        end.now.sign start.now.operands (A.events start.now.number.now) end.now.operands
        (B.events end.now.number.now)) out.new }
{
    let pattern = pattern_of_range(style, units, start, end);
    let both = match signed_joined(alloc, style.style.pattern, units.formatter(), start, end) {
        Ok(both) => both,
        Err(OutOfMemory) => return Err(FormatError::OutOfMemory),
    };
    match write_unit(pattern, &both, out) {
        Ok(()) => Ok(()),
        Err(WriteFault) => Err(FormatError::Sink),
    }
}

/// Writes a number with a unit, the approximately sign in front of its sign.
fn write_approximated<F: AbstractFormatter, A: Writeable, K: EventWriter>(
    sign: &str,
    units: &UnitsFormatter<F>,
    given: &GivenNumber<'_, A>,
    out: &mut K,
) -> Result<(), WriteFault>
    ensures { K.wrote out.old result (units_approximated sign.now (F.symbols units.now.formatter)
        units.now.rules units.now.elements given.now.sign given.now.operands
        (A.events given.now.number.now)) out.new }
{
    let signed = WithSign {
        formatter: units.formatter(),
        given,
    };
    let number = Approximated {
        sign,
        value: &signed,
    };
    let approximate = GivenNumber {
        sign: Sign::None,
        operands: given.operands,
        number: &number,
    };
    WithUnit {
        units,
        given: &approximate,
    }
    .write_events(out)
}

/// Writes a number where both ends of a range have one text.
fn write_alone<F: AbstractFormatter, A: Writeable, K: EventWriter>(
    style: &PluralRangeStyle<'_>,
    units: &UnitsFormatter<F>,
    given: &GivenNumber<'_, A>,
    out: &mut K,
) -> Result<(), WriteFault>
    ensures { K.wrote out.old result (single_of style.now.style.fallback
        (units_framed (F.symbols units.now.formatter) units.now.rules units.now.elements
        given.now.sign given.now.operands (A.events given.now.number.now))
        (units_approximated style.now.style.pattern.now.approximately
        (F.symbols units.now.formatter) units.now.rules units.now.elements given.now.sign
        given.now.operands (A.events given.now.number.now))) out.new }
{
    match style.style.fallback {
        RangeIdentityFallback::Approximately => {
            write_approximated(style.style.pattern.approximately_sign(), units, given, out)
        }
        RangeIdentityFallback::SingleValue | RangeIdentityFallback::Range => {
            WithUnit { units, given }.write_events(out)
        }
    }
}

/// Writes two numbers with a unit as a range.
pub(crate) fn write_units<F: AbstractFormatter, A: Writeable, B: Writeable, K: EventWriter>(
    alloc: Global,
    style: &PluralRangeStyle<'_>,
    units: &UnitsFormatter<F>,
    start: &GivenNumber<'_, A>,
    end: &GivenNumber<'_, B>,
    out: &mut K,
) -> Result<(), FormatError>
    ensures { WroteText K.wrote out.old result (units_range_framed (record {
      style = record {
        separator = style.now.style.pattern.now;
        fallback = style.now.style.fallback;
      };
      plural_ranges = style.now.plural_ranges.now;
    }) (F.symbols units.now.formatter) units.now.rules units.now.elements start.now.sign
        end.now.sign start.now.operands (A.events start.now.number.now) end.now.operands
        (B.events end.now.number.now)) out.new }
{
    let first = WithUnit {
        units,
        given: start,
    };
    let second = WithUnit { units, given: end };
    match is_single(alloc, style.style.fallback, &first, &second) {
        Ok(true) => match write_alone(style, units, start, out) {
            Ok(()) => Ok(()),
            Err(WriteFault) => Err(FormatError::Sink),
        },
        Ok(false) => write_both(alloc, style, units, start, end, out),
        Err(OutOfMemory) => Err(FormatError::OutOfMemory),
    }
}
