//! Ranges of numbers that are given with their plural operands: with a unit, or with the name of a
//! currency.

ghost use Rattle.std.specs.Prelude.{◌≡◌, IfErr, OnOk, Ok};
ghost use Rattle.icu_unit_ranges.specs.NameRanges.{names_range_framed};
ghost use Rattle.icu_unit_ranges.specs.UnitRanges.{units_range_framed};
ghost use Rattle.number_ranges.specs.WroteRange.{AppendsRange};

use crate::error::RangeTextError;
use crate::writing::written_or;
use icu_decimal_interface::AbstractFormatter;
use icu_dimension::{LongCurrencyFormatter, UnitsFormatter};
use icu_unit_ranges::{GivenNumber, PluralRangeStyle};
use std::alloc::Global;
use writeable::Writeable;

/// Appends two numbers that are given with a unit as a range.
pub(crate) fn push_given_units<F: AbstractFormatter, A: Writeable, B: Writeable>(
    alloc: Global,
    units: &UnitsFormatter<F>,
    style: &PluralRangeStyle<'_>,
    start: &GivenNumber<'_, A>,
    end: &GivenNumber<'_, B>,
    out: &mut Vec<u8>,
) -> Result<(), RangeTextError>
    ensures ok { OnOk result (AppendsRange (Ok (units_range_framed (record {
      style = record {
        separator = style.now.style.pattern.now;
        fallback = style.now.style.fallback;
      };
      plural_ranges = style.now.plural_ranges.now;
    }) (F.symbols units.now.formatter) units.now.rules units.now.elements start.now.sign
        end.now.sign start.now.operands (A.events start.now.number.now) end.now.operands
        (B.events end.now.number.now))) out.old.items out.new.items) }
    ensures memory { IfErr result (λ error. error ≡ RangeTextError.OutOfMemory) }
{
    written_or(style.write_units_into(alloc, units, start, end, out))
}

/// Appends two amounts that are given with the name of their currency as a range.
pub(crate) fn push_given_names<F: AbstractFormatter, A: Writeable, B: Writeable>(
    alloc: Global,
    money: &LongCurrencyFormatter<F>,
    style: &PluralRangeStyle<'_>,
    start: &GivenNumber<'_, A>,
    end: &GivenNumber<'_, B>,
    out: &mut Vec<u8>,
) -> Result<(), RangeTextError>
    ensures ok { OnOk result (AppendsRange (Ok (names_range_framed (record {
      style = record {
        separator = style.now.style.pattern.now;
        fallback = style.now.style.fallback;
      };
      plural_ranges = style.now.plural_ranges.now;
    }) (F.symbols money.now.formatter) money.now.rules money.now.elements start.now.sign
        end.now.sign start.now.operands (A.events start.now.number.now) end.now.operands
        (B.events end.now.number.now))) out.old.items out.new.items) }
    ensures memory { IfErr result (λ error. error ≡ RangeTextError.OutOfMemory) }
{
    written_or(style.write_names_into(alloc, money, start, end, out))
}
