//! Ranges of numbers with a unit, over any formatter of numbers.

ghost use Rattle.std.specs.Prelude.{◌≡◌, ◌≢◌, ◌↔◌, ◌⊎◌, IfOk, IfErr, IsErrOf};
ghost use Rattle.std.specs.String.{string_bytes};
ghost use Rattle.writeable.specs.Events.{text_of};
ghost use Rattle.icu_decimal_interface.specs.Nested.{BothSuch, ShownPair};
ghost use Rattle.icu_decimal_interface.specs.UsesShown.{WroteSuch};
ghost use Rattle.icu_decimal_interface.specs.WritesSuch.{KeepsLimitSuch, WritesSuch};
ghost use Rattle.icu_unit_ranges.specs.UnitRanges.{units_range_events};

use crate::given::GivenNumber;
use crate::plural_range_style::PluralRangeStyle;
use crate::showing::{RangeFrame, write_range_into};
use crate::units::write_units;
use fixed_decimal::Sign;
use icu_decimal::error::FormatError;
use icu_decimal_interface::{AbstractFormatter, ShownNumber};
use icu_dimension::UnitsFormatter;
use icu_ranges::{DecimalRange, PluralRanges, RangeIdentityFallback, RangePattern, RangeStyle};
use std::alloc::Global;
use std::marker::Model;
use writeable::{EventWriter, PartsWrite, WithParts};

/// Writes ranges of numbers with a unit, as `3–5 km` and `0–1 kilometers`.
///
/// The pattern is that of the range's category, or that of all other numbers if the category has
/// none of its own, or one without a place for a number. Both numbers stand in it with their signs.
#[derive(Drop)]
pub struct UnitsRangeFormatter<F> {
    units: UnitsFormatter<F>,
    pattern: RangePattern,
    plural_ranges: PluralRanges,
    fallback: RangeIdentityFallback,
}

impl<F> Model for UnitsRangeFormatter<F> {
    ghost use Rattle.icu_pattern.specs.Patterns.{PatternText};
    ghost use Rattle.icu_unit_ranges.specs.PluralStyle.{PluralRangeFormat};

    ghost Value = { PluralRangeFormat F PatternText };

    ghost view = { λ f. record {
      single = f.units;
      style = record {
        style = record { separator = f.pattern; fallback = f.fallback };
        plural_ranges = f.plural_ranges;
      };
    } };
}

/// Two numbers with their signs and a unit, as a range.
#[derive(Drop)]
struct UnitsFrame<'a, F> {
    units: &'a UnitsFormatter<F>,
    style: PluralRangeStyle<'a>,
    start_sign: Sign,
    end_sign: Sign,
}

impl<F: AbstractFormatter> RangeFrame for UnitsFrame<'_, F> {
    ghost use Rattle.icu_unit_ranges.specs.UnitRanges.{units_range_framed};

    ghost framed = { λ f. units_range_framed (record {
      style = record {
        separator = f.style.style.pattern.now;
        fallback = f.style.style.fallback;
      };
      plural_ranges = f.style.plural_ranges.now;
    }) (F.symbols f.units.now.formatter) f.units.now.rules f.units.now.elements f.start_sign
        f.end_sign };

    fn write_range<M: ShownNumber, N: ShownNumber, K: EventWriter>(
        &self,
        alloc: Global,
        start: &M,
        end: &N,
        out: &mut K,
    ) -> Result<(), FormatError> {
        let first = GivenNumber {
            sign: self.start_sign,
            operands: start.plural_operands(),
            number: start,
        };
        let second = GivenNumber {
            sign: self.end_sign,
            operands: end.plural_operands(),
            number: end,
        };
        write_units(alloc, &self.style, self.units, &first, &second, out)
    }
}

impl<F: AbstractFormatter> UnitsRangeFormatter<F> {
    /// The formatter of ranges by a formatter of single numbers with the unit, a separator and the
    /// categories of ranges.
    pub fn new(
        units: UnitsFormatter<F>,
        pattern: RangePattern,
        plural_ranges: PluralRanges,
        fallback: RangeIdentityFallback,
    ) -> Self
        ensures { result ≡ record {
          single = units;
          style = record {
            style = record { separator = pattern; fallback = fallback };
            plural_ranges = plural_ranges;
          };
        } }
    {
        UnitsRangeFormatter {
            units,
            pattern,
            plural_ranges,
            fallback,
        }
    }

    /// Writes a range into any writer, with the parts of its numbers, signs and unit; the separator
    /// is in no part.
    ///
    /// `Overflow` exactly where the formatter overflows for one of the ends, before anything is
    /// written. After `OutOfMemory` the writer is unchanged too. `Sink` only where the writer
    /// failed. Both texts are compared and joined in memory.
    // promise: Both numbers stand in the pattern of the range's category.
    // mutations: unit_pattern_without_a_place_kept, unit_sign_of_the_start_at_both
    pub fn write_into<K: EventWriter>(
        &self,
        alloc: Global,
        range: &DecimalRange,
        out: &mut K,
    ) -> Result<(), FormatError>
        ensures written { WroteSuch K.wrote out.old result
            (BothSuch (F.shows self.now.single.formatter range.now.start.absolute)
            (F.shows self.now.single.formatter range.now.end.absolute))
            (units_range_events self.now.style (F.symbols self.now.single.formatter)
            self.now.single.rules self.now.single.elements range.now.start.sign
            range.now.end.sign) out.new }
        ensures overflow { IsErrOf result FormatError.Overflow
            ↔ (F.overflows self.now.single.formatter range.now.start.absolute
            ⊎ (¬ (IsErrOf result FormatError.OutOfMemory)
            × F.overflows self.now.single.formatter range.now.end.absolute)) }
    {
        let (start, end) = (range.start(), range.end());
        let frame = UnitsFrame {
            units: &self.units,
            style: PluralRangeStyle {
                style: RangeStyle {
                    pattern: &self.pattern,
                    fallback: self.fallback,
                },
                plural_ranges: &self.plural_ranges,
            },
            start_sign: start.sign,
            end_sign: end.sign,
        };
        write_range_into(
            alloc,
            self.units.formatter(),
            &start.absolute,
            &end.absolute,
            &frame,
            out,
        )
    }

    /// Writes a range to a sink, with the same parts.
    ///
    /// After `Overflow` and `OutOfMemory` the sink is unchanged. `Sink` only where the sink failed
    /// in this call, and it then holds a beginning of the events besides.
    pub fn write<S: PartsWrite>(
        &self,
        alloc: Global,
        range: &DecimalRange,
        sink: &mut S,
    ) -> Result<(), FormatError>
        ensures written { WritesSuch S.events S.failures sink.old result
            (BothSuch (F.shows self.now.single.formatter range.now.start.absolute)
            (F.shows self.now.single.formatter range.now.end.absolute))
            (units_range_events self.now.style (F.symbols self.now.single.formatter)
            self.now.single.rules self.now.single.elements range.now.start.sign
            range.now.end.sign) sink.new }
        ensures limited { KeepsLimitSuch S.events S.limit S.refusals sink.old result
            (BothSuch (F.shows self.now.single.formatter range.now.start.absolute)
            (F.shows self.now.single.formatter range.now.end.absolute))
            (units_range_events self.now.style (F.symbols self.now.single.formatter)
            self.now.single.rules self.now.single.elements range.now.start.sign
            range.now.end.sign) sink.new }
        ensures overflow { IsErrOf result FormatError.Overflow
            ↔ (F.overflows self.now.single.formatter range.now.start.absolute
            ⊎ (¬ (IsErrOf result FormatError.OutOfMemory)
            × F.overflows self.now.single.formatter range.now.end.absolute)) }
    {
        let mut out = WithParts { sink };
        let result = self.write_into(alloc, range, &mut out);
        out.into_inner();
        result
    }

    /// The characters that `write` writes, as a text. `Sink` is never reported.
    pub fn write_to_string(
        &self,
        alloc: Global,
        range: &DecimalRange,
    ) -> Result<String, FormatError>
        ensures text { IfOk result (λ t. (p : ShownPair)
            × F.shows self.now.single.formatter range.now.start.absolute p.first
            × F.shows self.now.single.formatter range.now.end.absolute p.second
            × (string_bytes t ≡ text_of (units_range_events self.now.style
            (F.symbols self.now.single.formatter) self.now.single.rules self.now.single.elements
            range.now.start.sign range.now.end.sign p))) }
        ensures overflow { IsErrOf result FormatError.Overflow
            ↔ (F.overflows self.now.single.formatter range.now.start.absolute
            ⊎ (¬ (IsErrOf result FormatError.OutOfMemory)
            × F.overflows self.now.single.formatter range.now.end.absolute)) }
        ensures no_sink { IfErr result (λ e. e ≢ FormatError.Sink) }
    {
        let mut text = String::new(alloc);
        match self.write_into(alloc, range, &mut text) {
            Ok(()) => Ok(text),
            Err(FormatError::Overflow) => Err(FormatError::Overflow),
            Err(_) => Err(FormatError::OutOfMemory),
        }
    }
}
