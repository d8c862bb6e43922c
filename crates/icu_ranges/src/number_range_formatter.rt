//! Ranges of numbers, plain or compact.

ghost use Rattle.std.specs.Prelude.{◌≡◌, ◌≢◌, ◌↔◌, ◌⊎◌, IfOk, IfErr, IsErrOf};
ghost use Rattle.std.specs.String.{string_bytes};
ghost use Rattle.writeable.specs.Events.{text_of};
ghost use Rattle.icu_decimal_interface.specs.Nested.{BothSuch, ShownPair};
ghost use Rattle.icu_decimal_interface.specs.UsesShown.{WroteSuch};
ghost use Rattle.icu_decimal_interface.specs.WritesSuch.{KeepsLimitSuch, WritesSuch};
ghost use Rattle.icu_ranges.specs.Ranges.{numbers_events};

use crate::decimal_range::DecimalRange;
use crate::joined::{Lent, write_range_of};
use crate::options::RangeIdentityFallback;
use crate::range_pattern::RangePattern;
use crate::range_style::RangeStyle;
use crate::showing::{RangeFrame, write_range_into};
use fixed_decimal::Sign;
use icu_decimal::error::FormatError;
use icu_decimal_interface::{AbstractFormatter, ShownNumber};
use std::alloc::Global;
use std::marker::Model;
use writeable::{EventWriter, PartsWrite, WithParts};

/// Writes ranges of numbers, as `3–5`, `-3 – 5` and `1K – 2K` (ICU `NumberRangeFormatter`).
///
/// Each end is what the formatter shows of that end alone, with its sign. The separator is plain
/// between two texts that begin and end with a digit, and has spaces around it between all others.
/// So different ranges don't share a text because something is written once for both ends.
#[derive(Drop)]
pub struct NumberRangeFormatter<F> {
    formatter: F,
    pattern: RangePattern,
    fallback: RangeIdentityFallback,
}

impl<F> Model for NumberRangeFormatter<F> {
    ghost use Rattle.icu_ranges.specs.Ranges.{NumberRangeFormat};

    ghost Value = { NumberRangeFormat F };

    ghost view = { λ f. record {
      formatter = f.formatter;
      style = record { separator = f.pattern; fallback = f.fallback };
    } };
}

/// Two numbers with their signs, as a range.
#[derive(Drop)]
struct NumberFrame<'a, F> {
    formatter: &'a F,
    style: RangeStyle<'a>,
    start_sign: Sign,
    end_sign: Sign,
}

impl<F: AbstractFormatter> RangeFrame for NumberFrame<'_, F> {
    ghost use Rattle.icu_ranges.specs.Ranges.{numbers_framed};

    ghost framed = { λ f. numbers_framed (record {
      separator = f.style.pattern.now;
      fallback = f.style.fallback;
    }) (F.symbols f.formatter.now) f.start_sign f.end_sign };

    fn write_range<M: ShownNumber, N: ShownNumber, K: EventWriter>(
        &self,
        alloc: Global,
        start: &M,
        end: &N,
        out: &mut K,
    ) -> Result<(), FormatError> {
        let first = self
            .formatter
            .format_sign(Lent { value: start }, self.start_sign);
        let second = self
            .formatter
            .format_sign(Lent { value: end }, self.end_sign);
        write_range_of(alloc, &self.style, &first, &second, out)
    }
}

impl<F: AbstractFormatter> NumberRangeFormatter<F> {
    /// The formatter of ranges by a formatter of numbers and a separator.
    pub fn new(formatter: F, pattern: RangePattern, fallback: RangeIdentityFallback) -> Self
        ensures { result ≡ record {
          formatter = formatter;
          style = record { separator = pattern; fallback = fallback };
        } }
    {
        NumberRangeFormatter {
            formatter,
            pattern,
            fallback,
        }
    }

    /// Writes a range into any writer, with the parts of its numbers and signs; the separator is in
    /// no part.
    ///
    /// `Overflow` exactly where the formatter overflows for one of the ends, before anything is
    /// written. After `OutOfMemory` the writer is unchanged too. `Sink` only where the writer
    /// failed. Equal texts are found in memory, so `RangeIdentityFallback::Range` takes none.
    // promise: A range is its two ends as they are shown, joined.
    // mutations: joined_start_written_twice, joined_separator_always_spaced
    // promise: An overflow of either end comes before any text.
    // mutations: number_start_before_the_end_is_known
    pub fn write_into<K: EventWriter>(
        &self,
        alloc: Global,
        range: &DecimalRange,
        out: &mut K,
    ) -> Result<(), FormatError>
        ensures written { WroteSuch K.wrote out.old result
            (BothSuch (F.shows self.now.formatter range.now.start.absolute)
            (F.shows self.now.formatter range.now.end.absolute))
            (numbers_events self.now.style (F.symbols self.now.formatter)
            range.now.start.sign range.now.end.sign) out.new }
        ensures overflow { IsErrOf result FormatError.Overflow
            ↔ (F.overflows self.now.formatter range.now.start.absolute
            ⊎ (¬ (IsErrOf result FormatError.OutOfMemory)
            × F.overflows self.now.formatter range.now.end.absolute)) }
    {
        let (start, end) = (range.start(), range.end());
        let frame = NumberFrame {
            formatter: &self.formatter,
            style: RangeStyle {
                pattern: &self.pattern,
                fallback: self.fallback,
            },
            start_sign: start.sign,
            end_sign: end.sign,
        };
        write_range_into(
            alloc,
            &self.formatter,
            &start.absolute,
            &end.absolute,
            &frame,
            out,
        )
    }

    /// Writes a range to a sink, with the same parts.
    ///
    /// After `Overflow` and `OutOfMemory` the sink is unchanged. `Sink` only where the sink failed
    /// in this call, and it then holds a beginning of the events besides.
    pub fn write<S: PartsWrite>(
        &self,
        alloc: Global,
        range: &DecimalRange,
        sink: &mut S,
    ) -> Result<(), FormatError>
        ensures written { WritesSuch S.events S.failures sink.old result
            (BothSuch (F.shows self.now.formatter range.now.start.absolute)
            (F.shows self.now.formatter range.now.end.absolute))
            (numbers_events self.now.style (F.symbols self.now.formatter)
            range.now.start.sign range.now.end.sign) sink.new }
        ensures limited { KeepsLimitSuch S.events S.limit S.refusals sink.old result
            (BothSuch (F.shows self.now.formatter range.now.start.absolute)
            (F.shows self.now.formatter range.now.end.absolute))
            (numbers_events self.now.style (F.symbols self.now.formatter)
            range.now.start.sign range.now.end.sign) sink.new }
        ensures overflow { IsErrOf result FormatError.Overflow
            ↔ (F.overflows self.now.formatter range.now.start.absolute
            ⊎ (¬ (IsErrOf result FormatError.OutOfMemory)
            × F.overflows self.now.formatter range.now.end.absolute)) }
    {
        let mut out = WithParts { sink };
        let result = self.write_into(alloc, range, &mut out);
        out.into_inner();
        result
    }

    /// The characters that `write` writes, as a text. `Sink` is never reported.
    pub fn write_to_string(
        &self,
        alloc: Global,
        range: &DecimalRange,
    ) -> Result<String, FormatError>
        ensures text { IfOk result (λ t. (p : ShownPair)
            × F.shows self.now.formatter range.now.start.absolute p.first
            × F.shows self.now.formatter range.now.end.absolute p.second
            × (string_bytes t ≡ text_of (numbers_events self.now.style
            (F.symbols self.now.formatter) range.now.start.sign range.now.end.sign p))) }
        ensures overflow { IsErrOf result FormatError.Overflow
            ↔ (F.overflows self.now.formatter range.now.start.absolute
            ⊎ (¬ (IsErrOf result FormatError.OutOfMemory)
            × F.overflows self.now.formatter range.now.end.absolute)) }
        ensures no_sink { IfErr result (λ e. e ≢ FormatError.Sink) }
    {
        let mut text = String::new(alloc);
        match self.write_into(alloc, range, &mut text) {
            Ok(()) => Ok(text),
            Err(FormatError::Overflow) => Err(FormatError::Overflow),
            Err(_) => Err(FormatError::OutOfMemory),
        }
    }
}
