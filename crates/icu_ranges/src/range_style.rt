//! How ranges are written, and ranges of texts that are shown already.

ghost use Rattle.std.specs.Prelude.{◌≡◌};
ghost use Rattle.icu_ranges.specs.Around.{amounts_of};
ghost use Rattle.icu_ranges.specs.Ranges.{range_of};
ghost use Rattle.icu_ranges.specs.Writing.{WroteText};

use crate::around::AroundFrame;
use crate::joined::write_range_of;
use crate::options::RangeIdentityFallback;
use crate::range_pattern::RangePattern;
use fixed_decimal::Sign;
use icu_decimal::error::FormatError;
use icu_dimension_data::SignedPatterns;
use std::alloc::Global;
use writeable::{EventWriter, Writeable};

/// How ranges are written: with which separator, and what is written where both texts are equal
/// (this project's own).
#[derive(Drop)]
pub struct RangeStyle<'a> {
    /// The pattern, which has the separator.
    pub pattern: &'a RangePattern,
    /// What is written where both texts are equal.
    pub fallback: RangeIdentityFallback,
}

impl<'a> RangeStyle<'a> {
    /// The same style, borrowed again.
    fn lent(&self) -> RangeStyle<'a>
        ensures pattern { result.pattern.now ≡ self.now.pattern.now }
        ensures fallback { result.fallback ≡ self.now.fallback }
    {
        RangeStyle {
            pattern: self.pattern,
            fallback: self.fallback,
        }
    }

    /// Writes two texts as a range, each with its signs and symbols, into any writer (this
    /// project's own).
    ///
    /// With `RangeIdentityFallback::Approximately` the approximately sign stands in front of one of
    /// two equal texts.
    ///
    /// After `OutOfMemory` the writer is unchanged. `Sink` only where the writer failed. `Overflow`
    /// is never reported. Equal texts are found in memory, so `RangeIdentityFallback::Range` takes
    /// none.
    // promise: Two texts are written as one, or joined.
    // mutations: style_texts_exchanged
    pub fn write_texts_into<A: Writeable, B: Writeable, K: EventWriter>(
        &self,
        alloc: Global,
        start: &A,
        end: &B,
        out: &mut K,
    ) -> Result<(), FormatError>
        ensures { WroteText K.wrote out.old result (range_of (record {
          separator = self.now.pattern.now;
          fallback = self.now.fallback;
        }) (A.events start.now) (B.events end.now)) out.new }
    {
        write_range_of(alloc, self, start, end, out)
    }

    /// Writes two numbers without their signs, each in the pattern of its sign, as a range into any
    /// writer (this project's own). `signs` are those of the start and of the end.
    ///
    /// What the pattern of no sign has around a number is written once if neither number has a sign
    /// and if it is more than one character. The approximately sign stands in the pattern of the
    /// number's sign: in front of this sign, or without one in the place of the plus. The errors
    /// are those of [`write_texts_into`](RangeStyle::write_texts_into).
    // promise: Two numbers stand in the patterns of their signs.
    // mutations: style_signs_exchanged
    pub fn write_amounts_into<A: Writeable, B: Writeable, K: EventWriter>(
        &self,
        alloc: Global,
        patterns: &SignedPatterns,
        signs: (Sign, Sign),
        start: &A,
        end: &B,
        out: &mut K,
    ) -> Result<(), FormatError>
        ensures { WroteText K.wrote out.old result (amounts_of (record {
          separator = self.now.pattern.now;
          fallback = self.now.fallback;
        }) patterns.now signs.0 signs.1 (A.events start.now) (B.events end.now)) out.new }
    {
        let frame = AroundFrame {
            patterns,
            style: self.lent(),
            start_sign: signs.0,
            end_sign: signs.1,
        };
        frame.write_texts(alloc, start, end, out)
    }
}
