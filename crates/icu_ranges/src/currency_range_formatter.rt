//! Ranges of amounts of money with the symbol of their currency.

ghost use Rattle.std.specs.Prelude.{◌≡◌, ◌≢◌, ◌↔◌, ◌⊎◌, IfOk, IfErr, IsErrOf};
ghost use Rattle.std.specs.String.{string_bytes};
ghost use Rattle.writeable.specs.Events.{text_of};
ghost use Rattle.icu_decimal_interface.specs.Nested.{BothSuch, ShownPair};
ghost use Rattle.icu_decimal_interface.specs.UsesShown.{WroteSuch};
ghost use Rattle.icu_decimal_interface.specs.WritesSuch.{KeepsLimitSuch, WritesSuch};
ghost use Rattle.icu_ranges.specs.Around.{amounts_events};

use crate::around::AroundFrame;
use crate::decimal_range::DecimalRange;
use crate::options::RangeIdentityFallback;
use crate::range_pattern::RangePattern;
use crate::range_style::RangeStyle;
use crate::showing::write_range_into;
use icu_decimal::error::FormatError;
use icu_decimal_interface::AbstractFormatter;
use icu_dimension_data::SignedPatterns;
use std::alloc::Global;
use std::marker::Model;
use writeable::{EventWriter, PartsWrite, WithParts};

/// Writes ranges of amounts, as `$3.00 – $5.00` and `3,00–5,00 €`.
///
/// What stands around both amounts is written once if neither has a sign and if it is more than one
/// character, so not for `$`. Else each amount is written whole.
#[derive(Drop)]
pub struct CurrencyRangeFormatter<F> {
    formatter: F,
    patterns: SignedPatterns,
    pattern: RangePattern,
    fallback: RangeIdentityFallback,
}

impl<F> Model for CurrencyRangeFormatter<F> {
    ghost use Rattle.icu_ranges.specs.Around.{AmountRangeFormat};

    ghost Value = { AmountRangeFormat F };

    ghost view = { λ f. record {
      formatter = f.formatter;
      patterns = f.patterns;
      style = record { separator = f.pattern; fallback = f.fallback };
    } };
}

impl<F: AbstractFormatter> CurrencyRangeFormatter<F> {
    /// The formatter of ranges by the parts of a formatter of single amounts and a separator.
    pub fn new(
        formatter: F,
        patterns: SignedPatterns,
        pattern: RangePattern,
        fallback: RangeIdentityFallback,
    ) -> Self
        ensures { result ≡ record {
          formatter = formatter;
          patterns = patterns;
          style = record { separator = pattern; fallback = fallback };
        } }
    {
        CurrencyRangeFormatter {
            formatter,
            patterns,
            pattern,
            fallback,
        }
    }

    /// Writes a range into any writer, with the parts of its numbers, signs and symbols; the
    /// separator is in no part.
    ///
    /// `Overflow` exactly where the formatter overflows for one of the ends, before anything is
    /// written. After `OutOfMemory` the writer is unchanged too. `Sink` only where the writer
    /// failed. Equal texts are found in memory, so `RangeIdentityFallback::Range` takes none.
    // promise: What stands around both amounts is written once, or whole.
    // mutations: around_shared_with_a_sign, around_shared_at_one_character
    pub fn write_into<K: EventWriter>(
        &self,
        alloc: Global,
        range: &DecimalRange,
        out: &mut K,
    ) -> Result<(), FormatError>
        ensures written { WroteSuch K.wrote out.old result
            (BothSuch (F.shows self.now.formatter range.now.start.absolute)
            (F.shows self.now.formatter range.now.end.absolute))
            (amounts_events self.now.style self.now.patterns
            range.now.start.sign range.now.end.sign) out.new }
        ensures overflow { IsErrOf result FormatError.Overflow
            ↔ (F.overflows self.now.formatter range.now.start.absolute
            ⊎ (¬ (IsErrOf result FormatError.OutOfMemory)
            × F.overflows self.now.formatter range.now.end.absolute)) }
    {
        let (start, end) = (range.start(), range.end());
        let frame = AroundFrame {
            patterns: &self.patterns,
            style: RangeStyle {
                pattern: &self.pattern,
                fallback: self.fallback,
            },
            start_sign: start.sign,
            end_sign: end.sign,
        };
        write_range_into(
            alloc,
            &self.formatter,
            &start.absolute,
            &end.absolute,
            &frame,
            out,
        )
    }

    /// Writes a range to a sink, with the same parts.
    ///
    /// After `Overflow` and `OutOfMemory` the sink is unchanged. `Sink` only where the sink failed
    /// in this call, and it then holds a beginning of the events besides.
    pub fn write<S: PartsWrite>(
        &self,
        alloc: Global,
        range: &DecimalRange,
        sink: &mut S,
    ) -> Result<(), FormatError>
        ensures written { WritesSuch S.events S.failures sink.old result
            (BothSuch (F.shows self.now.formatter range.now.start.absolute)
            (F.shows self.now.formatter range.now.end.absolute))
            (amounts_events self.now.style self.now.patterns
            range.now.start.sign range.now.end.sign) sink.new }
        ensures limited { KeepsLimitSuch S.events S.limit S.refusals sink.old result
            (BothSuch (F.shows self.now.formatter range.now.start.absolute)
            (F.shows self.now.formatter range.now.end.absolute))
            (amounts_events self.now.style self.now.patterns
            range.now.start.sign range.now.end.sign) sink.new }
        ensures overflow { IsErrOf result FormatError.Overflow
            ↔ (F.overflows self.now.formatter range.now.start.absolute
            ⊎ (¬ (IsErrOf result FormatError.OutOfMemory)
            × F.overflows self.now.formatter range.now.end.absolute)) }
    {
        let mut out = WithParts { sink };
        let result = self.write_into(alloc, range, &mut out);
        out.into_inner();
        result
    }

    /// The characters that `write` writes, as a text. `Sink` is never reported.
    pub fn write_to_string(
        &self,
        alloc: Global,
        range: &DecimalRange,
    ) -> Result<String, FormatError>
        ensures text { IfOk result (λ t. (p : ShownPair)
            × F.shows self.now.formatter range.now.start.absolute p.first
            × F.shows self.now.formatter range.now.end.absolute p.second
            × (string_bytes t ≡ text_of (amounts_events self.now.style
            self.now.patterns range.now.start.sign range.now.end.sign p))) }
        ensures overflow { IsErrOf result FormatError.Overflow
            ↔ (F.overflows self.now.formatter range.now.start.absolute
            ⊎ (¬ (IsErrOf result FormatError.OutOfMemory)
            × F.overflows self.now.formatter range.now.end.absolute)) }
        ensures no_sink { IfErr result (λ e. e ≢ FormatError.Sink) }
    {
        let mut text = String::new(alloc);
        match self.write_into(alloc, range, &mut text) {
            Ok(()) => Ok(text),
            Err(FormatError::Overflow) => Err(FormatError::Overflow),
            Err(_) => Err(FormatError::OutOfMemory),
        }
    }
}
