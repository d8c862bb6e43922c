//! Ranges in the patterns of signs, as those of money and of percents.

ghost use Rattle.std.specs.Prelude.{◌≡◌};
ghost use Rattle.writeable.specs.Events.{characters};
ghost use Rattle.icu_ranges.specs.Around.{around_joined, around_none, is_shared};
ghost use Rattle.icu_ranges.specs.Edges.{is_long};

use crate::approximately::{has_no_sign, write_amount_approximated};
use crate::edges::is_long;
use crate::joined::{JoinedTexts, Lent, is_single, write_joined};
use crate::options::RangeIdentityFallback;
use crate::range_pattern::RangePattern;
use crate::range_style::RangeStyle;
use crate::showing::RangeFrame;
use fixed_decimal::Sign;
use icu_decimal::error::FormatError;
use icu_decimal_interface::ShownNumber;
use icu_dimension_data::SignedPatterns;
use std::alloc::Global;
use writeable::{EventWriter, OutOfMemory, WriteFault, Writeable};

/// Whether more than one character stands around numbers without a sign.
fn is_long_around(patterns: &SignedPatterns) -> bool
    ensures { result ≡ is_long (characters (around_none patterns.now)) }
{
    let around = patterns.for_sign(Sign::None).interpolate("");
    is_long(&around)
}

/// Whether what stands around both ends is written once.
fn is_shared(patterns: &SignedPatterns, start_sign: Sign, end_sign: Sign) -> bool
    ensures { result ≡ is_shared patterns.now start_sign end_sign }
{
    has_no_sign(start_sign) && has_no_sign(end_sign) && is_long_around(patterns)
}

/// Writes two numbers in the patterns of their signs, joined.
fn write_around<A: Writeable, B: Writeable, K: EventWriter>(
    patterns: &SignedPatterns,
    start_sign: Sign,
    end_sign: Sign,
    pattern: &RangePattern,
    start: &A,
    end: &B,
    out: &mut K,
) -> Result<(), WriteFault>
    ensures { K.wrote out.old result (around_joined pattern.now patterns.now start_sign end_sign
        (A.events start.now) (B.events end.now)) out.new }
{
    if is_shared(patterns, start_sign, end_sign) {
        let numbers = JoinedTexts {
            pattern,
            start,
            end,
        };
        return patterns
            .for_sign(Sign::None)
            .interpolate(numbers)
            .write_events(out);
    }
    let first = patterns
        .for_sign(start_sign)
        .interpolate(Lent { value: start });
    let second = patterns.for_sign(end_sign).interpolate(Lent { value: end });
    write_joined(pattern, &first, &second, out)
}

/// Two numbers in the patterns of their signs.
#[derive(Drop)]
pub(crate) struct AroundFrame<'a> {
    pub(crate) patterns: &'a SignedPatterns,
    pub(crate) style: RangeStyle<'a>,
    pub(crate) start_sign: Sign,
    pub(crate) end_sign: Sign,
}

impl AroundFrame<'_> {
    ghost use Rattle.std.specs.Prelude.{◌≡◌, IfOk};
    ghost use Rattle.icu_dimension.specs.Money.{sign_framed};
    ghost use Rattle.icu_ranges.specs.Around.{amount_alone, amounts_of};
    ghost use Rattle.icu_ranges.specs.Ranges.{is_single};
    ghost use Rattle.icu_ranges.specs.Writing.{WroteText};

    /// Whether both texts are written as one.
    fn is_single<A: Writeable, B: Writeable>(
        &self,
        alloc: Global,
        start: &A,
        end: &B,
    ) -> Result<bool, OutOfMemory>
        ensures { IfOk result (λ b. b ≡ is_single self.now.style.fallback
            (sign_framed self.now.patterns.now self.now.start_sign (A.events start.now))
            (sign_framed self.now.patterns.now self.now.end_sign (B.events end.now))) }
    {
        let first = self
            .patterns
            .for_sign(self.start_sign)
            .interpolate(Lent { value: start });
        let second = self
            .patterns
            .for_sign(self.end_sign)
            .interpolate(Lent { value: end });
        is_single(alloc, self.style.fallback, &first, &second)
    }

    /// Writes a text that both ends of a range have, in the pattern of its sign.
    fn write_single<A: Writeable, K: EventWriter>(
        &self,
        text: &A,
        out: &mut K,
    ) -> Result<(), WriteFault>
        ensures { K.wrote out.old result (amount_alone (record {
          separator = self.now.style.pattern.now;
          fallback = self.now.style.fallback;
        }) self.now.patterns.now self.now.start_sign (A.events text.now)) out.new }
    {
        match self.style.fallback {
            RangeIdentityFallback::Approximately => {
                let sign = self.style.pattern.approximately_sign();
                write_amount_approximated(sign, self.patterns, self.start_sign, text, out)
            }
            RangeIdentityFallback::SingleValue | RangeIdentityFallback::Range => self
                .patterns
                .for_sign(self.start_sign)
                .interpolate(Lent { value: text })
                .write_events(out),
        }
    }

    /// Writes two texts in the patterns of their signs, as a range.
    pub(crate) fn write_texts<A: Writeable, B: Writeable, K: EventWriter>(
        &self,
        alloc: Global,
        start: &A,
        end: &B,
        out: &mut K,
    ) -> Result<(), FormatError>
        ensures { WroteText K.wrote out.old result (amounts_of (record {
          separator = self.now.style.pattern.now;
          fallback = self.now.style.fallback;
        }) self.now.patterns.now self.now.start_sign self.now.end_sign (A.events start.now)
            (B.events end.now)) out.new }
    {
        let result = match self.is_single(alloc, start, end) {
            Ok(true) => self.write_single(start, out),
            Ok(false) => write_around(
                self.patterns,
                self.start_sign,
                self.end_sign,
                self.style.pattern,
                start,
                end,
                out,
            ),
            Err(OutOfMemory) => return Err(FormatError::OutOfMemory),
        };
        match result {
            Ok(()) => Ok(()),
            Err(WriteFault) => Err(FormatError::Sink),
        }
    }
}

impl RangeFrame for AroundFrame<'_> {
    ghost use Rattle.icu_ranges.specs.Around.{amounts_framed};

    ghost framed = { λ f. amounts_framed (record {
      separator = f.style.pattern.now;
      fallback = f.style.fallback;
    }) f.patterns.now f.start_sign f.end_sign };

    fn write_range<M: ShownNumber, N: ShownNumber, K: EventWriter>(
        &self,
        alloc: Global,
        start: &M,
        end: &N,
        out: &mut K,
    ) -> Result<(), FormatError> {
        self.write_texts(alloc, start, end, out)
    }
}
