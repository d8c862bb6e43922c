//! Two numbers as a formatter shows them, before anything is written.

ghost use Rattle.std.specs.Prelude.{◌≡◌, ◌↔◌, ◌⊎◌, List, Result, IsErrOf};
ghost use Rattle.writeable.specs.Events.{Event};
ghost use Rattle.icu_plurals.specs.Operands.{Operands};
ghost use Rattle.icu_decimal_interface.specs.Shown.{operands_shown};
ghost use Rattle.icu_decimal_interface.specs.Nested.{BothSuch, pair_events};
ghost use Rattle.icu_decimal_interface.specs.UsesShown.{WroteSuch};
ghost use Rattle.icu_ranges.specs.Writing.{WroteText};

use fixed_decimal::UnsignedDecimal;
use icu_decimal::error::FormatError;
use icu_decimal_interface::{AbstractFormatter, ShownNumber, UseShown};
use std::alloc::Global;
use writeable::EventWriter;

/// What is written for two numbers that are shown; it may take memory before it writes.
pub(crate) trait RangeFrame {
    /// The events of two numbers in the frame.
    ghost framed: { Self → Operands → List Event → Operands → List Event → List Event };

    /// Writes two numbers in the frame.
    fn write_range<M: ShownNumber, N: ShownNumber, K: EventWriter>(
        &self,
        alloc: Global,
        start: &M,
        end: &N,
        out: &mut K,
    ) -> Result<(), FormatError>
        ensures { WroteText K.wrote out.old result
            (framed self.now (M.operands start.now) (M.events start.now)
            (N.operands end.now) (N.events end.now)) out.new };
}

/// Writes a number behind one that is shown already.
#[derive(Drop)]
struct WriteEnd<'f, 'm, 'k, T, M, K> {
    frame: &'f T,
    start: &'m M,
    out: &'k mut K,
}

impl<'f, 'm, 'k, T, M, K> WriteEnd<'f, 'm, 'k, T, M, K> {
    fn new(frame: &'f T, start: &'m M, out: &'k mut K) -> Self
        ensures frame { result.frame.now ≡ frame.now }
        ensures start { result.start.now ≡ start.now }
        ensures out { result.out ≡ out.entry }
    {
        WriteEnd { frame, start, out }
    }

    fn into_inner(self) -> &'k mut K
        ensures { result ≡ self.entry.out }
    {
        self.out
    }
}

impl<T: RangeFrame, M: ShownNumber, K: EventWriter> UseShown for WriteEnd<'_, '_, '_, T, M, K> {
    type Output = Result<(), FormatError>;

    ghost used = { λ a o es r b. (b.out.ghost_name ≡ a.out.ghost_name)
        × WroteText K.wrote a.out.now r (T.framed a.frame.now (M.operands a.start.now)
        (M.events a.start.now) o es) b.out.now };

    fn use_shown<N: ShownNumber>(&mut self, alloc: Global, number: &N) -> Result<(), FormatError> {
        self.frame.write_range(alloc, self.start, number, self.out)
    }
}

/// Shows the end of a range while its start is shown.
#[derive(Drop)]
struct ShowEnd<'a, F, T, K> {
    formatter: &'a F,
    end: &'a UnsignedDecimal,
    frame: &'a T,
    out: &'a mut K,
}

impl<'a, F, T, K> ShowEnd<'a, F, T, K> {
    fn into_inner(self) -> &'a mut K
        ensures { result ≡ self.entry.out }
    {
        self.out
    }
}

impl<F: AbstractFormatter, T: RangeFrame, K: EventWriter> UseShown for ShowEnd<'_, F, T, K> {
    ghost use Rattle.icu_decimal.specs.declared.error.FormatError.TheVariants.{Overflow};
    ghost use Rattle.std.specs.Prelude.{◌≡◌, ◌↔◌, IsErrOf};
    ghost use Rattle.icu_decimal_interface.specs.Shown.{operands_shown};
    ghost use Rattle.icu_decimal_interface.specs.UsesShown.{WroteSuch};

    type Output = Result<(), FormatError>;

    ghost used = { λ a o es r b. (b.out.ghost_name ≡ a.out.ghost_name)
        × WroteSuch K.wrote a.out.now r (F.shows a.formatter.now a.end.now)
        (λ m. T.framed a.frame.now o es (operands_shown m) m.events) b.out.now
        × (IsErrOf r Overflow ↔ F.overflows a.formatter.now a.end.now) };

    fn use_shown<N: ShownNumber>(&mut self, alloc: Global, number: &N) -> Result<(), FormatError> {
        write_end(
            alloc,
            number,
            self.formatter,
            self.end,
            self.frame,
            self.out,
        )
    }
}

/// Writes the end of a range whose start is shown already.
fn write_end<M: ShownNumber, F: AbstractFormatter, T: RangeFrame, K: EventWriter>(
    alloc: Global,
    start: &M,
    formatter: &F,
    end: &UnsignedDecimal,
    frame: &T,
    out: &mut K,
) -> Result<(), FormatError>
    ensures written { WroteSuch K.wrote out.old result (F.shows formatter.now end.now)
        (λ m. T.framed frame.now (M.operands start.now) (M.events start.now)
        (operands_shown m) m.events) out.new }
    ensures overflow { IsErrOf result FormatError.Overflow
        ↔ F.overflows formatter.now end.now }
{
    let mut writing = WriteEnd::new(frame, start, out);
    let result = formatter.with_shown(alloc, end, &mut writing);
    writing.into_inner();
    match result {
        Ok(answer) => answer,
        Err(error) => Err(error),
    }
}

/// Writes two numbers in a frame. An overflow of either number is reported before anything is
/// written.
pub(crate) fn write_range_into<F: AbstractFormatter, T: RangeFrame, K: EventWriter>(
    alloc: Global,
    formatter: &F,
    start: &UnsignedDecimal,
    end: &UnsignedDecimal,
    frame: &T,
    out: &mut K,
) -> Result<(), FormatError>
    ensures written { WroteSuch K.wrote out.old result
        (BothSuch (F.shows formatter.now start.now) (F.shows formatter.now end.now))
        (pair_events (T.framed frame.now)) out.new }
    ensures overflow { IsErrOf result FormatError.Overflow
        ↔ (F.overflows formatter.now start.now
        ⊎ (¬ (IsErrOf result FormatError.OutOfMemory) × F.overflows formatter.now end.now)) }
{
    let mut showing = ShowEnd {
        formatter,
        end,
        frame,
        out,
    };
    let result = formatter.with_shown(alloc, start, &mut showing);
    showing.into_inner();
    match result {
        Ok(answer) => answer,
        Err(error) => Err(error),
    }
}
