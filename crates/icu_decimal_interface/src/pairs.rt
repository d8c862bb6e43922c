//! Two numbers in one frame, as in a range: the second is shown while the first is.

ghost use Rattle.std.specs.Prelude.{◌≡◌, ◌↔◌, ◌⊎◌, List, Result, Ok, Err, IsErrOf};
ghost use Rattle.writeable.specs.Events.{Event};
ghost use Rattle.icu_plurals.specs.Operands.{Operands};
ghost use Rattle.icu_decimal_interface.specs.Shown.{operands_shown};
ghost use Rattle.icu_decimal_interface.specs.Nested.{BothSuch, pair_events};
ghost use Rattle.icu_decimal_interface.specs.UsesShown.{WroteSuch};

use crate::abstract_formatter::AbstractFormatter;
use crate::frame::ShownNumber;
use crate::showing::UseShown;
use fixed_decimal::UnsignedDecimal;
use icu_decimal::error::FormatError;
use std::alloc::Global;
use writeable::{EventWriter, WriteFault};

/// What stands around two numbers, and may depend on the operands of both.
pub trait PairFrame {
    /// The events of two numbers in the frame.
    ghost framed: { Self → Operands → List Event → Operands → List Event → List Event };

    /// Writes two numbers in the frame.
    fn write_pair<M: ShownNumber, N: ShownNumber, K: EventWriter>(
        &self,
        first: &M,
        second: &N,
        out: &mut K,
    ) -> Result<(), WriteFault>
        ensures { K.wrote out.old result
            (framed self.now (M.operands first.now) (M.events first.now)
            (N.operands second.now) (N.events second.now)) out.new };
}

/// Writes a number in a frame with one that is shown already.
#[derive(Drop)]
pub(crate) struct WriteBoth<'f, 'm, 'k, T, M, K> {
    frame: &'f T,
    first: &'m M,
    out: &'k mut K,
}

impl<'f, 'm, 'k, T, M, K> WriteBoth<'f, 'm, 'k, T, M, K> {
    pub(crate) fn new(frame: &'f T, first: &'m M, out: &'k mut K) -> Self
        ensures frame { result.frame.now ≡ frame.now }
        ensures first { result.first.now ≡ first.now }
        ensures out { result.out ≡ out.entry }
    {
        WriteBoth { frame, first, out }
    }

    pub(crate) fn into_inner(self) -> &'k mut K
        ensures { result ≡ self.entry.out }
    {
        self.out
    }
}

impl<T: PairFrame, M: ShownNumber, K: EventWriter> UseShown for WriteBoth<'_, '_, '_, T, M, K> {
    type Output = Result<(), WriteFault>;

    ghost used = { λ a o es r b. (b.out.ghost_name ≡ a.out.ghost_name)
        × K.wrote a.out.now r (T.framed a.frame.now (M.operands a.first.now) (M.events a.first.now)
        o es) b.out.now };

    fn use_shown<N: ShownNumber>(&mut self, _alloc: Global, number: &N) -> Result<(), WriteFault> {
        self.frame.write_pair(self.first, number, self.out)
    }
}

/// Shows a second number inside the first, before anything is written.
#[derive(Drop)]
pub(crate) struct ShowSecond<'a, G, T, K> {
    formatter: &'a G,
    second: &'a UnsignedDecimal,
    frame: &'a T,
    out: &'a mut K,
}

impl<'a, G, T, K> ShowSecond<'a, G, T, K> {
    pub(crate) fn into_inner(self) -> &'a mut K
        ensures { result ≡ self.entry.out }
    {
        self.out
    }
}

impl<G: AbstractFormatter, T: PairFrame, K: EventWriter> UseShown for ShowSecond<'_, G, T, K> {
    ghost use Rattle.icu_decimal.specs.declared.error.FormatError.TheVariants.{Overflow, OutOfMemory};
    ghost use Rattle.std.specs.Prelude.{◌≡◌, ◌↔◌, IsErrOf};
    ghost use Rattle.icu_decimal_interface.specs.Shown.{operands_shown};
    ghost use Rattle.icu_decimal_interface.specs.UsesShown.{WroteSuch};

    type Output = Result<(), FormatError>;

    ghost used = { λ a o es r b. (b.out.ghost_name ≡ a.out.ghost_name)
        × WroteSuch K.wrote a.out.now r (G.shows a.formatter.now a.second.now)
        (λ m. T.framed a.frame.now o es (operands_shown m) m.events) b.out.now
        × (IsErrOf r Overflow ↔ G.overflows a.formatter.now a.second.now)
        × (IsErrOf r OutOfMemory → G.takes_memory a.formatter.now) };

    fn use_shown<N: ShownNumber>(&mut self, alloc: Global, number: &N) -> Result<(), FormatError> {
        write_second(
            alloc,
            number,
            self.formatter,
            self.second,
            self.frame,
            self.out,
        )
    }
}

/// Writes a second number in a frame with one that is shown already.
fn write_second<M: ShownNumber, G: AbstractFormatter, T: PairFrame, K: EventWriter>(
    alloc: Global,
    first: &M,
    formatter: &G,
    second: &UnsignedDecimal,
    frame: &T,
    out: &mut K,
) -> Result<(), FormatError>
    ensures written { WroteSuch K.wrote out.old result (G.shows formatter.now second.now)
        (λ m. T.framed frame.now (M.operands first.now) (M.events first.now)
        (operands_shown m) m.events) out.new }
    ensures overflow { IsErrOf result FormatError.Overflow
        ↔ G.overflows formatter.now second.now }
    ensures memory { IsErrOf result FormatError.OutOfMemory → G.takes_memory formatter.now }
{
    let mut both = WriteBoth::new(frame, first, out);
    let result = formatter.with_shown(alloc, second, &mut both);
    both.into_inner();
    match result {
        Ok(Ok(())) => Ok(()),
        Ok(Err(_)) => Err(FormatError::Sink),
        Err(error) => Err(error),
    }
}

/// Writes two numbers in a frame, as in a range. An overflow of either number is reported before
/// anything is written.
// promise: Two numbers stand in one frame, or none is written.
// mutations: second_shown_before_the_first, second_overflow_called_memory
pub fn write_pair_into<F: AbstractFormatter, G: AbstractFormatter, T: PairFrame, K: EventWriter>(
    alloc: Global,
    formatter: &F,
    first: &UnsignedDecimal,
    inner: &G,
    second: &UnsignedDecimal,
    frame: &T,
    out: &mut K,
) -> Result<(), FormatError>
    ensures written { WroteSuch K.wrote out.old result
        (BothSuch (F.shows formatter.now first.now) (G.shows inner.now second.now))
        (pair_events (T.framed frame.now)) out.new }
    ensures overflow { IsErrOf result FormatError.Overflow
        ↔ (F.overflows formatter.now first.now
        ⊎ (¬ (IsErrOf result FormatError.OutOfMemory) × G.overflows inner.now second.now)) }
    ensures memory { IsErrOf result FormatError.OutOfMemory →
        F.takes_memory formatter.now ⊎ G.takes_memory inner.now }
{
    let mut showing = ShowSecond {
        formatter: inner,
        second,
        frame,
        out,
    };
    let result = formatter.with_shown(alloc, first, &mut showing);
    showing.into_inner();
    match result {
        Ok(answer) => answer,
        Err(error) => Err(error),
    }
}
