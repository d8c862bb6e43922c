//! What a caller does with a number that a formatter shows: writes it, asks it, or shows another
//! number inside.

ghost use Rattle.std.specs.Prelude.{◌≡◌, List};
ghost use Rattle.writeable.specs.Events.{Event};
ghost use Rattle.icu_plurals.specs.Operands.{Operands};

use crate::frame::{Frame, ShownNumber};
use icu_plurals::PluralOperands;
use std::alloc::Global;
use writeable::{EventWriter, WriteFault};

/// What a caller does with a number that is shown: it may write it into any writer, ask its plural
/// operands, and show a second number inside.
pub trait UseShown {
    /// What is answered.
    type Output;

    /// What a use does: the value before, the operands and the events of the number, the answer,
    /// and the value after.
    ghost used: { Self → Operands → List Event → Self.Output → Self → Type 0 };

    /// Uses a number.
    fn use_shown<N: ShownNumber>(&mut self, alloc: Global, number: &N) -> Self::Output
        ensures { used self.old (N.operands number.now) (N.events number.now) result self.new };
}

/// Writes a number in a frame.
#[derive(Drop)]
pub(crate) struct WriteFramed<'a, T, K> {
    pub(crate) frame: &'a T,
    pub(crate) out: &'a mut K,
}

impl<'a, T, K> WriteFramed<'a, T, K> {
    pub(crate) fn new(frame: &'a T, out: &'a mut K) -> Self
        ensures frame { result.frame.now ≡ frame.now }
        ensures out { result.out ≡ out.entry }
    {
        WriteFramed { frame, out }
    }

    pub(crate) fn into_inner(self) -> &'a mut K
        ensures { result ≡ self.entry.out }
    {
        self.out
    }
}

impl<T: Frame, K: EventWriter> UseShown for WriteFramed<'_, T, K> {
    type Output = Result<(), WriteFault>;

    ghost used = { λ a o es r b. (b.out.ghost_name ≡ a.out.ghost_name)
        × K.wrote a.out.now r (T.framed a.frame.now o es) b.out.now };

    fn use_shown<N: ShownNumber>(&mut self, _alloc: Global, number: &N) -> Result<(), WriteFault> {
        self.frame.write_framed(number, self.out)
    }
}

/// Asks a number for its operands.
#[derive(Drop)]
pub(crate) struct AskOperands;

impl UseShown for AskOperands {
    type Output = PluralOperands;

    ghost used = { λ a o es r b. r ≡ o };

    fn use_shown<N: ShownNumber>(&mut self, _alloc: Global, number: &N) -> PluralOperands {
        number.plural_operands()
    }
}

/// The number alone.
#[derive(Drop)]
pub(crate) struct Alone;

impl Frame for Alone {
    ghost use Rattle.std.proofs.Common.{inl};
    ghost use Rattle.icu_decimal_interface.specs.OnceLaws.{alone_stands};

    ghost framed = { λ f o es. es };

    ghost leaves_out = { λ f o. ⊥ };

    ghost once = { λ f o. inl alone_stands };

    fn write_framed<N: ShownNumber, K: EventWriter>(
        &self,
        number: &N,
        out: &mut K,
    ) -> Result<(), WriteFault> {
        number.write_events(out)
    }
}

/// Writes a number alone, and asks its operands.
#[derive(Drop)]
pub(crate) struct WriteAndAsk<'a, K> {
    out: &'a mut K,
}

impl<'a, K> WriteAndAsk<'a, K> {
    pub(crate) fn new(out: &'a mut K) -> Self
        ensures { result.out ≡ out.entry }
    {
        WriteAndAsk { out }
    }

    pub(crate) fn into_inner(self) -> &'a mut K
        ensures { result ≡ self.entry.out }
    {
        self.out
    }
}

impl<K: EventWriter> UseShown for WriteAndAsk<'_, K> {
    type Output = (Result<(), WriteFault>, PluralOperands);

    ghost used = { λ a o es r b. (b.out.ghost_name ≡ a.out.ghost_name)
        × K.wrote a.out.now r.0 es b.out.now × (r.1 ≡ o) };

    fn use_shown<N: ShownNumber>(
        &mut self,
        _alloc: Global,
        number: &N,
    ) -> (Result<(), WriteFault>, PluralOperands) {
        (number.write_events(self.out), number.plural_operands())
    }
}
