//! What stands around numbers of one sign.

use fixed_decimal::Sign;
use icu_decimal_interface::{Frame, ShownNumber};
use icu_dimension_data::SignedPatterns;
use writeable::{EventWriter, WriteFault, Writeable};

/// A borrowed value, with its parts.
#[derive(Drop)]
pub(crate) struct Lent<'a, T> {
    pub(crate) value: &'a T,
}

impl<T: Writeable> Writeable for Lent<'_, T> {
    ghost events = { λ l. T.events l.value.now };

    fn write_events<K: EventWriter>(&self, out: &mut K) -> Result<(), WriteFault> {
        self.value.write_events(out)
    }
}

/// The pattern of a sign around a number.
#[derive(Drop)]
pub(crate) struct SignFrame<'a> {
    pub(crate) patterns: &'a SignedPatterns,
    pub(crate) sign: Sign,
}

impl Frame for SignFrame<'_> {
    ghost use Rattle.std.proofs.Common.{inl};
    ghost use Rattle.icu_dimension.specs.FramesOnce.{sign_stands};
    ghost use Rattle.icu_dimension.specs.Money.{sign_framed};

    ghost framed = { λ f operands es. sign_framed f.patterns.now f.sign es };

    ghost leaves_out = { λ f operands. ⊥ };

    ghost once = { λ f operands. inl (sign_stands f.patterns.now f.sign) };

    fn write_framed<N: ShownNumber, K: EventWriter>(
        &self,
        number: &N,
        out: &mut K,
    ) -> Result<(), WriteFault> {
        let pattern = self.patterns.for_sign(self.sign);
        pattern
            .interpolate(Lent { value: number })
            .write_events(out)
    }
}
