//! What stands around a number that is shown: a unit, a currency, a sign.

ghost use Rattle.std.specs.Prelude.{◌≡◌, ◌⊎◌, List};
ghost use Rattle.writeable.specs.Events.{Event};
ghost use Rattle.icu_plurals.specs.Operands.{Operands};
ghost use Rattle.icu_decimal_interface.specs.Once.{StandsOnce};
ghost use Rattle.icu_decimal_interface.specs.Shown.{picked};

use crate::sealed::Sealed;
use icu_decimal::{FormattedUnsignedCompactDecimal, FormattedUnsignedDecimal};
use icu_plurals::{PluralElements, PluralOperands, PluralRules};
use writeable::{EventWriter, WriteFault, Writeable};

/// A number as a formatter shows it, without its sign: it writes its events, and has its plural
/// operands.
pub trait ShownNumber: Writeable + Sealed {
    /// The plural operands of the number.
    ghost operands: { Self → Operands };

    /// The plural operands of the number. It takes no memory.
    fn plural_operands(&self) -> PluralOperands
        ensures { result ≡ operands self.now };

    /// The value that plural rules pick by the number's operands. If there is only one value, no
    /// operands are computed.
    final fn pick<'a, T>(&self, elements: &'a PluralElements<T>, rules: &PluralRules) -> &'a T
        ensures { result.now ≡ picked rules.now elements.now (operands self.now) }
    {
        match elements.sole() {
            Some(value) => value,
            None => elements.get(self.plural_operands(), rules),
        }
    }
}

/// What stands around a number, and may depend on its plural operands. By
/// [`AbstractFormatter::write_framed`] units, currencies and messages work with every formatter of
/// numbers (this project's own).
///
/// [`AbstractFormatter::write_framed`]: crate::AbstractFormatter::write_framed
pub trait Frame {
    /// The events of a number in the frame: a function of its plural operands and of its own
    /// events.
    ghost framed: { Self → Operands → List Event → List Event };

    /// For these operands the frame leaves the number out, as a pattern without a placeholder does.
    ghost leaves_out: { Self → Operands → Type 0 };

    /// Writes a number in the frame. Its operands are computed only if they are asked for.
    fn write_framed<N: ShownNumber, K: EventWriter>(
        &self,
        number: &N,
        out: &mut K,
    ) -> Result<(), WriteFault>
        ensures { K.wrote out.old result
            (framed self.now (N.operands number.now) (N.events number.now)) out.new };

    /// The characters of the number stand once in what is written, or the frame leaves it out.
    // promise: A number stands once in its frame, or is left out.
    // mutations: alone_written_twice
    ghost once: { (f : Self) (o : Operands) → StandsOnce (framed f o) ⊎ leaves_out f o };
}

/// The characters of a value, without its parts: for a number inside another text.
#[derive(Drop)]
pub struct Characters<'a, T> {
    value: &'a T,
}

impl<'a, T: Writeable> Characters<'a, T> {
    /// The characters of this value.
    pub fn of(value: &'a T) -> Self
        ensures { result.value.now ≡ value.now }
    {
        Characters { value }
    }
}

impl<T: Writeable> Writeable for Characters<'_, T> {
    ghost use Rattle.writeable.specs.Events.{without_parts};

    ghost events = { λ c. without_parts (T.events c.value.now) };

    fn write_events<K: EventWriter>(&self, out: &mut K) -> Result<(), WriteFault> {
        self.value.write_characters(out)
    }
}

impl ShownNumber for FormattedUnsignedDecimal<'_> {
    ghost use Rattle.icu_plurals.specs.Operands.{operands_of};

    ghost operands = { λ f. operands_of f.number 0 };

    fn plural_operands(&self) -> PluralOperands {
        FormattedUnsignedDecimal::plural_operands(self)
    }
}

impl ShownNumber for FormattedUnsignedCompactDecimal<'_> {
    ghost use Rattle.icu_plurals.specs.Operands.{operands_of};
    ghost use Rattle.icu_decimal.specs.CompactFormat.{significand_of};

    ghost operands = { λ f. operands_of (significand_of f) f.exponent };

    fn plural_operands(&self) -> PluralOperands {
        FormattedUnsignedCompactDecimal::plural_operands(self)
    }
}
