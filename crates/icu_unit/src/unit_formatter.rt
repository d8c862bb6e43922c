//! A unit over any formatter of numbers (UTS 35 Part 2, Unit Elements).

ghost use Rattle.std.specs.Prelude.{◌≡◌, ◌↔◌, IsErrOf};
ghost use Rattle.icu_decimal.specs.Decimal.{signed_events};
ghost use Rattle.icu_decimal_interface.specs.UsesShown.{WroteSuch};
ghost use Rattle.icu_decimal_interface.specs.WritesSuch.{KeepsLimitSuch, WritesSuch};
ghost use Rattle.icu_unit.specs.Unit.{unit_events};

use fixed_decimal::{Decimal, Sign};
use icu_decimal::error::FormatError;
use icu_decimal_interface::{AbstractFormatter, Characters, Frame, ShownNumber};
use icu_pattern::{Pattern, SinglePlaceholder};
use icu_plurals::{PluralElements, PluralRules};
use std::alloc::Global;
use std::marker::Model;
use writeable::{EventWriter, PartsWrite, WithParts, WriteFault, Writeable};

/// Writes numbers with a unit, as `1.0 meters`: the sign's affixes around the pattern that the
/// number's plural operands pick, with the number in its place.
///
/// It uses only what [`AbstractFormatter`] promises for every formatter, so numbers may be plain or
/// compact: `1000 meters`, `1K meters`.
#[derive(Drop)]
pub struct UnitFormatter<F> {
    formatter: F,
    rules: PluralRules,
    elements: PluralElements<Pattern<SinglePlaceholder>>,
}

impl<F> Model for UnitFormatter<F> {
    ghost use Rattle.icu_unit.specs.Unit.{UnitFormat};

    ghost Value = { UnitFormat F };

    ghost view = { λ f. record {
      formatter = f.formatter;
      rules = f.rules;
      elements = f.elements;
    } };
}

impl<F: AbstractFormatter> UnitFormatter<F> {
    /// The formatter of numbers with this unit: its elements are the patterns of the unit, by the
    /// plural category of the number as it is shown.
    pub fn new(
        formatter: F,
        rules: PluralRules,
        elements: PluralElements<Pattern<SinglePlaceholder>>,
    ) -> Self
        ensures { result ≡ record { formatter = formatter; rules = rules; elements = elements } }
    {
        UnitFormatter {
            formatter,
            rules,
            elements,
        }
    }

    /// Writes the number with its unit into any writer: characters, and the parts of the sign
    /// alone.
    ///
    /// The number is rounded once, before anything is written. So after `Overflow` and
    /// `OutOfMemory` the writer is unchanged. `Sink` only where the writer failed. `Overflow`
    /// exactly where the formatter overflows. It takes no memory of its own.
    pub fn write_into<K: EventWriter>(
        &self,
        alloc: Global,
        value: &Decimal,
        out: &mut K,
    ) -> Result<(), FormatError>
        ensures written { WroteSuch K.wrote out.old result
            (F.shows self.now.formatter value.now.absolute)
            (unit_events (F.symbols self.now.formatter) self.now.rules self.now.elements
            value.now.sign) out.new }
        ensures overflow { IsErrOf result FormatError.Overflow
            ↔ F.overflows self.now.formatter value.now.absolute }
        ensures memory { IsErrOf result FormatError.OutOfMemory
            → F.takes_memory self.now.formatter }
    {
        let frame = UnitFrame {
            unit: self,
            sign: value.sign,
        };
        self.formatter
            .write_framed_into(alloc, &value.absolute, &frame, out)
    }

    /// Writes the number with its unit to a sink: characters, and the parts of the sign alone.
    ///
    /// After `Overflow` and `OutOfMemory` the sink is unchanged. `Sink` only where the sink failed
    /// in this call, and it then holds a beginning of the events besides. `Overflow` exactly where
    /// the formatter overflows.
    // promise: The sign stands around the pattern that operands pick.
    // mutations: plural_of_the_input, sign_inside_the_pattern
    // promise: Of units `Overflow` comes exactly where the number's does.
    // mutations: overflow_called_memory
    pub fn write<S: PartsWrite>(
        &self,
        alloc: Global,
        value: &Decimal,
        sink: &mut S,
    ) -> Result<(), FormatError>
        ensures written { WritesSuch S.events S.failures sink.old result
            (F.shows self.now.formatter value.now.absolute)
            (unit_events (F.symbols self.now.formatter) self.now.rules self.now.elements
            value.now.sign) sink.new }
        ensures limited { KeepsLimitSuch S.events S.limit S.refusals sink.old result
            (F.shows self.now.formatter value.now.absolute)
            (unit_events (F.symbols self.now.formatter) self.now.rules self.now.elements
            value.now.sign) sink.new }
        ensures overflow { IsErrOf result FormatError.Overflow
            ↔ F.overflows self.now.formatter value.now.absolute }
        ensures memory { IsErrOf result FormatError.OutOfMemory
            → F.takes_memory self.now.formatter }
    {
        let mut out = WithParts { sink };
        let result = self.write_into(alloc, value, &mut out);
        out.into_inner();
        result
    }
}

/// The unit around a number, and the affixes of a sign around both.
#[derive(Drop)]
struct UnitFrame<'a, F> {
    unit: &'a UnitFormatter<F>,
    sign: Sign,
}

impl<F: AbstractFormatter> Frame for UnitFrame<'_, F> {
    ghost use Rattle.icu_unit.specs.Unit.{IsLeftOut, unit_framed};
    ghost use Rattle.icu_unit.specs.UnitOnce.{unit_once};

    ghost framed = { λ f. unit_framed (F.symbols f.unit.now.formatter) f.unit.now.rules
        f.unit.now.elements f.sign };

    ghost leaves_out = { λ f. IsLeftOut f.unit.now.rules f.unit.now.elements };

    ghost once = { λ f. unit_once (F.symbols f.unit.now.formatter) f.unit.now.rules
        f.unit.now.elements f.sign };

    fn write_framed<N: ShownNumber, K: EventWriter>(
        &self,
        number: &N,
        out: &mut K,
    ) -> Result<(), WriteFault> {
        let unit = self.unit;
        let pattern = number.pick(&unit.elements, &unit.rules);
        let text = pattern.interpolate(Characters::of(number));
        write_signed(&unit.formatter, text, self.sign, out)
    }
}

/// Writes a value with the affixes of a sign around it.
fn write_signed<F: AbstractFormatter, W: Writeable + Drop, K: EventWriter>(
    formatter: &F,
    value: W,
    sign: Sign,
    out: &mut K,
) -> Result<(), WriteFault>
    ensures { K.wrote out.old result
        (signed_events (F.symbols formatter.now) sign (W.events value)) out.new }
{
    formatter.format_sign(value, sign).write_events(out)
}
