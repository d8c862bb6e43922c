//! Numbers with a unit, the sign beside the number (ICU4X, `UnitsFormatter`).

ghost use Rattle.std.specs.Prelude.{◌≡◌, ◌↔◌, IsErrOf, IfOk, IfErr, ◌≢◌};
ghost use Rattle.std.specs.String.{string_bytes};
ghost use Rattle.writeable.specs.Events.{text_of};
ghost use Rattle.icu_decimal_interface.specs.Shown.{Shown};
ghost use Rattle.icu_decimal_interface.specs.UsesShown.{WroteSuch};
ghost use Rattle.icu_decimal_interface.specs.WritesSuch.{KeepsLimitSuch, WritesSuch};
ghost use Rattle.icu_dimension.specs.Units.{units_events, units_framed};

use crate::frame::Lent;
use crate::unit_pattern::write_unit;
use fixed_decimal::{Decimal, Sign};
use icu_decimal::error::FormatError;
use icu_decimal_interface::{AbstractFormatter, Frame, ShownNumber};
use icu_pattern::{Pattern, SinglePlaceholder};
use icu_plurals::{PluralElements, PluralOperands, PluralRules};
use std::alloc::Global;
use std::marker::Model;
use writeable::{EventWriter, PartsWrite, WithParts, WriteFault, Writeable};

/// Writes numbers with a unit, as `-1 kilometer` or `ɣleti -1`: the pattern that the number's
/// plural operands pick, with the number and its sign in its place.
///
/// The pattern is that of CLDR for a unit and a width. `UnitFormatter` of `icu_unit` writes the
/// sign around the whole: both write the same characters if nothing stands before the number in the
/// pattern and the sign has no suffix.
#[derive(Drop)]
pub struct UnitsFormatter<F> {
    formatter: F,
    rules: PluralRules,
    elements: PluralElements<Pattern<SinglePlaceholder>>,
}

impl<F> Model for UnitsFormatter<F> {
    ghost use Rattle.icu_pattern.specs.Patterns.{PatternText};
    ghost use Rattle.icu_dimension.specs.PluralFormat.{PluralFormat};

    ghost Value = { PluralFormat F PatternText };

    ghost view = { λ f. record {
      formatter = f.formatter;
      rules = f.rules;
      elements = f.elements;
    } };
}

impl<F: AbstractFormatter> UnitsFormatter<F> {
    /// The formatter of numbers with this unit: its elements are the patterns of the unit, by the
    /// plural category of the number as it is shown.
    pub fn new(
        formatter: F,
        rules: PluralRules,
        elements: PluralElements<Pattern<SinglePlaceholder>>,
    ) -> Self
        ensures { result ≡ record { formatter = formatter; rules = rules; elements = elements } }
    {
        UnitsFormatter {
            formatter,
            rules,
            elements,
        }
    }

    /// The plural rules that pick among the elements (this project's own).
    pub fn plural_rules(&self) -> &PluralRules
        ensures { result.now ≡ self.now.rules }
    {
        &self.rules
    }

    /// The elements: the patterns of the unit, by plural category (this project's own).
    pub fn elements(&self) -> &PluralElements<Pattern<SinglePlaceholder>>
        ensures { result.now ≡ self.now.elements }
    {
        &self.elements
    }

    /// The formatter of numbers (this project's own).
    pub fn formatter(&self) -> &F
        ensures { result.now ≡ self.now.formatter }
    {
        &self.formatter
    }

    /// Writes a number that is given, with its sign and its plural operands, in the pattern that
    /// the operands pick, as by [`write_into`](UnitsFormatter::write_into). It takes no memory
    /// (this project's own).
    // promise: A given number stands in the pattern of its operands.
    // mutations: given_unit_picked_for_other_numbers
    pub fn write_given<W: Writeable, K: EventWriter>(
        &self,
        sign: Sign,
        operands: PluralOperands,
        number: &W,
        out: &mut K,
    ) -> Result<(), WriteFault>
        ensures { K.wrote out.old result
            (units_framed (F.symbols self.now.formatter) self.now.rules self.now.elements sign
            operands (W.events number.now)) out.new }
    {
        let signed = self.formatter.format_sign(Lent { value: number }, sign);
        let pattern = self.elements.get(operands, &self.rules);
        write_unit(pattern, &signed, out)
    }

    /// Writes the number with its unit into any writer: the parts of the number and of its sign,
    /// and the letters of the pattern on each side of them in the part `unit`, without the white
    /// space at their ends, which is in no part. A pattern without a placeholder is written as its
    /// literal.
    ///
    /// After `Overflow` and `OutOfMemory` the writer is unchanged. `Sink` only where the writer
    /// failed. `Overflow` exactly where the formatter overflows. It takes no memory of its own.
    pub fn write_into<K: EventWriter>(
        &self,
        alloc: Global,
        value: &Decimal,
        out: &mut K,
    ) -> Result<(), FormatError>
        ensures written { WroteSuch K.wrote out.old result
            (F.shows self.now.formatter value.now.absolute)
            (units_events (F.symbols self.now.formatter) self.now.rules self.now.elements
            value.now.sign) out.new }
        ensures overflow { IsErrOf result FormatError.Overflow
            ↔ F.overflows self.now.formatter value.now.absolute }
        ensures memory { IsErrOf result FormatError.OutOfMemory
            → F.takes_memory self.now.formatter }
    {
        let frame = UnitsFrame {
            units: self,
            sign: value.sign,
        };
        self.formatter
            .write_framed_into(alloc, &value.absolute, &frame, out)
    }

    /// Writes the number with its unit to a sink, with the same parts.
    ///
    /// After `Overflow` and `OutOfMemory` the sink is unchanged. `Sink` only where the sink failed
    /// in this call, and it then holds a beginning of the events besides. `Overflow` exactly where
    /// the formatter overflows.
    // promise: Sign and number stand in the pattern that operands pick.
    // mutations: units_sign_around_the_whole
    pub fn write<S: PartsWrite>(
        &self,
        alloc: Global,
        value: &Decimal,
        sink: &mut S,
    ) -> Result<(), FormatError>
        ensures written { WritesSuch S.events S.failures sink.old result
            (F.shows self.now.formatter value.now.absolute)
            (units_events (F.symbols self.now.formatter) self.now.rules self.now.elements
            value.now.sign) sink.new }
        ensures limited { KeepsLimitSuch S.events S.limit S.refusals sink.old result
            (F.shows self.now.formatter value.now.absolute)
            (units_events (F.symbols self.now.formatter) self.now.rules self.now.elements
            value.now.sign) sink.new }
        ensures overflow { IsErrOf result FormatError.Overflow
            ↔ F.overflows self.now.formatter value.now.absolute }
        ensures memory { IsErrOf result FormatError.OutOfMemory
            → F.takes_memory self.now.formatter }
    {
        let mut out = WithParts { sink };
        let result = self.write_into(alloc, value, &mut out);
        out.into_inner();
        result
    }

    /// The characters that `write` writes, as a text. `Sink` is never reported.
    pub fn write_to_string(&self, alloc: Global, value: &Decimal) -> Result<String, FormatError>
        ensures text { IfOk result (λ t. (n : Shown)
            × F.shows self.now.formatter value.now.absolute n
            × (string_bytes t ≡ text_of (units_events (F.symbols self.now.formatter)
            self.now.rules self.now.elements value.now.sign n))) }
        ensures overflow { IsErrOf result FormatError.Overflow
            ↔ F.overflows self.now.formatter value.now.absolute }
        ensures no_sink { IfErr result (λ e. e ≢ FormatError.Sink) }
    {
        let frame = UnitsFrame {
            units: self,
            sign: value.sign,
        };
        self.formatter
            .framed_to_string(alloc, &value.absolute, &frame)
    }
}

/// A number and its sign in the pattern of a unit.
#[derive(Drop)]
struct UnitsFrame<'a, F> {
    units: &'a UnitsFormatter<F>,
    sign: Sign,
}

impl<F: AbstractFormatter> Frame for UnitsFrame<'_, F> {
    ghost use Rattle.icu_dimension.specs.FramesOnce.{units_once};
    ghost use Rattle.icu_dimension.specs.Units.{IsLeftOut, units_framed};

    ghost framed = { λ f. units_framed (F.symbols f.units.now.formatter) f.units.now.rules
        f.units.now.elements f.sign };

    ghost leaves_out = { λ f. IsLeftOut f.units.now.rules f.units.now.elements };

    ghost once = { λ f. units_once (F.symbols f.units.now.formatter) f.units.now.rules
        f.units.now.elements f.sign };

    fn write_framed<N: ShownNumber, K: EventWriter>(
        &self,
        number: &N,
        out: &mut K,
    ) -> Result<(), WriteFault> {
        let units = self.units;
        let signed = units
            .formatter
            .format_sign(Lent { value: number }, self.sign);
        let pattern = number.pick(&units.elements, &units.rules);
        write_unit(pattern, &signed, out)
    }
}
