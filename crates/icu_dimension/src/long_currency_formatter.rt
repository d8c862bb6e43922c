//! Amounts of money with the name of their currency (ICU4X, `LongCurrencyFormatter`).

ghost use Rattle.std.specs.Prelude.{◌≡◌, ◌↔◌, IsErrOf, IfOk, IfErr, ◌≢◌};
ghost use Rattle.std.specs.String.{string_bytes};
ghost use Rattle.writeable.specs.Events.{text_of};
ghost use Rattle.icu_decimal_interface.specs.Shown.{Shown};
ghost use Rattle.icu_decimal_interface.specs.UsesShown.{WroteSuch};
ghost use Rattle.icu_decimal_interface.specs.WritesSuch.{KeepsLimitSuch, WritesSuch};
ghost use Rattle.icu_dimension.specs.Names.{names_events, names_framed};

use crate::frame::Lent;
use crate::name_pattern::NamePattern;
use fixed_decimal::{Decimal, Sign};
use icu_decimal::error::FormatError;
use icu_decimal_interface::{AbstractFormatter, Frame, ShownNumber};
use icu_plurals::{PluralElements, PluralOperands, PluralRules};
use std::alloc::Global;
use std::marker::Model;
use writeable::{EventWriter, PartsWrite, WithParts, WriteFault, Writeable};

/// Writes amounts of money with the name of their currency, as `1.00 US dollars`: the number and
/// its sign with the name that the number's plural operands pick.
#[derive(Drop)]
pub struct LongCurrencyFormatter<F> {
    formatter: F,
    rules: PluralRules,
    elements: PluralElements<NamePattern>,
}

impl<F> Model for LongCurrencyFormatter<F> {
    ghost use Rattle.icu_dimension.specs.Names.{NameText};
    ghost use Rattle.icu_dimension.specs.PluralFormat.{PluralFormat};

    ghost Value = { PluralFormat F NameText };

    ghost view = { λ f. record {
      formatter = f.formatter;
      rules = f.rules;
      elements = f.elements;
    } };
}

impl<F: AbstractFormatter> LongCurrencyFormatter<F> {
    /// The formatter of amounts with this name: its elements are what stands around a number, by
    /// the plural category of the number as it is shown.
    pub fn new(formatter: F, rules: PluralRules, elements: PluralElements<NamePattern>) -> Self
        ensures { result ≡ record { formatter = formatter; rules = rules; elements = elements } }
    {
        LongCurrencyFormatter {
            formatter,
            rules,
            elements,
        }
    }

    /// The plural rules that pick among the elements (this project's own).
    pub fn plural_rules(&self) -> &PluralRules
        ensures { result.now ≡ self.now.rules }
    {
        &self.rules
    }

    /// The elements: what stands around a number, by plural category (this project's own).
    pub fn elements(&self) -> &PluralElements<NamePattern>
        ensures { result.now ≡ self.now.elements }
    {
        &self.elements
    }

    /// The formatter of numbers (this project's own).
    pub fn formatter(&self) -> &F
        ensures { result.now ≡ self.now.formatter }
    {
        &self.formatter
    }

    /// Writes a number that is given, with its sign and its plural operands, with the name that the
    /// operands pick, as by [`write_into`](LongCurrencyFormatter::write_into). It takes no memory
    /// (this project's own).
    // promise: A given number has the name that its operands pick.
    // mutations: given_name_picked_for_other_numbers
    pub fn write_given<W: Writeable, K: EventWriter>(
        &self,
        sign: Sign,
        operands: PluralOperands,
        number: &W,
        out: &mut K,
    ) -> Result<(), WriteFault>
        ensures { K.wrote out.old result
            (names_framed (F.symbols self.now.formatter) self.now.rules self.now.elements sign
            operands (W.events number.now)) out.new }
    {
        let signed = self.formatter.format_sign(Lent { value: number }, sign);
        let pattern = self.elements.get(operands, &self.rules);
        pattern.interpolate(signed).write_events(out)
    }

    /// Writes the amount into any writer: the parts of the number, of its sign and of the name.
    ///
    /// After `Overflow` and `OutOfMemory` the writer is unchanged. `Sink` only where the writer
    /// failed. `Overflow` exactly where the formatter overflows. It takes no memory of its own.
    pub fn write_into<K: EventWriter>(
        &self,
        alloc: Global,
        value: &Decimal,
        out: &mut K,
    ) -> Result<(), FormatError>
        ensures written { WroteSuch K.wrote out.old result
            (F.shows self.now.formatter value.now.absolute)
            (names_events (F.symbols self.now.formatter) self.now.rules self.now.elements
            value.now.sign) out.new }
        ensures overflow { IsErrOf result FormatError.Overflow
            ↔ F.overflows self.now.formatter value.now.absolute }
        ensures memory { IsErrOf result FormatError.OutOfMemory
            → F.takes_memory self.now.formatter }
    {
        let frame = NamesFrame {
            money: self,
            sign: value.sign,
        };
        self.formatter
            .write_framed_into(alloc, &value.absolute, &frame, out)
    }

    /// Writes the amount to a sink, with the same parts.
    ///
    /// After `Overflow` and `OutOfMemory` the sink is unchanged. `Sink` only where the sink failed
    /// in this call, and it then holds a beginning of the events besides. `Overflow` exactly where
    /// the formatter overflows.
    // promise: The number has the name that its operands pick.
    // mutations: name_without_its_part, name_before_the_number
    pub fn write<S: PartsWrite>(
        &self,
        alloc: Global,
        value: &Decimal,
        sink: &mut S,
    ) -> Result<(), FormatError>
        ensures written { WritesSuch S.events S.failures sink.old result
            (F.shows self.now.formatter value.now.absolute)
            (names_events (F.symbols self.now.formatter) self.now.rules self.now.elements
            value.now.sign) sink.new }
        ensures limited { KeepsLimitSuch S.events S.limit S.refusals sink.old result
            (F.shows self.now.formatter value.now.absolute)
            (names_events (F.symbols self.now.formatter) self.now.rules self.now.elements
            value.now.sign) sink.new }
        ensures overflow { IsErrOf result FormatError.Overflow
            ↔ F.overflows self.now.formatter value.now.absolute }
        ensures memory { IsErrOf result FormatError.OutOfMemory
            → F.takes_memory self.now.formatter }
    {
        let mut out = WithParts { sink };
        let result = self.write_into(alloc, value, &mut out);
        out.into_inner();
        result
    }

    /// The characters that `write` writes, as a text. `Sink` is never reported.
    pub fn write_to_string(&self, alloc: Global, value: &Decimal) -> Result<String, FormatError>
        ensures text { IfOk result (λ t. (n : Shown)
            × F.shows self.now.formatter value.now.absolute n
            × (string_bytes t ≡ text_of (names_events (F.symbols self.now.formatter)
            self.now.rules self.now.elements value.now.sign n))) }
        ensures overflow { IsErrOf result FormatError.Overflow
            ↔ F.overflows self.now.formatter value.now.absolute }
        ensures no_sink { IfErr result (λ e. e ≢ FormatError.Sink) }
    {
        let frame = NamesFrame {
            money: self,
            sign: value.sign,
        };
        self.formatter
            .framed_to_string(alloc, &value.absolute, &frame)
    }
}

/// A number and its sign with the name of a currency.
#[derive(Drop)]
struct NamesFrame<'a, F> {
    money: &'a LongCurrencyFormatter<F>,
    sign: Sign,
}

impl<F: AbstractFormatter> Frame for NamesFrame<'_, F> {
    ghost use Rattle.std.proofs.Common.{inl};
    ghost use Rattle.icu_dimension.specs.FramesOnce.{names_stand};
    ghost use Rattle.icu_dimension.specs.Names.{names_framed};

    ghost framed = { λ f. names_framed (F.symbols f.money.now.formatter) f.money.now.rules
        f.money.now.elements f.sign };

    ghost leaves_out = { λ f operands. ⊥ };

    ghost once = { λ f operands. inl (names_stand (F.symbols f.money.now.formatter)
        f.money.now.rules f.money.now.elements f.sign operands) };

    fn write_framed<N: ShownNumber, K: EventWriter>(
        &self,
        number: &N,
        out: &mut K,
    ) -> Result<(), WriteFault> {
        let money = self.money;
        let signed = money
            .formatter
            .format_sign(Lent { value: number }, self.sign);
        number
            .pick(&money.elements, &money.rules)
            .interpolate(signed)
            .write_events(out)
    }
}
