//! Numbers that are shown already.

use fixed_decimal::Sign;
use icu_decimal_interface::AbstractFormatter;
use icu_dimension::{LongCurrencyFormatter, UnitsFormatter};
use icu_plurals::PluralOperands;
use writeable::{EventWriter, WriteFault, Writeable};

/// A number as it is shown, without its sign, with its sign and its plural operands (this project's
/// own).
#[derive(Drop)]
pub struct GivenNumber<'a, W> {
    /// The sign that is written.
    pub sign: Sign,
    /// The plural operands of the number as it is shown.
    pub operands: PluralOperands,
    /// The number, without its sign.
    pub number: &'a W,
}

/// A borrowed value, with its parts.
#[derive(Drop)]
struct Lent<'a, T> {
    value: &'a T,
}

impl<T: Writeable> Writeable for Lent<'_, T> {
    ghost events = { λ l. T.events l.value.now };

    fn write_events<K: EventWriter>(&self, out: &mut K) -> Result<(), WriteFault> {
        self.value.write_events(out)
    }
}

/// A number with its sign.
#[derive(Drop)]
pub(crate) struct WithSign<'a, F, W> {
    pub(crate) formatter: &'a F,
    pub(crate) given: &'a GivenNumber<'a, W>,
}

impl<F: AbstractFormatter, W: Writeable> Writeable for WithSign<'_, F, W> {
    ghost use Rattle.icu_decimal.specs.Decimal.{signed_events};

    ghost events = { λ e. signed_events (F.symbols e.formatter.now) e.given.now.sign
        (W.events e.given.now.number.now) };

    fn write_events<K: EventWriter>(&self, out: &mut K) -> Result<(), WriteFault> {
        let number = Lent {
            value: self.given.number,
        };
        self.formatter
            .format_sign(number, self.given.sign)
            .write_events(out)
    }
}

/// A number with its own unit.
#[derive(Drop)]
pub(crate) struct WithUnit<'a, F, W> {
    pub(crate) units: &'a UnitsFormatter<F>,
    pub(crate) given: &'a GivenNumber<'a, W>,
}

impl<F: AbstractFormatter, W: Writeable> Writeable for WithUnit<'_, F, W> {
    ghost use Rattle.icu_dimension.specs.Units.{units_framed};

    ghost events = { λ e. units_framed (F.symbols e.units.now.formatter) e.units.now.rules
        e.units.now.elements e.given.now.sign e.given.now.operands
        (W.events e.given.now.number.now) };

    fn write_events<K: EventWriter>(&self, out: &mut K) -> Result<(), WriteFault> {
        let given = self.given;
        self.units
            .write_given(given.sign, given.operands, given.number, out)
    }
}

/// A number with its own name of a currency.
#[derive(Drop)]
pub(crate) struct WithName<'a, F, W> {
    pub(crate) money: &'a LongCurrencyFormatter<F>,
    pub(crate) given: &'a GivenNumber<'a, W>,
}

impl<F: AbstractFormatter, W: Writeable> Writeable for WithName<'_, F, W> {
    ghost use Rattle.icu_dimension.specs.Names.{names_framed};

    ghost events = { λ e. names_framed (F.symbols e.money.now.formatter) e.money.now.rules
        e.money.now.elements e.given.now.sign e.given.now.operands
        (W.events e.given.now.number.now) };

    fn write_events<K: EventWriter>(&self, out: &mut K) -> Result<(), WriteFault> {
        let given = self.given;
        self.money
            .write_given(given.sign, given.operands, given.number, out)
    }
}
