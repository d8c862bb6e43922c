//! What a form writes for a text: in any writer, in a buffer, or as a text with parts.

ghost use Rattle.std.specs.Prelude.{◌≡◌, IfSome, None, Ok, pos};
ghost use Rattle.fixed_decimal.specs.SignDisplay.{minus_or_none};
ghost use Rattle.writeable.specs.Sink.{Writes};
ghost use Rattle.decimal_lines.specs.SingleText.{WroteEvents, mode_events};
ghost use Rattle.number_formatters.specs.declared.formatter.Formatter.TheVariants.{Money, MoneyNamed, MoneyShort, Numbers, Percent, Units};
ghost use Rattle.number_forms.specs.Forms.{formatter_events};
ghost use Rattle.number_forms.specs.WrittenOr.{written_or};

use crate::form::Form;
use crate::rounded::{form_round, minus_or_none, signed};
use crate::scaled::scale;
use crate::shortened::write_shortened;
use crate::shortened_with::{write_money_shortened, write_names_shortened, write_units_shortened};
use decimal_lines::{Mode, TextError, read_decimal, write_shown};
use fixed_decimal::{Decimal, SignDisplay};
use icu_decimal::DecimalFormatter;
use icu_decimal::error::FormatError;
use icu_dimension::{
    CompactCurrencyFormatter, CurrencyFormatter, LongCurrencyFormatter, PercentFormatter,
    UnitsFormatter,
};
use number_formatters::Formatter;
use std::alloc::Global;
use writeable::{EventWriter, PartsText, PartsWrite, WithParts};

/// Why something wasn't written, if it wasn't: a writer that fails counts as out of memory.
fn written_or(written: Result<(), FormatError>) -> Result<(), TextError>
    ensures { result ≡ written_or written }
{
    match written {
        Ok(()) => Ok(()),
        Err(FormatError::Overflow) => Err(TextError::Overflow),
        Err(FormatError::OutOfMemory | FormatError::Sink) => Err(TextError::OutOfMemory),
    }
}

/// Writes an amount of money.
fn write_money<K: EventWriter>(
    alloc: Global,
    formatter: &CurrencyFormatter<DecimalFormatter>,
    decimal: &Decimal,
    out: &mut K,
) -> Result<(), TextError>
    ensures { WroteEvents K.wrote out.old result
        (formatter_events (Money formatter.now) decimal.now.sign decimal.now.absolute) out.new }
{
    written_or(formatter.write_into(alloc, decimal, out))
}

/// Writes an amount with the name of its currency.
fn write_money_named<K: EventWriter>(
    alloc: Global,
    formatter: &LongCurrencyFormatter<DecimalFormatter>,
    decimal: &Decimal,
    out: &mut K,
) -> Result<(), TextError>
    ensures { WroteEvents K.wrote out.old result
        (formatter_events (MoneyNamed formatter.now) decimal.now.sign decimal.now.absolute)
        out.new }
{
    written_or(formatter.write_into(alloc, decimal, out))
}

/// Writes a compact amount.
fn write_money_short<K: EventWriter>(
    alloc: Global,
    formatter: &CompactCurrencyFormatter,
    decimal: &Decimal,
    out: &mut K,
) -> Result<(), TextError>
    ensures { WroteEvents K.wrote out.old result
        (formatter_events (MoneyShort formatter.now) decimal.now.sign decimal.now.absolute)
        out.new }
{
    written_or(formatter.write_into(alloc, decimal, out))
}

/// Writes a number of percents.
fn write_percent<K: EventWriter>(
    alloc: Global,
    formatter: &PercentFormatter<DecimalFormatter>,
    decimal: &Decimal,
    out: &mut K,
) -> Result<(), TextError>
    ensures { WroteEvents K.wrote out.old result
        (formatter_events (Percent formatter.now) decimal.now.sign decimal.now.absolute) out.new }
{
    written_or(formatter.write_percents_into(alloc, decimal, out))
}

/// Writes a number with its unit.
fn write_units<K: EventWriter>(
    alloc: Global,
    formatter: &UnitsFormatter<DecimalFormatter>,
    decimal: &Decimal,
    out: &mut K,
) -> Result<(), TextError>
    ensures { WroteEvents K.wrote out.old result
        (formatter_events (Units formatter.now) decimal.now.sign decimal.now.absolute) out.new }
{
    written_or(formatter.write_into(alloc, decimal, out))
}

/// Writes what the formatter writes for a decimal.
fn write_formatted<K: EventWriter>(
    alloc: Global,
    formatter: &Formatter,
    decimal: &Decimal,
    out: &mut K,
) -> Result<(), TextError>
    ensures { WroteEvents K.wrote out.old result
        (formatter_events formatter.now decimal.now.sign decimal.now.absolute) out.new }
{
    match formatter {
        Formatter::Numbers(mode) => write_shown(alloc, mode, decimal, out),
        Formatter::ShortNumbers(compact, by) => write_shortened(alloc, by, compact, decimal, out),
        Formatter::Money(money) => write_money(alloc, money, decimal, out),
        Formatter::MoneyNamed(money) => write_money_named(alloc, money, decimal, out),
        Formatter::MoneyShort(money) => write_money_short(alloc, money, decimal, out),
        Formatter::ShortMoney(money, by) => write_money_shortened(alloc, by, money, decimal, out),
        Formatter::ShortNamed(names, by) => write_names_shortened(alloc, by, names, decimal, out),
        Formatter::Percent(percent) => write_percent(alloc, percent, decimal, out),
        Formatter::Units(units) => write_units(alloc, units, decimal, out),
        Formatter::ShortUnits(units, by) => write_units_shortened(alloc, by, units, decimal, out),
    }
}

/// Writes what the formatter writes for a decimal to a sink, with the parts.
fn write_formatted_parts<S: PartsWrite>(
    alloc: Global,
    formatter: &Formatter,
    decimal: &Decimal,
    sink: &mut S,
) -> Result<(), TextError>
    ensures { WroteEvents (Writes S.events S.failures) sink.old result
        (formatter_events formatter.now decimal.now.sign decimal.now.absolute) sink.new }
{
    let mut out = WithParts { sink };
    let result = write_formatted(alloc, formatter, decimal, &mut out);
    out.into_inner();
    result
}

/// What writes numbers of a form that changes nothing of them but a plus.
fn unchanging(form: &Form) -> Option<&Mode>
    ensures { IfSome result (λ mode. (form.now.formatter ≡ Numbers mode.now)
        × (form.now.scale ≡ pos 0) × (form.now.rounding ≡ None)
        × (form.now.sign ≡ SignDisplay.Auto)) }
{
    let (0, None, SignDisplay::Auto) = (form.scale, form.rounding, form.sign) else {
        return None;
    };
    match &form.formatter {
        Formatter::Numbers(mode) => Some(mode),
        Formatter::ShortNumbers(_, _)
        | Formatter::Money(_)
        | Formatter::MoneyNamed(_)
        | Formatter::MoneyShort(_)
        | Formatter::ShortMoney(_, _)
        | Formatter::ShortNamed(_, _)
        | Formatter::Percent(_)
        | Formatter::Units(_)
        | Formatter::ShortUnits(_, _) => None,
    }
}

/// Takes a decimal's plus off, and writes what a mode shows for it.
fn write_unchanged<K: EventWriter>(
    alloc: Global,
    mode: &Mode,
    decimal: &mut Decimal,
    out: &mut K,
) -> Result<(), TextError>
    ensures { WroteEvents K.wrote out.old result
        (mode_events mode.now (minus_or_none decimal.old.sign) decimal.old.absolute) out.new }
{
    decimal.sign = minus_or_none(decimal.sign);
    write_shown(alloc, mode, decimal, out)
}

impl Form {
    ghost use Rattle.std.specs.Prelude.{◌≡◌, ◌≢◌, IfErr, IfOk, Ok, OnOk};
    ghost use Rattle.decimal_lines.specs.SingleText.{AppendsEvents, IsRefusal, WroteEvents};
    ghost use Rattle.writeable.specs.Sink.{Writes};
    ghost use Rattle.number_forms.specs.Forms.{form_events, formatter_events, read_events};

    /// Writes what the form writes for a decimal that was read, by what it asks for.
    #[inline(never)]
    fn write_changed<K: EventWriter>(
        &self,
        alloc: Global,
        mut decimal: Decimal,
        out: &mut K,
    ) -> Result<(), TextError>
        ensures { WroteEvents K.wrote out.old result
            (read_events self.now (decimal.sign, decimal.absolute)) out.new }
    {
        scale(alloc, &mut decimal, self.scale)?;
        form_round(alloc, &self.formatter, &self.rounding, &mut decimal)?;
        let shown = signed(decimal, self.sign);
        write_formatted(alloc, &self.formatter, &shown, out)
    }

    /// Writes what the form writes for a text.
    #[tactic(auto, unfolding(crate::specs::Forms::form_events))]
    fn write<K: EventWriter>(
        &self,
        alloc: Global,
        text: &[u8],
        out: &mut K,
    ) -> Result<(), TextError>
        ensures { WroteEvents K.wrote out.old result (form_events self.now text.now) out.new }
    {
        let mut decimal = read_decimal(alloc, text)?;
        match unchanging(self) {
            Some(mode) => write_unchanged(alloc, mode, &mut decimal, out),
            None => self.write_changed(alloc, decimal, out),
        }
    }

    /// Writes what the form writes for a text to a sink, with the parts.
    fn write_parts<S: PartsWrite>(
        &self,
        alloc: Global,
        text: &[u8],
        sink: &mut S,
    ) -> Result<(), TextError>
        ensures { WroteEvents (Writes S.events S.failures) sink.old result
            (form_events self.now text.now) sink.new }
    {
        let mut out = WithParts { sink };
        let result = self.write(alloc, text, &mut out);
        out.into_inner();
        result
    }

    /// Appends what the form writes for a text.
    ///
    /// The text is a decimal and nothing else. Its number is rounded first, for percents a hundred
    /// times it, and then its sign is decided, so that a number that is rounded to zero has none
    /// where zero has none. `Overflow` where the rounded number, the nearest compact number or a
    /// hundred times the number is too large. Without memory some bytes of what is written may
    /// stand there.
    // promise: The buffer grows by just what the form writes of the text.
    // mutations: sign_decided_before_rounding, rounded_before_it_is_scaled
    pub fn push(&self, alloc: Global, text: &[u8], out: &mut Vec<u8>) -> Result<(), TextError>
        ensures ok { OnOk result (AppendsEvents (form_events self.now text.now) out.old.items
            out.new.items) }
        ensures refused { IfErr result (λ error. IsRefusal (form_events self.now text.now) error) }
        ensures unchanged { IfErr result (λ error. error ≢ TextError.OutOfMemory →
            out.new.items ≡ out.old.items) }
    {
        self.write(alloc, text, out)
    }

    /// What the form writes for a text, with the byte offsets of its parts (this project's own):
    /// those of `icu_decimal` and `icu_dimension`; in a compact number without digits that are asked
    /// for the sign alone has a part.
    ///
    /// It is rejected as by [`push`](Form::push).
    // promise: The text with parts has the events that `push` writes.
    // mutations: marked_text_left_empty
    pub fn mark(&self, alloc: Global, text: &[u8]) -> Result<PartsText, TextError>
        ensures ok { IfOk result (λ t. form_events self.now text.now ≡ Ok t.events) }
        ensures refused { IfErr result (λ error. IsRefusal (form_events self.now text.now) error) }
    {
        let mut parts = PartsText::new(alloc);
        self.write_parts(alloc, text, &mut parts)?;
        Ok(parts)
    }

    /// What the form writes for a decimal that is rounded and has its sign, with the byte offsets of
    /// its parts, as by [`mark`](Form::mark) (this project's own).
    pub fn mark_decimal(&self, alloc: Global, decimal: &Decimal) -> Result<PartsText, TextError>
        ensures ok { IfOk result (λ t. formatter_events self.now.formatter decimal.now.sign
            decimal.now.absolute ≡ Ok t.events) }
        ensures refused { IfErr result (λ error. IsRefusal (formatter_events self.now.formatter
            decimal.now.sign decimal.now.absolute) error) }
    {
        let mut parts = PartsText::new(alloc);
        write_formatted_parts(alloc, &self.formatter, decimal, &mut parts)?;
        Ok(parts)
    }
}
