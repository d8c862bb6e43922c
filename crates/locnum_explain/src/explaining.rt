//! The explanation of a text.

ghost use Rattle.std.specs.Prelude.{◌≡◌, ◌≢◌, ◌++◌, IfOk, Ok, OnOk, codes, true};
ghost use Rattle.std.specs.Result.{is_err};
ghost use Rattle.fixed_decimal.specs.Size.{magnitude, place, size};
ghost use Rattle.fixed_decimal.specs.Unsigned.{IsUnsigned};
ghost use Rattle.number_formatters.specs.declared.formatter.Formatter.TheVariants.{MoneyNamed, Units};
ghost use Rattle.number_forms.specs.Decimals.{scaled_decimal, shown_decimal};
ghost use Rattle.number_forms.specs.Forms.{form_events, formatter_events};
ghost use Rattle.number_forms.specs.Reported.{reported};
ghost use Rattle.locnum_explain.specs.Facts.{entry_line};
ghost use Rattle.locnum_explain.specs.Lines.{detail_lines, fact_lines, form_explanation, outcome_lines, refusal_line, written_lines};

use crate::compact::{push_amount, push_compact};
use crate::facts::{push_entry, push_magnitude};
use crate::marking::push_marked;
use crate::operands::push_operands;
use crate::patterns::{push_name, push_signed, push_unit};
use crate::rounding::push_rounding;
use crate::settings::Settings;
use decimal_lines::{Mode, TextError};
use fixed_decimal::{Decimal, UnsignedDecimal};
use icu_decimal::{CompactDecimalFormatter, DecimalFormatter};
use icu_dimension::{LongCurrencyFormatter, UnitsFormatter};
use number_formatters::Formatter;
use number_forms::{Form, Prepared, push_reported};
use std::alloc::{AllocError, Global};
use writeable::PartsText;

/// Appends the line that says why a text isn't written.
fn push_refusal(error: TextError, out: &mut Vec<u8>) -> Result<(), AllocError>
    ensures appended { OnOk result (out.new.items ≡ out.old.items ++ refusal_line error) }
    ensures reason { OnOk result (error ≢ TextError.OutOfMemory) }
{
    match error {
        TextError::NotDecimal => out.extend_from_slice(b"  not a decimal\n"),
        TextError::TooManyDigits => out.extend_from_slice(b"  too many digits\n"),
        TextError::Overflow => out.extend_from_slice(b"  overflow\n"),
        TextError::OutOfMemory => Err(AllocError),
    }
}

/// Appends the operands of a number with the name of a currency, their category and the pattern.
fn push_named(
    alloc: Global,
    formatter: &LongCurrencyFormatter<DecimalFormatter>,
    decimal: &Decimal,
    out: &mut Vec<u8>,
) -> Result<(), AllocError>
    ensures { OnOk result (out.new.items ≡ out.old.items
        ++ detail_lines (MoneyNamed formatter.now) decimal.now.sign decimal.now.absolute) }
{
    push_operands(formatter.plural_rules(), &decimal.absolute, out)?;
    push_name(alloc, formatter, &decimal.absolute, out)
}

/// Appends the operands of a number with a unit, their category and the pattern.
fn push_measured(
    alloc: Global,
    formatter: &UnitsFormatter<DecimalFormatter>,
    decimal: &Decimal,
    out: &mut Vec<u8>,
) -> Result<(), AllocError>
    ensures { OnOk result (out.new.items ≡ out.old.items
        ++ detail_lines (Units formatter.now) decimal.now.sign decimal.now.absolute) }
{
    push_operands(formatter.plural_rules(), &decimal.absolute, out)?;
    push_unit(alloc, formatter, &decimal.absolute, out)
}

/// Appends the entry of a number that is shortened with digits that are asked for.
fn push_shortened(
    formatter: &CompactDecimalFormatter,
    shown: &UnsignedDecimal,
    out: &mut Vec<u8>,
) -> Result<(), AllocError>
    ensures { OnOk result (out.new.items ≡ out.old.items
        ++ entry_line formatter.now.table (place (magnitude (size shown.now)))) }
{
    push_entry(
        formatter.patterns(),
        shown.nonzero_magnitude_start() as i32,
        out,
    )
}

/// Appends what is said of a decimal besides its text and its magnitude, by what writes it.
fn push_details(
    alloc: Global,
    formatter: &Formatter,
    decimal: &Decimal,
    out: &mut Vec<u8>,
) -> Result<(), AllocError>
    requires { IsUnsigned decimal.now.absolute }
    ensures { OnOk result (out.new.items ≡ out.old.items
        ++ detail_lines formatter.now decimal.now.sign decimal.now.absolute) }
{
    match formatter {
        Formatter::Numbers(Mode::Plain(_)) => Ok(()),
        Formatter::Numbers(Mode::Compact(compact)) => push_compact(alloc, compact, decimal, out),
        Formatter::ShortNumbers(compact, _) => push_shortened(compact, &decimal.absolute, out),
        Formatter::ShortMoney(money, _) => {
            push_shortened(money.for_sign(decimal.sign), &decimal.absolute, out)
        }
        Formatter::ShortNamed(names, _) => push_shortened(
            names.formatter(),
            &decimal.absolute,
            out,
        ),
        Formatter::ShortUnits(units, _) => push_shortened(
            units.formatter(),
            &decimal.absolute,
            out,
        ),
        Formatter::Money(money) => push_signed(alloc, money.patterns(), decimal.sign, out),
        Formatter::MoneyNamed(money) => push_named(alloc, money, decimal, out),
        Formatter::MoneyShort(money) => push_amount(alloc, money, decimal, out),
        Formatter::Percent(percent) => push_signed(alloc, percent.patterns(), decimal.sign, out),
        Formatter::Units(units) => push_measured(alloc, units, decimal, out),
    }
}

/// Appends what is said of a number that is rounded, and of the decimal that is written for it.
fn push_facts(
    alloc: Global,
    settings: &Settings<'_>,
    formatter: &Formatter,
    prepared: &Prepared,
    out: &mut Vec<u8>,
) -> Result<(), AllocError>
    ensures { OnOk result (out.new.items ≡ out.old.items
        ++ fact_lines settings.now formatter.now
        (Ok (prepared.now.read.sign, prepared.now.read.absolute))
        (Ok (prepared.now.written.sign, prepared.now.written.absolute))) }
{
    let written = &prepared.written;
    push_rounding(alloc, settings, prepared, out)?;
    push_magnitude(&written.absolute, out)?;
    push_details(alloc, formatter, written, out)
}

/// Appends what a form writes for a text, with its parts, and what is said of the decimal that is
/// written.
fn push_written(
    alloc: Global,
    settings: &Settings<'_>,
    form: &Form,
    text: &[u8],
    prepared: &Prepared,
    marked: &PartsText,
    out: &mut Vec<u8>,
) -> Result<(), AllocError>
    requires read { scaled_decimal form.now text.now
        ≡ Ok (prepared.now.read.sign, prepared.now.read.absolute) }
    requires written { shown_decimal form.now text.now
        ≡ Ok (prepared.now.written.sign, prepared.now.written.absolute) }
    ensures { OnOk result (out.new.items ≡ out.old.items
        ++ written_lines settings.now form.now text.now marked.now.events) }
{
    let written = &prepared.written;
    push_marked(alloc, settings.width, form, written, marked, out)?;
    let formatter = form.formatter();
    push_facts(alloc, settings, formatter, prepared, out)
}

/// Appends a text as notes show it, and why it isn't written; that it is rejected.
fn push_rejected(text: &[u8], error: TextError, out: &mut Vec<u8>) -> Result<bool, AllocError>
    ensures appended { OnOk result (out.new.items ≡ out.old.items
        ++ (reported text.now ++ codes "\n" ++ refusal_line error)) }
    ensures reason { OnOk result (error ≢ TextError.OutOfMemory) }
    ensures rejected { IfOk result (λ r. r ≡ true) }
{
    push_reported(text, out)?;
    out.push(b'\n')?;
    push_refusal(error, out)?;
    Ok(true)
}

/// Appends the explanation of a text whose number is prepared; whether it is rejected.
fn explain_prepared(
    alloc: Global,
    settings: &Settings<'_>,
    form: &Form,
    text: &[u8],
    prepared: &Prepared,
    out: &mut Vec<u8>,
) -> Result<bool, AllocError>
    requires read { scaled_decimal form.now text.now
        ≡ Ok (prepared.now.read.sign, prepared.now.read.absolute) }
    requires written { shown_decimal form.now text.now
        ≡ Ok (prepared.now.written.sign, prepared.now.written.absolute) }
    ensures lines { OnOk result (out.new.items ≡ out.old.items
        ++ outcome_lines settings.now form.now text.now (formatter_events form.now.formatter
        prepared.now.written.sign prepared.now.written.absolute)) }
    ensures refused { IfOk result (λ r. r ≡ is_err (formatter_events form.now.formatter
        prepared.now.written.sign prepared.now.written.absolute)) }
{
    match form.mark_decimal(alloc, &prepared.written) {
        Ok(marked) => {
            out.extend_from_slice(text)?;
            out.push(b'\n')?;
            push_written(alloc, settings, form, text, prepared, &marked, out)?;
            Ok(false)
        }
        Err(error) => push_rejected(text, error, out),
    }
}

/// Appends the explanation of a text by a form (this project's own); whether the text is rejected.
///
/// First the text stands in a line, and below it, indented, what the form writes for it with the
/// parts underlined, also all those of a compact number, to what the number was rounded where it
/// was, the magnitude of the number that is written, and what else there is to say: of a compact
/// number the values around it that are shown, the table's entry, the plural operands of the
/// significand with their category, and the pattern; of money and percents the pattern; of a number
/// with a unit or the name of a currency its operands with their category, and the pattern. In a
/// pattern `{0}` stands for the number. A compact amount below the first entry of the table has two
/// patterns, `{0}` and that of money.
///
/// A text that is rejected stands as notes show it, and has a line that says why instead. Lines of
/// parts take as many columns as the settings say at most, as `push_parts` says. Without
/// memory some bytes of it may stand there.
// promise: Settings, form and text determine the explanation.
// mutations: around_by_the_magnitude_alone
#[tactic(auto, unfolding(crate::specs::Lines::form_explanation))]
pub fn explain(
    alloc: Global,
    settings: &Settings<'_>,
    form: &Form,
    text: &[u8],
    out: &mut Vec<u8>,
) -> Result<bool, AllocError>
    ensures lines { OnOk result (out.new.items ≡ out.old.items
        ++ form_explanation settings.now form.now text.now) }
    ensures refused { IfOk result (λ r. r ≡ is_err (form_events form.now text.now)) }
{
    match form.prepare(alloc, text) {
        Ok(prepared) => explain_prepared(alloc, settings, form, text, &prepared, out),
        Err(error) => push_rejected(text, error, out),
    }
}
