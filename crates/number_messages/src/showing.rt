//! Numbers as forms show them.

ghost use Rattle.std.specs.Prelude.{◌≡◌, IfErr, IfOk, IfSome};
ghost use Rattle.decimal_lines.specs.SingleText.{IsRefusal};
ghost use Rattle.number_forms.specs.Forms.{form_events};
ghost use Rattle.writeable.specs.Events.{text_of};
ghost use Rattle.number_messages.specs.Operands.{HasFormOperands};
ghost use Rattle.number_messages.specs.Shown.{IsShownBy, IsWholeOf};

use crate::operands::operands_shown;
use decimal_lines::{TextError, read_decimal};
use icu_message::{ShownNumber, whole_number};
use icu_plurals::PluralOperands;
use number_forms::Form;
use std::alloc::Global;
use writeable::PartsText;

/// The operands of what a form shows for a text.
fn operands_by(alloc: Global, form: &Form, text: &[u8]) -> Result<PluralOperands, TextError>
    ensures { IfOk result (λ o. HasFormOperands form.now text.now o) }
{
    match form.decimal(alloc, text) {
        Ok(decimal) => operands_shown(alloc, form.formatter(), &decimal),
        Err(_) => Err(TextError::OutOfMemory),
    }
}

/// The whole number that a text's decimal is, if it is one.
fn whole_of_text(alloc: Global, text: &[u8]) -> Result<Option<u64>, TextError>
    ensures { IfOk result (λ whole. IsWholeOf text.now whole) }
{
    match read_decimal(alloc, text) {
        Ok(decimal) => Ok(whole_number(&decimal)),
        Err(_) => Err(TextError::OutOfMemory),
    }
}

/// A number that is written, with its operands; the text is read again for them, so what is
/// reported is that memory ran out.
fn with_operands(
    alloc: Global,
    form: &Form,
    text: &[u8],
    written: &PartsText,
) -> Option<ShownNumber>
    ensures { IfSome result (λ n. (n.text ≡ text_of written.now.events)
        × HasFormOperands form.now text.now n.operands × IsWholeOf text.now n.whole) }
{
    let operands = operands_by(alloc, form, text).ok()?;
    let whole = whole_of_text(alloc, text).ok()?;
    ShownNumber::new(alloc, written.text(), operands, whole).ok()
}

/// The number of a text as a form shows it: what the form writes, the plural operands of what is
/// written, and the whole number that the text's decimal is, if it is one.
///
/// The whole number is that of the text, before the form scales and rounds it: `0.01` in percents
/// is written as `1%`, and isn't the whole number 1. The errors are those of [`Form::push`].
// promise: Text and operands are those of what the form writes.
// mutations: shown_by_operands_of_the_text, shown_by_no_exponent
// promise: The whole number is that of the text, not of the form.
// mutations: shown_by_whole_of_what_is_shown
pub fn shown_by(alloc: Global, form: &Form, text: &[u8]) -> Result<ShownNumber, TextError>
    ensures shown { IfOk result (λ n. IsShownBy form.now text.now n) }
    ensures refused { IfErr result (λ error. IsRefusal (form_events form.now text.now) error) }
{
    let written = form.mark(alloc, text)?;
    match with_operands(alloc, form, text, &written) {
        Some(number) => Ok(number),
        None => Err(TextError::OutOfMemory),
    }
}
