//! What a formatter that is kept holds, and the calls with it.

ghost use Rattle.std.specs.Prelude.{◌≡◌, IfErr, IfOk, OnErr};
ghost use Rattle.decimal_lines.specs.SingleText.{HoldsEvents, IsRefusal};
ghost use Rattle.number_forms.specs.Forms.{form_events};
ghost use Rattle.talmuiga_c.specs.Answers.{kept_events, kept_result};
ghost use Rattle.talmuiga_c.specs.Asked.{mode_asked};
ghost use Rattle.talmuiga_c.specs.Handle.{empty};
ghost use Rattle.talmuiga_c.specs.Kept.{IsWrittenSoFar, IsShown, OpensIn, WritesSome};

use crate::form_lines::format_some_by;
use crate::handle::Room;
use crate::locale_ranges::LocaleRanges;
use crate::output::put_text;
use crate::status::{self, status_of, text_status};
use decimal_lines::{FillError, Mode, Progress, TextError, Words, format_some, format_text};
use number_forms::Form;
use std::alloc::Global;

/// How many bytes beyond the argument's length are reserved for a text; a longer text asks for
/// more.
const ROOM: usize = 64;

/// What writes the numbers of a formatter that is kept.
#[derive(Drop)]
pub enum Kept {
    /// A mode, as arguments ask for it.
    ByWords(Mode),
    /// A form, as a number skeleton asks for it.
    BySkeleton(Form),
    /// A form, as a number skeleton asks for it, and how its ranges are written.
    WithRanges(Form, LocaleRanges),
}

/// How far an input is answered.
#[repr(C)]
#[derive(Clone, Copy)]
pub struct Reached {
    /// How many bytes of the input are answered.
    pub consumed: usize,
    /// How many bytes of the output are written.
    pub written: usize,
    /// The length of the answer that didn't fit, or 0.
    pub needed: usize,
}

/// Opens a formatter in the mode that the arguments make of the tables.
pub fn open_asked(alloc: Global, words: &Words<'_>, tables: &[u8], formatter: &mut Room) -> u32
    requires empty { formatter.old.held ≡ empty }
    ensures opens { OpensIn (mode_asked words.now tables.now) formatter.new.held result }
{
    match Mode::make(alloc, words, tables) {
        Ok(mode) => {
            formatter.put(Kept::ByWords(mode));
            status::DONE
        }
        Err(error) => status_of(error),
    }
}

/// Formats as many lines as fit.
fn format_some_in(alloc: Global, kept: &Kept, input: &[u8], output: &mut [u8]) -> Progress
    ensures { WritesSome (kept_result kept.now) input.now output.old output.new result }
{
    match kept {
        Kept::ByWords(mode) => format_some(alloc, mode, input, output),
        Kept::BySkeleton(form) => format_some_by(alloc, form, input, output),
        Kept::WithRanges(form, _) => format_some_by(alloc, form, input, output),
    }
}

/// Formats as many lines as fit, and says how far that is.
pub fn format_lines_in(
    alloc: Global,
    kept: &Kept,
    input: &[u8],
    output: &mut [u8],
    reached: &mut Reached,
) -> u32
    ensures { IsWrittenSoFar kept.now input.now output.old output.new reached.new.consumed
        reached.new.written reached.new.needed result }
{
    let progress = format_some_in(alloc, kept, input, output);
    *reached = Reached {
        consumed: progress.consumed,
        written: progress.written,
        needed: progress.needed,
    };
    match progress.outcome {
        Ok(()) => status::DONE,
        Err(FillError::TooSmall) => status::OUTPUT_TOO_SMALL,
        Err(FillError::OutOfMemory) => status::OUT_OF_MEMORY,
    }
}

/// Formats one text by a form, if it fits. The result is its length.
fn format_text_by(
    alloc: Global,
    form: &Form,
    text: &[u8],
    output: &mut [u8],
) -> Result<usize, TextError>
    ensures ok { IfOk result (λ n.
        HoldsEvents (form_events form.now text.now) output.old output.new n) }
    ensures refused { IfErr result (λ error. IsRefusal (form_events form.now text.now) error) }
    ensures unchanged { OnErr result (output.new ≡ output.old) }
{
    let Ok(mut shown) = Vec::with_capacity(alloc, text.len().saturating_add(ROOM)) else {
        return Err(TextError::OutOfMemory);
    };
    form.push(alloc, text, &mut shown)?;
    Ok(put_text(output, &shown))
}

/// Formats one text, if it fits. The result is its length.
fn format_text_in(
    alloc: Global,
    kept: &Kept,
    text: &[u8],
    output: &mut [u8],
) -> Result<usize, TextError>
    ensures ok { IfOk result (λ n.
        HoldsEvents (kept_events kept.now text.now) output.old output.new n) }
    ensures refused { IfErr result (λ error. IsRefusal (kept_events kept.now text.now) error) }
    ensures unchanged { OnErr result (output.new ≡ output.old) }
{
    match kept {
        Kept::ByWords(mode) => format_text(alloc, mode, text, output),
        Kept::BySkeleton(form) => format_text_by(alloc, form, text, output),
        Kept::WithRanges(form, _) => format_text_by(alloc, form, text, output),
    }
}

/// Formats one text, if it fits, and sets its length.
pub fn format_one_in(
    alloc: Global,
    kept: &Kept,
    text: &[u8],
    output: &mut [u8],
    length: &mut usize,
) -> u32
    ensures { IsShown kept.now text.now output.old output.new length.new result }
{
    match format_text_in(alloc, kept, text, output) {
        Ok(count) => {
            *length = count;
            if count <= output.len() {
                status::DONE
            } else {
                status::OUTPUT_TOO_SMALL
            }
        }
        Err(error) => {
            *length = 0;
            text_status(error)
        }
    }
}
