//! A guess that saves time: that the rest of a record is one number.
//!
//! A record often ends with the number that is formatted. Then the rest of the record is read as
//! this number at once, and the end of the field isn't looked for first. This saves 22 % of the
//! instructions of a mixed line `item N`, and 14 % of those of a line `N` (callgrind, 20,000 lines,
//! built at level 1). A record that ends otherwise takes a try more, so the tries are counted.

ghost use Rattle.std.specs.Prelude.{◌≡◌, ◌≤◌, ◌++◌, ◌⊎◌, [], Ok, None, List, IfOk, MatchBool, false, true};
ghost use Rattle.number_forms.specs.Forms.{form_events};
ghost use Rattle.locnum_lines.specs.FieldRuns.{held_by};
ghost use Rattle.locnum_lines.specs.Gathered.{GoesOn};
ghost use Rattle.locnum_lines.specs.Padding.{padded};
ghost use Rattle.locnum_lines.specs.Ran.{first_of};
ghost use Rattle.locnum_lines.specs.Settings.{is_chosen};
ghost use Rattle.locnum_lines.specs.Stage.{fields_of};
ghost use Rattle.locnum_lines.specs.Whole.{LeavesNumbers, is_of_numbers};
ghost use Rattle.locnum_lines.specs.Widths.{width_by};
ghost use Rattle.locnum_lines.specs.declared.settings.Delimiter.TheVariants.{Blanks};
ghost use Rattle.writeable.specs.Events.{Event, text_of};

use crate::gathered::Gathered;
use crate::padding::columns_of;
use crate::settings::{Delimiter, LineSettings};
use decimal_lines::TextError;
use number_forms::Form;
use std::alloc::{AllocError, Global};

/// How often the guess may still be wrong before it isn't made any more.
#[derive(Clone, Copy)]
pub(crate) struct RestGuess {
    tries: u8,
}

/// How often in turn the guess may be wrong, until what was gathered is written.
const TRIES: u8 = 8;

impl RestGuess {
    /// A guess that wasn't wrong yet.
    pub(crate) fn new() -> Self {
        RestGuess { tries: TRIES }
    }

    /// Whether the guess is made once more.
    pub(crate) fn takes_try(&mut self) -> bool {
        if self.tries == 0 {
            return false;
        }
        self.tries -= 1;
        true
    }
}

/// Whether a byte may stand in a number.
fn is_of_numbers(byte: u8) -> bool
    ensures { result ≡ is_of_numbers byte }
{
    byte.is_ascii_digit() || byte == b'.' || byte == b'-' || byte == b'+'
}

/// Whether a field that begins with a number doesn't end in it, and numbers have no columns of their
/// own.
fn leaves_numbers(settings: &LineSettings) -> bool
    ensures padding { result ≡ true → settings.now.padding ≡ None }
    ensures delimiter { result ≡ true → LeavesNumbers settings.now.delimiter }
{
    let None = settings.padding else {
        return false;
    };
    match settings.delimiter {
        Delimiter::Blanks => true,
        Delimiter::Byte(delimiter) => !is_of_numbers(delimiter),
        Delimiter::Csv(_) => false,
    }
}

/// Whether a number that is shown so takes the width of its field, in which it stands alone, so that
/// no spaces stand in front of it.
fn fills_field(delimiter: Delimiter, index: usize, number: &[u8], shown: &[u8]) -> bool
    ensures fills { result ≡ true
        → padded (width_by delimiter None index [] number.now) shown.now ≡ shown.now }
    ensures blanks { result ≡ false → delimiter ≡ Blanks }
{
    match delimiter {
        Delimiter::Blanks => index <= 1 || columns_of(shown) >= number.len(),
        Delimiter::Byte(_) | Delimiter::Csv(_) => true,
    }
}

/// A text as it is shown, if it is a number that isn't rejected.
fn push_number(
    alloc: Global,
    delimiter: Delimiter,
    form: &Form,
    text: &[u8],
    gathered: &mut Gathered,
) -> Result<bool, AllocError>
    ensures { IfOk result (λ is_number. MatchBool is_number
        ((events : List Event) × (form_events form.now text.now ≡ Ok events)
        × (gathered.new ≡ record gathered.old {
          output = gathered.old.output ++ text_of events;
          holding = first_of gathered.old.holding (held_by delimiter (text_of events));
        }))
        (gathered.new ≡ gathered.old)) }
{
    match gathered.write_number(alloc, delimiter, form, text) {
        Ok(()) => Ok(true),
        Err(TextError::OutOfMemory) => Err(AllocError),
        Err(TextError::NotDecimal | TextError::TooManyDigits | TextError::Overflow) => Ok(false),
    }
}

/// The rest of a record, whose first field has this number and is chosen, as one number. The result
/// is whether it was one; if not, nothing was written.
pub(crate) fn push_whole(
    alloc: Global,
    settings: &LineSettings,
    form: &Form,
    index: usize,
    line: &[u8],
    gathered: &mut Gathered,
) -> Result<bool, AllocError>
    requires going { gathered.old.is_stopped ≡ false }
    requires chosen { is_chosen (fields_of settings.now gathered.old.stage) index ≡ true }
    requires counted { index ≤ gathered.old.most_fields }
    ensures { IfOk result (λ is_number. MatchBool is_number
        (GoesOn settings.now form.now index gathered.old gathered.new line.now None)
        (gathered.new ≡ gathered.old)) }
{
    if !leaves_numbers(settings) {
        return Ok(false);
    }
    if !gathered.takes_try() {
        return Ok(false);
    }
    let start = gathered.written();
    if !push_number(alloc, settings.delimiter, form, line, gathered)? {
        return Ok(false);
    }
    let shown = gathered.written_behind(start);
    if !fills_field(settings.delimiter, index, line, shown) {
        gathered.forget_behind(start);
        return Ok(false);
    }
    gathered.renew_tries();
    Ok(true)
}
