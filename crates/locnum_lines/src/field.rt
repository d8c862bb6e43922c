//! One field of a line.

ghost use Rattle.std.specs.Prelude.{◌≡◌, ◌≢◌, ◌≤◌, ◌<◌, ◌+◌, ◌^◌, length, ◌++◌, OnOk, IfErr, Ok, Some, List, drop, false, take, true};
ghost use Rattle.decimal_lines.specs.SingleText.{IsRefusal};
ghost use Rattle.number_forms.specs.Forms.{form_events};
ghost use Rattle.locnum_lines.specs.FieldRuns.{blanks_kept, chosen_ran, csv_cut_ran, field_ran, held_by, refused_ran};
ghost use Rattle.locnum_lines.specs.Csv.{as_field, content_from, core_length, is_in_quotes};
ghost use Rattle.locnum_lines.specs.Fields.{cut_field};
ghost use Rattle.locnum_lines.specs.declared.cutting.FieldState.TheVariants.{Front};
ghost use Rattle.locnum_lines.specs.Gathered.{Adds};
ghost use Rattle.locnum_lines.specs.Notes.{note, position_text};
ghost use Rattle.locnum_lines.specs.Padding.{padded};
ghost use Rattle.locnum_lines.specs.Ran.{first_of};
ghost use Rattle.locnum_lines.specs.Settings.{is_chosen};
ghost use Rattle.locnum_lines.specs.Stage.{fields_of};
ghost use Rattle.writeable.specs.Events.{Event, text_of};

use crate::csv::{content_of, content_within, core_length, is_in_quotes};
use crate::cutting::{blanks_before, content_length};
use crate::gathered::Gathered;
use crate::padding::{Width, padding_width, width_by};
use crate::settings::{Delimiter, LineSettings, Refusals};
use decimal_lines::TextError;
use number_forms::Form;
use std::alloc::{AllocError, Global};

/// A number that is rejected in a field of this number, and what is behind it.
fn refuse(
    settings: &LineSettings,
    index: usize,
    number: &[u8],
    behind: &[u8],
    error: TextError,
    gathered: &mut Gathered,
) -> Result<(), AllocError>
    requires { gathered.old.is_stopped ≡ false }
    ensures { OnOk result (Adds gathered.old gathered.new
        (refused_ran settings.now.refusals (number.now ++ behind.now) (note
        (position_text settings.now.source gathered.old.stage.lines gathered.old.stage.names index)
        number.now error)) gathered.old.stage) }
{
    gathered.is_refused = true;
    match settings.refusals {
        Refusals::Abort => {
            gathered.is_stopped = true;
            return gathered.note(settings.source, index, number, error);
        }
        Refusals::Fail | Refusals::Warn => gathered.note(settings.source, index, number, error)?,
        Refusals::Ignore => {}
    }
    gathered.write(number)?;
    gathered.write(behind)
}

/// A number as it is shown, in columns of this width.
fn push_padded(
    alloc: Global,
    delimiter: Delimiter,
    width: Width,
    form: &Form,
    number: &[u8],
    gathered: &mut Gathered,
) -> Result<(), TextError>
    ensures ok { OnOk result ((events : List Event) × (form_events form.now number.now ≡ Ok events)
        × (gathered.new ≡ record gathered.old {
          output = gathered.old.output ++ padded (Some width) (text_of events);
          holding = first_of gathered.old.holding (held_by delimiter (text_of events));
        })) }
    ensures refused { IfErr result (IsRefusal (form_events form.now number.now)) }
    ensures unchanged { IfErr result (λ error. error ≢ TextError.OutOfMemory
        → gathered.new ≡ gathered.old) }
{
    let mut text = Vec::new(alloc);
    form.push(alloc, number, &mut text)?;
    match gathered.write_columns(delimiter, width, &text) {
        Ok(()) => Ok(()),
        Err(AllocError) => Err(TextError::OutOfMemory),
    }
}

/// A number as it is shown in columns of this width, or the blanks in front of one that is
/// rejected.
fn push_padded_or_blanks(
    alloc: Global,
    delimiter: Delimiter,
    width: Width,
    form: &Form,
    before: &[u8],
    number: &[u8],
    gathered: &mut Gathered,
) -> Result<(), TextError>
    ensures ok { OnOk result ((events : List Event) × (form_events form.now number.now ≡ Ok events)
        × (gathered.new ≡ record gathered.old {
          output = gathered.old.output ++ padded (Some width) (text_of events);
          holding = first_of gathered.old.holding (held_by delimiter (text_of events));
        })) }
    ensures refused { IfErr result (IsRefusal (form_events form.now number.now)) }
    ensures blanks { IfErr result (λ error. error ≢ TextError.OutOfMemory
        → gathered.new ≡ record gathered.old { output = gathered.old.output ++ before.now }) }
{
    let Err(error) = push_padded(alloc, delimiter, width, form, number, gathered) else {
        return Ok(());
    };
    if error == TextError::OutOfMemory {
        return Err(error);
    }
    match gathered.write(before) {
        Ok(()) => Err(error),
        Err(AllocError) => Err(TextError::OutOfMemory),
    }
}

/// A number as it is shown behind the blanks in front of it, or these alone where it is rejected.
fn push_behind_blanks(
    alloc: Global,
    delimiter: Delimiter,
    form: &Form,
    before: &[u8],
    number: &[u8],
    gathered: &mut Gathered,
) -> Result<(), TextError>
    ensures ok { OnOk result ((events : List Event) × (form_events form.now number.now ≡ Ok events)
        × (gathered.new ≡ record gathered.old {
          output = gathered.old.output ++ (before.now ++ text_of events);
          holding = first_of gathered.old.holding (held_by delimiter (text_of events));
        })) }
    ensures refused { IfErr result (IsRefusal (form_events form.now number.now)) }
    ensures blanks { IfErr result (λ error. error ≢ TextError.OutOfMemory
        → gathered.new ≡ record gathered.old { output = gathered.old.output ++ before.now }) }
{
    match gathered.write(before) {
        Ok(()) => gathered.write_number(alloc, delimiter, form, number),
        Err(AllocError) => Err(TextError::OutOfMemory),
    }
}

/// A number as it is shown, with the blanks in front of it, or these alone where it is rejected.
fn push_shown(
    alloc: Global,
    delimiter: Delimiter,
    width: Option<Width>,
    form: &Form,
    before: &[u8],
    number: &[u8],
    gathered: &mut Gathered,
) -> Result<(), TextError>
    ensures ok { OnOk result ((events : List Event) × (form_events form.now number.now ≡ Ok events)
        × (gathered.new ≡ record gathered.old {
          output = gathered.old.output
              ++ (blanks_kept width before.now ++ padded width (text_of events));
          holding = first_of gathered.old.holding (held_by delimiter (text_of events));
        })) }
    ensures refused { IfErr result (IsRefusal (form_events form.now number.now)) }
    ensures blanks { IfErr result (λ error. error ≢ TextError.OutOfMemory
        → gathered.new ≡ record gathered.old { output = gathered.old.output ++ before.now }) }
{
    match width {
        None => push_behind_blanks(alloc, delimiter, form, before, number, gathered),
        Some(width) => {
            push_padded_or_blanks(alloc, delimiter, width, form, before, number, gathered)
        }
    }
}

/// A field of this number that is chosen: the blanks in front of its number, the number, and what
/// is behind it.
fn push_chosen(
    alloc: Global,
    settings: &LineSettings,
    form: &Form,
    index: usize,
    before: &[u8],
    number: &[u8],
    behind: &[u8],
    gathered: &mut Gathered,
) -> Result<(), AllocError>
    requires going { gathered.old.is_stopped ≡ false }
    requires within { length before.now + length number.now < 2 ^ 64 }
    ensures { OnOk result (Adds gathered.old gathered.new
        (chosen_ran settings.now form.now gathered.old.stage index
        (record { before = before.now; number = number.now; behind = behind.now }))
        gathered.old.stage) }
{
    let width = width_by(settings, index, before, number);
    let shown = push_shown(
        alloc,
        settings.delimiter,
        width,
        form,
        before,
        number,
        gathered,
    );
    match shown {
        Ok(()) => gathered.write(behind),
        Err(error) => {
            if error == TextError::OutOfMemory {
                return Err(AllocError);
            }
            refuse(settings, index, number, behind, error, gathered)
        }
    }
}

/// A field of this number that is chosen.
fn push_plain(
    alloc: Global,
    settings: &LineSettings,
    form: &Form,
    index: usize,
    text: &[u8],
    gathered: &mut Gathered,
) -> Result<(), AllocError>
    requires { gathered.old.is_stopped ≡ false }
    ensures { OnOk result (Adds gathered.old gathered.new
        (chosen_ran settings.now form.now gathered.old.stage index (cut_field text.now))
        gathered.old.stage) }
{
    let (before, rest) = text.split_at(blanks_before(text));
    let (number, behind) = rest.split_at(content_length(rest));
    push_chosen(
        alloc, settings, form, index, before, number, behind, gathered,
    )
}

/// A field of CSV of this number whose content is rejected.
fn refuse_field(
    settings: &LineSettings,
    index: usize,
    number: &[u8],
    text: &[u8],
    error: TextError,
    gathered: &mut Gathered,
) -> Result<(), AllocError>
    requires { gathered.old.is_stopped ≡ false }
    ensures { OnOk result (Adds gathered.old gathered.new
        (refused_ran settings.now.refusals text.now (note
        (position_text settings.now.source gathered.old.stage.lines gathered.old.stage.names index)
        number.now error)) gathered.old.stage) }
{
    gathered.is_refused = true;
    match settings.refusals {
        Refusals::Abort => {
            gathered.is_stopped = true;
            return gathered.note(settings.source, index, number, error);
        }
        Refusals::Fail | Refusals::Warn => gathered.note(settings.source, index, number, error)?,
        Refusals::Ignore => {}
    }
    gathered.write(text)
}

/// A number as it is shown, with the blanks in front of it and what is behind it.
fn push_between(
    alloc: Global,
    delimiter: Delimiter,
    width: Option<Width>,
    form: &Form,
    before: &[u8],
    number: &[u8],
    behind: &[u8],
    gathered: &mut Gathered,
) -> Result<(), TextError>
    ensures ok { OnOk result ((events : List Event) × (form_events form.now number.now ≡ Ok events)
        × (gathered.new.output ≡ gathered.old.output
        ++ ((blanks_kept width before.now ++ padded width (text_of events))
        ++ behind.now))) }
    ensures refused { IfErr result (IsRefusal (form_events form.now number.now)) }
{
    push_shown(alloc, delimiter, width, form, before, number, gathered)?;
    match gathered.write(behind) {
        Ok(()) => Ok(()),
        Err(AllocError) => Err(TextError::OutOfMemory),
    }
}

/// A text as a field of CSV in the place of another field, in front of a carriage return at its
/// end.
fn replace(
    delimiter: u8,
    end: u8,
    field: &[u8],
    text: &[u8],
    gathered: &mut Gathered,
) -> Result<(), AllocError>
    ensures { OnOk result (gathered.new ≡ record gathered.old {
      output = gathered.old.output ++ (as_field delimiter end (is_in_quotes field.now) text.now
          ++ drop (core_length field.now) field.now);
    }) }
{
    let (_core, behind) = field.split_at(core_length(field));
    gathered.write_field(delimiter, end, is_in_quotes(field), text)?;
    gathered.write(behind)
}

/// A field of CSV of this number that is chosen, by its content.
fn push_content(
    alloc: Global,
    settings: &LineSettings,
    form: &Form,
    index: usize,
    delimiter: u8,
    text: &[u8],
    content: &[u8],
    gathered: &mut Gathered,
) -> Result<(), AllocError>
    requires { gathered.old.is_stopped ≡ false }
    ensures { OnOk result (Adds gathered.old gathered.new
        (csv_cut_ran settings.now form.now gathered.old.stage index delimiter text.now
        (cut_field content.now)) gathered.old.stage) }
{
    let (before, rest) = content.split_at(blanks_before(content));
    let (number, behind) = rest.split_at(content_length(rest));
    let mut apart = gathered.apart(alloc);
    match push_between(
        alloc,
        settings.delimiter,
        padding_width(settings.padding),
        form,
        before,
        number,
        behind,
        &mut apart,
    ) {
        Ok(()) => {
            replace(delimiter, settings.end, text, &apart.output, gathered)?;
            gathered.take_back(apart);
            Ok(())
        }
        Err(error) => {
            if error == TextError::OutOfMemory {
                return Err(AllocError);
            }
            refuse_field(settings, index, number, text, error, gathered)
        }
    }
}

/// A field of CSV of this number that is chosen.
fn push_csv(
    alloc: Global,
    settings: &LineSettings,
    form: &Form,
    index: usize,
    delimiter: u8,
    text: &[u8],
    gathered: &mut Gathered,
) -> Result<(), AllocError>
    requires { gathered.old.is_stopped ≡ false }
    ensures { OnOk result (Adds gathered.old gathered.new
        (csv_cut_ran settings.now form.now gathered.old.stage index delimiter text.now
        (cut_field (content_from Front (take (core_length text.now) text.now))))
        gathered.old.stage) }
{
    let (core, _behind) = text.split_at(core_length(text));
    if let Some(content) = content_within(core) {
        return push_content(
            alloc, settings, form, index, delimiter, text, content, gathered,
        );
    }
    let content = content_of(alloc, core)?;
    push_content(
        alloc, settings, form, index, delimiter, text, &content, gathered,
    )
}

/// A field of this number, which is chosen.
pub(crate) fn push_field(
    alloc: Global,
    settings: &LineSettings,
    form: &Form,
    index: usize,
    text: &[u8],
    gathered: &mut Gathered,
) -> Result<(), AllocError>
    requires going { gathered.old.is_stopped ≡ false }
    requires chosen { is_chosen (fields_of settings.now gathered.old.stage) index ≡ true }
    requires counted { index ≤ gathered.old.most_fields }
    ensures { OnOk result (Adds gathered.old gathered.new
        (field_ran settings.now form.now gathered.old.stage index text.now)
        gathered.old.stage) }
{
    match settings.delimiter {
        Delimiter::Blanks | Delimiter::Byte(_) => push_plain(
            alloc, settings, form, index, text, gathered,
        ),
        Delimiter::Csv(delimiter) => push_csv(
            alloc, settings, form, index, delimiter, text, gathered,
        ),
    }
}
