//! One line, or record of CSV.

ghost use Rattle.std.specs.Prelude.{◌≡◌, ◌<◌, ◌≤◌, ◌++◌, ◌∷◌, [], OnOk, IfOk, length, option_map, false, true};
ghost use Rattle.locnum_lines.specs.FieldRuns.{fields_ran};
ghost use Rattle.locnum_lines.specs.Fields.{fields_from};
ghost use Rattle.locnum_lines.specs.Gathered.{Adds, GoesOn};
ghost use Rattle.locnum_lines.specs.Passed.{IsPassed};
ghost use Rattle.locnum_lines.specs.Ran.{joined_runs, writes};
ghost use Rattle.locnum_lines.specs.Records.{in_front, is_open, last_begun, lines_in, state_behind};
ghost use Rattle.locnum_lines.specs.declared.cutting.FieldState.TheVariants.{Front};
ghost use Rattle.locnum_lines.specs.RecordRuns.{named_ran, next_ran, open_ran, record_ran, unended_ran};
ghost use Rattle.locnum_lines.specs.Settings.{is_chosen};
ghost use Rattle.locnum_lines.specs.Stage.{fields_of, header_passed, stage_after};

use crate::cutting::{FieldState, field_length, is_quoted};
use crate::field::push_field;
use crate::gathered::Gathered;
use crate::note::push_unended_note;
use crate::records::{last_begun, last_end, lines_in};
use crate::settings::LineSettings;
use crate::whole::push_whole;
use number_forms::Form;
use std::alloc::{AllocError, Global};

/// That many bytes of a line and the one behind them, as they are. The result is the rest behind
/// that byte, unless there is none.
fn pass_through<'a>(
    line: &'a [u8],
    count: usize,
    gathered: &mut Gathered,
) -> Result<Option<&'a [u8]>, AllocError>
    requires { count ≤ length line.now }
    ensures { IfOk result (λ rest. IsPassed gathered.old gathered.new line.now count
        (option_map (λ s. s.now) rest)) }
{
    if count == line.len() {
        gathered.write(line)?;
        return Ok(None);
    }
    let (passed, rest) = line.split_at(count + 1);
    gathered.write(passed)?;
    Ok(Some(rest))
}

/// The first field of the rest of a record, whose number this is and which is chosen, and the byte
/// behind it. The result is the rest behind that byte, unless there is none or the run stops.
#[inline(never)]
fn push_next<'a>(
    alloc: Global,
    settings: &LineSettings,
    form: &Form,
    index: usize,
    line: &'a [u8],
    gathered: &mut Gathered,
) -> Result<Option<&'a [u8]>, AllocError>
    requires going { gathered.old.is_stopped ≡ false }
    requires chosen { is_chosen (fields_of settings.now gathered.old.stage) index ≡ true }
    requires counted { index ≤ gathered.old.most_fields }
    ensures { IfOk result (λ rest. GoesOn settings.now form.now index
        gathered.old gathered.new line.now (option_map (λ s. s.now) rest)) }
{
    let length = field_length(settings.delimiter, line);
    let (field, behind) = line.split_at(length);
    push_field(alloc, settings, form, index, field, gathered)?;
    if gathered.is_stopped {
        return Ok(None);
    }
    let Some((separator, rest)) = behind.split_first() else {
        return Ok(None);
    };
    gathered.push(*separator)?;
    Ok(Some(rest))
}

/// The first field of the rest of a record, whose number this is and which is counted, and the byte
/// behind it. The result is the rest behind that byte, unless there is none or the run stops.
fn push_counted<'a>(
    alloc: Global,
    settings: &LineSettings,
    form: &Form,
    index: usize,
    line: &'a [u8],
    gathered: &mut Gathered,
) -> Result<Option<&'a [u8]>, AllocError>
    requires going { gathered.old.is_stopped ≡ false }
    requires counted { index ≤ gathered.old.most_fields }
    ensures { IfOk result (λ rest. GoesOn settings.now form.now index
        gathered.old gathered.new line.now (option_map (λ s. s.now) rest)) }
{
    if !gathered.chooses(settings, index) {
        let length = field_length(settings.delimiter, line);
        return pass_through(line, length, gathered);
    }
    if push_whole(alloc, settings, form, index, line, gathered)? {
        return Ok(None);
    }
    push_next(alloc, settings, form, index, line, gathered)
}

/// The first field of the rest of a record, whose number this is, and the byte behind it. The
/// result is the rest behind that byte, unless there is none or the run stops.
fn push_first<'a>(
    alloc: Global,
    settings: &LineSettings,
    form: &Form,
    index: usize,
    line: &'a [u8],
    gathered: &mut Gathered,
) -> Result<Option<&'a [u8]>, AllocError>
    requires { gathered.old.is_stopped ≡ false }
    ensures { IfOk result (λ rest. GoesOn settings.now form.now index
        gathered.old gathered.new line.now (option_map (λ s. s.now) rest)) }
{
    gathered.count(index);
    push_counted(alloc, settings, form, index, line, gathered)
}

/// The fields of a record.
fn push_fields(
    alloc: Global,
    settings: &LineSettings,
    form: &Form,
    line: &[u8],
    gathered: &mut Gathered,
) -> Result<(), AllocError>
    requires { gathered.old.is_stopped ≡ false }
    ensures { OnOk result (Adds gathered.old gathered.new
        (fields_ran settings.now form.now gathered.old.stage 1
        (fields_from settings.now.delimiter Front line.now)) gathered.old.stage) }
{
    let mut next = Some(line);
    let mut index: usize = 1;
    while let Some(rest) = next {
        next = push_first(alloc, settings, form, index, rest, gathered)?;
        let Some(following) = index.checked_add(1) else {
            return Err(AllocError);
        };
        index = following;
    }
    Ok(())
}

/// A record of the header and the byte behind it.
fn push_header(
    alloc: Global,
    settings: &LineSettings,
    last: u8,
    line: &[u8],
    gathered: &mut Gathered,
) -> Result<(), AllocError>
    requires going { gathered.old.is_stopped ≡ false }
    requires some { 0 < gathered.old.stage.left }
    ensures { OnOk result (Adds gathered.old gathered.new
        (joined_runs (writes (line.now ++ last ∷ []))
        (named_ran settings.now gathered.old.stage line.now))
        (header_passed settings.now gathered.old.stage line.now)) }
{
    gathered.write(line)?;
    gathered.push(last)?;
    gathered.pass_header(alloc, settings, line)
}

/// A record and the byte behind it, in front of which as many records of the header are left as
/// were gathered.
fn push_line(
    alloc: Global,
    settings: &LineSettings,
    form: &Form,
    last: u8,
    line: &[u8],
    gathered: &mut Gathered,
) -> Result<(), AllocError>
    requires { gathered.old.is_stopped ≡ false }
    ensures { OnOk result (Adds gathered.old gathered.new
        (next_ran settings.now form.now gathered.old.stage last line.now)
        (header_passed settings.now gathered.old.stage line.now)) }
{
    if gathered.header > 0 {
        return push_header(alloc, settings, last, line, gathered);
    }
    push_fields(alloc, settings, form, line, gathered)?;
    if gathered.is_stopped {
        return Ok(());
    }
    gathered.push(last)
}

/// A record of that many lines whose quotes end, behind as many lines as were gathered.
pub(crate) fn push_record(
    alloc: Global,
    settings: &LineSettings,
    form: &Form,
    line: &[u8],
    lines: u64,
    gathered: &mut Gathered,
) -> Result<(), AllocError>
    requires going { gathered.old.is_stopped ≡ false }
    requires closed { is_open settings.now.delimiter line.now ≡ false }
    requires count { lines ≡ lines_in settings.now.end line.now }
    ensures { OnOk result (Adds gathered.old gathered.new
        (record_ran settings.now form.now gathered.old.stage line.now)
        (stage_after settings.now gathered.old.stage line.now)) }
{
    push_line(alloc, settings, form, settings.end, line, gathered)?;
    gathered.pass(lines)
}

/// Tells of quotes that don't end, which begin in this line.
pub(crate) fn stop(line: u64, gathered: &mut Gathered) -> Result<(), AllocError>
    ensures { OnOk result (Adds gathered.old gathered.new (unended_ran line) gathered.old.stage) }
{
    gathered.is_stopped = true;
    push_unended_note(line, &mut gathered.notes)
}

/// A record whose quotes don't end, by the line in which they begin.
fn push_open(
    alloc: Global,
    settings: &LineSettings,
    form: &Form,
    begun: u64,
    line: &[u8],
    gathered: &mut Gathered,
) -> Result<(), AllocError>
    requires { gathered.old.is_stopped ≡ false }
    ensures { OnOk result (Adds gathered.old gathered.new
        (open_ran settings.now form.now gathered.old.stage begun
        (in_front settings.now.delimiter Front line.now))
        (header_passed settings.now gathered.old.stage line.now)) }
{
    let Some(n) = last_end(settings.delimiter, line) else {
        return stop(begun, gathered);
    };
    let (front, _) = line.split_at(n);
    push_line(alloc, settings, form, line[n], front, gathered)?;
    if gathered.is_stopped {
        return Ok(());
    }
    stop(begun, gathered)
}

/// The last record of an input, behind which this place is.
pub(crate) fn push_last(
    alloc: Global,
    settings: &LineSettings,
    form: &Form,
    line: &[u8],
    state: FieldState,
    gathered: &mut Gathered,
) -> Result<(), AllocError>
    requires going { gathered.old.is_stopped ≡ false }
    requires state_is { state ≡ state_behind settings.now.delimiter Front line.now }
    ensures { OnOk result (Adds gathered.old gathered.new
        (record_ran settings.now form.now gathered.old.stage line.now)
        (stage_after settings.now gathered.old.stage line.now)) }
{
    let lines = lines_in(settings.end, line);
    if !is_quoted(state) {
        return push_record(alloc, settings, form, line, lines, gathered);
    }
    let Some(first) = gathered.lines.checked_add(1) else {
        return Err(AllocError);
    };
    let Some(begun) = last_begun(settings.delimiter, settings.end, first, line) else {
        return Err(AllocError);
    };
    push_open(alloc, settings, form, begun, line, gathered)?;
    gathered.pass(lines)
}
