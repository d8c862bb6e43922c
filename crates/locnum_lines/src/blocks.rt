//! Records cut out of blocks of input.

ghost use Rattle.std.specs.Prelude.{◌≡◌, ◌++◌, ◌∷◌, [], OnOk, false};
ghost use Rattle.locnum_lines.specs.Gathered.{Adds, Feeds};
ghost use Rattle.locnum_lines.specs.RecordRuns.{record_ran};
ghost use Rattle.locnum_lines.specs.Records.{IsPart, IsPartLine, is_open, state_behind};
ghost use Rattle.locnum_lines.specs.Stage.{stage_after};
ghost use Rattle.locnum_lines.specs.declared.cutting.FieldState.TheVariants.{Front};

use crate::cutting::FieldState;
use crate::gathered::Gathered;
use crate::line::push_record;
use crate::records::{is_open_behind, lines_in, state_after, state_behind};
use crate::settings::LineSettings;
use memchr::memchr_iter;
use number_forms::Form;
use std::alloc::{AllocError, Global};

/// Runs a record whose first bytes were held back.
#[inline(never)]
fn end_held(
    alloc: Global,
    settings: &LineSettings,
    form: &Form,
    rest: &[u8],
    held: &mut Vec<u8>,
    gathered: &mut Gathered,
) -> Result<(), AllocError>
    requires going { gathered.old.is_stopped ≡ false }
    requires closed { is_open settings.now.delimiter (held.old.items ++ rest.now) ≡ false }
    ensures ran { OnOk result (Adds gathered.old gathered.new
        (record_ran settings.now form.now gathered.old.stage (held.old.items ++ rest.now))
        (stage_after settings.now gathered.old.stage (held.old.items ++ rest.now))) }
    ensures none_held { OnOk result (held.new.items ≡ []) }
{
    held.extend_from_slice(rest)?;
    let lines = lines_in(settings.end, held);
    push_record(alloc, settings, form, held, lines, gathered)?;
    held.clear();
    Ok(())
}

/// Runs a record whose first bytes may have been held back.
fn end_record(
    alloc: Global,
    settings: &LineSettings,
    form: &Form,
    rest: &[u8],
    held: &mut Vec<u8>,
    gathered: &mut Gathered,
) -> Result<(), AllocError>
    requires going { gathered.old.is_stopped ≡ false }
    requires closed { is_open settings.now.delimiter (held.old.items ++ rest.now) ≡ false }
    requires rest_part { IsPartLine settings.now.end rest.now }
    ensures ran { OnOk result (Adds gathered.old gathered.new
        (record_ran settings.now form.now gathered.old.stage (held.old.items ++ rest.now))
        (stage_after settings.now gathered.old.stage (held.old.items ++ rest.now))) }
    ensures none_held { OnOk result (held.new.items ≡ []) }
{
    if held.is_empty() {
        return push_record(alloc, settings, form, rest, 1, gathered);
    }
    end_held(alloc, settings, form, rest, held, gathered)
}

/// Ends a line whose record may have bytes that were held back, behind which this place is: the record
/// ends, too, unless the line ends between quotes.
fn end_line(
    alloc: Global,
    settings: &LineSettings,
    form: &Form,
    rest: &[u8],
    held: &mut Vec<u8>,
    state: &mut FieldState,
    gathered: &mut Gathered,
) -> Result<(), AllocError>
    requires going { gathered.old.is_stopped ≡ false }
    requires held_part { IsPart settings.now.delimiter settings.now.end Front held.old.items }
    requires state_is { state.old ≡ state_behind settings.now.delimiter Front held.old.items }
    requires rest_part { IsPartLine settings.now.end rest.now }
    ensures feeds { OnOk result (Feeds settings.now form.now gathered.old gathered.new
        held.old.items (rest.now ++ settings.now.end ∷ []) held.new.items) }
    ensures state { OnOk result
        (state.new ≡ state_behind settings.now.delimiter Front held.new.items) }
{
    if is_open_behind(settings.delimiter, *state, rest) {
        *state = state_after(settings.delimiter, FieldState::Quoted, settings.end);
        held.extend_from_slice(rest)?;
        held.push(settings.end)?;
        return Ok(());
    }
    *state = FieldState::Front;
    end_record(alloc, settings, form, rest, held, gathered)
}

/// Cuts a block into records: what each whole one writes is gathered, and the rest is held back,
/// unless the run stops.
pub(crate) fn take_block(
    alloc: Global,
    settings: &LineSettings,
    form: &Form,
    block: &[u8],
    held: &mut Vec<u8>,
    state: &mut FieldState,
    gathered: &mut Gathered,
) -> Result<(), AllocError>
    requires going { gathered.old.is_stopped ≡ false }
    requires held_part { IsPart settings.now.delimiter settings.now.end Front held.old.items }
    requires state_is { state.old ≡ state_behind settings.now.delimiter Front held.old.items }
    ensures feeds { OnOk result (Feeds settings.now form.now gathered.old gathered.new
        held.old.items block.now held.new.items) }
    ensures state { OnOk result (gathered.new.is_stopped ≡ false
        → state.new ≡ state_behind settings.now.delimiter Front held.new.items) }
{
    let mut start = 0;
    for n in memchr_iter(settings.end, block) {
        let line = &block[start..n];
        end_line(alloc, settings, form, line, held, state, gathered)?;
        if gathered.is_stopped {
            return Ok(());
        }
        start = n + 1;
    }
    let rest = &block[start..];
    *state = state_behind(settings.delimiter, *state, rest);
    held.extend_from_slice(rest)?;
    Ok(())
}
