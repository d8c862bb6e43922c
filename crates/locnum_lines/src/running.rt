//! From a reader to a writer.

ghost use Rattle.std.specs.Prelude.{◌≡◌, ◌<◌, [], Some, false, OnErr, OnOk, IfOk, IfSome, length, vec_len};
ghost use Rattle.std.specs.Io.KnownBytes.{Appends, prepend_known};
ghost use Rattle.decimal_lines.specs.Written.{AppendsBeginning};
ghost use Rattle.locnum_lines.specs.Gathered.{GatheredData};
ghost use Rattle.locnum_lines.specs.RecordRuns.{input_ran, records_ran, rest_ran};
ghost use Rattle.locnum_lines.specs.Records.{IsPart, state_behind, records_of};
ghost use Rattle.locnum_lines.specs.Reported.{Begins, Ends, Finishes};
ghost use Rattle.locnum_lines.specs.declared.cutting.FieldState.TheVariants.{Front};

use crate::blocks::take_block;
use crate::cutting::FieldState;
use crate::front::{mark_length, read_front, read_more};
use crate::gathered::Gathered;
use crate::line::push_last;
use crate::settings::LineSettings;
use decimal_lines::write_piece;
use number_forms::Form;
use std::alloc::{AllocError, Global};
use std::io::{Read, Write};
use std::marker::Model;
use thiserror::Error;

/// Why a run ended early.
#[derive(Clone, Copy, Debug, PartialEq, Eq, Error)]
pub enum RunError {
    /// The reader answered an error, or 2^64 reads had no end.
    #[error("reading failed")]
    Read,
    /// A writer answered an error, or took no byte.
    #[error("writing failed")]
    Write,
    /// An allocation failed.
    #[error("out of memory")]
    OutOfMemory,
}

/// What happened in a run.
#[derive(Debug, Drop)]
pub struct Report {
    /// Whether a text was rejected.
    pub is_refused: bool,
    /// Whether the run stopped there, or at a record of CSV whose quotes don't end.
    pub is_stopped: bool,
    /// The greatest number of fields that a record behind the header had; of one in which the run
    /// stopped, those up to there.
    pub most_fields: usize,
    /// The first written number that holds the delimiter; empty: none does.
    pub holding: Vec<u8>,
}

impl Model for Report {
    ghost use Rattle.locnum_lines.specs.Reported.{ReportData};

    ghost Value = { ReportData };

    ghost view = { λ r. record {
      is_refused = r.is_refused;
      is_stopped = r.is_stopped;
      most_fields = r.most_fields;
      holding = r.holding.items;
    } };
}

/// How many bytes are read at once.
const BLOCK_LEN: usize = 65536;

/// What the run so far reports.
fn reported(gathered: Gathered) -> Report
    ensures { result ≡ record {
      is_refused = gathered.is_refused;
      is_stopped = gathered.is_stopped;
      most_fields = gathered.most_fields;
      holding = gathered.holding;
    } }
{
    Report {
        is_refused: gathered.is_refused,
        is_stopped: gathered.is_stopped,
        most_fields: gathered.most_fields,
        holding: gathered.holding,
    }
}

/// Writes what was gathered, and forgets it.
fn flush<W: Write, N: Write>(
    gathered: &mut Gathered,
    writer: &mut W,
    notes: &mut N,
) -> Result<(), RunError>
    ensures ok { OnOk result (gathered.new ≡ record gathered.old { output = []; notes = [] }) }
    ensures written { OnOk result
        (Appends (W.contents writer.old) (W.contents writer.new) gathered.old.output) }
    ensures reported { OnOk result
        (Appends (N.contents notes.old) (N.contents notes.new) gathered.old.notes) }
    ensures err_written { OnErr result
        (AppendsBeginning (W.contents writer.old) (W.contents writer.new) gathered.old.output) }
    ensures err_reported { OnErr result
        (AppendsBeginning (N.contents notes.old) (N.contents notes.new) gathered.old.notes) }
{
    let Ok(()) = write_piece(writer, &gathered.output) else {
        return Err(RunError::Write);
    };
    let Ok(()) = write_piece(notes, &gathered.notes) else {
        return Err(RunError::Write);
    };
    gathered.clear();
    Ok(())
}

/// Runs what is held back at the end of the input, if anything is.
fn finish<W: Write, N: Write>(
    alloc: Global,
    settings: &LineSettings,
    form: &Form,
    held: &[u8],
    state: FieldState,
    mut gathered: Gathered,
    writer: &mut W,
    notes: &mut N,
) -> Result<Report, RunError>
    requires going { gathered.is_stopped ≡ false }
    requires no_output { gathered.output ≡ [] }
    requires no_notes { gathered.notes ≡ [] }
    requires part { IsPart settings.now.delimiter settings.now.end Front held.now }
    requires state_is { state ≡ state_behind settings.now.delimiter Front held.now }
    ensures ok { IfOk result (λ report. Finishes
        (records_ran settings.now form.now gathered.stage
        (records_of settings.now.delimiter settings.now.end held.now))
        gathered (W.contents writer.old) (W.contents writer.new)
        (N.contents notes.old) (N.contents notes.new) report) }
    ensures err { OnErr result (Begins
        (records_ran settings.now form.now gathered.stage
        (records_of settings.now.delimiter settings.now.end held.now))
        (W.contents writer.old) (W.contents writer.new)
        (N.contents notes.old) (N.contents notes.new)) }
{
    if held.is_empty() {
        return Ok(reported(gathered));
    }
    let Ok(()) = push_last(alloc, settings, form, held, state, &mut gathered) else {
        return Err(RunError::OutOfMemory);
    };
    flush(&mut gathered, writer, notes)?;
    Ok(reported(gathered))
}

/// Runs the bytes that were read behind a byte order mark, and all that the reader has.
fn run_by<R: Read, W: Write, N: Write>(
    alloc: Global,
    settings: &LineSettings,
    form: &Form,
    reader: &mut R,
    writer: &mut W,
    notes: &mut N,
    mut rest: &[u8],
    block: &mut [u8],
) -> Result<Report, RunError>
    requires { 0 < length block.old }
    ensures ok { IfOk result (λ report. IfSome
        (prepend_known rest.now (R.remaining reader.old)) (λ input. Ends
        (rest_ran settings.now form.now input)
        (W.contents writer.old) (W.contents writer.new)
        (N.contents notes.old) (N.contents notes.new) report (R.remaining reader.new))) }
    ensures err { OnErr result (IfSome
        (prepend_known rest.now (R.remaining reader.old)) (λ input. Begins
        (rest_ran settings.now form.now input)
        (W.contents writer.old) (W.contents writer.new)
        (N.contents notes.old) (N.contents notes.new))) }
{
    let mut held = Vec::new(alloc);
    let mut state = FieldState::Front;
    let mut gathered = Gathered::new(alloc, settings.header);
    for _ in 0..=u64::MAX {
        let n = read_more(&mut rest, reader, block)?;
        if n == 0 {
            return finish(alloc, settings, form, &held, state, gathered, writer, notes);
        }
        let block = &block[..n];
        let taken = take_block(
            alloc,
            settings,
            form,
            block,
            &mut held,
            &mut state,
            &mut gathered,
        );
        let Ok(()) = taken else {
            return Err(RunError::OutOfMemory);
        };
        flush(&mut gathered, writer, notes)?;
        if gathered.is_stopped {
            return Ok(reported(gathered));
        }
    }
    Err(RunError::Read)
}

/// A buffer of this many bytes.
fn buffer(alloc: Global, len: usize) -> Result<Vec<u8>, AllocError>
    ensures { IfOk result (λ v. vec_len v ≡ len) }
{
    Vec::from_elem(alloc, 0u8, len)
}

/// Reads all lines, or records of CSV; writes each with its chosen numbers in this form, and
/// reports which texts are rejected (this project's own, after GNU `numfmt`).
///
/// A byte order mark in front of lines goes through as it is and belongs to no field. The last line
/// may end without its byte, and is written with it. Each error of the reader is
/// `Read`, and so are 2^64 reads without an end; each error of a writer is `Write`, and so is a
/// write that takes no byte. Nothing is flushed.
// promise: After `Ok` each writer has just the output, or the notes.
// mutations: header_one_line_short, output_told_as_notes
// promise: After an error each writer has a beginning.
// promise: The report says whether a text was rejected, or it stopped.
// mutations: abort_goes_on
pub fn run<R: Read, W: Write, N: Write>(
    alloc: Global,
    settings: &LineSettings,
    form: &Form,
    reader: &mut R,
    writer: &mut W,
    notes: &mut N,
) -> Result<Report, RunError>
    // The output and the notes of the whole input were written, and all of it read, unless the run
    // stopped at a text that was rejected or at quotes that don't end;
    ensures ok { IfOk result (λ report. IfSome (R.remaining reader.old) (λ input. Ends
        (input_ran settings.now form.now input)
        (W.contents writer.old) (W.contents writer.new)
        (N.contents notes.old) (N.contents notes.new) report (R.remaining reader.new))) }

    // or else a beginning of them.
    ensures err { OnErr result (IfSome (R.remaining reader.old) (λ input. Begins
        (input_ran settings.now form.now input)
        (W.contents writer.old) (W.contents writer.new)
        (N.contents notes.old) (N.contents notes.new))) }
{
    let Ok(mut block) = buffer(alloc, BLOCK_LEN) else {
        return Err(RunError::OutOfMemory);
    };
    let front = read_front(alloc, reader)?;
    let (mark, rest) = front.split_at(mark_length(settings.source, &front));
    let Ok(()) = write_piece(writer, mark) else {
        return Err(RunError::Write);
    };
    run_by(
        alloc,
        settings,
        form,
        reader,
        writer,
        notes,
        rest,
        block.as_mut_slice(),
    )
}
