//! Calls of `locnum_lines` over an input.

use crate::CallResult;
use crate::bytes::{push_behind, push_text, text_if};
use crate::counts::at_once;
use locnum_lines::{LineSettings, Report, RunError, run};
use number_forms::Form;
use rows::SlowReader;
use std::alloc::{AllocError, Global};

/// Appends what a run leaves: its output, whether a text was rejected, whether it stopped, and its
/// notes.
fn push_left(
    report: &Report,
    output: &[u8],
    notes: &[u8],
    text: &mut String,
) -> Result<(), AllocError> {
    push_text(output, text)?;
    text.push_str(text_if(report.is_refused, " | rejected"))?;
    text.push_str(text_if(report.is_stopped, " | stopped"))?;
    push_behind(" | ", notes, text)
}

/// What a run leaves.
fn left(alloc: Global, report: &Report, output: &[u8], notes: &[u8]) -> Result<String, AllocError> {
    let mut text = String::new(alloc);
    push_left(report, output, notes, &mut text)?;
    Ok(text)
}

/// What a run leaves over an input of which that many bytes are read at once.
fn ran_by(
    alloc: Global,
    form: &Form,
    settings: &LineSettings,
    bytes: &[u8],
    at_once: usize,
) -> Result<String, AllocError> {
    let mut reader = SlowReader {
        bytes,
        good: usize::MAX,
        at_once,
    };
    let mut output = Vec::new(alloc);
    let mut notes = Vec::new(alloc);
    match run(alloc, settings, form, &mut reader, &mut output, &mut notes) {
        Ok(report) => left(alloc, &report, &output, &notes),
        Err(RunError::Read) => String::from_str(alloc, "Read"),
        // a `Vec` takes what is written while there is memory
        Err(RunError::Write | RunError::OutOfMemory) => Err(AllocError),
    }
}

/// What `run` leaves, however many bytes are read at once.
pub(crate) fn ran(alloc: Global, form: &Form, settings: &LineSettings, input: &[u8]) -> CallResult {
    let whole = ran_by(alloc, form, settings, input, usize::MAX)?;
    for count in at_once(input, &[]) {
        let text = ran_by(alloc, form, settings, input, *count)?;
        if text != whole {
            return Ok(Some(format!(in alloc; "{whole}, but by {count} bytes {text}")?));
        }
    }
    Ok(Some(whole))
}

/// Appends the greatest number of fields, and the first number that holds the delimiter, if one does.
fn push_report(alloc: Global, report: &Report, text: &mut String) -> Result<(), AllocError> {
    text.push_str(format!(in alloc; "most fields {}", report.most_fields)?.as_str())?;
    push_behind(" | holding ", &report.holding, text)
}

/// What a report says of fields.
fn report_text(alloc: Global, report: &Report) -> Result<String, AllocError> {
    let mut text = String::new(alloc);
    push_report(alloc, report, &mut text)?;
    Ok(text)
}

/// What the report of `run` says of fields.
pub(crate) fn reported(
    alloc: Global,
    form: &Form,
    settings: &LineSettings,
    input: &[u8],
) -> CallResult {
    let mut reader = input;
    let mut output = Vec::new(alloc);
    let mut notes = Vec::new(alloc);
    match run(alloc, settings, form, &mut reader, &mut output, &mut notes) {
        Ok(report) => Ok(Some(report_text(alloc, &report)?)),
        Err(RunError::Read) => Ok(None),
        Err(RunError::Write | RunError::OutOfMemory) => Err(AllocError),
    }
}
