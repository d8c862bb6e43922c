//! The chosen fields of lines, explained, each under a line that says where it stands.

use crate::explained::{Explainer, put, read_line, reader, reported};
use crate::streams::Streams;
use crate::words::{joined, nothing};
use locnum_explain::explain_at;
use locnum_lines::{
    FoundNumber, LineSettings, NumberFinder, RecordState, Report, RunError, Source, behind_mark,
};
use std::io::{BufReader, Stdin, Write};

/// Explains the numbers that were found in a record.
fn explain_found(
    rt: &HostRuntime,
    streams: &mut Streams,
    explainer: &Explainer<'_, '_>,
    found: &[FoundNumber],
) -> Result<Report, RunError> {
    let Explainer {
        settings,
        form,
        stops,
    } = explainer;
    let mut out = Vec::new(rt.alloc());
    let mut report = nothing(rt.alloc());
    for FoundNumber { position, text } in found {
        let explained = explain_at(rt.alloc(), settings, form, position, text, &mut out);
        let Ok(is_refused) = explained else {
            return Err(RunError::OutOfMemory);
        };
        report = joined(report, reported(rt, *stops, is_refused));
        if report.is_stopped {
            break;
        }
    }
    put(streams, &out)?;
    Ok(report)
}

/// Explains the numbers of a record, and writes the note of what ends the search.
fn explain_record(
    rt: &HostRuntime,
    streams: &mut Streams,
    explainer: &Explainer<'_, '_>,
    lines: &LineSettings,
    finder: &mut NumberFinder,
    record: &[u8],
) -> Result<Report, RunError> {
    let Ok(found) = finder.find(rt.alloc(), lines, record) else {
        return Err(RunError::OutOfMemory);
    };
    let mut report = explain_found(rt, streams, explainer, &found)?;
    report.most_fields = finder.most_fields();
    if finder.is_stopped() {
        report.is_stopped = true;
        if streams.notes.write_all(finder.notes()).is_err() {
            return Err(RunError::Write);
        }
    }
    Ok(report)
}

/// The bytes of a record behind that many of them, and at the front of an input behind its byte
/// order mark.
pub(crate) fn bytes_behind(record: &[u8], start: usize, is_first: bool) -> &[u8] {
    let bytes = record.split_at(start.min(record.len())).1;
    if is_first && start == 0 {
        behind_mark(Source::Lines, bytes)
    } else {
        bytes
    }
}

/// What was read of a record.
#[derive(Clone, Copy, PartialEq, Eq)]
pub(crate) enum ReadRecord {
    /// Nothing, or a byte order mark alone: the input has ended.
    Nothing,
    /// All of it, and the byte that ends lines behind it.
    Ended,
    /// All of it; the input ends in it.
    Unended,
}

/// What was read of a record at the end of an input, by its bytes.
fn last_read(record: &[u8]) -> ReadRecord {
    if record.is_empty() {
        ReadRecord::Nothing
    } else {
        ReadRecord::Unended
    }
}

/// Reads a record, perhaps the first one: a line, and further ones while quotes of CSV are open. It has
/// no byte that ends lines behind it.
pub(crate) fn read_record(
    streams: &mut Streams,
    reader: &mut BufReader<Stdin>,
    lines: &LineSettings,
    is_first: bool,
    record: &mut Vec<u8>,
) -> Result<ReadRecord, RunError> {
    record.clear();
    let mut state = RecordState::new();
    for _ in 0..u64::MAX {
        let start = record.len();
        if read_line(streams, reader, lines.end, record)? == 0 {
            return Ok(last_read(record));
        }
        if record.last() != Some(&lines.end) {
            return Ok(last_read(bytes_behind(record, 0, is_first)));
        }
        record.pop();
        state.pass(lines, bytes_behind(record, start, is_first));
        if !state.is_open() {
            return Ok(ReadRecord::Ended);
        }
        let Ok(()) = record.push(lines.end) else {
            return Err(RunError::OutOfMemory);
        };
        state.pass(lines, &[lines.end]);
    }
    Ok(ReadRecord::Unended)
}

/// Explains the chosen fields of standard input, in front of which a byte order mark may stand.
fn explain_input(
    rt: &HostRuntime,
    streams: &mut Streams,
    explainer: &Explainer<'_, '_>,
    lines: &LineSettings,
) -> Result<Report, RunError> {
    let mut reader = reader(rt)?;
    let mut finder = NumberFinder::new(rt.alloc(), lines);
    let mut record = Vec::new(rt.alloc());
    let mut report = nothing(rt.alloc());
    for index in 0..u64::MAX {
        let is_first = index == 0;
        let read = read_record(streams, &mut reader, lines, is_first, &mut record)?;
        if read == ReadRecord::Nothing {
            return Ok(report);
        }
        let text = bytes_behind(&record, 0, is_first);
        let ran = explain_record(rt, streams, explainer, lines, &mut finder, text)?;
        report = joined(report, ran);
        if report.is_stopped {
            return Ok(report);
        }
    }
    Ok(report)
}

/// Explains the chosen fields of the arguments, each of which is a line without a header.
fn explain_words(
    rt: &HostRuntime,
    streams: &mut Streams,
    explainer: &Explainer<'_, '_>,
    lines: &mut LineSettings,
    words: &[&str],
) -> Result<Report, RunError> {
    lines.header = 0;
    let mut report = nothing(rt.alloc());
    let mut number = 0u64;
    for word in words {
        number = number.saturating_add(1);
        lines.source = Source::Word(number);
        let mut finder = NumberFinder::new(rt.alloc(), lines);
        let line = word.as_bytes();
        let ran = explain_record(rt, streams, explainer, lines, &mut finder, line)?;
        report = joined(report, ran);
        if report.is_stopped {
            return Ok(report);
        }
    }
    Ok(report)
}

/// Explains the chosen fields of the arguments, or else those of standard input, behind the line
/// that says what they go by.
pub(crate) fn explain_fields(
    rt: &HostRuntime,
    streams: &mut Streams,
    explainer: &Explainer<'_, '_>,
    lines: &mut LineSettings,
    heading: &[u8],
    numbers: Option<&[&str]>,
) -> Result<Report, RunError> {
    put(streams, heading)?;
    match numbers {
        Some(words) => explain_words(rt, streams, explainer, lines, words),
        None => explain_input(rt, streams, explainer, lines),
    }
}
