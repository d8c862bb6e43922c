//! Numbers in arguments or in lines of standard input, explained.

use crate::streams::Streams;
use crate::words::{joined, nothing};
use clap::ArgMatches;
use locnum_explain::{DigitsBy, Settings, explain_line, explain_lines};
use locnum_lines::{Refusals, Report, RunError, Source, behind_mark};
use number_forms::Form;
use std::io::{BufRead, BufReader, ErrorKind, Stdin, Write};
use std::{env, io};

/// How many columns a line has at most where the environment doesn't say it.
const COLUMNS: usize = 80;

/// The options that say how fine numbers are.
const PRECISIONS: [&str; 3] = ["fraction", "significant", "increment"];

/// How many columns a line has at most: those that the environment says in COLUMNS.
fn columns(rt: &HostRuntime) -> usize {
    let Ok(text) = env::var(rt, "COLUMNS") else {
        return COLUMNS;
    };
    match text.parse() {
        Ok(0) | Err(_) => COLUMNS,
        Ok(columns) => columns,
    }
}

/// How explanations are written.
#[derive(Clone, Copy)]
pub(crate) struct Explainer<'a, 'b> {
    /// The width of lines, and what says how many digits are written.
    pub(crate) settings: Settings<'a>,
    /// The form of numbers.
    pub(crate) form: &'b Form,
    /// Whether the run stops at a text that is rejected.
    pub(crate) stops: bool,
}

/// Writes bytes to standard output.
pub(crate) fn put(streams: &mut Streams, bytes: &[u8]) -> Result<(), RunError> {
    match streams.output.write_all(bytes) {
        Ok(()) => Ok(()),
        Err(_) => Err(RunError::Write),
    }
}

/// What happened where a text was rejected or none was.
pub(crate) fn reported(rt: &HostRuntime, stops: bool, is_refused: bool) -> Report {
    Report {
        is_refused,
        is_stopped: stops && is_refused,
        ..nothing(rt.alloc())
    }
}

/// The option of this name as what says how fine numbers are, if it is given.
fn digits_of<'a>(matches: &ArgMatches<'a>, name: &'static str) -> Option<DigitsBy<'a>> {
    let text = matches.get_str(name)?;
    Some(DigitsBy::Option { name, text })
}

/// Whether numbers are compact.
fn is_compact(matches: &ArgMatches<'_>) -> bool {
    match matches.get_str("style") {
        Some("short") => true,
        Some("long") => true,
        Some(_) => false,
        None => false,
    }
}

/// The style or the currency as what says how fine numbers are.
fn digits_of_kind<'a>(matches: &ArgMatches<'a>) -> DigitsBy<'a> {
    if is_compact(matches) {
        return DigitsBy::Compact;
    }
    match matches.get_str("currency") {
        Some(code) if matches.get_flag("cash") => DigitsBy::Cash(code),
        Some(code) => DigitsBy::Currency(code),
        None => DigitsBy::Given,
    }
}

/// Which of the options says how fine numbers are.
fn digits_by<'a>(matches: &ArgMatches<'a>) -> DigitsBy<'a> {
    for name in PRECISIONS {
        if let Some(digits) = digits_of(matches, name) {
            return digits;
        }
    }
    digits_of_kind(matches)
}

/// How the explanations of an input are written where options say how fine numbers are.
pub(crate) fn explainer_by_options<'a, 'b>(
    rt: &HostRuntime,
    matches: &ArgMatches<'a>,
    refusals: Refusals,
    form: &'b Form,
) -> Explainer<'a, 'b> {
    Explainer {
        settings: Settings {
            width: columns(rt),
            digits: digits_by(matches),
            mode: matches.get_str("round"),
        },
        form,
        stops: refusals == Refusals::Abort,
    }
}

/// How they are written where a skeleton says it.
pub(crate) fn explainer_by_skeleton<'a, 'b>(
    rt: &HostRuntime,
    skeleton: &'a str,
    refusals: Refusals,
    form: &'b Form,
) -> Explainer<'a, 'b> {
    Explainer {
        settings: Settings {
            width: columns(rt),
            digits: DigitsBy::Option {
                name: "skeleton",
                text: skeleton,
            },
            mode: None,
        },
        form,
        stops: refusals == Refusals::Abort,
    }
}

/// Explains the numbers among the arguments.
fn explain_words(
    rt: &HostRuntime,
    streams: &mut Streams,
    explainer: &Explainer<'_, '_>,
    words: &[&str],
) -> Result<Report, RunError> {
    let Explainer {
        settings,
        form,
        stops,
    } = explainer;
    let mut out = Vec::new(rt.alloc());
    let explained = explain_lines(rt.alloc(), settings, *stops, form, words, &mut out);
    let Ok(is_refused) = explained else {
        return Err(RunError::OutOfMemory);
    };
    put(streams, &out)?;
    Ok(reported(rt, *stops, is_refused))
}

/// Explains the number of a line.
fn explain_read(
    rt: &HostRuntime,
    streams: &mut Streams,
    explainer: &Explainer<'_, '_>,
    line: &[u8],
) -> Result<Report, RunError> {
    let Explainer {
        settings,
        form,
        stops,
    } = explainer;
    let mut out = Vec::new(rt.alloc());
    let Ok(is_refused) = explain_line(rt.alloc(), settings, form, line, &mut out) else {
        return Err(RunError::OutOfMemory);
    };
    put(streams, &out)?;
    Ok(reported(rt, *stops, is_refused))
}

/// Why reading failed.
fn failure_of_reading(error: &io::Error) -> RunError {
    match error.kind() {
        ErrorKind::OutOfMemory => RunError::OutOfMemory,
        _ => RunError::Read,
    }
}

/// The reader of standard input.
pub(crate) fn reader(rt: &HostRuntime) -> Result<BufReader<Stdin>, RunError> {
    match BufReader::new(rt.alloc(), rt.stdin()) {
        Ok(reader) => Ok(reader),
        Err(_) => Err(RunError::OutOfMemory),
    }
}

/// Reads a line behind the bytes that are there; how many bytes it has, with its end.
pub(crate) fn read_line(
    streams: &mut Streams,
    reader: &mut BufReader<Stdin>,
    end: u8,
    bytes: &mut Vec<u8>,
) -> Result<usize, RunError> {
    match reader.read_until(end, bytes) {
        Ok(count) => Ok(count),
        Err(error) => {
            streams.input.fail(error);
            Err(failure_of_reading(&error))
        }
    }
}

/// Explains the numbers of the lines of standard input, in front of which a byte order mark may
/// stand.
fn explain_input(
    rt: &HostRuntime,
    streams: &mut Streams,
    explainer: &Explainer<'_, '_>,
) -> Result<Report, RunError> {
    let mut reader = reader(rt)?;
    let mut line = Vec::new(rt.alloc());
    let mut report = nothing(rt.alloc());
    for index in 0..u64::MAX {
        line.clear();
        if read_line(streams, &mut reader, b'\n', &mut line)? == 0 {
            return Ok(report);
        }
        let text = if index == 0 {
            behind_mark(Source::Lines, &line)
        } else {
            line.as_slice()
        };
        // a byte order mark alone is no line
        if text.is_empty() {
            return Ok(report);
        }
        let ran = explain_read(rt, streams, explainer, text)?;
        report = joined(report, ran);
        if report.is_stopped {
            return Ok(report);
        }
    }
    Ok(report)
}

/// Explains the numbers among the arguments, or else those of standard input, each line of which is
/// one, behind the line that says what they go by.
pub(crate) fn explain_given(
    rt: &HostRuntime,
    streams: &mut Streams,
    explainer: &Explainer<'_, '_>,
    heading: &[u8],
    numbers: Option<&[&str]>,
) -> Result<Report, RunError> {
    put(streams, heading)?;
    match numbers {
        Some(words) => explain_words(rt, streams, explainer, words),
        None => explain_input(rt, streams, explainer),
    }
}
