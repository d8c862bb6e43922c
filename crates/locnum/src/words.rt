//! The numbers on the command line.

use crate::ranges::{ends_of, run_range};
use crate::streams::Streams;
use clap::ArgMatches;
use icu_unit_ranges::PluralRangeStyle;
use locnum_lines::{LineSettings, Refusals, Report, RunError, Source, run};
use number_forms::Form;
use std::alloc::{AllocError, Global};
use std::fs;

/// What stands in front of a word like `-.5` or `-3..5`, so that it isn't read as letters of options.
const MARK: char = '\u{1}';

/// Whether an argument is a hyphen, a dot and a digit, and perhaps more; or a hyphen and a digit in
/// front of a range.
fn is_hidden_number(word: &str) -> bool {
    match word.as_bytes() {
        [b'-', b'.', digit, ..] => digit.is_ascii_digit(),
        [b'-', digit, ..] => digit.is_ascii_digit() && ends_of(word).is_some(),
        _ => false,
    }
}

/// An argument, marked if it is a number like `-.5` or a range like `-3..5`.
fn marked_word(alloc: Global, word: &str) -> Result<String, AllocError> {
    let mut marked = String::new(alloc);
    if is_hidden_number(word) {
        marked.push(MARK)?;
    }
    marked.push_str(word)?;
    Ok(marked)
}

/// The arguments, with numbers like `-.5` and ranges like `-3..5` marked.
pub(crate) fn marked(alloc: Global, words: &[String]) -> Result<Vec<String>, AllocError> {
    let mut marked = Vec::new(alloc);
    for word in words {
        marked.push(marked_word(alloc, word.as_str())?)?;
    }
    Ok(marked)
}

/// The numbers among the arguments, without marks; none where there is none.
pub(crate) fn numbers_given<'a>(
    alloc: Global,
    matches: &ArgMatches<'a>,
) -> Result<Option<Vec<&'a str>>, AllocError> {
    let Some(words) = matches.get_strs("number") else {
        return Ok(None);
    };
    let mut numbers = Vec::new(alloc);
    for word in words {
        numbers.push(word.strip_prefix(MARK).unwrap_or(*word))?;
    }
    Ok(Some(numbers))
}

/// What happened before anything was run.
pub(crate) fn nothing(alloc: Global) -> Report {
    Report {
        is_refused: false,
        is_stopped: false,
        most_fields: 0,
        holding: Vec::new(alloc),
    }
}

/// What happened in both of two inputs.
pub(crate) fn joined(first: Report, second: Report) -> Report {
    Report {
        is_refused: first.is_refused || second.is_refused,
        is_stopped: first.is_stopped || second.is_stopped,
        most_fields: first.most_fields.max(second.most_fields),
        holding: if first.holding.is_empty() {
            second.holding
        } else {
            first.holding
        },
    }
}

/// Runs an argument as a line.
fn run_word(
    rt: &HostRuntime,
    streams: &mut Streams,
    settings: &LineSettings,
    form: &Form,
    word: &str,
) -> Result<Report, RunError> {
    let alloc = rt.alloc();
    // an input without a byte has no line
    let end = [settings.end];
    let mut input = if word.is_empty() {
        end.as_slice()
    } else {
        word.as_bytes()
    };
    let Streams { output, notes, .. } = streams;
    run(alloc, settings, form, &mut input, output, notes)
}

/// Runs an argument as a range, if it is one and ranges have a style, and else as a line.
fn run_word_or_range(
    rt: &HostRuntime,
    streams: &mut Streams,
    settings: &LineSettings,
    form: &Form,
    style: Option<&PluralRangeStyle<'_>>,
    number: u64,
    word: &str,
) -> Result<Report, RunError> {
    let Some(style) = style else {
        return run_word(rt, streams, settings, form, word);
    };
    match ends_of(word) {
        Some(ends) => run_range(
            rt.alloc(),
            streams,
            settings,
            form,
            style,
            number,
            word,
            ends,
        ),
        None => run_word(rt, streams, settings, form, word),
    }
}

/// Says what an argument that is no number may have been meant for: standard input, an option's
/// value, or a file.
fn hint(rt: &HostRuntime, word: &str) {
    let _ = if matches!(word, "auto" | "never" | "always" | "min2") {
        eprintln!(rt; "locnum: --grouping takes its word behind =: --grouping={word}")
    } else if word == "-" {
        rt.eprintln("locnum: standard input is read where no number is given")
    } else if let Ok(true) = fs::exists(rt, word) {
        eprintln!(rt; "locnum: to read a file: < {word}")
    } else {
        Ok(())
    };
}

/// Runs the numbers among the arguments, each as a line of its own. They have no header. If ranges
/// have a style, words that are ranges are written in it.
pub(crate) fn run_words(
    rt: &HostRuntime,
    streams: &mut Streams,
    settings: &mut LineSettings,
    form: &Form,
    style: Option<&PluralRangeStyle<'_>>,
    words: &[&str],
) -> Result<Report, RunError> {
    settings.header = 0;
    let mut report = nothing(rt.alloc());
    let mut number = 0u64;
    for word in words {
        number = number.saturating_add(1);
        settings.source = Source::Word(number);
        let ran = run_word_or_range(rt, streams, settings, form, style, number, word)?;
        if ran.is_refused && settings.refusals != Refusals::Ignore {
            hint(rt, word);
        }
        report = joined(report, ran);
        if report.is_stopped {
            return Ok(report);
        }
    }
    Ok(report)
}
