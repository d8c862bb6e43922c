//! What is asked for, run, and what is reported of it.

use crate::ending::status_of_run;
use crate::explained::{Explainer, explain_given, explainer_by_options, explainer_by_skeleton};
use crate::explained_fields::explain_fields;
use crate::headings::Heading;
use crate::streams::Streams;
use crate::words::run_words;
use clap::ArgMatches;
use locnum_lines::{FieldRange, LineSettings, Refusals, Report, RunError, run};
use locnum_options::{Explain, Options};
use number_forms::Form;
use std::str;

/// Runs the numbers among the arguments, or else standard input.
fn run_given(
    rt: &HostRuntime,
    streams: &mut Streams,
    settings: &mut LineSettings,
    form: &Form,
    numbers: Option<&[&str]>,
) -> Result<Report, RunError> {
    if let Some(words) = numbers {
        return run_words(rt, streams, settings, form, None, words);
    }
    let Streams {
        input,
        output,
        notes,
    } = streams;
    run(rt.alloc(), settings, form, input, output, notes)
}

/// The first range of fields that no record reached.
fn unmet(ranges: &[FieldRange], most_fields: usize) -> Option<usize> {
    for range in ranges {
        if range.first > most_fields {
            return Some(range.first);
        }
    }
    None
}

/// Reports what a run that came to its end met: a chosen field that no record has, and a number
/// that holds the delimiter.
pub(crate) fn report_met(rt: &HostRuntime, settings: &LineSettings, report: &Report) {
    if settings.refusals != Refusals::Ignore && !report.is_stopped && report.most_fields > 0 {
        if let Some(field) = unmet(&settings.fields, report.most_fields) {
            let _ = eprintln!(rt; "locnum: no record has field {field}");
        }
    }
    if report.holding.is_empty() {
        return;
    }
    if let Ok(number) = str::from_utf8(&report.holding) {
        let _ = eprintln!(rt; "locnum: {number} holds the delimiter; --csv quotes it");
    }
}

/// Runs what is asked for; explanations are written by the explainer, behind the heading.
fn run_explained(
    rt: &HostRuntime,
    streams: &mut Streams,
    settings: &mut LineSettings,
    explain: Explain,
    explainer: &Explainer<'_, '_>,
    heading: &[u8],
    numbers: Option<&[&str]>,
) -> Result<Report, RunError> {
    match explain {
        Explain::Nothing => run_given(rt, streams, settings, explainer.form, numbers),
        Explain::Lines => explain_given(rt, streams, explainer, heading, numbers),
        Explain::Fields => explain_fields(rt, streams, explainer, settings, heading, numbers),
    }
}

/// Runs what is asked for in this form, and reports what went wrong; the status. The heading stands
/// in front of explanations.
pub(crate) fn run_formed(
    rt: &HostRuntime,
    matches: &ArgMatches<'_>,
    options: Options<'_>,
    form: &Form,
    heading: &Heading,
    numbers: Option<&[&str]>,
) -> u8 {
    let Heading { skeleton, lines } = heading;
    let explain = options.explain;
    let mut settings = options.lines;
    let mut streams = Streams::new(rt);
    let refusals = settings.refusals;
    let ran = match skeleton {
        Some(text) => {
            let explainer = explainer_by_skeleton(rt, text.as_str(), refusals, form);
            run_explained(
                rt,
                &mut streams,
                &mut settings,
                explain,
                &explainer,
                lines,
                numbers,
            )
        }
        None => {
            let explainer = explainer_by_options(rt, matches, refusals, form);
            run_explained(
                rt,
                &mut streams,
                &mut settings,
                explain,
                &explainer,
                lines,
                numbers,
            )
        }
    };
    match &ran {
        Ok(report) => report_met(rt, &settings, report),
        Err(error) => streams.report(rt, *error),
    }
    status_of_run(settings.refusals, streams.is_reader_gone(), &ran)
}
