//! The two fields whose ranges are asked for.

use crate::Failure;
use clap::ArgMatches;
use locnum_lines::{FieldRange, LineSettings};
use locnum_options::OptionFault;
use locnum_ranges::RangeFields;
use thiserror::Error;

/// Why ranges of fields are rejected.
#[derive(Clone, Copy, Debug, PartialEq, Eq, Error)]
pub(crate) enum RangeFault {
    /// They are asked for with an option beside which they don't stand.
    #[error("--range: not with --{0}")]
    Beside(&'static str),
    /// They are asked for with numbers as arguments.
    #[error("--range: not with numbers as arguments")]
    Numbers,
    /// The text isn't two numbers of fields or two names.
    #[error("--range: not two fields N,M, from 1 on, nor two names")]
    Fields,
    /// Both fields are the same one.
    #[error("--range: both fields are the same")]
    Same,
    /// The fields are named by a header that isn't asked for.
    #[error("--range: names are those of a header, which --header asks for")]
    Names,
}

/// The two fields of ranges.
#[derive(Clone, Copy)]
pub(crate) enum RangeColumns {
    /// By their numbers.
    Numbers(RangeFields),
    /// By the two names of the lines' settings.
    Names,
}

/// Options beside which ranges of fields don't stand.
const APART: [&str; 5] = ["field", "explain", "message", "messages", "id"];

/// Whether an option is given; `--explain` has no text.
fn is_given(matches: &ArgMatches<'_>, name: &str) -> bool {
    if name == "explain" {
        return matches.get_flag(name);
    }
    matches.contains_id(name)
}

/// The first option that is given of those beside which ranges of fields don't stand.
fn apart(matches: &ArgMatches<'_>) -> Option<&'static str> {
    for name in APART {
        if is_given(matches, name) {
            return Some(name);
        }
    }
    None
}

/// Rejects ranges of fields, if they are asked for, beside what they don't stand beside.
pub(crate) fn judge_range(matches: &ArgMatches<'_>) -> Result<(), Failure> {
    if !matches.contains_id("range") {
        return Ok(());
    }
    if let Some(name) = apart(matches) {
        return Err(Failure::Range(RangeFault::Beside(name)));
    }
    if matches.contains_id("number") {
        return Err(Failure::Range(RangeFault::Numbers));
    }
    Ok(())
}

/// Why options are rejected: faults of the chosen fields are those of their ranges where these are
/// asked for.
pub(crate) fn failure_of_options(matches: &ArgMatches<'_>, fault: OptionFault) -> Failure {
    if !matches.contains_id("range") {
        return Failure::Options(fault);
    }
    match fault {
        OptionFault::Fields => Failure::Range(RangeFault::Fields),
        OptionFault::Names => Failure::Range(RangeFault::Names),
        _ => Failure::Options(fault),
    }
}

/// The two fields of these numbers.
fn numbers_of(fields: &[FieldRange]) -> Result<RangeColumns, RangeFault> {
    let [start, end] = fields else {
        return Err(RangeFault::Fields);
    };
    if start.first == end.first {
        return Err(RangeFault::Same);
    }
    Ok(RangeColumns::Numbers(RangeFields {
        start: start.first,
        end: end.first,
    }))
}

/// The two fields of these names.
fn names_of(names: &[String]) -> Result<RangeColumns, RangeFault> {
    let [start, end] = names else {
        return Err(RangeFault::Fields);
    };
    if start == end {
        return Err(RangeFault::Same);
    }
    Ok(RangeColumns::Names)
}

/// The two fields of a text, by the fields or the names that were read of it.
fn columns_of(text: &str, lines: &LineSettings) -> Result<RangeColumns, RangeFault> {
    if !lines.names.is_empty() {
        return names_of(&lines.names);
    }
    if text.contains('-') {
        return Err(RangeFault::Fields);
    }
    numbers_of(&lines.fields)
}

/// The two fields whose ranges are asked for, if they are.
pub(crate) fn columns_given(
    matches: &ArgMatches<'_>,
    lines: &LineSettings,
) -> Result<Option<RangeColumns>, Failure> {
    let Some(text) = matches.get_str("range") else {
        return Ok(None);
    };
    match columns_of(text, lines) {
        Ok(columns) => Ok(Some(columns)),
        Err(fault) => Err(Failure::Range(fault)),
    }
}
