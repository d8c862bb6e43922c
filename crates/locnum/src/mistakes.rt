//! Arguments that aren't taken, and what `--help` and `--version` print.

use crate::streams::status_of_output;
use clap::Error;
use clap::error::ErrorKind;
use std::alloc::{AllocError, Global};

/// Options of `numfmt` that this program doesn't have, and what it has instead.
const ABSENT: [(&str, &str); 9] = [
    (
        "--debug",
        "--invalid says what becomes of texts that are no numbers",
    ),
    ("--dev-debug", "--explain shows how a number was written"),
    ("--format", "--fraction, --padding and --sign say the form"),
    ("--from", "numbers are read without suffixes"),
    (
        "--from-unit",
        "--scale multiplies numbers by a power of ten",
    ),
    (
        "--suffix",
        "--currency, --percent, --permille and --unit write what stands beside numbers",
    ),
    (
        "--to",
        "--style=short and --style=long write compact numbers",
    ),
    (
        "--to-unit",
        "--scale multiplies numbers by a power of ten, such as 0.001",
    ),
    (
        "--unit-separator",
        "the patterns of the locale separate units",
    ),
];

/// What this program has instead of an option of `numfmt`.
fn instead_of(option: &str) -> Option<&'static str> {
    for (name, instead) in &ABSENT {
        if *name == option {
            return Some(*instead);
        }
    }
    None
}

/// What stands between the first two apostrophes of a text.
fn quoted(text: &str) -> Option<&str> {
    let (_, behind) = text.split_once('\'')?;
    let (inside, _) = behind.split_once('\'')?;
    Some(inside)
}

/// How the lines of texts of `clap` begin that are left out.
const LEFT_OUT: [&str; 3] = ["Usage:", "For more information", "tip: to pass"];

/// A line of a text of `clap`, as this program has it; none of what is left out.
fn line_of(line: &str) -> Option<&str> {
    let line = line.trim();
    if line.is_empty() || LEFT_OUT.iter().any(|start| line.starts_with(*start)) {
        return None;
    }
    let line = line.strip_prefix("error: ").unwrap_or(line);
    Some(line.strip_prefix("tip: ").unwrap_or(line))
}

/// The lines of a text of `clap`, each behind the program's name.
fn lines_of(alloc: Global, text: &str) -> Result<String, AllocError> {
    let mut lines = String::new(alloc);
    for line in text.lines() {
        if let Some(line) = line_of(line) {
            lines.push_str("locnum: ")?;
            lines.push_str(line)?;
            lines.push_str("\n")?;
        }
    }
    lines.push_str("locnum: --help lists the options\n")?;
    Ok(lines)
}

/// What is reported of arguments that aren't taken.
fn mistake_of(alloc: Global, error: &Error) -> Result<String, AllocError> {
    let text = format!(in alloc; "{error}")?;
    if error.kind() == ErrorKind::UnknownArgument {
        if let Some(option) = quoted(text.as_str()) {
            if let Some(instead) = instead_of(option) {
                return format!(in alloc; "locnum: {option} is an option of numfmt; {instead}\n");
            }
        }
    }
    lines_of(alloc, text.as_str())
}

/// Prints what the arguments ask for, or reports why they aren't taken; the status.
pub(crate) fn status_of_words(rt: &HostRuntime, error: &Error) -> u8 {
    if !error.use_stderr() {
        return status_of_output(rt, error.print(rt));
    }
    let _ = match mistake_of(rt.alloc(), error) {
        Ok(text) => eprint!(rt; "{text}"),
        Err(_) => rt.eprintln("locnum: out of memory"),
    };
    1
}
