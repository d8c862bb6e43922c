//! `locnum`: numbers in arguments or in fields of lines, in the form of a locale.
#![tactic(auto)]

mod built;
mod command;
mod ending;
mod english;
mod entries;
mod explained;
mod explained_fields;
mod faults;
mod headings;
mod held;
mod lacks;
mod listed;
mod lone_locale;
mod message_arguments;
mod message_forms;
mod message_given;
mod message_lines;
mod message_rules;
mod message_run;
mod message_wanted;
mod mistakes;
mod near;
mod options;
mod positions;
mod range_given;
mod range_lines;
mod range_notes;
mod range_output;
mod ranges;
mod read_tables;
mod running;
mod streams;
mod tables;
mod words;

use clap::ArgMatches;
use command::{command, given};
use headings::heading_of;
use icu_provider::DataLocale;
use locnum_lines::LineSettings;
use locnum_options::{Environment, Explain, Given, OptionFault, Options, parse_options};
use lone_locale::locale_of_tables;
use message_given::source_given;
use message_run::MessageRun;
use mistakes::status_of_words;
use number_formatters::Settings;
use number_forms::{Form, StartError};
use range_given::{RangeColumns, RangeFault, columns_given, failure_of_options, judge_range};
use range_lines::run_range_fields;
use ranges::{has_range, note_of_no_ranges, run_ranges};
use read_tables::read_tables;
use running::run_formed;
use std::alloc::AllocError;
use std::io::{ErrorKind, Write};
use std::process::ExitCode;
use std::{env, str};
use streams::status_of_output;
use tables::{ListResult, TablesFile, list, note_of_failure, note_of_system};
use words::{marked, numbers_given};

/// What a note begins with.
const START: &[u8] = b"locnum: ";

/// Why the program ends early.
#[derive(Clone, Copy)]
enum Failure {
    OutOfMemory,
    Words,
    Names,
    Options(OptionFault),
    Range(RangeFault),
    /// It is reported.
    Reported,
}

impl From<AllocError> for Failure {
    fn from(_error: AllocError) -> Failure {
        Failure::OutOfMemory
    }
}

/// The arguments of the command line, with the program's name.
fn words_given(rt: &HostRuntime) -> Result<Vec<String>, Failure> {
    let given = match env::args(rt) {
        Ok(given) => given,
        Err(error) if error.kind() == ErrorKind::OutOfMemory => return Err(Failure::OutOfMemory),
        Err(_) => return Err(Failure::Words),
    };
    match given.collect(rt.alloc()) {
        Ok(words) => Ok(words),
        Err(_) => Err(Failure::OutOfMemory),
    }
}

/// Writes a note to standard error.
fn put_note(rt: &HostRuntime, note: &[u8]) -> Failure {
    let _ = rt.stderr().write_all(note);
    Failure::Reported
}

/// Why there is no form by the tables; it is reported in a note that begins with these bytes.
fn failure_of(
    rt: &HostRuntime,
    start: &[u8],
    settings: &Settings<'_>,
    file: TablesFile<'_>,
    error: StartError,
) -> Failure {
    if error == StartError::OutOfMemory {
        return Failure::OutOfMemory;
    }
    match note_of_failure(rt.alloc(), start, file, settings, error) {
        Ok(note) => put_note(rt, &note),
        Err(_) => Failure::OutOfMemory,
    }
}

/// The locale of a file of tables that has one alone, where none is asked for.
fn only_locale(
    rt: &HostRuntime,
    matches: &ArgMatches<'_>,
    file: TablesFile<'_>,
) -> Option<DataLocale> {
    if file.path.is_none() || matches.contains_id("locale") {
        return None;
    }
    let text = str::from_utf8(file.bytes).ok()?;
    locale_of_tables(rt.alloc(), text)
}

/// What is asked for, in this locale if there is one.
fn in_locale<'a>(options: Options<'a>, locale: Option<DataLocale>) -> Options<'a> {
    let Some(locale) = locale else {
        return options;
    };
    let Options {
        settings,
        lines,
        explain,
    } = options;
    Options {
        settings: Settings { locale, ..settings },
        lines,
        explain,
    }
}

/// The status of ranges that were run; or why they weren't, which is reported.
fn status_of_ranges(
    rt: &HostRuntime,
    settings: &Settings<'_>,
    file: TablesFile<'_>,
    ran: Result<u8, StartError>,
) -> Result<u8, Failure> {
    match ran {
        Ok(status) => Ok(status),
        Err(StartError::NoData) => {
            let note = note_of_no_ranges(rt.alloc(), file, settings)?;
            Err(put_note(rt, &note))
        }
        Err(error) => Err(failure_of(rt, START, settings, file, error)),
    }
}

/// Runs words some of which are ranges; the status.
fn run_ranges_by(
    rt: &HostRuntime,
    options: Options<'_>,
    file: TablesFile<'_>,
    form: &Form,
    words: &[&str],
) -> Result<u8, Failure> {
    let settings = options.settings;
    let ran = run_ranges(rt, &settings, options.lines, file, form, words);
    status_of_ranges(rt, &settings, file, ran)
}

/// Runs ranges of two fields; the status.
fn run_fields_by(
    rt: &HostRuntime,
    options: &Options<'_>,
    columns: RangeColumns,
    file: TablesFile<'_>,
    form: &Form,
) -> Result<u8, Failure> {
    let settings = &options.settings;
    let ran = run_range_fields(rt, settings, &options.lines, columns, file, form);
    status_of_ranges(rt, settings, file, ran)
}

/// Runs what is asked for by the tables; the status.
fn run_by_tables(
    rt: &HostRuntime,
    matches: &ArgMatches<'_>,
    options: Options<'_>,
    columns: Option<RangeColumns>,
    file: TablesFile<'_>,
) -> Result<u8, Failure> {
    let options = in_locale(options, only_locale(rt, matches, file));
    let form = match Form::of(rt.alloc(), &options.settings, file.bytes) {
        Ok(form) => form,
        Err(error) => return Err(failure_of(rt, START, &options.settings, file, error)),
    };
    if let Some(note) = note_of_system(rt.alloc(), START, file, &options.settings)? {
        return Err(put_note(rt, &note));
    }
    if let Some(columns) = columns {
        return run_fields_by(rt, &options, columns, file, &form);
    }
    let numbers = numbers_given(rt.alloc(), matches)?;
    if let Some(source) = source_given(rt, matches)? {
        let run = MessageRun {
            form: &form,
            file,
            locale: options.settings.locale,
            numbers: numbers.as_deref(),
        };
        let mut lines = options.lines;
        return run.run(rt, &mut lines, source);
    }
    if let (Some(words), Explain::Nothing) = (numbers.as_deref(), options.explain) {
        if has_range(words) {
            return run_ranges_by(rt, options, file, &form, words);
        }
    }
    let heading = heading_of(rt.alloc(), matches, file, &options.settings)?;
    Ok(run_formed(rt, matches, options, &form, &heading, numbers.as_deref()))
}

/// Lists what the tables hold, of a locale where one is asked for; the status.
fn list_asked(
    rt: &HostRuntime,
    settings: &Settings<'_>,
    file: TablesFile<'_>,
    word: &str,
    has_locale: bool,
) -> Result<u8, Failure> {
    let locale = if has_locale {
        Some(settings.locale.as_str())
    } else {
        None
    };
    match list(rt.alloc(), file, word, locale)? {
        ListResult::Lines(lines) => Ok(status_of_output(rt, rt.stdout().write_all(&lines))),
        ListResult::Note(note) => Err(put_note(rt, &note)),
    }
}

/// Rejects names of columns beside numbers as arguments.
fn reject_names(matches: &ArgMatches<'_>, lines: &LineSettings) -> Result<(), Failure> {
    if !lines.names.is_empty() && matches.contains_id("number") {
        return Err(Failure::Names);
    }
    Ok(())
}

/// Runs what is asked for, or lists it, by the tables of the arguments or else these; the status.
fn run_options(
    rt: &HostRuntime,
    matches: &ArgMatches<'_>,
    options: Options<'_>,
    tables: Option<&str>,
) -> Result<u8, Failure> {
    let columns = columns_given(matches, &options.lines)?;
    reject_names(matches, &options.lines)?;
    let path = matches.get_str("tables").or(tables);
    let read = read_tables(rt, path, options.settings.locale.as_str())?;
    let file = TablesFile {
        path: read.path.as_deref(),
        bytes: &read.bytes,
    };
    match matches.get_str("list") {
        Some(word) => {
            list_asked(
                rt,
                &options.settings,
                file,
                word,
                matches.contains_id("locale"),
            )
        }
        None => run_by_tables(rt, matches, options, columns, file),
    }
}

/// The text of a variable of the environment, if it is set.
fn variable(rt: &HostRuntime, name: &str) -> Option<String> {
    env::var(rt, name).ok()
}

/// The tables that the environment names, if it does.
fn tables_of_environment(rt: &HostRuntime) -> Option<String> {
    let path = variable(rt, "TALMUIGA_TABLES")?;
    if path.is_empty() { None } else { Some(path) }
}

/// Runs what the arguments ask for; the status.
fn run_asked(rt: &HostRuntime, matches: &ArgMatches<'_>) -> Result<u8, Failure> {
    let all = variable(rt, "LC_ALL");
    let numeric = variable(rt, "LC_NUMERIC");
    let language = variable(rt, "LANG");
    let environment = Environment {
        all: all.as_deref(),
        numeric: numeric.as_deref(),
        language: language.as_deref(),
    };
    judge_range(matches)?;
    let options = given(rt.alloc(), matches)?;
    let given = Given {
        options: &options,
        environment,
    };
    match parse_options(rt.alloc(), &given) {
        Ok(options) => {
            let tables = tables_of_environment(rt);
            run_options(rt, matches, options, tables.as_deref())
        }
        Err(fault) => Err(failure_of_options(matches, fault)),
    }
}

/// Reports why the program ends early.
fn report(rt: &HostRuntime, failure: Failure) {
    let _ = match failure {
        Failure::OutOfMemory => rt.eprintln("locnum: out of memory"),
        Failure::Words => rt.eprintln("locnum: the arguments aren't UTF-8"),
        Failure::Names => {
            rt.eprintln("locnum: --field: names are those of a header, and arguments have none")
        }
        Failure::Options(fault) => eprintln!(rt; "locnum: {fault}"),
        Failure::Range(fault) => eprintln!(rt; "locnum: {fault}"),
        Failure::Reported => Ok(()),
    };
}

/// The status of the program.
fn status(rt: &HostRuntime, words: &[String]) -> Result<u8, Failure> {
    let words = marked(rt.alloc(), words)?;
    let command = command(rt.alloc())?;
    match command.try_get_matches_from(&words) {
        Ok(matches) => run_asked(rt, &matches),
        Err(error) => Ok(status_of_words(rt, &error)),
    }
}

/// The status, whether the program ends early or not.
fn ended(rt: &HostRuntime) -> u8 {
    let ended = match words_given(rt) {
        Ok(words) => status(rt, &words),
        Err(failure) => Err(failure),
    };
    match ended {
        Ok(status) => status,
        Err(failure) => {
            report(rt, failure);
            1
        }
    }
}

fn main(rt: HostRuntime) -> ExitCode {
    ExitCode::from(ended(&rt))
}
