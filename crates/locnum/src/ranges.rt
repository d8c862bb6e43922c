//! Words that are ranges, as `3..5`.

use crate::ending::status_of_run;
use crate::streams::Streams;
use crate::tables::TablesFile;
use crate::words::{nothing, run_words};
use icu_decimal_options::preferences::DecimalFormatterPreferences;
use icu_plurals::PluralRulesPreferences;
use icu_provider::DataErrorKind;
use icu_range_tables::{RangeTables, TableError};
use icu_ranges::{PluralRanges, RangeIdentityFallback, RangePattern, RangeStyle};
use icu_unit_ranges::PluralRangeStyle;
use itoa::Buffer;
use locnum_lines::{LineSettings, Refusals, Report, RunError, push_padded};
use number_formatters::Settings;
use number_forms::{Form, StartError, push_reported};
use number_ranges::{RangeTextError, push_range};
use std::alloc::{AllocError, Global};
use std::io::Write;
use std::str;

/// What stands between the two numbers of a range.
const BETWEEN: &str = "..";

/// The two texts of a word that is a range: what stands in front of `..` and behind it, neither
/// empty.
pub(crate) fn ends_of(word: &str) -> Option<(&str, &str)> {
    let (start, end) = word.split_once(BETWEEN)?;
    if start.is_empty() || end.is_empty() {
        None
    } else {
        Some((start, end))
    }
}

/// Whether some word is a range.
pub(crate) fn has_range(words: &[&str]) -> bool {
    words.iter().any(|word| ends_of(word).is_some())
}

/// The pattern of tables of ranges for the locale and the numbering system.
fn pattern_in(
    alloc: Global,
    tables: &RangeTables,
    settings: &Settings<'_>,
) -> Result<RangePattern, StartError> {
    let prefs = DecimalFormatterPreferences {
        locale_preferences: settings.locale,
        numbering_system: settings.system,
    };
    match RangePattern::try_new_unstable(alloc, tables, prefs) {
        Ok(pattern) => Ok(pattern),
        Err(error) => match error.kind {
            DataErrorKind::OutOfMemory => Err(StartError::OutOfMemory),
            _ => Err(StartError::NoData),
        },
    }
}

/// The categories of ranges of tables of ranges for the locale; none where the tables have none.
fn plural_ranges_in(
    alloc: Global,
    tables: &RangeTables,
    settings: &Settings<'_>,
) -> Result<PluralRanges, StartError> {
    let prefs = PluralRulesPreferences {
        locale_preferences: settings.locale,
    };
    match PluralRanges::try_new_unstable(alloc, tables, prefs) {
        Ok(ranges) => Ok(ranges),
        Err(error) => match error.kind {
            DataErrorKind::OutOfMemory => Err(StartError::OutOfMemory),
            _ => Ok(PluralRanges::empty(alloc)),
        },
    }
}

/// What tables say of ranges for the locale and the numbering system.
#[derive(Drop)]
pub(crate) struct RangeData {
    pattern: RangePattern,
    plural_ranges: PluralRanges,
}

impl RangeData {
    /// How two numbers are written as one range.
    pub(crate) fn style(&self) -> PluralRangeStyle<'_> {
        PluralRangeStyle {
            style: RangeStyle {
                pattern: &self.pattern,
                fallback: RangeIdentityFallback::Approximately,
            },
            plural_ranges: &self.plural_ranges,
        }
    }
}

/// What tables of ranges say of ranges for the locale and the numbering system.
fn data_in(
    alloc: Global,
    tables: &RangeTables,
    settings: &Settings<'_>,
) -> Result<RangeData, StartError> {
    let pattern = pattern_in(alloc, tables, settings)?;
    let plural_ranges = plural_ranges_in(alloc, tables, settings)?;
    Ok(RangeData {
        pattern,
        plural_ranges,
    })
}

/// What a file of tables says of ranges.
pub(crate) fn data_of(
    alloc: Global,
    file: &[u8],
    settings: &Settings<'_>,
) -> Result<RangeData, StartError> {
    let Ok(text) = str::from_utf8(file) else {
        return Err(StartError::NotUtf8);
    };
    match RangeTables::from_json(alloc, text) {
        Ok(tables) => data_in(alloc, &tables, settings),
        Err(TableError::OutOfMemory) => Err(StartError::OutOfMemory),
        Err(error) => Err(StartError::Refused(error)),
    }
}

/// The note that says that the tables have no ranges.
pub(crate) fn note_of_no_ranges(
    alloc: Global,
    file: TablesFile<'_>,
    settings: &Settings<'_>,
) -> Result<Vec<u8>, AllocError> {
    let mut note = Vec::from_slice(alloc, b"locnum: ")?;
    match file.path {
        Some(path) => push_reported(path.as_bytes(), &mut note)?,
        None => note.extend_from_slice(b"the tables in the program")?,
    }
    note.extend_from_slice(b": no ranges for locale ")?;
    note.extend_from_slice(settings.locale.as_str().as_bytes())?;
    note.extend_from_slice(b"; cldr_to_tables.py --ranges writes them\n")?;
    Ok(note)
}

/// The note of a word that isn't written as a range.
fn note_of(
    alloc: Global,
    number: u64,
    word: &str,
    error: RangeTextError,
) -> Result<Vec<u8>, AllocError> {
    let mut digits = Buffer::new();
    let mut note = Vec::from_slice(alloc, b"locnum: word ")?;
    note.extend_from_slice(digits.format(number).as_bytes())?;
    note.extend_from_slice(b": ")?;
    push_reported(word.as_bytes(), &mut note)?;
    note.extend_from_slice(b": ")?;
    note.extend_from_slice(format!(in alloc; "{error}")?.as_bytes())?;
    note.push(b'\n')?;
    Ok(note)
}

/// Writes all of some bytes.
fn write_to<W: Write>(writer: &mut W, bytes: &[u8]) -> Result<(), RunError> {
    match writer.write_all(bytes) {
        Ok(()) => Ok(()),
        Err(_) => Err(RunError::Write),
    }
}

/// Writes a text as a line.
fn write_line(
    alloc: Global,
    streams: &mut Streams,
    settings: &LineSettings,
    text: &[u8],
) -> Result<(), RunError> {
    let mut line = Vec::new(alloc);
    let Ok(()) = push_padded(settings.padding, text, &mut line) else {
        return Err(RunError::OutOfMemory);
    };
    let Ok(()) = line.push(settings.end) else {
        return Err(RunError::OutOfMemory);
    };
    write_to(&mut streams.output, &line)
}

/// What happens at a word that isn't written as a range.
fn refuse(
    alloc: Global,
    streams: &mut Streams,
    settings: &LineSettings,
    number: u64,
    word: &str,
    error: RangeTextError,
) -> Result<Report, RunError> {
    let mut report = nothing(alloc);
    report.is_refused = true;
    report.is_stopped = settings.refusals == Refusals::Abort;
    if settings.refusals != Refusals::Ignore {
        let Ok(note) = note_of(alloc, number, word, error) else {
            return Err(RunError::OutOfMemory);
        };
        write_to(&mut streams.notes, &note)?;
    }
    if !report.is_stopped {
        write_line(alloc, streams, settings, word.as_bytes())?;
    }
    Ok(report)
}

/// Runs a word that is a range.
pub(crate) fn run_range(
    alloc: Global,
    streams: &mut Streams,
    settings: &LineSettings,
    form: &Form,
    style: &PluralRangeStyle<'_>,
    number: u64,
    word: &str,
    (start, end): (&str, &str),
) -> Result<Report, RunError> {
    let mut text = Vec::new(alloc);
    match push_range(
        alloc,
        form,
        style,
        start.as_bytes(),
        end.as_bytes(),
        &mut text,
    ) {
        Ok(()) => {
            write_line(alloc, streams, settings, &text)?;
            Ok(nothing(alloc))
        }
        Err(RangeTextError::OutOfMemory) => Err(RunError::OutOfMemory),
        Err(error) => refuse(alloc, streams, settings, number, word, error),
    }
}

/// Runs words some of which are ranges; the status.
fn run_by_data(
    rt: &HostRuntime,
    mut lines: LineSettings,
    data: &RangeData,
    form: &Form,
    words: &[&str],
) -> u8 {
    let style = data.style();
    let mut streams = Streams::new(rt);
    let ran = run_words(rt, &mut streams, &mut lines, form, Some(&style), words);
    if let Err(error) = &ran {
        streams.report(rt, *error);
    }
    status_of_run(lines.refusals, streams.is_reader_gone(), &ran)
}

/// Runs words some of which are ranges by what a file of tables says of ranges; the status, or why
/// it has no pattern of ranges.
pub(crate) fn run_ranges(
    rt: &HostRuntime,
    settings: &Settings<'_>,
    lines: LineSettings,
    file: TablesFile<'_>,
    form: &Form,
    words: &[&str],
) -> Result<u8, StartError> {
    let data = data_of(rt.alloc(), file.bytes, settings)?;
    Ok(run_by_data(rt, lines, &data, form, words))
}
