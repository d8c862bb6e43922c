//! A run over memory that ends in an error: what is seen of it, asked once more where memory ran
//! out.

use crate::reports::slow::{Full, SlowWriter};
use fixed_decimal::{SignDisplay, SignedRoundingMode, UnsignedRoundingMode};
use icu_provider::DataLocale;
use locnum_lines::{Delimiter, FieldRange, LineSettings, Refusals, Report, RunError, Source, run};
use number_formatters::{Kind, Settings};
use number_forms::{Form, StartError};
use rows::SlowReader;
use std::alloc::{AllocError, Global};

/// Tables of English numbers in full.
const ENGLISH: &str =
    "{\"symbols\":[{\"locale\":\"en\",\"minus\":[\"-\",\"\"],\"plus\":[\"+\",\"\"],\
    \"decimal\":\".\",\"group\":\",\",\"numsys\":\"latn\",\"sizes\":[3,3,1]}],\
    \"digits\":[[\"latn\",\"0123456789\"]]}";

/// What a run leaves: its error, its output and its notes.
#[derive(Clone, Copy)]
pub(crate) struct Left<'a> {
    pub(crate) error: RunError,
    pub(crate) output: &'a [u8],
    pub(crate) notes: &'a [u8],
}

/// What is seen of a run.
#[derive(Clone, Copy, PartialEq, Eq)]
enum Seen {
    Holds,
    Differs,
    WantsMemory,
}

/// English numbers in full.
fn english(alloc: Global) -> Result<Form, StartError> {
    let settings = Settings {
        locale: DataLocale::try_from_str("en").unwrap_or_default(),
        system: None,
        grouping: None,
        precision: None,
        mode: SignedRoundingMode::Unsigned(UnsignedRoundingMode::HalfEven),
        hides_zeros_of_whole: false,
        integer_digits: 1,
        scale: 0,
        sign: SignDisplay::Auto,
        kind: Kind::Plain,
    };
    Form::of(alloc, &settings, ENGLISH.as_bytes())
}

/// The first of fields that blanks end; a run goes on behind texts that are rejected.
fn settings(alloc: Global) -> Result<LineSettings, AllocError> {
    Ok(LineSettings {
        delimiter: Delimiter::Blanks,
        fields: vec![in alloc; FieldRange { first: 1, last: 1 }]?,
        names: Vec::new(alloc),
        header: 0,
        end: b'\n',
        refusals: Refusals::Fail,
        padding: None,
        source: Source::Lines,
    })
}

/// Whether a run ended in this error.
fn is_error(ended: &Result<Report, RunError>, error: RunError) -> bool {
    match ended {
        Ok(_) => false,
        Err(found) => *found == error,
    }
}

/// What is seen where these bytes are read, of which `good` can be, and each writer has this room.
fn seen_by(
    form: &Form,
    settings: &LineSettings,
    alloc: Global,
    (bytes, good, at_once): (&[u8], usize, usize),
    (room, full): (usize, Full),
    left: Left<'_>,
) -> Seen {
    let mut reader = SlowReader {
        bytes,
        good,
        at_once,
    };
    let mut writer = SlowWriter {
        held: Vec::new(alloc),
        room,
        full,
    };
    let mut notes = SlowWriter {
        held: Vec::new(alloc),
        room,
        full,
    };
    let ended = run(alloc, settings, form, &mut reader, &mut writer, &mut notes);
    if is_error(&ended, RunError::OutOfMemory) {
        return Seen::WantsMemory;
    }
    let is_written = writer.held.as_slice() == left.output && notes.held.as_slice() == left.notes;
    if is_error(&ended, left.error) && is_written {
        Seen::Holds
    } else {
        Seen::Differs
    }
}

/// Whether a run over these bytes leaves that, asked once more where memory ran out.
fn holds_by(
    made: Option<(Form, LineSettings)>,
    alloc: Global,
    input: (&[u8], usize, usize),
    output: (usize, Full),
    left: Left<'_>,
) -> bool {
    match made {
        Some((form, settings)) => {
            let first = seen_by(&form, &settings, alloc, input, output, left);
            first == Seen::Holds
                || (first == Seen::WantsMemory
                    && seen_by(&form, &settings, alloc, input, output, left) == Seen::Holds)
        }
        None => false,
    }
}

/// The form and the settings.
fn made(alloc: Global) -> Option<(Form, LineSettings)> {
    let form = english(alloc).ok();
    let settings = settings(alloc).ok();
    form.zip(settings)
}

/// Whether a run leaves that, read and written in such pieces; asked once more where there was no
/// memory for what it needs.
pub(crate) fn runs(
    alloc: Global,
    input: (&[u8], usize, usize),
    output: (usize, Full),
    left: Left<'_>,
) -> bool {
    holds_by(made(alloc), alloc, input, output, left)
        || holds_by(made(alloc), alloc, input, output, left)
}
