//! A message for each number among the arguments or in the chosen fields of lines.

use crate::explained::{put, read_line, reader, reported};
use crate::explained_fields::{ReadRecord, bytes_behind, read_record};
use crate::message_arguments::{Fields, NoNumber, arguments, numbers_shown};
use crate::message_wanted::WantedArgument;
use crate::streams::Streams;
use crate::words::{joined, nothing};
use icu_message::{Message, ShownNumber, WriteError};
use icu_plurals::PluralRules;
use locnum_lines::{
    FieldRange, FoundNumber, LineSettings, NumberFinder, Refusals, Report, RunError, Source,
};
use number_forms::{TextError, push_reported};
use std::alloc::{AllocError, Global};
use std::io::Write;

/// What messages are written by.
#[derive(Clone, Copy)]
pub(crate) struct Writer<'a> {
    /// The message.
    pub(crate) message: &'a Message,
    /// The arguments that it wants.
    pub(crate) wanted: &'a [WantedArgument<'a>],
    /// Rules of cardinals.
    pub(crate) cardinal: &'a PluralRules,
    /// Rules of ordinals.
    pub(crate) ordinal: &'a PluralRules,
    /// The byte behind a message.
    pub(crate) end: u8,
    /// What becomes of what is rejected.
    pub(crate) refusals: Refusals,
}

/// How fields are cut, all of which are taken: of a record that is no header.
fn all_fields(alloc: Global, lines: &LineSettings) -> Result<LineSettings, AllocError> {
    let mut fields = Vec::new(alloc);
    fields.push(FieldRange {
        first: 1,
        last: usize::MAX,
    })?;
    Ok(LineSettings {
        delimiter: lines.delimiter,
        fields,
        names: Vec::new(alloc),
        header: 0,
        end: lines.end,
        refusals: lines.refusals,
        padding: None,
        source: lines.source,
    })
}

/// The texts of all fields of a record.
fn fields_of(
    alloc: Global,
    all: &LineSettings,
    record: &[u8],
) -> Result<Vec<FoundNumber>, RunError> {
    let mut finder = NumberFinder::new(alloc, all);
    match finder.find(alloc, all, record) {
        Ok(fields) => Ok(fields),
        Err(_) => Err(RunError::OutOfMemory),
    }
}

/// The note of a text that is no number: where it stands, and why.
fn note_of_text(
    alloc: Global,
    position: &[u8],
    refused: NoNumber<'_>,
) -> Result<Vec<u8>, AllocError> {
    let mut note = Vec::from_slice(alloc, b"locnum: ")?;
    note.extend_from_slice(position)?;
    note.extend_from_slice(b": ")?;
    push_reported(refused.text, &mut note)?;
    let error = refused.error;
    note.extend_from_slice(format!(in alloc; ": {error}\n")?.as_bytes())?;
    Ok(note)
}

/// The note of an argument that the message lacks.
fn note_of_argument(
    alloc: Global,
    position: &[u8],
    message: &Message,
    error: WriteError,
) -> Result<Vec<u8>, AllocError> {
    let (WriteError::MissingArgument { name }
    | WriteError::NotANumber { name }
    | WriteError::NotAText { name }) = error
    else {
        return Err(AllocError);
    };
    let mut note = Vec::from_slice(alloc, b"locnum: ")?;
    note.extend_from_slice(position)?;
    note.extend_from_slice(b": no field ")?;
    note.extend_from_slice(message.word(name))?;
    note.extend_from_slice(b" for the message\n")?;
    Ok(note)
}

impl Writer<'_> {
    /// Reports what is rejected, unless nothing of it is to be reported.
    fn refuse(
        &self,
        rt: &HostRuntime,
        streams: &mut Streams,
        note: Result<Vec<u8>, AllocError>,
    ) -> Result<Report, RunError> {
        let Ok(note) = note else {
            return Err(RunError::OutOfMemory);
        };
        if self.refusals != Refusals::Ignore && streams.notes.write_all(&note).is_err() {
            return Err(RunError::Write);
        }
        Ok(reported(rt, self.refusals == Refusals::Abort, true))
    }

    /// Writes the message of a number, whose arguments are given.
    fn write_given(
        &self,
        rt: &HostRuntime,
        streams: &mut Streams,
        found: &FoundNumber,
        fields: Fields<'_>,
        numbers: &[ShownNumber],
    ) -> Result<Report, RunError> {
        let alloc = rt.alloc();
        let Writer {
            message,
            wanted,
            ..
        } = *self;
        let Ok(given) = arguments(alloc, wanted, numbers, &found.text, fields) else {
            return Err(RunError::OutOfMemory);
        };
        let mut out = Vec::new(alloc);
        match message.write(self.cardinal, self.ordinal, &given, &mut out) {
            Ok(()) => {}
            Err(error) => {
                let note = note_of_argument(alloc, &found.position, message, error);
                return self.refuse(rt, streams, note);
            }
        }
        let Ok(()) = out.push(self.end) else {
            return Err(RunError::OutOfMemory);
        };
        put(streams, &out)?;
        Ok(nothing(alloc))
    }

    /// Writes the message of a number.
    fn write_found(
        &self,
        rt: &HostRuntime,
        streams: &mut Streams,
        found: &FoundNumber,
        fields: Fields<'_>,
    ) -> Result<Report, RunError> {
        let alloc = rt.alloc();
        match numbers_shown(alloc, self.wanted, &found.text, fields) {
            Ok(numbers) => self.write_given(rt, streams, found, fields, &numbers),
            Err(
                NoNumber {
                    error: TextError::OutOfMemory,
                    ..
                },
            ) => Err(RunError::OutOfMemory),
            Err(refused) => {
                let note = note_of_text(alloc, &found.position, refused);
                self.refuse(rt, streams, note)
            }
        }
    }

    /// Writes the messages of the numbers that were found in a record.
    fn write_all_found(
        &self,
        rt: &HostRuntime,
        streams: &mut Streams,
        found: &[FoundNumber],
        fields: Fields<'_>,
    ) -> Result<Report, RunError> {
        let mut report = nothing(rt.alloc());
        for number in found {
            report = joined(report, self.write_found(rt, streams, number, fields)?);
            if report.is_stopped {
                return Ok(report);
            }
        }
        Ok(report)
    }

    /// Writes the messages of a record, and the note of what ends the search.
    fn write_record(
        &self,
        rt: &HostRuntime,
        streams: &mut Streams,
        lines: &LineSettings,
        finder: &mut NumberFinder,
        record: &[u8],
        fields: Fields<'_>,
    ) -> Result<Report, RunError> {
        let Ok(found) = finder.find(rt.alloc(), lines, record) else {
            return Err(RunError::OutOfMemory);
        };
        let mut report = self.write_all_found(rt, streams, &found, fields)?;
        report.most_fields = finder.most_fields();
        if finder.is_stopped() {
            report.is_stopped = true;
            if streams.notes.write_all(finder.notes()).is_err() {
                return Err(RunError::Write);
            }
        }
        Ok(report)
    }

    /// Writes the messages of standard input, in front of which a byte order mark may stand.
    fn write_input(
        &self,
        rt: &HostRuntime,
        streams: &mut Streams,
        lines: &LineSettings,
        all: &LineSettings,
    ) -> Result<Report, RunError> {
        let mut reader = reader(rt)?;
        let mut finder = NumberFinder::new(rt.alloc(), lines);
        let mut record = Vec::new(rt.alloc());
        let mut names = Vec::new(rt.alloc());
        let mut report = nothing(rt.alloc());
        for index in 0..u64::MAX {
            let is_first = index == 0;
            let read = read_record(streams, &mut reader, lines, is_first, &mut record)?;
            if read == ReadRecord::Nothing {
                return Ok(report);
            }
            let text = bytes_behind(&record, 0, is_first);
            let texts = fields_of(rt.alloc(), all, text)?;
            let fields = Fields {
                texts: &texts,
                names: &names,
            };
            let ran = self.write_record(rt, streams, lines, &mut finder, text, fields)?;
            report = joined(report, ran);
            if report.is_stopped {
                return Ok(report);
            }
            if index < lines.header {
                names = texts;
            }
        }
        Ok(report)
    }

    /// Writes the messages of the arguments, each of which is a line without a header.
    fn write_words(
        &self,
        rt: &HostRuntime,
        streams: &mut Streams,
        lines: &mut LineSettings,
        all: &LineSettings,
        words: &[&str],
    ) -> Result<Report, RunError> {
        lines.header = 0;
        let mut report = nothing(rt.alloc());
        let mut number = 0u64;
        for word in words {
            number = number.saturating_add(1);
            lines.source = Source::Word(number);
            let mut finder = NumberFinder::new(rt.alloc(), lines);
            let record = word.as_bytes();
            let texts = fields_of(rt.alloc(), all, record)?;
            let fields = Fields {
                texts: &texts,
                names: &[],
            };
            let ran = self.write_record(rt, streams, lines, &mut finder, record, fields)?;
            report = joined(report, ran);
            if report.is_stopped {
                return Ok(report);
            }
        }
        Ok(report)
    }

    /// Writes the messages of the arguments, or else those of standard input.
    pub(crate) fn write(
        &self,
        rt: &HostRuntime,
        streams: &mut Streams,
        lines: &mut LineSettings,
        numbers: Option<&[&str]>,
    ) -> Result<Report, RunError> {
        let Ok(all) = all_fields(rt.alloc(), lines) else {
            return Err(RunError::OutOfMemory);
        };
        match numbers {
            Some(words) => self.write_words(rt, streams, lines, &all, words),
            None => self.write_input(rt, streams, lines, &all),
        }
    }
}
