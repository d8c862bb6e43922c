//! What ranges of fields write, and how far they are.

use crate::explained::put;
use crate::streams::Streams;
use locnum_lines::{LineSettings, NumberFinder, RunError};
use locnum_ranges::{RangeFields, push_front, push_record};
use std::alloc::{AllocError, Global};
use std::io::Write;

/// How many bytes are written at once, or a record more.
const BLOCK_LEN: usize = 65536;

/// How far a run of ranges of fields is.
#[derive(Drop)]
pub(crate) struct RangeRun {
    /// Finds the two numbers of a record.
    pub(crate) finder: NumberFinder,
    /// The two fields, as soon as they are known.
    pub(crate) fields: Option<RangeFields>,
    /// What isn't written yet.
    pub(crate) out: Vec<u8>,
}

/// The record that is read, and the byte that ends it, if one does.
#[derive(Clone, Copy)]
pub(crate) struct Record<'a> {
    /// All of it but that byte.
    pub(crate) text: &'a [u8],
    /// That byte, or nothing.
    pub(crate) end: &'a [u8],
}

/// The call's answer, unless memory ran out.
pub(crate) fn or_memory(pushed: Result<(), AllocError>) -> Result<(), RunError> {
    match pushed {
        Ok(()) => Ok(()),
        Err(_) => Err(RunError::OutOfMemory),
    }
}

impl RangeRun {
    /// In front of an input; the fields are known if they are chosen by number.
    pub(crate) fn new(
        alloc: Global,
        lines: &LineSettings,
        fields: Option<RangeFields>,
    ) -> RangeRun {
        RangeRun {
            finder: NumberFinder::new(alloc, lines),
            fields,
            out: Vec::new(alloc),
        }
    }

    /// Writes what isn't written yet.
    pub(crate) fn flush(&mut self, streams: &mut Streams) -> Result<(), RunError> {
        put(streams, &self.out)?;
        self.out.clear();
        Ok(())
    }

    /// Writes what isn't written yet, if it is a block.
    pub(crate) fn flush_block(&mut self, streams: &mut Streams) -> Result<(), RunError> {
        if self.out.len() < BLOCK_LEN {
            return Ok(());
        }
        self.flush(streams)
    }

    /// A record as it is.
    pub(crate) fn pass(&mut self, record: Record<'_>) -> Result<(), RunError> {
        or_memory(self.out.extend_from_slice(record.text))?;
        or_memory(self.out.extend_from_slice(record.end))
    }

    /// A record with the range of its two fields; without one the field of the end is left out all
    /// the same.
    pub(crate) fn push(
        &mut self,
        alloc: Global,
        lines: &LineSettings,
        fields: RangeFields,
        range: Option<&[u8]>,
        record: Record<'_>,
    ) -> Result<(), RunError> {
        or_memory(push_record(alloc, lines, fields, range, record.text, &mut self.out))?;
        or_memory(self.out.extend_from_slice(record.end))
    }

    /// What is left of a record at whose range the run stops.
    pub(crate) fn push_front(
        &mut self,
        lines: &LineSettings,
        fields: RangeFields,
        record: Record<'_>,
    ) -> Result<(), RunError> {
        or_memory(push_front(lines.delimiter, fields, record.text, &mut self.out))
    }

    /// Writes a note behind what isn't written yet.
    pub(crate) fn note(&mut self, streams: &mut Streams, note: &[u8]) -> Result<(), RunError> {
        self.flush(streams)?;
        match streams.notes.write_all(note) {
            Ok(()) => Ok(()),
            Err(_) => Err(RunError::Write),
        }
    }

    /// Writes the note of what ended the search.
    pub(crate) fn note_end(&mut self, streams: &mut Streams) -> Result<(), RunError> {
        self.flush(streams)?;
        match streams.notes.write_all(self.finder.notes()) {
            Ok(()) => Ok(()),
            Err(_) => Err(RunError::Write),
        }
    }
}
