//! Ranges of two fields of lines.

use crate::ending::status_of_run;
use crate::explained::reader;
use crate::explained_fields::{ReadRecord, bytes_behind, read_record};
use crate::range_given::RangeColumns;
use crate::range_notes::note_of_fields;
use crate::range_output::{RangeRun, Record, or_memory};
use crate::ranges::data_of;
use crate::running::report_met;
use crate::streams::Streams;
use crate::tables::TablesFile;
use crate::words::{joined, nothing};
use icu_unit_ranges::PluralRangeStyle;
use locnum_lines::{Delimiter, FoundNumber, LineSettings, RecordState, Refusals, Report, RunError};
use locnum_ranges::{RangeFields, column_named};
use number_formatters::Settings;
use number_forms::{Form, StartError};
use number_ranges::{RangeTextError, push_range};
use std::alloc::Global;

/// What ranges of fields are written by.
#[derive(Clone, Copy)]
struct RangeWriter<'a, 'b> {
    /// How lines are cut.
    lines: &'a LineSettings,
    /// The form of numbers.
    form: &'a Form,
    /// How two numbers are written as one range.
    style: &'a PluralRangeStyle<'b>,
    /// The two fields.
    columns: RangeColumns,
}

/// Whether quotes are open behind a record.
fn is_open(lines: &LineSettings, record: &[u8]) -> bool {
    let mut state = RecordState::new();
    state.pass(lines, record);
    state.is_open()
}

/// The first range that holds the delimiter, if this one does.
fn holding(alloc: Global, delimiter: Delimiter, range: &[u8]) -> Result<Vec<u8>, RunError> {
    let mut holding = Vec::new(alloc);
    if let Delimiter::Byte(delimiter) = delimiter {
        if range.contains(&delimiter) {
            or_memory(holding.extend_from_slice(range))?;
        }
    }
    Ok(holding)
}

impl RangeWriter<'_, '_> {
    /// The two fields, by the last record of the header.
    fn fields_in(&self, alloc: Global, header: &[u8]) -> Result<Option<RangeFields>, RunError> {
        if let RangeColumns::Numbers(fields) = self.columns {
            return Ok(Some(fields));
        }
        let lines = self.lines;
        let [start, end] = lines.names.as_slice() else {
            return Ok(None);
        };
        let delimiter = lines.delimiter;
        let Ok(start) = column_named(alloc, delimiter, start, header) else {
            return Err(RunError::OutOfMemory);
        };
        let Ok(end) = column_named(alloc, delimiter, end, header) else {
            return Err(RunError::OutOfMemory);
        };
        match (start, end) {
            (Some(start), Some(end)) => Ok(Some(RangeFields { start, end })),
            _ => Ok(None),
        }
    }

    /// The last record of the header, without the field of the end.
    fn write_names(
        &self,
        alloc: Global,
        run: &mut RangeRun,
        record: Record<'_>,
    ) -> Result<(), RunError> {
        run.fields = self.fields_in(alloc, record.text)?;
        match run.fields {
            Some(fields) => run.push(alloc, self.lines, fields, None, record),
            None => run.pass(record),
        }
    }

    /// A record of the header.
    fn write_header(
        &self,
        rt: &HostRuntime,
        streams: &mut Streams,
        run: &mut RangeRun,
        is_last: bool,
        record: Record<'_>,
    ) -> Result<Report, RunError> {
        let alloc = rt.alloc();
        let Ok(_) = run.finder.find(alloc, self.lines, record.text) else {
            return Err(RunError::OutOfMemory);
        };
        let mut report = nothing(alloc);
        if run.finder.is_stopped() {
            report.is_stopped = true;
            if !is_open(self.lines, record.text) {
                run.pass(record)?;
            }
            run.note_end(streams)?;
        } else if is_last {
            self.write_names(alloc, run, record)?;
        } else {
            run.pass(record)?;
        }
        Ok(report)
    }

    /// A record whose range isn't written: it goes through as it is, unless the run stops there.
    fn refuse(
        &self,
        rt: &HostRuntime,
        streams: &mut Streams,
        run: &mut RangeRun,
        start: &FoundNumber,
        end: &FoundNumber,
        fields: RangeFields,
        error: RangeTextError,
        record: Record<'_>,
    ) -> Result<Report, RunError> {
        let lines = self.lines;
        let mut report = nothing(rt.alloc());
        report.is_refused = true;
        report.is_stopped = lines.refusals == Refusals::Abort;
        if lines.refusals != Refusals::Ignore {
            let Ok(note) = note_of_fields(rt.alloc(), start, end, error) else {
                return Err(RunError::OutOfMemory);
            };
            run.note(streams, &note)?;
        }
        if report.is_stopped {
            run.push_front(lines, fields, record)?;
        } else {
            run.pass(record)?;
        }
        Ok(report)
    }

    /// A record by the two numbers that were found in it.
    fn write_ends(
        &self,
        rt: &HostRuntime,
        streams: &mut Streams,
        run: &mut RangeRun,
        fields: RangeFields,
        start: &FoundNumber,
        end: &FoundNumber,
        record: Record<'_>,
    ) -> Result<Report, RunError> {
        let alloc = rt.alloc();
        let mut range = Vec::new(alloc);
        match push_range(
            alloc,
            self.form,
            self.style,
            &start.text,
            &end.text,
            &mut range,
        ) {
            Ok(()) => {}
            Err(RangeTextError::OutOfMemory) => return Err(RunError::OutOfMemory),
            Err(error) => return self.refuse(rt, streams, run, start, end, fields, error, record),
        }
        let lines = self.lines;
        run.push(alloc, lines, fields, Some(&range), record)?;
        let mut report = nothing(alloc);
        report.holding = holding(alloc, lines.delimiter, &range)?;
        Ok(report)
    }

    /// A record by the numbers that were found in it, in the order of their fields; one that lacks one
    /// of both fields goes through as it is.
    fn write_found(
        &self,
        rt: &HostRuntime,
        streams: &mut Streams,
        run: &mut RangeRun,
        found: &[FoundNumber],
        record: Record<'_>,
    ) -> Result<Report, RunError> {
        match (found, run.fields) {
            ([first, second], Some(fields)) if fields.start < fields.end => {
                self.write_ends(rt, streams, run, fields, first, second, record)
            }
            ([first, second], Some(fields)) => {
                self.write_ends(rt, streams, run, fields, second, first, record)
            }
            _ => {
                run.pass(record)?;
                Ok(nothing(rt.alloc()))
            }
        }
    }

    /// A record behind the header.
    fn write_record(
        &self,
        rt: &HostRuntime,
        streams: &mut Streams,
        run: &mut RangeRun,
        record: Record<'_>,
    ) -> Result<Report, RunError> {
        let Ok(found) = run.finder.find(rt.alloc(), self.lines, record.text) else {
            return Err(RunError::OutOfMemory);
        };
        if run.finder.is_stopped() {
            run.note_end(streams)?;
            let mut report = nothing(rt.alloc());
            report.is_stopped = true;
            return Ok(report);
        }
        self.write_found(rt, streams, run, &found, record)
    }

    /// A record of this number, from 0 on.
    fn write_next(
        &self,
        rt: &HostRuntime,
        streams: &mut Streams,
        run: &mut RangeRun,
        index: u64,
        record: Record<'_>,
    ) -> Result<Report, RunError> {
        run.flush_block(streams)?;
        let lines = self.lines;
        if index >= lines.header {
            return self.write_record(rt, streams, run, record);
        }
        let is_last = lines.header - index == 1;
        self.write_header(rt, streams, run, is_last, record)
    }

    /// The records of standard input, in front of which a byte order mark may stand.
    fn write_records(
        &self,
        rt: &HostRuntime,
        streams: &mut Streams,
        run: &mut RangeRun,
    ) -> Result<Report, RunError> {
        let lines = self.lines;
        let mut reader = reader(rt)?;
        let mut bytes = Vec::new(rt.alloc());
        let mut report = nothing(rt.alloc());
        let line_end = [lines.end];
        for index in 0..u64::MAX {
            let is_first = index == 0;
            let read = read_record(streams, &mut reader, lines, is_first, &mut bytes)?;
            let text = bytes_behind(&bytes, 0, is_first);
            let mark = bytes.split_at(bytes.len().saturating_sub(text.len())).0;
            or_memory(run.out.extend_from_slice(mark))?;
            let end = match read {
                ReadRecord::Nothing => return Ok(report),
                ReadRecord::Ended => line_end.as_slice(),
                ReadRecord::Unended => &[],
            };
            let ran = self.write_next(rt, streams, run, index, Record { text, end })?;
            report = joined(report, ran);
            if report.is_stopped {
                return Ok(report);
            }
        }
        Ok(report)
    }

    /// The records of standard input, all of which are written at the end.
    fn write(&self, rt: &HostRuntime, streams: &mut Streams) -> Result<Report, RunError> {
        let fields = match self.columns {
            RangeColumns::Numbers(fields) => Some(fields),
            RangeColumns::Names => None,
        };
        let mut run = RangeRun::new(rt.alloc(), self.lines, fields);
        let ran = self.write_records(rt, streams, &mut run);
        run.flush(streams)?;
        let mut report = ran?;
        report.most_fields = run.finder.most_fields();
        Ok(report)
    }

    /// Runs ranges of fields; the status.
    fn run(&self, rt: &HostRuntime) -> u8 {
        let lines = self.lines;
        let mut streams = Streams::new(rt);
        let ran = self.write(rt, &mut streams);
        match &ran {
            Ok(report) => report_met(rt, lines, report),
            Err(error) => streams.report(rt, *error),
        }
        status_of_run(lines.refusals, streams.is_reader_gone(), &ran)
    }
}

/// Runs ranges of fields by what a file of tables says of ranges; the status, or why it has no
/// pattern of ranges.
pub(crate) fn run_range_fields(
    rt: &HostRuntime,
    settings: &Settings<'_>,
    lines: &LineSettings,
    columns: RangeColumns,
    file: TablesFile<'_>,
    form: &Form,
) -> Result<u8, StartError> {
    let data = data_of(rt.alloc(), file.bytes, settings)?;
    let style = data.style();
    let writer = RangeWriter {
        lines,
        form,
        style: &style,
        columns,
    };
    Ok(writer.run(rt))
}
