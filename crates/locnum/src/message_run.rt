//! Messages for numbers, run.

use crate::Failure;
use crate::ending::status_of_run;
use crate::message_forms::{PlaceForm, open_forms};
use crate::message_given::{
    MessageSource, catalogue_of, message_of_id, message_of_text, text_of_file,
};
use crate::message_lines::Writer;
use crate::message_rules::{cardinal_rules, ordinal_rules, tables_of};
use crate::message_wanted::wanted_arguments;
use crate::running::report_met;
use crate::streams::Streams;
use crate::tables::TablesFile;
use icu_message::Message;
use icu_plurals::PluralRules;
use icu_provider::DataLocale;
use icu_tables::Tables;
use locnum_lines::LineSettings;
use number_forms::Form;

/// What a run of messages goes by, besides the message and its rules.
#[derive(Clone, Copy)]
pub(crate) struct MessageRun<'a> {
    /// The form of numbers whose places have none of their own.
    pub(crate) form: &'a Form,
    /// The file of tables.
    pub(crate) file: TablesFile<'a>,
    /// The locale.
    pub(crate) locale: DataLocale,
    /// The numbers among the arguments, if there are any.
    pub(crate) numbers: Option<&'a [&'a str]>,
}

impl MessageRun<'_> {
    /// Runs a message, which is written so; the status.
    fn run_by(&self, rt: &HostRuntime, lines: &mut LineSettings, writer: &Writer<'_>) -> u8 {
        let mut streams = Streams::new(rt);
        let ran = writer.write(rt, &mut streams, lines, self.numbers);
        match &ran {
            Ok(report) => report_met(rt, lines, report),
            Err(error) => streams.report(rt, *error),
        }
        status_of_run(lines.refusals, streams.is_reader_gone(), &ran)
    }

    /// Runs a message by the forms of its places and cardinal rules; the status.
    fn run_with(
        &self,
        rt: &HostRuntime,
        lines: &mut LineSettings,
        message: &Message,
        forms: &[PlaceForm<'_>],
        tables: &Tables,
        cardinal: &PluralRules,
    ) -> Result<u8, Failure> {
        let ordinal = ordinal_rules(rt, tables, self.locale, message)?;
        let wanted = wanted_arguments(rt.alloc(), message, self.form, forms)?;
        let writer = Writer {
            message,
            wanted: &wanted,
            cardinal,
            ordinal: &ordinal,
            end: lines.end,
            refusals: lines.refusals,
        };
        Ok(self.run_by(rt, lines, &writer))
    }

    /// Runs a message by the forms of its places; the status.
    fn run_formed(
        &self,
        rt: &HostRuntime,
        lines: &mut LineSettings,
        message: &Message,
        forms: &[PlaceForm<'_>],
    ) -> Result<u8, Failure> {
        let tables = tables_of(rt, self.file, &self.locale)?;
        let cardinal = cardinal_rules(rt, &tables, self.locale, message)?;
        self.run_with(rt, lines, message, forms, &tables, &cardinal)
    }

    /// Runs a message; the status.
    fn run_message(
        &self,
        rt: &HostRuntime,
        lines: &mut LineSettings,
        message: &Message,
    ) -> Result<u8, Failure> {
        let forms = open_forms(rt, self.file, self.locale, message)?;
        self.run_formed(rt, lines, message, &forms)
    }

    /// Runs the message of a catalogue's id; the status.
    fn run_id(
        &self,
        rt: &HostRuntime,
        lines: &mut LineSettings,
        path: &str,
        id: &str,
    ) -> Result<u8, Failure> {
        let text = text_of_file(rt, path)?;
        let catalogue = catalogue_of(rt, path, &text)?;
        let message = message_of_id(rt, &catalogue, path, id)?;
        self.run_message(rt, lines, message)
    }

    /// Runs the message of a source; the status.
    pub(crate) fn run(
        &self,
        rt: &HostRuntime,
        lines: &mut LineSettings,
        source: MessageSource<'_>,
    ) -> Result<u8, Failure> {
        match source {
            MessageSource::Text(text) => {
                let message = message_of_text(rt, text)?;
                self.run_message(rt, lines, &message)
            }
            MessageSource::Id(path, id) => self.run_id(rt, lines, path, id),
        }
    }
}
