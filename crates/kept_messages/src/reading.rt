//! What a message is opened by: its text, and the tables of its locale.

ghost use Rattle.std.specs.Prelude.{◌≡◌, IfErr, IfOk, List, Ok, Result};
ghost use Rattle.icu_message.specs.Reading.{pieces_of};
ghost use Rattle.icu_message.specs.declared.piece.Piece.{Piece};
ghost use Rattle.icu_tables.specs.ForLocale.{IsFor};
ghost use Rattle.icu_tables.specs.Tables.{TablesData, tables_of};
ghost use Rattle.kept_messages.specs.Messages.{MessageData};
ghost use Rattle.kept_messages.specs.Opening.{Stops, message_error, parsed_then, read_then, table_error};
ghost use Rattle.kept_messages.specs.declared.error.OpenError.{OpenError};

use crate::error::OpenError;
use icu_message::{Message, ParseError};
use icu_provider::DataLocale;
use icu_table_entries::TableError;
use icu_tables::Tables;
use std::alloc::Global;

/// Why there is no message if its text isn't one.
fn message_error(error: ParseError) -> OpenError
    ensures { result ≡ message_error error }
{
    match error {
        ParseError::OutOfMemory => OpenError::OutOfMemory,
        error => OpenError::Message(error),
    }
}

/// Why there is no message if the text of the tables is rejected.
fn table_error(error: TableError) -> OpenError
    ensures { result ≡ table_error error }
{
    match error {
        TableError::OutOfMemory => OpenError::OutOfMemory,
        error => OpenError::Refused(error),
    }
}

/// The message of a text.
pub(crate) fn message_in(alloc: Global, text: &str) -> Result<Message, OpenError>
    ensures text { IfOk result (λ m. m.text ≡ text.now) }
    ensures read { IfOk result (λ m. pieces_of text.now ≡ Ok m.pieces) }
    ensures rejected { IfErr result (λ error.
        (next : List Piece → Result MessageData OpenError) →
        Stops error (parsed_then (pieces_of text.now) next)) }
{
    match Message::parse(alloc, text) {
        Ok(message) => Ok(message),
        Err(error) => Err(message_error(error)),
    }
}

/// The tables of a text, for a locale.
pub(crate) fn tables_in(alloc: Global, text: &str, locale: &DataLocale) -> Result<Tables, OpenError>
    ensures tables { IfOk result (λ tables. IsFor locale.now tables (tables_of text.now)) }
    ensures refused { IfErr result (λ error.
        (next : TablesData → Result MessageData OpenError) →
        Stops error (read_then (tables_of text.now) next)) }
{
    match Tables::from_json_for_locale(alloc, text, locale) {
        Ok(tables) => Ok(tables),
        Err(error) => Err(table_error(error)),
    }
}
