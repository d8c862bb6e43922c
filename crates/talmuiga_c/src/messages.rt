//! Messages as C keeps them: how they are opened and written.

ghost use Rattle.std.specs.Prelude.{◌≡◌, ◌⊎◌, IfErr, IfOk, OnErr};
ghost use Rattle.kept_messages.specs.Writing.{IsFault};
ghost use Rattle.talmuiga_c.specs.Handle.{empty};
ghost use Rattle.talmuiga_c.specs.Messages.{AsksFor, HoldsMessage, IsWrittenMessage, OpensMessage, message_asked, message_numbered, read_text, text_asked};

use crate::asked::text_in;
use crate::fault::{Fault, no_fault, not_utf8};
use crate::handle::Room;
use crate::message_fault::open_fault;
use crate::message_status::{MESSAGE_REFUSED, WordAt, no_word, open_status, word_of, write_status};
use crate::output::put_text;
use crate::skeletons::{Rejected, locale_asked};
use crate::status;
use icu_message::WriteError;
use icu_provider::DataLocale;
use kept_messages::{Arguments, LocaleMessage};
use std::alloc::Global;
use std::str;

/// The text of some bytes, or where they aren't UTF-8.
#[tactic(auto, unfolding(crate::specs::Messages::text_asked))]
fn text_asked(bytes: &[u8]) -> Result<&str, Fault>
    ensures { read_text result ≡ text_asked bytes.now }
{
    match str::from_utf8(bytes) {
        Ok(text) => Ok(text),
        Err(error) => Err(not_utf8(error.valid_up_to())),
    }
}

/// The message of a text with the rules of tables, or why there is none.
fn message_numbered(
    alloc: Global,
    tables: &str,
    locale: DataLocale,
    text: &str,
) -> Result<LocaleMessage, Rejected>
    ensures { AsksFor result (message_numbered tables.now locale text.now) }
{
    match LocaleMessage::open(alloc, tables, locale, text) {
        Ok(message) => Ok(message),
        Err(error) => Err(Rejected {
            status: open_status(error),
            fault: open_fault(error),
        }),
    }
}

/// The message that bytes ask for, or why there is none.
fn message_asked(
    alloc: Global,
    tables: &[u8],
    locale: &[u8],
    text: &[u8],
) -> Result<LocaleMessage, Rejected>
    ensures { AsksFor result (message_asked tables.now locale.now text.now) }
{
    let Some(locale) = locale_asked(locale) else {
        return Err(Rejected {
            status: status::WORDS_REFUSED,
            fault: no_fault(),
        });
    };
    let text = match text_asked(text) {
        Ok(text) => text,
        Err(fault) => {
            return Err(Rejected {
                status: MESSAGE_REFUSED,
                fault,
            });
        }
    };
    match text_in(tables) {
        Some(tables) => message_numbered(alloc, tables, locale, text),
        None => Err(Rejected {
            status: status::TABLES_REFUSED,
            fault: no_fault(),
        }),
    }
}

/// Opens the message that bytes ask for. The locale is judged first, then whether text and tables
/// are UTF-8, then the text, and then the tables.
pub fn open_message(
    alloc: Global,
    tables: &[u8],
    locale: &[u8],
    text: &[u8],
    fault: &mut Fault,
    message: &mut Room,
) -> u32
    requires empty { message.old.held ≡ empty }
    ensures opens { OpensMessage (message_asked tables.now locale.now text.now) message.new.held
        fault.new result }
{
    match message_asked(alloc, tables, locale, text) {
        Ok(opened) => {
            *fault = no_fault();
            message.put_message(opened);
            status::DONE
        }
        Err(rejected) => {
            *fault = rejected.fault;
            rejected.status
        }
    }
}

/// Writes a message, if it fits. The result is its length.
fn put_message(
    alloc: Global,
    message: &LocaleMessage,
    arguments: &Arguments,
    output: &mut [u8],
) -> Result<usize, WriteError>
    ensures ok { IfOk result (λ n.
        HoldsMessage message.now arguments.now output.old output.new n) }
    ensures refused { IfErr result (λ error. IsFault message.now arguments.now error) }
    ensures unchanged { OnErr result (output.new ≡ output.old) }
{
    let mut text = Vec::new(alloc);
    message.write(alloc, arguments, &mut text)?;
    Ok(put_text(output, &text))
}

/// Writes a message, if it fits, and sets its length, and the name by which it isn't written.
pub fn write_message(
    alloc: Global,
    message: &LocaleMessage,
    arguments: &Arguments,
    output: &mut [u8],
    length: &mut usize,
    name: &mut WordAt,
) -> u32
    ensures { IsWrittenMessage message.now arguments.now output.old output.new length.new name.new
        result }
{
    match put_message(alloc, message, arguments, output) {
        Ok(count) => {
            *length = count;
            *name = no_word();
            if count <= output.len() {
                status::DONE
            } else {
                status::OUTPUT_TOO_SMALL
            }
        }
        Err(error) => {
            *length = 0;
            *name = word_of(error);
            write_status(error)
        }
    }
}
