//! How calls with messages end, besides as those with formatters.

ghost use Rattle.std.specs.Prelude.{◌≡◌};
ghost use Rattle.talmuiga_c.specs.MessageStatuses.{no_word, open_status, word_of, write_status};

use crate::status;
use icu_message::{Word, WriteError};
use kept_messages::OpenError;

/// The text isn't a message.
pub const MESSAGE_REFUSED: u32 = 15;

/// An argument isn't given, or not in the form of its place.
pub const MISSING_ARGUMENT: u32 = 16;

/// A text is given where the message wants a number.
pub const NOT_A_NUMBER: u32 = 17;

/// A number is given where the message picks by a text.
pub const NOT_A_TEXT: u32 = 18;

/// A name, a text or a skeleton isn't UTF-8.
pub const NOT_UTF8: u32 = 19;

/// The formatter was opened without a skeleton.
pub const NO_FORM: u32 = 20;

/// The message has fewer places or names.
pub const NO_SUCH_PLACE: u32 = 21;

/// Where a word stands in the text of a message, in bytes; zeros where there is none.
#[repr(C)]
#[derive(Clone, Copy)]
pub struct WordAt {
    /// The first byte.
    pub start: usize,
    /// The byte behind the last.
    pub end: usize,
}

/// There is no word.
pub fn no_word() -> WordAt
    ensures { result ≡ no_word }
{
    WordAt { start: 0, end: 0 }
}

/// Where a word stands.
pub fn word_at(word: Word) -> WordAt
    ensures { result ≡ record { start = word.start; end = word.end } }
{
    WordAt {
        start: word.start,
        end: word.end,
    }
}

/// The status of a message that isn't opened.
pub fn open_status(error: OpenError) -> u32
    ensures { result ≡ open_status error }
{
    match error {
        OpenError::Message(_) => MESSAGE_REFUSED,
        OpenError::Refused(_) => status::TABLES_REFUSED,
        OpenError::NoCardinalRules | OpenError::NoOrdinalRules => status::NO_DATA,
        OpenError::OutOfMemory => status::OUT_OF_MEMORY,
    }
}

/// The status of a message that isn't written.
pub fn write_status(error: WriteError) -> u32
    ensures { result ≡ write_status error }
{
    match error {
        WriteError::MissingArgument { name: _ } => MISSING_ARGUMENT,
        WriteError::NotANumber { name: _ } => NOT_A_NUMBER,
        WriteError::NotAText { name: _ } => NOT_A_TEXT,
        WriteError::OutOfMemory => status::OUT_OF_MEMORY,
    }
}

/// The name of the argument by which a message isn't written.
pub fn word_of(error: WriteError) -> WordAt
    ensures { result ≡ word_of error }
{
    match error {
        WriteError::MissingArgument { name }
        | WriteError::NotANumber { name }
        | WriteError::NotAText { name } => word_at(name),
        WriteError::OutOfMemory => no_word(),
    }
}
