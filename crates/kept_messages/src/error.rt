//! Why there is no message.

use icu_message::ParseError;
use icu_table_entries::TableError;
use thiserror::Error;

/// Why there is no message.
#[derive(Clone, Copy, Debug, PartialEq, Eq, Error)]
pub enum OpenError {
    /// The text isn't a message.
    #[error("{0}")]
    Message(ParseError),
    /// The text of the tables is rejected.
    #[error("{0}")]
    Refused(TableError),
    /// The message picks by cardinal rules, and the tables have none for the locale.
    #[error("no cardinal rules")]
    NoCardinalRules,
    /// The message picks by ordinal rules, and the tables have none for the locale.
    #[error("no ordinal rules")]
    NoOrdinalRules,
    /// Memory ran out.
    #[error("out of memory")]
    OutOfMemory,
}
