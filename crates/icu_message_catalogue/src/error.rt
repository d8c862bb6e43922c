//! Why a text isn't read as a catalogue.

ghost use Rattle.std.specs.Prelude.{◌≡◌};
ghost use Rattle.icu_message_catalogue.specs.declared.error.CatalogueError.TheVariants.{OutOfMemory};

use icu_message::ParseError;
use std::alloc::{AllocError, AllocFailed};
use thiserror::Error;

/// Why a text isn't read as a catalogue: the first fault, or `OutOfMemory`.
///
/// A text that isn't JSON is rejected first. Then members are judged in the document's order.
#[derive(Debug, Drop, Error)]
pub enum CatalogueError {
    /// The text isn't JSON.
    #[error("the catalogue isn't JSON")]
    NotJson,
    /// The text is a JSON value that isn't an object.
    #[error("the catalogue isn't a JSON object")]
    NotAnObject,
    /// The value under an id or under `@@locale` isn't a text.
    #[error("the value of `{id}` isn't a text")]
    WrongKind {
        /// The member's key.
        id: String,
    },
    /// The text under an id isn't a message.
    #[error("the message `{id}`: {fault}")]
    Message {
        /// The member's key.
        id: String,
        /// What is wrong, and at which byte of the member's text.
        fault: ParseError,
    },
    /// Memory ran out.
    #[error("out of memory")]
    OutOfMemory,
}

impl From<AllocError> for CatalogueError {
    ghost from_gives = { λ _ e. e ≡ OutOfMemory };

    fn from(_refused: AllocError) -> CatalogueError {
        CatalogueError::OutOfMemory
    }
}

impl<T: Drop> From<AllocFailed<T>> for CatalogueError {
    ghost from_gives = { λ _ e. e ≡ OutOfMemory };

    fn from(_refused: AllocFailed<T>) -> CatalogueError {
        CatalogueError::OutOfMemory
    }
}
