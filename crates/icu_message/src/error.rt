//! What is wrong with a text that isn't a message.

ghost use Rattle.std.specs.Prelude.{◌≡◌};
ghost use Rattle.icu_message.specs.declared.error.ParseError.TheVariants.{OutOfMemory};

use crate::piece::Word;
use number_skeleton::FaultKind;
use std::alloc::{AllocError, AllocFailed};
use thiserror::Error;

/// Why a text isn't read as a message: its first fault with its byte, or `OutOfMemory`.
///
/// The byte is that of the first token that can't stand there, and the text's length if the text
/// ends too early. A word is judged where it ends.
#[derive(Clone, Copy, Debug, PartialEq, Eq, Error)]
pub enum ParseError {
    /// More than 65,535 bytes. It is reported before all others.
    #[error("the text has more than {byte} bytes")]
    TooLong { byte: usize },
    /// The text ends within an argument.
    #[error("the text ends within an argument, at byte {byte}")]
    End { byte: usize },
    /// A `}` outside of arguments.
    #[error("the brace at byte {byte} closes nothing")]
    Unopened { byte: usize },
    /// A quote that isn't closed, with the byte of its apostrophe.
    #[error("the quote at byte {byte} isn't closed")]
    OpenQuote { byte: usize },
    /// An argument within eight arms, with the byte of its brace.
    #[error("the argument at byte {byte} is within eight arms")]
    TooDeep { byte: usize },
    /// No name where one is due, or a word that is no name.
    #[error("a name is due at byte {byte}")]
    Name { byte: usize },
    /// No kind where one is due, or another than `plural`, `selectordinal`, `select` and `number`.
    #[error("`plural`, `selectordinal`, `select` or `number` is due at byte {byte}")]
    Kind { byte: usize },
    /// A style of `number` that doesn't begin with `::`, or has a brace, with its first byte.
    #[error("the style at byte {byte} isn't `::` and a skeleton")]
    Style { byte: usize },
    /// A style whose skeleton is rejected, with the byte of the skeleton's fault.
    #[error("the skeleton is rejected at byte {byte}: {kind}")]
    Skeleton { kind: FaultKind, byte: usize },
    /// A name of which a number is asked and elsewhere a text; the second's kind.
    #[error("the kind at byte {byte} differs from an earlier one of this name")]
    TwoKinds { byte: usize },
    /// `offset:` where a key is due.
    #[error("`offset:` at byte {byte} isn't supported")]
    Offset { byte: usize },
    /// No key where one is due, or a word that is no key.
    #[error("a key is due at byte {byte}")]
    Key { byte: usize },
    /// A key for the second time in its choice.
    #[error("the key at byte {byte} is repeated")]
    Repeated { byte: usize },
    /// A choice without `other`, with the byte of the brace that closes it.
    #[error("the choice that ends at byte {byte} has no `other`")]
    NoOther { byte: usize },
    /// Another character where `,`, `{` or `}` is due.
    #[error("the character at byte {byte} is unexpected")]
    Unexpected { byte: usize },
    /// Memory ran out.
    #[error("out of memory")]
    OutOfMemory,
}

impl From<AllocError> for ParseError {
    ghost from_gives = { λ _ e. e ≡ OutOfMemory };

    fn from(_refused: AllocError) -> ParseError {
        ParseError::OutOfMemory
    }
}

impl<T: Drop> From<AllocFailed<T>> for ParseError {
    ghost from_gives = { λ _ e. e ≡ OutOfMemory };

    fn from(_refused: AllocFailed<T>) -> ParseError {
        ParseError::OutOfMemory
    }
}

/// Why a message isn't written.
///
/// The name is where it stands in the message's text (`Message::word`).
#[derive(Clone, Copy, Debug, PartialEq, Eq, Error)]
pub enum WriteError {
    /// Nothing is given for a name.
    #[error("an argument is missing")]
    MissingArgument { name: Word },
    /// A text is given for a name by which `plural` or `selectordinal` picks.
    #[error("an argument isn't a number")]
    NotANumber { name: Word },
    /// A number is given for a name by which `select` picks.
    #[error("an argument isn't a text")]
    NotAText { name: Word },
    /// Memory ran out.
    #[error("out of memory")]
    OutOfMemory,
}

impl From<AllocError> for WriteError {
    ghost use Rattle.icu_message.specs.declared.error.WriteError.TheVariants.{OutOfMemory as NoMemory};

    ghost from_gives = { λ _ e. e ≡ NoMemory };

    fn from(_refused: AllocError) -> WriteError {
        WriteError::OutOfMemory
    }
}
