//! Why patterns are rejected.

ghost use Rattle.std.specs.Prelude.{◌≡◌};
ghost use Rattle.icu_dimension_data.specs.declared.error.PatternFault.TheVariants.{OutOfMemory};

use std::alloc::{AllocError, AllocFailed};
use thiserror::Error;

/// Why a text isn't read as a pattern of numbers (UTS 35 Part 3, Number Patterns): its first fault,
/// or `OutOfMemory`.
#[derive(Clone, Copy, Debug, PartialEq, Eq, Error)]
pub enum PatternFault {
    /// A subpattern has no number part.
    #[error("no number part before byte {byte}")]
    NoNumber {
        /// The byte offset at which the subpattern ends.
        byte: usize,
    },
    /// A subpattern has a second number part, apart from the first.
    #[error("a second number part at byte {byte}")]
    TwoNumbers {
        /// The byte offset at which the second begins.
        byte: usize,
    },
    /// A quote isn't closed.
    #[error("the quote at byte {byte} is not closed")]
    UnclosedQuote {
        /// The byte offset of the quote.
        byte: usize,
    },
    /// A third subpattern begins.
    #[error("a third subpattern at byte {byte}")]
    ThirdSubpattern {
        /// The byte offset of the semicolon before it.
        byte: usize,
    },
    /// A character that means something else in a pattern: a digit from 1 to 9, `@`, `E`, `*`, `‰`,
    /// or `¤` after `¤`.
    #[error("the character at byte {byte} is reserved")]
    Reserved {
        /// The byte offset of the character.
        byte: usize,
    },
    /// Memory ran out.
    #[error("out of memory")]
    OutOfMemory,
}

impl From<AllocError> for PatternFault {
    ghost from_gives = { λ _ e. e ≡ OutOfMemory };

    fn from(_refused: AllocError) -> PatternFault {
        PatternFault::OutOfMemory
    }
}

impl<T: Drop> From<AllocFailed<T>> for PatternFault {
    ghost from_gives = { λ _ e. e ≡ OutOfMemory };

    fn from(_refused: AllocFailed<T>) -> PatternFault {
        PatternFault::OutOfMemory
    }
}
