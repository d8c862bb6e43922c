//! Why a text wasn't read as a number.

use std::alloc::AllocError;
use thiserror::Error;

/// Why a text wasn't read as a number.
#[derive(Clone, Copy, Debug, PartialEq, Eq, Error)]
pub enum NotRead {
    /// The formatter writes no number like this. The byte is the first at which the text differs
    /// from each text of a number that its digits make, or the length of the text.
    #[error("the text is no number of this format, at byte {byte}")]
    NoNumber { byte: usize },
    /// An allocation failed.
    #[error("out of memory")]
    OutOfMemory,
}

impl From<AllocError> for NotRead {
    ghost use Rattle.std.specs.Prelude.{◌≡◌};
    ghost use Rattle.icu_decimal_reading.specs.declared.error.NotRead.TheVariants.{OutOfMemory};

    ghost from_gives = { λ _ e. e ≡ OutOfMemory };

    fn from(_error: AllocError) -> NotRead {
        NotRead::OutOfMemory
    }
}
