//! Why a number was not shown.

use thiserror::Error;

/// Why a number was not shown.
#[derive(Clone, Copy, Debug, PartialEq, Eq, Error)]
pub enum ShownError {
    /// A digit would stand at a power outside -32768 to 32767.
    #[error("the shown number has too many digits")]
    Overflow,
    /// An allocation failed.
    #[error("out of memory")]
    OutOfMemory,
}
