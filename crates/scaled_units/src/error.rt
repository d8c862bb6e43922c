//! Why a text was not read, or a number not shown.

use thiserror::Error;

/// Why a text is no number with a suffix: the fault and the byte at which it stands, or what the
/// number needs.
#[derive(Clone, Copy, Debug, PartialEq, Eq, Error)]
pub enum NotScaled {
    /// What stands before the suffix is no decimal.
    #[error("not a number")]
    Number,
    /// A byte that no number has, and that is no letter of a power.
    #[error("the suffix at byte {byte} isn't known")]
    UnknownSuffix { byte: usize },
    /// A suffix, where the scale takes none.
    #[error("no suffix is taken, but one stands at byte {byte}")]
    SuffixNotTaken { byte: usize },
    /// No `i` where the scale wants one.
    #[error("an `i` is missing at byte {byte}")]
    MissingI { byte: usize },
    /// More than a suffix.
    #[error("the suffix ends before byte {byte}")]
    BehindSuffix { byte: usize },
    /// A digit would stand at a power outside -32768 to 32767.
    #[error("too many digits")]
    Limit,
    /// An allocation failed.
    #[error("out of memory")]
    OutOfMemory,
}

/// Why a number was not divided by a power of a base.
#[derive(Clone, Copy, Debug, PartialEq, Eq, Error)]
pub enum ScaleError {
    /// A digit would stand at a power outside -32768 to 32767.
    #[error("too many digits")]
    Limit,
    /// An allocation failed.
    #[error("out of memory")]
    OutOfMemory,
}
