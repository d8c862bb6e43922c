//! Why a range isn't written.

use decimal_lines::TextError;
use thiserror::Error;

/// Why two texts have no formatted range.
#[derive(Clone, Copy, Debug, PartialEq, Eq, Error)]
pub enum RangeTextError {
    /// The first text has no formatted number.
    #[error("the start: {0}")]
    Start(TextError),
    /// The second text has no formatted number.
    #[error("the end: {0}")]
    End(TextError),
    /// The number of the first text is above that of the second.
    #[error("the start is above the end")]
    Descending,
    /// An allocation failed.
    #[error("out of memory")]
    OutOfMemory,
}
