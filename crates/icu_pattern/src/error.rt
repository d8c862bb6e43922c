//! Why patterns are rejected.

ghost use Rattle.std.specs.Prelude.{◌≡◌};
ghost use Rattle.icu_pattern.specs.declared.error.PatternError.TheVariants.{OutOfMemory};

use std::alloc::AllocError;
use thiserror::Error;

/// Why a pattern was not made.
#[derive(Clone, Copy, Debug, PartialEq, Eq, Error)]
pub enum PatternError {
    /// The backend does not accept the placeholder in the literal.
    #[error("the place does not fit the literal of the pattern")]
    BadPlace,
    /// Memory ran out.
    #[error("out of memory")]
    OutOfMemory,
}

impl From<AllocError> for PatternError {
    ghost from_gives = { λ _ e. e ≡ OutOfMemory };

    fn from(_refused: AllocError) -> PatternError {
        PatternError::OutOfMemory
    }
}
