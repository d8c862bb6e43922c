//! Why a decimal was rejected.

ghost use Rattle.std.specs.Prelude.{◌≡◌};

use std::alloc::AllocError;
use thiserror::Error;

/// Why a decimal was rejected.
#[derive(Clone, Copy, Debug, PartialEq, Eq, Error)]
pub enum DecimalError {
    /// The text is not in the text form.
    #[error("not a decimal")]
    Syntax,
    /// A power outside -32768 to 32767 would be needed.
    #[error("too many digits")]
    Limit,
    /// An allocation failed.
    #[error("out of memory")]
    OutOfMemory,
}

impl From<AllocError> for DecimalError {
    ghost use Rattle.fixed_decimal.specs.declared.error.DecimalError.TheVariants.{OutOfMemory};

    ghost from_gives = { λ _ e. e ≡ OutOfMemory };

    fn from(_error: AllocError) -> DecimalError {
        DecimalError::OutOfMemory
    }
}
