//! Errors of compact tables, and those of symbols and of bytes from `icu_decimal_symbols`.

pub use icu_decimal_symbols::{Damaged, SymbolsError};
use std::alloc::{AllocError, AllocFailed};
use thiserror::Error;

/// Why a table of compact patterns was not made.
#[derive(Clone, Copy, Debug, PartialEq, Eq, Error)]
pub enum CompactError {
    /// In the map an exponent is below that of the preceding type.
    #[error("Compact exponents should be nondecreasing")]
    ExponentsFall,
    /// A kept type has an exponent above it.
    #[error("a compact exponent is above its type")]
    ExponentAboveType,
    /// A kept type is more than 15 above its exponent.
    #[error("Pattern has too many zeros")]
    TooManyZeros,
    /// The literals of the kept patterns are more than 65,535 bytes together.
    #[error("the literals of the compact patterns are more than 65535 bytes together")]
    TooLarge,
    /// Memory ran out.
    #[error("out of memory")]
    OutOfMemory,
}

impl From<AllocError> for CompactError {
    ghost use Rattle.std.specs.Prelude.{◌≡◌};
    ghost use Rattle.icu_decimal_data.specs.declared.error.CompactError.TheVariants.{OutOfMemory};

    ghost from_gives = { λ _ e. e ≡ OutOfMemory };

    fn from(_e: AllocError) -> CompactError {
        CompactError::OutOfMemory
    }
}

impl<T: Drop> From<AllocFailed<T>> for CompactError {
    ghost use Rattle.std.specs.Prelude.{◌≡◌};
    ghost use Rattle.icu_decimal_data.specs.declared.error.CompactError.TheVariants.{OutOfMemory};

    ghost from_gives = { λ _ e. e ≡ OutOfMemory };

    fn from(_e: AllocFailed<T>) -> CompactError {
        CompactError::OutOfMemory
    }
}
