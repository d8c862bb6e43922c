//! Errors of symbols and of byte strings.

use std::alloc::{AllocError, AllocFailed};
use thiserror::Error;

/// Why symbols were not made.
#[derive(Clone, Copy, Debug, PartialEq, Eq, Error)]
pub enum SymbolsError {
    /// The seven texts are more than 255 bytes together.
    #[error("the symbols are more than 255 bytes together")]
    TooLarge,
    /// The numbering system isn't 3 to 8 ASCII lower-case letters or digits.
    #[error("the symbols name no numbering system")]
    BadNumberingSystem,
    /// Memory ran out.
    #[error("out of memory")]
    OutOfMemory,
}

impl From<AllocError> for SymbolsError {
    ghost use Rattle.std.specs.Prelude.{◌≡◌};
    ghost use Rattle.icu_decimal_symbols.specs.declared.error.SymbolsError.TheVariants.{OutOfMemory};

    ghost from_gives = { λ _ e. e ≡ OutOfMemory };

    fn from(_e: AllocError) -> SymbolsError {
        SymbolsError::OutOfMemory
    }
}

impl<T: Drop> From<AllocFailed<T>> for SymbolsError {
    ghost use Rattle.std.specs.Prelude.{◌≡◌};
    ghost use Rattle.icu_decimal_symbols.specs.declared.error.SymbolsError.TheVariants.{OutOfMemory};

    ghost from_gives = { λ _ e. e ≡ OutOfMemory };

    fn from(_e: AllocFailed<T>) -> SymbolsError {
        SymbolsError::OutOfMemory
    }
}

/// The bytes aren't those of symbols or of a compact table.
#[derive(Clone, Copy, Debug, PartialEq, Eq, Error)]
#[error("the bytes are damaged at byte {byte}")]
pub struct Damaged {
    /// The offset of the byte with the error: where an impossible length or text begins, or where
    /// the bytes are too few or too many.
    pub byte: usize,
}
