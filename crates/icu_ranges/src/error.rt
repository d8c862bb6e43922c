//! Why ranges and their patterns are rejected.

ghost use Rattle.std.specs.Prelude.{◌≡◌};
ghost use Rattle.icu_ranges.specs.declared.error.RangePatternError.TheVariants.{OutOfMemory};

use std::alloc::AllocError;
use thiserror::Error;

/// Why a range pattern was not made.
#[derive(Clone, Copy, Debug, PartialEq, Eq, Error)]
pub enum RangePatternError {
    /// The text isn't `{0}`, some text without braces, and `{1}`.
    #[error("the text isn't a range pattern")]
    BadRangePattern,
    /// Memory ran out.
    #[error("out of memory")]
    OutOfMemory,
}

impl From<AllocError> for RangePatternError {
    ghost from_gives = { λ _ e. e ≡ OutOfMemory };

    fn from(_refused: AllocError) -> RangePatternError {
        RangePatternError::OutOfMemory
    }
}

/// Why the categories of ranges were not made.
#[derive(Clone, Copy, Debug, PartialEq, Eq, Error)]
pub enum PluralRangesError {
    /// A pair of categories has two entries.
    #[error("a pair of categories has two entries")]
    RepeatedPair,
    /// Memory ran out.
    #[error("out of memory")]
    OutOfMemory,
}

impl From<AllocError> for PluralRangesError {
    ghost use Rattle.icu_ranges.specs.declared.error.PluralRangesError.TheVariants.{OutOfMemory as NoMemory};

    ghost from_gives = { λ _ e. e ≡ NoMemory };

    fn from(_refused: AllocError) -> PluralRangesError {
        PluralRangesError::OutOfMemory
    }
}
