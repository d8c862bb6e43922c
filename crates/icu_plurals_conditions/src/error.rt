//! Why plural rules are rejected.
ghost use Rattle.std.specs.Prelude.{◌≡◌};
ghost use Rattle.icu_plurals_conditions.specs.declared.error.RulesError.TheVariants.{OutOfMemory};

use std::alloc::{AllocError, AllocFailed};
use thiserror::Error;

/// Why plural rules were not made.
#[derive(Clone, Copy, Debug, PartialEq, Eq, Error)]
pub enum RulesError {
    /// A rule's condition isn't in the grammar of UTS 35 Part 3 (Plural rules syntax).
    #[error("rule {rule} isn't a condition, by its byte {byte}")]
    BadRule {
        /// The index of the rule, from 0.
        rule: usize,
        /// The place of the first byte of the first token that can't stand there; the end of what
        /// is read, if the text ends too early.
        byte: usize,
    },
    /// Memory ran out.
    #[error("out of memory")]
    OutOfMemory,
}

impl From<AllocError> for RulesError {
    ghost from_gives = { λ _ e. e ≡ OutOfMemory };

    fn from(_e: AllocError) -> RulesError {
        RulesError::OutOfMemory
    }
}

impl<T: Drop> From<AllocFailed<T>> for RulesError {
    ghost from_gives = { λ _ e. e ≡ OutOfMemory };

    fn from(_e: AllocFailed<T>) -> RulesError {
        RulesError::OutOfMemory
    }
}
