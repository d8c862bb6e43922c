//! Why a call has no text to answer.

use crate::CallResult;
use fixed_decimal::DecimalError;
use icu_decimal::error::FormatError;
use icu_provider::{DataError, DataErrorKind};
use icu_ranges::{PluralRangesError, RangePatternError};
use icu_tables::TableError;
use std::alloc::{AllocError, AllocFailed, Global};
use writeable::WriteFault;

/// Why a call has no text to answer.
#[derive(Clone, Copy, Debug)]
pub(crate) enum Fault {
    /// The row isn't one that this program reads.
    Unreadable,
    /// The call reports an error of this name.
    Named(&'static str),
    /// Memory ran out.
    OutOfMemory,
}

impl From<AllocError> for Fault {
    fn from(_refused: AllocError) -> Fault {
        Fault::OutOfMemory
    }
}

impl<T: Drop> From<AllocFailed<T>> for Fault {
    fn from(_refused: AllocFailed<T>) -> Fault {
        Fault::OutOfMemory
    }
}

impl From<WriteFault> for Fault {
    fn from(_fault: WriteFault) -> Fault {
        Fault::OutOfMemory
    }
}

impl From<DecimalError> for Fault {
    fn from(error: DecimalError) -> Fault {
        match error {
            DecimalError::OutOfMemory => Fault::OutOfMemory,
            _ => Fault::Unreadable,
        }
    }
}

impl From<RangePatternError> for Fault {
    fn from(error: RangePatternError) -> Fault {
        match error {
            RangePatternError::OutOfMemory => Fault::OutOfMemory,
            RangePatternError::BadRangePattern => Fault::Named("BadRangePattern"),
        }
    }
}

impl From<PluralRangesError> for Fault {
    fn from(error: PluralRangesError) -> Fault {
        match error {
            PluralRangesError::OutOfMemory => Fault::OutOfMemory,
            PluralRangesError::RepeatedPair => Fault::Named("RepeatedPair"),
        }
    }
}

impl From<FormatError> for Fault {
    fn from(error: FormatError) -> Fault {
        match error {
            FormatError::OutOfMemory => Fault::OutOfMemory,
            FormatError::Overflow => Fault::Named("Overflow"),
            FormatError::Sink => Fault::Named("Sink"),
        }
    }
}

impl From<DataError> for Fault {
    fn from(error: DataError) -> Fault {
        match error.kind {
            DataErrorKind::OutOfMemory => Fault::OutOfMemory,
            _ => Fault::Unreadable,
        }
    }
}

impl From<TableError> for Fault {
    fn from(error: TableError) -> Fault {
        match error {
            TableError::OutOfMemory => Fault::OutOfMemory,
            _ => Fault::Unreadable,
        }
    }
}

/// What is answered in place of a text.
pub(crate) fn reported(alloc: Global, fault: Fault) -> CallResult {
    match fault {
        Fault::Unreadable => Ok(None),
        Fault::Named(name) => Ok(Some(String::from_str(alloc, name)?)),
        Fault::OutOfMemory => Err(AllocError),
    }
}
