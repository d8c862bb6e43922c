//! Why a call of money, percents, names or their tables has no text for an answer.

use crate::CallResult;
use fixed_decimal::DecimalError;
use icu_decimal::error::FormatError;
use icu_dimension_data::PatternFault;
use icu_dimension_tables::TableError;
use icu_pattern::PatternError;
use icu_plurals::RulesError;
use icu_provider::{DataError, DataErrorKind};
use std::alloc::{AllocError, AllocFailed, Global};
use writeable::{OutOfMemory, WriteFault};

/// Why there is no text: the arguments aren't what the call takes, memory ran out, or an error that
/// is the answer.
#[derive(Clone, Copy)]
pub(crate) enum Fault {
    Unreadable,
    OutOfMemory,
    Data(DataError),
    Format(FormatError),
    Table(TableError),
    Pattern(PatternFault),
}

impl From<AllocError> for Fault {
    fn from(_refused: AllocError) -> Fault {
        Fault::OutOfMemory
    }
}

impl<T: Drop> From<AllocFailed<T>> for Fault {
    fn from(_refused: AllocFailed<T>) -> Fault {
        Fault::OutOfMemory
    }
}

impl From<OutOfMemory> for Fault {
    fn from(_refused: OutOfMemory) -> Fault {
        Fault::OutOfMemory
    }
}

/// A text or a sink without a limit takes what is written while there is memory.
impl From<WriteFault> for Fault {
    fn from(_refused: WriteFault) -> Fault {
        Fault::OutOfMemory
    }
}

impl From<DecimalError> for Fault {
    fn from(error: DecimalError) -> Fault {
        match error {
            DecimalError::OutOfMemory => Fault::OutOfMemory,
            _ => Fault::Unreadable,
        }
    }
}

impl From<PatternError> for Fault {
    fn from(error: PatternError) -> Fault {
        match error {
            PatternError::OutOfMemory => Fault::OutOfMemory,
            PatternError::BadPlace => Fault::Unreadable,
        }
    }
}

impl From<RulesError> for Fault {
    fn from(error: RulesError) -> Fault {
        match error {
            RulesError::OutOfMemory => Fault::OutOfMemory,
            _ => Fault::Unreadable,
        }
    }
}

impl From<DataError> for Fault {
    fn from(error: DataError) -> Fault {
        match error.kind {
            DataErrorKind::OutOfMemory => Fault::OutOfMemory,
            _ => Fault::Data(error),
        }
    }
}

impl From<FormatError> for Fault {
    fn from(error: FormatError) -> Fault {
        match error {
            FormatError::OutOfMemory => Fault::OutOfMemory,
            _ => Fault::Format(error),
        }
    }
}

impl From<TableError> for Fault {
    fn from(error: TableError) -> Fault {
        match error {
            TableError::OutOfMemory => Fault::OutOfMemory,
            _ => Fault::Table(error),
        }
    }
}

impl From<PatternFault> for Fault {
    fn from(fault: PatternFault) -> Fault {
        match fault {
            PatternFault::OutOfMemory => Fault::OutOfMemory,
            _ => Fault::Pattern(fault),
        }
    }
}

/// An error of a provider: its kind, and behind it its context, if it has one.
fn data_error(alloc: Global, error: DataError) -> Result<String, AllocError> {
    let kind = error.kind;
    if error.context.is_empty() {
        format!(in alloc; "{kind:?}")
    } else {
        format!(in alloc; "{kind:?}: {}", error.context)
    }
}

/// An error of tables: its name, the key, and of an entry its index and its fault.
pub(crate) fn table_error(alloc: Global, error: TableError) -> Result<String, AllocError> {
    match error {
        TableError::Missing(key) => format!(in alloc; "Missing {key:?}"),
        TableError::WrongKind(key) => format!(in alloc; "WrongKind {key:?}"),
        TableError::Entry { key, index, fault } => format!(in alloc;
            "Entry {key:?} {index} {fault:?}"
        ),
        _ => format!(in alloc; "{error:?}"),
    }
}

/// An error as rows spell it.
fn named(alloc: Global, fault: Fault) -> CallResult {
    match fault {
        Fault::Unreadable => Ok(None),
        Fault::OutOfMemory => Err(AllocError),
        Fault::Data(error) => Ok(Some(data_error(alloc, error)?)),
        Fault::Format(error) => Ok(Some(format!(in alloc; "{error:?}")?)),
        Fault::Table(error) => Ok(Some(table_error(alloc, error)?)),
        Fault::Pattern(fault) => Ok(Some(format!(in alloc; "{fault:?}")?)),
    }
}

/// The answer of a call.
pub(crate) fn reported(alloc: Global, returned: Result<String, Fault>) -> CallResult {
    match returned {
        Ok(text) => Ok(Some(text)),
        Err(fault) => named(alloc, fault),
    }
}

/// An answer of fixed words.
pub(crate) fn said(alloc: Global, words: &str) -> Result<String, Fault> {
    Ok(String::from_str(alloc, words)?)
}

/// `yes` or `no`.
pub(crate) fn yes_or_no(alloc: Global, is_so: bool) -> Result<String, Fault> {
    said(alloc, if is_so { "yes" } else { "no" })
}
