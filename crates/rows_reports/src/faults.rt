//! Errors, as rows spell them.

use crate::CallResult;
use decimal_lines::{TablesFault, TextError};
use icu_tables::TableError;
use locnum_options::{NumberOption, OptionFault};
use number_formatters::Unsupported;
use number_forms::StartError;
use number_skeleton::read_skeleton;
use std::alloc::{AllocError, Global};

/// The names of an error of tables, of the key and of the fault.
fn names(alloc: Global, error: TableError) -> Result<String, AllocError> {
    match error {
        TableError::Missing(key) => format!(in alloc; "Missing {key:?}"),
        TableError::WrongKind(key) => format!(in alloc; "WrongKind {key:?}"),
        TableError::Entry { key, index, fault } => {
            format!(in alloc; "Entry {key:?} {index} {fault:?}")
        }
        _ => format!(in alloc; "{error:?}"),
    }
}

/// Why tables are refused.
fn refused(alloc: Global, error: TableError) -> CallResult {
    match error {
        TableError::OutOfMemory => Err(AllocError),
        _ => Ok(Some(names(alloc, error)?)),
    }
}

/// Why there is no form.
pub(crate) fn no_form(alloc: Global, error: StartError) -> CallResult {
    match error {
        StartError::OutOfMemory => Err(AllocError),
        StartError::Refused(error) => refused(alloc, error),
        StartError::NotUtf8 | StartError::NoData => Ok(Some(format!(in alloc; "{error:?}")?)),
    }
}

/// Why tables are rejected.
pub(crate) fn no_tables(alloc: Global, fault: TablesFault) -> CallResult {
    match fault {
        TablesFault::Refused(error) => refused(alloc, error),
        TablesFault::NotUtf8 => Ok(Some(format!(in alloc; "{fault:?}")?)),
    }
}

/// Why a text isn't written.
pub(crate) fn not_written(alloc: Global, error: TextError) -> CallResult {
    match error {
        TextError::OutOfMemory => Err(AllocError),
        _ => Ok(Some(format!(in alloc; "{error:?}")?)),
    }
}

/// Why options are rejected.
pub(crate) fn no_options(alloc: Global, fault: OptionFault) -> CallResult {
    match fault {
        OptionFault::OutOfMemory => Err(AllocError),
        OptionFault::Skeleton(fault) => {
            let (kind, byte) = (fault.kind(), fault.byte());
            Ok(Some(format!(in alloc; "Skeleton {kind:?} {byte}")?))
        }
        OptionFault::Unsupported(part) => Ok(Some(format!(in alloc; "Unsupported {part:?}")?)),
        OptionFault::BesideSkeleton(option) => {
            Ok(Some(format!(in alloc; "BesideSkeleton {option:?}")?))
        }
        _ => Ok(Some(format!(in alloc; "{fault:?}")?)),
    }
}

/// The fault of a skeleton that asks for what no form has.
fn unsupported(part: &str) -> Option<Unsupported> {
    match part {
        "System" => Some(Unsupported::System),
        "Currency" => Some(Unsupported::Currency),
        _ => None,
    }
}

/// An option that stands beside a skeleton.
fn option_beside(option: &str) -> Option<NumberOption> {
    match option {
        "Percent" => Some(NumberOption::Percent),
        "Permille" => Some(NumberOption::Permille),
        "System" => Some(NumberOption::System),
        _ => None,
    }
}

/// The fault of options that has a skeleton's fault, by the skeleton.
fn skeleton_fault(text: &str) -> Option<OptionFault> {
    match read_skeleton(text) {
        Ok(_) => None,
        Err(fault) => Some(OptionFault::Skeleton(fault)),
    }
}

/// The fault of options of two words.
fn fault_of_skeleton(kind: &str, word: &str) -> Option<OptionFault> {
    match kind {
        "Skeleton" => skeleton_fault(word),
        "Unsupported" => Some(OptionFault::Unsupported(unsupported(word)?)),
        "BesideSkeleton" => Some(OptionFault::BesideSkeleton(option_beside(word)?)),
        _ => None,
    }
}

/// The fault of options of a name.
fn option_fault(name: &str) -> Option<OptionFault> {
    match name {
        "Locale" => Some(OptionFault::Locale),
        "System" => Some(OptionFault::System),
        "Fraction" => Some(OptionFault::Fraction),
        "Significant" => Some(OptionFault::Significant),
        "Increment" => Some(OptionFault::Increment),
        "Integer" => Some(OptionFault::Integer),
        "Scale" => Some(OptionFault::Scale),
        "Precisions" => Some(OptionFault::Precisions),
        "Round" => Some(OptionFault::Round),
        "Accounting" => Some(OptionFault::Accounting),
        "CompactCash" => Some(OptionFault::CompactCash),
        "Together" => Some(OptionFault::Together),
        "CompactIncrement" => Some(OptionFault::CompactIncrement),
        "NothingRounded" => Some(OptionFault::NothingRounded),
        "Explained" => Some(OptionFault::Explained),
        "Fields" => Some(OptionFault::Fields),
        "Names" => Some(OptionFault::Names),
        "Header" => Some(OptionFault::Header),
        "OutOfMemory" => Some(OptionFault::OutOfMemory),
        _ => None,
    }
}

/// The fault of tables of a name.
fn tables_fault(name: &str) -> Option<TablesFault> {
    match name {
        "NotUtf8" => Some(TablesFault::NotUtf8),
        "NotJson" => Some(TablesFault::Refused(TableError::NotJson)),
        _ => None,
    }
}

/// The text of a fault of options, of a skeleton, or of tables.
pub(crate) fn displayed(alloc: Global, kind: &str, name: &str) -> CallResult {
    match kind {
        "OptionFault" => match option_fault(name) {
            Some(fault) => Ok(Some(format!(in alloc; "{fault}")?)),
            None => Ok(None),
        },
        "TablesFault" => match tables_fault(name) {
            Some(fault) => Ok(Some(format!(in alloc; "{fault}")?)),
            None => Ok(None),
        },
        _ => match fault_of_skeleton(kind, name) {
            Some(fault) => Ok(Some(format!(in alloc; "{fault}")?)),
            None => Ok(None),
        },
    }
}
