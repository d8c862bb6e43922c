//! How errors are displayed.

use icu_decimal_data::CompactError;
use icu_pattern::PatternError;
use icu_provider::{BadLocale, BadNumberingSystem, DataError, DataErrorKind};
use std::alloc::{AllocError, Global};
use std::fmt::Display;

/// A value as it is displayed.
fn displayed<T: Display>(alloc: Global, value: &T) -> Result<Option<String>, AllocError> {
    Ok(Some(format!(in alloc; "{value}")?))
}

/// The kind of a name.
fn kind_of(name: &str) -> Option<DataErrorKind> {
    match name {
        "IdentifierNotFound" => Some(DataErrorKind::IdentifierNotFound),
        "MarkerNotFound" => Some(DataErrorKind::MarkerNotFound),
        "InvalidRequest" => Some(DataErrorKind::InvalidRequest),
        "Custom" => Some(DataErrorKind::Custom),
        "OutOfMemory" => Some(DataErrorKind::OutOfMemory),
        _ => None,
    }
}

/// The name of a kind.
fn name_of_kind(kind: DataErrorKind) -> &'static str {
    match kind {
        DataErrorKind::IdentifierNotFound => "IdentifierNotFound",
        DataErrorKind::MarkerNotFound => "MarkerNotFound",
        DataErrorKind::InvalidRequest => "InvalidRequest",
        DataErrorKind::Custom => "Custom",
        DataErrorKind::OutOfMemory => "OutOfMemory",
    }
}

/// The kind of an error that is made of a kind, its context in quotes, and the error as it is
/// displayed.
fn error_of(alloc: Global, kind: &str) -> Result<Option<String>, AllocError> {
    let Some(kind) = kind_of(kind) else {
        return Ok(None);
    };
    let error = DataError::from(kind);
    let name = name_of_kind(error.kind);
    Ok(Some(format!(in alloc; "{name} | \"{}\" | {error}", error.context)?))
}

/// How an error of providers of data is displayed.
fn display_kind(alloc: Global, name: &str) -> Result<Option<String>, AllocError> {
    match kind_of(name) {
        Some(kind) => displayed(alloc, &kind),
        None => Ok(None),
    }
}

/// How the error of a name is displayed.
fn display(alloc: Global, error: &str) -> Result<Option<String>, AllocError> {
    match error {
        "PatternError::BadPlace" => displayed(alloc, &PatternError::BadPlace),
        "PatternError::OutOfMemory" => displayed(alloc, &PatternError::OutOfMemory),
        "CompactError::ExponentsFall" => displayed(alloc, &CompactError::ExponentsFall),
        "CompactError::TooManyZeros" => displayed(alloc, &CompactError::TooManyZeros),
        "BadLocale" => displayed(alloc, &BadLocale),
        "BadNumberingSystem" => displayed(alloc, &BadNumberingSystem),
        other => match other.strip_prefix("DataErrorKind::") {
            Some(name) => display_kind(alloc, name),
            None => Ok(None),
        },
    }
}

/// What a call of errors answers.
pub(crate) fn returned(
    alloc: Global,
    call: &str,
    arguments: &[String],
) -> Result<Option<String>, AllocError> {
    match arguments {
        [kind] if call == "DataError::from" => error_of(alloc, kind),
        [error] if call == "display" => display(alloc, error),
        _ => Ok(None),
    }
}
