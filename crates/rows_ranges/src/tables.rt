//! Tables of ranges. A document is a file of data, or its text; no system is spelled `-`.

use crate::faults::Fault;
use crate::plural::{category_of, said};
use icu_decimal::preferences::DecimalFormatterPreferences;
use icu_plurals::PluralRulesPreferences;
use icu_provider::{DataError, DataErrorKind, DataLocale, NumberingSystem};
use icu_range_tables::{RangeTables, TableError};
use icu_ranges::{PluralRanges, RangePattern};
use rows::Documents;
use std::alloc::{AllocError, Global};

/// The text of a document.
fn text_of<'a>(documents: &'a Documents, word: &'a str) -> Option<&'a str> {
    if word.ends_with(".json") {
        documents.text(word)
    } else {
        Some(word)
    }
}

/// An error of tables: its name, the key, and of an entry its index and its fault.
fn table_error(alloc: Global, error: TableError) -> Result<String, AllocError> {
    match error {
        TableError::OutOfMemory => Err(AllocError),
        TableError::Missing(key) => format!(in alloc; "Missing {key:?}"),
        TableError::WrongKind(key) => format!(in alloc; "WrongKind {key:?}"),
        TableError::Entry { key, index, fault } => format!(in alloc;
            "Entry {key:?} {index} {fault:?}"
        ),
        _ => format!(in alloc; "{error:?}"),
    }
}

/// Whether a document is read as tables, or why it isn't.
fn from_json(alloc: Global, text: &str) -> Result<String, Fault> {
    match RangeTables::from_json(alloc, text) {
        Ok(_) => Ok(String::from_str(alloc, "read")?),
        Err(error) => Ok(table_error(alloc, error)?),
    }
}

/// The kind of an error of data.
fn data_error(alloc: Global, error: DataError) -> Result<String, Fault> {
    let kind = match error.kind {
        DataErrorKind::OutOfMemory => return Err(Fault::OutOfMemory),
        DataErrorKind::IdentifierNotFound => "IdentifierNotFound",
        DataErrorKind::MarkerNotFound => "MarkerNotFound",
        DataErrorKind::InvalidRequest => "InvalidRequest",
        DataErrorKind::Custom => "Custom",
    };
    Ok(String::from_str(alloc, kind)?)
}

/// The range pattern of a locale, or why there is none.
fn pattern(
    alloc: Global,
    tables: &RangeTables,
    locale: &str,
    system: &str,
) -> Result<Result<RangePattern, DataError>, Fault> {
    let Ok(locale) = DataLocale::try_from_str(locale) else {
        return Err(Fault::Unreadable);
    };
    let preferences = DecimalFormatterPreferences {
        locale_preferences: locale,
        numbering_system: NumberingSystem::try_from_str(system).ok(),
    };
    Ok(RangePattern::try_new_unstable(alloc, tables, preferences))
}

/// The separator of a locale in brackets, or why there is none.
fn separator(
    alloc: Global,
    tables: &RangeTables,
    locale: &str,
    system: &str,
) -> Result<String, Fault> {
    match pattern(alloc, tables, locale, system)? {
        Ok(pattern) => Ok(format!(in alloc; "[{}]", pattern.separator())?),
        Err(error) => data_error(alloc, error),
    }
}

/// The approximately sign of a locale in brackets, or why there is none.
fn approximately_sign(
    alloc: Global,
    tables: &RangeTables,
    locale: &str,
    system: &str,
) -> Result<String, Fault> {
    match pattern(alloc, tables, locale, system)? {
        Ok(pattern) => Ok(format!(in alloc; "[{}]", pattern.approximately_sign())?),
        Err(error) => data_error(alloc, error),
    }
}

/// The category of a locale's ranges by the categories of both ends, or why there is none.
fn category(
    alloc: Global,
    tables: &RangeTables,
    locale: &str,
    (start, end): (&str, &str),
) -> Result<String, Fault> {
    let Ok(locale) = DataLocale::try_from_str(locale) else {
        return Err(Fault::Unreadable);
    };
    let preferences = PluralRulesPreferences {
        locale_preferences: locale,
    };
    let (Some(start), Some(end)) = (category_of(start), category_of(end)) else {
        return Err(Fault::Unreadable);
    };
    match PluralRanges::try_new_unstable(alloc, tables, preferences) {
        Ok(ranges) => said(alloc, ranges.resolve_range(start, end)),
        Err(error) => data_error(alloc, error),
    }
}

/// What a call that loads from the tables of a document answers.
fn loaded(alloc: Global, text: &str, kind: &str, arguments: &[String]) -> Result<String, Fault> {
    let tables = match RangeTables::from_json(alloc, text) {
        Ok(tables) => tables,
        Err(TableError::OutOfMemory) => return Err(Fault::OutOfMemory),
        Err(_) => return Err(Fault::Unreadable),
    };
    match (kind, arguments) {
        ("RangePattern", [locale, system]) => separator(alloc, &tables, locale, system),
        ("approximately_sign", [locale, system]) => {
            approximately_sign(alloc, &tables, locale, system)
        }
        ("PluralRanges", [locale, start, end]) => category(alloc, &tables, locale, (start, end)),
        _ => Err(Fault::Unreadable),
    }
}

/// What a call of tables answers.
pub(crate) fn returned(
    alloc: Global,
    documents: &Documents,
    kind: &str,
    arguments: &[String],
) -> Result<String, Fault> {
    let [document, others @ ..] = arguments else {
        return Err(Fault::Unreadable);
    };
    let Some(text) = text_of(documents, document) else {
        return Err(Fault::Unreadable);
    };
    match kind {
        "RangeTables" => from_json(alloc, text),
        _ => loaded(alloc, text, kind, others),
    }
}
