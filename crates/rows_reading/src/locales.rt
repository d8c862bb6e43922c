//! Texts that are read as a locale writes numbers. Behind the name of the locale may stand
//! `/never` for a formatter without groups.

use crate::CallResult;
use crate::digits::digits_of;
use icu_decimal::DecimalFormatter;
use icu_decimal::options::{DecimalFormatterOptions, GroupingStrategy};
use icu_decimal::preferences::DecimalFormatterPreferences;
use icu_decimal_reading::{NotRead, read_text};
use icu_provider::{DataErrorKind, DataLocale};
use icu_tables::{TableError, Tables};
use rows::Documents;
use std::alloc::{AllocError, Global};

/// The formatter of a locale, if the tables have one.
fn formatter_of(
    alloc: Global,
    tables: &Tables,
    name: &str,
    grouping_strategy: Option<GroupingStrategy>,
) -> Result<Option<DecimalFormatter>, AllocError> {
    let Ok(locale) = DataLocale::try_from_str(name) else {
        return Ok(None);
    };
    let preferences = DecimalFormatterPreferences {
        locale_preferences: locale,
        numbering_system: None,
    };
    let options = DecimalFormatterOptions { grouping_strategy };
    match DecimalFormatter::try_new_unstable(alloc, tables, preferences, options) {
        Ok(formatter) => Ok(Some(formatter)),
        Err(error) => match error.kind {
            DataErrorKind::OutOfMemory => Err(AllocError),
            _ => Ok(None),
        },
    }
}

/// The formatter that a word names.
fn formatter_named(
    alloc: Global,
    tables: &Tables,
    word: &str,
) -> Result<Option<DecimalFormatter>, AllocError> {
    match word.strip_suffix("/never") {
        Some(name) => formatter_of(alloc, tables, name, Some(GroupingStrategy::Never)),
        None => formatter_of(alloc, tables, word, None),
    }
}

/// What a text is read as by a formatter.
fn read(alloc: Global, formatter: &DecimalFormatter, text: &str) -> CallResult {
    match read_text(alloc, formatter, text) {
        Ok(decimal) => digits_of(alloc, &decimal),
        Err(NotRead::NoNumber { byte }) => Ok(Some(format!(in alloc; "NoNumber {byte}")?)),
        Err(NotRead::OutOfMemory) => Err(AllocError),
    }
}

/// What a text is read as by the formatter that a word names.
fn read_by(alloc: Global, tables: &Tables, word: &str, text: &str) -> CallResult {
    match formatter_named(alloc, tables, word)? {
        Some(formatter) => read(alloc, &formatter, text),
        None => Ok(None),
    }
}

/// What `read_text` answers, by the numbers of `locales.json`.
pub(crate) fn returned(alloc: Global, documents: &Documents, word: &str, text: &str) -> CallResult {
    let Some(document) = documents.text("locales.json") else {
        return Ok(None);
    };
    match Tables::from_json(alloc, document) {
        Ok(tables) => read_by(alloc, &tables, word, text),
        Err(TableError::OutOfMemory) => Err(AllocError),
        Err(_) => Ok(None),
    }
}
