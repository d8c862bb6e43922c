//! Formatters of rows. Each function owns one thing, and lends it to the next.

use super::asked::{Asked, text_of};
use super::spelled::no_data;
use super::{compact, plain};
use crate::CallResult;
use icu_decimal::options::DecimalFormatterOptions;
use icu_decimal::preferences::DecimalFormatterPreferences;
use icu_decimal::provider::{
    CompactPatterns, DecimalCompactShortV1, DecimalDigitsV1, DecimalSymbols, DecimalSymbolsV1,
};
use icu_decimal::{CompactDecimalFormatter, DecimalFormatter};
use icu_pattern::SinglePlaceholder;
use icu_plurals::{PluralRules, PluralRulesPreferences};
use icu_provider::{DataError, DataIdentifierBorrowed, DataProvider, DataRequest};
use icu_tables::{TableError, Tables};
use rows::Documents;
use std::alloc::{AllocError, Global};

/// A call and the words behind its formatter.
pub(crate) type Question<'a> = (&'a str, &'a [String]);

/// Tables, and what is asked of them.
#[derive(Clone, Copy)]
pub(crate) struct Setting<'a> {
    pub(crate) tables: &'a Tables,
    pub(crate) asked: &'a Asked<'a>,
}

/// What a formatter of a file answers.
pub(crate) fn by_file(
    alloc: Global,
    documents: &Documents,
    asked: &Asked<'_>,
    question: Question<'_>,
) -> CallResult {
    match text_of(documents, asked.file) {
        Some(text) => by_text(alloc, text, asked, question),
        None => Ok(None),
    }
}

/// What a formatter by the tables of a text answers.
fn by_text(alloc: Global, text: &str, asked: &Asked<'_>, question: Question<'_>) -> CallResult {
    match Tables::from_json(alloc, text) {
        Ok(tables) => by_tables(
            alloc,
            Setting {
                tables: &tables,
                asked,
            },
            question,
        ),
        Err(TableError::OutOfMemory) => Err(AllocError),
        Err(_) => Ok(None),
    }
}

/// What a formatter by tables answers.
fn by_tables(alloc: Global, setting: Setting<'_>, question: Question<'_>) -> CallResult {
    match setting.asked.style {
        "plain" => of_plain(alloc, setting, question),
        "short" => of_short(alloc, setting, question),
        "long" => of_long(alloc, setting, question),
        "parts" => of_parts(alloc, setting, question),
        "short_parts" => of_short_parts(alloc, setting, question),
        _ => Ok(None),
    }
}

/// The plain formatter.
pub(crate) fn plain_of(alloc: Global, setting: Setting<'_>) -> Result<DecimalFormatter, DataError> {
    let preferences = DecimalFormatterPreferences::from(&setting.asked.preferences());
    DecimalFormatter::try_new_unstable(alloc, setting.tables, preferences, setting.asked.options())
}

fn of_plain(alloc: Global, setting: Setting<'_>, question: Question<'_>) -> CallResult {
    match plain_of(alloc, setting) {
        Ok(formatter) => plain::returned(alloc, setting, &formatter, question),
        Err(error) => no_data(alloc, error),
    }
}

fn of_short(alloc: Global, setting: Setting<'_>, question: Question<'_>) -> CallResult {
    match CompactDecimalFormatter::try_new_short_unstable(
        alloc,
        setting.tables,
        setting.asked.preferences(),
        setting.asked.compact_options(),
    ) {
        Ok(formatter) => compact::returned(alloc, setting, &formatter, question),
        Err(error) => no_data(alloc, error),
    }
}

fn of_long(alloc: Global, setting: Setting<'_>, question: Question<'_>) -> CallResult {
    match CompactDecimalFormatter::try_new_long_unstable(
        alloc,
        setting.tables,
        setting.asked.preferences(),
        setting.asked.compact_options(),
    ) {
        Ok(formatter) => compact::returned(alloc, setting, &formatter, question),
        Err(error) => no_data(alloc, error),
    }
}

/// The symbols of the locale.
fn symbols_of(alloc: Global, setting: Setting<'_>) -> Result<DecimalSymbols, DataError> {
    let request = DataRequest {
        id: DataIdentifierBorrowed::for_locale(&setting.asked.locale),
        silent: false,
    };
    <Tables as DataProvider<DecimalSymbolsV1>>::load(setting.tables, alloc, &request)
}

/// The digits of a numbering system.
fn digits_of(alloc: Global, tables: &Tables, system: &str) -> Result<[char; 10], DataError> {
    let request = DataRequest {
        id: DataIdentifierBorrowed::for_marker_attributes(system),
        silent: false,
    };
    <Tables as DataProvider<DecimalDigitsV1>>::load(tables, alloc, &request)
}

/// What the plain formatter of parts answers.
fn of_parts(alloc: Global, setting: Setting<'_>, question: Question<'_>) -> CallResult {
    match symbols_of(alloc, setting) {
        Ok(symbols) => of_symbols(alloc, setting, symbols, question),
        Err(error) => no_data(alloc, error),
    }
}

/// What the plain formatter of these symbols answers.
fn of_symbols(
    alloc: Global,
    setting: Setting<'_>,
    symbols: DecimalSymbols,
    question: Question<'_>,
) -> CallResult {
    match digits_of(alloc, setting.tables, symbols.numsys()) {
        Ok(digits) => {
            let formatter = DecimalFormatter::from_parts(symbols, digits, setting.asked.options());
            plain::returned(alloc, setting, &formatter, question)
        }
        Err(error) => no_data(alloc, error),
    }
}

/// The plain formatter in a compact one.
fn inner_of(alloc: Global, setting: Setting<'_>) -> Result<DecimalFormatter, DataError> {
    let preferences = DecimalFormatterPreferences::from(&setting.asked.preferences());
    let options = DecimalFormatterOptions::from(setting.asked.compact_options());
    DecimalFormatter::try_new_unstable(alloc, setting.tables, preferences, options)
}

/// The rules of the locale.
pub(crate) fn rules_of(alloc: Global, setting: Setting<'_>) -> Result<PluralRules, DataError> {
    let preferences = PluralRulesPreferences {
        locale_preferences: setting.asked.locale,
    };
    PluralRules::try_new_cardinal_unstable(alloc, setting.tables, preferences)
}

/// The short patterns of the locale.
fn short_table_of(
    alloc: Global,
    setting: Setting<'_>,
) -> Result<CompactPatterns<SinglePlaceholder>, DataError> {
    let request = DataRequest {
        id: DataIdentifierBorrowed::for_locale(&setting.asked.locale),
        silent: false,
    };
    <Tables as DataProvider<DecimalCompactShortV1>>::load(setting.tables, alloc, &request)
}

/// What the compact formatter of parts answers.
fn of_short_parts(alloc: Global, setting: Setting<'_>, question: Question<'_>) -> CallResult {
    match inner_of(alloc, setting) {
        Ok(inner) => over_inner(alloc, setting, inner, question),
        Err(error) => no_data(alloc, error),
    }
}

/// What the compact formatter over a plain one answers.
fn over_inner(
    alloc: Global,
    setting: Setting<'_>,
    inner: DecimalFormatter,
    question: Question<'_>,
) -> CallResult {
    match rules_of(alloc, setting) {
        Ok(rules) => with_rules(alloc, setting, (inner, rules), question),
        Err(error) => no_data(alloc, error),
    }
}

/// What the compact formatter over a plain one and with rules answers.
fn with_rules(
    alloc: Global,
    setting: Setting<'_>,
    (inner, rules): (DecimalFormatter, PluralRules),
    question: Question<'_>,
) -> CallResult {
    match short_table_of(alloc, setting) {
        Ok(table) => {
            let formatter = CompactDecimalFormatter::from_parts(inner, rules, table);
            compact::returned(alloc, setting, &formatter, question)
        }
        Err(error) => no_data(alloc, error),
    }
}
