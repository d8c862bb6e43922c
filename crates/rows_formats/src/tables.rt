//! Calls of `icu_tables`. A document is a file of data, or its text.

use crate::CallResult;
use crate::decimal::asked::text_of;
use crate::decimal::spelled::{followed, name_of, no_data, said};
use crate::dimension_faults::table_error;
use fixed_decimal::Decimal;
use icu_decimal_data::{
    CompactPatterns, DecimalCompactLongV1, DecimalCompactShortV1, DecimalDigitsV1, DecimalSymbols,
    DecimalSymbolsV1,
};
use icu_pattern::SinglePlaceholder;
use icu_plurals::{PluralOperands, PluralRules, PluralsCardinalV1};
use icu_provider::{DataIdentifierBorrowed, DataLocale, DataProvider, DataRequest};
use icu_tables::{Key, TableError, Tables, compact_from_value};
use rows::Documents;
use serde_json::Value;
use std::alloc::{AllocError, Global};

/// The names of an error of tables, of the key and of the fault.
pub(crate) fn refused(alloc: Global, error: TableError) -> CallResult {
    match error {
        TableError::OutOfMemory => Err(AllocError),
        _ => Ok(Some(table_error(alloc, error)?)),
    }
}

/// An answer, and behind it the other one if that is another.
fn joined(alloc: Global, all: String, alone: &str) -> CallResult {
    if all.as_str() == alone {
        Ok(Some(all))
    } else {
        followed(alloc, all.as_str(), "for the locale", alone)
    }
}

/// Two answers that have to be equal: the first, and behind it the second if it is another one.
pub(crate) fn one_of(alloc: Global, all: CallResult, alone: CallResult) -> CallResult {
    match all?.zip(alone?) {
        Some((all, alone)) => joined(alloc, all, alone.as_str()),
        None => Ok(None),
    }
}

/// Whether a text is read as tables, or why it isn't.
fn read_all(alloc: Global, text: &str) -> CallResult {
    match Tables::from_json(alloc, text) {
        Ok(_) => said(alloc, "read"),
        Err(error) => refused(alloc, error),
    }
}

/// The same for one locale.
fn read_alone(alloc: Global, text: &str, locale: &DataLocale) -> CallResult {
    match Tables::from_json_for_locale(alloc, text, locale) {
        Ok(_) => said(alloc, "read"),
        Err(error) => refused(alloc, error),
    }
}

/// Whether a document is read as tables, and for English alone, or why it isn't.
fn from_json(alloc: Global, documents: &Documents, arguments: &[String]) -> CallResult {
    let [document] = arguments else {
        return Ok(None);
    };
    let locale = DataLocale::try_from_str("en").unwrap_or_default();
    match text_of(documents, document.as_str()) {
        Some(text) => one_of(
            alloc,
            read_all(alloc, text),
            read_alone(alloc, text, &locale),
        ),
        None => Ok(None),
    }
}

/// The decimal separator and the grouping separator of symbols.
fn separators_of(alloc: Global, symbols: &DecimalSymbols) -> CallResult {
    Ok(Some(format!(in alloc;
        "{} {}",
        symbols.decimal_separator(),
        symbols.grouping_separator()
    )?))
}

/// The separators of the symbols.
fn symbols(alloc: Global, tables: &Tables, request: &DataRequest<'_>) -> CallResult {
    match <Tables as DataProvider<DecimalSymbolsV1>>::load(tables, alloc, request) {
        Ok(symbols) => separators_of(alloc, &symbols),
        Err(error) => no_data(alloc, error),
    }
}

/// The text of characters.
fn text_of_characters(alloc: Global, characters: &[char]) -> CallResult {
    let mut text = String::new(alloc);
    for character in characters {
        text.push(*character)?;
    }
    Ok(Some(text))
}

/// The digits.
fn digits(alloc: Global, tables: &Tables, request: &DataRequest<'_>) -> CallResult {
    match <Tables as DataProvider<DecimalDigitsV1>>::load(tables, alloc, request) {
        Ok(digits) => text_of_characters(alloc, &digits),
        Err(error) => no_data(alloc, error),
    }
}

/// The category of one by rules.
fn category_of_one(alloc: Global, rules: &PluralRules) -> CallResult {
    match Decimal::from_u64(alloc, 1) {
        Ok(one) => {
            let operands = PluralOperands::from_significand_and_exponent(&one.absolute, 0);
            said(alloc, name_of(rules.category_for(operands)))
        }
        Err(_) => Err(AllocError),
    }
}

/// The category of one by the rules.
fn rules(alloc: Global, tables: &Tables, request: &DataRequest<'_>) -> CallResult {
    match <Tables as DataProvider<PluralsCardinalV1>>::load(tables, alloc, request) {
        Ok(rules) => category_of_one(alloc, &rules),
        Err(error) => no_data(alloc, error),
    }
}

/// The text of a table's first entry for all other numbers.
fn first_of(alloc: Global, table: &CompactPatterns<SinglePlaceholder>) -> CallResult {
    if table.is_empty() {
        return said(alloc, "empty");
    }
    match table.slot(0, 7) {
        Some(pattern) => Ok(Some(String::from_str(alloc, pattern.literal())?)),
        None => said(alloc, "no text"),
    }
}

/// The first text of the short patterns.
fn short(alloc: Global, tables: &Tables, request: &DataRequest<'_>) -> CallResult {
    match <Tables as DataProvider<DecimalCompactShortV1>>::load(tables, alloc, request) {
        Ok(table) => first_of(alloc, &table),
        Err(error) => no_data(alloc, error),
    }
}

/// The first text of the long patterns.
fn long(alloc: Global, tables: &Tables, request: &DataRequest<'_>) -> CallResult {
    match <Tables as DataProvider<DecimalCompactLongV1>>::load(tables, alloc, request) {
        Ok(table) => first_of(alloc, &table),
        Err(error) => no_data(alloc, error),
    }
}

/// What tables answer for a marker.
fn load_of(alloc: Global, tables: &Tables, marker: &str, request: &DataRequest<'_>) -> CallResult {
    match marker {
        "symbols" => symbols(alloc, tables, request),
        "digits" => digits(alloc, tables, request),
        "rules" => rules(alloc, tables, request),
        "short" => short(alloc, tables, request),
        "long" => long(alloc, tables, request),
        _ => Ok(None),
    }
}

/// What the tables of a text answer.
fn load_all(alloc: Global, text: &str, marker: &str, request: &DataRequest<'_>) -> CallResult {
    match Tables::from_json(alloc, text) {
        Ok(tables) => load_of(alloc, &tables, marker, request),
        Err(error) => refused(alloc, error),
    }
}

/// The same of the tables for one locale.
fn load_alone(
    alloc: Global,
    text: &str,
    locale: &DataLocale,
    marker: &str,
    request: &DataRequest<'_>,
) -> CallResult {
    match Tables::from_json_for_locale(alloc, text, locale) {
        Ok(tables) => load_of(alloc, &tables, marker, request),
        Err(error) => refused(alloc, error),
    }
}

/// What the tables of a document answer for a marker, a locale and a numbering system or none; the
/// tables for the locale alone have to answer the same.
fn load(alloc: Global, text: &str, marker: &str, locale: &DataLocale, system: &str) -> CallResult {
    let id = if system == "none" {
        DataIdentifierBorrowed::for_locale(locale)
    } else {
        DataIdentifierBorrowed::for_marker_attributes_and_locale(system, locale)
    };
    let request = DataRequest { id, silent: false };
    one_of(
        alloc,
        load_all(alloc, text, marker, &request),
        load_alone(alloc, text, locale, marker, &request),
    )
}

/// What the tables answer that the words of a row ask for: a marker, a document, a locale and a
/// numbering system.
fn load_by_words(alloc: Global, documents: &Documents, arguments: &[String]) -> CallResult {
    let [marker, document, locale, system] = arguments else {
        return Ok(None);
    };
    let Some(text) = text_of(documents, document.as_str()) else {
        return Ok(None);
    };
    match DataLocale::try_from_str(locale.as_str()) {
        Ok(locale) => load(alloc, text, marker.as_str(), &locale, system.as_str()),
        Err(_) => Ok(None),
    }
}

/// How many entries the table of a value has, or why it has none.
fn table_of(alloc: Global, value: &Value) -> CallResult {
    match compact_from_value(alloc, value) {
        Ok(table) => Ok(Some(format!(in alloc; "{} entries", table.len())?)),
        Err(error) => refused(alloc, error),
    }
}

/// The same of the value of a text.
fn compact(alloc: Global, text: &str) -> CallResult {
    match Value::from_str(alloc, text) {
        Ok(value) => table_of(alloc, &value),
        Err(_) => Err(AllocError),
    }
}

/// The same of the value of a document.
fn compact_from_document(alloc: Global, documents: &Documents, arguments: &[String]) -> CallResult {
    let [document] = arguments else {
        return Ok(None);
    };
    match text_of(documents, document.as_str()) {
        Some(text) => compact(alloc, text),
        None => Ok(None),
    }
}

/// The name of a key, and behind it the key as it is displayed if that is something else.
fn name(alloc: Global, key: Key) -> CallResult {
    let displayed = key.to_string(alloc)?;
    let name = key.name();
    if displayed.as_str() == name {
        Ok(Some(displayed))
    } else {
        followed(alloc, name, "displayed", displayed.as_str())
    }
}

/// The key of a variant.
fn key_of(variant: &str) -> Option<Key> {
    match variant {
        "Document" => Some(Key::Document),
        "Symbols" => Some(Key::Symbols),
        "Numsys" => Some(Key::Numsys),
        "ExplicitOne" => Some(Key::ExplicitOne),
        _ => None,
    }
}

/// The name of the key of a variant.
fn name_by_variant(alloc: Global, arguments: &[String]) -> CallResult {
    let [variant] = arguments else {
        return Ok(None);
    };
    match key_of(variant.as_str()) {
        Some(key) => name(alloc, key),
        None => Ok(None),
    }
}

/// What a call of tables answers.
pub(crate) fn returned(
    alloc: Global,
    documents: &Documents,
    call: &str,
    arguments: &[String],
) -> CallResult {
    match call {
        "from_json" => from_json(alloc, documents, arguments),
        "load" => load_by_words(alloc, documents, arguments),
        "compact_from_value" => compact_from_document(alloc, documents, arguments),
        "name" => name_by_variant(alloc, arguments),
        _ => Ok(None),
    }
}
