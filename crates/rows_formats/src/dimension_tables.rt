//! Calls of `AllTables` and of `DimensionTables`.

use crate::CallResult;
use crate::currencies::digits_text;
use crate::dimension_faults::{Fault, reported, said};
use crate::dimension_loading::{document, tables_in};
use crate::money::code_of;
use crate::tables::one_of;
use icu_dimension::provider::{
    CurrencyCompactShortV1, CurrencyDecimalSymbolsV1, CurrencyDigitsV1, CurrencyNamesV1,
    CurrencyPatternsV1, CurrencySymbolsV1, PercentPatternsV1, PermillePatternsV1, UnitsLongV1,
    UnitsNarrowV1, UnitsShortV1, load_currency_digits,
};
use icu_dimension_data::CurrencyCode;
use icu_dimension_tables::{AllTables, DimensionTables};
use icu_provider::{DataError, DataIdentifierBorrowed, DataLocale, DataProvider, DataRequest};
use rows::Documents;
use std::alloc::Global;

/// Why an answer is rejected, if it is.
fn refusal<T: Drop>(returned: Result<T, DataError>) -> Result<(), DataError> {
    match returned {
        Ok(_) => Ok(()),
        Err(error) => Err(error),
    }
}

/// How money of a marker is answered.
fn of_money(
    alloc: Global,
    tables: &AllTables,
    marker: &str,
    request: &DataRequest<'_>,
) -> Option<Result<(), DataError>> {
    match marker {
        "CurrencyPatternsV1" => Some(refusal(<AllTables as DataProvider<CurrencyPatternsV1>>::load(
            tables, alloc, request,
        ))),
        "CurrencySymbolsV1" => Some(refusal(<AllTables as DataProvider<CurrencySymbolsV1>>::load(
            tables, alloc, request,
        ))),
        "CurrencyNamesV1" => Some(refusal(<AllTables as DataProvider<CurrencyNamesV1>>::load(
            tables, alloc, request,
        ))),
        "CurrencyDecimalSymbolsV1" => Some(refusal(<AllTables as DataProvider<
            CurrencyDecimalSymbolsV1,
        >>::load(tables, alloc, request))),
        "CurrencyCompactShortV1" => Some(refusal(<AllTables as DataProvider<
            CurrencyCompactShortV1,
        >>::load(tables, alloc, request))),
        _ => None,
    }
}

/// How digits, percents or units of a marker are answered.
fn of_others(
    alloc: Global,
    tables: &AllTables,
    marker: &str,
    request: &DataRequest<'_>,
) -> Option<Result<(), DataError>> {
    match marker {
        "CurrencyDigitsV1" => Some(refusal(<AllTables as DataProvider<CurrencyDigitsV1>>::load(
            tables, alloc, request,
        ))),
        "PercentPatternsV1" => Some(refusal(<AllTables as DataProvider<PercentPatternsV1>>::load(
            tables, alloc, request,
        ))),
        "PermillePatternsV1" => Some(refusal(<AllTables as DataProvider<PermillePatternsV1>>::load(
            tables, alloc, request,
        ))),
        "UnitsLongV1" => Some(refusal(<AllTables as DataProvider<UnitsLongV1>>::load(
            tables, alloc, request,
        ))),
        "UnitsShortV1" => Some(refusal(<AllTables as DataProvider<UnitsShortV1>>::load(
            tables, alloc, request,
        ))),
        "UnitsNarrowV1" => Some(refusal(<AllTables as DataProvider<UnitsNarrowV1>>::load(
            tables, alloc, request,
        ))),
        _ => None,
    }
}

/// How a request for data of a marker is answered.
fn found(
    alloc: Global,
    tables: &AllTables,
    marker: &str,
    request: &DataRequest<'_>,
) -> Result<String, Fault> {
    let answered = match of_money(alloc, tables, marker, request) {
        Some(answered) => answered,
        None => match of_others(alloc, tables, marker, request) {
            Some(answered) => answered,
            None => return Err(Fault::Unreadable),
        },
    };
    answered?;
    said(alloc, "found")
}

/// The tables of the document of a word for a locale alone.
fn tables_alone(
    alloc: Global,
    documents: &Documents,
    word: &str,
    locale: &DataLocale,
) -> Result<AllTables, Fault> {
    let text = document(alloc, documents, word)?;
    Ok(AllTables::from_json_for_locale(alloc, text.as_str(), locale)?)
}

/// Whether tables were read.
fn read(alloc: Global, tables: Result<AllTables, Fault>) -> CallResult {
    match tables {
        Ok(_) => reported(alloc, said(alloc, "accepted")),
        Err(fault) => reported(alloc, Err(fault)),
    }
}

/// How tables that were read answer by a locale and a name, or without a name.
fn load(
    alloc: Global,
    tables: Result<AllTables, Fault>,
    marker: &str,
    locale: &DataLocale,
    name: &str,
) -> CallResult {
    let id = if name.is_empty() {
        DataIdentifierBorrowed::for_locale(locale)
    } else {
        DataIdentifierBorrowed::for_marker_attributes_and_locale(name, locale)
    };
    let request = DataRequest { id, silent: false };
    match tables {
        Ok(tables) => reported(alloc, found(alloc, &tables, marker, &request)),
        Err(fault) => reported(alloc, Err(fault)),
    }
}

/// The digits of a currency, its digits in cash, and its step of cash.
fn digits_of(alloc: Global, tables: &AllTables, code: CurrencyCode) -> Result<String, Fault> {
    digits_text(alloc, load_currency_digits(alloc, tables)?.of(code))
}

/// The same by a document, for the code of a word.
fn digits(alloc: Global, documents: &Documents, word: &str, code: &str) -> Result<String, Fault> {
    let Some(code) = code_of(code) else {
        return Err(Fault::Unreadable);
    };
    let tables = tables_in(alloc, documents, word)?;
    digits_of(alloc, &tables, code)
}

/// Whether a document is read as tables, and for English alone.
fn read_twice(alloc: Global, documents: &Documents, word: &str) -> CallResult {
    let locale = DataLocale::try_from_str("en").unwrap_or_default();
    let all = read(alloc, tables_in(alloc, documents, word));
    let alone = read(alloc, tables_alone(alloc, documents, word, &locale));
    one_of(alloc, all, alone)
}

/// How the tables of a document answer. Those for the locale alone have to answer the same.
fn load_twice(
    alloc: Global,
    documents: &Documents,
    word: &str,
    marker: &str,
    (locale, name): (&str, &str),
) -> CallResult {
    let locale = DataLocale::try_from_str(locale).unwrap_or_default();
    let all = tables_in(alloc, documents, word);
    let all = load(alloc, all, marker, &locale, name);
    let alone = tables_alone(alloc, documents, word, &locale);
    let alone = load(alloc, alone, marker, &locale, name);
    one_of(alloc, all, alone)
}

/// What a call of all tables answers, whose first argument is a document.
pub(crate) fn result_of_all(
    alloc: Global,
    documents: &Documents,
    call: &str,
    arguments: &[String],
) -> CallResult {
    match arguments {
        [word] if call == "from_json" => read_twice(alloc, documents, word),
        [word, code] if call == "load_currency_digits" => {
            reported(alloc, digits(alloc, documents, word, code))
        }
        [word, marker, locale] if call == "load" => {
            load_twice(alloc, documents, word, marker, (locale, ""))
        }
        [word, marker, locale, name] if call == "load" => {
            load_twice(alloc, documents, word, marker, (locale, name))
        }
        _ => Ok(None),
    }
}

/// What a call of the tables of money, percents and units answers, whose argument is a document.
pub(crate) fn returned(
    alloc: Global,
    documents: &Documents,
    call: &str,
    arguments: &[String],
) -> Result<String, Fault> {
    let ("from_json", [word]) = (call, arguments) else {
        return Err(Fault::Unreadable);
    };
    let text = document(alloc, documents, word)?;
    DimensionTables::from_json(alloc, text.as_str())?;
    said(alloc, "accepted")
}
