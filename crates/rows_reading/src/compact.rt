//! Texts that are read as compact numbers: by the short or the long patterns of a locale, or by a
//! table with a pattern for each type from the first to the last, spelled `3-255`. The pattern of
//! such a type has as many letters k behind the number as the type is high, and its exponent is the
//! multiple of three below.

use crate::CallResult;
use crate::digits::digits_of;
use fixed_decimal::DecimalError;
use icu_decimal::options::{
    CompactDecimalFormatterOptions, DecimalFormatterOptions, GroupingStrategy,
};
use icu_decimal::preferences::CompactDecimalFormatterPreferences;
use icu_decimal::{CompactDecimalFormatter, DecimalFormatter};
use icu_decimal_data::{CompactPatterns, DecimalSymbols};
use icu_decimal_reading::{CompactDecimal, NotRead, read_compact};
use icu_pattern::{Pattern, PatternError, SinglePlaceholder};
use icu_plurals::{PluralElements, PluralRules};
use icu_provider::{DataError, DataErrorKind, DataLocale};
use icu_tables::{TableError, Tables};
use rows::Documents;
use std::alloc::{AllocError, Global};
use std::collections::BTreeMap;
use writeable::ASCII_DIGITS;

/// A formatter, if there is one.
type Made = Result<Option<CompactDecimalFormatter>, AllocError>;

/// The patterns of an entry.
type Elements = PluralElements<Pattern<SinglePlaceholder>>;

/// The formatter that was made.
fn made(formatter: Result<CompactDecimalFormatter, DataError>) -> Made {
    match formatter {
        Ok(formatter) => Ok(Some(formatter)),
        Err(error) => match error.kind {
            DataErrorKind::OutOfMemory => Err(AllocError),
            _ => Ok(None),
        },
    }
}

/// The patterns of a type.
fn elements_of(alloc: Global, log10_type: u8) -> Result<Option<Elements>, AllocError> {
    let mut letters = String::new(alloc);
    for _ in 0..log10_type {
        letters.push('k')?;
    }
    match Pattern::try_new(alloc, Some(0), letters.as_str()) {
        Ok(pattern) => Ok(Some(PluralElements::new(pattern))),
        Err(PatternError::OutOfMemory) => Err(AllocError),
        Err(PatternError::BadPlace) => Ok(None),
    }
}

/// The entries of the types from the first to the last.
fn entries_of(
    alloc: Global,
    first: u8,
    last: u8,
) -> Result<BTreeMap<u8, (u8, Elements)>, AllocError> {
    let mut types = BTreeMap::new(alloc);
    for log10_type in first..=last {
        if let Some(elements) = elements_of(alloc, log10_type)? {
            let entry = (log10_type - log10_type % 3, elements);
            if types.insert(log10_type, entry).is_err() {
                return Err(AllocError);
            }
        }
    }
    Ok(types)
}

/// A formatter with a table of the types from the first to the last, and English numbers.
fn typed(alloc: Global, first: u8, last: u8) -> Made {
    let (Ok(symbols), Ok(rules)) = (
        DecimalSymbols::new_en_for_testing(alloc),
        PluralRules::from_rules(alloc, &[]),
    ) else {
        return Err(AllocError);
    };
    let entries = entries_of(alloc, first, last)?;
    let Ok(patterns) = CompactPatterns::new(alloc, entries, None) else {
        return Err(AllocError);
    };
    let options = DecimalFormatterOptions::from(GroupingStrategy::Min2);
    let numbers = DecimalFormatter::from_parts(symbols, ASCII_DIGITS, options);
    Ok(Some(CompactDecimalFormatter::from_parts(numbers, rules, patterns)))
}

/// A formatter with a table of the types that a word spells.
fn typed_by(alloc: Global, word: &str) -> Made {
    let Some((first, last)) = word.split_once('-') else {
        return Ok(None);
    };
    match (first.parse(), last.parse()) {
        (Ok(first), Ok(last)) => typed(alloc, first, last),
        _ => Ok(None),
    }
}

/// The formatter of a locale with the patterns of a width.
fn by_width(alloc: Global, tables: &Tables, locale: &str, width: &str) -> Made {
    let Ok(locale_preferences) = DataLocale::try_from_str(locale) else {
        return Ok(None);
    };
    let preferences = CompactDecimalFormatterPreferences {
        locale_preferences,
        numbering_system: None,
    };
    let options = CompactDecimalFormatterOptions::default();
    match width {
        "short" => made(CompactDecimalFormatter::try_new_short_unstable(
            alloc,
            tables,
            preferences,
            options,
        )),
        "long" => made(CompactDecimalFormatter::try_new_long_unstable(
            alloc,
            tables,
            preferences,
            options,
        )),
        _ => typed_by(alloc, width),
    }
}

/// The digits of the number that a compact number is.
fn number_of(alloc: Global, read: CompactDecimal) -> CallResult {
    match read.into_decimal() {
        Ok(number) => digits_of(alloc, &number),
        Err(DecimalError::OutOfMemory) => Err(AllocError),
        Err(_) => Ok(Some(String::from_str(alloc, "Limit")?)),
    }
}

/// The significand, the exponent and the number.
fn parts_of(alloc: Global, read: CompactDecimal) -> CallResult {
    let exponent = read.exponent;
    let Some(significand) = digits_of(alloc, &read.significand)? else {
        return Ok(None);
    };
    match number_of(alloc, read)? {
        Some(number) => Ok(Some(format!(in alloc; "{significand} {exponent} {number}")?)),
        None => Ok(None),
    }
}

/// What a text is read as by a formatter.
fn read(alloc: Global, formatter: &CompactDecimalFormatter, text: &str) -> CallResult {
    match read_compact(alloc, formatter, text) {
        Ok(read) => parts_of(alloc, read),
        Err(NotRead::NoNumber { byte }) => Ok(Some(format!(in alloc; "NoNumber {byte}")?)),
        Err(NotRead::OutOfMemory) => Err(AllocError),
    }
}

/// What a text is read as by the tables.
fn read_by(
    alloc: Global,
    tables: &Tables,
    (locale, width): (&str, &str),
    text: &str,
) -> CallResult {
    match by_width(alloc, tables, locale, width)? {
        Some(formatter) => read(alloc, &formatter, text),
        None => Ok(None),
    }
}

/// What `read_compact` answers, by the patterns of `locales.json`.
pub(crate) fn returned(
    alloc: Global,
    documents: &Documents,
    by: (&str, &str),
    text: &str,
) -> CallResult {
    let Some(document) = documents.text("locales.json") else {
        return Ok(None);
    };
    match Tables::from_json(alloc, document) {
        Ok(tables) => read_by(alloc, &tables, by, text),
        Err(TableError::OutOfMemory) => Err(AllocError),
        Err(_) => Ok(None),
    }
}
