//! Calls of `CompactRows`. Two rows are spelled `3 3 ¤0K, 6 6 ¤0M`, each a type, an exponent and a
//! pattern.

use crate::dimension_faults::{Fault, said};
use crate::dimension_making::sign_of;
use crate::signed_patterns::texts_of;
use fixed_decimal::Sign;
use icu_decimal_data::CompactPatterns;
use icu_dimension_data::{CldrPattern, CompactCurrencyPatterns, CompactRow, CompactRows};
use icu_pattern::{PatternRef, SinglePlaceholder};
use icu_plurals::PluralElements;
use std::alloc::Global;
use writeable::ASCII_DIGITS;

/// The digits of `hanidec`, which aren't of the general category Nd.
const HANIDEC: [char; 10] = ['〇', '一', '二', '三', '四', '五', '六', '七', '八', '九'];

/// The row that a text spells.
fn row_of(alloc: Global, text: &str) -> Result<CompactRow, Fault> {
    let (log10_type, rest) = text.split_once(' ').ok_or(Fault::Unreadable)?;
    let (exponent, pattern) = rest.split_once(' ').ok_or(Fault::Unreadable)?;
    match (log10_type.parse(), exponent.parse()) {
        (Ok(log10_type), Ok(exponent)) => Ok(CompactRow {
            log10_type,
            exponent,
            patterns: PluralElements::new(CldrPattern::parse(alloc, pattern)?),
        }),
        _ => Err(Fault::Unreadable),
    }
}

/// Two rows by rising types.
fn two_rows(alloc: Global, first: CompactRow, second: CompactRow) -> Result<CompactRows, Fault> {
    if first.log10_type < second.log10_type {
        match Vec::from_array(alloc, [first, second]) {
            Ok(rows) => Ok(CompactRows { rows }),
            Err(_) => Err(Fault::OutOfMemory),
        }
    } else {
        Err(Fault::Unreadable)
    }
}

/// The rows that a word spells.
fn rows_of(alloc: Global, word: &str) -> Result<CompactRows, Fault> {
    let (first, second) = word.split_once(", ").ok_or(Fault::Unreadable)?;
    let first = row_of(alloc, first)?;
    two_rows(alloc, first, row_of(alloc, second)?)
}

/// A copy of them.
fn copied_rows(alloc: Global, word: &str) -> Result<CompactRows, Fault> {
    Ok(rows_of(alloc, word)?.copy(alloc)?)
}

/// The tables of a copy of rows, with texts and digits.
fn resolved(
    alloc: Global,
    word: &str,
    texts: &str,
    digits: &str,
) -> Result<CompactCurrencyPatterns, Fault> {
    let texts = texts_of(texts)?;
    let rows = copied_rows(alloc, word)?;
    match digits {
        "latn" => Ok(rows.resolve(alloc, &texts, &ASCII_DIGITS)?),
        "hanidec" => Ok(rows.resolve(alloc, &texts, &HANIDEC)?),
        _ => Err(Fault::Unreadable),
    }
}

/// The table of a sign.
fn table_of(tables: &CompactCurrencyPatterns, sign: Sign) -> &CompactPatterns<SinglePlaceholder> {
    match sign {
        Sign::None => &tables.none,
        Sign::Negative => &tables.minus,
        Sign::Positive => &tables.plus,
    }
}

/// The exponent of an entry and its pattern for all other numbers.
fn entry_text(
    alloc: Global,
    exponent: u8,
    pattern: Option<PatternRef<'_, SinglePlaceholder>>,
) -> Result<String, Fault> {
    let pattern = pattern.ok_or(Fault::Unreadable)?;
    let placeholder = pattern.placeholder().ok_or(Fault::Unreadable)?;
    let halves = pattern.literal().split_at_checked(placeholder);
    let (before, behind) = halves.ok_or(Fault::Unreadable)?;
    Ok(format!(in alloc; "{exponent} {before}{{0}}{behind}")?)
}

/// The entry of a table at a magnitude.
fn entry_at(
    alloc: Global,
    table: &CompactPatterns<SinglePlaceholder>,
    magnitude: &str,
) -> Result<String, Fault> {
    let Ok(magnitude) = magnitude.parse() else {
        return Err(Fault::Unreadable);
    };
    match table.entry_index(magnitude) {
        Some(index) => entry_text(alloc, table.exponent(index), table.slot(index, 7)),
        None => said(alloc, "none"),
    }
}

/// Whether rows make tables.
fn judged(alloc: Global, word: &str, texts: &str, digits: &str) -> Result<String, Fault> {
    match resolved(alloc, word, texts, digits) {
        Ok(_) => said(alloc, "made"),
        Err(fault) => Err(fault),
    }
}

/// The entry at a magnitude of the table of a sign.
fn entry_of(
    alloc: Global,
    (word, texts, digits): (&str, &str, &str),
    sign: &str,
    magnitude: &str,
) -> Result<String, Fault> {
    let sign = sign_of(sign)?;
    let tables = resolved(alloc, word, texts, digits)?;
    entry_at(alloc, table_of(&tables, sign), magnitude)
}

/// What a call of compact rows answers.
pub(crate) fn returned(alloc: Global, call: &str, arguments: &[String]) -> Result<String, Fault> {
    if call != "resolve" {
        return Err(Fault::Unreadable);
    }
    match arguments {
        [rows, texts, digits] => judged(alloc, rows, texts, digits),
        [rows, texts, digits, sign, magnitude] => {
            entry_of(alloc, (rows, texts, digits), sign, magnitude)
        }
        _ => Err(Fault::Unreadable),
    }
}
