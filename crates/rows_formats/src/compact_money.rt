//! Calls of `CompactCurrencyFormatter`.
//!
//! Tables are spelled by their types, `3-255`: the entry of each type has the symbol with its sign
//! in front of the number, and behind it as many letters k as the type is high. `none` is a table
//! without entries.

use crate::amounts::asked;
use crate::dimension_faults::Fault;
use crate::dimension_loading::{Asked, tables_in};
use crate::dimension_making::rules_of;
use crate::money::{self, code_of};
use crate::surrounding::surrounding;
use icu_decimal::provider::CompactPatterns;
use icu_dimension::CompactCurrencyFormatter;
use icu_dimension::provider::CompactCurrencyPatterns;
use icu_dimension_tables::AllTables;
use icu_pattern::{Pattern, SinglePlaceholder};
use icu_plurals::PluralElements;
use rows::Documents;
use std::alloc::{AllocError, Global};
use std::collections::BTreeMap;

/// The patterns of an entry.
type Elements = PluralElements<Pattern<SinglePlaceholder>>;

/// A text and that many letters behind it.
fn lettered(alloc: Global, before: &str, count: u8) -> Result<String, AllocError> {
    let mut text = String::from_str(alloc, before)?;
    for _ in 0..count {
        text.push('k')?;
    }
    Ok(text)
}

/// The patterns of a type, and its exponent, a multiple of three.
fn entry_of(alloc: Global, before: &str, log10_type: u8) -> Result<(u8, Elements), Fault> {
    let literal = lettered(alloc, before, log10_type)?;
    let pattern = Pattern::try_new(alloc, Some(before.len()), literal.as_str())?;
    let exponent = log10_type - log10_type % 3;
    Ok((exponent, PluralElements::new(pattern)))
}

/// The entries of the types from the first to the last.
fn entries_of(
    alloc: Global,
    before: &str,
    (first, last): (u8, u8),
) -> Result<BTreeMap<u8, (u8, Elements)>, Fault> {
    let mut types = BTreeMap::new(alloc);
    for log10_type in first..=last {
        let entry = entry_of(alloc, before, log10_type)?;
        if types.insert(log10_type, entry).is_err() {
            return Err(Fault::OutOfMemory);
        }
    }
    Ok(types)
}

/// The table of these types for a sign and a symbol.
fn table_of(
    alloc: Global,
    (sign, symbol): (&str, &str),
    types: (u8, u8),
) -> Result<CompactPatterns<SinglePlaceholder>, Fault> {
    let before = format!(in alloc; "{sign}{symbol}")?;
    let entries = entries_of(alloc, before.as_str(), types)?;
    match CompactPatterns::new(alloc, entries, None) {
        Ok(table) => Ok(table),
        Err(_) => Err(Fault::OutOfMemory),
    }
}

/// The tables of the three signs.
fn tables_of(
    alloc: Global,
    symbol: &str,
    types: (u8, u8),
) -> Result<CompactCurrencyPatterns, Fault> {
    let none = table_of(alloc, ("", symbol), types)?;
    let minus = table_of(alloc, ("-", symbol), types)?;
    let plus = table_of(alloc, ("+", symbol), types)?;
    Ok(CompactCurrencyPatterns { none, minus, plus })
}

/// The first and the last type of a word; those of `none` are none.
fn types_of(word: &str) -> Option<(u8, u8)> {
    if word == "none" {
        return Some((1, 0));
    }
    let (first, last) = word.split_once('-')?;
    Some((first.parse().ok()?, last.parse().ok()?))
}

/// Compact money by such tables.
fn made(
    alloc: Global,
    (numbers, pattern, symbol): (&str, &str, &str),
    types: &str,
) -> Result<CompactCurrencyFormatter, Fault> {
    let types = types_of(types).ok_or(Fault::Unreadable)?;
    let rules = rules_of(alloc, "")?;
    let money = money::made(alloc, (numbers, pattern, symbol))?;
    let tables = tables_of(alloc, symbol, types)?;
    Ok(CompactCurrencyFormatter::from_parts(alloc, money, rules, tables)?)
}

/// Compact money by tables of a document.
fn loaded(
    alloc: Global,
    tables: &AllTables,
    asked: Asked<'_>,
    currency: &str,
) -> Result<CompactCurrencyFormatter, Fault> {
    let Some(code) = code_of(currency) else {
        return Err(Fault::Unreadable);
    };
    let options = asked.numbers();
    let prefs = asked.preferences();
    Ok(CompactCurrencyFormatter::try_new_unstable(alloc, tables, prefs, code, options)?)
}

/// What compact money by these tables answers.
fn by_tables(
    alloc: Global,
    tables: &AllTables,
    (locale, currency): (&str, &str),
    number: &str,
) -> Result<String, Fault> {
    let formatter = loaded(alloc, tables, Asked::of(locale), currency)?;
    asked(alloc, &formatter, "try_new_unstable", number)
}

/// What compact money by tables of a document answers.
fn of_loaded(
    alloc: Global,
    documents: &Documents,
    (document, locale, currency): (&str, &str, &str),
    number: &str,
) -> Result<String, Fault> {
    let tables = tables_in(alloc, documents, document)?;
    by_tables(alloc, &tables, (locale, currency), number)
}

/// What compact money that was made answers.
fn of_made(
    alloc: Global,
    formatter: &CompactCurrencyFormatter,
    call: &str,
    word: &str,
) -> Result<String, Fault> {
    match call {
        "patterns" => surrounding(alloc, formatter.patterns(), word),
        _ => asked(alloc, formatter, call, word),
    }
}

/// What compact money by tables of these types answers.
fn by_parts(
    alloc: Global,
    money: (&str, &str, &str),
    types: &str,
    (call, word): (&str, &str),
) -> Result<String, Fault> {
    let formatter = made(alloc, money, types)?;
    of_made(alloc, &formatter, call, word)
}

/// What a call of compact money answers.
pub(crate) fn returned(
    alloc: Global,
    documents: &Documents,
    call: &str,
    arguments: &[String],
) -> Result<String, Fault> {
    match arguments {
        [document, locale, currency, number] if call == "try_new_unstable" => {
            of_loaded(alloc, documents, (document, locale, currency), number)
        }
        [numbers, pattern, symbol, types, word] => {
            by_parts(alloc, (numbers, pattern, symbol), types, (call, word))
        }
        _ => Err(Fault::Unreadable),
    }
}
