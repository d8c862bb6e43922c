//! Calls of `CurrencyFormatter`.

use crate::amounts::{asked, number_text};
use crate::dimension_faults::{Fault, yes_or_no};
use crate::dimension_loading::{Asked, document, tables_in};
use crate::dimension_making::{decimal, numbers_of, patterns, plain};
use crate::surrounding::surrounding;
use icu_decimal::options::CompactDecimalFormatterOptions;
use icu_decimal::preferences::CompactDecimalFormatterPreferences;
use icu_decimal::{CompactDecimalFormatter, DecimalFormatter};
use icu_dimension::CurrencyFormatter;
use icu_dimension::options::{CurrencyFormatterOptions, CurrencySign, Width};
use icu_dimension_data::CurrencyCode;
use icu_dimension_tables::AllTables;
use icu_tables::Tables;
use rows::Documents;
use std::alloc::Global;

/// Money of a symbol in a pattern, over these numbers.
pub(crate) fn made(
    alloc: Global,
    (numbers, pattern, symbol): (&str, &str, &str),
) -> Result<CurrencyFormatter<DecimalFormatter>, Fault> {
    let numbers = numbers_of(numbers).ok_or(Fault::Unreadable)?;
    let plain = plain(alloc, numbers)?;
    Ok(CurrencyFormatter::new(plain, patterns(alloc, numbers, pattern, symbol)?))
}

/// The code of a currency.
pub(crate) fn code_of(text: &str) -> Option<CurrencyCode> {
    match CurrencyCode::try_from_str(text) {
        Ok(code) => Some(code),
        Err(_) => None,
    }
}

/// The options of money of a word, a code with `/accounting` or `/narrow` behind it.
fn options_of(asked: Asked<'_>, word: &str) -> CurrencyFormatterOptions {
    let mut options = CurrencyFormatterOptions::default();
    options.decimal = asked.numbers();
    if word.ends_with("/accounting") {
        options.sign = CurrencySign::Accounting;
    }
    if word.ends_with("/narrow") {
        options.width = Width::Narrow;
    }
    options
}

/// Money by tables.
fn loaded(
    alloc: Global,
    tables: &AllTables,
    asked: Asked<'_>,
    currency: &str,
) -> Result<CurrencyFormatter<DecimalFormatter>, Fault> {
    let Some(code) = code_of(currency.split('/').next().unwrap_or_default()) else {
        return Err(Fault::Unreadable);
    };
    let options = options_of(asked, currency);
    let prefs = asked.preferences();
    Ok(CurrencyFormatter::try_new_unstable(alloc, tables, prefs, code, options)?)
}

/// What money by these tables answers.
fn by_tables(
    alloc: Global,
    tables: &AllTables,
    (locale, currency): (&str, &str),
    number: &str,
) -> Result<String, Fault> {
    let formatter = loaded(alloc, tables, Asked::of(locale), currency)?;
    asked(alloc, &formatter, "try_new_unstable", number)
}

/// What money by tables of a document answers.
fn of_loaded(
    alloc: Global,
    documents: &Documents,
    (document, locale, currency): (&str, &str, &str),
    number: &str,
) -> Result<String, Fault> {
    let tables = tables_in(alloc, documents, document)?;
    by_tables(alloc, &tables, (locale, currency), number)
}

/// The short formatter of numbers by tables.
fn short(
    alloc: Global,
    tables: &Tables,
    asked: Asked<'_>,
) -> Result<CompactDecimalFormatter, Fault> {
    let prefs = CompactDecimalFormatterPreferences {
        locale_preferences: asked.locale(),
        numbering_system: asked.system(),
    };
    let options = CompactDecimalFormatterOptions::default();
    Ok(CompactDecimalFormatter::try_new_short_unstable(alloc, tables, prefs, options)?)
}

/// The short formatter of numbers by the tables of a text.
fn short_of(alloc: Global, text: &str, locale: &str) -> Result<CompactDecimalFormatter, Fault> {
    let tables = Tables::from_json(alloc, text)?;
    short(alloc, &tables, Asked::of(locale))
}

/// The short formatter of numbers by a document.
fn short_in(
    alloc: Global,
    documents: &Documents,
    (word, locale): (&str, &str),
) -> Result<CompactDecimalFormatter, Fault> {
    let text = document(alloc, documents, word)?;
    short_of(alloc, text.as_str(), locale)
}

/// Money of a symbol in a pattern, over short numbers.
fn over_short(
    alloc: Global,
    short: CompactDecimalFormatter,
    (pattern, symbol): (&str, &str),
) -> Result<CurrencyFormatter<CompactDecimalFormatter>, Fault> {
    let numbers = numbers_of(".,-").ok_or(Fault::Unreadable)?;
    Ok(CurrencyFormatter::new(short, patterns(alloc, numbers, pattern, symbol)?))
}

/// What money writes for the number of a word.
fn text_of_number(
    alloc: Global,
    formatter: &CurrencyFormatter<CompactDecimalFormatter>,
    number: &str,
) -> Result<String, Fault> {
    number_text(alloc, formatter, &decimal(alloc, number)?)
}

/// What money over short numbers writes.
fn of_short(
    alloc: Global,
    documents: &Documents,
    setting: (&str, &str),
    money: (&str, &str),
    number: &str,
) -> Result<String, Fault> {
    let formatter = over_short(alloc, short_in(alloc, documents, setting)?, money)?;
    text_of_number(alloc, &formatter, number)
}

/// What money that was made answers.
fn of_made(
    alloc: Global,
    formatter: &CurrencyFormatter<DecimalFormatter>,
    call: &str,
    word: &str,
) -> Result<String, Fault> {
    match call {
        "patterns" => surrounding(alloc, formatter.patterns(), word),
        "is_readable" => yes_or_no(alloc, formatter.is_readable()),
        _ => asked(alloc, formatter, call, word),
    }
}

/// What money of a symbol in a pattern answers.
fn by_parts(
    alloc: Global,
    money: (&str, &str, &str),
    call: &str,
    word: &str,
) -> Result<String, Fault> {
    let formatter = made(alloc, money)?;
    of_made(alloc, &formatter, call, word)
}

/// Whether the texts of money show that it isn't of another kind.
fn is_told_apart_from(
    alloc: Global,
    one: &CurrencyFormatter<DecimalFormatter>,
    other: (&str, &str, &str),
) -> Result<String, Fault> {
    let other = made(alloc, other)?;
    yes_or_no(alloc, one.is_told_apart_from(&other))
}

/// Whether the texts of money show which of two kinds it is.
fn is_told_apart(
    alloc: Global,
    one: (&str, &str, &str),
    other: (&str, &str, &str),
) -> Result<String, Fault> {
    let one = made(alloc, one)?;
    is_told_apart_from(alloc, &one, other)
}

/// What a call of money answers.
pub(crate) fn returned(
    alloc: Global,
    documents: &Documents,
    call: &str,
    arguments: &[String],
) -> Result<String, Fault> {
    match arguments {
        [document, locale, currency, number] if call == "try_new_unstable" => {
            of_loaded(alloc, documents, (document, locale, currency), number)
        }
        [document, locale, pattern, symbol, number] if call == "new" => of_short(
            alloc,
            documents,
            (document, locale),
            (pattern, symbol),
            number,
        ),
        [numbers, pattern, symbol] if call == "is_readable" => {
            by_parts(alloc, (numbers, pattern, symbol), call, "")
        }
        [numbers, pattern, symbol, word] => {
            by_parts(alloc, (numbers, pattern, symbol), call, word)
        }
        [numbers, pattern, symbol, others, other, another] if call == "is_told_apart_from" => {
            is_told_apart(alloc, (numbers, pattern, symbol), (others, other, another))
        }
        _ => Err(Fault::Unreadable),
    }
}
