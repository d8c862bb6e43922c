//! Calls of `PercentFormatter`.

use crate::amounts::asked;
use crate::dimension_faults::{Fault, yes_or_no};
use crate::dimension_loading::{Asked, tables_in};
use crate::dimension_making::{decimal, numbers_of, patterns, plain};
use crate::surrounding::surrounding;
use icu_decimal::DecimalFormatter;
use icu_dimension::PercentFormatter;
use icu_dimension_tables::AllTables;
use rows::Documents;
use std::alloc::Global;

/// Percents of these numbers in a pattern.
fn made(
    alloc: Global,
    numbers: &str,
    pattern: &str,
) -> Result<PercentFormatter<DecimalFormatter>, Fault> {
    let numbers = numbers_of(numbers).ok_or(Fault::Unreadable)?;
    let plain = plain(alloc, numbers)?;
    Ok(PercentFormatter::new(plain, patterns(alloc, numbers, pattern, "")?))
}

/// Percents by tables.
fn loaded(
    alloc: Global,
    tables: &AllTables,
    asked: Asked<'_>,
) -> Result<PercentFormatter<DecimalFormatter>, Fault> {
    let options = asked.numbers();
    Ok(PercentFormatter::try_new_unstable(alloc, tables, asked.preferences(), options)?)
}

/// What percents that were made answer.
fn of_made(
    alloc: Global,
    formatter: &PercentFormatter<DecimalFormatter>,
    call: &str,
    word: &str,
) -> Result<String, Fault> {
    match call {
        "patterns" => surrounding(alloc, formatter.patterns(), word),
        "is_readable" => yes_or_no(alloc, formatter.is_readable()),
        _ => asked(alloc, formatter, call, word),
    }
}

/// What percents by these tables answer.
fn by_tables(
    alloc: Global,
    tables: &AllTables,
    locale: &str,
    number: &str,
) -> Result<String, Fault> {
    let formatter = loaded(alloc, tables, Asked::of(locale))?;
    asked(alloc, &formatter, "try_new_unstable", number)
}

/// Permilles by tables.
fn loaded_permilles(
    alloc: Global,
    tables: &AllTables,
    asked: Asked<'_>,
) -> Result<PercentFormatter<DecimalFormatter>, Fault> {
    let (prefs, options) = (asked.preferences(), asked.numbers());
    Ok(PercentFormatter::try_new_permille_unstable(alloc, tables, prefs, options)?)
}

/// What permilles by these tables answer for a number of permilles.
fn permilles_by_tables(
    alloc: Global,
    tables: &AllTables,
    locale: &str,
    number: &str,
) -> Result<String, Fault> {
    let number = decimal(alloc, number)?;
    let formatter = loaded_permilles(alloc, tables, Asked::of(locale))?;
    let mut text = String::new(alloc);
    formatter.write_percents_into(alloc, &number, &mut text)?;
    Ok(text)
}

/// What permilles by tables of a document answer.
fn of_permilles(
    alloc: Global,
    documents: &Documents,
    (document, locale): (&str, &str),
    number: &str,
) -> Result<String, Fault> {
    let tables = tables_in(alloc, documents, document)?;
    permilles_by_tables(alloc, &tables, locale, number)
}

/// What percents by tables of a document answer.
fn of_loaded(
    alloc: Global,
    documents: &Documents,
    (document, locale): (&str, &str),
    number: &str,
) -> Result<String, Fault> {
    let tables = tables_in(alloc, documents, document)?;
    by_tables(alloc, &tables, locale, number)
}

/// What percents of these numbers in a pattern answer.
fn by_parts(
    alloc: Global,
    numbers: &str,
    pattern: &str,
    (call, word): (&str, &str),
) -> Result<String, Fault> {
    let formatter = made(alloc, numbers, pattern)?;
    of_made(alloc, &formatter, call, word)
}

/// What a call of percents answers.
pub(crate) fn returned(
    alloc: Global,
    documents: &Documents,
    call: &str,
    arguments: &[String],
) -> Result<String, Fault> {
    match arguments {
        [numbers, pattern] if call == "is_readable" => {
            by_parts(alloc, numbers, pattern, (call, ""))
        }
        [document, locale, number] if call == "try_new_unstable" => {
            of_loaded(alloc, documents, (document, locale), number)
        }
        [document, locale, number] if call == "try_new_permille_unstable" => {
            of_permilles(alloc, documents, (document, locale), number)
        }
        [numbers, pattern, word] => by_parts(alloc, numbers, pattern, (call, word)),
        _ => Err(Fault::Unreadable),
    }
}
