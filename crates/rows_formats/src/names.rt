//! Calls of `LongCurrencyFormatter`.
//!
//! A name is spelled with `{0}` in the place of the number and the name in brackets, as
//! `{0} [US dollars]`.

use crate::amounts::asked;
use crate::dimension_faults::Fault;
use crate::dimension_loading::{Asked, tables_in};
use crate::dimension_making::{decimal, numbers_of, plain, rules_of, with_value};
use crate::money::code_of;
use crate::surrounding::{PLACEHOLDER, operands_of};
use icu_decimal::DecimalFormatter;
use icu_dimension::{LongCurrencyFormatter, NamePattern, NameTexts};
use icu_dimension_tables::AllTables;
use icu_plurals::PluralElements;
use rows::Documents;
use std::alloc::Global;
use writeable::Writeable;

/// The texts of a name.
fn texts_of(text: &str) -> Option<NameTexts<'_>> {
    let (around, rest) = text.split_once('[')?;
    let (name, behind) = rest.split_once(']')?;
    match around.split_once("{0}") {
        Some((before, between)) => Some(NameTexts {
            number_first: true,
            before,
            between,
            after: behind,
            name,
        }),
        None => {
            let (between, after) = behind.split_once("{0}")?;
            Some(NameTexts {
                number_first: false,
                before: around,
                between,
                after,
                name,
            })
        }
    }
}

/// The name that a text spells.
fn name_of(alloc: Global, text: &str) -> Result<NamePattern, Fault> {
    match texts_of(text) {
        Some(texts) => Ok(NamePattern::new(alloc, &texts)?),
        None => Err(Fault::Unreadable),
    }
}

/// The names that a word spells.
fn elements_of(alloc: Global, word: &str) -> Result<PluralElements<NamePattern>, Fault> {
    let mut parts = word.split("; ");
    let other = parts.next().unwrap_or_default().strip_prefix("other ");
    let mut elements = PluralElements::new(name_of(alloc, other.unwrap_or_default())?);
    for part in parts {
        let (slot, text) = part.split_once(' ').unwrap_or_default();
        let name = name_of(alloc, text)?;
        elements = match with_value(elements, slot, name) {
            Some(elements) => elements,
            None => return Err(Fault::Unreadable),
        };
    }
    Ok(elements)
}

/// Amounts with these names, over these numbers.
fn made(
    alloc: Global,
    (numbers, rules, names): (&str, &str, &str),
) -> Result<LongCurrencyFormatter<DecimalFormatter>, Fault> {
    let numbers = numbers_of(numbers).ok_or(Fault::Unreadable)?;
    let plain = plain(alloc, numbers)?;
    let rules = rules_of(alloc, rules)?;
    Ok(LongCurrencyFormatter::new(plain, rules, elements_of(alloc, names)?))
}

/// Amounts with names by tables.
fn loaded(
    alloc: Global,
    tables: &AllTables,
    asked: Asked<'_>,
    currency: &str,
) -> Result<LongCurrencyFormatter<DecimalFormatter>, Fault> {
    let Some(code) = code_of(currency) else {
        return Err(Fault::Unreadable);
    };
    let options = asked.numbers();
    let prefs = asked.preferences();
    Ok(LongCurrencyFormatter::try_new_unstable(alloc, tables, prefs, code, options)?)
}

/// What amounts with names by these tables answer.
fn by_tables(
    alloc: Global,
    tables: &AllTables,
    (locale, currency): (&str, &str),
    number: &str,
) -> Result<String, Fault> {
    let formatter = loaded(alloc, tables, Asked::of(locale), currency)?;
    asked(alloc, &formatter, "try_new_unstable", number)
}

/// What amounts with names by tables of a document answer.
fn of_loaded(
    alloc: Global,
    documents: &Documents,
    (document, locale, currency): (&str, &str, &str),
    number: &str,
) -> Result<String, Fault> {
    let tables = tables_in(alloc, documents, document)?;
    by_tables(alloc, &tables, (locale, currency), number)
}

/// The name that is lent for a number.
fn lent(
    alloc: Global,
    formatter: &LongCurrencyFormatter<DecimalFormatter>,
    number: &str,
) -> Result<String, Fault> {
    let number = decimal(alloc, number)?;
    let operands = operands_of(&number);
    let pattern = formatter.elements().get(operands, formatter.plural_rules());
    Ok(pattern.interpolate(PLACEHOLDER).write_to_string(alloc)?)
}

/// What amounts with names answer.
fn of_made(
    alloc: Global,
    formatter: &LongCurrencyFormatter<DecimalFormatter>,
    call: &str,
    number: &str,
) -> Result<String, Fault> {
    match call {
        "elements" => lent(alloc, formatter, number),
        _ => asked(alloc, formatter, call, number),
    }
}

/// What amounts with names that are made of parts answer.
fn by_parts(
    alloc: Global,
    parts: (&str, &str, &str),
    call: &str,
    number: &str,
) -> Result<String, Fault> {
    let formatter = made(alloc, parts)?;
    of_made(alloc, &formatter, call, number)
}

/// What a call of amounts with names answers.
pub(crate) fn returned(
    alloc: Global,
    documents: &Documents,
    call: &str,
    arguments: &[String],
) -> Result<String, Fault> {
    match arguments {
        [document, locale, currency, number] if call == "try_new_unstable" => {
            of_loaded(alloc, documents, (document, locale, currency), number)
        }
        [numbers, rules, names, number] => {
            by_parts(alloc, (numbers, rules, names), call, number)
        }
        _ => Err(Fault::Unreadable),
    }
}
