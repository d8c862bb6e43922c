//! Calls of `UnitsFormatter`.

use crate::amounts::asked;
use crate::dimension_faults::Fault;
use crate::dimension_loading::{Asked, tables_in};
use crate::dimension_making::{decimal, numbers_of, pattern_of, plain, rules_of, with_value};
use crate::surrounding::{PLACEHOLDER, operands_of};
use icu_decimal::DecimalFormatter;
use icu_dimension::UnitsFormatter;
use icu_dimension::provider::{UnitsLongV1, UnitsNarrowV1, UnitsShortV1};
use icu_dimension_tables::AllTables;
use icu_pattern::{Pattern, SinglePlaceholder};
use icu_plurals::PluralElements;
use icu_provider::DataError;
use rows::Documents;
use std::alloc::Global;
use writeable::Writeable;

/// The patterns that a word spells.
fn elements_of(
    alloc: Global,
    word: &str,
) -> Result<PluralElements<Pattern<SinglePlaceholder>>, Fault> {
    let mut parts = word.split("; ");
    let other = parts.next().unwrap_or_default().strip_prefix("other ");
    let mut elements = PluralElements::new(pattern_of(alloc, other.unwrap_or_default())?);
    for part in parts {
        let (slot, text) = part.split_once(' ').unwrap_or_default();
        let pattern = pattern_of(alloc, text)?;
        elements = match with_value(elements, slot, pattern) {
            Some(elements) => elements,
            None => return Err(Fault::Unreadable),
        };
    }
    Ok(elements)
}

/// Numbers with a unit of these patterns.
fn made(
    alloc: Global,
    (numbers, rules, patterns): (&str, &str, &str),
) -> Result<UnitsFormatter<DecimalFormatter>, Fault> {
    let numbers = numbers_of(numbers).ok_or(Fault::Unreadable)?;
    let plain = plain(alloc, numbers)?;
    let rules = rules_of(alloc, rules)?;
    Ok(UnitsFormatter::new(plain, rules, elements_of(alloc, patterns)?))
}

/// Numbers with a unit in a width by tables.
fn loaded(
    alloc: Global,
    tables: &AllTables,
    asked: Asked<'_>,
    (width, unit): (&str, &str),
) -> Result<UnitsFormatter<DecimalFormatter>, DataError> {
    let options = asked.numbers();
    let prefs = asked.preferences();
    match width {
        "short" => UnitsFormatter::try_new_unstable::<UnitsShortV1, AllTables>(
            alloc, tables, prefs, unit, options,
        ),
        "narrow" => UnitsFormatter::try_new_unstable::<UnitsNarrowV1, AllTables>(
            alloc, tables, prefs, unit, options,
        ),
        _ => {
            UnitsFormatter::try_new_unstable::<UnitsLongV1, AllTables>(
                alloc, tables, prefs, unit, options,
            )
        }
    }
}

/// What numbers with a unit by these tables answer.
fn by_tables(
    alloc: Global,
    tables: &AllTables,
    locale: &str,
    unit: (&str, &str),
    number: &str,
) -> Result<String, Fault> {
    let formatter = loaded(alloc, tables, Asked::of(locale), unit)?;
    asked(alloc, &formatter, "try_new_unstable", number)
}

/// What numbers with a unit by tables of a document answer.
fn of_loaded(
    alloc: Global,
    documents: &Documents,
    (document, locale): (&str, &str),
    unit: (&str, &str),
    number: &str,
) -> Result<String, Fault> {
    let tables = tables_in(alloc, documents, document)?;
    by_tables(alloc, &tables, locale, unit, number)
}

/// The pattern that is lent for a number.
fn lent(
    alloc: Global,
    formatter: &UnitsFormatter<DecimalFormatter>,
    number: &str,
) -> Result<String, Fault> {
    let number = decimal(alloc, number)?;
    let operands = operands_of(&number);
    let pattern = formatter.elements().get(operands, formatter.plural_rules());
    Ok(pattern.interpolate(PLACEHOLDER).write_to_string(alloc)?)
}

/// What numbers with a unit answer.
fn of_made(
    alloc: Global,
    formatter: &UnitsFormatter<DecimalFormatter>,
    call: &str,
    number: &str,
) -> Result<String, Fault> {
    match call {
        "elements" => lent(alloc, formatter, number),
        _ => asked(alloc, formatter, call, number),
    }
}

/// What numbers with a unit that are made of parts answer.
fn by_parts(
    alloc: Global,
    parts: (&str, &str, &str),
    call: &str,
    number: &str,
) -> Result<String, Fault> {
    let formatter = made(alloc, parts)?;
    of_made(alloc, &formatter, call, number)
}

/// What a call of numbers with a unit answers.
pub(crate) fn returned(
    alloc: Global,
    documents: &Documents,
    call: &str,
    arguments: &[String],
) -> Result<String, Fault> {
    match arguments {
        [document, locale, width, unit, number] if call == "try_new_unstable" => of_loaded(
            alloc,
            documents,
            (document, locale),
            (width, unit),
            number,
        ),
        [numbers, rules, patterns, number] => {
            by_parts(alloc, (numbers, rules, patterns), call, number)
        }
        _ => Err(Fault::Unreadable),
    }
}
