//! Ranges of numbers with a unit and with the name of a currency: numbers and plural rules of a
//! locale, patterns as `other {0} days; one {0} day`, and entries of categories. A name stands in
//! brackets, as in `{0} [US dollars]`.

use crate::ends;
use crate::ends::range;
use crate::faults::Fault;
use crate::locales::{fallback_of, name_of, plain, tables};
use crate::plural::{category_of, ranges, rules};
use crate::written::{RangeWriter, asked};
use icu_decimal::DecimalFormatter;
use icu_dimension::{LongCurrencyFormatter, NamePattern, NameTexts, UnitsFormatter};
use icu_pattern::{Pattern, SinglePlaceholder};
use icu_plurals::{PluralCategory, PluralElements};
use icu_tables::Tables;
use icu_unit_ranges::{LongCurrencyRangeFormatter, UnitsRangeFormatter};
use rows::Documents;
use std::alloc::Global;

/// What stands around the place of a number, and what is written in a range.
#[derive(Clone, Copy)]
struct Measure<'a> {
    locale: &'a str,
    patterns: &'a str,
    entries: &'a str,
    pattern: &'a str,
    start: &'a str,
    end: &'a str,
}

/// The pattern of a text, with `{0}` in the place of the number, if it has one.
fn pattern_of(alloc: Global, text: &str) -> Result<Pattern<SinglePlaceholder>, Fault> {
    let made = match text.split_once("{0}") {
        Some((before, behind)) => {
            let literal = format!(in alloc; "{before}{behind}")?;
            Pattern::try_new(alloc, Some(before.len()), literal.as_str())
        }
        None => Pattern::try_new(alloc, None, text),
    };
    match made {
        Ok(pattern) => Ok(pattern),
        Err(_) => Err(Fault::OutOfMemory),
    }
}

/// The texts of a name behind its number.
fn texts_of(text: &str) -> Option<NameTexts<'_>> {
    let (around, rest) = text.split_once('[')?;
    let (name, after) = rest.split_once(']')?;
    let (before, between) = around.split_once("{0}")?;
    Some(NameTexts {
        number_first: true,
        before,
        between,
        after,
        name,
    })
}

/// The pattern of a name.
fn name_pattern_of(alloc: Global, text: &str) -> Result<NamePattern, Fault> {
    match texts_of(text) {
        Some(texts) => Ok(NamePattern::new(alloc, &texts)?),
        None => Err(Fault::Unreadable),
    }
}

/// Elements with a value more, for a category.
fn with_value<T: Drop>(
    elements: PluralElements<T>,
    category: PluralCategory,
    value: T,
) -> PluralElements<T> {
    match category {
        PluralCategory::Zero => elements.with_zero_value(Some(value)),
        PluralCategory::One => elements.with_one_value(Some(value)),
        PluralCategory::Two => elements.with_two_value(Some(value)),
        PluralCategory::Few => elements.with_few_value(Some(value)),
        PluralCategory::Many => elements.with_many_value(Some(value)),
        PluralCategory::Other => elements,
    }
}

/// A category and a text, as `one {0} day`.
fn part_of(part: &str) -> Result<(PluralCategory, &str), Fault> {
    let (name, text) = part.split_once(' ').unwrap_or_default();
    match category_of(name) {
        Some(category) => Ok((category, text)),
        None => Err(Fault::Unreadable),
    }
}

/// The patterns of a unit.
fn units_of(
    alloc: Global,
    patterns: &str,
) -> Result<PluralElements<Pattern<SinglePlaceholder>>, Fault> {
    let mut parts = patterns.split("; ");
    let (_, other) = part_of(parts.next().unwrap_or_default())?;
    let mut elements = PluralElements::new(pattern_of(alloc, other)?);
    for part in parts {
        let (category, text) = part_of(part)?;
        elements = with_value(elements, category, pattern_of(alloc, text)?);
    }
    Ok(elements)
}

/// The names of a currency.
fn names_of(alloc: Global, patterns: &str) -> Result<PluralElements<NamePattern>, Fault> {
    let mut parts = patterns.split("; ");
    let (_, other) = part_of(parts.next().unwrap_or_default())?;
    let mut elements = PluralElements::new(name_pattern_of(alloc, other)?);
    for part in parts {
        let (category, text) = part_of(part)?;
        elements = with_value(elements, category, name_pattern_of(alloc, text)?);
    }
    Ok(elements)
}

/// The formatter of single numbers with a unit.
fn single_units(
    alloc: Global,
    tables: &Tables,
    measure: Measure<'_>,
) -> Result<UnitsFormatter<DecimalFormatter>, Fault> {
    let numbers = plain(alloc, tables, measure.locale)?;
    let rules = rules(alloc, tables, name_of(measure.locale))?;
    Ok(UnitsFormatter::new(numbers, rules, units_of(alloc, measure.patterns)?))
}

/// The formatter of single amounts with the name of a currency.
fn single_names(
    alloc: Global,
    tables: &Tables,
    measure: Measure<'_>,
) -> Result<LongCurrencyFormatter<DecimalFormatter>, Fault> {
    let numbers = plain(alloc, tables, measure.locale)?;
    let rules = rules(alloc, tables, name_of(measure.locale))?;
    Ok(LongCurrencyFormatter::new(numbers, rules, names_of(alloc, measure.patterns)?))
}

/// What a call answers for the range of a measure.
fn asked_of<W: RangeWriter>(
    alloc: Global,
    formatter: &W,
    call: &str,
    measure: Measure<'_>,
) -> Result<String, Fault> {
    asked(
        alloc,
        formatter,
        call,
        &range(alloc, measure.start, measure.end)?,
    )
}

/// What ranges with a unit answer.
fn units(
    alloc: Global,
    tables: &Tables,
    call: &str,
    measure: Measure<'_>,
) -> Result<String, Fault> {
    let pattern = ends::pattern_of(alloc, measure.pattern)?;
    let entries = ranges(alloc, measure.entries)?;
    let single = single_units(alloc, tables, measure)?;
    let fallback = fallback_of(measure.locale);
    let formatter = UnitsRangeFormatter::new(single, pattern, entries, fallback);
    asked_of(alloc, &formatter, call, measure)
}

/// What ranges with the name of a currency answer.
fn names(
    alloc: Global,
    tables: &Tables,
    call: &str,
    measure: Measure<'_>,
) -> Result<String, Fault> {
    let pattern = ends::pattern_of(alloc, measure.pattern)?;
    let entries = ranges(alloc, measure.entries)?;
    let single = single_names(alloc, tables, measure)?;
    let fallback = fallback_of(measure.locale);
    let formatter = LongCurrencyRangeFormatter::new(single, pattern, entries, fallback);
    asked_of(alloc, &formatter, call, measure)
}

/// What a call of ranges with a unit or a name answers.
pub(crate) fn returned(
    alloc: Global,
    documents: &Documents,
    (kind, call): (&str, &str),
    arguments: &[String],
) -> Result<String, Fault> {
    let [locale, patterns, entries, pattern, start, end] = arguments else {
        return Err(Fault::Unreadable);
    };
    let measure = Measure {
        locale,
        patterns,
        entries,
        pattern,
        start,
        end,
    };
    let tables = tables(alloc, documents)?;
    match kind {
        "UnitsRangeFormatter" => units(alloc, &tables, call, measure),
        _ => names(alloc, &tables, call, measure),
    }
}
