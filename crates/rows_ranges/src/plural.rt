//! Categories of ranges. Entries are spelled `one,two,two; one,few,few`: the categories of the
//! start, of the end and of the range.

use crate::faults::Fault;
use crate::locales::tables;
use fixed_decimal::{Decimal, DecimalError};
use icu_plurals::{PluralCategory, PluralOperands, PluralRules, PluralRulesPreferences};
use icu_provider::DataLocale;
use icu_ranges::{PluralRange, PluralRanges};
use icu_tables::Tables;
use rows::Documents;
use std::alloc::Global;

/// The category of a name.
pub(crate) fn category_of(name: &str) -> Option<PluralCategory> {
    match name {
        "zero" => Some(PluralCategory::Zero),
        "one" => Some(PluralCategory::One),
        "two" => Some(PluralCategory::Two),
        "few" => Some(PluralCategory::Few),
        "many" => Some(PluralCategory::Many),
        "other" => Some(PluralCategory::Other),
        _ => None,
    }
}

/// The name of a category.
fn name_of(category: PluralCategory) -> &'static str {
    match category {
        PluralCategory::Zero => "zero",
        PluralCategory::One => "one",
        PluralCategory::Two => "two",
        PluralCategory::Few => "few",
        PluralCategory::Many => "many",
        PluralCategory::Other => "other",
    }
}

/// The entry of `START,END,RESULT`.
fn entry_of(text: &str) -> Option<PluralRange> {
    let (start, rest) = text.split_once(',')?;
    let (end, result) = rest.split_once(',')?;
    Some(PluralRange {
        start: category_of(start)?,
        end: category_of(end)?,
        result: category_of(result)?,
    })
}

/// The entries of a text, between `; `.
pub(crate) fn ranges(alloc: Global, text: &str) -> Result<PluralRanges, Fault> {
    let mut entries = Vec::new(alloc);
    if !text.is_empty() {
        for part in text.split("; ") {
            match entry_of(part) {
                Some(entry) => entries.push(entry)?,
                None => return Err(Fault::Unreadable),
            }
        }
    }
    Ok(PluralRanges::try_new(alloc, &entries)?)
}

/// A category's name as a text.
pub(crate) fn said(alloc: Global, category: PluralCategory) -> Result<String, Fault> {
    Ok(String::from_str(alloc, name_of(category))?)
}

/// The category of a range by the categories of its ends.
fn by_categories(
    alloc: Global,
    entries: &str,
    (start, end): (&str, &str),
) -> Result<String, Fault> {
    let ranges = ranges(alloc, entries)?;
    match (category_of(start), category_of(end)) {
        (Some(start), Some(end)) => said(alloc, ranges.resolve_range(start, end)),
        _ => Err(Fault::Unreadable),
    }
}

/// The plural operands of a number.
fn operands(alloc: Global, word: &str) -> Result<PluralOperands, DecimalError> {
    let decimal = Decimal::try_from_str(alloc, word)?;
    Ok(PluralOperands::from_significand_and_exponent(&decimal.absolute, 0))
}

/// The cardinal rules of a locale.
pub(crate) fn rules(alloc: Global, tables: &Tables, locale: &str) -> Result<PluralRules, Fault> {
    let Ok(locale) = DataLocale::try_from_str(locale) else {
        return Err(Fault::Unreadable);
    };
    let preferences = PluralRulesPreferences {
        locale_preferences: locale,
    };
    Ok(PluralRules::try_new_cardinal_unstable(alloc, tables, preferences)?)
}

/// The category of a range of two numbers.
fn by_numbers(
    alloc: Global,
    tables: &Tables,
    (locale, entries): (&str, &str),
    (start, end): (&str, &str),
) -> Result<String, Fault> {
    let rules = rules(alloc, tables, locale)?;
    let ranges = ranges(alloc, entries)?;
    let start = operands(alloc, start)?;
    let end = operands(alloc, end)?;
    said(alloc, ranges.category_for_range(&rules, start, end))
}

/// What a call of categories answers.
pub(crate) fn returned(
    alloc: Global,
    documents: &Documents,
    call: &str,
    arguments: &[String],
) -> Result<String, Fault> {
    match arguments {
        [entries, start, end] if call == "resolve_range" => {
            by_categories(alloc, entries, (start, end))
        }
        [locale, entries, start, end] if call == "category_for_range" => {
            let tables = tables(alloc, documents)?;
            by_numbers(alloc, &tables, (locale, entries), (start, end))
        }
        _ => Err(Fault::Unreadable),
    }
}
