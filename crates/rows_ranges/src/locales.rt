//! Ranges by the numbers of a locale: `LOCALE`, or `LOCALE/short` and `LOCALE/long` for compact
//! numbers. Behind them may stand what is written of two equal texts: `/once` for one of them,
//! `/twice` for both, and `/approximately` for one of them with the approximately sign.

use crate::ends::{pattern_of, range};
use crate::faults::Fault;
use crate::written::asked;
use icu_decimal::options::{CompactDecimalFormatterOptions, DecimalFormatterOptions};
use icu_decimal::preferences::{CompactDecimalFormatterPreferences, DecimalFormatterPreferences};
use icu_decimal::{CompactDecimalFormatter, DecimalFormatter};
use icu_decimal_interface::AbstractFormatter;
use icu_provider::DataLocale;
use icu_ranges::{NumberRangeFormatter, RangeIdentityFallback, RangePattern};
use icu_ranges_readable::are_ranges_readable;
use icu_tables::Tables;
use rows::Documents;
use std::alloc::Global;

/// A pattern and two numbers.
type Range<'a> = (&'a str, &'a str, &'a str);

/// What is written for two equal texts, by a word.
pub(crate) fn fallback_of(word: &str) -> RangeIdentityFallback {
    if word.ends_with("/twice") {
        RangeIdentityFallback::Range
    } else if word.ends_with("/once") {
        RangeIdentityFallback::SingleValue
    } else if word.ends_with("/approximately") {
        RangeIdentityFallback::Approximately
    } else {
        RangeIdentityFallback::default()
    }
}

/// What ranges over a formatter answer.
fn over<F: AbstractFormatter + Drop>(
    alloc: Global,
    formatter: F,
    fallback: RangeIdentityFallback,
    call: &str,
    (pattern, start, end): Range<'_>,
) -> Result<String, Fault> {
    let pattern = pattern_of(alloc, pattern)?;
    let formatter = NumberRangeFormatter::new(formatter, pattern, fallback);
    asked(alloc, &formatter, call, &range(alloc, start, end)?)
}

/// The name of the locale in a word.
pub(crate) fn name_of(word: &str) -> &str {
    match word.split_once('/') {
        Some((name, _)) => name,
        None => word,
    }
}

/// The compact formatter of a locale.
fn compact(alloc: Global, tables: &Tables, word: &str) -> Result<CompactDecimalFormatter, Fault> {
    let Ok(locale) = DataLocale::try_from_str(name_of(word)) else {
        return Err(Fault::Unreadable);
    };
    let preferences = CompactDecimalFormatterPreferences {
        locale_preferences: locale,
        numbering_system: None,
    };
    let options = CompactDecimalFormatterOptions::default();
    if word.contains("/short") {
        Ok(CompactDecimalFormatter::try_new_short_unstable(alloc, tables, preferences, options)?)
    } else {
        Ok(CompactDecimalFormatter::try_new_long_unstable(alloc, tables, preferences, options)?)
    }
}

/// The plain formatter of a locale.
pub(crate) fn plain(alloc: Global, tables: &Tables, word: &str) -> Result<DecimalFormatter, Fault> {
    let Ok(locale) = DataLocale::try_from_str(name_of(word)) else {
        return Err(Fault::Unreadable);
    };
    let preferences = DecimalFormatterPreferences {
        locale_preferences: locale,
        numbering_system: None,
    };
    let options = DecimalFormatterOptions::default();
    Ok(DecimalFormatter::try_new_unstable(alloc, tables, preferences, options)?)
}

/// What a call by tables answers.
fn by_tables(
    alloc: Global,
    tables: &Tables,
    call: &str,
    word: &str,
    range: Range<'_>,
) -> Result<String, Fault> {
    let fallback = fallback_of(word);
    if word.contains("/short") || word.contains("/long") {
        over(alloc, compact(alloc, tables, word)?, fallback, call, range)
    } else {
        over(alloc, plain(alloc, tables, word)?, fallback, call, range)
    }
}

/// The tables of `ranges.json`.
pub(crate) fn tables(alloc: Global, documents: &Documents) -> Result<Tables, Fault> {
    match documents.text("ranges.json") {
        Some(text) => Ok(Tables::from_json(alloc, text)?),
        None => Err(Fault::Unreadable),
    }
}

/// Whether ranges of a locale's plain numbers are readable.
pub(crate) fn readable(
    alloc: Global,
    documents: &Documents,
    word: &str,
    pattern: &str,
) -> Result<String, Fault> {
    let tables = tables(alloc, documents)?;
    let formatter = plain(alloc, &tables, word)?;
    let pattern = RangePattern::parse(alloc, pattern)?;
    let answer = are_ranges_readable(&formatter, &pattern);
    Ok(String::from_str(alloc, if answer { "yes" } else { "no" })?)
}

/// What a call of ranges of numbers answers.
pub(crate) fn numbers(
    alloc: Global,
    documents: &Documents,
    call: &str,
    word: &str,
    range: Range<'_>,
) -> Result<String, Fault> {
    let tables = tables(alloc, documents)?;
    by_tables(alloc, &tables, call, word, range)
}
