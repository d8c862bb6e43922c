//! Ranges of money and of percents: numbers of a locale in a pattern of CLDR, with `-`, `+` and `%`.

use crate::ends::{pattern_of, range};
use crate::faults::Fault;
use crate::locales::{fallback_of, plain, tables};
use crate::written::{RangeWriter, asked};
use icu_dimension_data::{AffixTexts, CldrPattern, SignedPatterns};
use icu_ranges::{CurrencyRangeFormatter, PercentRangeFormatter, RangePattern};
use icu_ranges_readable::are_amount_ranges_readable;
use icu_tables::Tables;
use rows::Documents;
use std::alloc::Global;
use writeable::ASCII_DIGITS;

/// A locale, a pattern of CLDR, and the symbol of a currency, which percents have none of.
pub(crate) type Amounts<'a> = (&'a str, &'a str, &'a str);

/// The patterns of the three signs.
fn patterns(alloc: Global, (_, text, currency): Amounts<'_>) -> Result<SignedPatterns, Fault> {
    let texts = AffixTexts {
        minus_sign: "-",
        plus_sign: "+",
        percent_sign: "%",
        currency,
    };
    let Ok(pattern) = CldrPattern::parse(alloc, text) else {
        return Err(Fault::OutOfMemory);
    };
    match pattern.resolve(alloc, &texts, &ASCII_DIGITS) {
        Ok(patterns) => Ok(patterns),
        Err(_) => Err(Fault::OutOfMemory),
    }
}

/// What a call answers for the range of two words.
fn asked_of<W: RangeWriter>(
    alloc: Global,
    formatter: &W,
    call: &str,
    (start, end): (&str, &str),
) -> Result<String, Fault> {
    asked(alloc, formatter, call, &range(alloc, start, end)?)
}

/// What ranges of money answer.
fn money(
    alloc: Global,
    tables: &Tables,
    call: &str,
    amounts: Amounts<'_>,
    (pattern, start, end): (&str, &str, &str),
) -> Result<String, Fault> {
    let patterns = patterns(alloc, amounts)?;
    let pattern = pattern_of(alloc, pattern)?;
    let numbers = plain(alloc, tables, amounts.0)?;
    let formatter = CurrencyRangeFormatter::new(numbers, patterns, pattern, fallback_of(amounts.0));
    asked_of(alloc, &formatter, call, (start, end))
}

/// What ranges of percents answer.
fn percents(
    alloc: Global,
    tables: &Tables,
    call: &str,
    amounts: Amounts<'_>,
    (pattern, start, end): (&str, &str, &str),
) -> Result<String, Fault> {
    let patterns = patterns(alloc, amounts)?;
    let pattern = pattern_of(alloc, pattern)?;
    let numbers = plain(alloc, tables, amounts.0)?;
    let formatter = PercentRangeFormatter::new(numbers, patterns, pattern, fallback_of(amounts.0));
    asked_of(alloc, &formatter, call, (start, end))
}

/// Whether ranges of amounts are readable.
pub(crate) fn readable(
    alloc: Global,
    documents: &Documents,
    amounts: Amounts<'_>,
    pattern: &str,
) -> Result<String, Fault> {
    let tables = tables(alloc, documents)?;
    let patterns = patterns(alloc, amounts)?;
    let pattern = RangePattern::parse(alloc, pattern)?;
    let numbers = plain(alloc, &tables, amounts.0)?;
    let Ok(answer) = are_amount_ranges_readable(alloc, &numbers, &patterns, &pattern) else {
        return Err(Fault::OutOfMemory);
    };
    Ok(String::from_str(alloc, if answer { "yes" } else { "no" })?)
}

/// What a call of money or percents answers.
pub(crate) fn returned(
    alloc: Global,
    documents: &Documents,
    (kind, call): (&str, &str),
    arguments: &[String],
) -> Result<String, Fault> {
    let tables = tables(alloc, documents)?;
    match arguments {
        [locale, text, symbol, pattern, start, end] if kind == "CurrencyRangeFormatter" => {
            let amounts = (locale.as_str(), text.as_str(), symbol.as_str());
            money(alloc, &tables, call, amounts, (pattern, start, end))
        }
        [locale, text, pattern, start, end] if kind == "PercentRangeFormatter" => {
            let amounts = (locale.as_str(), text.as_str(), "");
            percents(alloc, &tables, call, amounts, (pattern, start, end))
        }
        _ => Err(Fault::Unreadable),
    }
}
