//! What the tests are made with: decimals, and English formatters. A call whose allocation failed is
//! made once more.

use fixed_decimal::{Decimal, DecimalError};
use icu_decimal::options::{DecimalFormatterOptions, GroupingStrategy};
use icu_decimal::provider::{CompactError, CompactPatterns, DecimalSymbols, GroupingSizes};
use icu_decimal::{CompactDecimalFormatter, DecimalFormatter};
use icu_pattern::{Pattern, SinglePlaceholder};
use icu_plurals::{PluralCategory, PluralElements, PluralRules};
use std::alloc::Global;
use std::collections::BTreeMap;
use std::process::Abort;

pub(super) const LATIN: [char; 10] = ['0', '1', '2', '3', '4', '5', '6', '7', '8', '9'];

pub(super) const ENGLISH: GroupingSizes = GroupingSizes {
    primary: 3,
    secondary: 3,
    min_grouping: 1,
};

/// What was made, which has to be there.
fn found<T: Drop, E: Drop>(rt: &impl Abort, made: Result<T, E>, what: &str) -> T {
    match made {
        Ok(made) => made,
        Err(_) => panic!(rt; "{what} was refused"),
    }
}

/// Reads a text, once more where memory ran out.
pub(super) fn read(rt: &impl Abort, alloc: Global, text: &str) -> Decimal {
    let read = match Decimal::try_from_str(alloc, text) {
        Err(DecimalError::OutOfMemory) => Decimal::try_from_str(alloc, text),
        answer => answer,
    };
    found(rt, read, text)
}

/// The plain English formatter with a strategy.
pub(super) fn english(
    rt: &impl Abort,
    alloc: Global,
    strategy: GroupingStrategy,
) -> DecimalFormatter {
    let made = match DecimalSymbols::new_en_for_testing(alloc) {
        Ok(symbols) => Ok(symbols),
        Err(_) => DecimalSymbols::new_en_for_testing(alloc),
    };
    let symbols = found(rt, made, "symbols");
    DecimalFormatter::from_parts(symbols, LATIN, DecimalFormatterOptions::from(strategy))
}

/// A pattern with a text behind a number, made once more where memory ran out.
fn pattern(rt: &impl Abort, alloc: Global, text: &str) -> Pattern<SinglePlaceholder> {
    let made = match Pattern::try_new(alloc, Some(0), text) {
        Ok(pattern) => Ok(pattern),
        Err(_) => Pattern::try_new(alloc, Some(0), text),
    };
    found(rt, made, text)
}

/// Entries of a table by their types.
type Map = BTreeMap<u8, (u8, PluralElements<Pattern<SinglePlaceholder>>)>;

/// Puts a type, which is its own exponent, with a text into a map; whether there was memory for it.
fn is_put(rt: &impl Abort, alloc: Global, map: &mut Map, (log10_type, text): (u8, &str)) -> bool {
    let elements = PluralElements::new(pattern(rt, alloc, text));
    map.insert(log10_type, (log10_type, elements)).is_ok()
}

/// Puts a type into a map, once more where memory ran out.
fn insert(rt: &impl Abort, alloc: Global, map: &mut Map, entry: (u8, &str)) {
    if !is_put(rt, alloc, map, entry) && !is_put(rt, alloc, map, entry) {
        panic!(rt; "memory was refused");
    }
}

const SHORT_ENGLISH: &[(u8, &str)] = &[(3, "K"), (6, "M"), (9, "B"), (12, "T")];

/// The map of short English.
fn short_map(rt: &impl Abort, alloc: Global) -> Map {
    let mut map = BTreeMap::new(alloc);
    for &entry in SHORT_ENGLISH {
        insert(rt, alloc, &mut map, entry);
    }
    map
}

/// The table of short English, if memory is found for it.
fn short_table(
    rt: &impl Abort,
    alloc: Global,
) -> Result<CompactPatterns<SinglePlaceholder>, CompactError> {
    CompactPatterns::new(alloc, short_map(rt, alloc), None)
}

/// The same, made once more where memory ran out.
fn patterns(rt: &impl Abort, alloc: Global) -> CompactPatterns<SinglePlaceholder> {
    let made = match short_table(rt, alloc) {
        Ok(table) => Ok(table),
        Err(_) => short_table(rt, alloc),
    };
    found(rt, made, "the table")
}

const ENGLISH_RULES: &[(PluralCategory, &str)] = &[(PluralCategory::One, "i = 1 and v = 0")];

/// The rules of English, read once more where memory ran out.
fn rules(rt: &impl Abort, alloc: Global) -> PluralRules {
    let read = match PluralRules::from_rules(alloc, ENGLISH_RULES) {
        Ok(rules) => Ok(rules),
        Err(_) => PluralRules::from_rules(alloc, ENGLISH_RULES),
    };
    found(rt, read, "the rules")
}

/// The compact formatter of short English with a strategy.
pub(super) fn short_english(
    rt: &impl Abort,
    alloc: Global,
    strategy: GroupingStrategy,
) -> CompactDecimalFormatter {
    let plain = english(rt, alloc, strategy);
    let rules = rules(rt, alloc);
    CompactDecimalFormatter::from_parts(plain, rules, patterns(rt, alloc))
}
