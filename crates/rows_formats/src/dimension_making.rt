//! What formatters of money, percents and units are made of, as rows spell it.
//!
//! Numbers are the decimal separator, the separator of groups and the minus sign, as `.,-` for
//! English; behind them may stand `/arab` for the digits of Arabic and `/never` for no groups.
//! Rules are spelled `one: i = 1; few: i = 2..4`, and elements `other {0} days; one {0} day`.

use crate::dimension_faults::Fault;
use fixed_decimal::{Decimal, Sign};
use icu_decimal::DecimalFormatter;
use icu_decimal::options::{DecimalFormatterOptions, GroupingStrategy};
use icu_decimal_data::{DecimalSymbolStrsBuilder, DecimalSymbols, GroupingSizes};
use icu_dimension_data::{AffixTexts, CldrPattern, SignedPatterns, rounded_to};
use icu_pattern::{Pattern, SinglePlaceholder};
use icu_plurals::{PluralCategory, PluralElements, PluralRules};
use std::alloc::Global;
use writeable::ASCII_DIGITS;

/// The digits of Arabic.
const ARABIC: [char; 10] = ['٠', '١', '٢', '٣', '٤', '٥', '٦', '٧', '٨', '٩'];

/// How numbers are written.
#[derive(Clone, Copy)]
pub(crate) struct Numbers<'a> {
    decimal: &'a str,
    group: &'a str,
    pub(crate) minus: &'a str,
    is_arabic: bool,
    is_grouped: bool,
}

/// A text's first character, and what stands behind it.
fn first_and_rest(text: &str) -> Option<(&str, &str)> {
    let first = text.chars().next()?;
    text.split_at_checked(first.len_utf8())
}

/// The numbers that a word spells.
pub(crate) fn numbers_of(word: &str) -> Option<Numbers<'_>> {
    let signs = word.split('/').next()?;
    let (decimal, rest) = first_and_rest(signs)?;
    let (group, minus) = first_and_rest(rest)?;
    Some(Numbers {
        decimal,
        group,
        minus,
        is_arabic: word.contains("/arab"),
        is_grouped: !word.contains("/never"),
    })
}

/// The symbols of numbers.
fn symbols(alloc: Global, numbers: Numbers<'_>) -> Result<DecimalSymbols, Fault> {
    let builder = DecimalSymbolStrsBuilder {
        minus_sign_prefix: numbers.minus,
        minus_sign_suffix: "",
        plus_sign_prefix: "+",
        plus_sign_suffix: "",
        decimal_separator: numbers.decimal,
        grouping_separator: numbers.group,
        numsys: "latn",
    };
    match builder.build(alloc) {
        Ok(strings) => Ok(DecimalSymbols {
            strings,
            grouping_sizes: GroupingSizes {
                primary: 3,
                secondary: 3,
                min_grouping: 1,
            },
        }),
        Err(_) => Err(Fault::OutOfMemory),
    }
}

/// The plain formatter of numbers.
pub(crate) fn plain(alloc: Global, numbers: Numbers<'_>) -> Result<DecimalFormatter, Fault> {
    let symbols = symbols(alloc, numbers)?;
    let digits = if numbers.is_arabic {
        ARABIC
    } else {
        ASCII_DIGITS
    };
    let grouping_strategy = if numbers.is_grouped {
        None
    } else {
        Some(GroupingStrategy::Never)
    };
    let options = DecimalFormatterOptions { grouping_strategy };
    Ok(DecimalFormatter::from_parts(symbols, digits, options))
}

/// The patterns of a text for a currency, or for percents where the symbol is empty.
pub(crate) fn patterns(
    alloc: Global,
    numbers: Numbers<'_>,
    pattern: &str,
    currency: &str,
) -> Result<SignedPatterns, Fault> {
    let texts = AffixTexts {
        minus_sign: numbers.minus,
        plus_sign: "+",
        percent_sign: "%",
        currency,
    };
    let pattern = CldrPattern::parse(alloc, pattern)?;
    Ok(pattern.resolve(alloc, &texts, &ASCII_DIGITS)?)
}

/// An amount rounded to that many digits.
pub(crate) fn rounded(amount: Decimal, digits: &str) -> Result<Decimal, Fault> {
    let Ok(digits) = digits.parse() else {
        return Err(Fault::Unreadable);
    };
    match rounded_to(amount, digits) {
        Ok(amount) => Ok(amount),
        Err((_, error)) => Err(error.into()),
    }
}

/// The decimal of a word; behind it may stand `/2` for an amount that is rounded to two digits.
pub(crate) fn decimal(alloc: Global, word: &str) -> Result<Decimal, Fault> {
    match word.split_once('/') {
        Some((amount, digits)) => rounded(Decimal::try_from_str(alloc, amount)?, digits),
        None => Ok(Decimal::try_from_str(alloc, word)?),
    }
}

/// The sign of a word.
pub(crate) fn sign_of(word: &str) -> Result<Sign, Fault> {
    match word {
        "none" => Ok(Sign::None),
        "minus" => Ok(Sign::Negative),
        "plus" => Ok(Sign::Positive),
        _ => Err(Fault::Unreadable),
    }
}

/// The category of a name.
fn category_of(name: &str) -> Option<PluralCategory> {
    match name {
        "zero" => Some(PluralCategory::Zero),
        "one" => Some(PluralCategory::One),
        "two" => Some(PluralCategory::Two),
        "few" => Some(PluralCategory::Few),
        "many" => Some(PluralCategory::Many),
        _ => None,
    }
}

/// The rule of `CATEGORY: CONDITION`.
fn rule_of(text: &str) -> Option<(PluralCategory, &str)> {
    let (name, condition) = text.split_once(": ")?;
    Some((category_of(name)?, condition))
}

/// The rules that a word spells.
fn spelled_rules(alloc: Global, text: &str) -> Result<Vec<(PluralCategory, &str)>, Fault> {
    let mut rules = Vec::new(alloc);
    if text.is_empty() {
        return Ok(rules);
    }
    for part in text.split("; ") {
        match rule_of(part) {
            Some(rule) => rules.push(rule)?,
            None => return Err(Fault::Unreadable),
        }
    }
    Ok(rules)
}

/// The plural rules of a word.
pub(crate) fn rules_of(alloc: Global, text: &str) -> Result<PluralRules, Fault> {
    let rules = spelled_rules(alloc, text)?;
    Ok(PluralRules::from_rules(alloc, &rules)?)
}

/// Elements with a value more, for the numbers of a name.
pub(crate) fn with_value<T: Drop>(
    elements: PluralElements<T>,
    name: &str,
    value: T,
) -> Option<PluralElements<T>> {
    match name {
        "one" => Some(elements.with_one_value(Some(value))),
        "two" => Some(elements.with_two_value(Some(value))),
        "few" => Some(elements.with_few_value(Some(value))),
        "many" => Some(elements.with_many_value(Some(value))),
        _ => None,
    }
}

/// The pattern that a text spells, with `{0}` in the place of the number, if it has one.
pub(crate) fn pattern_of(alloc: Global, text: &str) -> Result<Pattern<SinglePlaceholder>, Fault> {
    match text.split_once("{0}") {
        Some((before, behind)) => {
            let literal = format!(in alloc; "{before}{behind}")?;
            Ok(Pattern::try_new(alloc, Some(before.len()), literal.as_str())?)
        }
        None => Ok(Pattern::try_new(alloc, None, text)?),
    }
}
