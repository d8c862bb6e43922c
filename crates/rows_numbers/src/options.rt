//! Calls of `icu_decimal_options`: groups of digits, options, preferences. A grouping strategy is
//! spelled by its name, grouping sizes as `3,2,1`, and what is absent as `none`.

use crate::providers::spelled;
use crate::symbols::sizes_of;
use crate::words::{equal_or_different, optional, said, yes_or_no};
use icu_decimal_options::grouper::{check, longest_ungrouped, secondary_size};
use icu_decimal_options::options::{
    CompactDecimalFormatterOptions, DecimalFormatterOptions, GroupingStrategy,
};
use icu_decimal_options::preferences::{
    CompactDecimalFormatterPreferences, DecimalFormatterPreferences, NumberingSystem,
};
use icu_plurals::PluralRulesPreferences;
use icu_provider::DataLocale;
use std::alloc::{AllocError, Global};

/// The strategy of a name.
fn strategy_of(name: &str) -> Option<GroupingStrategy> {
    match name {
        "Auto" => Some(GroupingStrategy::Auto),
        "Never" => Some(GroupingStrategy::Never),
        "Always" => Some(GroupingStrategy::Always),
        "Min2" => Some(GroupingStrategy::Min2),
        _ => None,
    }
}

/// The name of a strategy, or `none`.
fn name_of(strategy: Option<GroupingStrategy>) -> &'static str {
    match strategy {
        Some(GroupingStrategy::Auto) => "Auto",
        Some(GroupingStrategy::Never) => "Never",
        Some(GroupingStrategy::Always) => "Always",
        Some(GroupingStrategy::Min2) => "Min2",
        None => "none",
    }
}

/// The magnitudes from 0 to that of a first digit that a separator follows.
fn separators(
    alloc: Global,
    upper: &str,
    strategy: &str,
    sizes: &str,
) -> Result<Option<String>, AllocError> {
    let (Ok(upper), Some(strategy), Some(sizes)) = (
        upper.parse::<i16>(),
        strategy_of(strategy),
        sizes_of(sizes),
    ) else {
        return Ok(None);
    };
    let mut returned = String::new(alloc);
    for magnitude in 0..=upper {
        if check(upper, magnitude, strategy, sizes) {
            let separator = if returned.is_empty() { "" } else { " " };
            let word = format!(in alloc; "{separator}{magnitude}")?;
            returned.push_str(word.as_str())?;
        }
    }
    if returned.is_empty() {
        returned.push_str("none")?;
    }
    Ok(Some(returned))
}

/// Whether a separator follows at a magnitude.
fn checked(
    alloc: Global,
    (upper, magnitude): (&str, &str),
    strategy: &str,
    sizes: &str,
) -> Result<Option<String>, AllocError> {
    match (
        upper.parse(),
        magnitude.parse(),
        strategy_of(strategy),
        sizes_of(sizes),
    ) {
        (Ok(upper), Ok(magnitude), Some(strategy), Some(sizes)) => {
            said(alloc, yes_or_no(check(upper, magnitude, strategy, sizes)))
        }
        _ => Ok(None),
    }
}

fn longest(alloc: Global, strategy: &str, sizes: &str) -> Result<Option<String>, AllocError> {
    match (strategy_of(strategy), sizes_of(sizes)) {
        (Some(strategy), Some(sizes)) => {
            let count = longest_ungrouped(strategy, sizes);
            if count == usize::MAX {
                return said(alloc, "any number");
            }
            Ok(Some(format!(in alloc; "{count}")?))
        }
        _ => Ok(None),
    }
}

fn secondary(alloc: Global, sizes: &str) -> Result<Option<String>, AllocError> {
    match sizes_of(sizes) {
        Some(sizes) => Ok(Some(format!(in alloc; "{}", secondary_size(sizes))?)),
        None => Ok(None),
    }
}

/// Compact options of a strategy, or of plain options with it.
fn compact_from(alloc: Global, kind: &str, strategy: &str) -> Result<Option<String>, AllocError> {
    let options = match (kind, strategy_of(strategy)) {
        ("strategy", Some(strategy)) => CompactDecimalFormatterOptions::from(strategy),
        ("options", grouping_strategy) => {
            CompactDecimalFormatterOptions::from(DecimalFormatterOptions { grouping_strategy })
        }
        _ => return Ok(None),
    };
    said(alloc, name_of(options.grouping_strategy))
}

/// Plain options of a strategy, or of compact options with it.
fn plain_from(alloc: Global, kind: &str, strategy: &str) -> Result<Option<String>, AllocError> {
    let options = match (kind, strategy_of(strategy)) {
        ("strategy", Some(strategy)) => DecimalFormatterOptions::from(strategy),
        ("options", grouping_strategy) => {
            DecimalFormatterOptions::from(CompactDecimalFormatterOptions { grouping_strategy })
        }
        _ => return Ok(None),
    };
    said(alloc, name_of(options.grouping_strategy))
}

/// Compact preferences of a locale and a numbering system or none.
fn preferences(locale: &str, system: &str) -> Option<CompactDecimalFormatterPreferences> {
    let numbering_system = match optional(system) {
        Some(system) => Some(NumberingSystem::try_from_str(system).ok()?),
        None => None,
    };
    Some(CompactDecimalFormatterPreferences {
        locale_preferences: DataLocale::try_from_str(locale).ok()?,
        numbering_system,
    })
}

/// A locale and a numbering system or none.
fn preferred(
    alloc: Global,
    locale: &DataLocale,
    system: &Option<NumberingSystem>,
) -> Result<Option<String>, AllocError> {
    let system = match system {
        Some(system) => system.as_str(),
        None => "none",
    };
    Ok(Some(format!(in alloc; "{} {system}", locale.as_str())?))
}

/// Plain preferences as they are spelled.
fn plain_preferred(
    alloc: Global,
    preferences: &DecimalFormatterPreferences,
) -> Result<Option<String>, AllocError> {
    preferred(
        alloc,
        &preferences.locale_preferences,
        &preferences.numbering_system,
    )
}

/// The identifier that is asked for first in a locale by a preferred numbering system.
fn nu_id(alloc: Global, system: &str, locale: &str) -> Result<Option<String>, AllocError> {
    let (Some(compact), Ok(locale)) = (preferences("und", system), DataLocale::try_from_str(locale))
    else {
        return Ok(None);
    };
    match DecimalFormatterPreferences::from(&compact).nu_id(&locale) {
        Some(id) => spelled(alloc, id),
        None => said(alloc, "none"),
    }
}

/// Whether compact preferences are equal.
fn preferences_eq(
    alloc: Global,
    one: Option<CompactDecimalFormatterPreferences>,
    other: Option<CompactDecimalFormatterPreferences>,
) -> Result<Option<String>, AllocError> {
    match (one, other) {
        (Some(one), Some(other)) => said(alloc, equal_or_different(one == other)),
        _ => Ok(None),
    }
}

/// Plain preferences made of compact ones, as they are spelled.
fn plain_preferences_from(
    alloc: Global,
    locale: &str,
    system: &str,
) -> Result<Option<String>, AllocError> {
    match preferences(locale, system) {
        Some(compact) => plain_preferred(alloc, &DecimalFormatterPreferences::from(&compact)),
        None => Ok(None),
    }
}

/// The locale of preferences of plural rules made of compact ones.
fn plural_preferences_from(
    alloc: Global,
    locale: &str,
    system: &str,
) -> Result<Option<String>, AllocError> {
    match preferences(locale, system) {
        Some(compact) => {
            let plural = PluralRulesPreferences::from(&compact);
            said(alloc, plural.locale_preferences.as_str())
        }
        None => Ok(None),
    }
}

/// What a call without arguments answers: the values that nobody asked to change.
fn defaults(alloc: Global, call: &str) -> Result<Option<String>, AllocError> {
    match call {
        "GroupingStrategy::default" => said(alloc, name_of(Some(GroupingStrategy::default()))),
        "DecimalFormatterOptions::default" => {
            let options = DecimalFormatterOptions::default();
            said(alloc, name_of(options.grouping_strategy))
        }
        "CompactDecimalFormatterOptions::default" => {
            let options = CompactDecimalFormatterOptions::default();
            said(alloc, name_of(options.grouping_strategy))
        }
        "CompactDecimalFormatterPreferences::default" => {
            let compact = CompactDecimalFormatterPreferences::default();
            preferred(
                alloc,
                &compact.locale_preferences,
                &compact.numbering_system,
            )
        }
        "DecimalFormatterPreferences::default" => {
            plain_preferred(alloc, &DecimalFormatterPreferences::default())
        }
        "PluralRulesPreferences::default" => {
            let plural = PluralRulesPreferences::default();
            said(alloc, plural.locale_preferences.as_str())
        }
        _ => Ok(None),
    }
}

/// What a call with two arguments answers.
fn result_of_two(
    alloc: Global,
    call: &str,
    one: &str,
    other: &str,
) -> Result<Option<String>, AllocError> {
    match call {
        "longest_ungrouped" => longest(alloc, one, other),
        "CompactDecimalFormatterOptions::from" => compact_from(alloc, one, other),
        "DecimalFormatterOptions::from" => plain_from(alloc, one, other),
        "nu_id" => nu_id(alloc, one, other),
        "DecimalFormatterPreferences::from" => plain_preferences_from(alloc, one, other),
        "PluralRulesPreferences::from" => plural_preferences_from(alloc, one, other),
        _ => Ok(None),
    }
}

/// What a call with four arguments answers.
fn result_of_four(
    alloc: Global,
    call: &str,
    (one, other): (&str, &str),
    (third, fourth): (&str, &str),
) -> Result<Option<String>, AllocError> {
    match call {
        "check" => checked(alloc, (one, other), third, fourth),
        "CompactDecimalFormatterPreferences::eq" => preferences_eq(
            alloc,
            preferences(one, other),
            preferences(third, fourth),
        ),
        _ => Ok(None),
    }
}

/// What a call of groups, options or preferences answers.
pub(crate) fn returned(
    alloc: Global,
    call: &str,
    arguments: &[String],
) -> Result<Option<String>, AllocError> {
    match arguments {
        [] => defaults(alloc, call),
        [sizes] if call == "secondary_size" => secondary(alloc, sizes),
        [one, other] => result_of_two(alloc, call, one, other),
        [upper, strategy, sizes] if call == "check_each" => {
            separators(alloc, upper, strategy, sizes)
        }
        [one, other, third, fourth] => result_of_four(alloc, call, (one, other), (third, fourth)),
        _ => Ok(None),
    }
}
