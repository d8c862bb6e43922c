//! The paths through modules lead to the same items as the paths of the crate's root: each function
//! here takes an item by the one and answers it by the other.

use icu_base::plurals::category;
use std::test::Fail;

fn error_of_patterns(error: icu_base::pattern::PatternError) -> icu_base::PatternError {
    error
}

fn refusal_of_sinks(refused: icu_base::sink::OutOfMemory) -> icu_base::OutOfMemory {
    refused
}

fn fault_of_sinks(fault: icu_base::sink::WriteFault) -> icu_base::WriteFault {
    fault
}

fn part_of_sinks(part: icu_base::sink::Part) -> icu_base::Part {
    part
}

fn category_of_plurals(category: category::PluralCategory) -> icu_base::PluralCategory {
    category
}

fn preferences_of_plurals(
    preferences: icu_base::plurals::loading::PluralRulesPreferences,
) -> icu_base::PluralRulesPreferences {
    preferences
}

fn locale_of_providers(locale: icu_base::locale::DataLocale) -> icu_base::DataLocale {
    locale
}

fn identifier_of_providers(
    id: icu_base::identifier::DataIdentifierBorrowed<'_>,
) -> icu_base::DataIdentifierBorrowed<'_> {
    id
}

fn error_of_providers(error: icu_base::provider::error::DataError) -> icu_base::DataError {
    error
}

fn kept_as_written(
    pattern: icu_base::pattern::Pattern<icu_base::pattern::SinglePlaceholder>,
) -> icu_base::Pattern<icu_base::SinglePlaceholder> {
    pattern
}

fn kept_without_a_place(
    pattern: icu_base::pattern::Pattern<icu_base::pattern::NoPlaceholder>,
) -> icu_base::Pattern<icu_base::NoPlaceholder> {
    pattern
}

#[test]
fn paths_through_modules_lead_to_the_same_items(rt: HostRuntime) -> Result<(), Fail> {
    assert!(rt; fault_of_sinks(icu_base::sink::WriteFault) == icu_base::WriteFault);
    Ok(())
}
