//! The plural rules that a message goes by.

use crate::message_given::picks_by;
use crate::tables::TablesFile;
use crate::{Failure, put_note};
use icu_message::{ChoiceKind, Message};
use icu_plurals::{PluralRules, PluralRulesPreferences, RulesError};
use icu_provider::{DataError, DataErrorKind, DataLocale};
use icu_tables::{TableError, Tables};
use std::str;

/// Rules by which each number is `other`.
fn no_rules(rt: &HostRuntime) -> Result<PluralRules, Failure> {
    match PluralRules::from_rules(rt.alloc(), &[]) {
        Ok(rules) => Ok(rules),
        Err(RulesError::OutOfMemory) => Err(Failure::OutOfMemory),
        Err(_) => Err(Failure::Reported),
    }
}

/// Reports that the tables lack rules.
fn lacks(rt: &HostRuntime, locale: &DataLocale, what: &str) -> Failure {
    let name = locale.as_str();
    match format!(in rt.alloc();
        "locnum: {name} has no {what} rules, by which the message picks\n"
    ) {
        Ok(note) => put_note(rt, note.as_bytes()),
        Err(_) => Failure::OutOfMemory,
    }
}

/// The rules that tables answered.
fn rules_of(
    rt: &HostRuntime,
    locale: &DataLocale,
    what: &str,
    answer: Result<PluralRules, DataError>,
) -> Result<PluralRules, Failure> {
    match answer {
        Ok(rules) => Ok(rules),
        Err(error) => match error.kind {
            DataErrorKind::OutOfMemory => Err(Failure::OutOfMemory),
            _ => Err(lacks(rt, locale, what)),
        },
    }
}

/// The tables of numbers of a file.
pub(crate) fn tables_of(
    rt: &HostRuntime,
    file: TablesFile<'_>,
    locale: &DataLocale,
) -> Result<Tables, Failure> {
    let Ok(text) = str::from_utf8(file.bytes) else {
        return Err(Failure::Reported);
    };
    match Tables::from_json_for_locale(rt.alloc(), text, locale) {
        Ok(tables) => Ok(tables),
        Err(TableError::OutOfMemory) => Err(Failure::OutOfMemory),
        Err(error) => match format!(in rt.alloc(); "locnum: {error}\n") {
            Ok(note) => Err(put_note(rt, note.as_bytes())),
            Err(_) => Err(Failure::OutOfMemory),
        },
    }
}

/// The cardinal rules, if the message picks by them.
pub(crate) fn cardinal_rules(
    rt: &HostRuntime,
    tables: &Tables,
    locale: DataLocale,
    message: &Message,
) -> Result<PluralRules, Failure> {
    if !picks_by(message, ChoiceKind::Plural) {
        return no_rules(rt);
    }
    let preferences = PluralRulesPreferences {
        locale_preferences: locale,
    };
    let answer = PluralRules::try_new_cardinal_unstable(rt.alloc(), tables, preferences);
    rules_of(rt, &locale, "plural", answer)
}

/// The ordinal rules, if the message picks by them.
pub(crate) fn ordinal_rules(
    rt: &HostRuntime,
    tables: &Tables,
    locale: DataLocale,
    message: &Message,
) -> Result<PluralRules, Failure> {
    if !picks_by(message, ChoiceKind::SelectOrdinal) {
        return no_rules(rt);
    }
    let preferences = PluralRulesPreferences {
        locale_preferences: locale,
    };
    let answer = PluralRules::try_new_ordinal_unstable(rt.alloc(), tables, preferences);
    rules_of(rt, &locale, "ordinal", answer)
}
