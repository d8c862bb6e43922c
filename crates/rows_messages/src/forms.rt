//! Numbers of messages in the form of a number skeleton, by a file of tables: `shown_by FILE LOCALE
//! SKELETON NUMBER`. Each function owns one thing, and lends it to the next.

use crate::CallResult;
use icu_message::ShownNumber;
use icu_plurals::{PluralCategory, PluralRules, PluralRulesPreferences};
use icu_provider::{DataErrorKind, DataLocale};
use icu_tables::{TableError, Tables};
use number_formatters::Settings;
use number_forms::{Form, StartError, TextError};
use number_messages::shown_by;
use number_skeleton::read_skeleton;
use rows::Documents;
use std::alloc::{AllocError, Global};
use std::str;

/// A number in the form of a skeleton: the skeleton and the number.
type Asked<'a> = (&'a str, &'a str);

/// The name of a category.
fn name_of(category: PluralCategory) -> &'static str {
    match category {
        PluralCategory::Zero => "zero",
        PluralCategory::One => "one",
        PluralCategory::Two => "two",
        PluralCategory::Few => "few",
        PluralCategory::Many => "many",
        PluralCategory::Other => "other",
    }
}

/// A number's text, its category, and the whole number that it is.
fn said(alloc: Global, rules: &PluralRules, number: &ShownNumber) -> CallResult {
    let category = name_of(rules.category_for(number.operands()));
    match (str::from_utf8(number.text()), number.whole()) {
        (Ok(text), Some(whole)) => {
            Ok(Some(format!(in alloc; "{text}, {category}, whole {whole}")?))
        }
        (Ok(text), None) => Ok(Some(format!(in alloc; "{text}, {category}")?)),
        (Err(_), _) => Ok(None),
    }
}

/// What a form shows of a number.
fn with_form(alloc: Global, rules: &PluralRules, form: &Form, number: &str) -> CallResult {
    match shown_by(alloc, form, number.as_bytes()) {
        Ok(number) => said(alloc, rules, &number),
        Err(TextError::OutOfMemory) => Err(AllocError),
        Err(error) => Ok(Some(format!(in alloc; "{error}")?)),
    }
}

/// What a form shows of a number that isn't used any more. A form is given back by a function of its
/// own, since all that it may hold is gone through there.
fn with_last_form(alloc: Global, rules: &PluralRules, form: Form, number: &str) -> CallResult {
    let answer = with_form(alloc, rules, &form, number);
    drop(form);
    answer
}

/// What the form of a skeleton shows of a number.
fn with_rules(
    alloc: Global,
    text: &str,
    locale: DataLocale,
    rules: &PluralRules,
    (skeleton, number): Asked<'_>,
) -> CallResult {
    let Ok(skeleton) = read_skeleton(skeleton) else {
        return Ok(None);
    };
    let Ok(settings) = Settings::of_skeleton(locale, &skeleton) else {
        return Ok(None);
    };
    match Form::of(alloc, &settings, text.as_bytes()) {
        Ok(form) => with_last_form(alloc, rules, form, number),
        Err(StartError::OutOfMemory) => Err(AllocError),
        Err(_) => Ok(None),
    }
}

/// What a call with tables answers.
fn with_tables(
    alloc: Global,
    text: &str,
    tables: &Tables,
    locale: DataLocale,
    asked: Asked<'_>,
) -> CallResult {
    let preferences = PluralRulesPreferences {
        locale_preferences: locale,
    };
    match PluralRules::try_new_cardinal_unstable(alloc, tables, preferences) {
        Ok(rules) => with_rules(alloc, text, locale, &rules, asked),
        Err(error) => match error.kind {
            DataErrorKind::OutOfMemory => Err(AllocError),
            _ => Ok(None),
        },
    }
}

/// What a call with a form answers.
pub(crate) fn returned(
    alloc: Global,
    documents: &Documents,
    call: &str,
    arguments: &[String],
) -> CallResult {
    let ("shown_by", [file, locale, skeleton, number]) = (call, arguments) else {
        return Ok(None);
    };
    let (Some(text), Ok(locale)) = (documents.text(file), DataLocale::try_from_str(locale)) else {
        return Ok(None);
    };
    match Tables::from_json(alloc, text) {
        Ok(tables) => with_tables(alloc, text, &tables, locale, (skeleton, number)),
        Err(TableError::OutOfMemory) => Err(AllocError),
        Err(_) => Ok(None),
    }
}
