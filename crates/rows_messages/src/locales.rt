//! Calls of messages by the numbers and the rules of a locale: `LOCALE`, or `LOCALE/short` for
//! compact numbers. `messages.json` has numbers and cardinal rules, and `ordinals.txt` ordinal
//! rules. Each function owns one thing, and lends it to the next.

use crate::CallResult;
use crate::arguments::given;
use crate::faults::{of_arguments, of_text};
use crate::messages::text_of;
use crate::numbers::{of, reason_unshown, shown_numbers};
use icu_decimal::options::{CompactDecimalFormatterOptions, DecimalFormatterOptions};
use icu_decimal::preferences::{CompactDecimalFormatterPreferences, DecimalFormatterPreferences};
use icu_decimal::{CompactDecimalFormatter, DecimalFormatter};
use icu_decimal_interface::AbstractFormatter;
use icu_message::{Message, ShownNumber};
use icu_plurals::{PluralCategory, PluralRules, PluralRulesPreferences, RulesError};
use icu_provider::{DataError, DataErrorKind, DataLocale};
use icu_tables::{TableError, Tables};
use rows::Documents;
use std::alloc::{AllocError, Global};

/// A call: its name and its arguments behind the locale.
type Question<'a> = (&'a str, &'a [String]);

/// Cardinal and ordinal rules.
#[derive(Clone, Copy)]
struct Rules<'a> {
    cardinal: &'a PluralRules,
    ordinal: &'a PluralRules,
}

/// Memory ran out, or a locale isn't in the data.
fn no_data(error: DataError) -> CallResult {
    match error.kind {
        DataErrorKind::OutOfMemory => Err(AllocError),
        _ => Ok(None),
    }
}

/// The category of a name.
fn category_of(name: &str) -> Option<PluralCategory> {
    match name {
        "zero" => Some(PluralCategory::Zero),
        "one" => Some(PluralCategory::One),
        "two" => Some(PluralCategory::Two),
        "few" => Some(PluralCategory::Few),
        "many" => Some(PluralCategory::Many),
        _ => None,
    }
}

/// The rule of `LOCALE CATEGORY: CONDITION`, if it is of this locale.
fn rule_of<'a>(line: &'a str, locale: &str) -> Option<(PluralCategory, &'a str)> {
    let (found, rule) = line.split_once(' ')?;
    let (name, condition) = rule.split_once(": ")?;
    if found != locale {
        return None;
    }
    Some((category_of(name)?, condition))
}

/// The ordinal rules of a locale.
fn ordinal_rules(alloc: Global, document: &str, locale: &str) -> Result<PluralRules, RulesError> {
    let mut rules = Vec::new(alloc);
    for line in document.lines() {
        if let Some(rule) = rule_of(line, locale) {
            if rules.push(rule).is_err() {
                return Err(RulesError::OutOfMemory);
            }
        }
    }
    PluralRules::from_rules(alloc, &rules)
}

/// What a message writes of arguments whose numbers are shown.
fn written(
    alloc: Global,
    message: &Message,
    rules: Rules<'_>,
    arguments: &[String],
    numbers: &[ShownNumber],
) -> CallResult {
    let Some(given) = given(alloc, arguments, numbers)? else {
        return Ok(None);
    };
    let mut out = Vec::new(alloc);
    match message.write(rules.cardinal, rules.ordinal, &given, &mut out) {
        Ok(()) => text_of(alloc, &out),
        Err(fault) => of_arguments(alloc, message, fault),
    }
}

/// What a message writes of arguments.
fn write<F: AbstractFormatter>(
    alloc: Global,
    formatter: &F,
    rules: Rules<'_>,
    text: &str,
    arguments: &[String],
) -> CallResult {
    let numbers = match shown_numbers(alloc, formatter, arguments) {
        Ok(numbers) => numbers,
        Err(fault) => return reason_unshown(alloc, fault),
    };
    match Message::parse(alloc, text) {
        Ok(message) => written(alloc, &message, rules, arguments, &numbers),
        Err(fault) => of_text(alloc, fault),
    }
}

/// What a call with a formatter and rules answers.
fn with_formatter<F: AbstractFormatter>(
    alloc: Global,
    formatter: &F,
    rules: Rules<'_>,
    question: Question<'_>,
) -> CallResult {
    match question {
        ("write", [text, arguments @ ..]) => write(alloc, formatter, rules, text, arguments),
        ("ShownNumber::of", [number]) => of(alloc, formatter, number),
        _ => Ok(None),
    }
}

/// What a call with rules answers.
fn with_rules(
    alloc: Global,
    tables: &Tables,
    (locale, is_short): (DataLocale, bool),
    rules: Rules<'_>,
    question: Question<'_>,
) -> CallResult {
    let preferences = CompactDecimalFormatterPreferences {
        locale_preferences: locale,
        numbering_system: None,
    };
    if is_short {
        let options = CompactDecimalFormatterOptions::default();
        return match CompactDecimalFormatter::try_new_short_unstable(
            alloc,
            tables,
            preferences,
            options,
        ) {
            Ok(formatter) => with_formatter(alloc, &formatter, rules, question),
            Err(error) => no_data(error),
        };
    }
    let preferences = DecimalFormatterPreferences::from(&preferences);
    let options = DecimalFormatterOptions::default();
    match DecimalFormatter::try_new_unstable(alloc, tables, preferences, options) {
        Ok(formatter) => with_formatter(alloc, &formatter, rules, question),
        Err(error) => no_data(error),
    }
}

/// What a call with ordinal rules answers.
fn with_ordinal(
    alloc: Global,
    tables: &Tables,
    (locale, is_short): (DataLocale, bool),
    ordinal: &PluralRules,
    question: Question<'_>,
) -> CallResult {
    let preferences = PluralRulesPreferences {
        locale_preferences: locale,
    };
    match PluralRules::try_new_cardinal_unstable(alloc, tables, preferences) {
        Ok(cardinal) => {
            let rules = Rules {
                cardinal: &cardinal,
                ordinal,
            };
            with_rules(alloc, tables, (locale, is_short), rules, question)
        }
        Err(error) => no_data(error),
    }
}

/// What a call with tables answers.
fn with_tables(
    alloc: Global,
    documents: &Documents,
    tables: &Tables,
    name: &str,
    question: Question<'_>,
) -> CallResult {
    let (name, is_short) = match name.strip_suffix("/short") {
        Some(name) => (name, true),
        None => (name, false),
    };
    let (Ok(locale), Some(document)) = (
        DataLocale::try_from_str(name),
        documents.text("ordinals.txt"),
    ) else {
        return Ok(None);
    };
    match ordinal_rules(alloc, document, name) {
        Ok(ordinal) => with_ordinal(alloc, tables, (locale, is_short), &ordinal, question),
        Err(RulesError::OutOfMemory) => Err(AllocError),
        Err(_) => Ok(None),
    }
}

/// What a call by a locale answers.
pub(crate) fn returned(
    alloc: Global,
    documents: &Documents,
    call: &str,
    arguments: &[String],
) -> CallResult {
    let (Some(text), [name, rest @ ..]) = (documents.text("messages.json"), arguments) else {
        return Ok(None);
    };
    match Tables::from_json(alloc, text) {
        Ok(tables) => with_tables(alloc, documents, &tables, name, (call, rest)),
        Err(TableError::OutOfMemory) => Err(AllocError),
        Err(_) => Ok(None),
    }
}
