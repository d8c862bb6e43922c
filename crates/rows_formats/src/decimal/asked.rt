//! What the arguments of a row ask for.

use fixed_decimal::{Decimal, DecimalError, SignDisplay};
use icu_decimal::options::{
    CompactDecimalFormatterOptions, DecimalFormatterOptions, GroupingStrategy,
};
use icu_decimal::preferences::{CompactDecimalFormatterPreferences, NumberingSystem};
use icu_provider::DataLocale;
use rows::Documents;
use std::alloc::{AllocError, Global};

/// A formatter, and how it is asked.
#[derive(Clone, Copy)]
pub(crate) struct Asked<'a> {
    /// A file of tables, or the text of one.
    pub(crate) file: &'a str,
    pub(crate) locale: DataLocale,
    pub(crate) style: &'a str,
    pub(crate) system: Option<NumberingSystem>,
    pub(crate) grouping: Option<GroupingStrategy>,
    /// Which sign is shown; `None` shows the number's own.
    pub(crate) sign: Option<SignDisplay>,
    /// How many events the sink takes.
    pub(crate) limit: Option<usize>,
}

impl Asked<'_> {
    /// The locale and the numbering system.
    pub(crate) fn preferences(&self) -> CompactDecimalFormatterPreferences {
        CompactDecimalFormatterPreferences {
            locale_preferences: self.locale,
            numbering_system: self.system,
        }
    }

    /// The options of a plain formatter.
    pub(crate) fn options(&self) -> DecimalFormatterOptions {
        match self.grouping {
            Some(grouping) => DecimalFormatterOptions::from(grouping),
            None => DecimalFormatterOptions::default(),
        }
    }

    /// The options of a compact one.
    pub(crate) fn compact_options(&self) -> CompactDecimalFormatterOptions {
        match self.grouping {
            Some(grouping) => CompactDecimalFormatterOptions::from(grouping),
            None => CompactDecimalFormatterOptions::default(),
        }
    }
}

/// The strategy of a name.
fn strategy_of(name: &str) -> Option<GroupingStrategy> {
    match name {
        "Auto" => Some(GroupingStrategy::Auto),
        "Never" => Some(GroupingStrategy::Never),
        "Always" => Some(GroupingStrategy::Always),
        "Min2" => Some(GroupingStrategy::Min2),
        _ => None,
    }
}

/// Which sign a name shows.
fn sign_of(name: &str) -> Option<SignDisplay> {
    match name {
        "ExceptZero" => Some(SignDisplay::ExceptZero),
        "Never" => Some(SignDisplay::Never),
        _ => None,
    }
}

/// Whether a word is an option.
fn is_option(word: &str) -> bool {
    word.starts_with("system=")
        || word.starts_with("grouping=")
        || word.starts_with("sign=")
        || word.starts_with("limit=")
}

/// The text of the option of a name.
fn text_of_option<'a>(options: &'a [String], name: &str) -> Option<&'a str> {
    for option in options {
        if let Some((found, text)) = option.as_str().split_once('=') {
            if found == name {
                return Some(text);
            }
        }
    }
    None
}

/// The preferred numbering system of options.
fn system_in(options: &[String]) -> Option<NumberingSystem> {
    NumberingSystem::try_from_str(text_of_option(options, "system")?).ok()
}

/// How many events the sink of options takes.
fn limit_in(options: &[String]) -> Option<usize> {
    text_of_option(options, "limit")?.parse().ok()
}

/// The strategy of options.
fn grouping_in(options: &[String]) -> Option<GroupingStrategy> {
    strategy_of(text_of_option(options, "grouping")?)
}

/// The sign that options show.
fn sign_in(options: &[String]) -> Option<SignDisplay> {
    sign_of(text_of_option(options, "sign")?)
}

/// The formatter that arguments ask for, and the words behind it.
pub(crate) fn asked_of<'a>(arguments: &'a [String]) -> Option<(Asked<'a>, &'a [String])> {
    let count = arguments
        .iter()
        .position(|argument| is_option(argument.as_str()))
        .unwrap_or(arguments.len());
    let options = arguments.get(count..)?;
    match arguments.get(..count)? {
        [file, locale, style, words @ ..] => {
            let asked = Asked {
                file: file.as_str(),
                locale: DataLocale::try_from_str(locale.as_str()).ok()?,
                style: style.as_str(),
                system: system_in(options),
                grouping: grouping_in(options),
                sign: sign_in(options),
                limit: limit_in(options),
            };
            Some((asked, words))
        }
        _ => None,
    }
}

/// The text of a file of data whose name ends in `.json`, and else the word itself.
pub(crate) fn text_of<'a>(documents: &'a Documents, word: &'a str) -> Option<&'a str> {
    if word.ends_with(".json") {
        documents.text(word)
    } else {
        Some(word)
    }
}

/// The decimal of a text, with the sign that it is to show; `None` if it is none.
pub(crate) fn decimal_of(
    alloc: Global,
    text: &str,
    sign: Option<SignDisplay>,
) -> Result<Option<Decimal>, AllocError> {
    match Decimal::try_from_str(alloc, text) {
        Ok(decimal) => Ok(Some(match sign {
            Some(sign) => decimal.with_sign_display(sign),
            None => decimal,
        })),
        Err(DecimalError::OutOfMemory) => Err(AllocError),
        Err(_) => Ok(None),
    }
}
