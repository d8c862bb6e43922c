//! The tables that formatters of money, percents and units are made by, and what is asked of them.
//!
//! A document is named by its file, `money.json`. Of a file whose name ends in `.txt`, texts between
//! `@` are places: `@name|text@` has the text where no other one is given, as by
//! `places.txt@name=other`. A word that names no file is a document itself.
//! A locale is spelled `ar`, or with a preferred numbering system, a grouping or both behind it,
//! `ar/latn/never`.

use crate::dimension_faults::Fault;
use icu_decimal::options::{DecimalFormatterOptions, GroupingStrategy};
use icu_decimal::preferences::DecimalFormatterPreferences;
use icu_dimension_tables::AllTables;
use icu_provider::{DataLocale, NumberingSystem};
use rows::Documents;
use std::alloc::{AllocError, Global};

/// A template's text, with another text in a place.
fn filled(
    alloc: Global,
    template: &str,
    (setting, other): (&str, &str),
) -> Result<String, AllocError> {
    let mut text = String::new(alloc);
    for (index, piece) in template.split('@').enumerate() {
        let shown = match piece.split_once('|') {
            Some((name, _)) if index % 2 == 1 && name == setting => other,
            Some((_, given)) if index % 2 == 1 => given,
            _ => piece,
        };
        text.push_str(shown)?;
    }
    Ok(text)
}

/// The text of the document that a word names or is.
pub(crate) fn document(alloc: Global, documents: &Documents, word: &str) -> Result<String, Fault> {
    let (name, given) = word.split_once('@').unwrap_or((word, ""));
    if name.ends_with(".txt") {
        let setting = given.split_once('=').unwrap_or(("", ""));
        let template = documents.text(name).ok_or(Fault::Unreadable)?;
        return Ok(filled(alloc, template, setting)?);
    }
    if word.ends_with(".json") {
        let text = documents.text(word).ok_or(Fault::Unreadable)?;
        return Ok(String::from_str(alloc, text)?);
    }
    Ok(String::from_str(alloc, word)?)
}

/// All tables of the document of a word.
pub(crate) fn tables_in(
    alloc: Global,
    documents: &Documents,
    word: &str,
) -> Result<AllTables, Fault> {
    let text = document(alloc, documents, word)?;
    Ok(AllTables::from_json(alloc, text.as_str())?)
}

/// What is asked of tables: a locale, a preferred numbering system, and how digits are grouped.
#[derive(Clone, Copy)]
pub(crate) struct Asked<'a> {
    locale: &'a str,
    system: Option<&'a str>,
    grouping: Option<GroupingStrategy>,
}

/// The grouping of a word.
fn grouping_of(word: &str) -> Option<GroupingStrategy> {
    match word {
        "auto" => Some(GroupingStrategy::Auto),
        "never" => Some(GroupingStrategy::Never),
        "always" => Some(GroupingStrategy::Always),
        "min2" => Some(GroupingStrategy::Min2),
        _ => None,
    }
}

impl<'a> Asked<'a> {
    /// What a word asks for.
    pub(crate) fn of(word: &'a str) -> Asked<'a> {
        let mut words = word.split('/');
        let locale = words.next().unwrap_or_default();
        let mut system = None;
        let mut grouping = None;
        for word in words {
            match grouping_of(word) {
                Some(strategy) => grouping = Some(strategy),
                None => system = Some(word),
            }
        }
        Asked {
            locale,
            system,
            grouping,
        }
    }

    /// The locale.
    pub(crate) fn locale(self) -> DataLocale {
        DataLocale::try_from_str(self.locale).unwrap_or_default()
    }

    /// The preferred numbering system.
    pub(crate) fn system(self) -> Option<NumberingSystem> {
        match self.system {
            Some(system) => NumberingSystem::try_from_str(system).ok(),
            None => None,
        }
    }

    /// The preferences of numbers.
    pub(crate) fn preferences(self) -> DecimalFormatterPreferences {
        DecimalFormatterPreferences {
            locale_preferences: self.locale(),
            numbering_system: self.system(),
        }
    }

    /// The options of numbers.
    pub(crate) fn numbers(self) -> DecimalFormatterOptions {
        DecimalFormatterOptions {
            grouping_strategy: self.grouping,
        }
    }
}
