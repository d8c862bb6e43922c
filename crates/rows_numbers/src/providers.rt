//! Calls of `icu_provider`: locales, numbering systems, identifiers. No numbering system is spelled
//! `none`.

use crate::words::{equal_or_different, optional, said};
use icu_provider::{DataIdentifierBorrowed, DataLocale, NumberingSystem};
use std::alloc::{AllocError, Global};

/// The locale of a text.
fn locale(alloc: Global, text: &str) -> Result<Option<String>, AllocError> {
    match DataLocale::try_from_str(text) {
        Ok(locale) => said(alloc, locale.as_str()),
        Err(_) => said(alloc, "BadLocale"),
    }
}

/// Whether the locales of two texts are equal.
fn locales_eq(alloc: Global, one: &str, other: &str) -> Result<Option<String>, AllocError> {
    match (
        DataLocale::try_from_str(one),
        DataLocale::try_from_str(other),
    ) {
        (Ok(one), Ok(other)) => said(alloc, equal_or_different(one == other)),
        _ => Ok(None),
    }
}

/// The numbering system of a name.
fn system(alloc: Global, name: &str) -> Result<Option<String>, AllocError> {
    match NumberingSystem::try_from_str(name) {
        Ok(system) => said(alloc, system.as_str()),
        Err(_) => said(alloc, "BadNumberingSystem"),
    }
}

/// Whether the numbering systems of two names are equal.
fn systems_eq(alloc: Global, one: &str, other: &str) -> Result<Option<String>, AllocError> {
    match (
        NumberingSystem::try_from_str(one),
        NumberingSystem::try_from_str(other),
    ) {
        (Ok(one), Ok(other)) => said(alloc, equal_or_different(one == other)),
        _ => Ok(None),
    }
}

/// An identifier: its numbering system in quotes, if it has one, and its locale.
pub(crate) fn spelled(
    alloc: Global,
    id: DataIdentifierBorrowed<'_>,
) -> Result<Option<String>, AllocError> {
    let locale = id.locale();
    match id.system() {
        Some(system) => Ok(Some(format!(in alloc; "\"{system}\" in {locale}")?)),
        None => Ok(Some(format!(in alloc; "none in {locale}")?)),
    }
}

/// The identifier of a locale and of a numbering system or none.
fn identifier_of<'a>(
    system: Option<&'a str>,
    locale: &'a DataLocale,
) -> DataIdentifierBorrowed<'a> {
    match system {
        Some(system) => DataIdentifierBorrowed::for_marker_attributes_and_locale(system, locale),
        None => DataIdentifierBorrowed::for_locale(locale),
    }
}

/// The identifier of a numbering system or none, and of a locale.
fn identifier(
    alloc: Global,
    system: Option<&str>,
    locale: &str,
) -> Result<Option<String>, AllocError> {
    match DataLocale::try_from_str(locale) {
        Ok(locale) => spelled(alloc, identifier_of(system, &locale)),
        Err(_) => Ok(None),
    }
}

/// Whether two identifiers are equal, each of a numbering system or none, and of a locale.
fn identifiers_eq(
    alloc: Global,
    (system, locale): (&str, &str),
    (other_system, other_locale): (&str, &str),
) -> Result<Option<String>, AllocError> {
    match (
        DataLocale::try_from_str(locale),
        DataLocale::try_from_str(other_locale),
    ) {
        (Ok(locale), Ok(other_locale)) => {
            let is_equal = identifier_of(optional(system), &locale)
                == identifier_of(optional(other_system), &other_locale);
            said(alloc, equal_or_different(is_equal))
        }
        _ => Ok(None),
    }
}

/// What a call of locales, numbering systems or identifiers answers.
pub(crate) fn returned(
    alloc: Global,
    call: &str,
    arguments: &[String],
) -> Result<Option<String>, AllocError> {
    match arguments {
        [] if call == "DataLocale::default" => said(alloc, DataLocale::default().as_str()),
        [text] => match call {
            "DataLocale::try_from_str" => locale(alloc, text),
            "NumberingSystem::try_from_str" => system(alloc, text),
            "for_locale" => identifier(alloc, None, text),
            "for_marker_attributes" => {
                spelled(alloc, DataIdentifierBorrowed::for_marker_attributes(text))
            }
            _ => Ok(None),
        },
        [one, other] => match call {
            "DataLocale::eq" => locales_eq(alloc, one, other),
            "NumberingSystem::eq" => systems_eq(alloc, one, other),
            "for_marker_attributes_and_locale" => identifier(alloc, Some(one), other),
            _ => Ok(None),
        },
        [system, locale, other_system, other_locale] if call == "DataIdentifierBorrowed::eq" => {
            identifiers_eq(alloc, (system, locale), (other_system, other_locale))
        }
        _ => Ok(None),
    }
}
