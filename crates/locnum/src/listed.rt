//! What tables hold, a name in each line.

use crate::held::{currencies, locales, systems, units};
use serde_json::Value;
use std::alloc::{AllocError, Global};

/// What is listed.
#[derive(Clone, Copy)]
pub(crate) enum Listed {
    Locales,
    Systems,
    Currencies,
    Units,
}

/// What the value of the option asks for.
pub(crate) fn listed_named(word: &str) -> Option<Listed> {
    match word {
        "locales" => Some(Listed::Locales),
        "systems" => Some(Listed::Systems),
        "currencies" => Some(Listed::Currencies),
        "units" => Some(Listed::Units),
        _ => None,
    }
}

/// The names that the tables hold, of a locale where one is given.
fn names_of<'a>(
    alloc: Global,
    tables: &'a Value,
    listed: Listed,
    locale: Option<&str>,
) -> Result<Vec<&'a str>, AllocError> {
    match listed {
        Listed::Locales => locales(alloc, tables, "symbols"),
        Listed::Systems => systems(alloc, tables, locale),
        Listed::Currencies => currencies(alloc, tables, locale),
        Listed::Units => units(alloc, tables, locale),
    }
}

/// The names that the tables hold, each in a line, of a locale where one is given.
pub(crate) fn lines_of(
    alloc: Global,
    tables: &Value,
    listed: Listed,
    locale: Option<&str>,
) -> Result<Vec<u8>, AllocError> {
    let mut lines = Vec::new(alloc);
    for name in &names_of(alloc, tables, listed, locale)? {
        lines.extend_from_slice(name.as_bytes())?;
        lines.push(b'\n')?;
    }
    Ok(lines)
}
