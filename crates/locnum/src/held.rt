//! What tables hold: the names that stand in their lists.

use serde_json::Value;
use std::alloc::{AllocError, Global};

/// The list under a key of an object; an empty one where there is none.
pub(crate) fn list_of<'a>(object: &'a Value, key: &str) -> &'a [Value] {
    match object.get(key).and_then(Value::as_array) {
        Some(list) => list,
        None => &[],
    }
}

/// The text under a key of an object.
pub(crate) fn text_of<'a>(object: &'a Value, key: &str) -> Option<&'a str> {
    object.get(key).and_then(Value::as_str)
}

/// The text at the front of a row, its code.
pub(crate) fn code_of(row: &Value) -> Option<&str> {
    row.get(0).and_then(Value::as_str)
}

/// Whether an entry is of a locale; each is where none is given.
fn is_of(entry: &Value, locale: Option<&str>) -> bool {
    match locale {
        Some(locale) => text_of(entry, "locale") == Some(locale),
        None => true,
    }
}

/// Whether a list of the tables has an entry of a locale.
pub(crate) fn has_locale(tables: &Value, key: &str, locale: &str) -> bool {
    list_of(tables, key)
        .iter()
        .any(|entry| text_of(entry, "locale") == Some(locale))
}

/// Takes in a name, if there is one that isn't the last.
fn take_in<'a>(names: &mut Vec<&'a str>, name: Option<&'a str>) -> Result<(), AllocError> {
    if let Some(name) = name {
        if names.last().copied() != Some(name) {
            names.push(name)?;
        }
    }
    Ok(())
}

/// The names in their order, each once.
fn in_order<'a>(mut names: Vec<&'a str>) -> Result<Vec<&'a str>, AllocError> {
    names.sort()?;
    names.dedup();
    Ok(names)
}

/// What stands under a field of the entries of a list, of a locale where one is given.
fn fields_of<'a>(
    alloc: Global,
    list: &'a [Value],
    field: &str,
    locale: Option<&str>,
) -> Result<Vec<&'a str>, AllocError> {
    let mut names = Vec::new(alloc);
    for entry in list {
        if is_of(entry, locale) {
            take_in(&mut names, text_of(entry, field))?;
        }
    }
    Ok(names)
}

/// Appends the codes of rows.
fn push_codes<'a>(names: &mut Vec<&'a str>, rows: &'a [Value]) -> Result<(), AllocError> {
    for row in rows {
        take_in(names, code_of(row))?;
    }
    Ok(())
}

/// The locales of a list, in their order.
pub(crate) fn locales<'a>(
    alloc: Global,
    tables: &'a Value,
    key: &str,
) -> Result<Vec<&'a str>, AllocError> {
    in_order(fields_of(alloc, list_of(tables, key), "locale", None)?)
}

/// The numbering systems for which a locale has symbols, or else all that have digits.
pub(crate) fn systems<'a>(
    alloc: Global,
    tables: &'a Value,
    locale: Option<&str>,
) -> Result<Vec<&'a str>, AllocError> {
    let mut names = Vec::new(alloc);
    if locale.is_none() {
        push_codes(&mut names, list_of(tables, "digits"))?;
        return in_order(names);
    }
    for entry in list_of(tables, "symbols") {
        if is_of(entry, locale) {
            take_in(&mut names, text_of(entry, "numsys"))?;
        }
    }
    in_order(names)
}

/// The codes of currencies, of a locale where one is given.
pub(crate) fn currencies<'a>(
    alloc: Global,
    tables: &'a Value,
    locale: Option<&str>,
) -> Result<Vec<&'a str>, AllocError> {
    let mut names = Vec::new(alloc);
    for entry in list_of(tables, "currency_symbols") {
        if is_of(entry, locale) {
            push_codes(&mut names, list_of(entry, "symbols"))?;
        }
    }
    in_order(names)
}

/// The names of units, of a locale where one is given.
pub(crate) fn units<'a>(
    alloc: Global,
    tables: &'a Value,
    locale: Option<&str>,
) -> Result<Vec<&'a str>, AllocError> {
    in_order(fields_of(alloc, list_of(tables, "units"), "unit", locale)?)
}

/// The widths in which a locale has a unit.
pub(crate) fn widths<'a>(
    alloc: Global,
    tables: &'a Value,
    locale: &str,
    unit: &str,
) -> Result<Vec<&'a str>, AllocError> {
    let mut names = Vec::new(alloc);
    for entry in list_of(tables, "units") {
        if is_of(entry, Some(locale)) && text_of(entry, "unit") == Some(unit) {
            take_in(&mut names, text_of(entry, "width"))?;
        }
    }
    in_order(names)
}
