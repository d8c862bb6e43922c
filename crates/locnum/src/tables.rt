//! The tables of the arguments: why they are rejected, what they lack, and what they hold.

use crate::faults::push_fault;
use crate::held::has_locale;
use crate::lacks::{has_system, push_lacking, push_no_locale, push_no_system};
use crate::listed::{lines_of, listed_named};
use number_formatters::{Kind, Settings, UnitName};
use number_forms::{StartError, push_reported};
use serde_json::Value;
use std::alloc::{AllocError, Global};
use std::str;

/// The bytes of tables, and their file; none where they are those in the program.
#[derive(Clone, Copy)]
pub(crate) struct TablesFile<'a> {
    pub(crate) path: Option<&'a str>,
    pub(crate) bytes: &'a [u8],
}

/// The document of the tables; nothing where they aren't JSON, or memory ran out.
fn document_of(alloc: Global, bytes: &[u8]) -> Option<Value> {
    let text = str::from_utf8(bytes).ok()?;
    Value::from_str(alloc, text).ok()
}

/// Appends which file is at fault.
fn push_file(path: Option<&str>, out: &mut Vec<u8>) -> Result<(), AllocError> {
    match path {
        Some(path) => push_reported(path.as_bytes(), out)?,
        None => out.extend_from_slice(b"the tables in the program")?,
    }
    out.extend_from_slice(b": ")
}

/// The key of the tables under which a kind of data stands.
fn key_of(kind: &Kind<'_>) -> &'static str {
    match kind {
        Kind::Plain => "symbols",
        Kind::Short => "short",
        Kind::Long => "long",
        Kind::Money { .. } | Kind::MoneyNamed { .. } => "currencies",
        Kind::MoneyShort { .. } => "currency_compact",
        Kind::Percent | Kind::Permille => "percents",
        Kind::Unit { .. } => "units",
    }
}

/// Appends the line in front of explanations: the file, the locale and the key of the data.
pub(crate) fn push_heading(
    file: TablesFile<'_>,
    settings: &Settings<'_>,
    out: &mut Vec<u8>,
) -> Result<(), AllocError> {
    push_file(file.path, out)?;
    out.extend_from_slice(b"locale ")?;
    out.extend_from_slice(settings.locale.as_str().as_bytes())?;
    out.extend_from_slice(b", ")?;
    out.extend_from_slice(key_of(&settings.kind).as_bytes())?;
    out.push(b'\n')?;
    Ok(())
}

/// Appends the arguments that ask for a unit in that command: percents and permilles come with
/// their patterns.
fn push_unit(unit: UnitName<'_>, out: &mut Vec<u8>) -> Result<(), AllocError> {
    match unit {
        UnitName::Percent | UnitName::Permille => out.extend_from_slice(b" --percents"),
        UnitName::Named(name) => {
            out.extend_from_slice(b" --units ")?;
            push_reported(name.as_bytes(), out)
        }
    }
}

/// Appends the arguments that ask for a kind of data in the command that makes a file.
fn push_kind(kind: &Kind<'_>, out: &mut Vec<u8>) -> Result<(), AllocError> {
    match kind {
        Kind::Plain | Kind::Short | Kind::Long => Ok(()),
        Kind::Money { code, .. } | Kind::MoneyNamed { code, .. } | Kind::MoneyShort { code, .. } =>
            {
                out.extend_from_slice(b" --currencies ")?;
                out.extend_from_slice(code.as_str().as_bytes())
            }
        Kind::Percent | Kind::Permille => out.extend_from_slice(b" --percents"),
        Kind::Unit { unit, .. } => push_unit(*unit, out),
    }
}

/// Appends a line with the command that makes a file of tables.
fn push_command(settings: &Settings<'_>, out: &mut Vec<u8>) -> Result<(), AllocError> {
    let locale = settings.locale.as_str().as_bytes();
    out.extend_from_slice(b"locnum: to make one: tools/cldr_to_tables.py core.zip ")?;
    out.extend_from_slice(locale)?;
    push_kind(&settings.kind, out)?;
    out.extend_from_slice(b" -o ")?;
    out.extend_from_slice(locale)?;
    out.extend_from_slice(b".json\n")
}

/// Appends which file isn't text.
fn push_not_utf8(path: Option<&str>, out: &mut Vec<u8>) -> Result<(), AllocError> {
    push_file(path, out)?;
    out.extend_from_slice(b"not UTF-8")
}

/// Appends what tables lack.
fn push_no_data(
    alloc: Global,
    file: TablesFile<'_>,
    settings: &Settings<'_>,
    out: &mut Vec<u8>,
) -> Result<(), AllocError> {
    let Some(tables) = document_of(alloc, file.bytes) else {
        return Err(AllocError);
    };
    push_lacking(alloc, &tables, file.path.is_none(), settings, out)
}

/// Appends where tables are at fault.
fn push_refused(
    alloc: Global,
    file: TablesFile<'_>,
    error: StartError,
    out: &mut Vec<u8>,
) -> Result<(), AllocError> {
    match (str::from_utf8(file.bytes), error) {
        (Ok(text), StartError::Refused(fault)) => {
            push_file(file.path, out)?;
            push_fault(alloc, text, fault, out)
        }
        (_, _) => push_not_utf8(file.path, out),
    }
}

/// The note that says why tables make no form: where they are at fault, or what they lack. It begins
/// with these bytes.
pub(crate) fn note_of_failure(
    alloc: Global,
    start: &[u8],
    file: TablesFile<'_>,
    settings: &Settings<'_>,
    error: StartError,
) -> Result<Vec<u8>, AllocError> {
    let mut note = Vec::from_slice(alloc, start)?;
    if error != StartError::NoData {
        push_refused(alloc, file, error, &mut note)?;
        note.push(b'\n')?;
        return Ok(note);
    }
    push_no_data(alloc, file, settings, &mut note)?;
    note.push(b'\n')?;
    if file.path.is_none() {
        push_command(settings, &mut note)?;
    }
    Ok(note)
}

/// The note that says that the tables have no numbering system that is asked for; none where they
/// have it, or none is asked for. It begins with these bytes.
pub(crate) fn note_of_system(
    alloc: Global,
    start: &[u8],
    file: TablesFile<'_>,
    settings: &Settings<'_>,
) -> Result<Option<Vec<u8>>, AllocError> {
    let Some(system) = &settings.system else {
        return Ok(None);
    };
    let Some(tables) = document_of(alloc, file.bytes) else {
        return Err(AllocError);
    };
    let locale = settings.locale.as_str();
    if has_system(&tables, locale, system.as_str()) {
        return Ok(None);
    }
    let mut note = Vec::from_slice(alloc, start)?;
    push_no_system(alloc, &tables, locale, system, &mut note)?;
    note.push(b'\n')?;
    Ok(Some(note))
}

/// The note that says that the tables have no locale of which something is to be listed.
fn note_of_locale(
    alloc: Global,
    tables: &Value,
    file: TablesFile<'_>,
    locale: &str,
) -> Result<Vec<u8>, AllocError> {
    let mut note = Vec::from_slice(alloc, b"locnum: ")?;
    push_no_locale(alloc, tables, file.path.is_none(), locale, &mut note)?;
    note.push(b'\n')?;
    Ok(note)
}

/// The note that says why a file can't be listed.
fn note_of_file(alloc: Global, file: TablesFile<'_>) -> Result<Vec<u8>, AllocError> {
    let fault = StartError::Refused(icu_table_entries::TableError::NotJson);
    let mut note = Vec::from_slice(alloc, b"locnum: ")?;
    push_refused(alloc, file, fault, &mut note)?;
    note.push(b'\n')?;
    Ok(note)
}

/// What a list has to say.
#[derive(Drop)]
pub(crate) enum ListResult {
    /// The names, each in a line.
    Lines(Vec<u8>),
    /// The note that says why there are none.
    Note(Vec<u8>),
}

/// What the tables hold of what the value names, of a locale where one is given.
pub(crate) fn list(
    alloc: Global,
    file: TablesFile<'_>,
    word: &str,
    locale: Option<&str>,
) -> Result<ListResult, AllocError> {
    let Some(listed) = listed_named(word) else {
        let note = b"locnum: --list: locales, systems, currencies or units\n";
        return Ok(ListResult::Note(Vec::from_slice(alloc, note)?));
    };
    let Some(tables) = document_of(alloc, file.bytes) else {
        return Ok(ListResult::Note(note_of_file(alloc, file)?));
    };
    match locale {
        Some(locale) if !has_locale(&tables, "symbols", locale) => {
            let note = note_of_locale(alloc, &tables, file, locale)?;
            Ok(ListResult::Note(note))
        }
        locale => Ok(ListResult::Lines(lines_of(alloc, &tables, listed, locale)?)),
    }
}
