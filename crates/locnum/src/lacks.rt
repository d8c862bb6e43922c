//! What tables lack of that which is asked for, and what they have instead.

use crate::held::{
    code_of, currencies, has_locale, list_of, locales, systems, text_of, units, widths,
};
use crate::near::push_nearest;
use icu_dimension_data::CurrencyCode;
use icu_provider::NumberingSystem;
use number_formatters::{Kind, Settings, UnitWidth};
use number_forms::push_reported;
use serde_json::Value;
use skeleton_settings::Notation;
use std::alloc::{AllocError, Global};

/// A kind of data, with the name that is asked for, and those that there are.
#[derive(Drop)]
struct Lack<'a> {
    kind: &'static str,
    name: &'a str,
    held: Vec<&'a str>,
}

/// A lack of a kind of data that has no name, with the locales that have it.
fn lack_of_kind<'a>(
    alloc: Global,
    tables: &'a Value,
    kind: &'static str,
    key: &str,
) -> Result<Lack<'a>, AllocError> {
    Ok(Lack {
        kind,
        name: "",
        held: locales(alloc, tables, key)?,
    })
}

/// What is lacking of a kind of data that each locale has under a key.
fn lacking_kind<'a>(
    alloc: Global,
    tables: &'a Value,
    locale: &str,
    kind: &'static str,
    key: &str,
) -> Result<Option<Lack<'a>>, AllocError> {
    if has_locale(tables, key, locale) {
        return Ok(None);
    }
    Ok(Some(lack_of_kind(alloc, tables, kind, key)?))
}

/// A lack of a name that isn't among those that there are.
fn lacking_name<'a>(kind: &'static str, name: &'a str, held: Vec<&'a str>) -> Option<Lack<'a>> {
    if held.contains(&name) {
        return None;
    }
    Some(Lack { kind, name, held })
}

/// What is lacking of a currency.
fn lacking_currency<'a>(
    alloc: Global,
    tables: &'a Value,
    locale: &str,
    code: &'a CurrencyCode,
) -> Result<Option<Lack<'a>>, AllocError> {
    let held = currencies(alloc, tables, Some(locale))?;
    let lack = lacking_name("currency", code.as_str(), held);
    if lack.is_some() {
        return Ok(lack);
    }
    lacking_kind(alloc, tables, locale, "amounts", "currencies")
}

/// What is lacking of a currency in compact amounts.
fn lacking_compact<'a>(
    alloc: Global,
    tables: &'a Value,
    locale: &str,
    code: &'a CurrencyCode,
) -> Result<Option<Lack<'a>>, AllocError> {
    let lack = lacking_currency(alloc, tables, locale, code)?;
    if lack.is_some() {
        return Ok(lack);
    }
    lacking_kind(alloc, tables, locale, "short amounts", "currency_compact")
}

/// The locales that have a member in their entry under a key.
fn locales_with<'a>(
    alloc: Global,
    tables: &'a Value,
    key: &str,
    member: &str,
) -> Result<Vec<&'a str>, AllocError> {
    let mut names = Vec::new(alloc);
    for entry in list_of(tables, key) {
        if let (Some(locale), Some(_)) = (text_of(entry, "locale"), entry.get(member)) {
            names.push(locale)?;
        }
    }
    Ok(names)
}

/// What is lacking of permilles, which entries of percents may have.
fn lacking_permilles<'a>(
    alloc: Global,
    tables: &'a Value,
    locale: &str,
) -> Result<Option<Lack<'a>>, AllocError> {
    let held = locales_with(alloc, tables, "percents", "permille")?;
    if held.contains(&locale) {
        return Ok(None);
    }
    Ok(Some(Lack {
        kind: "permilles",
        name: "",
        held,
    }))
}

/// What is lacking of the name of a currency.
fn lacking_names<'a>(
    alloc: Global,
    tables: &'a Value,
    locale: &str,
    code: &'a CurrencyCode,
) -> Result<Option<Lack<'a>>, AllocError> {
    let lack = lacking_currency(alloc, tables, locale, code)?;
    let held = locales_with(alloc, tables, "currencies", "names")?;
    if lack.is_some() || held.contains(&locale) {
        return Ok(lack);
    }
    Ok(Some(Lack {
        kind: "amounts with names",
        name: "",
        held,
    }))
}

/// The name of a width.
fn width_name(width: UnitWidth) -> &'static str {
    match width {
        UnitWidth::Long => "long",
        UnitWidth::Short => "short",
        UnitWidth::Narrow => "narrow",
    }
}

/// What is lacking of a unit.
fn lacking_unit<'a>(
    alloc: Global,
    tables: &'a Value,
    locale: &str,
    name: &'a str,
    width: UnitWidth,
) -> Result<Option<Lack<'a>>, AllocError> {
    let lack = lacking_name("unit", name, units(alloc, tables, Some(locale))?);
    if lack.is_some() {
        return Ok(lack);
    }
    let held = widths(alloc, tables, locale, name)?;
    Ok(lacking_name("width of this unit", width_name(width), held))
}

/// What is lacking of numbers in a notation.
fn lacking_numbers<'a>(
    alloc: Global,
    tables: &'a Value,
    locale: &str,
    notation: Notation,
) -> Result<Option<Lack<'a>>, AllocError> {
    match notation {
        Notation::Simple => Ok(None),
        Notation::CompactShort => lacking_kind(alloc, tables, locale, "short numbers", "short"),
        Notation::CompactLong => lacking_kind(alloc, tables, locale, "long numbers", "long"),
    }
}

/// What is lacking, or else what is lacking of numbers in a notation.
fn or_lacking_numbers<'a>(
    alloc: Global,
    tables: &'a Value,
    locale: &str,
    notation: Notation,
    lack: Option<Lack<'a>>,
) -> Result<Option<Lack<'a>>, AllocError> {
    match lack {
        Some(lack) => Ok(Some(lack)),
        None => lacking_numbers(alloc, tables, locale, notation),
    }
}

/// What is lacking of the kind of data that is asked for.
fn lacking_of_kind<'a>(
    alloc: Global,
    tables: &'a Value,
    settings: &'a Settings<'a>,
) -> Result<Option<Lack<'a>>, AllocError> {
    let locale = settings.locale.as_str();
    match &settings.kind {
        Kind::Plain => Ok(None),
        Kind::Short => lacking_numbers(alloc, tables, locale, Notation::CompactShort),
        Kind::Long => lacking_numbers(alloc, tables, locale, Notation::CompactLong),
        Kind::Money { code, .. } => lacking_currency(alloc, tables, locale, code),
        Kind::MoneyNamed { code, notation, .. } => {
            let lack = lacking_names(alloc, tables, locale, code)?;
            or_lacking_numbers(alloc, tables, locale, *notation, lack)
        }
        Kind::MoneyShort { code, .. } => lacking_compact(alloc, tables, locale, code),
        Kind::Percent => lacking_kind(alloc, tables, locale, "percents", "percents"),
        Kind::Permille => lacking_permilles(alloc, tables, locale),
        Kind::Unit {
            unit,
            width,
            notation,
        } => {
            let lack = lacking_unit(alloc, tables, locale, unit.text(), *width)?;
            or_lacking_numbers(alloc, tables, locale, *notation, lack)
        }
    }
}

/// Appends which locales have what one lacks.
fn push_locales_instead(
    alloc: Global,
    held: &[&str],
    locale: &str,
    out: &mut Vec<u8>,
) -> Result<(), AllocError> {
    if held.is_empty() {
        return out.extend_from_slice(b", nor has any other locale of the tables");
    }
    out.extend_from_slice(b"; the tables have them for ")?;
    push_nearest(alloc, held, locale, out)
}

/// Appends what a locale lacks.
fn push_lack(
    alloc: Global,
    locale: &str,
    lack: &Lack<'_>,
    out: &mut Vec<u8>,
) -> Result<(), AllocError> {
    out.extend_from_slice(locale.as_bytes())?;
    out.extend_from_slice(b" has no ")?;
    out.extend_from_slice(lack.kind.as_bytes())?;
    if lack.name.is_empty() {
        return push_locales_instead(alloc, &lack.held, locale, out);
    }
    out.push(b' ')?;
    push_reported(lack.name.as_bytes(), out)?;
    out.extend_from_slice(b"; the tables have ")?;
    push_nearest(alloc, &lack.held, lack.name, out)
}

/// The language of a locale's name: what stands before its first hyphen.
fn language_of(name: &str) -> &str {
    match name.split_once('-') {
        Some((language, _)) => language,
        None => name,
    }
}

/// The locales of the language of one; all where there is none.
fn of_language<'a>(
    alloc: Global,
    names: Vec<&'a str>,
    locale: &str,
) -> Result<Vec<&'a str>, AllocError> {
    let mut related = Vec::new(alloc);
    for name in &names {
        if language_of(name) == language_of(locale) {
            related.push(*name)?;
        }
    }
    Ok(if related.is_empty() { names } else { related })
}

/// Appends that there is no locale, and which there are.
pub(crate) fn push_no_locale(
    alloc: Global,
    tables: &Value,
    is_program: bool,
    locale: &str,
    out: &mut Vec<u8>,
) -> Result<(), AllocError> {
    out.extend_from_slice(b"no locale ")?;
    push_reported(locale.as_bytes(), out)?;
    let holder = if is_program {
        " without a file of tables (-t); the program has "
    } else {
        "; the tables have "
    };
    out.extend_from_slice(holder.as_bytes())?;
    let names = of_language(alloc, locales(alloc, tables, "symbols")?, locale)?;
    push_nearest(alloc, &names, locale, out)
}

/// Appends which data the tables lack, where a formatter found none for what is asked for.
pub(crate) fn push_lacking(
    alloc: Global,
    tables: &Value,
    is_program: bool,
    settings: &Settings<'_>,
    out: &mut Vec<u8>,
) -> Result<(), AllocError> {
    let locale = settings.locale.as_str();
    if !has_locale(tables, "symbols", locale) {
        return push_no_locale(alloc, tables, is_program, locale, out);
    }
    if let Some(lack) = lacking_of_kind(alloc, tables, settings)? {
        return push_lack(alloc, locale, &lack, out);
    }
    out.extend_from_slice(locale.as_bytes())?;
    if has_locale(tables, "rules", locale) {
        return out.extend_from_slice(b" has no digits in the tables");
    }
    out.extend_from_slice(b" has no plural rules in the tables")
}

/// Whether the tables have digits or symbols of a numbering system for a locale.
pub(crate) fn has_system(tables: &Value, locale: &str, system: &str) -> bool {
    list_of(tables, "digits")
        .iter()
        .any(|row| code_of(row) == Some(system))
        || list_of(tables, "symbols").iter().any(|entry| {
            text_of(entry, "locale") == Some(locale) && text_of(entry, "numsys") == Some(system)
        })
}

/// Appends that there is no such numbering system.
pub(crate) fn push_no_system(
    alloc: Global,
    tables: &Value,
    locale: &str,
    system: &NumberingSystem,
    out: &mut Vec<u8>,
) -> Result<(), AllocError> {
    let lack = Lack {
        kind: "numbering system",
        name: system.as_str(),
        held: systems(alloc, tables, None)?,
    };
    push_lack(alloc, locale, &lack, out)
}
