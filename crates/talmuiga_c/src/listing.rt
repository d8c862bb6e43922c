//! What tables hold: the names that stand in their lists.

ghost use Rattle.std.specs.Prelude.{◌≡◌, ◌⊎◌, map, None, Some, option_map, IfErr, IfOk, OnOk};
ghost use Rattle.serde_json.specs.View.{view};
ghost use Rattle.talmuiga_c.specs.Endings.{out_of_memory, tables_refused};
ghost use Rattle.talmuiga_c.specs.Listing.{IsListed, ListsIn, is_among, lines_of, list_under, listed_kind, name_of, names_listed, tables_value, text_under, with_codes, with_name, with_names};

use crate::asked::text_in;
use crate::output::put_text;
use crate::status;
use icu_table_entries::TableError;
use icu_table_entries::whole_numbers::value_of;
use serde_json::Value;
use std::alloc::{AllocError, Global};

/// What is listed.
#[derive(Clone, Copy)]
pub enum Listed {
    /// The locales.
    Locales,
    /// The numbering systems.
    Systems,
    /// The currencies.
    Currencies,
    /// The units.
    Units,
}

/// Where a value has its name.
#[derive(Clone, Copy)]
pub enum Member {
    /// Under `locale`.
    Locale,
    /// Under `unit`.
    Unit,
    /// At the front of a list.
    Code,
}

/// The list under a key of an object; an empty one where there is none.
#[tactic(auto, using(icu_table_entries::proofs::Lists::list_rules), unfolding(crate::specs::Listing::list_under))]
fn list_under<'a>(value: &'a Value, key: &str) -> &'a [Value]
    ensures { map view result.now ≡ list_under key.now (view value.now) }
{
    match value.get(key).and_then(Value::as_array) {
        Some(list) => list.as_slice(),
        None => &[],
    }
}

/// The text under a key of an object.
#[tactic(auto, unfolding(crate::specs::Listing::text_under))]
fn text_under<'a>(value: &'a Value, key: &str) -> Option<&'a str>
    ensures { option_map (λ text. text.now) result ≡ text_under key.now (view value.now) }
{
    value.get(key).and_then(Value::as_str)
}

/// The name that a value has.
#[tactic(auto, unfolding(crate::specs::Listing::name_of))]
fn name_of(member: Member, value: &Value) -> Option<&str>
    ensures { option_map (λ text. text.now) result ≡ name_of member (view value.now) }
{
    match member {
        Member::Locale => text_under(value, "locale"),
        Member::Unit => text_under(value, "unit"),
        Member::Code => value.get(0).and_then(Value::as_str),
    }
}

/// Whether a name is among others.
fn is_among(names: &[&str], name: &str) -> bool
    ensures { result ≡ is_among name.now (map (λ text. text.now) names.now) }
{
    for other in names {
        if *other == name {
            return true;
        }
    }
    false
}

/// Takes in a name, if there is one that isn't among the others.
fn take_name<'a>(names: &mut Vec<&'a str>, name: Option<&'a str>) -> Result<(), AllocError>
    ensures { OnOk result (map (λ text. text.now) names.new.items
        ≡ with_name (map (λ text. text.now) names.old.items)
        (option_map (λ text. text.now) name.entry)) }
{
    if let Some(name) = name {
        if !is_among(names, name) {
            names.push(name)?;
        }
    }
    Ok(())
}

/// Takes in the names of values.
fn take_names<'a>(
    names: &mut Vec<&'a str>,
    member: Member,
    values: &'a [Value],
) -> Result<(), AllocError>
    ensures { OnOk result (map (λ text. text.now) names.new.items
        ≡ with_names member (map (λ text. text.now) names.old.items) (map view values.now)) }
{
    for value in values {
        take_name(names, name_of(member, value))?;
    }
    Ok(())
}

/// Takes in the codes of the rows of entries.
fn take_codes<'a>(names: &mut Vec<&'a str>, values: &'a [Value]) -> Result<(), AllocError>
    ensures { OnOk result (map (λ text. text.now) names.new.items
        ≡ with_codes (map (λ text. text.now) names.old.items) (map view values.now)) }
{
    for value in values {
        take_names(names, Member::Code, list_under(value, "symbols"))?;
    }
    Ok(())
}

/// The names of a kind that tables have.
#[tactic(auto, unfolding(crate::specs::Listing::names_listed))]
fn names_listed(alloc: Global, listed: Listed, tables: &Value) -> Result<Vec<&str>, AllocError>
    ensures { IfOk result (λ names. map (λ text. text.now) names.items
        ≡ names_listed listed (view tables.now)) }
{
    let mut names = Vec::new(alloc);
    match listed {
        Listed::Locales => take_names(&mut names, Member::Locale, list_under(tables, "symbols"))?,
        Listed::Systems => take_names(&mut names, Member::Code, list_under(tables, "digits"))?,
        Listed::Currencies => take_codes(&mut names, list_under(tables, "currency_symbols"))?,
        Listed::Units => take_names(&mut names, Member::Unit, list_under(tables, "units"))?,
    }
    Ok(names)
}

/// A name in each line.
fn lines_of(alloc: Global, names: &[&str]) -> Result<Vec<u8>, AllocError>
    ensures { IfOk result (λ lines. lines.items ≡ lines_of (map (λ text. text.now) names.now)) }
{
    let mut lines = Vec::new(alloc);
    for name in names {
        lines.extend_from_slice(name.as_bytes())?;
        lines.push(b'\n')?;
    }
    Ok(lines)
}

/// What is listed, by its number.
fn listed_kind(kind: u32) -> Option<Listed>
    ensures { result ≡ listed_kind kind }
{
    match kind {
        1 => Some(Listed::Locales),
        2 => Some(Listed::Systems),
        3 => Some(Listed::Currencies),
        4 => Some(Listed::Units),
        _ => None,
    }
}

/// The value of tables, or a status.
fn tables_value(alloc: Global, tables: &[u8]) -> Result<Value, u32>
    ensures ok { IfOk result (λ value. tables_value tables.now ≡ Some (view value)) }
    ensures refused { IfErr result (λ status. (status ≡ out_of_memory)
        ⊎ ((status ≡ tables_refused) × (tables_value tables.now ≡ None))) }
{
    let Some(text) = text_in(tables) else {
        return Err(status::TABLES_REFUSED);
    };
    match value_of(alloc, text) {
        Ok(value) => Ok(value),
        Err(TableError::OutOfMemory) => Err(status::OUT_OF_MEMORY),
        Err(_) => Err(status::TABLES_REFUSED),
    }
}

/// The lines of what tables have of a kind.
fn listed_lines(alloc: Global, listed: Listed, tables: &Value) -> Result<Vec<u8>, AllocError>
    ensures { IfOk result (λ lines.
        lines.items ≡ lines_of (names_listed listed (view tables.now))) }
{
    lines_of(alloc, &names_listed(alloc, listed, tables)?)
}

/// Puts lines to the front of the output, if they fit; the status.
fn put_lines(
    alloc: Global,
    listed: Listed,
    tables: &Value,
    output: &mut [u8],
    length: &mut usize,
) -> u32
    requires none { length.old ≡ 0 }
    ensures { ListsIn (Some (view tables.now)) listed output.old output.new length.new result }
{
    match listed_lines(alloc, listed, tables) {
        Ok(lines) => {
            *length = put_text(output, &lines);
            if *length <= output.len() {
                status::DONE
            } else {
                status::OUTPUT_TOO_SMALL
            }
        }
        Err(_) => status::OUT_OF_MEMORY,
    }
}

/// Writes what tables have of a kind, a name in each line.
pub fn list_tables(
    alloc: Global,
    tables: &[u8],
    kind: u32,
    output: &mut [u8],
    length: &mut usize,
) -> u32
    ensures { IsListed (listed_kind kind) tables.now output.old output.new length.new result }
{
    *length = 0;
    let Some(listed) = listed_kind(kind) else {
        return status::WORDS_REFUSED;
    };
    match tables_value(alloc, tables) {
        Ok(value) => put_lines(alloc, listed, &value, output, length),
        Err(status) => status,
    }
}
