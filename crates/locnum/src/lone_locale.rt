//! The locale of tables that have one alone.

use icu_provider::DataLocale;
use serde_json::Value;
use std::alloc::Global;

/// The name of an entry.
fn name_of(entry: &Value) -> Option<&str> {
    entry.get("locale").and_then(Value::as_str)
}

/// The name that all entries have.
fn common_name(entries: &[Value]) -> Option<&str> {
    let first = name_of(entries.first()?)?;
    for entry in entries {
        if name_of(entry)? != first {
            return None;
        }
    }
    Some(first)
}

/// The locale of the tables of a text, if they have one alone; none where memory runs out, or the
/// text isn't JSON.
pub(crate) fn locale_of_tables(alloc: Global, text: &str) -> Option<DataLocale> {
    let tables = Value::from_str(alloc, text).ok()?;
    let entries = tables.get("symbols").and_then(Value::as_array)?;
    DataLocale::try_from_str(common_name(entries)?).ok()
}
