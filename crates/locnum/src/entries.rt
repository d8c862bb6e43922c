//! Which entry of the tables is at fault: the first that is rejected alone for the same reason.

use crate::held::list_of;
use icu_dimension_tables::AllTables;
use icu_table_entries::TableError;
use serde_json::Value;
use std::alloc::{AllocError, Global};

/// The lists of the tables, in the order in which they are read.
const LISTS: [&str; 12] = [
    "symbols",
    "digits",
    "rules",
    "short",
    "long",
    "currency_digits",
    "currencies",
    "currency_decimals",
    "currency_symbols",
    "currency_compact",
    "percents",
    "units",
];

/// An entry of the tables, with the key of its list and its index.
#[derive(Clone, Copy)]
pub(crate) struct Entry<'a> {
    pub(crate) key: &'static str,
    pub(crate) index: usize,
    pub(crate) value: &'a Value,
}

/// A document with one entry. Of two equal keys the last one counts.
fn document_of(alloc: Global, entry: Entry<'_>) -> Result<String, AllocError> {
    let mut text = String::from_str(alloc, "{\"symbols\":[],\"digits\":[],\"")?;
    text.push_str(entry.key)?;
    text.push_str("\":[")?;
    text.push_str(entry.value.to_string(alloc)?.as_str())?;
    text.push_str("]}")?;
    Ok(text)
}

/// Whether an entry is rejected alone for this reason.
fn is_at_fault(alloc: Global, entry: Entry<'_>, error: TableError) -> Result<bool, AllocError> {
    let document = document_of(alloc, entry)?;
    match AllTables::from_json(alloc, document.as_str()).err() {
        Some(TableError::OutOfMemory) => Err(AllocError),
        fault => Ok(fault == Some(error)),
    }
}

/// The first entry of the tables that is rejected alone for this reason.
pub(crate) fn entry_at_fault<'a>(
    alloc: Global,
    tables: &'a Value,
    error: TableError,
) -> Result<Option<Entry<'a>>, AllocError> {
    for &key in &LISTS {
        for (index, value) in list_of(tables, key).iter().enumerate() {
            let entry = Entry { key, index, value };
            if is_at_fault(alloc, entry, error)? {
                return Ok(Some(entry));
            }
        }
    }
    Ok(None)
}
