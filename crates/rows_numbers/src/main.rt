//! Rows of decimals, patterns, providers, plural rules, symbols, tables, number skeletons and shown
//! numbers.
#![tactic(auto)]

mod bytes;
mod compact;
mod compact_tables;
mod conditions;
mod decimals;
mod elements;
mod errors;
mod options;
mod patterns;
mod plural_rules;
mod powers;
mod providers;
mod rounding;
mod row_texts;
mod shown_numbers;
mod skeletons;
mod symbols;
mod words;

use rows::{Calls, Documents};
use std::alloc::{AllocError, Global};
use std::io;

/// The calls of the crates below the formatters.
struct Numbers;

/// What a call of the crates that `icu_base` passes on answers.
fn result_of_base(
    alloc: Global,
    documents: &Documents,
    call: &str,
    arguments: &[String],
) -> Result<Option<String>, AllocError> {
    if let Some(returned) = patterns::returned(alloc, call, arguments)? {
        return Ok(Some(returned));
    }
    if let Some(returned) = providers::returned(alloc, call, arguments)? {
        return Ok(Some(returned));
    }
    if let Some(returned) = conditions::returned(alloc, call, arguments)? {
        return Ok(Some(returned));
    }
    if let Some(returned) = plural_rules::returned(alloc, documents, call, arguments)? {
        return Ok(Some(returned));
    }
    if let Some(returned) = elements::returned(alloc, documents, call, arguments)? {
        return Ok(Some(returned));
    }
    errors::returned(alloc, call, arguments)
}

/// What a call of symbols, options, skeletons or tables answers.
fn result_of_data(
    alloc: Global,
    documents: &Documents,
    call: &str,
    arguments: &[String],
) -> Result<Option<String>, AllocError> {
    if let Some(returned) = symbols::returned(alloc, documents, call, arguments)? {
        return Ok(Some(returned));
    }
    if let Some(returned) = options::returned(alloc, call, arguments)? {
        return Ok(Some(returned));
    }
    if let Some(returned) = skeletons::returned(alloc, call, arguments)? {
        return Ok(Some(returned));
    }
    if let Some(returned) = shown_numbers::returned(alloc, documents, call, arguments)? {
        return Ok(Some(returned));
    }
    compact::returned(alloc, documents, call, arguments)
}

impl Calls for Numbers {
    fn returned(
        &self,
        alloc: Global,
        documents: &Documents,
        call: &str,
        arguments: &[String],
    ) -> Result<Option<String>, AllocError> {
        if let Some(returned) = row_texts::returned(alloc, call, arguments)? {
            return Ok(Some(returned));
        }
        if let Some(returned) = decimals::returned(alloc, call, arguments)? {
            return Ok(Some(returned));
        }
        if let Some(returned) = rounding::returned(alloc, call, arguments)? {
            return Ok(Some(returned));
        }
        if let Some(returned) = result_of_base(alloc, documents, call, arguments)? {
            return Ok(Some(returned));
        }
        result_of_data(alloc, documents, call, arguments)
    }
}

fn main(rt: HostRuntime) -> io::Result<()> {
    rows::run(&rt, &Numbers)
}
