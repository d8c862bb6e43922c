//! Rows of formatters of numbers, units, money and percents, and of the tables that they are made of.
#![tactic(auto)]

mod amounts;
mod compact_money;
mod compact_rows;
mod currencies;
mod decimal;
mod dimension_faults;
mod dimension_loading;
mod dimension_making;
mod dimension_tables;
mod measures;
mod money;
mod names;
mod percents;
mod signed_patterns;
mod surrounding;
mod tables;
mod units;

use dimension_faults::{Fault, reported};
use rows::{Calls, Documents};
use std::alloc::{AllocError, Global};
use std::io;

/// What a call answers; `None` if there is no such call.
type CallResult = Result<Option<String>, AllocError>;

/// The calls of formatters and of their tables.
struct Formats;

/// What a call of formatters of numbers, of units, and of their tables answers.
fn result_of_numbers(
    alloc: Global,
    documents: &Documents,
    call: &str,
    arguments: &[String],
) -> CallResult {
    if let Some(returned) = decimal::returned(alloc, documents, call, arguments)? {
        return Ok(Some(returned));
    }
    if let Some(returned) = units::returned(alloc, documents, call, arguments)? {
        return Ok(Some(returned));
    }
    tables::returned(alloc, documents, call, arguments)
}

/// What a call of money, percents and their tables answers: of the type that its name begins with.
fn result_of_dimension(
    alloc: Global,
    documents: &Documents,
    call: &str,
    arguments: &[String],
) -> Result<String, Fault> {
    let (kind, call) = call.split_once("::").unwrap_or(("", call));
    match kind {
        "CurrencyFormatter" => money::returned(alloc, documents, call, arguments),
        "CompactCurrencyFormatter" => compact_money::returned(alloc, documents, call, arguments),
        "PercentFormatter" => percents::returned(alloc, documents, call, arguments),
        "LongCurrencyFormatter" => names::returned(alloc, documents, call, arguments),
        "UnitsFormatter" => measures::returned(alloc, documents, call, arguments),
        "DimensionTables" => dimension_tables::returned(alloc, documents, call, arguments),
        "CldrPattern" | "SignedPattern" => signed_patterns::returned(alloc, call, arguments),
        "CompactRows" => compact_rows::returned(alloc, call, arguments),
        _ => currencies::returned(alloc, kind, call, arguments),
    }
}

impl Calls for Formats {
    fn returned(
        &self,
        alloc: Global,
        documents: &Documents,
        call: &str,
        arguments: &[String],
    ) -> Result<Option<String>, AllocError> {
        // the calls of money, percents and their tables have the type in front, and no other ones
        // but that of units
        if !call.contains("::") || call.starts_with("UnitFormatter::") {
            let returned = result_of_numbers(alloc, documents, call, arguments)?;
            if returned.is_some() {
                return Ok(returned);
            }
        }
        if let Some(call) = call.strip_prefix("AllTables::") {
            return dimension_tables::result_of_all(alloc, documents, call, arguments);
        }
        reported(
            alloc,
            result_of_dimension(alloc, documents, call, arguments),
        )
    }
}

fn main(rt: HostRuntime) -> io::Result<()> {
    rows::run(&rt, &Formats)
}
