//! Rows of ranges: separators, ends, and what is written for them.
#![tactic(auto)]

mod amounts;
mod ends;
mod faults;
mod locales;
mod measures;
mod plural;
mod tables;
mod written;

use faults::{Fault, reported};
use rows::{Calls, Documents};
use std::alloc::{AllocError, Global};
use std::io;

/// What a call answers; `None` if there is no such call.
type CallResult = Result<Option<String>, AllocError>;

/// The calls of `icu_ranges` and of the crates above it.
struct RangeCalls;

/// What a call answers: of the type that its name begins with.
fn returned(
    alloc: Global,
    documents: &Documents,
    call: &str,
    arguments: &[String],
) -> Result<String, Fault> {
    let (kind, call) = call.split_once("::").unwrap_or(("", call));
    match (kind, arguments) {
        ("RangeTables", _) if call == "from_json" => {
            tables::returned(alloc, documents, kind, arguments)
        }
        (_, _) if call == "try_new_unstable" => tables::returned(alloc, documents, kind, arguments),
        ("RangePattern", [text]) if call == "parse" => ends::separator(alloc, text),
        ("RangePattern", [text]) if call == "with_approximately_sign" => {
            ends::approximately_sign(alloc, text)
        }
        ("DecimalRange", [start, end]) if call == "try_new" => ends::range_made(alloc, start, end),
        ("NumberRangeFormatter", [locale, pattern, start, end]) => {
            let range = (pattern.as_str(), start.as_str(), end.as_str());
            locales::numbers(alloc, documents, call, locale, range)
        }
        ("", [locale, pattern]) if call == "are_ranges_readable" => {
            locales::readable(alloc, documents, locale, pattern)
        }
        ("", [locale, text, symbol, pattern]) if call == "are_amount_ranges_readable" => {
            let amounts = (locale.as_str(), text.as_str(), symbol.as_str());
            amounts::readable(alloc, documents, amounts, pattern)
        }
        ("RangePattern", [_, _, _]) if call == "approximately_sign" => {
            tables::returned(alloc, documents, call, arguments)
        }
        ("PluralRanges", _) => plural::returned(alloc, documents, call, arguments),
        ("PercentRangeFormatter" | "CurrencyRangeFormatter", _) => {
            amounts::returned(alloc, documents, (kind, call), arguments)
        }
        ("UnitsRangeFormatter" | "LongCurrencyRangeFormatter", _) => {
            measures::returned(alloc, documents, (kind, call), arguments)
        }
        _ => Err(Fault::Unreadable),
    }
}

impl Calls for RangeCalls {
    fn returned(
        &self,
        alloc: Global,
        documents: &Documents,
        call: &str,
        arguments: &[String],
    ) -> CallResult {
        match returned(alloc, documents, call, arguments) {
            Ok(text) => Ok(Some(text)),
            Err(fault) => reported(alloc, fault),
        }
    }
}

fn main(rt: HostRuntime) -> io::Result<()> {
    rows::run(&rt, &RangeCalls)
}
