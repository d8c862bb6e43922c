//! Rows of texts that are read as numbers: plain and compact ones of a locale, and those with a
//! suffix.
#![tactic(auto)]

mod compact;
mod digits;
mod locales;
mod scaled;

use rows::{Calls, Documents};
use std::alloc::{AllocError, Global};
use std::io;

/// What a call answers; `None` if there is no such call.
type CallResult = Result<Option<String>, AllocError>;

/// The calls that read numbers.
struct ReadingCalls;

impl Calls for ReadingCalls {
    fn returned(
        &self,
        alloc: Global,
        documents: &Documents,
        call: &str,
        arguments: &[String],
    ) -> CallResult {
        match (call, arguments) {
            ("read_text", [locale, text]) => {
                locales::returned(alloc, documents, locale.as_str(), text.as_str())
            }
            ("read_compact", [locale, width, text]) => {
                let by = (locale.as_str(), width.as_str());
                compact::returned(alloc, documents, by, text.as_str())
            }
            ("read_scaled", [scale, text]) => scaled::read(alloc, scale.as_str(), text.as_str()),
            ("scale_down", [scale, round, number]) => {
                scaled::written(alloc, scale.as_str(), round.as_str(), number.as_str())
            }
            _ => Ok(None),
        }
    }
}

fn main(rt: HostRuntime) -> io::Result<()> {
    rows::run(&rt, &ReadingCalls)
}
