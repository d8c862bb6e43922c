//! Rows of options, forms, lines and explanations.
#![tactic(auto)]

mod bytes;
mod counts;
mod explanations;
mod faults;
mod forms;
mod lines;
mod modes;
mod options;
mod parts;
mod pieces;
mod ranges;
mod records;
mod rooms;
mod words;

use rows::{Calls, Documents};
use std::alloc::{AllocError, Global};
use std::io;

/// What a call answers, if there is such a call with such arguments.
pub(crate) type CallResult = Result<Option<String>, AllocError>;

/// The calls of the crates that make reports, and of those that `locnum` stands on.
struct Reports;

impl Calls for Reports {
    fn returned(
        &self,
        alloc: Global,
        documents: &Documents,
        call: &str,
        arguments: &[String],
    ) -> Result<Option<String>, AllocError> {
        let (given, options) = words::cut_at_options(arguments);
        match forms::returned(alloc, documents, call, given, options)? {
            Some(returned) => Ok(Some(returned)),
            None => modes::returned(alloc, documents, call, arguments),
        }
    }
}

fn main(rt: HostRuntime) -> io::Result<()> {
    rows::run(&rt, &Reports)
}
