//! Rows of messages: what they are read as, how they are spelled, and what they write.
#![tactic(auto)]

mod arguments;
mod catalogues;
mod faults;
mod forms;
mod locales;
mod messages;
mod numbers;

use rows::{Calls, Documents};
use std::alloc::{AllocError, Global};
use std::io;

/// What a call answers; `None` if there is no such call.
type CallResult = Result<Option<String>, AllocError>;

/// The calls of messages.
struct MessageCalls;

impl Calls for MessageCalls {
    fn returned(
        &self,
        alloc: Global,
        documents: &Documents,
        call: &str,
        arguments: &[String],
    ) -> CallResult {
        if let Some(returned) = messages::returned(alloc, call, arguments)? {
            return Ok(Some(returned));
        }
        if let Some(returned) = catalogues::returned(alloc, call, arguments)? {
            return Ok(Some(returned));
        }
        if let Some(returned) = forms::returned(alloc, documents, call, arguments)? {
            return Ok(Some(returned));
        }
        locales::returned(alloc, documents, call, arguments)
    }
}

fn main(rt: HostRuntime) -> io::Result<()> {
    rows::run(&rt, &MessageCalls)
}
