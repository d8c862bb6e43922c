//! What calls answer, and what becomes of rows.

ghost use Rattle.std.specs.Prelude.{◌≡◌, ◌↔◌, None, Some, option_map};
ghost use Rattle.std.specs.String.{string_bytes};
ghost use Rattle.rows.specs.declared.asking.Outcome.TheVariants.{Right, Unreadable, Wrong};

use crate::documents::Documents;
use crate::escapes::escaped;
use crate::reading::Row;
use std::alloc::{AllocError, Global};

/// The calls that rows name. A program of rows implements it.
pub trait Calls {
    /// What a call answers for these arguments, as rows spell it; `None` if there is no such call,
    /// or if the arguments aren't what it takes. A call that reports that it is out of memory
    /// answers `Err`.
    fn returned(
        &self,
        alloc: Global,
        documents: &Documents,
        call: &str,
        arguments: &[String],
    ) -> Result<Option<String>, AllocError>;
}

/// What a row came to.
#[derive(Debug, Drop)]
pub(crate) enum Outcome {
    /// The answer is the one that is wanted.
    Right,
    /// Another answer.
    Wrong(String),
    /// There is no such call, or the arguments aren't what it takes.
    Unreadable,
    /// The call was out of memory twice.
    OutOfMemory,
}

/// What a row comes to that wants this text, by the answer of its call. A wrong answer is kept.
// promise: A row is right exactly if its call answers what it wants.
// mutations: any_answer_right, answer_lost
fn judged(got: Option<String>, wanted: &str) -> Outcome
    ensures right { result ≡ Right ↔ (option_map string_bytes got ≡ Some wanted.now) }
    ensures wrong { (text : _) → result ≡ Wrong text → got ≡ Some text }
    ensures unreadable { result ≡ Unreadable ↔ (got ≡ None) }
{
    match got {
        Some(text) if text.as_str() == wanted => Outcome::Right,
        Some(text) => Outcome::Wrong(text),
        None => Outcome::Unreadable,
    }
}

/// What a row comes to. A call that is out of memory is asked once more.
pub(crate) fn asked(
    alloc: Global,
    calls: &impl Calls,
    documents: &Documents,
    row: &Row,
) -> Outcome {
    let returned = match calls.returned(alloc, documents, row.call.as_str(), &row.arguments) {
        Ok(returned) => Ok(returned),
        Err(_) => calls.returned(alloc, documents, row.call.as_str(), &row.arguments),
    };
    match returned {
        Ok(returned) => judged(returned, row.wanted.as_str()),
        Err(_) => Outcome::OutOfMemory,
    }
}

/// What is printed below a row that isn't right.
pub(crate) fn reported(alloc: Global, outcome: &Outcome) -> Result<Option<String>, AllocError> {
    match outcome {
        Outcome::Right => Ok(None),
        Outcome::Wrong(returned) => Ok(Some(escaped(alloc, returned.as_str())?)),
        Outcome::Unreadable => Ok(Some(String::from_str(
            alloc,
            "there is no such call with such arguments",
        )?)),
        Outcome::OutOfMemory => Ok(Some(String::from_str(alloc, "out of memory, twice")?)),
    }
}
