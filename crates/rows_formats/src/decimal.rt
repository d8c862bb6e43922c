//! Calls of `icu_decimal`. Their arguments begin with what the formatter is made of: a file of
//! tables, or the text of one, a locale, and a style (`plain`, `short`, `long`, `parts`,
//! `short_parts`). They may end in options, as `system=latn`, `grouping=Min2`, `sign=ExceptZero`,
//! `limit=3`.

pub(crate) mod asked;
pub(crate) mod compact;
pub(crate) mod frames;
pub(crate) mod making;
mod plain;
mod shown;
pub(crate) mod spelled;

use crate::CallResult;
use asked::asked_of;
use rows::Documents;
use std::alloc::Global;

/// What a call of a formatter answers.
pub(crate) fn returned(
    alloc: Global,
    documents: &Documents,
    call: &str,
    arguments: &[String],
) -> CallResult {
    match asked_of(arguments) {
        Some((asked, words)) => making::by_file(alloc, documents, &asked, (call, words)),
        None => Ok(None),
    }
}
