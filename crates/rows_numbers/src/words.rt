//! What the modules of calls share: how answers are spelled.

use std::alloc::{AllocError, Global};

/// An answer of fixed words.
pub(crate) fn said(alloc: Global, words: &str) -> Result<Option<String>, AllocError> {
    Ok(Some(String::from_str(alloc, words)?))
}

/// `yes` or `no`.
pub(crate) fn yes_or_no(is_so: bool) -> &'static str {
    if is_so { "yes" } else { "no" }
}

/// `equal` or `different`.
pub(crate) fn equal_or_different(is_equal: bool) -> &'static str {
    if is_equal { "equal" } else { "different" }
}

/// The text of an argument, where `none` stands for none.
pub(crate) fn optional(argument: &str) -> Option<&str> {
    if argument == "none" {
        None
    } else {
        Some(argument)
    }
}
