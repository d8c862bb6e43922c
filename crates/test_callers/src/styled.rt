//! Whether a value is displayed as a text under a width, a fill, a precision and other options: the
//! same characters, unpadded.

use std::alloc::{AllocError, Global};
use std::fmt::Display;

/// Whether a text was made, and is this.
fn is_text(made: Result<String, AllocError>, want: &str) -> bool {
    match made {
        Ok(text) => text.as_str() == want,
        Err(_) => false,
    }
}

/// Whether a value is displayed so without a width, under one on each side, with a fill and zeros.
fn is_unpadded<T: Display>(alloc: Global, value: &T, want: &str) -> bool {
    is_text(format!(in alloc; "{value}"), want)
        && is_text(format!(in alloc; "{value:80}"), want)
        && is_text(format!(in alloc; "{value:>80}"), want)
        && is_text(format!(in alloc; "{value:*^80}"), want)
        && is_text(format!(in alloc; "{value:080}"), want)
}

/// Whether a value is displayed so under a precision, a plus, and the alternate form.
fn is_uncut<T: Display>(alloc: Global, value: &T, want: &str) -> bool {
    is_text(format!(in alloc; "{value:.1}"), want)
        && is_text(format!(in alloc; "{value:+}"), want)
        && is_text(format!(in alloc; "{value:#}"), want)
        && is_text(format!(in alloc; "{value:*>80.1}"), want)
}

/// Whether a value is displayed so under each of these options; asked once more where memory ran
/// out.
pub(crate) fn is_styled<T: Display>(alloc: Global, value: &T, want: &str) -> bool {
    (is_unpadded(alloc, value, want) || is_unpadded(alloc, value, want))
        && (is_uncut(alloc, value, want) || is_uncut(alloc, value, want))
}
