//! Errors under a width, a fill, a precision and the alternate form: the same characters, unpadded.

use crate::styled::is_styled;
use icu_tables::{EntryFault, Key, TableError};
use number_forms::StartError;

/// A fault of an entry.
const BAD_LOCALE: TableError = TableError::Entry {
    key: Key::Units,
    index: 3,
    fault: EntryFault::BadLocale,
};

const STARTS: &[(StartError, &str)] = &[
    (StartError::NotUtf8, "not UTF-8"),
    (StartError::Refused(TableError::NotJson), "not JSON"),
    (
        StartError::Refused(BAD_LOCALE),
        "entry 3 of `units`: bad locale",
    ),
    (StartError::NoData, "no data"),
    (StartError::OutOfMemory, "out of memory"),
];

#[test]
fn displays_why_there_is_no_form_under_every_style(rt: HostRuntime) {
    for &(error, want) in STARTS {
        assert!(rt; is_styled(rt.alloc(), &error, want), "{want}");
    }
}
