//! Errors and keys under a width, a fill, a precision and the alternate form: the same characters,
//! unpadded.

use crate::styled::is_styled;
use icu_tables::{EntryFault, Key, TableError};

const KEYS: &[(Key, &str)] = &[
    (Key::Document, ""),
    (Key::Symbols, "symbols"),
    (Key::ExplicitOne, "explicit_one"),
];

#[test]
fn displays_keys_under_every_style(rt: HostRuntime) {
    for &(error, want) in KEYS {
        assert!(rt; is_styled(rt.alloc(), &error, want), "{want}");
    }
}

const FAULTS: &[(EntryFault, &str)] = &[
    (EntryFault::BadLocale, "bad locale"),
    (EntryFault::BadNumberingSystem, "bad numbering system"),
    (EntryFault::BadPlace, "a pattern has more than one place"),
    (
        EntryFault::BadRule { rule: 1, byte: 8 },
        "rule 1 isn't a condition, by its byte 8",
    ),
    (
        EntryFault::SymbolsTooLarge,
        "the symbols are more than 255 bytes together",
    ),
    (
        EntryFault::BadSymbolsNumberingSystem,
        "the symbols name no numbering system",
    ),
    (EntryFault::ExponentsFall, "compact exponents fall"),
    (
        EntryFault::ExponentAboveType,
        "a compact exponent is above its type",
    ),
    (
        EntryFault::TooManyZeros,
        "a compact type is more than 15 above its exponent",
    ),
    (
        EntryFault::PatternsTooLarge,
        "the literals of the compact patterns are more than 65535 bytes together",
    ),
];

#[test]
fn displays_faults_under_every_style(rt: HostRuntime) {
    for &(error, want) in FAULTS {
        assert!(rt; is_styled(rt.alloc(), &error, want), "{want}");
    }
}

const ERRORS: &[(TableError, &str)] = &[
    (TableError::NotJson, "not JSON"),
    (TableError::Float, "a number that is no 64-bit whole number"),
    (TableError::Missing(Key::Digits), "`digits` is missing"),
    (
        TableError::WrongKind(Key::Sizes),
        "`sizes` has the wrong kind",
    ),
    (TableError::OutOfMemory, "out of memory"),
];

#[test]
fn displays_errors_under_every_style(rt: HostRuntime) {
    for &(error, want) in ERRORS {
        assert!(rt; is_styled(rt.alloc(), &error, want), "{want}");
    }
}

/// An error that has all parts.
const REFUSED: TableError = TableError::Entry {
    key: Key::Rules,
    index: 3,
    fault: EntryFault::BadRule { rule: 1, byte: 8 },
};

#[test]
fn displays_a_refused_entry_under_every_style(rt: HostRuntime) {
    let want = "entry 3 of `rules`: rule 1 isn't a condition, by its byte 8";
    assert!(rt; is_styled(rt.alloc(), &REFUSED, want));
}
