//! Errors under a width, a fill, a precision and the alternate form: the same characters, unpadded.

use crate::styled::is_styled;
use icu_decimal_data::{CompactError, Damaged, SymbolsError};

const TABLES: [(CompactError, &str); 5] = [
    (
        CompactError::ExponentsFall,
        "Compact exponents should be nondecreasing",
    ),
    (
        CompactError::ExponentAboveType,
        "a compact exponent is above its type",
    ),
    (CompactError::TooManyZeros, "Pattern has too many zeros"),
    (
        CompactError::TooLarge,
        "the literals of the compact patterns are more than 65535 bytes together",
    ),
    (CompactError::OutOfMemory, "out of memory"),
];

#[test]
fn displays_errors_of_tables_under_every_style(rt: HostRuntime) {
    for &(error, want) in &TABLES {
        assert!(rt; is_styled(rt.alloc(), &error, want), "{want}");
    }
}

const SYMBOLS: [(SymbolsError, &str); 3] = [
    (
        SymbolsError::TooLarge,
        "the symbols are more than 255 bytes together",
    ),
    (
        SymbolsError::BadNumberingSystem,
        "the symbols name no numbering system",
    ),
    (SymbolsError::OutOfMemory, "out of memory"),
];

#[test]
fn displays_errors_of_symbols_under_every_style(rt: HostRuntime) {
    for &(error, want) in &SYMBOLS {
        assert!(rt; is_styled(rt.alloc(), &error, want), "{want}");
    }
}

#[test]
fn displays_a_damaged_byte_under_every_style(rt: HostRuntime) {
    let damaged = Damaged { byte: 116 };
    assert!(rt; is_styled(rt.alloc(), &damaged, "the bytes are damaged at byte 116"));
}
