//! Compact tables in one byte string: each byte of one set to each value.

use icu_decimal_data::CompactView;
use icu_pattern::SinglePlaceholder;

/// Types 4 and 8 of long Japanese.
pub(crate) const JAPANESE: [u8; 126] = *b"\x02\x00\x06\x00\
\x04\x04\0\0\0\0\0\0\0\0\0\0\0\0\0\0\0\0\0\0\0\0\0\0\0\0\0\0\0\0\0\0\0\0\0\0\0\0\0\0\0\0\0\0\0\0\0\0\0\0\0\x02\x00\x00\x03\x00\x00\x00\
\x08\x08\0\0\0\0\0\0\0\0\0\0\0\0\0\0\0\0\0\0\0\0\0\0\0\0\0\0\0\0\0\0\0\0\0\0\0\0\0\0\0\0\0\0\0\0\0\0\0\0\0\x02\x03\x00\x03\x00\x00\x00\
\xe4\xb8\x87\xe5\x84\x84";

/// Whether bytes are read, or rejected by a byte that isn't above their number.
fn is_told_inside(bytes: &[u8]) -> bool {
    match CompactView::<SinglePlaceholder>::parse(bytes) {
        Ok(_) => true,
        Err(damaged) => damaged.byte <= bytes.len(),
    }
}

/// The first value with which a byte of long Japanese is reported past the end.
fn untold(index: usize) -> Option<u8> {
    if index >= JAPANESE.len() {
        return None;
    }
    for value in 0..=255 {
        let mut bytes = JAPANESE;
        bytes[index] = value;
        if !is_told_inside(&bytes) {
            return Some(value);
        }
    }
    None
}

#[test]
fn each_byte_set_to_each_value_is_told_inside(rt: HostRuntime) {
    for index in 0..JAPANESE.len() {
        assert!(rt; untold(index) == None, "byte {index}");
    }
}
