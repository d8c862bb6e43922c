//! Values and digits written to a buffer of bytes.

ghost use Rattle.std.specs.Prelude.{◌<◌, All};

use super::INTEGER;
use std::alloc::Global;
use writeable::{EventWriter, WriteFault};

pub(super) const LATIN: [char; 10] = ['0', '1', '2', '3', '4', '5', '6', '7', '8', '9'];

pub(super) const BENGALI: [char; 10] = ['০', '১', '২', '৩', '৪', '৫', '৬', '৭', '৮', '৯'];

/// Digits of four bytes each.
pub(super) const ADLAM: [char; 10] = [
    '\u{1e950}',
    '\u{1e951}',
    '\u{1e952}',
    '\u{1e953}',
    '\u{1e954}',
    '\u{1e955}',
    '\u{1e956}',
    '\u{1e957}',
    '\u{1e958}',
    '\u{1e959}',
];

/// Latin but for the nine.
pub(super) const MIXED: [char; 10] = ['0', '1', '2', '3', '4', '5', '6', '7', '8', '৯'];

/// Digits in a part, between a character and a text. Without a table they are written as '0' to
/// '9'.
fn write_parts<K: EventWriter>(
    out: &mut K,
    digits: &[u8],
    characters: Option<&[char; 10]>,
) -> Result<(), WriteFault>
    requires { All (λ d. d < 10) digits.now }
{
    out.character('€')?;
    out.open(INTEGER)?;
    match characters {
        Some(characters) => out.digits(digits, characters)?,
        None => out.ascii_digits(digits)?,
    }
    out.close()?;
    out.part(INTEGER, " ok")
}

/// Whether a buffer of bytes gets this text; asked once more where memory ran out.
fn is_in_bytes(alloc: Global, digits: &[u8], characters: Option<&[char; 10]>, text: &str) -> bool
    requires { All (λ d. d < 10) digits.now }
{
    let mut out = Vec::new(alloc);
    if write_parts(&mut out, digits, characters).is_err() {
        out = Vec::new(alloc);
        if write_parts(&mut out, digits, characters).is_err() {
            return false;
        }
    }
    out.as_slice() == text.as_bytes()
}

/// Whether a text gets this text; asked once more where memory ran out.
fn is_in_a_text(alloc: Global, digits: &[u8], characters: Option<&[char; 10]>, text: &str) -> bool
    requires { All (λ d. d < 10) digits.now }
{
    let mut out = String::new(alloc);
    if write_parts(&mut out, digits, characters).is_err() {
        out = String::new(alloc);
        if write_parts(&mut out, digits, characters).is_err() {
            return false;
        }
    }
    out.as_str() == text
}

#[test]
fn writes_digits_to_bytes_and_texts(rt: HostRuntime) {
    let digits = [1, 9, 0, 9, 2];
    for (characters, text) in [
        (None, "€19092 ok"),
        (Some(&LATIN), "€19092 ok"),
        (Some(&BENGALI), "€১৯০৯২ ok"),
        (Some(&MIXED), "€1৯0৯2 ok"),
        (
            Some(&ADLAM),
            "€\u{1e951}\u{1e959}\u{1e950}\u{1e959}\u{1e952} ok",
        ),
    ] {
        assert!(rt;
            is_in_bytes(rt.alloc(), &digits, characters, text),
            "{text}"
        );
        assert!(rt;
            is_in_a_text(rt.alloc(), &digits, characters, text),
            "{text}"
        );
    }
}

#[test]
fn writes_no_digits_to_bytes(rt: HostRuntime) {
    for characters in [None, Some(&LATIN)] {
        assert!(rt; is_in_bytes(rt.alloc(), &[], characters, "€ ok"));
    }
}
