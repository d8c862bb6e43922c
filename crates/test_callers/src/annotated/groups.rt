//! Digits in groups, and without groups, over every writer.

use super::GROUP;
use super::bytes::{ADLAM, BENGALI, LATIN, MIXED};
use super::writers::{Shown, is_written};
use writeable::Grouping;

/// Characters of one byte each that are not the Latin digits.
const LETTERS: [char; 10] = ['a', 'b', 'c', 'd', 'e', 'f', 'g', 'h', 'i', 'j'];

/// Digits of two bytes each.
const ARABIC: [char; 10] = [
    '\u{660}', '\u{661}', '\u{662}', '\u{663}', '\u{664}', '\u{665}', '\u{666}', '\u{667}',
    '\u{668}', '\u{669}',
];

/// How many digits, the sizes of the last group and of those before it, the separator, and the text
/// with its parts.
const ROWS: [(usize, (usize, usize), &str, &str); 29] = [
    (0, (3, 3), ",", ""),
    (1, (3, 3), ",", "1"),
    (3, (3, 3), ",", "123"),
    (4, (3, 3), ",", "1[,)234"),
    (5, (3, 3), ",", "12[,)345"),
    (6, (3, 3), ",", "123[,)456"),
    (7, (3, 3), ",", "1[,)234[,)567"),
    (12, (3, 3), ",", "123[,)456[,)789[,)012"),
    (3, (3, 2), ",", "123"),
    (4, (3, 2), ",", "1[,)234"),
    (7, (3, 2), ",", "12[,)34[,)567"),
    (8, (3, 2), ",", "1[,)23[,)45[,)678"),
    (6, (3, 1), ",", "1[,)2[,)3[,)456"),
    (4, (4, 4), ",", "1234"),
    (8, (4, 4), ",", "1234[,)5678"),
    (9, (4, 4), ",", "1[,)2345[,)6789"),
    (12, (255, 255), ",", "123456789012"),
    (7, (3, 3), "", "1[)234[)567"),
    (7, (3, 3), "’", "1[’)234[’)567"),
    (7, (3, 2), " thousand", "12[ thousand)34[ thousand)567"),
    (6, (1, 1), "’", "1[’)2[’)3[’)4[’)5[’)6"),
    (6, (3, 2), "", "1[)23[)456"),
    (6, (3, 1), "’", "1[’)2[’)3[’)456"),
    (5, (3, 1), " thousand", "1[ thousand)2[ thousand)345"),
    (8, (4, 4), "", "1234[)5678"),
    (9, (4, 4), "’", "1[’)2345[’)6789"),
    (4, (3, 3), " thousand", "1[ thousand)234"),
    (8, (4, 4), " thousand", "1234[ thousand)5678"),
    (12, (255, 255), "’", "123456789012"),
];

#[test]
fn groups_by_sizes_and_separators(rt: HostRuntime) {
    for &(count, (primary, secondary), separator, marked) in &ROWS {
        let grouping = Grouping {
            primary,
            secondary,
            part: Some(GROUP),
            separator,
        };
        for characters in [None, Some(&LATIN)] {
            let shown = Shown {
                count,
                grouping: Some(&grouping),
                characters,
            };
            assert!(rt; is_written(rt.alloc(), &shown, marked), "{marked}");
        }
    }
}

#[test]
fn groups_other_digits(rt: HostRuntime) {
    for (count, characters, separator, text) in [
        (7, &LETTERS, ",", "b,cde,fgh"),
        (7, &BENGALI, ",", "১,২৩৪,৫৬৭"),
        (10, &MIXED, ",", "1,234,567,8৯0"),
        (4, &ADLAM, ",", "\u{1e951},\u{1e952}\u{1e953}\u{1e954}"),
        (4, &ARABIC, "\u{66c}", "\u{661}\u{66c}\u{662}\u{663}\u{664}"),
        (4, &ARABIC, "", "\u{661}\u{662}\u{663}\u{664}"),
        (6, &BENGALI, "’", "১২৩’৪৫৬"),
    ] {
        let grouping = Grouping {
            primary: 3,
            secondary: 3,
            part: None,
            separator,
        };
        let shown = Shown {
            count,
            grouping: Some(&grouping),
            characters: Some(characters),
        };
        assert!(rt; is_written(rt.alloc(), &shown, text), "{text}");
    }
}

#[test]
fn writes_digits_without_groups(rt: HostRuntime) {
    for (count, characters, text) in [
        (0, None, ""),
        (1, None, "1"),
        (12, None, "123456789012"),
        (12, Some(&LATIN), "123456789012"),
        (7, Some(&LETTERS), "bcdefgh"),
        (4, Some(&ARABIC), "\u{661}\u{662}\u{663}\u{664}"),
        (4, Some(&BENGALI), "১২৩৪"),
        (2, Some(&ADLAM), "\u{1e951}\u{1e952}"),
        (10, Some(&MIXED), "12345678৯0"),
    ] {
        let shown = Shown {
            count,
            grouping: None,
            characters,
        };
        assert!(rt; is_written(rt.alloc(), &shown, text), "{text}");
    }
}
