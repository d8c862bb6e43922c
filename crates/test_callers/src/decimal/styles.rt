//! Formatted values and errors under a width, a fill, a precision and other options: the same
//! characters, unpadded.

use super::fixtures::{english, read, short_english};
use crate::styled::is_styled;
use fixed_decimal::Decimal;
use icu_decimal::CompactDecimalFormatter;
use icu_decimal::error::FormatError;
use icu_decimal::options::GroupingStrategy;
use std::alloc::Global;
use std::process::Abort;

/// Whether a compact number is displayed so under every style, with its sign and without.
fn styles_a_compact_number(
    alloc: Global,
    formatter: &CompactDecimalFormatter,
    decimal: &Decimal,
) -> bool {
    match formatter.format(alloc, decimal) {
        Ok(value) => {
            is_styled(alloc, &value, "-1.2K") && is_styled(alloc, value.value(), "1.2K")
        }
        Err(_) => false,
    }
}

/// Whether a given number is displayed so under every style, with its sign and without.
fn styles_a_given_number(
    alloc: Global,
    formatter: &CompactDecimalFormatter,
    significand: &Decimal,
) -> bool {
    match formatter.format_with_exponent(significand, 12) {
        Ok(value) => {
            is_styled(alloc, &value, "-1,234.5T") && is_styled(alloc, value.value(), "1,234.5T")
        }
        Err(_) => false,
    }
}

fn styles_plain_numbers(rt: &impl Abort, alloc: Global) -> bool {
    let decimal = read(rt, alloc, "-1234.5");
    let english = english(rt, alloc, GroupingStrategy::Auto);
    is_styled(alloc, &english.format(&decimal), "-1,234.5")
}

fn styles_compact_numbers(rt: &impl Abort, alloc: Global) -> bool {
    let decimal = read(rt, alloc, "-1234.5");
    let formatter = short_english(rt, alloc, GroupingStrategy::Auto);
    (styles_a_compact_number(alloc, &formatter, &decimal)
        || styles_a_compact_number(alloc, &formatter, &decimal))
        && styles_a_given_number(alloc, &formatter, &decimal)
}

#[test]
fn displays_numbers_under_every_style(rt: HostRuntime) {
    assert!(rt; styles_plain_numbers(&rt, rt.alloc()));
    assert!(rt; styles_compact_numbers(&rt, rt.alloc()));
}

/// Whether the error of an exponent that isn't that of a number is displayed so under every style.
fn styles_a_refused_exponent(
    alloc: Global,
    formatter: &CompactDecimalFormatter,
    significand: &Decimal,
) -> bool {
    match formatter.format_with_exponent(significand, 255) {
        Ok(_) => false,
        Err(error) => {
            let want = "Expected compact exponent 12 for 10^258, got 255";
            is_styled(alloc, &error, want)
        }
    }
}

fn styles_exponents(rt: &impl Abort, alloc: Global) -> bool {
    let significand = read(rt, alloc, "-1234.5");
    let formatter = short_english(rt, alloc, GroupingStrategy::Auto);
    styles_a_refused_exponent(alloc, &formatter, &significand)
}

#[test]
fn displays_a_refused_exponent_under_every_style(rt: HostRuntime) {
    assert!(rt; styles_exponents(&rt, rt.alloc()));
}

const ERRORS: &[(FormatError, &str)] = &[
    (FormatError::Overflow, "the compact number is too large"),
    (FormatError::OutOfMemory, "out of memory"),
    (FormatError::Sink, "the sink could not take the text"),
];

#[test]
fn displays_errors_under_every_style(rt: HostRuntime) {
    for &(error, want) in ERRORS {
        assert!(rt; is_styled(rt.alloc(), &error, want), "{want}");
    }
}
