//! From two equal texts to what they determine: callers of the laws, proved by public clauses
//! alone.

ghost use Rattle.std.specs.Prelude.{◌≡◌, ◌↔◌, IfSome, IsTrue};
ghost use Rattle.fixed_decimal.specs.Size.{size};
ghost use Rattle.icu_decimal.specs.CompactLaws.{IsUnpadded};
ghost use Rattle.test_callers.specs.OneSize.{ShowOneSize};

use super::fixtures::{english, read, short_english};
use fixed_decimal::{Decimal, UnsignedDecimal};
use icu_decimal::laws::{
    compact_text_tells, nearest_is_unique, shown_again, text_tells_the_decimal,
};
use icu_decimal::options::GroupingStrategy;
use icu_decimal::{CompactDecimalFormatter, DecimalFormatter};
use std::alloc::Global;
use std::process::Abort;

/// Whether two decimals have one text: then they are equal. None if the formatter isn't readable or
/// memory runs out.
fn have_one_text(
    alloc: Global,
    formatter: &DecimalFormatter,
    one: &Decimal,
    other: &Decimal,
) -> Option<bool>
    ensures { IfSome result (λ same. IsTrue same →
        (one.now.sign ≡ other.now.sign) × (one.now.absolute ≡ other.now.absolute)) }
{
    text_tells_the_decimal();
    let _ = one.absolute.is_zero();
    let _ = other.absolute.is_zero();
    if !formatter.is_readable() {
        return None;
    }
    let Ok(first) = formatter.format_to_string(alloc, one) else {
        return None;
    };
    let Ok(second) = formatter.format_to_string(alloc, other) else {
        return None;
    };
    Some(first == second)
}

/// Whether two decimals have one compact text: then they have one sign, and one nearest compact
/// number. None if the formatter isn't readable, a number is too large or memory runs out.
fn have_one_compact_text(
    alloc: Global,
    formatter: &CompactDecimalFormatter,
    one: &Decimal,
    other: &Decimal,
) -> Option<bool>
    ensures { IfSome result (λ same. IsTrue same → (one.now.sign ≡ other.now.sign)
        × ShowOneSize formatter.now (size one.now.absolute) (size other.now.absolute)) }
{
    compact_text_tells();
    if !formatter.is_readable() {
        return None;
    }
    let Ok(first) = formatter.format_to_string(alloc, one) else {
        return None;
    };
    let Ok(second) = formatter.format_to_string(alloc, other) else {
        return None;
    };
    Some(first == second)
}

/// Whether a number has no leading padding.
fn is_unpadded(number: &UnsignedDecimal) -> bool
    ensures { IsTrue result → IsUnpadded number.now }
{
    let written = *number.magnitude_range().end();
    let first = number.nonzero_magnitude_start();
    if first > 0 {
        return written == first;
    }
    written == 0
}

/// Whether two decimals without leading padding have one compact text: exactly if they have one
/// sign, and one nearest compact number. None if one has such padding, the formatter isn't
/// readable, a number is too large or memory runs out.
fn show_one_number(
    alloc: Global,
    formatter: &CompactDecimalFormatter,
    one: &Decimal,
    other: &Decimal,
) -> Option<bool>
    ensures { IfSome result (λ same. IsTrue same ↔ ((one.now.sign ≡ other.now.sign)
        × ShowOneSize formatter.now (size one.now.absolute) (size other.now.absolute))) }
{
    shown_again();
    nearest_is_unique();
    if !formatter.is_readable() || !is_unpadded(&one.absolute) || !is_unpadded(&other.absolute) {
        return None;
    }
    let Ok(first) = formatter.format_to_string(alloc, one) else {
        return None;
    };
    let Ok(second) = formatter.format_to_string(alloc, other) else {
        return None;
    };
    Some(first == second)
}

/// Two numbers, and whether they have one text, plain and in short English.
const PAIRS: &[(&str, &str, bool, bool)] = &[
    ("1234", "1234", true, true),
    ("1234", "-1234", false, false),
    ("1.5", "1.50", false, true),
    ("0999500", "999500", false, true),
    ("999500", "1000000", false, true),
    ("999499", "999500", false, false),
    ("1250", "1150", false, true),
];

/// What is concluded of two decimals by their texts, asked once more where memory ran out.
fn tell_by_texts(
    alloc: Global,
    formatter: &DecimalFormatter,
    one: &Decimal,
    other: &Decimal,
) -> Option<bool> {
    match have_one_text(alloc, formatter, one, other) {
        Some(told) => Some(told),
        None => have_one_text(alloc, formatter, one, other),
    }
}

/// What the plain English formatter concludes so of the numbers of two texts.
fn told_plainly(rt: &impl Abort, alloc: Global, one: &str, other: &str) -> Option<bool> {
    let formatter = english(rt, alloc, GroupingStrategy::Auto);
    let one = read(rt, alloc, one);
    let other = read(rt, alloc, other);
    tell_by_texts(alloc, &formatter, &one, &other)
}

#[test]
fn equal_texts_are_of_one_decimal(rt: HostRuntime) {
    for &(one, other, same, _) in PAIRS {
        assert!(rt;
            told_plainly(&rt, rt.alloc(), one, other) == Some(same),
            "{one} and {other}"
        );
    }
}

/// What is concluded of two decimals by their compact texts, asked once more where memory ran out.
fn tell_by_compact_texts(
    alloc: Global,
    formatter: &CompactDecimalFormatter,
    one: &Decimal,
    other: &Decimal,
) -> Option<bool> {
    match have_one_compact_text(alloc, formatter, one, other) {
        Some(told) => Some(told),
        None => have_one_compact_text(alloc, formatter, one, other),
    }
}

/// What the formatter of short English concludes so of the numbers of two texts.
fn told_compactly(rt: &impl Abort, alloc: Global, one: &str, other: &str) -> Option<bool> {
    let formatter = short_english(rt, alloc, GroupingStrategy::Min2);
    let one = read(rt, alloc, one);
    let other = read(rt, alloc, other);
    tell_by_compact_texts(alloc, &formatter, &one, &other)
}

#[test]
fn equal_compact_texts_show_one_number(rt: HostRuntime) {
    for &(one, other, _, same) in PAIRS {
        assert!(rt;
            told_compactly(&rt, rt.alloc(), one, other) == Some(same),
            "{one} and {other}"
        );
    }
}

/// What is concluded of two decimals that may be shown as one number, asked once more where memory
/// ran out.
fn tell_by_numbers(
    alloc: Global,
    formatter: &CompactDecimalFormatter,
    one: &Decimal,
    other: &Decimal,
) -> Option<bool> {
    match show_one_number(alloc, formatter, one, other) {
        Some(told) => Some(told),
        None => show_one_number(alloc, formatter, one, other),
    }
}

/// What the formatter of short English concludes so of the numbers of two texts.
fn told_by_numbers(rt: &impl Abort, alloc: Global, one: &str, other: &str) -> Option<bool> {
    let formatter = short_english(rt, alloc, GroupingStrategy::Min2);
    let one = read(rt, alloc, one);
    let other = read(rt, alloc, other);
    tell_by_numbers(alloc, &formatter, &one, &other)
}

/// What has to be concluded: nothing of a number with leading padding.
fn wanted(one: &str, same: bool) -> Option<bool> {
    if one.starts_with('0') {
        None
    } else {
        Some(same)
    }
}

#[test]
fn one_number_is_shown_where_texts_are_equal(rt: HostRuntime) {
    for &(one, other, _, same) in PAIRS {
        assert!(rt;
            told_by_numbers(&rt, rt.alloc(), one, other) == wanted(one, same),
            "{one} and {other}"
        );
    }
}
