//! The order of decimals, by sign and size.

ghost use Rattle.std.specs.Prelude.{◌≡◌, ◌≢◌, ◌+◌, ◌<◌, ◌↔◌, ◌++◌, IsTrue, All, length, replicate, slice_index};
ghost use Rattle.fixed_decimal.specs.Unsigned.{AreDigits};
ghost use Rattle.fixed_decimal.specs.Size.{size};
ghost use Rattle.icu_ranges.specs.Digits.{TellsHeavier, IsTrimmed};
ghost use Rattle.icu_ranges.specs.Order.{IsAbove};

use fixed_decimal::{Decimal, Sign, UnsignedDecimal};

/// The digits without the zeros in front.
fn significant(digits: &[u8]) -> &[u8]
    ensures { IsTrimmed digits.now result.now }
{
    let mut first = 0;
    while first < digits.len() && digits[first] == 0 {
        first += 1;
    }
    digits.split_at(first).1
}

/// The digit at an index, 0 past the end.
fn digit_or_zero(digits: &[u8], index: usize) -> u8
    ensures { result ≡ slice_index digits.now index }
{
    digits.get(index).copied().unwrap_or(0)
}

/// Whether the first digits are more than the second ones, where both begin at one power.
fn are_more(digits: &[u8], others: &[u8]) -> bool
    requires digits { AreDigits digits.now }
    requires others { AreDigits others.now }
    ensures { TellsHeavier result digits.now others.now }
{
    for index in 0..digits.len().max(others.len()) {
        let digit = digit_or_zero(digits, index);
        let other = digit_or_zero(others, index);
        if digit != other {
            return other < digit;
        }
    }
    false
}

/// Whether the first number is larger.
fn is_larger(number: &UnsignedDecimal, other: &UnsignedDecimal) -> bool
    ensures { IsTrue result ↔ (size other.now < size number.now) }
{
    let digits = significant(number.integer());
    let others = significant(other.integer());
    if digits.len() != others.len() {
        return others.len() < digits.len();
    }
    if are_more(digits, others) {
        return true;
    }
    if are_more(others, digits) {
        return false;
    }
    are_more(number.fraction(), other.fraction())
}

/// Whether the first decimal is above the second.
pub(crate) fn is_above(decimal: &Decimal, other: &Decimal) -> bool
    ensures { IsTrue result ↔ IsAbove decimal.now other.now }
{
    match (decimal.sign, other.sign) {
        (Sign::Negative, Sign::Negative) => is_larger(&other.absolute, &decimal.absolute),
        (Sign::Negative, _) => false,
        (_, Sign::Negative) => !decimal.absolute.is_zero() || !other.absolute.is_zero(),
        _ => is_larger(&decimal.absolute, &other.absolute),
    }
}
