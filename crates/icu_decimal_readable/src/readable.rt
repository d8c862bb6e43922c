//! Whether the texts of numbers determine the numbers.

ghost use Rattle.std.specs.Prelude.{◌≡◌, ◌≢◌, ◌↔◌, ◌<◌, ℕ, IsTrue, AllPairs, chars, length, slice_index_or};
ghost use Rattle.icu_decimal_symbols.specs.LentTexts.{lent_texts};
ghost use Rattle.icu_decimal_readable.specs.Readable.{HasNoDigit, IsFreeThroughout, IsReadable, SeparatorsDistinct, SignsDiffer};

use icu_decimal_symbols::{DecimalSymbolStrsBuilder, DecimalSymbols};

/// Whether no character of the text is one of the digits.
pub(crate) fn has_no_digit(digits: &[char], text: &str) -> bool
    ensures { IsTrue result ↔ HasNoDigit digits.now (chars text.now) }
{
    for c in text.chars() {
        if digits.contains(&c) {
            return false;
        }
    }
    true
}

/// Whether a character differs from those before it.
fn is_new(digits: &[char], index: usize) -> bool
    requires { index < length digits.now }
    ensures { IsTrue result ↔ ((a d : ℕ) → a < index
        → slice_index_or digits.now a d ≢ slice_index_or digits.now index d) }
{
    for before in 0..index {
        if digits[before] == digits[index] {
            return false;
        }
    }
    true
}

/// Whether no two of the characters are equal.
fn are_different(digits: &[char]) -> bool
    ensures { IsTrue result ↔ AllPairs (λ c d. c ≢ d) digits.now }
{
    for index in 0..digits.len() {
        if !is_new(digits, index) {
            return false;
        }
    }
    true
}

/// Whether two texts have the same characters.
fn has_same_characters(a: &str, b: &str) -> bool
    ensures { IsTrue result ↔ (chars a.now ≡ chars b.now) }
{
    a == b
}

/// Whether two pairs of texts have the same characters.
fn are_same_pair(a: &str, b: &str, c: &str, d: &str) -> bool
    ensures { IsTrue result ↔ ((chars a.now ≡ chars c.now) × (chars b.now ≡ chars d.now)) }
{
    has_same_characters(a, c) && has_same_characters(b, d)
}

/// Whether no two signs have the same affixes.
fn signs_differ(texts: &DecimalSymbolStrsBuilder<'_>) -> bool
    ensures { IsTrue result ↔ SignsDiffer (lent_texts texts.now) }
{
    if are_same_pair(texts.minus_sign_prefix, texts.minus_sign_suffix, "", "") {
        return false;
    }
    if are_same_pair(texts.plus_sign_prefix, texts.plus_sign_suffix, "", "") {
        return false;
    }
    !are_same_pair(
        texts.minus_sign_prefix,
        texts.minus_sign_suffix,
        texts.plus_sign_prefix,
        texts.plus_sign_suffix,
    )
}

/// Whether no affix and no separator has a digit.
fn is_free_of_digits(texts: &DecimalSymbolStrsBuilder<'_>, digits: &[char]) -> bool
    ensures { IsTrue result ↔ IsFreeThroughout (lent_texts texts.now) digits.now }
{
    if !has_no_digit(digits, texts.minus_sign_prefix) {
        return false;
    }
    if !has_no_digit(digits, texts.minus_sign_suffix) {
        return false;
    }
    if !has_no_digit(digits, texts.plus_sign_prefix) {
        return false;
    }
    if !has_no_digit(digits, texts.plus_sign_suffix) {
        return false;
    }
    if !has_no_digit(digits, texts.decimal_separator) {
        return false;
    }
    has_no_digit(digits, texts.grouping_separator)
}

/// Whether the decimal separator has a character and differs from the grouping separator.
fn are_separators_distinct(texts: &DecimalSymbolStrsBuilder<'_>) -> bool
    ensures { IsTrue result ↔ SeparatorsDistinct (lent_texts texts.now) }
{
    if has_same_characters(texts.decimal_separator, "") {
        return false;
    }
    !has_same_characters(texts.decimal_separator, texts.grouping_separator)
}

/// Whether numbers with these texts and digits are readable.
fn are_readable(texts: &DecimalSymbolStrsBuilder<'_>, digits: &[char; 10]) -> bool
    ensures { IsTrue result ↔ IsReadable (lent_texts texts.now) digits.now }
{
    if !are_different(digits) {
        return false;
    }
    if !is_free_of_digits(texts, digits) {
        return false;
    }
    if !are_separators_distinct(texts) {
        return false;
    }
    signs_differ(texts)
}

/// Whether numbers with these symbols and digits are readable: their texts determine the sign, the
/// range and every digit (this project's own).
///
/// They are readable if the ten digits differ, none of them occurs in an affix or a separator, the
/// decimal separator isn't empty and differs from the grouping separator, and the pairs of affixes
/// of minus, plus and no sign differ. Characters are compared, not bytes. It takes no memory.
// promise: It decides exactly whether numbers are readable.
// mutations: readable_where_minus_is_empty
pub fn are_numbers_readable(symbols: &DecimalSymbols, digits: &[char; 10]) -> bool
    ensures { IsTrue result ↔ IsReadable symbols.now.strings digits.now }
{
    are_readable(&DecimalSymbolStrsBuilder::from(&symbols.strings), digits)
}
