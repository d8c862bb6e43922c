//! Whether texts of money and of percents determine the numbers, and which formatter wrote them.

ghost use Rattle.std.specs.Prelude.{◌≡◌, ◌≢◌, ◌↔◌, IsTrue};
ghost use Rattle.fixed_decimal.specs.declared.signs.Sign.{Sign as AnySign};
ghost use Rattle.icu_dimension_data.specs.Comparing.{HaveSameCharacters};
ghost use Rattle.icu_dimension_data.specs.Resolved.{affixes_of};
ghost use Rattle.icu_dimension.specs.MoneyReadable.{HasNoDigitAround, IsReadableMoney, SignsDifferAround};
ghost use Rattle.icu_dimension.specs.ToldApart.{AreToldApart, DifferAround};

use fixed_decimal::Sign;
use icu_decimal::DecimalFormatter;
use icu_decimal_options::options::DecimalFormatterOptions;
use icu_decimal_symbols::DecimalSymbols;
use icu_dimension_data::{SignedPattern, SignedPatterns};

/// Whether none of the digits stands around numbers, whatever their sign.
fn has_no_digit_around(digits: &[char], patterns: &SignedPatterns) -> bool
    ensures { IsTrue result ↔ HasNoDigitAround digits.now patterns.now }
{
    if !patterns.for_sign(Sign::None).has_none_of(digits) {
        return false;
    }
    if !patterns.for_sign(Sign::Negative).has_none_of(digits) {
        return false;
    }
    patterns.for_sign(Sign::Positive).has_none_of(digits)
}

/// Whether no two signs have the same characters around numbers.
fn signs_differ(patterns: &SignedPatterns) -> bool
    ensures { IsTrue result ↔ SignsDifferAround patterns.now }
{
    let none = patterns.for_sign(Sign::None);
    let minus = patterns.for_sign(Sign::Negative);
    let plus = patterns.for_sign(Sign::Positive);
    if none.has_same_characters(&minus) {
        return false;
    }
    if none.has_same_characters(&plus) {
        return false;
    }
    !minus.has_same_characters(&plus)
}

/// Whether numbers by the formatter in these patterns are readable.
pub(crate) fn are_readable(formatter: &DecimalFormatter, patterns: &SignedPatterns) -> bool
    ensures { IsTrue result
        ↔ IsReadableMoney (record { formatter = formatter.now; patterns = patterns.now }) }
{
    if !formatter.is_readable() {
        return false;
    }
    if !has_no_digit_around(formatter.digits(), patterns) {
        return false;
    }
    signs_differ(patterns)
}

/// Whether a pattern has other characters around numbers than each of the patterns.
fn differs_from_each(pattern: &SignedPattern<'_>, patterns: &SignedPatterns) -> bool
    ensures { IsTrue result ↔ ((t : AnySign) → ¬ HaveSameCharacters pattern.now
        (record { affixes = affixes_of patterns.now t; texts = patterns.now.texts })) }
{
    if pattern.has_same_characters(&patterns.for_sign(Sign::None)) {
        return false;
    }
    if pattern.has_same_characters(&patterns.for_sign(Sign::Negative)) {
        return false;
    }
    !pattern.has_same_characters(&patterns.for_sign(Sign::Positive))
}

/// Whether what stands around numbers by the first patterns differs from what stands around numbers
/// by the others, whatever the signs.
fn differ_around(one: &SignedPatterns, other: &SignedPatterns) -> bool
    ensures { IsTrue result ↔ DifferAround one.now other.now }
{
    if !differs_from_each(&one.for_sign(Sign::None), other) {
        return false;
    }
    if !differs_from_each(&one.for_sign(Sign::Negative), other) {
        return false;
    }
    differs_from_each(&one.for_sign(Sign::Positive), other)
}

/// Whether symbols are equal.
fn are_same_symbols(one: &DecimalSymbols, other: &DecimalSymbols) -> bool
    ensures { IsTrue result ↔ (one.now ≡ other.now) }
{
    one == other
}

/// Whether ten digits are equal.
fn are_same_digits(one: &[char; 10], other: &[char; 10]) -> bool
    ensures { IsTrue result ↔ (one.now ≡ other.now) }
{
    one == other
}

/// Whether options are equal.
fn are_same_options(one: &DecimalFormatterOptions, other: &DecimalFormatterOptions) -> bool
    ensures { IsTrue result ↔ (one.now ≡ other.now) }
{
    one == other
}

/// Whether two formatters write the same numbers: their symbols, digits and options are equal.
fn are_equal(one: &DecimalFormatter, other: &DecimalFormatter) -> bool
    ensures { IsTrue result ↔ (one.now ≡ other.now) }
{
    if !are_same_symbols(one.symbols(), other.symbols()) {
        return false;
    }
    if !are_same_digits(one.digits(), other.digits()) {
        return false;
    }
    are_same_options(one.options(), other.options())
}

/// Whether texts of numbers by one formatter, in its patterns, determine that they aren't by
/// another, in the other's patterns.
pub(crate) fn are_told_apart(
    one: &DecimalFormatter,
    patterns: &SignedPatterns,
    other: &DecimalFormatter,
    other_patterns: &SignedPatterns,
) -> bool
    ensures { IsTrue result ↔ AreToldApart
        (record { formatter = one.now; patterns = patterns.now })
        (record { formatter = other.now; patterns = other_patterns.now }) }
{
    if !are_equal(one, other) {
        return false;
    }
    if !one.is_readable() {
        return false;
    }
    if !has_no_digit_around(one.digits(), patterns) {
        return false;
    }
    if !has_no_digit_around(one.digits(), other_patterns) {
        return false;
    }
    differ_around(patterns, other_patterns)
}
