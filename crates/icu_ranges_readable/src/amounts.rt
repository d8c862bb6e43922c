//! Whether ranges of money or of percents are readable.

ghost use Rattle.std.specs.Prelude.{◌≡◌, ◌↔◌, ◌∷◌, [], ◌++◌, IfOk, IsTrue, chars};
ghost use Rattle.std.specs.String.{string_bytes};
ghost use Rattle.icu_decimal_readable.specs.Readable.{IsFreeOfDigits};
ghost use Rattle.icu_dimension.specs.MoneyReadable.{HasNoDigitAround, money_surroundings};
ghost use Rattle.icu_ranges_readable.specs.ReadableRange.{IsReadableAmountRange, SignsStandBefore};

use crate::characters::text_until;
use crate::readable::{do_tell_signs, is_apart};
use fixed_decimal::Sign;
use icu_decimal::DecimalFormatter;
use icu_dimension_data::SignedPatterns;
use icu_ranges::RangePattern;
use std::alloc::Global;
use writeable::{OutOfMemory, Writeable};

/// Whether none of the digits stands around numbers, whatever their sign.
fn has_no_digit_around(digits: &[char], patterns: &SignedPatterns) -> bool
    ensures { IsTrue result ↔ HasNoDigitAround digits.now patterns.now }
{
    if !patterns.for_sign(Sign::None).has_none_of(digits) {
        return false;
    }
    if !patterns.for_sign(Sign::Negative).has_none_of(digits) {
        return false;
    }
    patterns.for_sign(Sign::Positive).has_none_of(digits)
}

/// A digit in the pattern of a sign, as a text.
fn text_around(
    alloc: Global,
    patterns: &SignedPatterns,
    sign: Sign,
    digit: char,
) -> Result<String, OutOfMemory>
    ensures { IfOk result (λ t. chars (string_bytes t)
        ≡ (money_surroundings patterns.now sign).before
        ++ digit ∷ (money_surroundings patterns.now sign).after) }
{
    let mut room = [0; 4];
    let shown: &str = digit.encode_utf8(&mut room);
    match patterns
        .for_sign(sign)
        .interpolate(shown)
        .write_to_string(alloc)
    {
        Ok(text) => Ok(text),
        Err(_) => Err(OutOfMemory),
    }
}

/// What stands before a number in the pattern of a sign. The digit stands neither before nor after
/// it.
fn text_before(
    alloc: Global,
    patterns: &SignedPatterns,
    sign: Sign,
    digit: char,
) -> Result<String, OutOfMemory>
    requires { HasNoDigitAround (digit ∷ []) patterns.now }
    ensures { IfOk result (λ t. chars (string_bytes t)
        ≡ (money_surroundings patterns.now sign).before) }
{
    let text = text_around(alloc, patterns, sign, digit)?;
    match text_until(alloc, digit, text.as_str()) {
        Ok(text) => Ok(text),
        Err(_) => Err(OutOfMemory),
    }
}

/// Whether what stands before amounts tells their sign.
fn do_signs_stand_before(
    alloc: Global,
    patterns: &SignedPatterns,
    digit: char,
) -> Result<bool, OutOfMemory>
    requires { HasNoDigitAround (digit ∷ []) patterns.now }
    ensures { IfOk result (λ b. IsTrue b ↔ SignsStandBefore (money_surroundings patterns.now)) }
{
    let none = text_before(alloc, patterns, Sign::None, digit)?;
    let minus = text_before(alloc, patterns, Sign::Negative, digit)?;
    let plus = text_before(alloc, patterns, Sign::Positive, digit)?;
    Ok(do_tell_signs(none.as_str(), minus.as_str(), plus.as_str()))
}

/// Whether the texts of ranges of money or of percents determine both ends, over a plain formatter
/// in patterns of signs: in sign, range and every digit (this project's own).
///
/// They do under the conditions of [`are_ranges_readable`] on the numbers and the separator, if no
/// digit stands around amounts, and if what stands before them tells their sign: before a minus
/// and before a plus it begins with a character that isn't a space, without a sign it doesn't begin
/// with a space, and the three differ.
///
/// If the answer is true, [`laws::amount_range_text_tells_both_ends`] says that equal texts are of
/// equal ranges. `OutOfMemory` where memory ran out.
///
/// [`are_ranges_readable`]: crate::are_ranges_readable
/// [`laws::amount_range_text_tells_both_ends`]: crate::laws::amount_range_text_tells_both_ends
// promise: It decides exactly whether ranges of amounts are readable.
// mutations: readable_amounts_without_the_plus
pub fn are_amount_ranges_readable(
    alloc: Global,
    formatter: &DecimalFormatter,
    patterns: &SignedPatterns,
    pattern: &RangePattern,
) -> Result<bool, OutOfMemory>
    ensures { IfOk result (λ b. IsTrue b ↔ IsReadableAmountRange (record {
      formatter = formatter.now;
      patterns = patterns.now;
    }) pattern.now) }
{
    if !is_apart(formatter, pattern.separator()) {
        return Ok(false);
    }
    let digits = formatter.digits();
    if !has_no_digit_around(digits, patterns) {
        return Ok(false);
    }
    do_signs_stand_before(alloc, patterns, digits[0])
}
