//! Whether ranges of plain numbers are readable.

ghost use Rattle.std.specs.Prelude.{◌≡◌, ◌↔◌, IsTrue, chars};
ghost use Rattle.icu_decimal_readable.specs.Readable.{affixes};
ghost use Rattle.icu_ranges_readable.specs.ReadableRange.{IsApart, IsReadableRange, SignsStandBefore, TellSigns};

use crate::characters::{begins_visibly, begins_with_space, has_any, has_mark, is_among};
use icu_decimal::DecimalFormatter;
use icu_decimal_symbols::DecimalSymbols;
use icu_ranges::RangePattern;

/// Whether two texts have the same characters.
fn has_same_characters(one: &str, other: &str) -> bool
    ensures { IsTrue result ↔ (chars one.now ≡ chars other.now) }
{
    one == other
}

/// Whether texts before numbers without a sign, with a minus and with a plus tell the sign.
pub(crate) fn do_tell_signs(none: &str, minus: &str, plus: &str) -> bool
    ensures { IsTrue result ↔ TellSigns (chars none.now) (chars minus.now) (chars plus.now) }
{
    if begins_with_space(none) || !begins_visibly(minus) || !begins_visibly(plus) {
        return false;
    }
    if has_same_characters(none, minus) || has_same_characters(none, plus) {
        return false;
    }
    !has_same_characters(minus, plus)
}

/// Whether the affixes before numbers tell their sign.
fn do_affixes_tell_signs(symbols: &DecimalSymbols) -> bool
    ensures { IsTrue result ↔ SignsStandBefore (affixes symbols.now.strings) }
{
    do_tell_signs("", symbols.minus_sign_prefix(), symbols.plus_sign_prefix())
}

/// Whether a separator of ranges stands apart from the numbers of a readable formatter.
pub(crate) fn is_apart(formatter: &DecimalFormatter, separator: &str) -> bool
    ensures { IsTrue result ↔ IsApart formatter.now (chars separator.now) }
{
    if !formatter.is_readable() || is_among(' ', formatter.digits()) {
        return false;
    }
    if has_any(formatter.digits(), separator) {
        return false;
    }
    has_mark(formatter.symbols(), separator)
}

/// Whether the texts of ranges with this pattern determine both numbers, over a plain formatter: in
/// sign, range and every digit (this project's own).
///
/// They do under these conditions. The numbers are readable ([`DecimalFormatter::is_readable`]). No
/// digit is a space, and none stands in the separator. The separator has a character that isn't a
/// space and stands in neither separator of numbers. The texts of minus and plus stand in front of
/// numbers, differ, and don't begin with a space. It takes no memory.
///
/// If the answer is true, [`laws::range_text_tells_both_ends`] says that equal texts are of equal
/// ranges.
///
/// [`laws::range_text_tells_both_ends`]: crate::laws::range_text_tells_both_ends
// promise: It decides exactly whether ranges are readable.
// mutations: readable_range_without_a_mark
pub fn are_ranges_readable(formatter: &DecimalFormatter, pattern: &RangePattern) -> bool
    ensures { IsTrue result ↔ IsReadableRange formatter.now pattern.now }
{
    if !is_apart(formatter, pattern.separator()) {
        return false;
    }
    do_affixes_tell_signs(formatter.symbols())
}
