//! Whether the texts of compact numbers determine the numbers.

ghost use Rattle.std.specs.Prelude.{◌≡◌, ◌↔◌, ◌++◌, ◌<◌, ℕ, IsTrue, IfSome, None, chars, length, slice_get, slice_index_or};
ghost use Rattle.icu_plurals.specs.Elements.{slots};
ghost use Rattle.icu_pattern.specs.Patterns.{PatternText, PlaceholderFits};
ghost use Rattle.icu_decimal_symbols.specs.LentTexts.{lent_texts};
ghost use Rattle.icu_decimal_readable.specs.Readable.{affixes, sides_at, sides, IsReadableTable};
ghost use Rattle.icu_decimal_readable.specs.ReadableTable.{surroundings_of, around, AreDistinct, HasPlaceholderAndNoDigit, HoldsOfEntry, HoldsThroughout};
ghost use Rattle.icu_decimal_readable.specs.ReadableTable.{IsDistinctFrom, IsDistinctThroughout, TellsNumbers};

use crate::readable::has_no_digit;
use fixed_decimal::Sign;
use icu_decimal_data::CompactPatterns;
use icu_decimal_symbols::{DecimalSymbolStrsBuilder, DecimalSymbols};
use icu_pattern::SinglePlaceholder;

/// What stands before a number and after it.
#[derive(Clone, Copy)]
struct Sides<'a> {
    before: &'a str,
    after: &'a str,
}

/// The literal of a pattern before and after its place; without a place all of it is before.
fn sides_of<'a>(placeholder: Option<usize>, literal: &'a str) -> Sides<'a>
    requires { PlaceholderFits (record { placeholder = placeholder; literal = literal.now }) }
    ensures { surroundings_of result ≡ sides_at placeholder literal.now }
{
    match placeholder {
        Some(placeholder) => Sides {
            before: &literal[..placeholder],
            after: &literal[placeholder..],
        },
        None => Sides {
            before: literal,
            after: "",
        },
    }
}

/// The affixes of a sign.
fn affixes<'a>(texts: &DecimalSymbolStrsBuilder<'a>, sign: Sign) -> Sides<'a>
    ensures { surroundings_of result ≡ affixes (lent_texts texts.now) sign }
{
    match sign {
        Sign::None => Sides {
            before: "",
            after: "",
        },
        Sign::Negative => Sides {
            before: texts.minus_sign_prefix,
            after: texts.minus_sign_suffix,
        },
        Sign::Positive => Sides {
            before: texts.plus_sign_prefix,
            after: texts.plus_sign_suffix,
        },
    }
}

/// Whether a text is the concatenation of two others.
fn is_joined(text: &str, front: &str, back: &str) -> bool
    ensures { IsTrue result ↔ (text.now ≡ front.now ++ back.now) }
{
    match text.strip_prefix(front) {
        Some(rest) => rest == back,
        None => false,
    }
}

/// Whether the concatenation of two texts has the same characters as that of two others.
fn are_joined_alike(a: &str, b: &str, c: &str, d: &str) -> bool
    ensures { IsTrue result ↔ (chars a.now ++ chars b.now ≡ chars c.now ++ chars d.now) }
{
    if let Some(middle) = c.strip_prefix(a) {
        return is_joined(b, middle, d);
    }
    if let Some(middle) = a.strip_prefix(c) {
        return is_joined(d, middle, b);
    }
    false
}

/// What a number's text has beside its digits: the sign, the exponent, and the two sides of the
/// pattern.
#[derive(Clone, Copy)]
struct Number<'a> {
    sign: Sign,
    exponent: u8,
    sides: Sides<'a>,
}

impl Number<'_> {
    /// The same with another sign.
    fn with_sign(self, sign: Sign) -> Self
        ensures { result ≡ record self.entry { sign = sign } }
    {
        Number { sign, ..self }
    }
}

/// Whether two numbers have the same characters around them, affixes and sides taken together.
fn have_same_surroundings(
    texts: &DecimalSymbolStrsBuilder<'_>,
    first: Number<'_>,
    second: Number<'_>,
) -> bool
    ensures { IsTrue result ↔ (around (lent_texts texts.now) first.entry.sign
        (surroundings_of first.entry.sides) ≡ around (lent_texts texts.now) second.entry.sign
        (surroundings_of second.entry.sides)) }
{
    let (a, b) = (affixes(texts, first.sign), first.sides);
    let (c, d) = (affixes(texts, second.sign), second.sides);
    if !are_joined_alike(a.before, b.before, c.before, d.before) {
        return false;
    }
    are_joined_alike(b.after, a.after, d.after, c.after)
}

/// A test of a pattern of a table.
trait PatternTest {
    /// The property of an exponent and a pattern that is tested.
    ghost holds: { Self → ℕ → PatternText → Type 0 };

    /// Whether a pattern passes the test.
    fn passes(&self, exponent: u8, placeholder: Option<usize>, literal: &str) -> bool
        requires { PlaceholderFits (record { placeholder = placeholder; literal = literal.now }) }
        ensures { IsTrue result
            ↔ holds self.now exponent (record {
              placeholder = placeholder;
              literal =
                  literal.now;
            }) };
}

/// Whether the pattern in a slot of an entry passes a test, if there is one.
fn slot_passes<T: PatternTest>(
    patterns: &CompactPatterns<SinglePlaceholder>,
    index: usize,
    slot: u8,
    test: &T,
) -> bool
    requires index { index < length patterns.now }
    requires slot { slot < 8 }
    ensures { IfSome (slice_get patterns.now index) (λ e. IsTrue result
        ↔ IfSome (slice_index_or (slots e.elements) slot None) (T.holds test.now e.exponent)) }
{
    match patterns.slot(index, slot) {
        Some(pattern) => test.passes(
            patterns.exponent(index),
            pattern.placeholder(),
            pattern.literal(),
        ),
        None => true,
    }
}

/// Whether all patterns of an entry pass a test.
fn entry_passes<T: PatternTest>(
    patterns: &CompactPatterns<SinglePlaceholder>,
    index: usize,
    test: &T,
) -> bool
    requires { index < length patterns.now }
    ensures { IfSome (slice_get patterns.now index) (λ e. IsTrue result
        ↔ HoldsOfEntry (T.holds test.now) e) }
{
    for slot in 0..8 {
        if !slot_passes(patterns, index, slot, test) {
            return false;
        }
    }
    true
}

/// Whether all patterns pass a test, and the place alone, which numbers without an entry have.
fn all_pass<T: PatternTest>(patterns: &CompactPatterns<SinglePlaceholder>, test: &T) -> bool
    ensures { IsTrue result ↔ HoldsThroughout (T.holds test.now) patterns.now }
{
    if !test.passes(0, Some(0), "") {
        return false;
    }
    for index in 0..patterns.len() {
        if !entry_passes(patterns, index, test) {
            return false;
        }
    }
    true
}

/// Tests that a pattern has a place and no digit.
#[derive(Clone, Copy)]
struct WithPlaceholder<'a> {
    digits: &'a [char],
}

impl PatternTest for WithPlaceholder<'_> {
    ghost use Rattle.icu_decimal_readable.specs.ReadableTable.{HasPlaceholderAndNoDigit};

    ghost holds = { λ t m p. HasPlaceholderAndNoDigit t.digits.now p };

    fn passes(&self, _exponent: u8, placeholder: Option<usize>, literal: &str) -> bool {
        let sides = sides_of(placeholder, literal);
        if placeholder.is_none() {
            return false;
        }
        if !has_no_digit(self.digits, sides.before) {
            return false;
        }
        has_no_digit(self.digits, sides.after)
    }
}

/// Whether two numbers have the same sign and exponent, or different characters around them.
fn are_distinct(texts: &DecimalSymbolStrsBuilder<'_>, first: Number<'_>, second: Number<'_>) -> bool
    ensures { IsTrue result ↔ AreDistinct (lent_texts texts.now) first.entry.sign
        first.entry.exponent
        (surroundings_of first.entry.sides) second.entry.sign second.entry.exponent
        (surroundings_of second.entry.sides) }
{
    if first.sign == second.sign && first.exponent == second.exponent {
        return true;
    }
    !have_same_surroundings(texts, first, second)
}

/// Whether a number is distinguished from the second number, whatever the sign of that.
fn is_distinct_from(
    texts: &DecimalSymbolStrsBuilder<'_>,
    first: Number<'_>,
    second: Number<'_>,
) -> bool
    ensures { IsTrue result ↔ IsDistinctFrom
        (lent_texts texts.now) first.entry.sign first.entry.exponent
        (surroundings_of first.entry.sides) second.entry.exponent
        (surroundings_of second.entry.sides) }
{
    if !are_distinct(texts, first, second.with_sign(Sign::None)) {
        return false;
    }
    if !are_distinct(texts, first, second.with_sign(Sign::Negative)) {
        return false;
    }
    are_distinct(texts, first, second.with_sign(Sign::Positive))
}

/// Tests that a number is distinguished from all numbers that have the pattern.
#[derive(Clone, Copy)]
struct DistinctFrom<'a> {
    texts: &'a DecimalSymbolStrsBuilder<'a>,
    number: Number<'a>,
}

impl PatternTest for DistinctFrom<'_> {
    ghost use Rattle.icu_decimal_symbols.specs.LentTexts.{lent_texts};
    ghost use Rattle.icu_decimal_readable.specs.Readable.{sides};
    ghost use Rattle.icu_decimal_readable.specs.ReadableTable.{surroundings_of, IsDistinctFrom};

    ghost holds = { λ t n q. IsDistinctFrom (lent_texts t.texts.now) t.number.sign t.number.exponent
        (surroundings_of t.number.sides) n (sides q) };

    fn passes(&self, exponent: u8, placeholder: Option<usize>, literal: &str) -> bool {
        let second = Number {
            sign: Sign::None,
            exponent,
            sides: sides_of(placeholder, literal),
        };
        is_distinct_from(self.texts, self.number, second)
    }
}

/// Whether a number is distinguished from all numbers that have a pattern of the table.
fn is_distinct(
    texts: &DecimalSymbolStrsBuilder<'_>,
    patterns: &CompactPatterns<SinglePlaceholder>,
    number: Number<'_>,
) -> bool
    ensures { IsTrue result ↔ IsDistinctThroughout
        (lent_texts texts.now) patterns.now number.entry.sign number.entry.exponent
        (surroundings_of number.entry.sides) }
{
    all_pass(patterns, &DistinctFrom { texts, number })
}

/// Tests that all numbers that have the pattern are distinguished from those of each pattern of the
/// table.
#[derive(Clone, Copy)]
struct Distinct<'a> {
    texts: &'a DecimalSymbolStrsBuilder<'a>,
    patterns: &'a CompactPatterns<SinglePlaceholder>,
}

impl PatternTest for Distinct<'_> {
    ghost use Rattle.icu_decimal_symbols.specs.LentTexts.{lent_texts};
    ghost use Rattle.icu_decimal_readable.specs.ReadableTable.{TellsNumbers};

    ghost holds = { λ t m p. TellsNumbers (lent_texts t.texts.now) t.patterns.now m p };

    fn passes(&self, exponent: u8, placeholder: Option<usize>, literal: &str) -> bool {
        let number = Number {
            sign: Sign::None,
            exponent,
            sides: sides_of(placeholder, literal),
        };
        if !is_distinct(self.texts, self.patterns, number) {
            return false;
        }
        if !is_distinct(self.texts, self.patterns, number.with_sign(Sign::Negative)) {
            return false;
        }
        is_distinct(self.texts, self.patterns, number.with_sign(Sign::Positive))
    }
}

/// Whether compact numbers by this table are readable, if numbers with these symbols and digits
/// are: each pattern has a place and no digit, and the affixes and the pattern around a number
/// together determine its sign and its exponent (this project's own).
///
/// Numbers without an entry, which have no pattern around them, are included, and so is every
/// pattern of an entry, even one that no language's plural rules pick. Each pattern is compared
/// with each, so the time grows with the square of the table's size. It takes no memory.
// promise: It decides exactly whether a table is readable.
// mutations: readable_by_the_first_entry_alone
pub fn is_table_readable(
    table: &CompactPatterns<SinglePlaceholder>,
    symbols: &DecimalSymbols,
    digits: &[char; 10],
) -> bool
    ensures { IsTrue result ↔ IsReadableTable symbols.now.strings digits.now table.now }
{
    if !all_pass(table, &WithPlaceholder { digits }) {
        return false;
    }
    let texts = &DecimalSymbolStrsBuilder::from(&symbols.strings);
    let patterns = table;
    all_pass(table, &Distinct { texts, patterns })
}
