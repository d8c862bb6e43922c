//! The decimal that a list of digits writes.

ghost use Rattle.std.specs.Prelude.{◌≡◌, ◌+◌, ◌-◌, ◌<◌, ◌≤◌, ◌++◌, IfOk, IsErrOf, length, take, drop, pos};
ghost use Rattle.smallvec.specs.SmallVec.{HasRoomFor};
ghost use Rattle.fixed_decimal.specs.Unsigned.{AreDigits, IsUnsigned};
ghost use Rattle.fixed_decimal.specs.Size.{finest, size, ten_to, weighed};
ghost use Rattle.fixed_decimal.specs.Text.{digits_text, fraction_text};

use crate::digits::zeros_in_front;
use fixed_decimal::{Decimal, DecimalError, UnsignedDecimal};
use smallvec::SmallVec;
use std::alloc::{AllocError, Global};

/// Digits or bytes: short ones are kept in the value, and take no memory.
pub(crate) type Bytes = SmallVec<u8, 96>;

/// The most digits that may stand below power 0.
pub(crate) const MAX_BELOW: usize = 32768;

/// The number with these digits, the last `scale` of which stand below power 0; zeros in front are
/// left out.
pub(crate) fn absolute_of(
    alloc: Global,
    digits: &[u8],
    scale: usize,
) -> Result<UnsignedDecimal, DecimalError>
    requires digits { AreDigits digits.now }
    requires some { scale < length digits.now }
    requires small { scale ≤ MAX_BELOW }
    requires short { length digits.now ≤ 1000000 }
    ensures size { IfOk result (λ d. size d ≡ weighed (finest - scale) digits.now) }
    ensures scale { IfOk result (λ d. d.scale ≡ scale) }
    ensures valid { IfOk result (λ d. IsUnsigned d) }
    ensures limit { IsErrOf result DecimalError.Limit
        → ten_to (pos 32768) ≤ weighed (finest - scale) digits.now }
    ensures no_syntax { ¬ (IsErrOf result DecimalError.Syntax) }
{
    match decimal_of(alloc, digits, scale) {
        Ok(decimal) => Ok(decimal.absolute),
        Err(error) => Err(error),
    }
}

/// The decimal with these digits, the last `scale` of which stand below power 0; zeros in front are
/// left out.
fn decimal_of(alloc: Global, digits: &[u8], scale: usize) -> Result<Decimal, DecimalError>
    requires digits { AreDigits digits.now }
    requires some { scale < length digits.now }
    requires small { scale ≤ MAX_BELOW }
    requires short { length digits.now ≤ 1000000 }
    ensures size { IfOk result (λ d. size d.absolute ≡ weighed (finest - scale) digits.now) }
    ensures scale { IfOk result (λ d. d.absolute.scale ≡ scale) }
    ensures valid { IfOk result (λ d. IsUnsigned d.absolute) }
    ensures limit { IsErrOf result DecimalError.Limit
        → ten_to (pos 32768) ≤ weighed (finest - scale) digits.now }
    ensures no_syntax { ¬ (IsErrOf result DecimalError.Syntax) }
{
    let zeros = zeros_in_front(digits, digits.len() - scale - 1);
    match numeral(alloc, digits.split_at(zeros).1, scale) {
        Ok(text) => Decimal::try_from_utf8(alloc, &text),
        Err(_) => Err(DecimalError::OutOfMemory),
    }
}

/// The text of these digits, the last `scale` of which stand behind a point.
fn numeral(alloc: Global, digits: &[u8], scale: usize) -> Result<Bytes, AllocError>
    requires digits { AreDigits digits.now }
    requires some { scale < length digits.now }
    requires short { length digits.now ≤ 1000000 }
    ensures { IfOk result (λ text. text.items
        ≡ digits_text (take (length digits.now - scale) digits.now)
        ++ fraction_text (drop (length digits.now - scale) digits.now)) }
{
    let (before, after) = digits.split_at(digits.len() - scale);
    let mut text = SmallVec::with_capacity(alloc, digits.len() + 1)?;
    push_digits(&mut text, before);
    push_fraction(&mut text, after);
    Ok(text)
}

/// Appends a point and digits, for which there is room, or nothing without digits.
fn push_fraction(text: &mut Bytes, digits: &[u8])
    requires room { HasRoomFor text.old (length digits.now + 1) }
    requires digits { AreDigits digits.now }
    ensures { text.new.items ≡ text.old.items ++ fraction_text digits.now }
{
    if digits.is_empty() {
        return;
    }
    text.push_reserved(b'.');
    push_digits(text, digits);
}

/// Appends the text of digits, for which there is room.
fn push_digits(text: &mut Bytes, digits: &[u8])
    requires room { HasRoomFor text.old (length digits.now) }
    requires digits { AreDigits digits.now }
    ensures items { text.new.items ≡ text.old.items ++ digits_text digits.now }
    ensures capacity { text.new.capacity ≡ text.old.capacity }
{
    for digit in digits {
        text.push_reserved(b'0' + *digit);
    }
}
