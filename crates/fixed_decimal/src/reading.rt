//! Reading the text form of a decimal.

ghost use Rattle.std.specs.Prelude.{◌≡◌, ◌≢◌, ◌+◌, ◌<◌, ◌≤◌, ◌↔◌, ◌++◌, length, slice_index, max, IfOk, IfSome, IfNone, IsErrOf, List, ℕ};
ghost use Rattle.std.specs.List.{prefix_len, AllPass};
ghost use Rattle.std.specs.Char.{is_ascii_digit};
ghost use Rattle.smallvec.specs.SmallVec.{HasRoomFor, small_vec_len};
ghost use Rattle.fixed_decimal.specs.Unsigned.{IsUnsigned};
ghost use Rattle.fixed_decimal.specs.Text.{plus_sign, minus_sign, sign_text, digit_values, IsNumeral, integer_of, Reads, ReadsNothing, ReadsPastLimits};

use crate::digits::MAX_DIGITS;
use crate::lanes::{LANES, digits_from, digits_in, padded};
use crate::short_text::short_digits;
use crate::{Decimal, DecimalError, Sign, UnsignedDecimal};
use smallvec::SmallVec;
use std::alloc::{AllocError, Global};

impl Decimal {
    /// Reads the text form: an optional `+` or `-`; then ASCII digits, optionally with a point and
    /// digits behind it, or a point and digits (ICU4X `Decimal::try_from_str`, without exponents).
    ///
    /// Each written digit widens the range: `0012` goes up to power 3, `1.20` down to -2, and `.5`
    /// has the digits 0 and 5. `Syntax` is determined before `Limit`, and both before memory is
    /// asked for.
    // promise: The decimal that is read is the one that the text spells.
    // mutations: try_from_str_minus_dropped
    // promise: `Syntax` comes exactly where no decimal is spelled.
    // mutations: try_from_str_no_digits_read
    // promise: `Limit` comes exactly where the decimal exceeds the limits.
    // mutations: try_from_str_limit_one_too_low
    pub fn try_from_str(alloc: Global, text: &str) -> Result<Decimal, DecimalError>
        ensures reads { IfOk result (λ d. Reads text.now d.sign d.absolute) }
        ensures valid { IfOk result (λ d. IsUnsigned d.absolute) }
        ensures syntax { IsErrOf result DecimalError.Syntax ↔ ReadsNothing text.now }
        ensures limit { IsErrOf result DecimalError.Limit ↔ ReadsPastLimits text.now }
    {
        Decimal::try_from_utf8(alloc, text.as_bytes())
    }

    /// Reads the text form out of bytes, as `try_from_str` does (ICU4X `Decimal::try_from_utf8`).
    /// Bytes that are no UTF-8 spell no decimal: `Syntax`.
    pub fn try_from_utf8(alloc: Global, text: &[u8]) -> Result<Decimal, DecimalError>
        ensures reads { IfOk result (λ d. Reads text.now d.sign d.absolute) }
        ensures valid { IfOk result (λ d. IsUnsigned d.absolute) }
        ensures syntax { IsErrOf result DecimalError.Syntax ↔ ReadsNothing text.now }
        ensures limit { IsErrOf result DecimalError.Limit ↔ ReadsPastLimits text.now }
    {
        let (sign, numeral) = split_sign(text);
        if numeral.len() <= LANES {
            let Some(short) = short_digits(numeral) else {
                return Err(DecimalError::Syntax);
            };
            let absolute = UnsignedDecimal {
                digits: SmallVec::from_buf_and_len(alloc, short.values, short.count),
                scale: short.scale as u16,
            };
            return Ok(Decimal { sign, absolute });
        }
        let Some((before, after)) = split_numeral(numeral) else {
            return Err(DecimalError::Syntax);
        };
        if before.len() > MAX_DIGITS || after.len() > MAX_DIGITS {
            return Err(DecimalError::Limit);
        }
        match from_digits_text(alloc, before, after) {
            Ok(absolute) => Ok(Decimal { sign, absolute }),
            Err(_) => Err(DecimalError::OutOfMemory),
        }
    }
}

/// The sign that a text begins with, and the rest of the text.
fn split_sign(text: &[u8]) -> (Sign, &[u8])
    ensures signed { text.now ≡ sign_text result.0 ++ result.1.now }
    ensures unsigned { result.0 ≡ Sign.None → (slice_index text.now 0 ≢ plus_sign)
        × (slice_index text.now 0 ≢ minus_sign) }
{
    match text {
        [b'-', rest @ ..] => (Sign::Negative, rest),
        [b'+', rest @ ..] => (Sign::Positive, rest),
        _ => (Sign::None, text),
    }
}

/// How many digits a text begins with; sixteen bytes are tested in one step.
fn leading_digits(text: &[u8]) -> usize
    ensures count { result ≡ prefix_len is_ascii_digit text.now }
    ensures within { result ≤ length text.now }
{
    let mut count = 0;
    'steps: while text.len() - count >= LANES {
        let run = digits_from(&text[count..count + LANES], 0);
        count += run;
        if run < LANES {
            return count;
        }
    }
    let rest = &text[count..];
    count + digits_in(rest, &padded(rest), 0)
}

/// The digits before and after the point.
fn split_numeral(text: &[u8]) -> Option<(&[u8], &[u8])>
    ensures spelled { IfSome result (λ parts.
        IsNumeral text.now (digit_values parts.0.now) (digit_values parts.1.now)) }
    ensures digits { IfSome result (λ parts. AllPass is_ascii_digit parts.0.now
        × AllPass is_ascii_digit parts.1.now) }
    ensures none { IfNone result ((before after : List ℕ) → ¬ (IsNumeral text.now before after)) }
{
    let count = leading_digits(text);
    let before = &text[..count];
    if count == text.len() {
        return if count > 0 {
            Some((before, &text[count..]))
        } else {
            None
        };
    }
    let after = &text[count + 1..];
    if text[count] == b'.' && !after.is_empty() && leading_digits(after) == after.len() {
        Some((before, after))
    } else {
        None
    }
}

/// The decimal with these digits before and after the point.
fn from_digits_text(
    alloc: Global,
    before: &[u8],
    after: &[u8],
) -> Result<UnsignedDecimal, AllocError>
    requires before_digits { AllPass is_ascii_digit before.now }
    requires after_digits { AllPass is_ascii_digit after.now }
    requires before_limit { length before.now ≤ MAX_DIGITS }
    requires after_limit { length after.now ≤ MAX_DIGITS }
    ensures digits { IfOk result (λ d. d.digits ≡ integer_of (digit_values before.now)
        ++ digit_values after.now) }
    ensures scale { IfOk result (λ d. d.scale ≡ length after.now) }
    ensures valid { IfOk result (λ d. IsUnsigned d) }
{
    if before.is_empty() {
        return copied(alloc, b"0", after);
    }
    copied(alloc, before, after)
}

/// The decimal with these digits at power 0 and above, at least one, and these below power 0.
fn copied(alloc: Global, integer: &[u8], fraction: &[u8]) -> Result<UnsignedDecimal, AllocError>
    requires some { 0 < length integer.now }
    requires integer_digits { AllPass is_ascii_digit integer.now }
    requires fraction_digits { AllPass is_ascii_digit fraction.now }
    requires integer_limit { length integer.now ≤ MAX_DIGITS }
    requires fraction_limit { length fraction.now ≤ MAX_DIGITS }
    ensures digits { IfOk result (λ d. d.digits ≡ integer_of (digit_values integer.now)
        ++ digit_values fraction.now) }
    ensures scale { IfOk result (λ d. d.scale ≡ length fraction.now) }
    ensures valid { IfOk result (λ d. IsUnsigned d) }
{
    let mut digits = SmallVec::with_capacity(alloc, integer.len() + fraction.len())?;
    digits.extend_from_slice(integer)?;
    digits.extend_from_slice(fraction)?;
    make_values(digits.as_mut_slice());
    Ok(UnsignedDecimal {
        digits,
        scale: fraction.len() as u16,
    })
}

/// Turns written digits into their values.
fn make_values(digits: &mut [u8])
    requires { AllPass is_ascii_digit digits.old }
    ensures { digits.new ≡ digit_values digits.old }
{
    for i in 0..digits.len() {
        digits[i] -= b'0';
    }
}
