//! The number that is shown for a number, by its rounding.

ghost use Rattle.std.specs.Prelude.{◌≡◌, ◌≤◌, ◌↔◌, ◌==◌, ◌-ℤ◌, IfErr, IfOk, IfSome, OnOk, Ok, IsTrue, max, pos};
ghost use Rattle.fixed_decimal.specs.Modes.{IsLeastFrom};
ghost use Rattle.fixed_decimal.specs.Padding.{IsExactWith};
ghost use Rattle.fixed_decimal.specs.Size.{magnitude, size};
ghost use Rattle.fixed_decimal.specs.Unsigned.{IsUnsigned, high, integer_count};
ghost use Rattle.decimal_lines.specs.Computed.{count_up_to};
ghost use Rattle.decimal_lines.specs.SingleText.{IsRefusal};
ghost use Rattle.fixed_decimal.specs.SignDisplay.{is_negative, minus_or_none, sign_by_display};
ghost use Rattle.number_forms.specs.Forms.{form_rounded};
ghost use Rattle.number_forms.specs.Rounded.{half_even_to, rounded, shown_number};
ghost use Rattle.number_forms.specs.Cut.{IsCut, IsCutRefusal};
ghost use Rattle.number_forms.specs.Shortened.{shortened_number};

use crate::scaled::{has_no_zeros_before, scale_of, trimmed};
use crate::shortened::shortened_number;
use decimal_lines::TextError;
use fixed_decimal::{
    Decimal, DecimalError, Sign, SignDisplay, SignedRoundingMode, UnsignedRoundingMode,
};
use icu_decimal::CompactDecimalFormatter;
use icu_pattern::SinglePlaceholder;
use number_formatters::Formatter;
use number_rounding::{Rounding, ShownError, shown};
use skeleton_settings::Precision;
use std::alloc::Global;

/// How many fraction digits there are, where there are just so many and numbers are rounded half to
/// even.
fn half_even_digits(rounding: &Rounding) -> Option<u16>
    ensures rounding { IfSome result (λ n. rounding.now ≡ half_even_to n) }
    ensures few { IfSome result (λ n. n ≤ 32768) }
{
    match *rounding {
        Rounding {
            precision: Precision::Fraction {
                least,
                most: Some(most),
            },
            mode: SignedRoundingMode::Unsigned(UnsignedRoundingMode::HalfEven),
            hides_zeros_of_whole: false,
            integer_digits: 1,
        } if least == most && most <= 32768 => Some(most),
        _ => None,
    }
}

/// The power of the last of that many fraction digits.
fn last_power(digits: u16) -> i16
    requires { digits ≤ 32768 }
    ensures { result ≡ pos 0 -ℤ pos digits }
{
    (-(digits as i32)) as i16
}

/// Rounds a number half to even to just that many fraction digits. One with that many stays.
fn cut(decimal: &mut Decimal, digits: u16) -> Result<(), TextError>
    requires { digits ≤ 32768 }
    ensures ok { OnOk result (IsCut digits decimal.old.absolute decimal.new.absolute) }
    ensures sign { decimal.new.sign ≡ decimal.old.sign }
    ensures refused { IfErr result (λ error. IsCutRefusal digits decimal.old.absolute error) }
{
    if scale_of(&decimal.absolute) == digits {
        return Ok(());
    }
    match decimal.round(last_power(digits)) {
        Ok(()) => Ok(()),
        Err(DecimalError::Limit) => Err(TextError::Overflow),
        Err(_) => Err(TextError::OutOfMemory),
    }
}

/// Rounds a number half to even to just that many fraction digits, and takes the zeros before it off.
fn round_half_even(alloc: Global, decimal: &mut Decimal, digits: u16) -> Result<(), TextError>
    requires { digits ≤ 32768 }
    ensures ok { OnOk result (shown_number (half_even_to digits) (is_negative decimal.old.sign)
        decimal.old.absolute ≡ Ok decimal.new.absolute) }
    ensures sign { decimal.new.sign ≡ decimal.old.sign }
    ensures refused { IfErr result (λ error. IsRefusal (shown_number (half_even_to digits)
        (is_negative decimal.old.sign) decimal.old.absolute) error) }
{
    cut(decimal, digits)?;
    if has_no_zeros_before(&decimal.absolute) {
        return Ok(());
    }
    *decimal = trimmed(alloc, decimal, digits)?;
    Ok(())
}

/// The number that is shown for a decimal by any rounding.
fn any_shown(alloc: Global, decimal: &Decimal, rounding: &Rounding) -> Result<Decimal, TextError>
    ensures ok { IfOk result (λ d. shown_number rounding.now (is_negative decimal.now.sign)
        decimal.now.absolute ≡ Ok d.absolute) }
    ensures sign { IfOk result (λ d. d.sign ≡ decimal.now.sign) }
    ensures refused { IfErr result (λ error. IsRefusal (shown_number rounding.now
        (is_negative decimal.now.sign) decimal.now.absolute) error) }
{
    match shown::<SinglePlaceholder>(alloc, rounding, None, decimal) {
        Ok(shown) => Ok(shown.significand),
        Err(ShownError::Overflow) => Err(TextError::Overflow),
        Err(ShownError::OutOfMemory) => Err(TextError::OutOfMemory),
    }
}

/// A minus, and no other sign.
pub(crate) fn minus_or_none(sign: Sign) -> Sign
    ensures { result ≡ minus_or_none sign }
{
    match sign {
        Sign::Negative => Sign::Negative,
        Sign::None | Sign::Positive => Sign::None,
    }
}

/// The decimal with the sign that is shown. By the default display that doesn't depend on the
/// number, so it isn't asked whether this is zero.
pub(crate) fn signed(decimal: Decimal, display: SignDisplay) -> Decimal
    ensures sign { result.sign
        ≡ sign_by_display display (size decimal.absolute == 0) decimal.sign }
    ensures absolute { result.absolute ≡ decimal.absolute }
{
    match display {
        SignDisplay::Auto => Decimal {
            sign: minus_or_none(decimal.sign),
            absolute: decimal.absolute,
        },
        _ => decimal.with_sign_display(display),
    }
}

/// Rounds a number, where something says how.
fn round(alloc: Global, decimal: &mut Decimal, rounding: &Option<Rounding>) -> Result<(), TextError>
    ensures ok { OnOk result (rounded rounding.now decimal.old.sign decimal.old.absolute
        ≡ Ok decimal.new.absolute) }
    ensures sign { decimal.new.sign ≡ decimal.old.sign }
    ensures refused { IfErr result (λ error.
        IsRefusal (rounded rounding.now decimal.old.sign decimal.old.absolute) error) }
{
    let Some(rounding) = rounding else {
        return Ok(());
    };
    if let Some(digits) = half_even_digits(rounding) {
        return round_half_even(alloc, decimal, digits);
    }
    *decimal = any_shown(alloc, decimal, rounding)?;
    Ok(())
}

/// Turns a number into the one that compact numbers show for it.
fn shorten(
    alloc: Global,
    decimal: &mut Decimal,
    rounding: &Rounding,
    formatter: &CompactDecimalFormatter,
) -> Result<(), TextError>
    ensures ok { OnOk result (shortened_number rounding.now formatter.now decimal.old.sign
        decimal.old.absolute ≡ Ok decimal.new.absolute) }
    ensures sign { decimal.new.sign ≡ decimal.old.sign }
    ensures refused { IfErr result (λ error. IsRefusal (shortened_number rounding.now
        formatter.now decimal.old.sign decimal.old.absolute) error) }
{
    *decimal = shortened_number(alloc, rounding, formatter, decimal)?;
    Ok(())
}

/// Rounds a number as a form shows it: by the rounding of the form, or by that of compact numbers.
pub(crate) fn form_round(
    alloc: Global,
    formatter: &Formatter,
    rounding: &Option<Rounding>,
    decimal: &mut Decimal,
) -> Result<(), TextError>
    ensures ok { OnOk result (form_rounded formatter.now rounding.now decimal.old.sign
        decimal.old.absolute ≡ Ok decimal.new.absolute) }
    ensures sign { decimal.new.sign ≡ decimal.old.sign }
    ensures refused { IfErr result (λ error. IsRefusal (form_rounded formatter.now rounding.now
        decimal.old.sign decimal.old.absolute) error) }
{
    match formatter {
        Formatter::ShortNumbers(compact, by) => shorten(alloc, decimal, by, compact),
        Formatter::ShortMoney(money, by) => {
            shorten(alloc, decimal, by, money.for_sign(decimal.sign))
        }
        Formatter::ShortNamed(names, by) => shorten(alloc, decimal, by, names.formatter()),
        Formatter::ShortUnits(units, by) => shorten(alloc, decimal, by, units.formatter()),
        Formatter::Numbers(_)
        | Formatter::Money(_)
        | Formatter::MoneyNamed(_)
        | Formatter::MoneyShort(_)
        | Formatter::Percent(_)
        | Formatter::Units(_) => round(alloc, decimal, rounding),
    }
}
