//! The line that says that a number was rounded.

ghost use Rattle.std.specs.Prelude.{◌≡◌, ◌<◌, ◌++◌, All, IfOk, Ok, OnOk, decimal};
ghost use Rattle.fixed_decimal.specs.Text.{digits_text, fraction_text, sign_text};
ghost use Rattle.locnum_explain.specs.Rounding.{IsShortest, counted_digits, decimal_text, digits_reason, digits_word, is_rounded, mode_text, option_text, reason_text, rounded_line, rounded_text, rounding_lines};

use crate::settings::{DigitsBy, Settings};
use fixed_decimal::{Decimal, Sign, UnsignedDecimal};
use itoa::Buffer;
use number_forms::Prepared;
use std::alloc::{AllocError, Global};

/// Appends a sign.
fn push_sign(sign: Sign, out: &mut Vec<u8>) -> Result<(), AllocError>
    ensures { OnOk result (out.new.items ≡ out.old.items ++ sign_text sign) }
{
    match sign {
        Sign::None => Ok(()),
        Sign::Negative => out.extend_from_slice(b"-"),
        Sign::Positive => out.extend_from_slice(b"+"),
    }
}

/// Appends digits.
fn push_digits(digits: &[u8], out: &mut Vec<u8>) -> Result<(), AllocError>
    requires { All (λ d. d < 10) digits.now }
    ensures { OnOk result (out.new.items ≡ out.old.items ++ digits_text digits.now) }
{
    for digit in digits {
        out.push(b'0' + *digit)?;
    }
    Ok(())
}

/// Appends the point and the digits behind it; nothing without digits.
fn push_fraction(digits: &[u8], out: &mut Vec<u8>) -> Result<(), AllocError>
    requires { All (λ d. d < 10) digits.now }
    ensures { OnOk result (out.new.items ≡ out.old.items ++ fraction_text digits.now) }
{
    if digits.is_empty() {
        return Ok(());
    }
    out.push(b'.')?;
    push_digits(digits, out)
}

/// Appends a decimal in full.
#[tactic(auto, unfolding(crate::specs::Rounding::decimal_text))]
fn push_decimal(decimal: &Decimal, out: &mut Vec<u8>) -> Result<(), AllocError>
    ensures { OnOk result (out.new.items ≡ out.old.items
        ++ decimal_text decimal.now.sign decimal.now.absolute) }
{
    push_sign(decimal.sign, out)?;
    push_digits(decimal.absolute.integer(), out)?;
    push_fraction(decimal.absolute.fraction(), out)
}

/// Appends a number.
fn push_number(number: usize, out: &mut Vec<u8>) -> Result<(), AllocError>
    ensures { OnOk result (out.new.items ≡ out.old.items ++ decimal number) }
{
    let mut digits = Buffer::new();
    out.extend_from_slice(digits.format(number).as_bytes())
}

/// The word behind that many digits.
fn digits_word(count: usize) -> &'static str
    ensures { result.now ≡ digits_word count }
{
    if count == 1 { " digit" } else { " digits" }
}

/// Appends how many digits there are.
#[tactic(auto, unfolding(crate::specs::Rounding::counted_digits))]
fn push_counted(count: usize, out: &mut Vec<u8>) -> Result<(), AllocError>
    ensures { OnOk result (out.new.items ≡ out.old.items ++ counted_digits count) }
{
    push_number(count, out)?;
    out.extend_from_slice(digits_word(count).as_bytes())
}

/// Appends an option with its text.
#[tactic(auto, unfolding(crate::specs::Rounding::option_text))]
fn push_option(name: &str, text: &str, out: &mut Vec<u8>) -> Result<(), AllocError>
    ensures { OnOk result (out.new.items ≡ out.old.items ++ option_text name.now text.now) }
{
    out.extend_from_slice(b"--")?;
    out.extend_from_slice(name.as_bytes())?;
    out.extend_from_slice(b" ")?;
    out.extend_from_slice(text.as_bytes())?;
    Ok(())
}

/// Appends what says which digits are written.
fn push_digits_reason(
    digits: &DigitsBy<'_>,
    count: usize,
    out: &mut Vec<u8>,
) -> Result<(), AllocError>
    ensures { OnOk result (out.new.items ≡ out.old.items ++ digits_reason digits.now count) }
{
    match digits {
        DigitsBy::Option { name, text } => push_option(name, text, out),
        DigitsBy::Currency(code) => {
            push_counted(count, out)?;
            out.extend_from_slice(b" of ")?;
            out.extend_from_slice(code.as_bytes())
        }
        DigitsBy::Cash(code) => {
            out.extend_from_slice(b"cash of ")?;
            out.extend_from_slice(code.as_bytes())
        }
        DigitsBy::Compact => {
            out.extend_from_slice(b"no fraction digit, or two significant digits")
        }
        DigitsBy::Given => push_counted(count, out),
    }
}

/// Appends the option for the mode of rounding, if it is given.
fn push_mode(mode: Option<&str>, out: &mut Vec<u8>) -> Result<(), AllocError>
    ensures { OnOk result (out.new.items ≡ out.old.items ++ mode_text mode.entry) }
{
    match mode {
        None => Ok(()),
        Some(text) => {
            out.extend_from_slice(b", ")?;
            push_option("round", text, out)
        }
    }
}

/// Appends what says to what a number is rounded.
#[tactic(auto, unfolding(crate::specs::Rounding::reason_text))]
fn push_reason(settings: &Settings<'_>, count: usize, out: &mut Vec<u8>) -> Result<(), AllocError>
    ensures { OnOk result (out.new.items ≡ out.old.items ++ reason_text settings.now count) }
{
    push_digits_reason(&settings.digits, count, out)?;
    push_mode(settings.mode, out)
}

/// A new value: the same number with just the digits that it needs.
fn shortest(alloc: Global, value: &UnsignedDecimal) -> Result<UnsignedDecimal, AllocError>
    ensures { IfOk result (λ y. IsShortest value.now y) }
{
    match value.padded(alloc, 1, 0) {
        Ok(shortest) => Ok(shortest),
        Err(_) => Err(AllocError),
    }
}

/// Whether a number was rounded: the size that is written isn't the size that was read.
fn is_rounded(
    alloc: Global,
    read: &UnsignedDecimal,
    written: &UnsignedDecimal,
) -> Result<bool, AllocError>
    ensures { IfOk result (λ b. b ≡ is_rounded read.now written.now) }
{
    let read = shortest(alloc, read)?;
    let written = shortest(alloc, written)?;
    Ok(read != written)
}

/// Appends the number that is rounded, and the one that is written for it.
fn push_numbers(prepared: &Prepared, out: &mut Vec<u8>) -> Result<(), AllocError>
    ensures { OnOk result (out.new.items ≡ out.old.items
        ++ rounded_text (prepared.now.read.sign, prepared.now.read.absolute)
        (prepared.now.written.sign, prepared.now.written.absolute)) }
{
    push_decimal(&prepared.read, out)?;
    out.extend_from_slice(b" to ")?;
    push_decimal(&prepared.written, out)?;
    Ok(())
}

/// Appends the line that says from what to what a number was rounded, and by what.
fn push_rounded(
    settings: &Settings<'_>,
    prepared: &Prepared,
    out: &mut Vec<u8>,
) -> Result<(), AllocError>
    ensures { OnOk result (out.new.items ≡ out.old.items ++ rounded_line settings.now
        (prepared.now.read.sign, prepared.now.read.absolute)
        (prepared.now.written.sign, prepared.now.written.absolute)) }
{
    out.extend_from_slice(b"  rounded    ")?;
    push_numbers(prepared, out)?;
    out.extend_from_slice(b": ")?;
    push_reason(settings, prepared.written.absolute.fraction().len(), out)?;
    out.push(b'\n')?;
    Ok(())
}

/// Appends that line, where the size that is written isn't the size that was read.
// promise: A line says where the written size isn't the read one.
// mutations: rounding_told_of_zeros, rounding_told_of_lost_digits_alone
pub(crate) fn push_rounding(
    alloc: Global,
    settings: &Settings<'_>,
    prepared: &Prepared,
    out: &mut Vec<u8>,
) -> Result<(), AllocError>
    ensures { OnOk result (out.new.items ≡ out.old.items ++ rounding_lines settings.now
        (Ok (prepared.now.read.sign, prepared.now.read.absolute))
        (prepared.now.written.sign, prepared.now.written.absolute)) }
{
    let Prepared { read, written } = prepared;
    if is_rounded(alloc, &read.absolute, &written.absolute)? {
        push_rounded(settings, prepared, out)
    } else {
        Ok(())
    }
}
