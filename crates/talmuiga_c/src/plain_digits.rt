//! Decimals in plain digits.

ghost use Rattle.std.specs.Prelude.{◌≡◌, ◌<◌, ◌++◌, All, IfOk, OnOk};
ghost use Rattle.fixed_decimal.specs.Text.{digits_text, fraction_text, sign_text};
ghost use Rattle.talmuiga_c.specs.ReadBack.{spelled};

use fixed_decimal::{Decimal, Sign};
use std::alloc::{AllocError, Global};

/// Appends a sign, if there is one.
fn push_sign(text: &mut Vec<u8>, sign: Sign) -> Result<(), AllocError>
    ensures { OnOk result (text.new.items ≡ text.old.items ++ sign_text sign) }
{
    match sign {
        Sign::None => {}
        Sign::Negative => text.push(b'-')?,
        Sign::Positive => text.push(b'+')?,
    }
    Ok(())
}

/// Appends digits.
fn push_digits(text: &mut Vec<u8>, digits: &[u8]) -> Result<(), AllocError>
    requires { All (λ d. d < 10) digits.now }
    ensures { OnOk result (text.new.items ≡ text.old.items ++ digits_text digits.now) }
{
    for digit in digits {
        text.push(b'0' + *digit)?;
    }
    Ok(())
}

/// Appends a point and digits, if there are any.
fn push_fraction(text: &mut Vec<u8>, digits: &[u8]) -> Result<(), AllocError>
    requires { All (λ d. d < 10) digits.now }
    ensures { OnOk result (text.new.items ≡ text.old.items ++ fraction_text digits.now) }
{
    if digits.is_empty() {
        return Ok(());
    }
    text.push(b'.')?;
    push_digits(text, digits)
}

/// A decimal in plain digits: its sign, each written digit, and a point before those of its
/// fraction.
pub fn spelled(alloc: Global, decimal: &Decimal) -> Result<Vec<u8>, AllocError>
    ensures { IfOk result (λ text. text.items ≡ spelled decimal.now.sign decimal.now.absolute) }
{
    let mut text = Vec::new(alloc);
    push_sign(&mut text, decimal.sign)?;
    push_digits(&mut text, decimal.absolute.integer())?;
    push_fraction(&mut text, decimal.absolute.fraction())?;
    Ok(text)
}
