//! Tokens of the canonical text that have counts of digits.

ghost use Rattle.std.specs.Prelude.{◌≡◌, ◌<◌, ℕ, List, ◌++◌, IfOk, codes};
ghost use Rattle.std.specs.String.{string_bytes};
ghost use Rattle.fixed_decimal.specs.Rounding.{zeros_at, scale_at};
ghost use Rattle.skeleton_settings.specs.Canonical.{repeated, spaced, counts_text, fraction_text};
ghost use Rattle.skeleton_settings.specs.Canonical.{significant_text, beside_text, increment_digits};
ghost use Rattle.skeleton_settings.specs.Canonical.{increment_len, point_zeros, behind_zeros};
ghost use Rattle.skeleton_settings.specs.Canonical.{behind_point, number_text, currency_digits_text, precision_text};

use crate::settings::{Precision, Priority};
use fixed_decimal::RoundingIncrement;
use std::alloc::AllocError;

/// A space behind others.
#[tactic(auto, using(crate::proofs::Spaced::spaced_first, crate::proofs::Spaced::spaced_next))]
fn push_separator(out: &mut String) -> Result<(), AllocError>
    ensures { IfOk result (λ _. (token : List ℕ) →
        string_bytes out.new ++ token ≡ spaced (string_bytes out.old) token) }
{
    if out.is_empty() {
        return Ok(());
    }
    out.push(' ')
}

/// A token behind others.
pub(crate) fn push_token(out: &mut String, token: &str) -> Result<(), AllocError>
    ensures { IfOk result (λ _.
        string_bytes out.new ≡ spaced (string_bytes out.old) token.now) }
{
    push_separator(out)?;
    out.push_str(token)
}

/// That many equal characters of ASCII.
#[tactic(auto, using(crate::proofs::Spaced::repeated_none, crate::proofs::Spaced::repeated_more))]
pub(crate) fn push_repeated(out: &mut String, count: u16, character: char) -> Result<(), AllocError>
    requires { character < 128 }
    ensures { IfOk result (λ _.
        string_bytes out.new ≡ string_bytes out.old ++ repeated count character) }
{
    for _index in 0..count {
        out.push(character)?;
    }
    Ok(())
}

/// That many equal characters of ASCII, and that many others.
fn push_counts(
    out: &mut String,
    digit: char,
    least: u16,
    other: char,
    more: u16,
) -> Result<(), AllocError>
    requires digit { digit < 128 }
    requires other { other < 128 }
    ensures { IfOk result (λ _. string_bytes out.new ≡
        string_bytes out.old ++ counts_text digit least other more) }
{
    push_repeated(out, least, digit)?;
    push_repeated(out, more, other)
}

/// The token of fraction digits.
#[tactic(auto, using(crate::proofs::Spaced::spaced_more), unfolding(crate::specs::Canonical::repeated))]
fn push_fraction(out: &mut String, least: u16, most: Option<u16>) -> Result<(), AllocError>
    ensures { IfOk result (λ _.
        string_bytes out.new ≡ spaced (string_bytes out.old) (fraction_text least most)) }
{
    match most {
        None => {
            if least == 0 {
                return push_token(out, "precision-unlimited");
            }
            push_token(out, ".")?;
            push_counts(out, '0', least, '*', 1)
        }
        Some(0) => push_token(out, "precision-integer"),
        Some(most) => {
            push_token(out, ".")?;
            push_counts(out, '0', least, '#', most.saturating_sub(least))
        }
    }
}

/// The token of significant digits.
#[tactic(auto, using(crate::proofs::Spaced::spaced_more))]
fn push_significant(out: &mut String, least: u16, most: Option<u16>) -> Result<(), AllocError>
    ensures { IfOk result (λ _.
        string_bytes out.new ≡ spaced (string_bytes out.old) (significant_text least most)) }
{
    push_token(out, "")?;
    match most {
        None => push_counts(out, '@', least, '*', 1),
        Some(most) => push_counts(out, '@', least, '#', most.saturating_sub(least)),
    }
}

/// The option of significant digits.
fn push_beside(
    out: &mut String,
    few: u16,
    many: u16,
    priority: Priority,
    keeps_least: bool,
) -> Result<(), AllocError>
    ensures { IfOk result (λ _. string_bytes out.new ≡
        string_bytes out.old ++ (codes "/" ++ beside_text few many priority keeps_least)) }
{
    out.push_str("/")?;
    match (priority, keeps_least) {
        (Priority::Relaxed, true) => push_counts(out, '@', many, '*', 1),
        (Priority::Strict, true) => push_counts(out, '@', 1, '#', many.saturating_sub(1)),
        (Priority::Relaxed, false) => {
            push_counts(out, '@', few, '#', many.saturating_sub(few))?;
            out.push_str("r")
        }
        (Priority::Strict, false) => {
            push_counts(out, '@', few, '#', many.saturating_sub(few))?;
            out.push_str("s")
        }
    }
}

/// The digits of an increment.
fn increment_digits(increment: RoundingIncrement) -> &'static str
    ensures { result.now ≡ increment_digits increment }
{
    match increment {
        RoundingIncrement::MultiplesOf1 => "1",
        RoundingIncrement::MultiplesOf2 => "2",
        RoundingIncrement::MultiplesOf5 => "5",
        RoundingIncrement::MultiplesOf25 => "25",
    }
}

/// How many digits an increment has.
fn increment_len(increment: RoundingIncrement) -> u16
    ensures { result ≡ increment_len increment }
{
    match increment {
        RoundingIncrement::MultiplesOf25 => 2,
        RoundingIncrement::MultiplesOf1
        | RoundingIncrement::MultiplesOf2
        | RoundingIncrement::MultiplesOf5 => 1,
    }
}

/// The point and that many zeros, if there are any.
fn push_point_zeros(out: &mut String, count: u16) -> Result<(), AllocError>
    ensures { IfOk result (λ _.
        string_bytes out.new ≡ string_bytes out.old ++ point_zeros count) }
{
    if count == 0 {
        return Ok(());
    }
    out.push_str(".")?;
    push_repeated(out, count, '0')
}

/// A number up to the last digit of an increment, which stands that many places behind the point.
fn push_behind_point(
    out: &mut String,
    increment: RoundingIncrement,
    below: u16,
) -> Result<(), AllocError>
    ensures { IfOk result (λ _.
        string_bytes out.new ≡ string_bytes out.old ++ behind_point increment below) }
{
    if increment_len(increment) == 2 && below == 1 {
        return out.push_str("2.5");
    }
    out.push_str("0.")?;
    push_repeated(out, below.saturating_sub(increment_len(increment)), '0')?;
    out.push_str(increment_digits(increment))
}

/// An increment times ten to the power `above`, or where this is 0 `below` less than 0, with so
/// many fraction digits.
pub(crate) fn push_number(
    out: &mut String,
    increment: RoundingIncrement,
    above: u16,
    below: u16,
    least: u16,
) -> Result<(), AllocError>
    ensures { IfOk result (λ _. string_bytes out.new ≡
        string_bytes out.old ++ number_text increment above below least) }
{
    if below == 0 {
        out.push_str(increment_digits(increment))?;
        push_repeated(out, above, '0')?;
        return push_point_zeros(out, least);
    }
    push_behind_point(out, increment, below)?;
    push_repeated(out, least.saturating_sub(below), '0')
}

/// How far a power is above 0.
pub(crate) fn zeros_above(power: i16) -> u16
    ensures { result ≡ zeros_at power }
{
    power.max(0) as u16
}

/// How far a power is below 0.
pub(crate) fn zeros_below(power: i16) -> u16
    ensures { result ≡ scale_at power }
{
    (-(power.min(0) as i32)) as u16
}

/// The token of the digits of a currency.
fn currency_word(is_cash: bool) -> &'static str
    ensures { result.now ≡ currency_digits_text is_cash }
{
    if is_cash {
        "precision-currency-cash"
    } else {
        "precision-currency-standard"
    }
}

/// The token of a precision.
#[tactic(auto, using(crate::proofs::Spaced::spaced_more))]
pub(crate) fn push_precision(out: &mut String, precision: Precision) -> Result<(), AllocError>
    ensures { IfOk result (λ _.
        string_bytes out.new ≡ spaced (string_bytes out.old) (precision_text precision)) }
{
    match precision {
        Precision::Fraction { least, most } => push_fraction(out, least, most),
        Precision::Significant { least, most } => push_significant(out, least, most),
        Precision::Increment {
            increment,
            power,
            least,
        } => {
            push_token(out, "precision-increment/")?;
            push_number(
                out,
                increment,
                zeros_above(power),
                zeros_below(power),
                least,
            )
        }
        Precision::Both {
            least,
            most,
            few,
            many,
            priority,
            keeps_least,
        } => {
            push_fraction(out, least, most)?;
            push_beside(out, few, many, priority, keeps_least)?;
            Ok(())
        }
        Precision::Currency { is_cash } => push_token(out, currency_word(is_cash)),
    }
}
