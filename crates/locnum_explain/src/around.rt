//! The two multiples of a power of ten around a number.

ghost use Rattle.std.specs.Prelude.{◌≡◌, ◌+◌, ◌<◌, ◌≤◌, ◌^◌, ◌++◌, All, IfOk, OnOk, decimal, length};
ghost use Rattle.fixed_decimal.specs.Size.{place};
ghost use Rattle.icu_plurals.specs.Operands.{number_of};
ghost use Rattle.locnum_explain.specs.Around.{around_line, around_text, between_text, digits_below, filled, fixed};

use crate::repeating::push_times;
use fixed_decimal::UnsignedDecimal;
use itoa::Buffer;
use std::alloc::{AllocError, Global};

/// How many digits a number has at most.
const MOST_DIGITS: usize = 18;

/// Ten to a power.
fn ten_to(power: usize) -> u64
    requires { power ≤ 18 }
    ensures power { result ≡ 10 ^ power }
    ensures some { 0 < result }
    ensures small { result ≤ 10 ^ 18 }
{
    10u64.pow(power as u32)
}

/// Appends a number.
fn push_decimal(number: u64, out: &mut Vec<u8>) -> Result<(), AllocError>
    ensures { OnOk result (out.new.items ≡ out.old.items ++ decimal number) }
{
    let mut digits = Buffer::new();
    out.extend_from_slice(digits.format(number).as_bytes())
}

/// Appends a number with that many digits.
fn push_filled(count: usize, number: u64, out: &mut Vec<u8>) -> Result<(), AllocError>
    ensures { OnOk result (out.new.items ≡ out.old.items ++ filled count number) }
{
    let mut buffer = Buffer::new();
    let digits = buffer.format(number).as_bytes();
    push_times(b'0', count.saturating_sub(digits.len()), out)?;
    out.extend_from_slice(digits)
}

/// Appends a number with that many fraction digits.
#[tactic(auto, unfolding(crate::specs::Around::fixed))]
fn push_fixed(scale: usize, number: u64, out: &mut Vec<u8>) -> Result<(), AllocError>
    requires { scale ≤ 18 }
    ensures { OnOk result (out.new.items ≡ out.old.items ++ fixed scale number) }
{
    if scale == 0 {
        return push_decimal(number, out);
    }
    let unit = ten_to(scale);
    push_decimal(number / unit, out)?;
    out.push(b'.')?;
    push_filled(scale, number % unit, out)
}

/// Appends the multiples of a unit around a number.
#[tactic(auto, unfolding(crate::specs::Around::between_text))]
fn push_between(scale: usize, unit: u64, number: u64, out: &mut Vec<u8>) -> Result<(), AllocError>
    requires scale { scale ≤ 18 }
    requires some { 0 < unit }
    requires unit { unit ≤ 10 ^ 18 }
    requires number { number < 10 ^ 18 }
    ensures { OnOk result (out.new.items ≡ out.old.items ++ between_text scale unit number) }
{
    let rest = number % unit;
    if rest == 0 {
        push_fixed(scale, number, out)?;
        return out.extend_from_slice(b" itself");
    }
    push_fixed(scale, number - rest, out)?;
    out.extend_from_slice(b" (")?;
    push_fixed(scale, rest, out)?;
    out.extend_from_slice(b" below), ")?;
    push_fixed(scale, number - rest + unit, out)?;
    out.extend_from_slice(b" (")?;
    push_fixed(scale, unit - rest, out)?;
    out.extend_from_slice(b" above)")
}

/// The number that at most eighteen digits write.
fn number(digits: &[u8]) -> u64
    requires few { length digits.now ≤ 18 }
    requires below_ten { All (λ d. d < 10) digits.now }
    ensures number { result ≡ number_of digits.now }
    ensures small { result < 10 ^ 18 }
{
    let mut number = 0;
    for digit in digits {
        number = number * 10 + *digit as u64;
    }
    number
}

/// The number of digits before and behind the point, in units of the last of them.
fn number_in(alloc: Global, before: &[u8], behind: &[u8]) -> Result<u64, AllocError>
    requires few { length before.now + length behind.now ≤ 18 }
    requires before { All (λ d. d < 10) before.now }
    requires behind { All (λ d. d < 10) behind.now }
    ensures number { IfOk result (λ n. n ≡ number_of (before.now ++ behind.now)) }
    ensures small { IfOk result (λ n. n < 10 ^ 18) }
{
    let mut digits = Vec::from_slice(alloc, before)?;
    digits.extend_from_slice(behind)?;
    Ok(number(&digits))
}

/// How many digits stand below a power, where that many stand below power 0.
fn digits_below(power: i32, scale: usize) -> usize
    requires { scale ≤ 18 }
    ensures { result ≡ digits_below (place power) scale }
{
    let below = power as i64 + scale as i64;
    if below < 0 { 0 } else { below as usize }
}

/// Appends the multiples of ten to a power around a number of eighteen digits at most.
#[tactic(auto, unfolding(crate::specs::Around::around_text))]
fn push_around_text(
    alloc: Global,
    power: i32,
    before: &[u8],
    behind: &[u8],
    out: &mut Vec<u8>,
) -> Result<(), AllocError>
    requires before { All (λ d. d < 10) before.now }
    requires behind { All (λ d. d < 10) behind.now }
    requires count { length before.now + length behind.now ≤ 65536 }
    ensures { OnOk result (out.new.items ≡ out.old.items
        ++ around_text (place power) before.now behind.now) }
{
    let scale = behind.len();
    if before.len() + scale > MOST_DIGITS {
        return out.extend_from_slice(b"more than 18 digits");
    }
    let below = digits_below(power, scale);
    if below > MOST_DIGITS {
        return out.extend_from_slice(b"more than 18 digits");
    }
    push_between(scale, ten_to(below), number_in(alloc, before, behind)?, out)
}

/// Appends the line of the two multiples of ten to a power around a number, with their distances
/// from it, or of the number itself where it is one (this project's own). They are written with the
/// fraction digits of the number. Numbers of more than eighteen digits have none. Without memory
/// some bytes of the line may stand there.
// promise: The two multiples around a number have their distances.
// mutations: around_distances_exchanged
#[tactic(auto, unfolding(crate::specs::Around::around_line))]
pub fn push_around(
    alloc: Global,
    power: i32,
    value: &UnsignedDecimal,
    out: &mut Vec<u8>,
) -> Result<(), AllocError>
    ensures { OnOk result (out.new.items ≡ out.old.items ++ around_line (place power) value.now) }
{
    out.extend_from_slice(b"  around     ")?;
    push_around_text(alloc, power, value.integer(), value.fraction(), out)?;
    out.push(b'\n')?;
    Ok(())
}
