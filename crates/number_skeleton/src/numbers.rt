//! Numbers of scales and increments.

ghost use Rattle.std.specs.Prelude.{◌≡◌, false};
ghost use Rattle.std.specs.List.{list_all};
ghost use Rattle.number_skeleton.specs.Numbers.{is_number, fraction_len, is_filler, filler_len, zeros_in, leading_two, leading_increment};
ghost use Rattle.number_skeleton.specs.Numbers.{step_of, unsigned_number, number_of, is_far, power_of, scale_of, increment_of};
ghost use Rattle.number_skeleton.specs.Bytes.{is_digit};

use crate::bytes::{behind, byte_at, digits_len, is_digit, run_len};
use crate::fault::{FaultKind, Thing};
use fixed_decimal::RoundingIncrement;
use skeleton_settings::Precision;

/// What a number is.
#[derive(Clone, Copy)]
pub(crate) enum Number {
    /// It has no digit but zeros.
    Zero,
    /// It has a sign, or its digits between zeros are others.
    Other,
    /// Its digits between zeros are 1, 2, 5 or 25.
    Step {
        increment: RoundingIncrement,
        /// How many zeros stand behind these digits.
        zeros: usize,
        /// How many digits stand behind the point.
        fraction: usize,
    },
}

fn are_digits(word: &[u8]) -> bool
    ensures { result ≡ list_all is_digit word.now }
{
    word.iter().all(|byte| is_digit(*byte))
}

/// Whether a word is digits, or digits with a point in front of the last ones.
#[tactic(auto, unfolding(crate::specs::Numbers::is_number))]
fn is_number(word: &[u8]) -> bool
    ensures { result ≡ is_number word.now }
{
    let whole = digits_len(word);
    let rest = behind(word, whole);
    if rest.is_empty() {
        return whole > 0;
    }
    rest[0] == b'.' && rest.len() > 1 && are_digits(behind(rest, 1))
}

/// How many digits stand behind the point of a number.
#[tactic(auto, unfolding(crate::specs::Numbers::fraction_len))]
fn fraction_len(word: &[u8]) -> usize
    ensures { result ≡ fraction_len word.now }
{
    behind(behind(word, digits_len(word)), 1).len()
}

/// A zero, or the point.
fn is_filler(byte: u8) -> bool
    ensures { result ≡ is_filler byte }
{
    byte == b'0' || byte == b'.'
}

/// How many zeros, and the point, stand at the front of a word.
#[tactic(auto, unfolding(crate::specs::Numbers::filler_len))]
fn filler_len(word: &[u8]) -> usize
    ensures { result ≡ filler_len word.now }
{
    word.iter().take_while(|byte| is_filler(**byte)).count()
}

/// How many zeros stand in a word of zeros with a point among them, or without one.
#[tactic(auto, unfolding(crate::specs::Numbers::zeros_in))]
fn zeros_in(word: &[u8]) -> usize
    ensures { result ≡ zeros_in word.now }
{
    let front = run_len(b'0', word);
    front + run_len(b'0', behind(behind(word, front), 1))
}

/// An increment that a word begins with.
#[derive(Clone, Copy)]
struct Leading {
    increment: RoundingIncrement,
    /// How many bytes it takes, the point among them.
    bytes: usize,
}

/// The increment that begins with 2.
fn leading_two(second: u8, third: u8) -> Leading
    ensures { result ≡ leading_two second third }
{
    if second == b'5' {
        Leading {
            increment: RoundingIncrement::MultiplesOf25,
            bytes: 2,
        }
    } else if second == b'.' && third == b'5' {
        Leading {
            increment: RoundingIncrement::MultiplesOf25,
            bytes: 3,
        }
    } else {
        Leading {
            increment: RoundingIncrement::MultiplesOf2,
            bytes: 1,
        }
    }
}

/// The increment that a word begins with.
#[tactic(auto, unfolding(crate::specs::Numbers::leading_increment))]
fn leading_increment(word: &[u8]) -> Option<Leading>
    ensures { result ≡ leading_increment word.now }
{
    let first = byte_at(word, 0);
    if first == b'1' {
        return Some(Leading {
            increment: RoundingIncrement::MultiplesOf1,
            bytes: 1,
        });
    }
    if first == b'2' {
        return Some(leading_two(byte_at(word, 1), byte_at(word, 2)));
    }
    if first == b'5' {
        return Some(Leading {
            increment: RoundingIncrement::MultiplesOf5,
            bytes: 1,
        });
    }
    None
}

/// What the digits of a number are of which this part stands behind the first zeros.
#[tactic(auto, unfolding(crate::specs::Numbers::step_of))]
fn step_of(rest: &[u8], fraction: usize) -> Number
    ensures { result ≡ step_of rest.now fraction }
{
    let Some(leading) = leading_increment(rest) else {
        return Number::Other;
    };
    let tail = behind(rest, leading.bytes);
    if filler_len(tail) != tail.len() {
        return Number::Other;
    }
    Number::Step {
        increment: leading.increment,
        zeros: zeros_in(tail),
        fraction,
    }
}

/// What a number without a sign is.
#[tactic(auto, unfolding(crate::specs::Numbers::unsigned_number))]
fn unsigned_number(word: &[u8]) -> Result<Number, FaultKind>
    ensures { result ≡ unsigned_number word.now }
{
    if !is_number(word) {
        return Err(FaultKind::BadOption);
    }
    let rest = behind(word, filler_len(word));
    if rest.is_empty() {
        return Ok(Number::Zero);
    }
    Ok(step_of(rest, fraction_len(word)))
}

/// What a number is.
#[tactic(auto, unfolding(crate::specs::Numbers::number_of))]
fn number_of(word: &[u8]) -> Result<Number, FaultKind>
    ensures { result ≡ number_of word.now }
{
    let first = byte_at(word, 0);
    if first != b'+' && first != b'-' {
        return unsigned_number(word);
    }
    if !is_number(behind(word, 1)) {
        return Err(FaultKind::BadOption);
    }
    Ok(Number::Other)
}

/// Whether the power of ten of a number's last digit but zeros is past 999 in size.
fn is_far(zeros: usize, fraction: usize) -> bool
    ensures { result ≡ is_far zeros fraction }
{
    zeros.saturating_sub(fraction) > 999 || fraction.saturating_sub(zeros) > 999
}

/// The power of ten of a number's last digit but zeros.
fn power_of(zeros: usize, fraction: usize) -> i16
    requires { is_far zeros fraction ≡ false }
    ensures { result ≡ power_of zeros fraction }
{
    if zeros >= fraction {
        (zeros - fraction) as i16
    } else {
        -((fraction - zeros) as i16)
    }
}

/// The power of ten of a scale.
#[tactic(auto, unfolding(crate::specs::Numbers::scale_of))]
pub(crate) fn scale_of(word: &[u8]) -> Result<i16, FaultKind>
    ensures { result ≡ scale_of word.now }
{
    let Number::Step {
        increment: RoundingIncrement::MultiplesOf1,
        zeros,
        fraction,
    } = number_of(word)?
    else {
        return Err(FaultKind::LeftOut(Thing::Scale));
    };
    if is_far(zeros, fraction) {
        return Err(FaultKind::TooManyDigits);
    }
    Ok(power_of(zeros, fraction))
}

/// The precision of an increment.
#[tactic(auto, unfolding(crate::specs::Numbers::increment_of))]
pub(crate) fn increment_of(word: &[u8]) -> Result<Precision, FaultKind>
    ensures { result ≡ increment_of word.now }
{
    match number_of(word)? {
        Number::Zero => Err(FaultKind::BadOption),
        Number::Other => Err(FaultKind::LeftOut(Thing::Increment)),
        Number::Step {
            increment,
            zeros,
            fraction,
        } => {
            if is_far(zeros, fraction) || fraction > 999 {
                return Err(FaultKind::TooManyDigits);
            }
            Ok(Precision::Increment {
                increment,
                power: power_of(zeros, fraction),
                least: fraction as u16,
            })
        }
    }
}
