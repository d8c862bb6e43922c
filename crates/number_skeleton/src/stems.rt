//! Stems of tokens.

ghost use Rattle.std.specs.Prelude.{◌≡◌, ◌+◌, ◌<◌, ◌^◌, length};
ghost use Rattle.number_skeleton.specs.Stems.{counts_end, counts_of, fraction_stem, integer_stem};
ghost use Rattle.number_skeleton.specs.Stems.{exponent_len, digits_of_exponent, exponent_stem, is_concise, named_stem, stem_of};

use crate::bytes::{behind, byte_at, front, is_wild, run_len};
use crate::draft::Signs;
use crate::fault::{FaultKind, Thing};
use crate::words::{
    concise_stem, grouping_named, mode_named, option_stem, plain_stem, precision_named, sign_named,
    width_named,
};
use fixed_decimal::SignedRoundingMode;
use skeleton_settings::{Grouping, Notation, UnitWidth};

/// How many digits are written.
#[derive(Clone, Copy)]
pub(crate) struct Counts {
    /// That many at least.
    pub(crate) least: usize,
    /// That many at most, if there is such a count.
    pub(crate) most: Option<usize>,
}

/// What a stem says.
#[derive(Clone, Copy)]
pub(crate) enum Stem {
    Notation(Notation),
    BaseUnit,
    Percent,
    Permille,
    PercentTimesHundred,
    Currency,
    UnitName,
    Width(UnitWidth),
    Unlimited,
    Fraction(Counts),
    Significant(Counts),
    CurrencyPrecision(bool),
    Increment,
    Mode(SignedRoundingMode),
    IntegerZeros(usize),
    IntegerWidth,
    Scale,
    Grouping(Grouping),
    Latin,
    System,
    Sign(Signs),
    DecimalAuto,
}

/// The counts of a run of digits, of `#` behind it, and of what stands behind both.
fn counts_end(digits: usize, hashes: usize, end: &[u8]) -> Result<Counts, FaultKind>
    requires { digits + hashes < 2 ^ 64 }
    ensures { result ≡ counts_end digits hashes end.now }
{
    if end.is_empty() {
        return Ok(Counts {
            least: digits,
            most: Some(digits + hashes),
        });
    }
    if hashes == 0 && end.len() == 1 && is_wild(end[0]) {
        return Ok(Counts {
            least: digits,
            most: None,
        });
    }
    Err(FaultKind::UnknownStem)
}

/// The counts of a word of equal digits, and `#` or a wild byte behind them.
#[tactic(auto, unfolding(crate::specs::Stems::counts_of))]
fn counts_of(digit: u8, word: &[u8]) -> Result<Counts, FaultKind>
    ensures { result ≡ counts_of digit word.now }
{
    let digits = run_len(digit, word);
    let rest = behind(word, digits);
    let hashes = run_len(b'#', rest);
    counts_end(digits, hashes, behind(rest, hashes))
}

/// The fraction digits of what stands behind `.`.
#[tactic(auto, unfolding(crate::specs::Stems::fraction_stem))]
fn fraction_stem(word: &[u8]) -> Result<Stem, FaultKind>
    ensures { result ≡ fraction_stem word.now }
{
    let counts = counts_of(b'0', word)?;
    match counts {
        Counts {
            least: 0,
            most: None,
        } => Ok(Stem::Unlimited),
        _ => Ok(Stem::Fraction(counts)),
    }
}

/// The integer digits of a word of zeros.
#[tactic(auto, unfolding(crate::specs::Stems::integer_stem))]
fn integer_stem(word: &[u8]) -> Result<Stem, FaultKind>
    ensures { result ≡ integer_stem word.now }
{
    if run_len(b'0', word) == word.len() {
        return Ok(Stem::IntegerZeros(word.len()));
    }
    Err(FaultKind::UnknownStem)
}

/// How many bytes `+!` or `+?` take in front of the digits of an exponent.
#[tactic(auto, unfolding(crate::specs::Stems::exponent_len))]
fn exponent_len(word: &[u8]) -> usize
    ensures { result ≡ exponent_len word.now }
{
    let sign = byte_at(word, 1);
    if byte_at(word, 0) == b'+' && (sign == b'!' || sign == b'?') {
        2
    } else {
        0
    }
}

/// Whether what stands behind `E` or `EE` is the form of an exponent.
#[tactic(auto, unfolding(crate::specs::Stems::digits_of_exponent))]
fn digits_of_exponent(word: &[u8]) -> bool
    ensures { result ≡ digits_of_exponent word.now }
{
    let digits = behind(word, exponent_len(word));
    !digits.is_empty() && run_len(b'0', digits) == digits.len()
}

/// `E0`, `EE+!0` and so on, which are left out.
#[tactic(auto, unfolding(crate::specs::Stems::exponent_stem))]
fn exponent_stem(word: &[u8]) -> Result<Stem, FaultKind>
    ensures { result ≡ exponent_stem word.now }
{
    if byte_at(word, 1) == b'E' {
        if digits_of_exponent(behind(word, 2)) {
            return Err(FaultKind::LeftOut(Thing::Engineering));
        }
        return Err(FaultKind::UnknownStem);
    }
    if digits_of_exponent(behind(word, 1)) {
        return Err(FaultKind::LeftOut(Thing::Scientific));
    }
    Err(FaultKind::UnknownStem)
}

/// Whether a byte begins a concise stem of signs or grouping.
fn is_concise(byte: u8) -> bool
    ensures { result ≡ is_concise byte }
{
    byte == b',' || byte == b'(' || byte == b'+'
}

/// The stem of a word of small letters, by its beginning.
#[tactic(auto, unfolding(crate::specs::Stems::named_stem))]
fn named_stem(word: &[u8]) -> Result<Stem, FaultKind>
    ensures { result ≡ named_stem word.now }
{
    if front(word, 5) == b"sign-".as_slice() {
        return Ok(Stem::Sign(sign_named(behind(word, 5))?));
    }
    if front(word, 6) == b"group-".as_slice() {
        return Ok(Stem::Grouping(grouping_named(behind(word, 6))?));
    }
    if front(word, 14) == b"rounding-mode-".as_slice() {
        return Ok(Stem::Mode(mode_named(behind(word, 14))?));
    }
    if front(word, 11) == b"unit-width-".as_slice() {
        return Ok(Stem::Width(width_named(behind(word, 11))?));
    }
    if front(word, 10) == b"precision-".as_slice() {
        return precision_named(behind(word, 10));
    }
    match plain_stem(word) {
        Ok(stem) => Ok(stem),
        Err(_) => option_stem(word),
    }
}

/// What a stem says, by its first byte.
#[tactic(auto, unfolding(crate::specs::Stems::stem_of))]
pub(crate) fn stem_of(word: &[u8]) -> Result<Stem, FaultKind>
    ensures { result ≡ stem_of word.now }
{
    let first = byte_at(word, 0);
    if first == b'.' {
        return fraction_stem(behind(word, 1));
    }
    if first == b'@' {
        return Ok(Stem::Significant(counts_of(b'@', word)?));
    }
    if first == b'0' {
        return integer_stem(word);
    }
    if first == b'E' {
        return exponent_stem(word);
    }
    if is_concise(first) {
        return concise_stem(word);
    }
    named_stem(word)
}
