//! Options of a token: what stands behind its slashes.

ghost use Rattle.std.specs.Prelude.{◌≡◌, ◌+◌, ◌<◌, ◌^◌, length, true, IfOk};
ghost use Rattle.std.specs.List.{list_all};
ghost use Rattle.std.specs.Str.{IsAscii};
ghost use Rattle.number_skeleton.specs.Bytes.{is_lower};
ghost use Rattle.number_skeleton.specs.Data.{draft_data, drafted};
ghost use Rattle.number_skeleton.specs.Options.{lent_piece, option_at, ended, capital, is_capital};
ghost use Rattle.number_skeleton.specs.Options.{letters_of, next_begins, name_from, unit_of, unit_read};
ghost use Rattle.number_skeleton.specs.Options.{system_of, name_read, integer_digits_of};

use crate::bytes::{behind, byte_at, front, is_lower, is_wild, piece_len, run_len};
use crate::draft::Draft;
use crate::fault::{FaultKind, SkeletonFault, Thing};
use skeleton_settings::{CurrencyLetters, NumberUnit};
use std::str;

/// An option, and what stands behind it.
#[derive(Clone, Copy)]
pub(crate) struct Piece<'a> {
    /// The place of the option.
    pub(crate) at: usize,
    pub(crate) word: &'a [u8],
    /// The place behind it.
    pub(crate) next: usize,
    pub(crate) rest: &'a [u8],
}

/// No option stands here.
#[tactic(auto, unfolding(crate::specs::Options::ended))]
pub(crate) fn ended<'a>(
    at: usize,
    options: &[u8],
    draft: Draft<'a>,
) -> Result<Draft<'a>, SkeletonFault>
    ensures { drafted result ≡ ended at options.now (draft_data draft.entry) }
{
    if options.is_empty() {
        return Ok(draft);
    }
    Err(SkeletonFault {
        kind: FaultKind::NoOptionHere,
        byte: at,
    })
}

/// The option behind a slash.
#[tactic(auto, unfolding(crate::specs::Options::option_at))]
pub(crate) fn option_at(at: usize, options: &[u8]) -> Result<Piece<'_>, SkeletonFault>
    requires { at + length options.now < 2 ^ 64 }
    ensures found { lent_piece result ≡ option_at at options.now }
    ensures within { IfOk result (λ p. p.next + length p.rest.now < 2 ^ 64) }
{
    if options.is_empty() {
        return Err(SkeletonFault {
            kind: FaultKind::OptionMissing,
            byte: at,
        });
    }
    let rest = behind(options, 1);
    let len = piece_len(rest);
    if len == 0 {
        return Err(SkeletonFault {
            kind: FaultKind::EmptyOption,
            byte: at + 1,
        });
    }
    Ok(Piece {
        at: at + 1,
        word: front(rest, len),
        next: at + 1 + len,
        rest: behind(rest, len),
    })
}

/// A small letter as a capital one.
fn capital(byte: u8) -> u8
    ensures { result ≡ capital byte }
{
    if byte >= b'a' && byte <= b'z' {
        byte - 32
    } else {
        byte
    }
}

fn is_capital(byte: u8) -> bool
    ensures { result ≡ is_capital byte }
{
    byte >= b'A' && byte <= b'Z'
}

/// Three letters.
#[tactic(auto, unfolding(crate::specs::Options::letters_of))]
pub(crate) fn letters_of(word: &[u8]) -> Result<CurrencyLetters, FaultKind>
    ensures { result ≡ letters_of word.now }
{
    let first = capital(byte_at(word, 0));
    let second = capital(byte_at(word, 1));
    let third = capital(byte_at(word, 2));
    if word.len() == 3 && is_capital(first) && is_capital(second) && is_capital(third) {
        return Ok(CurrencyLetters {
            first,
            second,
            third,
        });
    }
    Err(FaultKind::BadOption)
}

/// Whether a word of a name has to begin behind a byte; none where the byte can't stand there.
fn next_begins(byte: u8, begins: bool) -> Option<bool>
    ensures { result ≡ next_begins byte begins }
{
    if is_lower(byte) {
        Some(false)
    } else if byte == b'-' && !begins {
        Some(true)
    } else {
        None
    }
}

/// Whether a word is words of small letters and digits with `-` between them.
fn is_name(word: &[u8]) -> bool
    ensures { result ≡ name_from true word.now }
{
    let mut begins = true;
    for byte in word {
        match next_begins(*byte, begins) {
            Some(next) => begins = next,
            None => return false,
        }
    }
    !begins
}

/// A word of ASCII as text.
fn text_of(word: &[u8]) -> &str
    requires { IsAscii word.now }
    ensures { result.now ≡ word.now }
{
    match str::from_utf8(word) {
        Ok(text) => text,
        Err(_) => unreachable!(),
    }
}

/// The unit of a name.
#[tactic(auto, using(crate::proofs::Ascii::name_ascii), unfolding(crate::specs::Options::unit_of))]
pub(crate) fn unit_of(word: &[u8]) -> Result<NumberUnit<'_>, FaultKind>
    ensures { unit_read result ≡ unit_of word.now }
{
    if word == b"percent".as_slice() {
        return Ok(NumberUnit::Percent);
    }
    if word == b"permille".as_slice() {
        return Ok(NumberUnit::Permille);
    }
    if !is_name(word) {
        return Err(FaultKind::BadOption);
    }
    Ok(NumberUnit::Named(text_of(word)))
}

fn are_lower(word: &[u8]) -> bool
    ensures { result ≡ list_all is_lower word.now }
{
    word.iter().all(|byte| is_lower(*byte))
}

/// The name of a numbering system.
#[tactic(auto, using(crate::proofs::Ascii::lower_ascii), unfolding(crate::specs::Options::system_of))]
pub(crate) fn system_of(word: &[u8]) -> Result<&str, FaultKind>
    ensures { name_read result ≡ system_of word.now }
{
    if word.len() >= 3 && word.len() <= 8 && are_lower(word) {
        return Ok(text_of(word));
    }
    Err(FaultKind::BadOption)
}

/// The count of zeros behind a wild byte.
#[tactic(auto, unfolding(crate::specs::Options::integer_digits_of))]
pub(crate) fn integer_digits_of(word: &[u8]) -> Result<u16, FaultKind>
    ensures { result ≡ integer_digits_of word.now }
{
    if !is_wild(byte_at(word, 0)) {
        let zeros = behind(word, run_len(b'#', word));
        if run_len(b'0', zeros) < zeros.len() {
            return Err(FaultKind::BadOption);
        }
        return Err(FaultKind::LeftOut(Thing::IntegerCutOff));
    }
    let zeros = behind(word, 1);
    if zeros.is_empty() {
        return Err(FaultKind::LeftOut(Thing::NoIntegerDigit));
    }
    if run_len(b'0', zeros) < zeros.len() {
        return Err(FaultKind::BadOption);
    }
    if zeros.len() > 999 {
        return Err(FaultKind::TooManyDigits);
    }
    Ok(zeros.len() as u16)
}
