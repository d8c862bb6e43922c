//! The tokens of a condition.
ghost use Rattle.std.specs.Prelude.{◌≡◌, ◌<◌, ◌≤◌, ◌+◌, ℕ, ◌∷◌, [], length, drop, take, slice_index, IfSome, IfNone, false, true, IsTrue};
ghost use Rattle.std.specs.Prelude.{MatchOption, nat_le, map};
ghost use Rattle.std.specs.List.{prefix_len, list_all};
ghost use Rattle.icu_plurals_conditions.specs.Tokens.{is_read, is_letter, is_digit, is_space, letter_token, word_token, number_token, sign_token};
ghost use Rattle.icu_plurals_conditions.specs.Tokens.{decimal_from, part_of};
ghost use Rattle.icu_plurals_conditions.specs.Lexer.{has_front, IsFront, IsFirstToken};

use crate::condition::Operand;

/// The greatest number of digits of a value.
const MAX_DIGITS: usize = 18;

/// The kind of a token. An unknown token is never allowed.
#[derive(Clone, Copy, PartialEq, Eq)]
pub(crate) enum Token {
    Letter(Operand),
    And,
    Or,
    Number(u64),
    Percent,
    Equals,
    NotEquals,
    Comma,
    Dots,
    Unknown,
}

/// A token of a text, from the byte offset `start` to `end`.
#[derive(Clone, Copy)]
pub(crate) struct Found {
    pub(crate) start: usize,
    pub(crate) token: Token,
    pub(crate) end: usize,
}

/// A token at the front of a text, and its length in bytes.
#[derive(Clone, Copy)]
struct Front {
    token: Token,
    len: usize,
}

fn is_read_byte(byte: u8) -> bool
    ensures { result ≡ is_read byte }
{
    byte != b'@'
}

/// The number of bytes before the samples.
fn read_len(text: &[u8]) -> usize
    ensures { result ≡ prefix_len is_read text.now }
{
    text.iter().take_while(|byte| is_read_byte(**byte)).count()
}

/// The part of a text that is read: its bytes before the first `@`.
pub(crate) fn part(text: &str) -> &[u8]
    ensures { result.now ≡ part_of text.now }
{
    let bytes = text.as_bytes();
    bytes.split_at(read_len(bytes)).0
}

fn is_letter_byte(byte: u8) -> bool
    ensures { result ≡ is_letter byte }
{
    byte.is_ascii_lowercase()
}

fn is_digit_byte(byte: u8) -> bool
    ensures { result ≡ is_digit byte }
{
    byte.is_ascii_digit()
}

fn is_space_byte(byte: u8) -> bool
    ensures { result ≡ is_space byte }
{
    byte == b' ' || byte == b'\t'
}

/// The number of letters that the text begins with.
fn letters(text: &[u8]) -> usize
    ensures { result ≡ prefix_len is_letter text.now }
{
    text.iter()
        .take_while(|byte| is_letter_byte(**byte))
        .count()
}

/// The number of digits that the text begins with.
fn digits(text: &[u8]) -> usize
    ensures { result ≡ prefix_len is_digit text.now }
{
    text.iter().take_while(|byte| is_digit_byte(**byte)).count()
}

/// The number of spaces and tabs that the text begins with.
fn spaces(text: &[u8]) -> usize
    ensures { result ≡ prefix_len is_space text.now }
{
    text.iter().take_while(|byte| is_space_byte(**byte)).count()
}

fn operand_of(letter: u8) -> Token
    ensures { result ≡ letter_token letter }
{
    match letter {
        b'n' => Token::Letter(Operand::N),
        b'i' => Token::Letter(Operand::I),
        b'v' => Token::Letter(Operand::V),
        b'w' => Token::Letter(Operand::W),
        b'f' => Token::Letter(Operand::F),
        b't' => Token::Letter(Operand::T),
        b'c' => Token::Letter(Operand::C),
        b'e' => Token::Letter(Operand::E),
        _ => Token::Unknown,
    }
}

fn word(text: &[u8]) -> Token
    ensures { result ≡ word_token text.now }
{
    if text == b"and".as_slice() {
        return Token::And;
    }
    if text == b"or".as_slice() {
        return Token::Or;
    }
    match text {
        [letter] => operand_of(*letter),
        _ => Token::Unknown,
    }
}

/// The number that at most eighteen digits spell.
fn value(digits: &[u8]) -> u64
    requires digits { IsTrue (list_all is_digit digits.now) }
    requires short { length digits.now ≤ 18 }
    ensures { result ≡ decimal_from 0 digits.now }
{
    let mut value = 0;
    for digit in digits {
        value = value * 10 + u64::from(*digit - b'0');
    }
    value
}

fn number(digits: &[u8]) -> Token
    requires { IsTrue (list_all is_digit digits.now) }
    ensures { result ≡ number_token digits.now }
{
    if digits.len() <= MAX_DIGITS {
        Token::Number(value(digits))
    } else {
        Token::Unknown
    }
}

fn sign(byte: u8) -> Token
    ensures { result ≡ sign_token byte }
{
    match byte {
        b'%' => Token::Percent,
        b'=' => Token::Equals,
        b',' => Token::Comma,
        _ => Token::Unknown,
    }
}

/// Whether the text begins with these two bytes.
fn begins_with(text: &[u8], first: u8, second: u8) -> bool
    ensures { result ≡ has_front first second text.now }
{
    match text {
        [one, two, ..] => *one == first && *two == second,
        _ => false,
    }
}

/// The token at the front of a text that begins with neither a space nor a letter nor a digit.
fn sign_front(text: &[u8]) -> Front
    requires begun { 0 < length text.now }
    requires space { is_space (slice_index text.now 0) ≡ false }
    requires letter { is_letter (slice_index text.now 0) ≡ false }
    requires digit { is_digit (slice_index text.now 0) ≡ false }
    ensures { IsFront text.now result }
{
    if begins_with(text, b'.', b'.') {
        return Front {
            token: Token::Dots,
            len: 2,
        };
    }
    if begins_with(text, b'!', b'=') {
        return Front {
            token: Token::NotEquals,
            len: 2,
        };
    }
    Front {
        token: sign(text[0]),
        len: 1,
    }
}

/// The token at the front of a text that doesn't begin with a space.
fn token_front(text: &[u8]) -> Front
    requires begun { 0 < length text.now }
    requires space { is_space (slice_index text.now 0) ≡ false }
    ensures { IsFront text.now result }
{
    let first = text[0];
    if is_letter_byte(first) {
        let len = letters(text);
        return Front {
            token: word(text.split_at(len).0),
            len,
        };
    }
    if is_digit_byte(first) {
        let len = digits(text);
        return Front {
            token: number(text.split_at(len).0),
            len,
        };
    }
    sign_front(text)
}

/// The first token of a text.
pub(crate) fn first_token(text: &[u8]) -> Option<Found>
    ensures { IsFirstToken text.now result }
{
    let start = spaces(text);
    let rest = text.split_at(start).1;
    if rest.is_empty() {
        return None;
    }
    let front = token_front(rest);
    Some(Found {
        start,
        token: front.token,
        end: start + front.len,
    })
}
