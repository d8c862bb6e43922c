//! Reading a byte between the arms of a choice: its keys and its end.

ghost use Rattle.std.specs.Prelude.{◌≡◌, ◌≤◌, IfOk};
ghost use Rattle.icu_message.specs.Stepping.{close_choice, key_step, after_key, key_fault, key_read, in_key, value_step, in_value, IsNested};

use crate::error::ParseError;
use crate::keys::{has_any, has_other_key, is_present};
use crate::names::is_key;
use crate::piece::{OpenKey, Piece, Word};
use crate::stepping::{Here, Position, State, Step};
use crate::words::{is_digit_byte, is_space_byte, is_word_byte, same};

impl State {
    /// `}` where a key is due.
    fn close_choice(self, text: &[u8], keys: &[OpenKey], at: usize) -> Result<Step, ParseError>
        requires { self.level ≤ 8 }
        ensures stepped { result ≡ close_choice text.now keys.now self at }
        ensures nested { IfOk result (λ t. IsNested t.state) }
    {
        if has_other_key(text, self.level, keys) {
            let level = self.level.saturating_sub(1);
            return Ok(Step::adds(level, Position::Text, Piece::EndChoice));
        }
        if has_any(self.level, keys) {
            return Err(ParseError::NoOther { byte: at });
        }
        Err(ParseError::Key { byte: at })
    }

    /// A byte where a key is due.
    pub(crate) fn key(self, text: &[u8], keys: &[OpenKey], here: Here) -> Result<Step, ParseError>
        requires { self.level ≤ 8 }
        ensures stepped { result ≡ key_step text.now keys.now self here }
        ensures nested { IfOk result (λ t. IsNested t.state) }
    {
        if is_space_byte(here.byte) {
            return Ok(self.silent(Position::KeyDue));
        }
        if is_word_byte(here.byte) {
            return Ok(self.silent(Position::InKey(here.at)));
        }
        if here.byte == b'}' {
            return self.close_choice(text, keys, here.at);
        }
        if here.byte == b'=' && here.counted.is_some() {
            return Ok(self.silent(Position::ValueDue(here.at)));
        }
        Err(ParseError::Key { byte: here.at })
    }

    /// A byte of a key, or behind it.
    pub(crate) fn in_key(
        self,
        text: &[u8],
        keys: &[OpenKey],
        from: usize,
        here: Here,
    ) -> Result<Step, ParseError>
        requires { self.level ≤ 8 }
        ensures stepped { result ≡ in_key text.now keys.now self from here }
        ensures nested { IfOk result (λ t. IsNested t.state) }
    {
        if is_word_byte(here.byte) {
            return Ok(self.silent(Position::InKey(from)));
        }
        self.key_read(text, keys, from, from, here)
    }

    /// A byte behind `=`.
    pub(crate) fn value(self, from: usize, here: Here) -> Result<Step, ParseError>
        requires { self.level ≤ 8 }
        ensures stepped { result ≡ value_step self from here }
        ensures nested { IfOk result (λ t. IsNested t.state) }
    {
        if is_digit_byte(here.byte) {
            return Ok(self.silent(Position::InValue(from, here.at)));
        }
        Err(ParseError::Key { byte: here.at })
    }

    /// A byte of a value whose first digit's byte is given, or behind it.
    pub(crate) fn in_value(
        self,
        text: &[u8],
        keys: &[OpenKey],
        from: usize,
        digit: usize,
        here: Here,
    ) -> Result<Step, ParseError>
        requires { self.level ≤ 8 }
        ensures stepped { result ≡ in_value text.now keys.now self from digit here }
        ensures nested { IfOk result (λ t. IsNested t.state) }
    {
        if is_digit_byte(here.byte) {
            return Ok(self.silent(Position::InValue(from, digit)));
        }
        self.key_read(text, keys, from, digit, here)
    }

    /// A byte behind a word for a key; the byte of its fault is given.
    fn key_read(
        self,
        text: &[u8],
        keys: &[OpenKey],
        from: usize,
        fault: usize,
        here: Here,
    ) -> Result<Step, ParseError>
        requires { self.level ≤ 8 }
        ensures stepped { result ≡ key_read text.now keys.now self from fault here }
        ensures nested { IfOk result (λ t. IsNested t.state) }
    {
        let key = here.word_from(from);
        if is_key(here.counted.is_some(), key.bytes(text)) {
            return self.after_key(text, keys, key, here);
        }
        Err(key_fault(key.bytes(text), from, fault, here))
    }

    /// A byte behind a key.
    pub(crate) fn after_key(
        self,
        text: &[u8],
        keys: &[OpenKey],
        key: Word,
        here: Here,
    ) -> Result<Step, ParseError>
        requires { self.level ≤ 8 }
        ensures stepped { result ≡ after_key text.now keys.now self key here }
        ensures nested { IfOk result (λ t. IsNested t.state) }
    {
        if is_present(text, self.level, key, keys) {
            return Err(ParseError::Repeated { byte: key.start });
        }
        if here.byte == b'{' {
            return Ok(Step::adds(self.level, Position::Text, Piece::Arm(key)));
        }
        if is_space_byte(here.byte) {
            return Ok(self.silent(Position::AfterKey(key)));
        }
        Err(ParseError::Unexpected { byte: here.at })
    }
}

/// The fault of a word that is no key; `offset:` has one of its own.
fn key_fault(word: &[u8], from: usize, fault: usize, here: Here) -> ParseError
    ensures { result ≡ key_fault word.now from fault here }
{
    if here.byte == b':' && same(word, b"offset".as_slice()) {
        return ParseError::Offset { byte: from };
    }
    ParseError::Key { byte: fault }
}
