//! Words in a text.

ghost use Rattle.std.specs.Prelude.{◌≡◌};
ghost use Rattle.icu_message.specs.Words.{is_space, is_digit, is_word, word_in, same_bytes, same_words, is_other, all_digits, all_word};

use crate::piece::Word;
use std::cmp::min;

pub(crate) fn is_space_byte(byte: u8) -> bool
    ensures { result ≡ is_space byte }
{
    byte == b' ' || byte == b'\t' || byte == b'\n' || byte == b'\r'
}

pub(crate) fn is_digit_byte(byte: u8) -> bool
    ensures { result ≡ is_digit byte }
{
    b'0' <= byte && byte <= b'9'
}

pub(crate) fn is_word_byte(byte: u8) -> bool
    ensures { result ≡ is_word byte }
{
    (b'0' <= byte && byte <= b'9')
        || (b'A' <= byte && byte <= b'Z')
        || (b'a' <= byte && byte <= b'z')
        || byte == b'_'
}

pub(crate) fn has_digits_alone(word: &[u8]) -> bool
    ensures { result ≡ all_digits word.now }
{
    for byte in word {
        if !is_digit_byte(*byte) {
            return false;
        }
    }
    true
}

pub(crate) fn has_word_bytes_alone(word: &[u8]) -> bool
    ensures { result ≡ all_word word.now }
{
    for byte in word {
        if !is_word_byte(*byte) {
            return false;
        }
    }
    true
}

impl Word {
    /// The word's bytes in its text.
    pub(crate) fn bytes<'a>(self, text: &'a [u8]) -> &'a [u8]
        ensures { result.now ≡ word_in text.now self }
    {
        let rest = text.split_at(min(self.start, text.len())).1;
        let len = self.end.saturating_sub(self.start);
        rest.split_at(min(len, rest.len())).0
    }

    pub(crate) fn is_other(self, text: &[u8]) -> bool
        ensures { result ≡ is_other text.now self }
    {
        same(self.bytes(text), b"other".as_slice())
    }

    pub(crate) fn is_same(self, text: &[u8], other: Word) -> bool
        ensures { result ≡ same_words text.now self other }
    {
        same(self.bytes(text), other.bytes(text))
    }
}

pub(crate) fn same(one: &[u8], other: &[u8]) -> bool
    ensures { result ≡ same_bytes one.now other.now }
{
    one == other
}
