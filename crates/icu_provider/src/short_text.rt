//! Short texts of at most N bytes, held in place.

ghost use Rattle.std.specs.Prelude.{◌≡◌, ◌≤◌, length};

use std::marker::Model;
use std::str;

/// A text of at most N bytes, in an array that has zeros after it.
#[derive(Clone, Copy, Debug)]
pub(crate) struct ShortText<const N: usize> {
    bytes: [u8; N],
    len: usize,
}

impl<const N: usize> Model for ShortText<N> {
    ghost use Rattle.std.specs.Prelude.{ℕ, ◌-◌, List, ◌++◌, length, take, replicate};
    ghost use Rattle.icu_provider.specs.Padded.{IsPadded, length-text, padded-text};

    ghost Value = { List ℕ };

    ghost view = { λ s. take s.len s.bytes };

    ghost invariant = { λ s. IsPadded N s.bytes s.len };

    ghost inverse = { λ text. record {
      bytes = text ++ replicate (N - length text) 0;
      len = length text;
    } };

    ghost inverse_ok = { λ s h i. record {
      bytes = padded-text N s.bytes s.len h i;
      len = length-text N s.bytes s.len h i;
    } };
}

impl<const N: usize> ShortText<N> {
    /// Holds a copy of a text.
    pub(crate) fn new(text: &str) -> Self
        requires { length text.now ≤ N }
        ensures { result ≡ text.now }
    {
        let len = text.len();
        let mut bytes = [0; N];
        bytes[..len].copy_from_slice(text.as_bytes());
        ShortText { bytes, len }
    }

    /// The text.
    pub(crate) fn as_str(&self) -> &str
        ensures { result.now ≡ self.now }
    {
        match str::from_utf8(&self.bytes[..self.len]) {
            Ok(text) => text,
            Err(_) => unreachable!(),
        }
    }
}
