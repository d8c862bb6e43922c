//! Tokens between blanks.
ghost use Rattle.std.specs.Prelude.{◌≡◌, ◌+◌, ◌≤◌, ℕ, length, drop};
ghost use Rattle.number_skeleton.specs.Cuts.{blank_of, blank_len, token_len, tokens_from};

use crate::bytes::{behind, byte_at};

/// The length of the blank that three bytes begin with, or zero.
fn blank_of(a: u8, b: u8, c: u8) -> usize
    ensures { result ≡ blank_of a b c }
{
    if (a >= 9 && a <= 13) || a == 32 {
        1
    } else if a == 194 && b == 133 {
        2
    } else if a == 226 && b == 128 && (c == 142 || c == 143 || c == 168 || c == 169) {
        3
    } else {
        0
    }
}

/// The length of the blank that a text begins with, or zero.
#[tactic(auto, unfolding(crate::specs::Cuts::blank_len))]
fn blank_len(text: &[u8]) -> usize
    ensures { result ≡ blank_len text.now }
{
    blank_of(byte_at(text, 0), byte_at(text, 1), byte_at(text, 2))
}

/// How many bytes stand before the first blank.
pub(crate) fn token_len(text: &[u8]) -> usize
    ensures { result ≡ token_len text.now }
{
    let mut len = 0;
    while len < text.len() && blank_len(behind(text, len)) == 0 {
        len += 1;
    }
    len
}

/// How many bytes of blanks a text begins with.
pub(crate) fn blanks_len(text: &[u8]) -> usize
    ensures within { result ≤ length text.now }
    ensures same { (at : ℕ) →
        tokens_from at 0 text.now ≡ tokens_from (at + result) 0 (drop result text.now) }
    ensures none { blank_len (drop result text.now) ≡ 0 }
{
    let mut len = 0;
    loop {
        let blank = blank_len(behind(text, len));
        if blank == 0 {
            return len;
        }
        len += blank;
    }
}
