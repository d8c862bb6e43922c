//! Pieces of a word.

ghost use Rattle.std.specs.Prelude.{◌≡◌, ◌≤◌, length, take, drop, get_or};
ghost use Rattle.std.specs.List.{prefix_len, list_all};
ghost use Rattle.number_skeleton.specs.Bytes.{is_byte, is_wild, is_digit, is_lower, is_inner, run_len, piece_len};

/// The first bytes of a word, at most that many.
pub(crate) fn front(word: &[u8], count: usize) -> &[u8]
    ensures { result.now ≡ take count word.now }
{
    word.split_at(word.len().min(count)).0
}

/// What stands behind the first bytes of a word.
pub(crate) fn behind(word: &[u8], count: usize) -> &[u8]
    ensures { result.now ≡ drop count word.now }
{
    word.split_at(word.len().min(count)).1
}

/// A byte of a word, or zero behind its end.
pub(crate) fn byte_at(word: &[u8], index: usize) -> u8
    ensures { result ≡ get_or word.now index 0 }
{
    if index < word.len() { word[index] } else { 0 }
}

/// `+` or `*`, either of which stands for more digits.
pub(crate) fn is_wild(byte: u8) -> bool
    ensures { result ≡ is_wild byte }
{
    byte == b'+' || byte == b'*'
}

/// A decimal digit.
pub(crate) fn is_digit(byte: u8) -> bool
    ensures { result ≡ is_digit byte }
{
    byte >= b'0' && byte <= b'9'
}

/// A small letter or a digit.
pub(crate) fn is_lower(byte: u8) -> bool
    ensures { result ≡ is_lower byte }
{
    (byte >= b'a' && byte <= b'z') || is_digit(byte)
}

fn is_inner(byte: u8) -> bool
    ensures { result ≡ is_inner byte }
{
    byte != b'/'
}

fn is_byte(byte: u8, other: u8) -> bool
    ensures { result ≡ is_byte byte other }
{
    other == byte
}

/// How often a byte stands at the front of a word.
#[tactic(auto, using(crate::proofs::Runs::run_within), unfolding(crate::specs::Bytes::run_len))]
pub(crate) fn run_len(byte: u8, word: &[u8]) -> usize
    ensures same { result ≡ run_len byte word.now }
    ensures within { result ≤ length word.now }
{
    word.iter()
        .take_while(|other| is_byte(byte, **other))
        .count()
}

/// How many digits stand at the front of a word.
pub(crate) fn digits_len(word: &[u8]) -> usize
    ensures { result ≡ prefix_len is_digit word.now }
{
    word.iter().take_while(|byte| is_digit(**byte)).count()
}

/// How many bytes stand before the first slash.
#[tactic(auto, using(crate::proofs::Runs::piece_within), unfolding(crate::specs::Bytes::piece_len))]
pub(crate) fn piece_len(text: &[u8]) -> usize
    ensures same { result ≡ piece_len text.now }
    ensures within { result ≤ length text.now }
{
    text.iter().take_while(|byte| is_inner(**byte)).count()
}
