//! Symbols as one byte string: seven lengths, a byte each, then the seven texts.

ghost use Rattle.std.specs.Prelude.{◌≡◌, ℕ, ◌+◌, ◌<◌, ◌≤◌, ◌++◌, length, map, sum_by, slice_range, All, IsTrue, IfOk, IfSome, IsNone, vec_capacity};
ghost use Rattle.std.specs.List.{concat};
ghost use Rattle.std.specs.Str.{is_utf8};
ghost use Rattle.icu_decimal_symbols.specs.SymbolBytes.{packed, text_start, text_at, IsSymbolBytes};

use std::alloc::{AllocError, Global};
use std::str;

/// How many texts symbols have.
pub(crate) const COUNT: usize = 7;

/// The longest that the seven texts may be together, in bytes.
pub(crate) const MAX_LEN: usize = 255;

/// The length of the texts together, if it is at most 255 bytes. Larger sums aren't computed, since
/// they could exceed `usize::MAX`.
pub(crate) fn short_len(texts: &[&str]) -> Option<usize>
    ensures some { IfSome result (λ len. (len ≡ sum_by (λ t. length t.now) texts.now)
        × (len ≤ MAX_LEN)) }
    ensures none { IsNone result → MAX_LEN < sum_by (λ t. length t.now) texts.now }
{
    let mut len = 0;
    for text in texts {
        if text.len() > MAX_LEN - len {
            return None;
        }
        len += text.len();
    }
    Some(len)
}

/// The lengths of texts, in a list with room for this many bytes.
fn lengths(alloc: Global, texts: &[&str], capacity: usize) -> Result<Vec<u8>, AllocError>
    requires { sum_by (λ t. length t.now) texts.now ≤ MAX_LEN }
    ensures items { IfOk result (λ v. v.items ≡ map length (map (λ t. t.now) texts.now)) }
    ensures room { IfOk result (λ v. capacity ≤ vec_capacity v) }
{
    let mut bytes = Vec::with_capacity(alloc, capacity)?;
    for text in texts {
        bytes.push(text.len() as u8)?;
    }
    Ok(bytes)
}

/// Bytes with texts behind them.
fn with_texts(bytes: Vec<u8>, texts: &[&str]) -> Result<Vec<u8>, AllocError>
    ensures items { IfOk result (λ v. v.items ≡ bytes.items
        ++ concat (map (λ t. t.now) texts.now)) }
    ensures texts { IfOk result (λ _. All (λ t. IsTrue (is_utf8 t.now)) texts.now) }
{
    let mut all = bytes;
    for text in texts {
        all.extend_from_slice(text.as_bytes())?;
    }
    Ok(all)
}

/// The byte string of seven texts that are this long together, in one allocation.
pub(crate) fn pack(alloc: Global, texts: &[&str], len: usize) -> Result<Vec<u8>, AllocError>
    requires len { len ≡ sum_by (λ t. length t.now) texts.now }
    requires short { len ≤ MAX_LEN }
    ensures items { IfOk result (λ v. v.items ≡ packed (map (λ t. t.now) texts.now)) }
    ensures texts { IfOk result (λ _. All (λ t. IsTrue (is_utf8 t.now)) texts.now) }
{
    let bytes = lengths(alloc, texts, COUNT + len)?;
    with_texts(bytes, texts)
}

/// Where the text at an index begins.
pub(crate) fn start_of(bytes: &[u8], index: usize) -> usize
    requires inside { index ≤ length bytes.now }
    requires few { index ≤ COUNT }
    ensures { result ≡ text_start bytes.now index }
{
    let mut start = COUNT;
    for i in 0..index {
        start += bytes[i] as usize;
    }
    start
}

/// Where the text of symbols at an index begins and ends.
fn range_of(bytes: &[u8], index: usize) -> (usize, usize)
    requires symbols { IsSymbolBytes bytes.now }
    requires inside { index < COUNT }
    ensures start { result.0 ≡ text_start bytes.now index }
    ensures end { result.1 ≡ text_start bytes.now (index + 1) }
    ensures within { (result.0 ≤ result.1) × (result.1 ≤ length bytes.now) }
    ensures is_text { IsTrue (is_utf8 (slice_range bytes.now result.0 result.1)) }
{
    let start = start_of(bytes, index);
    (start, start + bytes[index] as usize)
}

/// The text of symbols at an index, a part of their bytes. It isn't checked again to be UTF-8,
/// which would cost time for every number that is formatted: that it is UTF-8 is proved from
/// `symbols`.
#[tactic(auto, using(crate::proofs::SymbolReading::reading))]
pub(crate) fn text(bytes: &[u8], index: usize) -> &str
    requires symbols { IsSymbolBytes bytes.now }
    requires inside { index < COUNT }
    ensures { result.now ≡ text_at bytes.now index }
{
    let (start, end) = range_of(bytes, index);
    unsafe { str::from_utf8_unchecked(&bytes[start..end]) }
}
