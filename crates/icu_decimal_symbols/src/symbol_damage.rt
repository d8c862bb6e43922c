//! Whether bytes are those of symbols, by five tests in order, or the byte of the first that fails.

ghost use Rattle.std.specs.Prelude.{◌≡◌, ℕ, ◌+◌, ◌≤◌, length, take, IsTrue, MatchResult, None, Some};
ghost use Rattle.std.specs.Str.{is_utf8};
ghost use Rattle.icu_provider.specs.NumberingSystem.{is_numbering_system};
ghost use Rattle.icu_decimal_symbols.specs.SymbolBytes.{text_start, first_passing, first_no_text, wrong_system, first_damage};

use crate::error::Damaged;
use crate::symbol_bytes::{COUNT, MAX_LEN, start_of};
use icu_provider::NumberingSystem;
use std::str;

/// Whether bytes are a text.
#[tactic(auto, using(crate::proofs::SymbolReading::reading))]
fn is_text(bytes: &[u8]) -> bool
    ensures { result ≡ is_utf8 bytes.now }
{
    str::from_utf8(bytes).is_ok()
}

/// Whether a text names a numbering system.
#[tactic(auto, using(crate::proofs::SymbolReading::reading))]
fn names_system(bytes: &[u8]) -> bool
    requires { IsTrue (is_utf8 bytes.now) }
    ensures { result ≡ is_numbering_system bytes.now }
{
    match str::from_utf8(bytes) {
        Ok(text) => NumberingSystem::try_from_str(text).is_ok(),
        Err(_) => unreachable!(),
    }
}

/// Where the last text ends by the lengths, or the first length with which their sum exceeds 255.
fn end_of(bytes: &[u8]) -> Result<usize, Damaged>
    requires { 7 ≤ length bytes.now }
    ensures { MatchResult
        result
        (λ end. (first_passing 0 0 (take 7 bytes.now) ≡ None) × (end ≡ text_start bytes.now 7))
        (λ e. first_passing 0 0 (take 7 bytes.now) ≡ Some e.byte) }
{
    let mut total = 0;
    for i in 0..COUNT {
        total += bytes[i] as usize;
        if total > MAX_LEN {
            return Err(Damaged { byte: i });
        }
    }
    Ok(COUNT + total)
}

/// Checks that each text is UTF-8; else reports where the first that isn't begins.
#[tactic(auto, using(crate::proofs::SymbolReading::reading))]
fn check_texts(bytes: &[u8]) -> Result<(), Damaged>
    requires counted { 7 ≤ length bytes.now }
    requires whole { length bytes.now ≡ text_start bytes.now 7 }
    ensures { MatchResult
        result
        (λ _. first_no_text bytes.now 0 7 ≡ None)
        (λ e. first_no_text bytes.now 0 7 ≡ Some e.byte) }
{
    let mut start = COUNT;
    for index in 0..COUNT {
        let end = start + bytes[index] as usize;
        if !is_text(&bytes[start..end]) {
            return Err(Damaged { byte: start });
        }
        start = end;
    }
    Ok(())
}

/// Checks that the last text names a numbering system; else reports where it begins.
fn check_system(bytes: &[u8]) -> Result<(), Damaged>
    requires counted { 7 ≤ length bytes.now }
    requires whole { length bytes.now ≡ text_start bytes.now 7 }
    requires texts { first_no_text bytes.now 0 7 ≡ None }
    ensures { MatchResult
        result
        (λ _. wrong_system bytes.now ≡ None)
        (λ e. wrong_system bytes.now ≡ Some e.byte) }
{
    let system = start_of(bytes, COUNT - 1);
    if !names_system(&bytes[system..]) {
        return Err(Damaged { byte: system });
    }
    Ok(())
}

/// Checks that the bytes are those of symbols; else reports the byte of the first test that fails.
#[tactic(auto, unfolding(crate::specs::SymbolBytes::first_damage))]
pub(crate) fn check(bytes: &[u8]) -> Result<(), Damaged>
    ensures { MatchResult
        result
        (λ _. first_damage bytes.now ≡ None)
        (λ e. first_damage bytes.now ≡ Some e.byte) }
{
    if bytes.len() < COUNT {
        return Err(Damaged { byte: bytes.len() });
    }
    let end = end_of(bytes)?;
    if bytes.len() != end {
        return Err(Damaged {
            byte: bytes.len().min(end),
        });
    }
    check_texts(bytes)?;
    check_system(bytes)
}
