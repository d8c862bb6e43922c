//! Symbols in borrowed bytes.

ghost use Rattle.std.specs.Prelude.{◌≡◌, IfOk, IsOkAnd, MatchResult, Some, None};
ghost use Rattle.icu_provider.specs.NumberingSystem.{IsNumberingSystem};
ghost use Rattle.icu_decimal_symbols.specs.Symbols.{SymbolTexts, IsSymbolTexts};
ghost use Rattle.icu_decimal_symbols.specs.SymbolBytes.{IsSymbolBytes, symbol_bytes, first_damage};

use crate::error::Damaged;
use crate::symbol_bytes::text;
use crate::symbol_damage::check;
use std::alloc::AllocError;

/// The seven texts of symbols, in the byte string that `DecimalSymbolsStrs::as_bytes` returns. The
/// texts are borrowed for as long as the bytes are. No call takes memory.
pub struct SymbolsView<'a> {
    bytes: &'a [u8],
    ghost packed: { IsSymbolBytes bytes.now },
}

impl Clone for SymbolsView<'_> {
    ghost use Rattle.std.specs.Prelude.{◌≡◌, ⊤};

    ghost is_clone = { λ s r. r ≡ s };

    ghost is_infallible = { λ _. ⊤ };

    fn clone(&self) -> Result<Self, AllocError> {
        Ok(*self)
    }
}

impl Copy for SymbolsView<'_> {}

impl<'a> SymbolsView<'a> {
    ghost use Rattle.icu_decimal_symbols.specs.ViewedSymbols.{viewed_texts};

    /// The symbols with these bytes.
    ///
    /// There are five tests, in this order, and the first that fails determines the byte of the
    /// error. There have to be at least seven bytes; else it is their number. The lengths have to
    /// be at most 255 together; else it is the offset of the length with which they exceed it. The
    /// lengths have to give the number of bytes; else it is the smaller of the two. Each text has
    /// to be UTF-8, and the last one the name of a numbering system; else it is where the text
    /// begins.
    // promise: Just the bytes of symbols are read, and as these symbols.
    // mutations: parse_a_byte_too_many, parse_system_not_judged
    // promise: Other bytes are rejected by the byte of the first damage.
    // mutations: parse_damage_a_byte_off
    #[tactic(auto, using(crate::proofs::SymbolDamage::damage))]
    pub fn parse(bytes: &'a [u8]) -> Result<Self, Damaged>
        ensures found { IfOk result (λ v. IsSymbolTexts (viewed_texts v)
            × (bytes.now ≡ symbol_bytes (viewed_texts v))) }
        ensures every { (s : SymbolTexts) → IsSymbolTexts s → bytes.now ≡ symbol_bytes s
            → IsOkAnd result (λ v. viewed_texts v ≡ s) }
        ensures damaged { MatchResult result (λ _. first_damage bytes.now ≡ None) (λ e.
            first_damage bytes.now ≡ Some e.byte) }
    {
        check(bytes)?;
        Ok(SymbolsView { bytes })
    }

    /// What stands before a negative number.
    pub fn minus_sign_prefix(&self) -> &'a str
        ensures { result.now ≡ (viewed_texts self.now).minus_sign_prefix }
    {
        text(self.bytes, 0)
    }

    /// What stands after a negative number.
    pub fn minus_sign_suffix(&self) -> &'a str
        ensures { result.now ≡ (viewed_texts self.now).minus_sign_suffix }
    {
        text(self.bytes, 1)
    }

    /// What stands before a number that is marked as positive.
    pub fn plus_sign_prefix(&self) -> &'a str
        ensures { result.now ≡ (viewed_texts self.now).plus_sign_prefix }
    {
        text(self.bytes, 2)
    }

    /// What stands after a number that is marked as positive.
    pub fn plus_sign_suffix(&self) -> &'a str
        ensures { result.now ≡ (viewed_texts self.now).plus_sign_suffix }
    {
        text(self.bytes, 3)
    }

    /// What stands between the integer and the fraction.
    pub fn decimal_separator(&self) -> &'a str
        ensures { result.now ≡ (viewed_texts self.now).decimal_separator }
    {
        text(self.bytes, 4)
    }

    /// What stands between groups of integer digits.
    pub fn grouping_separator(&self) -> &'a str
        ensures { result.now ≡ (viewed_texts self.now).grouping_separator }
    {
        text(self.bytes, 5)
    }

    /// The numbering system whose digits are used unless another is asked for.
    pub fn numsys(&self) -> &'a str
        ensures text { result.now ≡ (viewed_texts self.now).numsys }
        ensures valid { IsNumberingSystem result.now }
    {
        text(self.bytes, 6)
    }
}
