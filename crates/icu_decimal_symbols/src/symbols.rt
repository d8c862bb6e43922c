//! The seven texts of symbols in one byte string, and the builder that makes them.

ghost use Rattle.std.specs.Prelude.{◌≡◌, ℕ, ◌<◌, ◌≤◌, ◌↔◌, IfOk, IsOk, IsErrOf};
ghost use Rattle.icu_provider.specs.NumberingSystem.{IsNumberingSystem};
ghost use Rattle.icu_decimal_symbols.specs.Symbols.{IsSymbolTexts, total_len};
ghost use Rattle.icu_decimal_symbols.specs.SymbolBytes.{symbol_bytes};
ghost use Rattle.icu_decimal_symbols.specs.declared.error.SymbolsError.TheVariants.{TooLarge, BadNumberingSystem};

use crate::error::SymbolsError;
use crate::symbol_bytes::{pack, short_len, text};
use icu_provider::NumberingSystem;
use std::alloc::{AllocError, Global};
use std::marker::Model;

/// The seven texts of which symbols are made.
#[derive(Clone, Debug, PartialEq, Drop)]
pub struct DecimalSymbolStrsBuilder<'data> {
    /// What stands before a negative number, as `-`.
    pub minus_sign_prefix: &'data str,
    /// What stands after a negative number.
    pub minus_sign_suffix: &'data str,
    /// What stands before a number that is marked as positive, as `+`.
    pub plus_sign_prefix: &'data str,
    /// What stands after a number that is marked as positive.
    pub plus_sign_suffix: &'data str,
    /// What stands between the integer and the fraction, as `.`.
    pub decimal_separator: &'data str,
    /// What stands between groups of integer digits, as `,`.
    pub grouping_separator: &'data str,
    /// The numbering system whose digits are used unless another is asked for, as `latn`.
    pub numsys: &'data str,
}

impl<'data> DecimalSymbolStrsBuilder<'data> {
    ghost use Rattle.icu_decimal_symbols.specs.LentTexts.{lent_texts};

    /// Symbols with copies of these texts. Both errors are checked before memory is allocated, so
    /// they are reported even when no memory is left.
    // promise: The symbols have the seven texts that are given.
    // mutations: build_suffix_dropped
    // promise: `TooLarge` comes exactly where they pass 255 bytes together.
    // mutations: build_a_byte_less, build_a_byte_more
    // promise: Else a name that is none is a `BadNumberingSystem`.
    // mutations: build_system_not_judged
    pub fn build(&self, alloc: Global) -> Result<DecimalSymbolsStrs, SymbolsError>
        ensures made { IfOk result (λ symbols. symbols ≡ lent_texts self.now) }
        ensures accepted { IsOk result → IsSymbolTexts (lent_texts self.now) }
        ensures too_large { IsErrOf result TooLarge ↔ (255 < total_len (lent_texts self.now)) }
        ensures bad_numbering_system { IsErrOf result BadNumberingSystem
            ↔ ((total_len (lent_texts self.now) ≤ 255)
            × (¬ IsNumberingSystem (lent_texts self.now).numsys)) }
    {
        let texts = [
            self.minus_sign_prefix,
            self.minus_sign_suffix,
            self.plus_sign_prefix,
            self.plus_sign_suffix,
            self.decimal_separator,
            self.grouping_separator,
            self.numsys,
        ];
        let Some(len) = short_len(&texts) else {
            return Err(SymbolsError::TooLarge);
        };
        if NumberingSystem::try_from_str(self.numsys).is_err() {
            return Err(SymbolsError::BadNumberingSystem);
        }
        let bytes = pack(alloc, &texts, len)?;
        Ok(DecimalSymbolsStrs { bytes })
    }
}

/// The seven texts of symbols: at most 255 bytes together, the last the name of a numbering system.
/// They are held in one byte string.
#[derive(Drop)]
pub struct DecimalSymbolsStrs {
    bytes: Vec<u8>,
}

impl Model for DecimalSymbolsStrs {
    ghost use Rattle.icu_decimal_symbols.specs.Symbols.{SymbolTexts};
    ghost use Rattle.icu_decimal_symbols.specs.SymbolBytes.{texts_in, IsSymbolBytes};

    ghost Value = { SymbolTexts };

    ghost view = { λ s. texts_in s.bytes.items };

    ghost invariant = { λ s. IsSymbolBytes s.bytes.items };
}

impl DecimalSymbolsStrs {
    /// The byte string that holds the seven texts: seven lengths, a byte each, then the texts.
    /// `SymbolsView::parse` reads it. It takes no memory.
    // promise: The bytes are seven lengths and the seven texts.
    // mutations: as_bytes_without_the_lengths
    #[tactic(auto, using(crate::proofs::SymbolDamage::held_bytes))]
    pub fn as_bytes(&self) -> &[u8]
        ensures packed { result.now ≡ symbol_bytes self.now }
        ensures valid { IsSymbolTexts self.now }
    {
        self.bytes.as_slice()
    }

    /// A copy with its own byte string, in one allocation.
    pub(crate) fn copy(&self, alloc: Global) -> Result<Self, AllocError>
        ensures { IfOk result (λ symbols. symbols ≡ self.now) }
    {
        let bytes = Vec::from_slice(alloc, &self.bytes)?;
        Ok(DecimalSymbolsStrs { bytes })
    }

    /// What stands before a negative number.
    pub fn minus_sign_prefix(&self) -> &str
        ensures { result.now ≡ self.now.minus_sign_prefix }
    {
        text(&self.bytes, 0)
    }

    /// What stands after a negative number.
    pub fn minus_sign_suffix(&self) -> &str
        ensures { result.now ≡ self.now.minus_sign_suffix }
    {
        text(&self.bytes, 1)
    }

    /// What stands before a number that is marked as positive.
    pub fn plus_sign_prefix(&self) -> &str
        ensures { result.now ≡ self.now.plus_sign_prefix }
    {
        text(&self.bytes, 2)
    }

    /// What stands after a number that is marked as positive.
    pub fn plus_sign_suffix(&self) -> &str
        ensures { result.now ≡ self.now.plus_sign_suffix }
    {
        text(&self.bytes, 3)
    }

    /// What stands between the integer and the fraction.
    pub fn decimal_separator(&self) -> &str
        ensures { result.now ≡ self.now.decimal_separator }
    {
        text(&self.bytes, 4)
    }

    /// What stands between groups of integer digits.
    pub fn grouping_separator(&self) -> &str
        ensures { result.now ≡ self.now.grouping_separator }
    {
        text(&self.bytes, 5)
    }

    /// The numbering system whose digits are used unless another is asked for.
    pub fn numsys(&self) -> &str
        ensures text { result.now ≡ self.now.numsys }
        ensures valid { IsNumberingSystem result.now }
    {
        text(&self.bytes, 6)
    }
}

impl<'data> From<&'data DecimalSymbolsStrs> for DecimalSymbolStrsBuilder<'data> {
    ghost use Rattle.std.specs.Prelude.{◌≡◌};
    ghost use Rattle.icu_decimal_symbols.specs.LentTexts.{lent_texts};
    ghost use Rattle.icu_decimal_symbols.specs.Symbols.{IsSymbolTexts};

    /// The seven texts, from which symbols can be built.
    ghost from_gives = { λ s b. (lent_texts b ≡ s.now) × IsSymbolTexts s.now };

    fn from(symbols: &'data DecimalSymbolsStrs) -> DecimalSymbolStrsBuilder<'data> {
        let bytes = symbols.bytes.as_slice();
        DecimalSymbolStrsBuilder {
            minus_sign_prefix: text(bytes, 0),
            minus_sign_suffix: text(bytes, 1),
            plus_sign_prefix: text(bytes, 2),
            plus_sign_suffix: text(bytes, 3),
            decimal_separator: text(bytes, 4),
            grouping_separator: text(bytes, 5),
            numsys: text(bytes, 6),
        }
    }
}

impl PartialEq for DecimalSymbolsStrs {
    ghost use Rattle.std.specs.Prelude.{◌≡◌, ◌↔◌, IsTrue};
    ghost use Rattle.std.specs.Cmp.{partial_equiv_from_equiv};
    ghost use Rattle.icu_decimal_symbols.specs.Symbols.{same_texts, same_texts_laws};

    ghost eq = { same_texts };

    ghost laws = { partial_equiv_from_equiv same_texts_laws };

    fn eq(&self, other: &Self) -> bool
        ensures computed { result ≡ same_texts self.now other.now }
        ensures same { IsTrue result ↔ (self.now ≡ other.now) }
    {
        self.bytes == other.bytes
    }
}
