//! Symbols with the sizes of digit groups.

ghost use Rattle.std.specs.Prelude.{◌≡◌, IfOk, IsOkUnless};
ghost use Rattle.icu_provider.specs.NumberingSystem.{IsNumberingSystem};
ghost use Rattle.icu_decimal_symbols.specs.declared.error.SymbolsError.TheVariants.{OutOfMemory};

use crate::error::SymbolsError;
use crate::grouping_sizes::GroupingSizes;
use crate::symbols::{DecimalSymbolStrsBuilder, DecimalSymbolsStrs};
use std::alloc::Global;

/// What a locale says about plain numbers, except their digits.
#[derive(Drop)]
pub struct DecimalSymbols {
    /// The seven texts.
    pub strings: DecimalSymbolsStrs,
    /// The sizes of digit groups.
    pub grouping_sizes: GroupingSizes,
}

impl DecimalSymbols {
    ghost use Rattle.icu_decimal_symbols.specs.DecimalSymbols.{english_symbols};

    /// English symbols, for tests and examples.
    #[tactic(auto, unfolding(icu_provider::specs::NumberingSystem::is_numbering_system))]
    pub fn new_en_for_testing(alloc: Global) -> Result<Self, SymbolsError>
        ensures english { IfOk result (λ symbols. symbols ≡ english_symbols) }
        ensures memory { IsOkUnless result OutOfMemory }
    {
        let builder = DecimalSymbolStrsBuilder {
            minus_sign_prefix: "-",
            minus_sign_suffix: "",
            plus_sign_prefix: "+",
            plus_sign_suffix: "",
            decimal_separator: ".",
            grouping_separator: ",",
            numsys: "latn",
        };
        let grouping_sizes = GroupingSizes {
            primary: 3,
            secondary: 3,
            min_grouping: 1,
        };
        Ok(DecimalSymbols {
            strings: builder.build(alloc)?,
            grouping_sizes,
        })
    }

    /// A copy of the symbols, with its own memory.
    pub fn copy(&self, alloc: Global) -> Result<Self, SymbolsError>
        ensures copied { IfOk result (λ symbols. symbols ≡ self.now) }
        ensures memory { IsOkUnless result OutOfMemory }
    {
        Ok(DecimalSymbols {
            strings: self.strings.copy(alloc)?,
            grouping_sizes: self.grouping_sizes,
        })
    }

    /// What stands before a negative number.
    pub fn minus_sign_prefix(&self) -> &str
        ensures { result.now ≡ self.now.strings.minus_sign_prefix }
    {
        self.strings.minus_sign_prefix()
    }

    /// What stands after a negative number.
    pub fn minus_sign_suffix(&self) -> &str
        ensures { result.now ≡ self.now.strings.minus_sign_suffix }
    {
        self.strings.minus_sign_suffix()
    }

    /// What stands before a number that is marked as positive.
    pub fn plus_sign_prefix(&self) -> &str
        ensures { result.now ≡ self.now.strings.plus_sign_prefix }
    {
        self.strings.plus_sign_prefix()
    }

    /// What stands after a number that is marked as positive.
    pub fn plus_sign_suffix(&self) -> &str
        ensures { result.now ≡ self.now.strings.plus_sign_suffix }
    {
        self.strings.plus_sign_suffix()
    }

    /// What stands between the integer and the fraction.
    pub fn decimal_separator(&self) -> &str
        ensures { result.now ≡ self.now.strings.decimal_separator }
    {
        self.strings.decimal_separator()
    }

    /// What stands between groups of integer digits.
    pub fn grouping_separator(&self) -> &str
        ensures { result.now ≡ self.now.strings.grouping_separator }
    {
        self.strings.grouping_separator()
    }

    /// The numbering system whose digits are used unless another is asked for.
    pub fn numsys(&self) -> &str
        ensures text { result.now ≡ self.now.strings.numsys }
        ensures valid { IsNumberingSystem result.now }
    {
        self.strings.numsys()
    }
}

impl PartialEq for DecimalSymbols {
    ghost use Rattle.std.specs.Prelude.{◌≡◌, ◌↔◌, IsTrue};
    ghost use Rattle.std.specs.Cmp.{partial_equiv_from_equiv};
    ghost use Rattle.icu_decimal_symbols.specs.DecimalSymbols.{same_symbols, same_symbols_laws};

    ghost eq = { same_symbols };

    ghost laws = { partial_equiv_from_equiv same_symbols_laws };

    fn eq(&self, other: &Self) -> bool
        ensures computed { result ≡ same_symbols self.now other.now }
        ensures same { IsTrue result ↔ (self.now ≡ other.now) }
    {
        self.strings == other.strings && self.grouping_sizes == other.grouping_sizes
    }
}
