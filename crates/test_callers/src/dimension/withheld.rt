//! Tables of which some kinds of data are kept away.

ghost use Rattle.std.specs.Prelude.{Err, if◌then◌else◌};
ghost use Rattle.icu_provider.specs.Answer.{as_answer};

use icu_decimal::provider::{DecimalDigitsV1, DecimalSymbols, DecimalSymbolsV1};
use icu_dimension::NamePattern;
use icu_dimension::provider::{
    CompactRows, CurrencyCompactShortV1, CurrencyDecimalSymbolsV1, CurrencyNamesV1,
    CurrencyPatterns, CurrencyPatternsV1, CurrencySymbols, CurrencySymbolsV1, PercentPatternsV1,
    UnitsLongV1,
};
use icu_dimension_data::SignedPatterns;
use icu_dimension_tables::AllTables;
use icu_pattern::{Pattern, SinglePlaceholder};
use icu_plurals::{PluralElements, PluralRules, PluralsCardinalV1};
use icu_provider::{DataError, DataErrorKind, DataProvider, DataRequest};
use std::alloc::Global;

/// Which kinds of data are kept away, and with which error.
#[derive(Clone, Copy)]
pub(crate) struct Kept {
    pub(crate) symbols: bool,
    pub(crate) patterns: bool,
    pub(crate) currency: bool,
    pub(crate) compact: bool,
    pub(crate) rules: bool,
    pub(crate) error: DataError,
}

/// Nothing is kept away.
pub(crate) const NOTHING: Kept = Kept {
    symbols: false,
    patterns: false,
    currency: false,
    compact: false,
    rules: false,
    error: DataError {
        kind: DataErrorKind::Custom,
        context: "kept away",
    },
};

/// English numbers, dollars, percents and kilometers.
const ENGLISH: &str = "{\"symbols\":[\
{\"locale\":\"en\",\"minus\":[\"-\",\"\"],\"plus\":[\"+\",\"\"],\"decimal\":\".\",\"group\":\",\",\"numsys\":\"latn\",\"sizes\":[3,3,1]}],\
\"digits\":[[\"latn\",\"0123456789\"]],\
\"rules\":[{\"locale\":\"en\",\"rules\":[[\"one\",\"i = 1 and v = 0\"]]}],\
\"percents\":[{\"locale\":\"en\",\"pattern\":\"#,##0%\",\"minus\":\"-\",\"plus\":\"+\",\"percent\":\"%\"}],\
\"units\":[{\"locale\":\"en\",\"width\":\"long\",\"unit\":\"kilometer\",\"patterns\":{\"other\":\"{0} kilometers\"}}],\
\"currencies\":[{\"locale\":\"en\",\"standard\":\"\u{a4}#,##0.00\",\"accounting\":\"\u{a4}#,##0.00\",\"minus\":\"-\",\"plus\":\"+\",\"names\":{\"other\":\"{0} {1}\"}}],\
\"currency_symbols\":[{\"locale\":\"en\",\"symbols\":[[\"USD\",\"$\",\"$\",{\"other\":\"US dollars\"}]]}],\
\"currency_compact\":[{\"locale\":\"en\",\"patterns\":[[6,6,{\"other\":\"\u{a4}0M\"}]]}]}";

/// The tables of a document, and what of them is kept away.
#[derive(Drop)]
pub(crate) struct Withheld {
    tables: AllTables,
    kept: Kept,
}

impl Withheld {
    /// English tables; none if out of memory.
    pub(crate) fn of(alloc: Global, kept: Kept) -> Option<Withheld> {
        Some(Withheld {
            tables: AllTables::from_json(alloc, ENGLISH).ok()?,
            kept,
        })
    }
}

/// Patterns for plural categories.
type Patterns = PluralElements<Pattern<SinglePlaceholder>>;

/// Names in their places, for plural categories.
type Names = PluralElements<NamePattern>;

impl DataProvider<DecimalSymbolsV1> for Withheld {
    ghost answer = { λ w id. if w.kept.symbols then as_answer (Err w.kept.error)
        else ⟦<AllTables as DataProvider<DecimalSymbolsV1>>⟧.answer w.tables id };

    fn load(&self, alloc: Global, request: &DataRequest<'_>) -> Result<DecimalSymbols, DataError> {
        if self.kept.symbols {
            return Err(self.kept.error);
        }
        <AllTables as DataProvider<DecimalSymbolsV1>>::load(&self.tables, alloc, request)
    }
}

impl DataProvider<DecimalDigitsV1> for Withheld {
    ghost answer = { λ w. ⟦<AllTables as DataProvider<DecimalDigitsV1>>⟧.answer w.tables };

    fn load(&self, alloc: Global, request: &DataRequest<'_>) -> Result<[char; 10], DataError> {
        <AllTables as DataProvider<DecimalDigitsV1>>::load(&self.tables, alloc, request)
    }
}

impl DataProvider<PluralsCardinalV1> for Withheld {
    ghost answer = { λ w id. if w.kept.rules then as_answer (Err w.kept.error)
        else ⟦<AllTables as DataProvider<PluralsCardinalV1>>⟧.answer w.tables id };

    fn load(&self, alloc: Global, request: &DataRequest<'_>) -> Result<PluralRules, DataError> {
        if self.kept.rules {
            return Err(self.kept.error);
        }
        <AllTables as DataProvider<PluralsCardinalV1>>::load(&self.tables, alloc, request)
    }
}

impl DataProvider<PercentPatternsV1> for Withheld {
    ghost answer = { λ w id. if w.kept.patterns then as_answer (Err w.kept.error)
        else ⟦<AllTables as DataProvider<PercentPatternsV1>>⟧.answer w.tables id };

    fn load(&self, alloc: Global, request: &DataRequest<'_>) -> Result<SignedPatterns, DataError> {
        if self.kept.patterns {
            return Err(self.kept.error);
        }
        <AllTables as DataProvider<PercentPatternsV1>>::load(&self.tables, alloc, request)
    }
}

impl DataProvider<UnitsLongV1> for Withheld {
    ghost answer = { λ w. ⟦<AllTables as DataProvider<UnitsLongV1>>⟧.answer w.tables };

    fn load(&self, alloc: Global, request: &DataRequest<'_>) -> Result<Patterns, DataError> {
        <AllTables as DataProvider<UnitsLongV1>>::load(&self.tables, alloc, request)
    }
}

impl DataProvider<CurrencyPatternsV1> for Withheld {
    ghost answer = { λ w id. if w.kept.patterns then as_answer (Err w.kept.error)
        else ⟦<AllTables as DataProvider<CurrencyPatternsV1>>⟧.answer w.tables id };

    fn load(
        &self,
        alloc: Global,
        request: &DataRequest<'_>,
    ) -> Result<CurrencyPatterns, DataError> {
        if self.kept.patterns {
            return Err(self.kept.error);
        }
        <AllTables as DataProvider<CurrencyPatternsV1>>::load(&self.tables, alloc, request)
    }
}

impl DataProvider<CurrencySymbolsV1> for Withheld {
    ghost answer = { λ w id. if w.kept.currency then as_answer (Err w.kept.error)
        else ⟦<AllTables as DataProvider<CurrencySymbolsV1>>⟧.answer w.tables id };

    fn load(&self, alloc: Global, request: &DataRequest<'_>) -> Result<CurrencySymbols, DataError> {
        if self.kept.currency {
            return Err(self.kept.error);
        }
        <AllTables as DataProvider<CurrencySymbolsV1>>::load(&self.tables, alloc, request)
    }
}

impl DataProvider<CurrencyNamesV1> for Withheld {
    ghost answer = { λ w id. if w.kept.currency then as_answer (Err w.kept.error)
        else ⟦<AllTables as DataProvider<CurrencyNamesV1>>⟧.answer w.tables id };

    fn load(&self, alloc: Global, request: &DataRequest<'_>) -> Result<Names, DataError> {
        if self.kept.currency {
            return Err(self.kept.error);
        }
        <AllTables as DataProvider<CurrencyNamesV1>>::load(&self.tables, alloc, request)
    }
}

impl DataProvider<CurrencyDecimalSymbolsV1> for Withheld {
    ghost answer = { λ w.
        ⟦<AllTables as DataProvider<CurrencyDecimalSymbolsV1>>⟧.answer w.tables };

    fn load(&self, alloc: Global, request: &DataRequest<'_>) -> Result<DecimalSymbols, DataError> {
        <AllTables as DataProvider<CurrencyDecimalSymbolsV1>>::load(&self.tables, alloc, request)
    }
}

impl DataProvider<CurrencyCompactShortV1> for Withheld {
    ghost answer = { λ w id. if w.kept.compact then as_answer (Err w.kept.error)
        else ⟦<AllTables as DataProvider<CurrencyCompactShortV1>>⟧.answer w.tables id };

    fn load(&self, alloc: Global, request: &DataRequest<'_>) -> Result<CompactRows, DataError> {
        if self.kept.compact {
            return Err(self.kept.error);
        }
        <AllTables as DataProvider<CurrencyCompactShortV1>>::load(&self.tables, alloc, request)
    }
}
