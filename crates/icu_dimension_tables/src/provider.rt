//! All tables of a document as one provider.

use crate::all_tables::AllTables;
use crate::copying::patterns_copy;
use crate::currency_names::names_with_placeholders;
use crate::currency_symbols::row_filed;
use crate::money::{patterns_filed, placeholders_filed};
use crate::percents::{percents_filed, permilles_filed};
use crate::units::{UnitWidth, first_unit};
use icu_decimal_data::{
    CompactPatterns, DecimalCompactLongV1, DecimalCompactShortV1, DecimalDigitsV1, DecimalSymbolsV1,
};
use icu_decimal_symbols::DecimalSymbols;
use icu_dimension::NamePattern;
use icu_dimension::provider::{
    CurrencyCompactShortV1, CurrencyDecimalSymbolsV1, CurrencyDigitsV1, CurrencyNamesV1,
    CurrencyPatterns, CurrencyPatternsV1, CurrencySymbols, CurrencySymbolsV1, PercentPatternsV1,
    PermillePatternsV1, UnitsLongV1, UnitsNarrowV1, UnitsShortV1,
};
use icu_dimension_data::{CompactRows, CurrencyDigits, SignedPatterns};
use icu_pattern::SinglePlaceholder;
use icu_plurals::{PluralElements, PluralRules, PluralsCardinalV1, PluralsOrdinalV1};
use icu_provider::{
    DataError, DataErrorKind, DataIdentifierBorrowed, DataLocale, DataProvider, DataRequest,
};
use icu_table_entries::named::first_filed;
use icu_table_entries::texts::Patterns;
use icu_tables::Tables;
use icu_tables::provider::{answered, found, present};
use std::alloc::Global;

impl DataProvider<DecimalSymbolsV1> for AllTables {
    ghost answer = { λ t. ⟦<Tables as DataProvider<DecimalSymbolsV1>>⟧.answer t.numbers };

    fn load(&self, alloc: Global, request: &DataRequest<'_>) -> Result<DecimalSymbols, DataError> {
        <Tables as DataProvider<DecimalSymbolsV1>>::load(&self.numbers, alloc, request)
    }
}

impl DataProvider<DecimalDigitsV1> for AllTables {
    ghost answer = { λ t. ⟦<Tables as DataProvider<DecimalDigitsV1>>⟧.answer t.numbers };

    fn load(&self, alloc: Global, request: &DataRequest<'_>) -> Result<[char; 10], DataError> {
        <Tables as DataProvider<DecimalDigitsV1>>::load(&self.numbers, alloc, request)
    }
}

impl DataProvider<PluralsCardinalV1> for AllTables {
    ghost answer = { λ t. ⟦<Tables as DataProvider<PluralsCardinalV1>>⟧.answer t.numbers };

    fn load(&self, alloc: Global, request: &DataRequest<'_>) -> Result<PluralRules, DataError> {
        <Tables as DataProvider<PluralsCardinalV1>>::load(&self.numbers, alloc, request)
    }
}

impl DataProvider<PluralsOrdinalV1> for AllTables {
    ghost answer = { λ t. ⟦<Tables as DataProvider<PluralsOrdinalV1>>⟧.answer t.numbers };

    fn load(&self, alloc: Global, request: &DataRequest<'_>) -> Result<PluralRules, DataError> {
        <Tables as DataProvider<PluralsOrdinalV1>>::load(&self.numbers, alloc, request)
    }
}

impl DataProvider<DecimalCompactShortV1> for AllTables {
    ghost answer = { λ t. ⟦<Tables as DataProvider<DecimalCompactShortV1>>⟧.answer t.numbers };

    fn load(
        &self,
        alloc: Global,
        request: &DataRequest<'_>,
    ) -> Result<CompactPatterns<SinglePlaceholder>, DataError> {
        <Tables as DataProvider<DecimalCompactShortV1>>::load(&self.numbers, alloc, request)
    }
}

impl DataProvider<DecimalCompactLongV1> for AllTables {
    ghost answer = { λ t. ⟦<Tables as DataProvider<DecimalCompactLongV1>>⟧.answer t.numbers };

    fn load(
        &self,
        alloc: Global,
        request: &DataRequest<'_>,
    ) -> Result<CompactPatterns<SinglePlaceholder>, DataError> {
        <Tables as DataProvider<DecimalCompactLongV1>>::load(&self.numbers, alloc, request)
    }
}

impl DataProvider<CurrencyDigitsV1> for AllTables {
    ghost use Rattle.icu_dimension_tables.specs.Answering.{digits_answer};

    ghost answer = { λ tables id. digits_answer tables.dimension.digits id };

    /// A copy of the digits of `currency_digits`, for the undetermined locale without a system.
    fn load(&self, alloc: Global, request: &DataRequest<'_>) -> Result<CurrencyDigits, DataError> {
        let digits = present(&self.dimension.digits)?;
        if request.id == DataIdentifierBorrowed::for_locale(&DataLocale::default()) {
            answered(digits.copy(alloc))
        } else {
            Err(DataErrorKind::IdentifierNotFound.into())
        }
    }
}

impl DataProvider<PercentPatternsV1> for AllTables {
    ghost use Rattle.icu_table_entries.specs.Answering.{optional_answer};

    ghost answer = { λ tables id. optional_answer tables.dimension.percents id };

    /// A copy of the first entry of `percents` with the identifier's locale and numbering system,
    /// or none.
    fn load(&self, alloc: Global, request: &DataRequest<'_>) -> Result<SignedPatterns, DataError> {
        let entries = present(&self.dimension.percents)?;
        let patterns = found(percents_filed(entries, &request.id))?;
        answered(patterns.copy(alloc))
    }
}

impl DataProvider<PermillePatternsV1> for AllTables {
    ghost use Rattle.icu_dimension_tables.specs.Answering.{permilles_answer};

    ghost answer = { λ tables id. permilles_answer tables.dimension.permilles id };

    /// A copy of the patterns of permilles of the first entry of `percents` with the identifier's
    /// locale and numbering system, or none, if it has a per mille sign.
    // promise: Permilles are answered from the entry of percents.
    // mutations: permilles_answered_by_percents
    fn load(&self, alloc: Global, request: &DataRequest<'_>) -> Result<SignedPatterns, DataError> {
        let entries = present(&self.dimension.percents)?;
        let patterns = found(permilles_filed(entries, &request.id))?;
        answered(patterns.copy(alloc))
    }
}

impl DataProvider<UnitsLongV1> for AllTables {
    ghost use Rattle.icu_dimension_tables.specs.Answering.{unit_answer};
    ghost use Rattle.icu_dimension_tables.specs.declared.units.UnitWidth.TheVariants.{Long};

    ghost answer = { λ tables id. unit_answer Long tables.dimension.units id };

    /// A copy of the patterns of the first entry of `units` with the width `long`, the identifier's
    /// locale and, as its system, the unit.
    fn load(&self, alloc: Global, request: &DataRequest<'_>) -> Result<Patterns, DataError> {
        let entries = present(&self.dimension.units)?;
        let patterns = found(first_unit(entries, UnitWidth::Long, &request.id))?;
        answered(patterns_copy(alloc, patterns))
    }
}

impl DataProvider<UnitsShortV1> for AllTables {
    ghost use Rattle.icu_dimension_tables.specs.Answering.{unit_answer};
    ghost use Rattle.icu_dimension_tables.specs.declared.units.UnitWidth.TheVariants.{Short};

    ghost answer = { λ tables id. unit_answer Short tables.dimension.units id };

    /// The same with the width `short`.
    fn load(&self, alloc: Global, request: &DataRequest<'_>) -> Result<Patterns, DataError> {
        let entries = present(&self.dimension.units)?;
        let patterns = found(first_unit(entries, UnitWidth::Short, &request.id))?;
        answered(patterns_copy(alloc, patterns))
    }
}

impl DataProvider<UnitsNarrowV1> for AllTables {
    ghost use Rattle.icu_dimension_tables.specs.Answering.{unit_answer};
    ghost use Rattle.icu_dimension_tables.specs.declared.units.UnitWidth.TheVariants.{Narrow};

    ghost answer = { λ tables id. unit_answer Narrow tables.dimension.units id };

    /// The same with the width `narrow`.
    fn load(&self, alloc: Global, request: &DataRequest<'_>) -> Result<Patterns, DataError> {
        let entries = present(&self.dimension.units)?;
        let patterns = found(first_unit(entries, UnitWidth::Narrow, &request.id))?;
        answered(patterns_copy(alloc, patterns))
    }
}

impl DataProvider<CurrencyPatternsV1> for AllTables {
    ghost use Rattle.icu_table_entries.specs.Answering.{optional_answer};

    ghost answer = { λ tables id. optional_answer tables.dimension.currencies id };

    /// A copy of the first entry of `currencies` with the identifier's locale and numbering system,
    /// or none.
    fn load(
        &self,
        alloc: Global,
        request: &DataRequest<'_>,
    ) -> Result<CurrencyPatterns, DataError> {
        let entries = present(&self.dimension.money)?;
        let patterns = found(patterns_filed(entries, &request.id))?;
        answered(patterns.copy(alloc))
    }
}

impl DataProvider<CurrencySymbolsV1> for AllTables {
    ghost use Rattle.icu_dimension_tables.specs.Answering.{symbols_answer};

    ghost answer = { λ tables id. symbols_answer tables.dimension.symbols id };

    /// A copy of the symbols of the first row with the currency's code, the identifier's system, in
    /// the first entry of `currency_symbols` with the identifier's locale.
    fn load(&self, alloc: Global, request: &DataRequest<'_>) -> Result<CurrencySymbols, DataError> {
        let entries = present(&self.dimension.symbols)?;
        let row = found(row_filed(entries, &request.id))?;
        answered(row.symbols.copy(alloc))
    }
}

impl DataProvider<CurrencyNamesV1> for AllTables {
    ghost use Rattle.icu_dimension_tables.specs.Answering.{names_answer};

    ghost answer = { λ tables id.
        names_answer tables.dimension.placeholders tables.dimension.symbols id };

    /// The names of the first row with the currency's code, the identifier's system, in the first
    /// entry of `currency_symbols` with the identifier's locale, in the places that the first entry
    /// of `currencies` with the locale and no numbering system gives them, if it gives any.
    // promise: Names of currencies are answered by locale and code.
    // mutations: names_of_another_code
    fn load(
        &self,
        alloc: Global,
        request: &DataRequest<'_>,
    ) -> Result<PluralElements<NamePattern>, DataError> {
        let money = present(&self.dimension.money)?;
        let currencies = present(&self.dimension.symbols)?;
        match (
            placeholders_filed(money, &request.id),
            row_filed(currencies, &request.id),
        ) {
            (Some(Some(placeholders)), Some(row)) => answered(names_with_placeholders(
                alloc,
                placeholders,
                &row.names,
            )),
            _ => Err(DataErrorKind::IdentifierNotFound.into()),
        }
    }
}

impl DataProvider<CurrencyDecimalSymbolsV1> for AllTables {
    ghost use Rattle.icu_dimension_tables.specs.Answering.{decimals_answer};

    ghost answer = { λ tables id. decimals_answer tables.dimension.decimals id };

    /// A copy of the first entry of `currency_decimals` with the identifier's locale and numbering
    /// system, or none, which also an absent key says.
    fn load(&self, alloc: Global, request: &DataRequest<'_>) -> Result<DecimalSymbols, DataError> {
        let filed = match &self.dimension.decimals {
            Some(entries) => first_filed(entries, &request.id),
            None => None,
        };
        let symbols = found(filed)?;
        answered(symbols.copy(alloc))
    }
}

impl DataProvider<CurrencyCompactShortV1> for AllTables {
    ghost use Rattle.icu_table_entries.specs.Answering.{optional_answer};

    ghost answer = { λ tables id. optional_answer tables.dimension.compact id };

    /// A copy of the first entry of `currency_compact` with the identifier's locale and numbering
    /// system, or none.
    fn load(&self, alloc: Global, request: &DataRequest<'_>) -> Result<CompactRows, DataError> {
        let entries = present(&self.dimension.compact)?;
        let rows = found(first_filed(entries, &request.id))?;
        answered(rows.copy(alloc))
    }
}
