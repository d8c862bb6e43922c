//! Tables as a provider.

ghost use Rattle.std.specs.Prelude.{◌≡◌, [], IfErr, IfOk, None, Ok, Some};
ghost use Rattle.icu_provider.specs.Answer.{Answers};
ghost use Rattle.icu_provider.specs.declared.error.DataErrorKind.TheVariants.{IdentifierNotFound, MarkerNotFound};

use crate::digits::first_digits;
use crate::tables::Tables;
use icu_decimal_data::{
    CompactPatterns, DecimalCompactLongV1, DecimalCompactShortV1, DecimalDigitsV1, DecimalSymbolsV1,
};
use icu_decimal_symbols::DecimalSymbols;
use icu_pattern::SinglePlaceholder;
use icu_plurals::{PluralRules, PluralsCardinalV1, PluralsOrdinalV1};
use icu_provider::{DataError, DataErrorKind, DataProvider, DataRequest};
use icu_table_entries::named::first_filed;
use std::alloc::Global;

/// What a provider answers with a copy of its data.
pub fn answered<T, E: Drop>(copied: Result<T, E>) -> Result<T, DataError>
    ensures { (held : T) → IfOk copied (λ c. c ≡ held) → Answers result (Ok held) }
{
    match copied {
        Ok(copy) => Ok(copy),
        Err(_) => Err(DataErrorKind::OutOfMemory.into()),
    }
}

/// The data under a key of the document, which may be absent.
pub fn present<T>(under_key: &Option<T>) -> Result<&T, DataError>
    ensures value { IfOk result (λ x. under_key.now ≡ Some x.now) }
    ensures absent { IfErr result (λ e. (under_key.now ≡ None) × (e.kind ≡ MarkerNotFound)
        × (e.context.now ≡ [])) }
{
    match under_key {
        Some(data) => Ok(data),
        None => Err(DataErrorKind::MarkerNotFound.into()),
    }
}

/// What a search for an identifier came to.
pub fn found<T>(searched: Option<T>) -> Result<T, DataError>
    ensures value { IfOk result (λ x. searched ≡ Some x) }
    ensures absent { IfErr result (λ e. (searched ≡ None) × (e.kind ≡ IdentifierNotFound)
        × (e.context.now ≡ [])) }
{
    match searched {
        Some(data) => Ok(data),
        None => Err(DataErrorKind::IdentifierNotFound.into()),
    }
}

impl DataProvider<DecimalSymbolsV1> for Tables {
    ghost use Rattle.icu_table_entries.specs.Answering.{filed_answer};

    ghost answer = { λ tables id. filed_answer tables.symbols id };

    /// A copy of the first entry of `symbols` with the identifier's locale and numbering system, or
    /// none.
    // promise: Symbols are those of the first entry that matches.
    // mutations: another_entry_answers
    fn load(&self, alloc: Global, request: &DataRequest<'_>) -> Result<DecimalSymbols, DataError> {
        let symbols = found(first_filed(&self.symbols, &request.id))?;
        answered(symbols.copy(alloc))
    }
}

impl DataProvider<DecimalDigitsV1> for Tables {
    ghost use Rattle.icu_tables.specs.Digits.{system_answer};

    ghost answer = { λ tables id. system_answer tables.digits id.system };

    /// The digits of the first pair with the identifier's numbering system; its locale is ignored.
    fn load(&self, _alloc: Global, request: &DataRequest<'_>) -> Result<[char; 10], DataError> {
        let digits = match request.id.system() {
            Some(system) => first_digits(&self.digits, system),
            None => None,
        };
        found(digits)
    }
}

impl DataProvider<PluralsCardinalV1> for Tables {
    ghost use Rattle.icu_table_entries.specs.Answering.{optional_answer};

    ghost answer = { λ tables id. optional_answer tables.rules id };

    /// A copy of the first entry of `rules` with the identifier's locale; none for an identifier
    /// with a numbering system.
    fn load(&self, alloc: Global, request: &DataRequest<'_>) -> Result<PluralRules, DataError> {
        let entries = present(&self.rules)?;
        let rules = found(first_filed(entries, &request.id))?;
        answered(rules.copy(alloc))
    }
}

impl DataProvider<PluralsOrdinalV1> for Tables {
    ghost use Rattle.icu_table_entries.specs.Answering.{optional_answer};

    ghost answer = { λ tables id. optional_answer tables.ordinals id };

    /// A copy of the first entry of `ordinals` with the identifier's locale; none for an identifier
    /// with a numbering system.
    // promise: Ordinal rules are those under their own key.
    // mutations: ordinals_answered_by_cardinal_rules
    fn load(&self, alloc: Global, request: &DataRequest<'_>) -> Result<PluralRules, DataError> {
        let entries = present(&self.ordinals)?;
        let rules = found(first_filed(entries, &request.id))?;
        answered(rules.copy(alloc))
    }
}

impl DataProvider<DecimalCompactShortV1> for Tables {
    ghost use Rattle.icu_table_entries.specs.Answering.{optional_answer};

    ghost answer = { λ tables id. optional_answer tables.short id };

    /// A copy of the first entry of `short` with the identifier's locale and numbering system, or
    /// none.
    // promise: Without the key each identifier gets `MarkerNotFound`.
    // mutations: absent_key_told_as_no_entry, short_answered_by_long
    fn load(
        &self,
        alloc: Global,
        request: &DataRequest<'_>,
    ) -> Result<CompactPatterns<SinglePlaceholder>, DataError> {
        let entries = present(&self.short)?;
        let patterns = found(first_filed(entries, &request.id))?;
        answered(patterns.copy(alloc))
    }
}

impl DataProvider<DecimalCompactLongV1> for Tables {
    ghost use Rattle.icu_table_entries.specs.Answering.{optional_answer};

    ghost answer = { λ tables id. optional_answer tables.long id };

    /// A copy of the first entry of `long` with the identifier's locale and numbering system, or
    /// none.
    fn load(
        &self,
        alloc: Global,
        request: &DataRequest<'_>,
    ) -> Result<CompactPatterns<SinglePlaceholder>, DataError> {
        let entries = present(&self.long)?;
        let patterns = found(first_filed(entries, &request.id))?;
        answered(patterns.copy(alloc))
    }
}
