//! Formatters that are made of a provider's data.

ghost use Rattle.std.specs.Prelude.{IfOk, map, option_map};
ghost use Rattle.icu_provider.specs.Answer.{Answers};
ghost use Rattle.icu_provider.specs.Identifier.{identifier_of};
ghost use Rattle.icu_decimal_data.specs.CompactTable.{IsCompactTable};
ghost use Rattle.icu_decimal_data.specs.Decided.{decided};
ghost use Rattle.icu_decimal.specs.Loaded.{loaded, loaded_compact};
ghost use Rattle.icu_decimal_options.specs.Preferences.{asked};

use crate::compact_formatter::CompactDecimalFormatter;
use crate::decimal_formatter::DecimalFormatter;
use icu_decimal_data::{
    CompactPatterns, DecimalCompactLongV1, DecimalCompactShortV1, DecimalDigitsV1,
    DecimalSymbolsV1, load_with_fallback,
};
use icu_decimal_options::options::{CompactDecimalFormatterOptions, DecimalFormatterOptions};
use icu_decimal_options::preferences::{
    CompactDecimalFormatterPreferences, DecimalFormatterPreferences,
};
use icu_pattern::SinglePlaceholder;
use icu_plurals::{PluralRules, PluralRulesPreferences, PluralsCardinalV1};
use icu_provider::{DataError, DataIdentifierBorrowed, DataMarker, DataProvider};
use std::alloc::Global;

/// The provider's data for the preferred identifier, if there is one with data, and else for the
/// other.
pub fn load_preferred<M: DataMarker, D: DataProvider<M>>(
    alloc: Global,
    provider: &D,
    preferred: Option<DataIdentifierBorrowed<'_>>,
    other: DataIdentifierBorrowed<'_>,
) -> Result<M::DataStruct, DataError>
    ensures { Answers result
        (decided (map (D.answer provider.now)
        (asked (option_map identifier_of preferred.entry) (identifier_of other.entry)))) }
{
    match preferred {
        Some(preferred) => load_with_fallback::<M, D>(alloc, provider, &[preferred, other]),
        None => load_with_fallback::<M, D>(alloc, provider, &[other]),
    }
}

impl DecimalFormatter {
    /// The formatter of a provider's data.
    ///
    /// The symbols are asked for by the preferred numbering system in the locale, if one is
    /// preferred, and else by the locale. Then the digits are asked for by the preferred system in
    /// the locale, and else by the system that the symbols name, in the undetermined locale. So
    /// where a locale has no symbols for the preferred system, that system's digits stand with the
    /// locale's own symbols. An unknown numbering system is ignored.
    ///
    /// The first error is reported, with its context; `OutOfMemory` also where an allocation
    /// fails.
    // promise: A formatter is composed of the provider's answers.
    // mutations: loading_plain_without_its_options
    pub fn try_new_unstable<D: DataProvider<DecimalSymbolsV1> + DataProvider<DecimalDigitsV1>>(
        alloc: Global,
        provider: &D,
        prefs: DecimalFormatterPreferences,
        options: DecimalFormatterOptions,
    ) -> Result<Self, DataError>
        ensures { Answers result
            (loaded (⟦<D as DataProvider<DecimalSymbolsV1>>⟧.answer provider.now)
            (⟦<D as DataProvider<DecimalDigitsV1>>⟧.answer provider.now)
            prefs options) }
    {
        let locale = &prefs.locale_preferences;
        let preferred = prefs.nu_id(locale);
        let symbols = load_preferred::<DecimalSymbolsV1, D>(
            alloc,
            provider,
            preferred,
            DataIdentifierBorrowed::for_locale(locale),
        )?;
        let digits = load_preferred::<DecimalDigitsV1, D>(
            alloc,
            provider,
            preferred,
            DataIdentifierBorrowed::for_marker_attributes(symbols.numsys()),
        )?;
        Ok(DecimalFormatter::from_parts(symbols, digits, options))
    }
}

impl CompactDecimalFormatter {
    /// The formatter of a provider's data, with the short patterns, as `15K`.
    ///
    /// First the plain formatter is made, as `DecimalFormatter::try_new_unstable` makes it. Then
    /// plural rules are asked for by the locale, and then patterns by the preferred numbering
    /// system in the locale, if one is preferred, and else by the locale. The first error is
    /// reported, with its context; `OutOfMemory` also where an allocation fails.
    // promise: Plain numbers, rules and short patterns make a formatter.
    // mutations: loading_patterns_before_rules
    pub fn try_new_short_unstable<
        D: DataProvider<DecimalCompactShortV1>
            + DataProvider<DecimalSymbolsV1>
            + DataProvider<DecimalDigitsV1>
            + DataProvider<PluralsCardinalV1>,
    >(
        alloc: Global,
        provider: &D,
        prefs: CompactDecimalFormatterPreferences,
        options: CompactDecimalFormatterOptions,
    ) -> Result<Self, DataError>
        ensures answers { Answers result
            (loaded_compact (⟦<D as DataProvider<DecimalSymbolsV1>>⟧.answer provider.now)
            (⟦<D as DataProvider<DecimalDigitsV1>>⟧.answer provider.now)
            (⟦<D as DataProvider<PluralsCardinalV1>>⟧.answer provider.now)
            (⟦<D as DataProvider<DecimalCompactShortV1>>⟧.answer provider.now)
            prefs options) }
        ensures table { IfOk result (λ f. IsCompactTable f.table) }
    {
        load_compact::<DecimalCompactShortV1, D>(alloc, provider, &prefs, options)
    }

    /// The same with the long patterns, as `15 thousand`.
    // promise: Plain numbers, rules and long patterns make a formatter.
    // mutations: loading_long_with_the_short_patterns
    pub fn try_new_long_unstable<
        D: DataProvider<DecimalCompactLongV1>
            + DataProvider<DecimalSymbolsV1>
            + DataProvider<DecimalDigitsV1>
            + DataProvider<PluralsCardinalV1>,
    >(
        alloc: Global,
        provider: &D,
        prefs: CompactDecimalFormatterPreferences,
        options: CompactDecimalFormatterOptions,
    ) -> Result<Self, DataError>
        ensures answers { Answers result
            (loaded_compact (⟦<D as DataProvider<DecimalSymbolsV1>>⟧.answer provider.now)
            (⟦<D as DataProvider<DecimalDigitsV1>>⟧.answer provider.now)
            (⟦<D as DataProvider<PluralsCardinalV1>>⟧.answer provider.now)
            (⟦<D as DataProvider<DecimalCompactLongV1>>⟧.answer provider.now)
            prefs options) }
        ensures table { IfOk result (λ f. IsCompactTable f.table) }
    {
        load_compact::<DecimalCompactLongV1, D>(alloc, provider, &prefs, options)
    }
}

/// The compact formatter with the patterns of a marker.
fn load_compact<
    M: DataMarker<DataStruct = CompactPatterns<SinglePlaceholder>>,
    D: DataProvider<M>
        + DataProvider<DecimalSymbolsV1>
        + DataProvider<DecimalDigitsV1>
        + DataProvider<PluralsCardinalV1>,
>(
    alloc: Global,
    provider: &D,
    prefs: &CompactDecimalFormatterPreferences,
    options: CompactDecimalFormatterOptions,
) -> Result<CompactDecimalFormatter, DataError>
    ensures answers { Answers result
        (loaded_compact (⟦<D as DataProvider<DecimalSymbolsV1>>⟧.answer provider.now)
        (⟦<D as DataProvider<DecimalDigitsV1>>⟧.answer provider.now)
        (⟦<D as DataProvider<PluralsCardinalV1>>⟧.answer provider.now)
        (⟦<D as DataProvider<M>>⟧.answer provider.now)
        prefs.now options) }
    ensures table { IfOk result (λ f. IsCompactTable f.table) }
{
    let plain = DecimalFormatterPreferences::from(prefs);
    let formatter = DecimalFormatter::try_new_unstable::<D>(
        alloc,
        provider,
        plain,
        options.into(),
    )?;
    let rules = PluralRules::try_new_cardinal_unstable::<D>(
        alloc,
        provider,
        PluralRulesPreferences::from(prefs),
    )?;
    let plain = DecimalFormatterPreferences::from(prefs);
    let locale = &prefs.locale_preferences;
    let patterns = load_preferred::<M, D>(
        alloc,
        provider,
        plain.nu_id(locale),
        DataIdentifierBorrowed::for_locale(locale),
    )?;
    Ok(CompactDecimalFormatter::from_parts(formatter, rules, patterns))
}
