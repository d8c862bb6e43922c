//! Formatters of compact amounts and of compact numbers with a name or a unit, made of a provider's
//! data.

ghost use Rattle.icu_provider.specs.Answer.{Answers};
ghost use Rattle.icu_dimension.specs.Loaded.{loaded_compact_amounts, loaded_compact_money, loaded_compact_plural, money_symbols};

use crate::compact_currency_formatter::CompactCurrencyFormatter;
use crate::currency_formatter::CurrencyFormatter;
use crate::loading::{MoneyNumbers, load_named, load_preferred_in, load_rules};
use crate::long_currency_formatter::LongCurrencyFormatter;
use crate::markers::{
    CurrencyCompactShortV1, CurrencyDecimalSymbolsV1, CurrencyNamesV1, CurrencyPatternsV1,
    CurrencySymbolsV1,
};
use crate::options::{CurrencyFormatterOptions, CurrencySign, Width};
use crate::units_formatter::UnitsFormatter;
use icu_decimal::CompactDecimalFormatter;
use icu_decimal_data::{
    CompactPatterns, DecimalCompactLongV1, DecimalCompactShortV1, DecimalDigitsV1, DecimalSymbolsV1,
};
use icu_decimal_options::options::{CompactDecimalFormatterOptions, DecimalFormatterOptions};
use icu_decimal_options::preferences::{
    CompactDecimalFormatterPreferences, DecimalFormatterPreferences,
};
use icu_dimension_data::CurrencyCode;
use icu_pattern::{Pattern, SinglePlaceholder};
use icu_plurals::{PluralElements, PluralRules, PluralsCardinalV1};
use icu_provider::{DataError, DataErrorKind, DataMarker, DataProvider, DataRequest};
use std::alloc::Global;

impl<D: DataProvider<PluralsCardinalV1>> DataProvider<PluralsCardinalV1> for MoneyNumbers<'_, D> {
    ghost answer = { λ n. D.answer n.provider.now };

    fn load(&self, alloc: Global, request: &DataRequest<'_>) -> Result<PluralRules, DataError> {
        self.provider.load(alloc, request)
    }
}

impl<D: DataProvider<DecimalCompactShortV1>> DataProvider<DecimalCompactShortV1>
    for MoneyNumbers<'_, D> {
    ghost answer = { λ n. D.answer n.provider.now };

    fn load(
        &self,
        alloc: Global,
        request: &DataRequest<'_>,
    ) -> Result<CompactPatterns<SinglePlaceholder>, DataError> {
        self.provider.load(alloc, request)
    }
}

impl<D: DataProvider<DecimalCompactLongV1>> DataProvider<DecimalCompactLongV1>
    for MoneyNumbers<'_, D> {
    ghost answer = { λ n. D.answer n.provider.now };

    fn load(
        &self,
        alloc: Global,
        request: &DataRequest<'_>,
    ) -> Result<CompactPatterns<SinglePlaceholder>, DataError> {
        self.provider.load(alloc, request)
    }
}

impl CompactCurrencyFormatter {
    /// The formatter of compact amounts of a currency, of a provider's data.
    ///
    /// First the formatter of money is made, as [`CurrencyFormatter::try_new_unstable`] makes it
    /// with the short symbol and the standard pattern. Then plural rules are asked for by the
    /// locale, and then compact patterns by the preferred numbering system in the locale, if one is
    /// preferred, and else by the locale. The symbol and the signs in them are those of the
    /// formatter of money ([`CompactRows::resolve`]). The first error is reported, with its
    /// context; `OutOfMemory` also where an allocation fails.
    ///
    /// [`CompactRows::resolve`]: icu_dimension_data::CompactRows::resolve
    pub fn try_new_unstable<
        D: DataProvider<CurrencyDecimalSymbolsV1>
            + DataProvider<DecimalSymbolsV1>
            + DataProvider<DecimalDigitsV1>
            + DataProvider<CurrencyPatternsV1>
            + DataProvider<CurrencySymbolsV1>
            + DataProvider<PluralsCardinalV1>
            + DataProvider<CurrencyCompactShortV1>,
    >(
        alloc: Global,
        provider: &D,
        prefs: DecimalFormatterPreferences,
        code: CurrencyCode,
        options: DecimalFormatterOptions,
    ) -> Result<Self, DataError>
        ensures { Answers result
            (loaded_compact_money (money_symbols
            (⟦<D as DataProvider<CurrencyDecimalSymbolsV1>>⟧.answer provider.now)
            (⟦<D as DataProvider<DecimalSymbolsV1>>⟧.answer provider.now))
            (⟦<D as DataProvider<DecimalDigitsV1>>⟧.answer provider.now)
            (⟦<D as DataProvider<CurrencyPatternsV1>>⟧.answer provider.now)
            (⟦<D as DataProvider<CurrencySymbolsV1>>⟧.answer provider.now)
            (⟦<D as DataProvider<PluralsCardinalV1>>⟧.answer provider.now)
            (⟦<D as DataProvider<CurrencyCompactShortV1>>⟧.answer provider.now)
            prefs code options) }
    {
        let standard = CurrencyFormatterOptions {
            decimal: options,
            width: Width::Short,
            sign: CurrencySign::Standard,
        };
        CompactCurrencyFormatter::try_new_with_options_unstable::<D>(
            alloc, provider, prefs, code, standard,
        )
    }

    /// The same with any symbol, and with the pattern of money of a sign. That pattern is written
    /// around amounts below the first compact pattern alone, as in `($12)` and `-$1.2K` (this
    /// project's own).
    // promise: Compact amounts have the symbol of their options.
    // mutations: compact_money_with_the_short_symbol_alone
    pub fn try_new_with_options_unstable<
        D: DataProvider<CurrencyDecimalSymbolsV1>
            + DataProvider<DecimalSymbolsV1>
            + DataProvider<DecimalDigitsV1>
            + DataProvider<CurrencyPatternsV1>
            + DataProvider<CurrencySymbolsV1>
            + DataProvider<PluralsCardinalV1>
            + DataProvider<CurrencyCompactShortV1>,
    >(
        alloc: Global,
        provider: &D,
        prefs: DecimalFormatterPreferences,
        code: CurrencyCode,
        options: CurrencyFormatterOptions,
    ) -> Result<Self, DataError>
        ensures { Answers result
            (loaded_compact_amounts (money_symbols
            (⟦<D as DataProvider<CurrencyDecimalSymbolsV1>>⟧.answer provider.now)
            (⟦<D as DataProvider<DecimalSymbolsV1>>⟧.answer provider.now))
            (⟦<D as DataProvider<DecimalDigitsV1>>⟧.answer provider.now)
            (⟦<D as DataProvider<CurrencyPatternsV1>>⟧.answer provider.now)
            (⟦<D as DataProvider<CurrencySymbolsV1>>⟧.answer provider.now)
            (⟦<D as DataProvider<PluralsCardinalV1>>⟧.answer provider.now)
            (⟦<D as DataProvider<CurrencyCompactShortV1>>⟧.answer provider.now)
            prefs code options) }
    {
        let money = CurrencyFormatter::try_new_unstable::<D>(
            alloc, provider, prefs, code, options,
        )?;
        let rules = load_rules::<D>(alloc, provider, &prefs)?;
        let rows = load_preferred_in::<CurrencyCompactShortV1, D>(alloc, provider, &prefs)?;
        let texts = money.patterns.texts();
        let tables = rows.resolve(alloc, &texts, money.formatter.digits())?;
        match CompactCurrencyFormatter::from_parts(alloc, money, rules, tables) {
            Ok(formatter) => Ok(formatter),
            Err(_) => Err(DataErrorKind::OutOfMemory.into()),
        }
    }
}

impl LongCurrencyFormatter<CompactDecimalFormatter> {
    /// The formatter of compact amounts with the name of a currency, as `1.2M euros`, of a
    /// provider's data (this project's own).
    ///
    /// First the compact formatter is made, as
    /// [`CompactDecimalFormatter::try_new_short_unstable`] makes it; but before each request for
    /// symbols the provider is asked for symbols of money. Then plural rules are asked for by the
    /// locale, and then names by the currency's code in the locale. The first error is reported,
    /// with its context; `OutOfMemory` also where an allocation fails.
    // promise: Compact amounts with names have the separators of money.
    // mutations: compact_names_with_the_symbols_of_numbers
    pub fn try_new_short_unstable<
        D: DataProvider<CurrencyDecimalSymbolsV1>
            + DataProvider<DecimalSymbolsV1>
            + DataProvider<DecimalDigitsV1>
            + DataProvider<PluralsCardinalV1>
            + DataProvider<DecimalCompactShortV1>
            + DataProvider<CurrencyNamesV1>,
    >(
        alloc: Global,
        provider: &D,
        prefs: CompactDecimalFormatterPreferences,
        code: CurrencyCode,
        options: CompactDecimalFormatterOptions,
    ) -> Result<Self, DataError>
        ensures { Answers result
            (loaded_compact_plural (money_symbols
            (⟦<D as DataProvider<CurrencyDecimalSymbolsV1>>⟧.answer provider.now)
            (⟦<D as DataProvider<DecimalSymbolsV1>>⟧.answer provider.now))
            (⟦<D as DataProvider<DecimalDigitsV1>>⟧.answer provider.now)
            (⟦<D as DataProvider<PluralsCardinalV1>>⟧.answer provider.now)
            (⟦<D as DataProvider<DecimalCompactShortV1>>⟧.answer provider.now)
            (⟦<D as DataProvider<CurrencyNamesV1>>⟧.answer provider.now)
            prefs code options (λ f r x. record { formatter = f; rules = r; elements = x })) }
    {
        let numbers = MoneyNumbers { provider };
        let formatter = CompactDecimalFormatter::try_new_short_unstable(
            alloc, &numbers, prefs, options,
        )?;
        let locale = &prefs.locale_preferences;
        let rules = load_rules::<D>(alloc, provider, &DecimalFormatterPreferences::from(&prefs))?;
        let names = load_named::<CurrencyNamesV1, D>(alloc, provider, code.as_str(), locale)?;
        Ok(LongCurrencyFormatter::new(formatter, rules, names))
    }

    /// The same with the long patterns, as `1.2 million euros` (this project's own).
    pub fn try_new_long_unstable<
        D: DataProvider<CurrencyDecimalSymbolsV1>
            + DataProvider<DecimalSymbolsV1>
            + DataProvider<DecimalDigitsV1>
            + DataProvider<PluralsCardinalV1>
            + DataProvider<DecimalCompactLongV1>
            + DataProvider<CurrencyNamesV1>,
    >(
        alloc: Global,
        provider: &D,
        prefs: CompactDecimalFormatterPreferences,
        code: CurrencyCode,
        options: CompactDecimalFormatterOptions,
    ) -> Result<Self, DataError>
        ensures { Answers result
            (loaded_compact_plural (money_symbols
            (⟦<D as DataProvider<CurrencyDecimalSymbolsV1>>⟧.answer provider.now)
            (⟦<D as DataProvider<DecimalSymbolsV1>>⟧.answer provider.now))
            (⟦<D as DataProvider<DecimalDigitsV1>>⟧.answer provider.now)
            (⟦<D as DataProvider<PluralsCardinalV1>>⟧.answer provider.now)
            (⟦<D as DataProvider<DecimalCompactLongV1>>⟧.answer provider.now)
            (⟦<D as DataProvider<CurrencyNamesV1>>⟧.answer provider.now)
            prefs code options (λ f r x. record { formatter = f; rules = r; elements = x })) }
    {
        let money_numbers = MoneyNumbers { provider };
        let formatter = CompactDecimalFormatter::try_new_long_unstable(
            alloc,
            &money_numbers,
            prefs,
            options,
        )?;
        let locale = &prefs.locale_preferences;
        let rules = load_rules::<D>(alloc, provider, &DecimalFormatterPreferences::from(&prefs))?;
        let names = load_named::<CurrencyNamesV1, D>(alloc, provider, code.as_str(), locale)?;
        Ok(LongCurrencyFormatter::new(formatter, rules, names))
    }
}

impl UnitsFormatter<CompactDecimalFormatter> {
    /// The formatter of compact numbers with a unit, as `1.5K km`, of a provider's data for the
    /// marker of a width (this project's own).
    ///
    /// First the compact formatter is made, as
    /// [`CompactDecimalFormatter::try_new_short_unstable`] makes it. Then plural rules are asked
    /// for by the locale, and then patterns by the unit in the locale. The first error is reported,
    /// with its context; `OutOfMemory` also where an allocation fails.
    // promise: A provider's answers determine compact units.
    // mutations: compact_units_of_the_undetermined_locale
    pub fn try_new_short_unstable<
        M: DataMarker<DataStruct = PluralElements<Pattern<SinglePlaceholder>>>,
        D: DataProvider<DecimalSymbolsV1>
            + DataProvider<DecimalDigitsV1>
            + DataProvider<PluralsCardinalV1>
            + DataProvider<DecimalCompactShortV1>
            + DataProvider<M>,
    >(
        alloc: Global,
        provider: &D,
        prefs: CompactDecimalFormatterPreferences,
        unit: &str,
        options: CompactDecimalFormatterOptions,
    ) -> Result<Self, DataError>
        ensures { Answers result
            (loaded_compact_plural (⟦<D as DataProvider<DecimalSymbolsV1>>⟧.answer provider.now)
            (⟦<D as DataProvider<DecimalDigitsV1>>⟧.answer provider.now)
            (⟦<D as DataProvider<PluralsCardinalV1>>⟧.answer provider.now)
            (⟦<D as DataProvider<DecimalCompactShortV1>>⟧.answer provider.now)
            (⟦<D as DataProvider<M>>⟧.answer provider.now)
            prefs unit.now options (λ f r x. record { formatter = f; rules = r; elements = x })) }
    {
        let formatter = CompactDecimalFormatter::try_new_short_unstable(
            alloc, provider, prefs, options,
        )?;
        let rules = load_rules::<D>(alloc, provider, &DecimalFormatterPreferences::from(&prefs))?;
        let patterns = load_named::<M, D>(alloc, provider, unit, &prefs.locale_preferences)?;
        Ok(UnitsFormatter::new(formatter, rules, patterns))
    }

    /// The same with the long patterns, as `1.5 million kilometers` (this project's own).
    pub fn try_new_long_unstable<
        M: DataMarker<DataStruct = PluralElements<Pattern<SinglePlaceholder>>>,
        D: DataProvider<DecimalSymbolsV1>
            + DataProvider<DecimalDigitsV1>
            + DataProvider<PluralsCardinalV1>
            + DataProvider<DecimalCompactLongV1>
            + DataProvider<M>,
    >(
        alloc: Global,
        provider: &D,
        prefs: CompactDecimalFormatterPreferences,
        unit: &str,
        options: CompactDecimalFormatterOptions,
    ) -> Result<Self, DataError>
        ensures { Answers result
            (loaded_compact_plural (⟦<D as DataProvider<DecimalSymbolsV1>>⟧.answer provider.now)
            (⟦<D as DataProvider<DecimalDigitsV1>>⟧.answer provider.now)
            (⟦<D as DataProvider<PluralsCardinalV1>>⟧.answer provider.now)
            (⟦<D as DataProvider<DecimalCompactLongV1>>⟧.answer provider.now)
            (⟦<D as DataProvider<M>>⟧.answer provider.now)
            prefs unit.now options (λ f r x. record { formatter = f; rules = r; elements = x })) }
    {
        let formatter = CompactDecimalFormatter::try_new_long_unstable(
            alloc, provider, prefs, options,
        )?;
        let rules = load_rules::<D>(alloc, provider, &DecimalFormatterPreferences::from(&prefs))?;
        let elements = load_named::<M, D>(alloc, provider, unit, &prefs.locale_preferences)?;
        Ok(UnitsFormatter::new(formatter, rules, elements))
    }
}
