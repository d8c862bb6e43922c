//! Formatters that are made of a provider's data.

ghost use Rattle.std.specs.Prelude.{codes};
ghost use Rattle.icu_provider.specs.Answer.{Answers};
ghost use Rattle.icu_provider.specs.Identifier.{identifier_of};
ghost use Rattle.icu_decimal.specs.Loaded.{loaded, preferably};
ghost use Rattle.icu_decimal_options.specs.Preferences.{locale_id};
ghost use Rattle.icu_dimension.specs.Loaded.{loaded_currency, loaded_percent, loaded_plural};
ghost use Rattle.icu_dimension.specs.Loaded.{money_symbols, named_id};

use crate::currency_formatter::CurrencyFormatter;
use crate::long_currency_formatter::LongCurrencyFormatter;
use crate::markers::{
    CurrencyDecimalSymbolsV1, CurrencyDigitsV1, CurrencyNamesV1, CurrencyPatternsV1,
    CurrencySymbolsV1, PercentPatternsV1, PermillePatternsV1,
};
use crate::options::CurrencyFormatterOptions;
use crate::percent_formatter::PercentFormatter;
use crate::units_formatter::UnitsFormatter;
use icu_decimal::DecimalFormatter;
use icu_decimal::provider::load_preferred;
use icu_decimal_data::{DecimalDigitsV1, DecimalSymbolsV1};
use icu_decimal_options::options::DecimalFormatterOptions;
use icu_decimal_options::preferences::DecimalFormatterPreferences;
use icu_decimal_symbols::DecimalSymbols;
use icu_dimension_data::{CurrencyCode, CurrencyDigits};
use icu_pattern::{Pattern, SinglePlaceholder};
use icu_plurals::{PluralElements, PluralRules, PluralRulesPreferences, PluralsCardinalV1};
use icu_provider::{
    DataError, DataErrorKind, DataIdentifierBorrowed, DataLocale, DataMarker, DataProvider,
    DataRequest,
};
use std::alloc::Global;

/// The provider's data for an identifier.
fn load<M: DataMarker, D: DataProvider<M>>(
    alloc: Global,
    provider: &D,
    request: &DataRequest<'_>,
) -> Result<M::DataStruct, DataError>
    ensures { Answers result (D.answer provider.now (identifier_of request.now.id)) }
{
    provider.load(alloc, request)
}

/// The provider's data for a name in the locale.
pub(crate) fn load_named<M: DataMarker, D: DataProvider<M>>(
    alloc: Global,
    provider: &D,
    name: &str,
    locale: &DataLocale,
) -> Result<M::DataStruct, DataError>
    ensures { Answers result (D.answer provider.now (named_id name.now locale.now)) }
{
    let id = DataIdentifierBorrowed::for_marker_attributes_and_locale(name, locale);
    provider.load(alloc, &DataRequest { id, silent: false })
}

/// The provider's data for the preferred numbering system in the locale, if there is one with data,
/// and else for the locale.
pub(crate) fn load_preferred_in<M: DataMarker, D: DataProvider<M>>(
    alloc: Global,
    provider: &D,
    prefs: &DecimalFormatterPreferences,
) -> Result<M::DataStruct, DataError>
    ensures { Answers result
        (preferably (D.answer provider.now) prefs.now (locale_id prefs.now.locale_preferences)) }
{
    let locale = &prefs.locale_preferences;
    let other = DataIdentifierBorrowed::for_locale(locale);
    load_preferred::<M, D>(alloc, provider, prefs.nu_id(locale), other)
}

/// The plural rules of the locale.
pub(crate) fn load_rules<D: DataProvider<PluralsCardinalV1>>(
    alloc: Global,
    provider: &D,
    prefs: &DecimalFormatterPreferences,
) -> Result<PluralRules, DataError>
    ensures { Answers result (D.answer provider.now (locale_id prefs.now.locale_preferences)) }
{
    let prefs = PluralRulesPreferences {
        locale_preferences: prefs.locale_preferences,
    };
    PluralRules::try_new_cardinal_unstable::<D>(alloc, provider, prefs)
}

/// A provider, asked for numbers of money.
#[derive(Drop)]
pub(crate) struct MoneyNumbers<'a, D> {
    pub(crate) provider: &'a D,
}

impl<D: DataProvider<CurrencyDecimalSymbolsV1> + DataProvider<DecimalSymbolsV1>> DataProvider<
    DecimalSymbolsV1,
> for MoneyNumbers<'_, D> {
    ghost answer = { λ n. money_symbols
        (⟦<D as DataProvider<CurrencyDecimalSymbolsV1>>⟧.answer n.provider.now)
        (⟦<D as DataProvider<DecimalSymbolsV1>>⟧.answer n.provider.now) };

    fn load(&self, alloc: Global, request: &DataRequest<'_>) -> Result<DecimalSymbols, DataError> {
        let silent = DataRequest {
            id: request.id,
            silent: true,
        };
        match load::<CurrencyDecimalSymbolsV1, D>(alloc, self.provider, &silent) {
            Err(
                DataError {
                    kind: DataErrorKind::IdentifierNotFound,
                    ..
                },
            ) => load::<DecimalSymbolsV1, D>(alloc, self.provider, request),
            answered => answered,
        }
    }
}

impl<D: DataProvider<DecimalDigitsV1>> DataProvider<DecimalDigitsV1> for MoneyNumbers<'_, D> {
    ghost answer = { λ n. D.answer n.provider.now };

    fn load(&self, alloc: Global, request: &DataRequest<'_>) -> Result<[char; 10], DataError> {
        self.provider.load(alloc, request)
    }
}

/// The plain formatter of numbers of money.
fn load_money_numbers<
    D: DataProvider<CurrencyDecimalSymbolsV1>
        + DataProvider<DecimalSymbolsV1>
        + DataProvider<DecimalDigitsV1>,
>(
    alloc: Global,
    provider: &D,
    prefs: DecimalFormatterPreferences,
    options: DecimalFormatterOptions,
) -> Result<DecimalFormatter, DataError>
    ensures { Answers result
        (loaded (money_symbols
        (⟦<D as DataProvider<CurrencyDecimalSymbolsV1>>⟧.answer provider.now)
        (⟦<D as DataProvider<DecimalSymbolsV1>>⟧.answer provider.now))
        (⟦<D as DataProvider<DecimalDigitsV1>>⟧.answer provider.now) prefs options) }
{
    DecimalFormatter::try_new_unstable(alloc, &MoneyNumbers { provider }, prefs, options)
}

impl CurrencyFormatter<DecimalFormatter> {
    /// The formatter of amounts of a currency, of a provider's data.
    ///
    /// First the numbers of money are loaded, as [`DecimalFormatter::try_new_unstable`] loads
    /// numbers; but before each request for symbols the provider is asked for symbols of money.
    /// Then patterns are asked for by the preferred numbering system in the locale, if one is
    /// preferred, and else by the locale, and then the symbols by the currency's code in the
    /// locale. The first error is reported, with its context; `OutOfMemory` also where an
    /// allocation fails.
    // promise: A provider's answers determine the formatter of money.
    // mutations: loading_money_accounting_as_standard
    // promise: Numbers of money have its symbols, if the provider does.
    // mutations: loading_money_with_the_symbols_of_numbers
    pub fn try_new_unstable<
        D: DataProvider<CurrencyDecimalSymbolsV1>
            + DataProvider<DecimalSymbolsV1>
            + DataProvider<DecimalDigitsV1>
            + DataProvider<CurrencyPatternsV1>
            + DataProvider<CurrencySymbolsV1>,
    >(
        alloc: Global,
        provider: &D,
        prefs: DecimalFormatterPreferences,
        code: CurrencyCode,
        options: CurrencyFormatterOptions,
    ) -> Result<Self, DataError>
        ensures { Answers result
            (loaded_currency (money_symbols
            (⟦<D as DataProvider<CurrencyDecimalSymbolsV1>>⟧.answer provider.now)
            (⟦<D as DataProvider<DecimalSymbolsV1>>⟧.answer provider.now))
            (⟦<D as DataProvider<DecimalDigitsV1>>⟧.answer provider.now)
            (⟦<D as DataProvider<CurrencyPatternsV1>>⟧.answer provider.now)
            (⟦<D as DataProvider<CurrencySymbolsV1>>⟧.answer provider.now)
            prefs code options) }
    {
        let formatter = load_money_numbers::<D>(alloc, provider, prefs, options.decimal)?;
        let patterns = load_preferred_in::<CurrencyPatternsV1, D>(alloc, provider, &prefs)?;
        let locale = &prefs.locale_preferences;
        let symbols = load_named::<CurrencySymbolsV1, D>(alloc, provider, code.as_str(), locale)?;
        match patterns.resolve(alloc, &symbols, &code, formatter.digits(), options) {
            Ok(patterns) => Ok(CurrencyFormatter::new(formatter, patterns)),
            Err(_) => Err(DataErrorKind::OutOfMemory.into()),
        }
    }
}

impl LongCurrencyFormatter<DecimalFormatter> {
    /// The formatter of amounts with the name of a currency, of a provider's data.
    ///
    /// First the numbers of money are loaded, as [`CurrencyFormatter::try_new_unstable`] loads
    /// them. Then plural rules are asked for by the locale, and then names by the currency's code
    /// in the locale. The first error is reported, with its context; `OutOfMemory` also where an
    /// allocation fails.
    pub fn try_new_unstable<
        D: DataProvider<CurrencyDecimalSymbolsV1>
            + DataProvider<DecimalSymbolsV1>
            + DataProvider<DecimalDigitsV1>
            + DataProvider<PluralsCardinalV1>
            + DataProvider<CurrencyNamesV1>,
    >(
        alloc: Global,
        provider: &D,
        prefs: DecimalFormatterPreferences,
        code: CurrencyCode,
        options: DecimalFormatterOptions,
    ) -> Result<Self, DataError>
        ensures { Answers result
            (loaded_plural (money_symbols
            (⟦<D as DataProvider<CurrencyDecimalSymbolsV1>>⟧.answer provider.now)
            (⟦<D as DataProvider<DecimalSymbolsV1>>⟧.answer provider.now))
            (⟦<D as DataProvider<DecimalDigitsV1>>⟧.answer provider.now)
            (⟦<D as DataProvider<PluralsCardinalV1>>⟧.answer provider.now)
            (⟦<D as DataProvider<CurrencyNamesV1>>⟧.answer provider.now)
            prefs code options (λ f r x. record { formatter = f; rules = r; elements = x })) }
    {
        let formatter = load_money_numbers::<D>(alloc, provider, prefs, options)?;
        let rules = load_rules::<D>(alloc, provider, &prefs)?;
        let locale = &prefs.locale_preferences;
        let names = load_named::<CurrencyNamesV1, D>(alloc, provider, code.as_str(), locale)?;
        Ok(LongCurrencyFormatter::new(formatter, rules, names))
    }
}

impl PercentFormatter<DecimalFormatter> {
    /// The formatter of percents, of a provider's data.
    ///
    /// First the plain formatter is made, as [`DecimalFormatter::try_new_unstable`] makes it. Then
    /// patterns are asked for by the preferred numbering system in the locale, if one is preferred,
    /// and else by the locale. The first error is reported, with its context; `OutOfMemory` also
    /// where an allocation fails.
    // promise: Patterns are asked by the preferred system first.
    // mutations: loading_without_the_preferred_system
    pub fn try_new_unstable<
        D: DataProvider<DecimalSymbolsV1>
            + DataProvider<DecimalDigitsV1>
            + DataProvider<PercentPatternsV1>,
    >(
        alloc: Global,
        provider: &D,
        prefs: DecimalFormatterPreferences,
        options: DecimalFormatterOptions,
    ) -> Result<Self, DataError>
        ensures { Answers result
            (loaded_percent (⟦<D as DataProvider<DecimalSymbolsV1>>⟧.answer provider.now)
            (⟦<D as DataProvider<DecimalDigitsV1>>⟧.answer provider.now)
            (⟦<D as DataProvider<PercentPatternsV1>>⟧.answer provider.now)
            prefs options) }
    {
        let formatter = DecimalFormatter::try_new_unstable::<D>(alloc, provider, prefs, options)?;
        let patterns = load_preferred_in::<PercentPatternsV1, D>(alloc, provider, &prefs)?;
        Ok(PercentFormatter::new(formatter, patterns))
    }

    /// The formatter of permilles, of a provider's data (this project's own).
    ///
    /// The plain formatter and then the patterns of permilles are asked for as by
    /// [`PercentFormatter::try_new_unstable`]. Numbers of permilles are written by
    /// [`write_percents_into`](PercentFormatter::write_percents_into), as they are given: `12.3‰`
    /// of 12.3. The other calls write a hundred times a number.
    // promise: Permilles are asked by the preferred system first.
    // mutations: loading_permilles_without_the_preferred_system
    pub fn try_new_permille_unstable<
        D: DataProvider<DecimalSymbolsV1>
            + DataProvider<DecimalDigitsV1>
            + DataProvider<PermillePatternsV1>,
    >(
        alloc: Global,
        provider: &D,
        prefs: DecimalFormatterPreferences,
        options: DecimalFormatterOptions,
    ) -> Result<Self, DataError>
        ensures { Answers result
            (loaded_percent (⟦<D as DataProvider<DecimalSymbolsV1>>⟧.answer provider.now)
            (⟦<D as DataProvider<DecimalDigitsV1>>⟧.answer provider.now)
            (⟦<D as DataProvider<PermillePatternsV1>>⟧.answer provider.now)
            prefs options) }
    {
        let formatter = DecimalFormatter::try_new_unstable::<D>(alloc, provider, prefs, options)?;
        let patterns = load_preferred_in::<PermillePatternsV1, D>(alloc, provider, &prefs)?;
        Ok(PercentFormatter::new(formatter, patterns))
    }
}

impl UnitsFormatter<DecimalFormatter> {
    /// The formatter of numbers with a unit, of a provider's data for the marker of a width.
    ///
    /// First the plain formatter is made, as [`DecimalFormatter::try_new_unstable`] makes it. Then
    /// plural rules are asked for by the locale, and then patterns by the unit in the locale. The
    /// first error is reported, with its context; `OutOfMemory` also where an allocation
    /// fails.
    pub fn try_new_unstable<
        M: DataMarker<DataStruct = PluralElements<Pattern<SinglePlaceholder>>>,
        D: DataProvider<DecimalSymbolsV1>
            + DataProvider<DecimalDigitsV1>
            + DataProvider<PluralsCardinalV1>
            + DataProvider<M>,
    >(
        alloc: Global,
        provider: &D,
        prefs: DecimalFormatterPreferences,
        unit: &str,
        options: DecimalFormatterOptions,
    ) -> Result<Self, DataError>
        ensures { Answers result
            (loaded_plural (⟦<D as DataProvider<DecimalSymbolsV1>>⟧.answer provider.now)
            (⟦<D as DataProvider<DecimalDigitsV1>>⟧.answer provider.now)
            (⟦<D as DataProvider<PluralsCardinalV1>>⟧.answer provider.now)
            (⟦<D as DataProvider<M>>⟧.answer provider.now)
            prefs unit.now options (λ f r x. record { formatter = f; rules = r; elements = x })) }
    {
        let formatter = DecimalFormatter::try_new_unstable::<D>(alloc, provider, prefs, options)?;
        let rules = load_rules::<D>(alloc, provider, &prefs)?;
        let patterns = load_named::<M, D>(alloc, provider, unit, &prefs.locale_preferences)?;
        Ok(UnitsFormatter::new(formatter, rules, patterns))
    }
}

/// The digits of currencies that a provider has. It is asked once, for the undetermined locale.
pub fn load_currency_digits<D: DataProvider<CurrencyDigitsV1>>(
    alloc: Global,
    provider: &D,
) -> Result<CurrencyDigits, DataError>
    ensures { Answers result (D.answer provider.now (locale_id (codes "und"))) }
{
    let locale = DataLocale::default();
    let id = DataIdentifierBorrowed::for_locale(&locale);
    provider.load(alloc, &DataRequest { id, silent: false })
}
