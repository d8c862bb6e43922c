//! Formatters of what is shortened with a currency or with a unit, made of what tables answer.

ghost use Rattle.std.specs.Prelude.{◌≡◌, false};
ghost use Rattle.icu_provider.specs.Answer.{Answers};
ghost use Rattle.number_formatters.specs.Loaded.{amounts_rounding, compact_money_loaded, compact_money_options, compact_units_loaded};
ghost use Rattle.number_formatters.specs.Loaded.{currency_rounding, long_names_loaded, money_by, money_rounded_loaded, money_short_loaded};
ghost use Rattle.number_formatters.specs.Loaded.{named_by_notation, named_long_loaded, named_short_loaded, short_names_loaded, unit_by_notation, unit_long_loaded, unit_short_loaded};

use crate::formatter::{Formatter, LoadedFormatter};
use crate::grouped::{Grouped, strategy_of};
use crate::loading::{load_named, load_unit, money_precision, preferences, rounding_to};
use crate::loading_short::{compact_precision, compact_preferences, sets_digits};
use crate::settings::{FormGrouping, Settings, UnitWidth};
use decimal_lines::compact_options;
use icu_decimal::CompactDecimalFormatter;
use icu_decimal_options::options::{CompactDecimalFormatterOptions, DecimalFormatterOptions};
use icu_decimal_options::preferences::CompactDecimalFormatterPreferences;
use icu_dimension::options::{CurrencyFormatterOptions, CurrencySign, Width};
use icu_dimension::provider::{UnitsLongV1, UnitsNarrowV1, UnitsShortV1};
use icu_dimension::{CompactCurrencyFormatter, LongCurrencyFormatter, UnitsFormatter};
use icu_dimension_data::CurrencyCode;
use icu_dimension_tables::AllTables;
use icu_provider::DataError;
use number_rounding::Rounding;
use skeleton_settings::Notation;
use std::alloc::Global;

/// The options of compact amounts under a strategy, or the default ones, those of compact numbers
/// (this project's own).
pub fn compact_money_options(
    grouping: Option<FormGrouping>,
    width: Width,
    sign: CurrencySign,
) -> CurrencyFormatterOptions
    ensures { result ≡ compact_money_options grouping width sign }
{
    CurrencyFormatterOptions {
        decimal: DecimalFormatterOptions::from(compact_options(strategy_of(grouping))),
        width,
        sign,
    }
}

/// The formatter of compact amounts of a currency.
#[tactic(auto, unfolding(crate::specs::Loaded::compact_money_loaded))]
fn load_compact_money(
    alloc: Global,
    all: &AllTables,
    settings: &Settings<'_>,
    code: CurrencyCode,
    options: CurrencyFormatterOptions,
) -> Result<CompactCurrencyFormatter, DataError>
    ensures { Answers result
        (compact_money_loaded settings.now code options all.now.numbers all.now.dimension) }
{
    let prefs = preferences(settings);
    let tables = Grouped {
        provider: all,
        grouping: settings.grouping,
    };
    CompactCurrencyFormatter::try_new_with_options_unstable::<Grouped<'_, AllTables>>(
        alloc, &tables, prefs, code, options,
    )
}

/// The rounding of what is shortened with a currency.
#[tactic(auto, unfolding(crate::specs::Loaded::currency_rounding))]
fn currency_rounding(
    alloc: Global,
    all: &AllTables,
    settings: &Settings<'_>,
    code: CurrencyCode,
) -> Result<Rounding, DataError>
    ensures { Answers result (currency_rounding settings.now code all.now.dimension) }
{
    let wanted = Some(compact_precision(settings.precision));
    let precision = money_precision(alloc, all, wanted, code, false)?;
    Ok(rounding_to(settings, precision))
}

/// The same, if the settings say anything of it.
#[tactic(auto, unfolding(crate::specs::Loaded::amounts_rounding))]
fn amounts_rounding(
    alloc: Global,
    all: &AllTables,
    settings: &Settings<'_>,
    code: CurrencyCode,
) -> Result<Option<Rounding>, DataError>
    ensures { Answers result (amounts_rounding settings.now code all.now.dimension) }
{
    if sets_digits(settings) {
        Ok(Some(currency_rounding(alloc, all, settings, code)?))
    } else {
        Ok(None)
    }
}

/// What writes compact amounts.
fn money_by(formatter: CompactCurrencyFormatter, rounding: Option<Rounding>) -> Formatter
    ensures { result ≡ money_by formatter rounding }
{
    match rounding {
        Some(rounding) => Formatter::ShortMoney(formatter, rounding),
        None => Formatter::MoneyShort(formatter),
    }
}

/// Compact amounts of a currency with a rounding, if they have one.
#[tactic(auto, unfolding(crate::specs::Loaded::money_rounded_loaded))]
fn load_money_rounded(
    alloc: Global,
    all: &AllTables,
    settings: &Settings<'_>,
    code: CurrencyCode,
    options: CurrencyFormatterOptions,
    rounding: Option<Rounding>,
) -> Result<LoadedFormatter, DataError>
    ensures { Answers result
        (money_rounded_loaded settings.now code options rounding all.now.numbers
        all.now.dimension) }
{
    let formatter = load_compact_money(alloc, all, settings, code, options)?;
    Ok(LoadedFormatter {
        rounding: None,
        formatter: money_by(formatter, rounding),
    })
}

/// Compact amounts of a currency (this project's own).
#[tactic(auto, unfolding(crate::specs::Loaded::money_short_loaded))]
pub fn load_money_short(
    alloc: Global,
    all: &AllTables,
    settings: &Settings<'_>,
    code: CurrencyCode,
    options: CurrencyFormatterOptions,
) -> Result<LoadedFormatter, DataError>
    ensures { Answers result
        (money_short_loaded settings.now code options all.now.numbers all.now.dimension) }
{
    let rounding = amounts_rounding(alloc, all, settings, code)?;
    load_money_rounded(alloc, all, settings, code, options, rounding)
}

/// The formatter of amounts with the name of a currency, shortened by the short patterns.
#[tactic(auto, unfolding(crate::specs::Loaded::short_names_loaded))]
fn load_short_names(
    alloc: Global,
    all: &AllTables,
    settings: &Settings<'_>,
    code: CurrencyCode,
) -> Result<LongCurrencyFormatter<CompactDecimalFormatter>, DataError>
    ensures { Answers result
        (short_names_loaded settings.now code all.now.numbers all.now.dimension) }
{
    let options = compact_options(strategy_of(settings.grouping));
    let prefs = compact_preferences(settings);
    let tables = Grouped {
        provider: all,
        grouping: settings.grouping,
    };
    LongCurrencyFormatter::try_new_short_unstable::<Grouped<'_, AllTables>>(
        alloc, &tables, prefs, code, options,
    )
}

/// The same, shortened by the long patterns.
#[tactic(auto, unfolding(crate::specs::Loaded::long_names_loaded))]
fn load_long_names(
    alloc: Global,
    all: &AllTables,
    settings: &Settings<'_>,
    code: CurrencyCode,
) -> Result<LongCurrencyFormatter<CompactDecimalFormatter>, DataError>
    ensures { Answers result
        (long_names_loaded settings.now code all.now.numbers all.now.dimension) }
{
    let options = compact_options(strategy_of(settings.grouping));
    let prefs = compact_preferences(settings);
    let tables = Grouped {
        provider: all,
        grouping: settings.grouping,
    };
    LongCurrencyFormatter::try_new_long_unstable::<Grouped<'_, AllTables>>(
        alloc, &tables, prefs, code, options,
    )
}

/// Amounts with the name of a currency, shortened by the short patterns.
#[tactic(auto, unfolding(crate::specs::Loaded::named_short_loaded))]
fn load_named_short(
    alloc: Global,
    all: &AllTables,
    settings: &Settings<'_>,
    code: CurrencyCode,
) -> Result<LoadedFormatter, DataError>
    ensures { Answers result
        (named_short_loaded settings.now code all.now.numbers all.now.dimension) }
{
    let rounding = currency_rounding(alloc, all, settings, code)?;
    let formatter = load_short_names(alloc, all, settings, code)?;
    Ok(LoadedFormatter {
        rounding: None,
        formatter: Formatter::ShortNamed(formatter, rounding),
    })
}

/// Amounts with the name of a currency, shortened by the long patterns.
#[tactic(auto, unfolding(crate::specs::Loaded::named_long_loaded))]
fn load_named_long(
    alloc: Global,
    all: &AllTables,
    settings: &Settings<'_>,
    code: CurrencyCode,
) -> Result<LoadedFormatter, DataError>
    ensures { Answers result
        (named_long_loaded settings.now code all.now.numbers all.now.dimension) }
{
    let rounding = currency_rounding(alloc, all, settings, code)?;
    let formatter = load_long_names(alloc, all, settings, code)?;
    Ok(LoadedFormatter {
        rounding: None,
        formatter: Formatter::ShortNamed(formatter, rounding),
    })
}

/// Amounts with the name of a currency, by the notation of numbers (this project's own).
#[tactic(auto, unfolding(crate::specs::Loaded::named_by_notation))]
pub fn load_named_by(
    alloc: Global,
    all: &AllTables,
    settings: &Settings<'_>,
    code: CurrencyCode,
    is_cash: bool,
    notation: Notation,
) -> Result<LoadedFormatter, DataError>
    ensures { Answers result
        (named_by_notation notation settings.now code is_cash all.now.numbers all.now.dimension) }
{
    match notation {
        Notation::Simple => load_named(alloc, all, settings, code, is_cash),
        Notation::CompactShort => load_named_short(alloc, all, settings, code),
        Notation::CompactLong => load_named_long(alloc, all, settings, code),
    }
}

/// The formatter of numbers with a unit in a width, shortened by the short patterns.
fn load_short_units(
    alloc: Global,
    tables: &Grouped<'_, AllTables>,
    prefs: CompactDecimalFormatterPreferences,
    name: &str,
    width: UnitWidth,
    options: CompactDecimalFormatterOptions,
) -> Result<UnitsFormatter<CompactDecimalFormatter>, DataError>
    ensures { Answers result
        (compact_units_loaded tables.now.grouping width tables.now.provider.now.numbers.short
        tables.now.provider.now.numbers tables.now.provider.now.dimension prefs name.now options) }
{
    match width {
        UnitWidth::Long => UnitsFormatter::try_new_short_unstable::<
            UnitsLongV1,
            Grouped<'_, AllTables>,
        >(alloc, tables, prefs, name, options),
        UnitWidth::Short => UnitsFormatter::try_new_short_unstable::<
            UnitsShortV1,
            Grouped<'_, AllTables>,
        >(alloc, tables, prefs, name, options),
        UnitWidth::Narrow => UnitsFormatter::try_new_short_unstable::<
            UnitsNarrowV1,
            Grouped<'_, AllTables>,
        >(alloc, tables, prefs, name, options),
    }
}

/// The same, shortened by the long patterns.
fn load_long_units(
    alloc: Global,
    tables: &Grouped<'_, AllTables>,
    prefs: CompactDecimalFormatterPreferences,
    name: &str,
    width: UnitWidth,
    options: CompactDecimalFormatterOptions,
) -> Result<UnitsFormatter<CompactDecimalFormatter>, DataError>
    ensures { Answers result
        (compact_units_loaded tables.now.grouping width tables.now.provider.now.numbers.long
        tables.now.provider.now.numbers tables.now.provider.now.dimension prefs name.now options) }
{
    match width {
        UnitWidth::Long => UnitsFormatter::try_new_long_unstable::<
            UnitsLongV1,
            Grouped<'_, AllTables>,
        >(alloc, tables, prefs, name, options),
        UnitWidth::Short => UnitsFormatter::try_new_long_unstable::<
            UnitsShortV1,
            Grouped<'_, AllTables>,
        >(alloc, tables, prefs, name, options),
        UnitWidth::Narrow => UnitsFormatter::try_new_long_unstable::<
            UnitsNarrowV1,
            Grouped<'_, AllTables>,
        >(alloc, tables, prefs, name, options),
    }
}

/// Numbers with a unit, shortened by the short patterns.
#[tactic(auto, unfolding(crate::specs::Loaded::unit_short_loaded))]
fn load_unit_short(
    alloc: Global,
    all: &AllTables,
    settings: &Settings<'_>,
    name: &str,
    width: UnitWidth,
) -> Result<LoadedFormatter, DataError>
    ensures { Answers result
        (unit_short_loaded settings.now name.now width all.now.numbers all.now.dimension) }
{
    let options = compact_options(strategy_of(settings.grouping));
    let prefs = compact_preferences(settings);
    let tables = Grouped {
        provider: all,
        grouping: settings.grouping,
    };
    let formatter = load_short_units(alloc, &tables, prefs, name, width, options)?;
    let rounding = rounding_to(settings, compact_precision(settings.precision));
    Ok(LoadedFormatter {
        rounding: None,
        formatter: Formatter::ShortUnits(formatter, rounding),
    })
}

/// Numbers with a unit, shortened by the long patterns.
#[tactic(auto, unfolding(crate::specs::Loaded::unit_long_loaded))]
fn load_unit_long(
    alloc: Global,
    all: &AllTables,
    settings: &Settings<'_>,
    name: &str,
    width: UnitWidth,
) -> Result<LoadedFormatter, DataError>
    ensures { Answers result
        (unit_long_loaded settings.now name.now width all.now.numbers all.now.dimension) }
{
    let options = compact_options(strategy_of(settings.grouping));
    let prefs = compact_preferences(settings);
    let tables = Grouped {
        provider: all,
        grouping: settings.grouping,
    };
    let formatter = load_long_units(alloc, &tables, prefs, name, width, options)?;
    let rounding = rounding_to(settings, compact_precision(settings.precision));
    Ok(LoadedFormatter {
        rounding: None,
        formatter: Formatter::ShortUnits(formatter, rounding),
    })
}

/// Numbers with a unit, by their notation (this project's own).
#[tactic(auto, unfolding(crate::specs::Loaded::unit_by_notation))]
pub fn load_unit_by(
    alloc: Global,
    all: &AllTables,
    settings: &Settings<'_>,
    name: &str,
    width: UnitWidth,
    notation: Notation,
) -> Result<LoadedFormatter, DataError>
    ensures { Answers result
        (unit_by_notation notation settings.now name.now width all.now.numbers
        all.now.dimension) }
{
    match notation {
        Notation::Simple => load_unit(alloc, all, settings, name, width),
        Notation::CompactShort => load_unit_short(alloc, all, settings, name, width),
        Notation::CompactLong => load_unit_long(alloc, all, settings, name, width),
    }
}
