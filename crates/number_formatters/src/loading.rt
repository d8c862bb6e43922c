//! Formatters that are made of what tables answer.

ghost use Rattle.std.specs.Prelude.{◌≡◌};
ghost use Rattle.icu_provider.specs.Answer.{Answers};
ghost use Rattle.icu_dimension_tables.specs.Answering.{digits_answer};
ghost use Rattle.number_formatters.specs.Loaded.{currency_loaded, currency_precision, digits_precision, money_loaded};
ghost use Rattle.number_formatters.specs.Loaded.{money_options, money_precision, named_loaded, names_loaded};
ghost use Rattle.number_formatters.specs.Loaded.{percent_loaded, permille_loaded, plain_loaded, preferences, rounding_to, settings_rounding, unit_loaded, units_loaded};

use crate::formatter::{Formatter, LoadedFormatter};
use crate::grouped::{Grouped, strategy_of};
use crate::settings::{Settings, UnitWidth};
use decimal_lines::{Mode, plain_options};
use icu_decimal::DecimalFormatter;
use icu_decimal_options::options::DecimalFormatterOptions;
use icu_decimal_options::preferences::DecimalFormatterPreferences;
use icu_dimension::options::{CurrencyFormatterOptions, CurrencySign, Width};
use icu_dimension::provider::{UnitsLongV1, UnitsNarrowV1, UnitsShortV1, load_currency_digits};
use icu_dimension::{CurrencyFormatter, LongCurrencyFormatter, PercentFormatter, UnitsFormatter};
use icu_dimension_data::{CurrencyCode, FractionDigits};
use icu_dimension_tables::AllTables;
use icu_provider::DataError;
use icu_tables::Tables;
use number_rounding::Rounding;
use skeleton_settings::Precision;
use std::alloc::Global;

/// The locale and the system that are wanted.
pub(crate) fn preferences(settings: &Settings<'_>) -> DecimalFormatterPreferences
    ensures { result ≡ preferences settings.now }
{
    DecimalFormatterPreferences {
        locale_preferences: settings.locale,
        numbering_system: settings.system,
    }
}

/// Rounding to a precision as it is wanted.
pub(crate) fn rounding_to(settings: &Settings<'_>, precision: Precision) -> Rounding
    ensures { result ≡ rounding_to settings.now precision }
{
    Rounding {
        precision,
        mode: settings.mode,
        hides_zeros_of_whole: settings.hides_zeros_of_whole,
        integer_digits: settings.integer_digits,
    }
}

/// Rounding to the precision that is wanted, if one is.
fn settings_rounding(settings: &Settings<'_>) -> Option<Rounding>
    ensures { result ≡ settings_rounding settings.now }
{
    Some(rounding_to(settings, settings.precision?))
}

/// Numbers in full (this project's own).
#[tactic(auto, unfolding(crate::specs::Loaded::plain_loaded))]
pub fn load_plain(
    alloc: Global,
    tables: &Tables,
    settings: &Settings<'_>,
) -> Result<LoadedFormatter, DataError>
    ensures { Answers result (plain_loaded settings.now tables.now) }
{
    let options = plain_options(strategy_of(settings.grouping));
    let prefs = preferences(settings);
    let tables = Grouped {
        provider: tables,
        grouping: settings.grouping,
    };
    let formatter = DecimalFormatter::try_new_unstable(alloc, &tables, prefs, options)?;
    Ok(LoadedFormatter {
        rounding: settings_rounding(settings),
        formatter: Formatter::Numbers(Mode::Plain(formatter)),
    })
}

/// As fine as the digits of a currency, in cash or not: in cash the multiples of its step.
fn currency_precision(is_cash: bool, digits: FractionDigits) -> Precision
    ensures { result ≡ currency_precision is_cash digits }
{
    if is_cash {
        Precision::Increment {
            increment: digits.cash_step.increment,
            power: i16::from(digits.cash_step.zeros) - i16::from(digits.cash),
            least: u16::from(digits.cash),
        }
    } else {
        let standard = u16::from(digits.standard);
        Precision::Fraction {
            least: standard,
            most: Some(standard),
        }
    }
}

/// The precision of a currency, in cash or not, by its digits.
fn digits_precision(
    alloc: Global,
    all: &AllTables,
    code: CurrencyCode,
    is_cash: bool,
) -> Result<Precision, DataError>
    ensures { Answers result
        (digits_precision (digits_answer all.now.dimension.digits) code is_cash) }
{
    let digits = load_currency_digits::<AllTables>(alloc, all)?;
    Ok(currency_precision(is_cash, digits.of(code)))
}

/// The precision that is wanted, or else that of the currency.
#[tactic(auto, unfolding(crate::specs::Loaded::money_precision))]
pub(crate) fn money_precision(
    alloc: Global,
    all: &AllTables,
    wanted: Option<Precision>,
    code: CurrencyCode,
    is_cash: bool,
) -> Result<Precision, DataError>
    ensures { Answers result
        (money_precision wanted (digits_answer all.now.dimension.digits) code is_cash) }
{
    match wanted {
        None => digits_precision(alloc, all, code, is_cash),
        Some(Precision::Currency { is_cash }) => digits_precision(alloc, all, code, is_cash),
        Some(precision) => Ok(precision),
    }
}

/// The options of money (this project's own).
pub fn money_options(
    settings: &Settings<'_>,
    width: Width,
    sign: CurrencySign,
) -> CurrencyFormatterOptions
    ensures { result ≡ money_options settings.now.grouping width sign }
{
    CurrencyFormatterOptions {
        decimal: plain_options(strategy_of(settings.grouping)),
        width,
        sign,
    }
}

/// The formatter of amounts of a currency.
#[tactic(auto, unfolding(crate::specs::Loaded::currency_loaded))]
fn load_currency(
    alloc: Global,
    all: &AllTables,
    settings: &Settings<'_>,
    code: CurrencyCode,
    options: CurrencyFormatterOptions,
) -> Result<CurrencyFormatter<DecimalFormatter>, DataError>
    ensures { Answers result
        (currency_loaded settings.now code options all.now.numbers all.now.dimension) }
{
    let prefs = preferences(settings);
    let tables = Grouped {
        provider: all,
        grouping: settings.grouping,
    };
    CurrencyFormatter::try_new_unstable::<Grouped<'_, AllTables>>(
        alloc, &tables, prefs, code, options,
    )
}

/// Amounts of a currency (this project's own). Their precision is asked for before the formatter.
// promise: Settings and tables determine the formatter of amounts.
// mutations: money_digits_of_cash_exchanged, cash_step_left_out
#[tactic(auto, unfolding(crate::specs::Loaded::money_loaded))]
pub fn load_money(
    alloc: Global,
    all: &AllTables,
    settings: &Settings<'_>,
    code: CurrencyCode,
    options: CurrencyFormatterOptions,
    is_cash: bool,
) -> Result<LoadedFormatter, DataError>
    ensures { Answers result
        (money_loaded settings.now code options is_cash all.now.numbers all.now.dimension) }
{
    let precision = money_precision(alloc, all, settings.precision, code, is_cash)?;
    let formatter = load_currency(alloc, all, settings, code, options)?;
    Ok(LoadedFormatter {
        rounding: Some(rounding_to(settings, precision)),
        formatter: Formatter::Money(formatter),
    })
}

/// The formatter of amounts with the name of a currency.
#[tactic(auto, unfolding(crate::specs::Loaded::names_loaded))]
fn load_names(
    alloc: Global,
    all: &AllTables,
    settings: &Settings<'_>,
    code: CurrencyCode,
) -> Result<LongCurrencyFormatter<DecimalFormatter>, DataError>
    ensures { Answers result
        (names_loaded settings.now code all.now.numbers all.now.dimension) }
{
    let options = plain_options(strategy_of(settings.grouping));
    let prefs = preferences(settings);
    let tables = Grouped {
        provider: all,
        grouping: settings.grouping,
    };
    LongCurrencyFormatter::try_new_unstable::<Grouped<'_, AllTables>>(
        alloc, &tables, prefs, code, options,
    )
}

/// Amounts with the name of a currency.
#[tactic(auto, unfolding(crate::specs::Loaded::named_loaded))]
pub(crate) fn load_named(
    alloc: Global,
    all: &AllTables,
    settings: &Settings<'_>,
    code: CurrencyCode,
    is_cash: bool,
) -> Result<LoadedFormatter, DataError>
    ensures { Answers result
        (named_loaded settings.now code is_cash all.now.numbers all.now.dimension) }
{
    let precision = money_precision(alloc, all, settings.precision, code, is_cash)?;
    let formatter = load_names(alloc, all, settings, code)?;
    Ok(LoadedFormatter {
        rounding: Some(rounding_to(settings, precision)),
        formatter: Formatter::MoneyNamed(formatter),
    })
}

/// Percents (this project's own).
#[tactic(auto, unfolding(crate::specs::Loaded::percent_loaded))]
pub fn load_percent(
    alloc: Global,
    all: &AllTables,
    settings: &Settings<'_>,
) -> Result<LoadedFormatter, DataError>
    ensures { Answers result (percent_loaded settings.now all.now.numbers all.now.dimension) }
{
    let options = plain_options(strategy_of(settings.grouping));
    let prefs = preferences(settings);
    let tables = Grouped {
        provider: all,
        grouping: settings.grouping,
    };
    let formatter = PercentFormatter::try_new_unstable::<Grouped<'_, AllTables>>(
        alloc, &tables, prefs, options,
    )?;
    Ok(LoadedFormatter {
        rounding: settings_rounding(settings),
        formatter: Formatter::Percent(formatter),
    })
}

/// Permilles (this project's own).
#[tactic(auto, unfolding(crate::specs::Loaded::permille_loaded))]
pub fn load_permille(
    alloc: Global,
    all: &AllTables,
    settings: &Settings<'_>,
) -> Result<LoadedFormatter, DataError>
    ensures { Answers result (permille_loaded settings.now all.now.numbers all.now.dimension) }
{
    let options = plain_options(strategy_of(settings.grouping));
    let prefs = preferences(settings);
    let tables = Grouped {
        provider: all,
        grouping: settings.grouping,
    };
    let formatter = PercentFormatter::try_new_permille_unstable::<Grouped<'_, AllTables>>(
        alloc, &tables, prefs, options,
    )?;
    Ok(LoadedFormatter {
        rounding: settings_rounding(settings),
        formatter: Formatter::Percent(formatter),
    })
}

/// The formatter of numbers with a unit in a width.
fn load_units(
    alloc: Global,
    tables: &Grouped<'_, AllTables>,
    prefs: DecimalFormatterPreferences,
    name: &str,
    width: UnitWidth,
    options: DecimalFormatterOptions,
) -> Result<UnitsFormatter<DecimalFormatter>, DataError>
    ensures { Answers result
        (units_loaded tables.now.grouping width tables.now.provider.now.numbers
        tables.now.provider.now.dimension prefs name.now options) }
{
    match width {
        UnitWidth::Long => UnitsFormatter::try_new_unstable::<UnitsLongV1, Grouped<'_, AllTables>>(
            alloc, tables, prefs, name, options,
        ),
        UnitWidth::Short => UnitsFormatter::try_new_unstable::<
            UnitsShortV1,
            Grouped<'_, AllTables>,
        >(alloc, tables, prefs, name, options),
        UnitWidth::Narrow => UnitsFormatter::try_new_unstable::<
            UnitsNarrowV1,
            Grouped<'_, AllTables>,
        >(alloc, tables, prefs, name, options),
    }
}

/// Numbers with a unit.
#[tactic(auto, unfolding(crate::specs::Loaded::unit_loaded))]
pub(crate) fn load_unit(
    alloc: Global,
    all: &AllTables,
    settings: &Settings<'_>,
    name: &str,
    width: UnitWidth,
) -> Result<LoadedFormatter, DataError>
    ensures { Answers result
        (unit_loaded settings.now name.now width all.now.numbers all.now.dimension) }
{
    let options = plain_options(strategy_of(settings.grouping));
    let tables = Grouped {
        provider: all,
        grouping: settings.grouping,
    };
    let formatter = load_units(alloc, &tables, preferences(settings), name, width, options)?;
    Ok(LoadedFormatter {
        rounding: settings_rounding(settings),
        formatter: Formatter::Units(formatter),
    })
}
