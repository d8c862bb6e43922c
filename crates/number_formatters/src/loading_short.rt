//! Formatters of compact numbers that are made of what tables answer.

ghost use Rattle.std.specs.Prelude.{◌≡◌};
ghost use Rattle.icu_provider.specs.Answer.{Answers};
ghost use Rattle.number_formatters.specs.Loaded.{compact_by, compact_precision, compact_preferences, compact_rounding, long_loaded, sets_digits, short_loaded};

use crate::formatter::{Formatter, LoadedFormatter};
use crate::grouped::{Grouped, strategy_of};
use crate::loading::rounding_to;
use crate::settings::{Settings, is_half_even};
use decimal_lines::{Mode, compact_options};
use icu_decimal::CompactDecimalFormatter;
use icu_decimal_options::preferences::CompactDecimalFormatterPreferences;
use icu_provider::DataError;
use icu_tables::Tables;
use number_rounding::Rounding;
use skeleton_settings::{Precision, Priority};
use std::alloc::Global;

/// The locale and the system that are wanted, for compact numbers.
pub(crate) fn compact_preferences(settings: &Settings<'_>) -> CompactDecimalFormatterPreferences
    ensures { result ≡ compact_preferences settings.now }
{
    CompactDecimalFormatterPreferences {
        locale_preferences: settings.locale,
        numbering_system: settings.system,
    }
}

/// The precision of compact numbers: no fraction digit, or two significant digits, where none is
/// set.
pub(crate) fn compact_precision(precision: Option<Precision>) -> Precision
    ensures { result ≡ compact_precision precision }
{
    match precision {
        Some(precision) => precision,
        None => Precision::Both {
            least: 0,
            most: Some(0),
            few: 1,
            many: 2,
            priority: Priority::Relaxed,
            keeps_least: true,
        },
    }
}

/// Whether the settings say how numbers are rounded, or how many digits they have.
pub(crate) fn sets_digits(settings: &Settings<'_>) -> bool
    ensures { result ≡ sets_digits settings.now }
{
    settings.precision.is_some()
        || settings.hides_zeros_of_whole
        || settings.integer_digits != 1
        || !is_half_even(settings.mode)
}

/// The rounding of compact numbers, if the settings have one.
fn compact_rounding(settings: &Settings<'_>) -> Option<Rounding>
    ensures { result ≡ compact_rounding settings.now }
{
    if sets_digits(settings) {
        Some(rounding_to(settings, compact_precision(settings.precision)))
    } else {
        None
    }
}

/// What writes compact numbers.
fn compact_by(formatter: CompactDecimalFormatter, rounding: Option<Rounding>) -> Formatter
    ensures { result ≡ compact_by formatter rounding }
{
    match rounding {
        Some(rounding) => Formatter::ShortNumbers(formatter, rounding),
        None => Formatter::Numbers(Mode::Compact(formatter)),
    }
}

/// Numbers shortened by the short patterns (this project's own).
#[tactic(auto, unfolding(crate::specs::Loaded::short_loaded))]
pub fn load_short(
    alloc: Global,
    tables: &Tables,
    settings: &Settings<'_>,
) -> Result<LoadedFormatter, DataError>
    ensures { Answers result (short_loaded settings.now tables.now) }
{
    let options = compact_options(strategy_of(settings.grouping));
    let prefs = compact_preferences(settings);
    let tables = Grouped {
        provider: tables,
        grouping: settings.grouping,
    };
    let formatter = CompactDecimalFormatter::try_new_short_unstable(
        alloc, &tables, prefs, options,
    )?;
    Ok(LoadedFormatter {
        rounding: None,
        formatter: compact_by(formatter, compact_rounding(settings)),
    })
}

/// Numbers shortened by the long patterns (this project's own).
#[tactic(auto, unfolding(crate::specs::Loaded::long_loaded))]
pub fn load_long(
    alloc: Global,
    tables: &Tables,
    settings: &Settings<'_>,
) -> Result<LoadedFormatter, DataError>
    ensures { Answers result (long_loaded settings.now tables.now) }
{
    let options = compact_options(strategy_of(settings.grouping));
    let prefs = compact_preferences(settings);
    let tables = Grouped {
        provider: tables,
        grouping: settings.grouping,
    };
    let formatter = CompactDecimalFormatter::try_new_long_unstable(alloc, &tables, prefs, options)?;
    Ok(LoadedFormatter {
        rounding: None,
        formatter: compact_by(formatter, compact_rounding(settings)),
    })
}
