//! The range pattern that a locale has in tables.

ghost use Rattle.std.specs.Prelude.{◌≡◌, Result};
ghost use Rattle.icu_provider.specs.Answer.{Answers, Refusal};
ghost use Rattle.icu_ranges.specs.Separator.{Separator};
ghost use Rattle.number_formatters.specs.Loaded.{preferences};
ghost use Rattle.number_forms.specs.Making.{StartsForm, start_error, started};
ghost use Rattle.talmuiga_c.specs.Patterns.{pattern_loaded};

use icu_decimal_options::preferences::DecimalFormatterPreferences;
use icu_provider::{DataError, DataErrorKind};
use icu_range_tables::RangeTables;
use icu_ranges::RangePattern;
use number_formatters::Settings;
use number_forms::StartError;
use std::alloc::Global;

/// Why there is no pattern if the tables reject.
fn start_error(error: DataError) -> StartError
    ensures { result ≡ start_error error.kind }
{
    match error.kind {
        DataErrorKind::OutOfMemory => StartError::OutOfMemory,
        _ => StartError::NoData,
    }
}

/// The locale and the numbering system of settings.
fn preferences(settings: &Settings<'_>) -> DecimalFormatterPreferences
    ensures { result ≡ preferences settings.now }
{
    DecimalFormatterPreferences {
        locale_preferences: settings.locale,
        numbering_system: settings.system,
    }
}

/// The pattern of tables for the locale and the numbering system of settings.
fn load_pattern(
    alloc: Global,
    tables: &RangeTables,
    settings: &Settings<'_>,
) -> Result<RangePattern, DataError>
    ensures { Answers result (pattern_loaded settings.now tables.now) }
{
    RangePattern::try_new_unstable(alloc, tables, preferences(settings))
}

/// The pattern that tables answer, or why there is none.
fn started(loaded: Result<RangePattern, DataError>) -> Result<RangePattern, StartError>
    ensures { (answer : Result Separator Refusal) → Answers loaded answer → StartsForm result
        (started answer) }
{
    match loaded {
        Ok(pattern) => Ok(pattern),
        Err(error) => Err(start_error(error)),
    }
}

/// The pattern of tables for the locale and the numbering system of settings, or why there is none.
pub fn pattern_of(
    alloc: Global,
    tables: &RangeTables,
    settings: &Settings<'_>,
) -> Result<RangePattern, StartError>
    ensures { StartsForm result (started (pattern_loaded settings.now tables.now)) }
{
    started(load_pattern(alloc, tables, settings))
}
