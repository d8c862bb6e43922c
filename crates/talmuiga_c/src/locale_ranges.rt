//! What tables say of ranges for a locale.

ghost use Rattle.std.specs.Prelude.{◌≡◌, IfErr, IfOk, Ok, Result};
ghost use Rattle.icu_range_tables.specs.RangeTables.{RangeData, range_tables_of};
ghost use Rattle.number_forms.specs.Making.{StartsForm, StopsForm, read_then, table_error};
ghost use Rattle.number_forms.specs.declared.error.StartError.{StartError};
ghost use Rattle.talmuiga_c.specs.LocaleRanges.{categories_loaded, ranges_asked, ranges_in, ranges_loaded};
ghost use Rattle.talmuiga_c.specs.declared.locale_ranges.LocaleRanges.{LocaleRanges};

use crate::asked::text_in;
use crate::patterns::pattern_of;
use icu_plurals::PluralRulesPreferences;
use icu_provider::DataErrorKind;
use icu_range_tables::RangeTables;
use icu_ranges::{PluralRanges, RangePattern};
use icu_table_entries::TableError;
use number_formatters::Settings;
use number_forms::StartError;
use std::alloc::Global;

/// How ranges are written in a locale.
#[derive(Drop)]
pub struct LocaleRanges {
    /// What stands between the two numbers.
    pub pattern: RangePattern,
    /// The plural categories of ranges.
    pub plural_ranges: PluralRanges,
}

/// Why there are no ranges if the text is rejected.
fn table_error(error: TableError) -> StartError
    ensures { result ≡ table_error error }
{
    match error {
        TableError::OutOfMemory => StartError::OutOfMemory,
        error => StartError::Refused(error),
    }
}

/// The categories of ranges of tables for the locale of settings; none where the tables have none.
fn categories_of(
    alloc: Global,
    tables: &RangeTables,
    settings: &Settings<'_>,
) -> Result<PluralRanges, StartError>
    ensures loaded { IfOk result (λ ranges. ranges ≡ categories_loaded settings.now tables.now) }
    ensures memory { IfErr result (λ error. error ≡ StartError.OutOfMemory) }
{
    let prefs = PluralRulesPreferences {
        locale_preferences: settings.locale,
    };
    match PluralRanges::try_new_unstable(alloc, tables, prefs) {
        Ok(ranges) => Ok(ranges),
        Err(error) => match error.kind {
            DataErrorKind::OutOfMemory => Err(StartError::OutOfMemory),
            _ => Ok(PluralRanges::empty(alloc)),
        },
    }
}

/// What tables say of ranges for the locale and the numbering system of settings.
fn ranges_of(
    alloc: Global,
    tables: &RangeTables,
    settings: &Settings<'_>,
) -> Result<LocaleRanges, StartError>
    ensures { StartsForm result (ranges_loaded settings.now tables.now) }
{
    let pattern = pattern_of(alloc, tables, settings)?;
    let plural_ranges = categories_of(alloc, tables, settings)?;
    Ok(LocaleRanges {
        pattern,
        plural_ranges,
    })
}

/// The tables of ranges of a text.
fn tables_in(alloc: Global, text: &str) -> Result<RangeTables, StartError>
    ensures tables { IfOk result (λ tables. range_tables_of text.now ≡ Ok tables) }
    ensures refused { IfErr result (λ error.
        (next : RangeData → Result LocaleRanges StartError) →
        StopsForm error (read_then (range_tables_of text.now) next)) }
{
    match RangeTables::from_json(alloc, text) {
        Ok(tables) => Ok(tables),
        Err(error) => Err(table_error(error)),
    }
}

/// What a text of tables says of ranges.
fn ranges_in(alloc: Global, settings: &Settings<'_>, text: &str) -> Result<LocaleRanges, StartError>
    ensures { StartsForm result (ranges_in settings.now text.now) }
{
    let tables = tables_in(alloc, text)?;
    ranges_of(alloc, &tables, settings)
}

/// What the bytes of a file of tables say of ranges.
#[tactic(auto, unfolding(crate::specs::LocaleRanges::ranges_asked))]
pub fn ranges_asked(
    alloc: Global,
    settings: &Settings<'_>,
    tables: &[u8],
) -> Result<LocaleRanges, StartError>
    ensures { StartsForm result (ranges_asked settings.now tables.now) }
{
    match text_in(tables) {
        Some(text) => ranges_in(alloc, settings, text),
        None => Err(StartError::NotUtf8),
    }
}
