//! The mode that the arguments and the file of tables make.

ghost use Rattle.std.specs.Prelude.{◌≡◌, Ok, Err, IfOk, IfErr};
ghost use Rattle.decimal_lines.specs.LineResults.{HasTable};
ghost use Rattle.decimal_lines.specs.declared.mode.Mode.TheVariants.{Compact};
ghost use Rattle.decimal_lines.specs.ModeOfTables.{Starts, compact_options, compact_preferences, long_mode, mode_by, mode_of, plain_mode, plain_options};
ghost use Rattle.decimal_lines.specs.ModeOfTables.{plain_preferences, short_mode, start_error};

use crate::mode::{Mode, StartError};
use crate::words::{Style, Words};
use icu_decimal::{CompactDecimalFormatter, DecimalFormatter};
use icu_decimal_options::options::{
    CompactDecimalFormatterOptions, DecimalFormatterOptions, GroupingStrategy,
};
use icu_decimal_options::preferences::{
    CompactDecimalFormatterPreferences, DecimalFormatterPreferences,
};
use icu_provider::{DataError, DataErrorKind};
use icu_table_entries::TableError;
use icu_tables::Tables;
use std::alloc::Global;
use std::str;

/// The options of plain numbers under a strategy, or the default ones (this project's own).
pub fn plain_options(grouping: Option<GroupingStrategy>) -> DecimalFormatterOptions
    ensures { result ≡ plain_options grouping }
{
    match grouping {
        Some(strategy) => DecimalFormatterOptions::from(strategy),
        None => DecimalFormatterOptions::default(),
    }
}

/// The options of compact numbers under a strategy, or the default ones, which have `Min2` (this
/// project's own).
pub fn compact_options(grouping: Option<GroupingStrategy>) -> CompactDecimalFormatterOptions
    ensures { result ≡ compact_options grouping }
{
    match grouping {
        Some(strategy) => CompactDecimalFormatterOptions::from(strategy),
        None => CompactDecimalFormatterOptions::default(),
    }
}

/// The preferences for compact numbers.
fn compact_preferences(words: &Words<'_>) -> CompactDecimalFormatterPreferences
    ensures { result ≡ compact_preferences words.now }
{
    CompactDecimalFormatterPreferences {
        locale_preferences: words.locale,
        numbering_system: words.system,
    }
}

/// The preferences for plain numbers.
fn plain_preferences(words: &Words<'_>) -> DecimalFormatterPreferences
    ensures { result ≡ plain_preferences words.now }
{
    DecimalFormatterPreferences {
        locale_preferences: words.locale,
        numbering_system: words.system,
    }
}

/// Why there is no mode if the tables reject.
fn start_error(error: DataError) -> StartError
    ensures { result ≡ start_error error.kind }
{
    match error.kind {
        DataErrorKind::OutOfMemory => StartError::OutOfMemory,
        _ => StartError::NoData,
    }
}

/// Plain numbers.
#[tactic(auto, unfolding(crate::specs::ModeOfTables::plain_mode))]
fn plain_mode(alloc: Global, tables: &Tables, words: &Words<'_>) -> Result<Mode, StartError>
    ensures mode { Starts result (plain_mode words.now tables.now) }
    ensures table { IfOk result (λ mode. HasTable mode) }
{
    let options = plain_options(words.grouping);
    match DecimalFormatter::try_new_unstable(alloc, tables, plain_preferences(words), options) {
        Ok(formatter) => Ok(Mode::Plain(formatter)),
        Err(error) => Err(start_error(error)),
    }
}

/// The mode of a formatter of compact numbers, or why there is none.
fn compact_mode(made: Result<CompactDecimalFormatter, DataError>) -> Result<Mode, StartError>
    ensures mode { IfOk made (λ formatter. result ≡ Ok (Compact formatter)) }
    ensures refused { IfErr made (λ error. result ≡ Err (start_error error.kind)) }
{
    match made {
        Ok(formatter) => Ok(Mode::Compact(formatter)),
        Err(error) => Err(start_error(error)),
    }
}

/// Numbers shortened by the short patterns.
#[tactic(auto, unfolding(crate::specs::ModeOfTables::short_mode))]
fn short_mode(alloc: Global, tables: &Tables, words: &Words<'_>) -> Result<Mode, StartError>
    ensures mode { Starts result (short_mode words.now tables.now) }
    ensures table { IfOk result (λ mode. HasTable mode) }
{
    let prefs = compact_preferences(words);
    let options = compact_options(words.grouping);
    compact_mode(CompactDecimalFormatter::try_new_short_unstable(alloc, tables, prefs, options))
}

/// Numbers shortened by the long patterns.
#[tactic(auto, unfolding(crate::specs::ModeOfTables::long_mode))]
fn long_mode(alloc: Global, tables: &Tables, words: &Words<'_>) -> Result<Mode, StartError>
    ensures mode { Starts result (long_mode words.now tables.now) }
    ensures table { IfOk result (λ mode. HasTable mode) }
{
    let prefs = compact_preferences(words);
    let options = compact_options(words.grouping);
    compact_mode(CompactDecimalFormatter::try_new_long_unstable(alloc, tables, prefs, options))
}

/// The mode of the style that is asked for.
#[tactic(auto, unfolding(crate::specs::ModeOfTables::mode_by))]
fn mode_by(alloc: Global, tables: &Tables, words: &Words<'_>) -> Result<Mode, StartError>
    ensures mode { Starts result (mode_by words.now tables.now) }
    ensures table { IfOk result (λ mode. HasTable mode) }
{
    match words.style {
        Style::Plain => plain_mode(alloc, tables, words),
        Style::Short => short_mode(alloc, tables, words),
        Style::Long => long_mode(alloc, tables, words),
    }
}

/// The mode of a text of tables.
#[tactic(auto, unfolding(crate::specs::ModeOfTables::mode_of))]
fn mode_of(alloc: Global, words: &Words<'_>, text: &str) -> Result<Mode, StartError>
    ensures mode { Starts result (mode_of words.now text.now) }
    ensures table { IfOk result (λ mode. HasTable mode) }
{
    match Tables::from_json_for_locale(alloc, text, &words.locale) {
        Ok(tables) => mode_by(alloc, &tables, words),
        Err(TableError::OutOfMemory) => Err(StartError::OutOfMemory),
        Err(_) => Err(StartError::Tables),
    }
}

impl Mode {
    ghost use Rattle.std.specs.Prelude.{◌≡◌, Err, IfOk};
    ghost use Rattle.std.specs.Str.{IsUtf8};
    ghost use Rattle.decimal_lines.specs.ModeOfTables.{Starts, mode_of};

    /// The mode that the arguments ask for, by the bytes of the file of tables (this project's
    /// own).
    ///
    /// `Tables` if the file isn't UTF-8 or its text is rejected; `NoData` if the tables lack data
    /// that the locale's formatter needs; `OutOfMemory` if an allocation fails.
    // promise: Arguments and tables determine the mode, or the reason.
    // mutations: make_short_by_the_long_patterns
    pub fn make(alloc: Global, words: &Words<'_>, file: &[u8]) -> Result<Mode, StartError>
        ensures text { IsUtf8 file.now → Starts result (mode_of words.now file.now) }
        ensures no_text { ¬ (IsUtf8 file.now) → result ≡ Err StartError.Tables }
        ensures table { IfOk result (λ mode. HasTable mode) }
    {
        let Ok(text) = simdutf8::compat::from_utf8(file) else {
            return Err(StartError::Tables);
        };
        mode_of(alloc, words, text)
    }
}
