//! The form that is wanted, by the bytes of a file of tables.

ghost use Rattle.std.specs.Prelude.{◌≡◌, Err, IfErr, IfOk, Result};
ghost use Rattle.icu_provider.specs.Answer.{Answers, Refusal};
ghost use Rattle.icu_tables.specs.ForLocale.{IsFor};
ghost use Rattle.icu_tables.specs.Tables.{TablesData, tables_of};
ghost use Rattle.icu_dimension_tables.specs.AllTables.{AllData, all_tables_of};
ghost use Rattle.icu_dimension_tables.specs.ForLocale.{IsAllFor};
ghost use Rattle.number_formatters.specs.Settings.{unit_text};
ghost use Rattle.number_formatters.specs.Loaded.{compact_money_options, long_loaded, money_loaded, money_options, money_short_loaded, named_by_notation, percent_loaded, permille_loaded};
ghost use Rattle.number_formatters.specs.Loaded.{plain_loaded, short_loaded, unit_by_notation};
ghost use Rattle.number_formatters.specs.declared.formatter.LoadedFormatter.{LoadedFormatter};
ghost use Rattle.number_forms.specs.Forms.{FormData};
ghost use Rattle.number_forms.specs.Making.{StartsForm, StopsForm, form_of, form_started, form_with, read_then, start_error, table_error, with_all};
ghost use Rattle.number_forms.specs.Making.{with_tables};

use crate::error::StartError;
use crate::form::Form;
use icu_dimension::options::{CurrencyFormatterOptions, CurrencySign, Width};
use icu_dimension_data::CurrencyCode;
use icu_dimension_tables::AllTables;
use icu_provider::{DataError, DataErrorKind};
use icu_table_entries::TableError;
use icu_tables::Tables;
use number_formatters::{
    Kind, LoadedFormatter, Settings, UnitName, UnitWidth, compact_money_options, load_long,
    load_money, load_money_short, load_named_by, load_percent, load_permille, load_plain,
    load_short, load_unit_by, money_options,
};
use skeleton_settings::Notation;
use std::alloc::Global;
use std::str;

/// Why there is no form if the tables reject.
fn start_error(error: DataError) -> StartError
    ensures { result ≡ start_error error.kind }
{
    match error.kind {
        DataErrorKind::OutOfMemory => StartError::OutOfMemory,
        _ => StartError::NoData,
    }
}

/// Why there is no form if the text is rejected.
fn table_error(error: TableError) -> StartError
    ensures { result ≡ table_error error }
{
    match error {
        TableError::OutOfMemory => StartError::OutOfMemory,
        error => StartError::Refused(error),
    }
}

/// The form of settings with a formatter that tables make.
fn form_with(settings: &Settings<'_>, loaded: LoadedFormatter) -> Form
    ensures { result ≡ form_with settings.now loaded }
{
    Form {
        scale: settings.scale,
        rounding: loaded.rounding,
        sign: settings.sign,
        formatter: loaded.formatter,
    }
}

/// The form of settings with what tables answer, or why there is none.
fn started(
    settings: &Settings<'_>,
    loaded: Result<LoadedFormatter, DataError>,
) -> Result<Form, StartError>
    ensures { (answer : Result LoadedFormatter Refusal) → Answers loaded answer → StartsForm result
        (form_started settings.now answer) }
{
    match loaded {
        Ok(loaded) => Ok(form_with(settings, loaded)),
        Err(error) => Err(start_error(error)),
    }
}

/// The tables of numbers of a text, for the locale.
fn tables_in(alloc: Global, settings: &Settings<'_>, text: &str) -> Result<Tables, StartError>
    ensures tables { IfOk result (λ tables. IsFor settings.now.locale tables (tables_of text.now)) }
    ensures refused { IfErr result (λ error. (next : TablesData → Result FormData StartError) →
        StopsForm error (read_then (tables_of text.now) next)) }
{
    match Tables::from_json_for_locale(alloc, text, &settings.locale) {
        Ok(tables) => Ok(tables),
        Err(error) => Err(table_error(error)),
    }
}

/// All tables of a text, for the locale.
fn all_in(alloc: Global, settings: &Settings<'_>, text: &str) -> Result<AllTables, StartError>
    ensures tables { IfOk result (λ all.
        IsAllFor settings.now.locale all (all_tables_of text.now)) }
    ensures refused { IfErr result (λ error. (next : AllData → Result FormData StartError) →
        StopsForm error (read_then (all_tables_of text.now) next)) }
{
    match AllTables::from_json_for_locale(alloc, text, &settings.locale) {
        Ok(all) => Ok(all),
        Err(error) => Err(table_error(error)),
    }
}

/// Numbers in full, by a text of tables.
fn plain_form(alloc: Global, settings: &Settings<'_>, text: &str) -> Result<Form, StartError>
    ensures { StartsForm result (with_tables settings.now text.now (plain_loaded settings.now)) }
{
    let tables = tables_in(alloc, settings, text)?;
    started(settings, load_plain(alloc, &tables, settings))
}

/// Numbers shortened by the short patterns, by a text of tables.
fn short_form(alloc: Global, settings: &Settings<'_>, text: &str) -> Result<Form, StartError>
    ensures { StartsForm result (with_tables settings.now text.now (short_loaded settings.now)) }
{
    let tables = tables_in(alloc, settings, text)?;
    started(settings, load_short(alloc, &tables, settings))
}

/// Numbers shortened by the long patterns, by a text of tables.
fn long_form(alloc: Global, settings: &Settings<'_>, text: &str) -> Result<Form, StartError>
    ensures { StartsForm result (with_tables settings.now text.now (long_loaded settings.now)) }
{
    let tables = tables_in(alloc, settings, text)?;
    started(settings, load_long(alloc, &tables, settings))
}

/// Amounts of a currency, by a text of tables.
fn money_form(
    alloc: Global,
    settings: &Settings<'_>,
    text: &str,
    code: CurrencyCode,
    options: CurrencyFormatterOptions,
    is_cash: bool,
) -> Result<Form, StartError>
    ensures { StartsForm result
        (with_all settings.now text.now (money_loaded settings.now code options is_cash)) }
{
    let all = all_in(alloc, settings, text)?;
    started(
        settings,
        load_money(alloc, &all, settings, code, options, is_cash),
    )
}

/// Amounts with the name of a currency, by a text of tables.
fn named_form(
    alloc: Global,
    settings: &Settings<'_>,
    text: &str,
    code: CurrencyCode,
    is_cash: bool,
    notation: Notation,
) -> Result<Form, StartError>
    ensures { StartsForm result
        (with_all settings.now text.now (named_by_notation notation settings.now code is_cash)) }
{
    let all = all_in(alloc, settings, text)?;
    started(
        settings,
        load_named_by(alloc, &all, settings, code, is_cash, notation),
    )
}

/// Compact amounts of a currency, by a text of tables.
fn money_short_form(
    alloc: Global,
    settings: &Settings<'_>,
    text: &str,
    code: CurrencyCode,
    options: CurrencyFormatterOptions,
) -> Result<Form, StartError>
    ensures { StartsForm result
        (with_all settings.now text.now (money_short_loaded settings.now code options)) }
{
    let all = all_in(alloc, settings, text)?;
    started(
        settings,
        load_money_short(alloc, &all, settings, code, options),
    )
}

/// Percents, by a text of tables.
fn percent_form(alloc: Global, settings: &Settings<'_>, text: &str) -> Result<Form, StartError>
    ensures { StartsForm result (with_all settings.now text.now (percent_loaded settings.now)) }
{
    let all = all_in(alloc, settings, text)?;
    started(settings, load_percent(alloc, &all, settings))
}

/// Permilles, by a text of tables.
fn permille_form(alloc: Global, settings: &Settings<'_>, text: &str) -> Result<Form, StartError>
    ensures { StartsForm result (with_all settings.now text.now (permille_loaded settings.now)) }
{
    let all = all_in(alloc, settings, text)?;
    started(settings, load_permille(alloc, &all, settings))
}

/// Numbers with a unit, by a text of tables.
fn unit_form(
    alloc: Global,
    settings: &Settings<'_>,
    text: &str,
    name: &str,
    width: UnitWidth,
    notation: Notation,
) -> Result<Form, StartError>
    ensures { StartsForm result
        (with_all settings.now text.now (unit_by_notation notation settings.now name.now width)) }
{
    let all = all_in(alloc, settings, text)?;
    started(
        settings,
        load_unit_by(alloc, &all, settings, name, width, notation),
    )
}

/// Compact amounts of a currency with a symbol, by a text of tables.
fn money_short_with(
    alloc: Global,
    settings: &Settings<'_>,
    text: &str,
    code: CurrencyCode,
    width: Width,
    sign: CurrencySign,
) -> Result<Form, StartError>
    ensures { StartsForm result (with_all settings.now text.now
        (money_short_loaded settings.now code
        (compact_money_options settings.now.grouping width sign))) }
{
    let options = compact_money_options(settings.grouping, width, sign);
    money_short_form(alloc, settings, text, code, options)
}

/// Numbers with a unit of this name, by a text of tables.
fn unit_named(
    alloc: Global,
    settings: &Settings<'_>,
    text: &str,
    unit: UnitName<'_>,
    width: UnitWidth,
    notation: Notation,
) -> Result<Form, StartError>
    ensures { StartsForm result (with_all settings.now text.now
        (unit_by_notation notation settings.now (unit_text unit.entry) width)) }
{
    unit_form(alloc, settings, text, unit.text(), width, notation)
}

/// The form that is wanted, by a text of tables.
#[tactic(auto, unfolding(crate::specs::Making::form_of))]
fn form_of(alloc: Global, settings: &Settings<'_>, text: &str) -> Result<Form, StartError>
    ensures { StartsForm result (form_of settings.now text.now) }
{
    match settings.kind {
        Kind::Plain => plain_form(alloc, settings, text),
        Kind::Short => short_form(alloc, settings, text),
        Kind::Long => long_form(alloc, settings, text),
        Kind::Money {
            code,
            width,
            sign,
            is_cash,
        } => {
            let options = money_options(settings, width, sign);
            money_form(alloc, settings, text, code, options, is_cash)
        }
        Kind::MoneyNamed {
            code,
            is_cash,
            notation,
        } => named_form(alloc, settings, text, code, is_cash, notation),
        Kind::MoneyShort { code, width, sign } => {
            money_short_with(alloc, settings, text, code, width, sign)
        }
        Kind::Percent => percent_form(alloc, settings, text),
        Kind::Permille => permille_form(alloc, settings, text),
        Kind::Unit {
            unit,
            width,
            notation,
        } => unit_named(alloc, settings, text, unit, width, notation),
    }
}

impl Form {
    ghost use Rattle.std.specs.Prelude.{◌≡◌, Err};
    ghost use Rattle.std.specs.Str.{IsUtf8};
    ghost use Rattle.number_forms.specs.Making.{StartsForm, form_of};

    /// The form that is wanted, by the bytes of a file of tables (this project's own).
    ///
    /// `NotUtf8` if the file isn't UTF-8; `Refused` with the first fault of its text, of the tables
    /// of numbers first, and then, for money, percents and units, of theirs; `NoData` if the tables
    /// lack data that the form needs; `OutOfMemory` if an allocation fails.
    // promise: Options and tables determine the form, or why there is none.
    // mutations: compact_money_in_full
    pub fn of(alloc: Global, settings: &Settings<'_>, file: &[u8]) -> Result<Form, StartError>
        ensures text { IsUtf8 file.now → StartsForm result (form_of settings.now file.now) }
        ensures no_text { ¬ (IsUtf8 file.now) → result ≡ Err StartError.NotUtf8 }
    {
        let Ok(text) = str::from_utf8(file) else {
            return Err(StartError::NotUtf8);
        };
        form_of(alloc, settings, text)
    }
}
