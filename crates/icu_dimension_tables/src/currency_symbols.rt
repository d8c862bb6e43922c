//! Entries of the symbols and names of currencies.

ghost use Rattle.std.specs.Prelude.{◌≡◌, IfOk, map, option_map};
ghost use Rattle.serde_json.specs.View.{view};
ghost use Rattle.icu_table_entries.specs.Reading.{Gives};
ghost use Rattle.icu_dimension_tables.specs.CurrencySymbols.{currency_row_at, currency_rows_at, row_filed, row_in, row_of_code, rows_of_locale};
ghost use Rattle.icu_provider.specs.Identifier.{identifier_of};

use crate::by_category::texts_in;
use crate::currency_digits::currency_code_of;
use crate::currency_names::{CurrencyName, names_listed};
use icu_dimension::provider::CurrencySymbols;
use icu_dimension_data::CurrencyCode;
use icu_plurals::PluralElements;
use icu_provider::{DataIdentifierBorrowed, DataLocale};
use icu_table_entries::entries::EntryKind;
use icu_table_entries::fields::{four_in, list_at, object_in, text_at, text_in};
use icu_table_entries::named::locale_of;
use icu_table_entries::{Key, Position, TableError};
use serde_json::Value;
use std::alloc::{AllocError, Global};
use std::marker::Model;

/// The symbols of a currency.
#[derive(Drop)]
pub struct SymbolTexts {
    short: String,
    narrow: String,
}

impl Model for SymbolTexts {
    ghost use Rattle.std.specs.String.{string_bytes};
    ghost use Rattle.icu_dimension.specs.CurrencyData.{SymbolTexts as TextsOfSymbols};

    ghost Value = { TextsOfSymbols };

    ghost view = { λ s. record { short = string_bytes s.short; narrow = string_bytes s.narrow } };
}

impl SymbolTexts {
    /// The symbols with memory of their own, as a formatter takes them.
    pub fn copy(&self, alloc: Global) -> Result<CurrencySymbols, AllocError>
        ensures { IfOk result (λ s. s ≡ self.now) }
    {
        CurrencySymbols::new(alloc, self.short.as_str(), self.narrow.as_str())
    }
}

/// A currency with its symbols and its names.
#[derive(Drop)]
pub struct CurrencyRow {
    code: CurrencyCode,
    pub symbols: SymbolTexts,
    pub names: PluralElements<CurrencyName>,
}

impl Model for CurrencyRow {
    ghost use Rattle.icu_dimension_tables.specs.CurrencySymbols.{CurrencyRow as RowOfCurrency};

    ghost Value = { RowOfCurrency };

    ghost view = { λ r. record { code = r.code; symbols = r.symbols; names = r.names } };
}

/// The currencies of a locale.
#[derive(Drop)]
pub struct LocaleCurrencies {
    locale: DataLocale,
    rows: Vec<CurrencyRow>,
}

impl Model for LocaleCurrencies {
    ghost use Rattle.icu_dimension_tables.specs.CurrencySymbols.{LocaleCurrencies as Currencies};

    ghost Value = { Currencies };

    ghost view = { λ c. record { locale = c.locale; rows = c.rows.items } };
}

/// The row of a list of four values.
#[tactic(auto, unfolding(crate::specs::CurrencySymbols::currency_row_at))]
fn currency_row_at(
    alloc: Global,
    position: Position,
    value: &Value,
) -> Result<CurrencyRow, TableError>
    ensures { Gives (λ x. x) result (currency_row_at position (view value.now)) }
{
    let (code, (short, (narrow, names))) = four_in(value, Key::Symbols)?;
    let code = text_in(code, Key::Symbols)?;
    let short = text_in(short, Key::Symbols)?;
    let narrow = text_in(narrow, Key::Symbols)?;
    let names = texts_in(names, Key::Symbols)?;
    let code = currency_code_of(position, code)?;
    let short = String::from_str(alloc, short)?;
    let narrow = String::from_str(alloc, narrow)?;
    let symbols = SymbolTexts { short, narrow };
    let names = names_listed(alloc, &names)?;
    Ok(CurrencyRow {
        code,
        symbols,
        names,
    })
}

/// Each row in turn.
fn currency_rows_at(
    alloc: Global,
    position: Position,
    values: &[Value],
) -> Result<Vec<CurrencyRow>, TableError>
    ensures { Gives (λ v. v.items) result (currency_rows_at position (map view values.now)) }
{
    let mut found = Vec::new(alloc);
    for index in 0..values.len() {
        found.push(currency_row_at(alloc, position, &values[index])?)?;
    }
    Ok(found)
}

/// The symbols of the currencies of a locale.
pub struct CurrencySymbolsEntry;

impl EntryKind for CurrencySymbolsEntry {
    type Entry = LocaleCurrencies;

    ghost use Rattle.std.specs.Prelude.{nat_eq};
    ghost use Rattle.std.specs.Cmp.Lexicographic.{pointwise};
    ghost use Rattle.icu_dimension_tables.specs.CurrencySymbols.{currency_symbols_at};

    ghost read_at = { currency_symbols_at };

    ghost serves = { λ locale entry. pointwise nat_eq locale entry.locale };

    #[tactic(auto, unfolding(crate::specs::CurrencySymbols::currency_symbols_at))]
    fn from_entry(
        alloc: Global,
        position: Position,
        value: &Value,
    ) -> Result<Self::Entry, TableError> {
        let value = object_in(value, position.key)?;
        let locale = text_at(value, Key::Locale)?;
        let values = list_at(value, Key::Symbols)?;
        let locale = locale_of(position, locale)?;
        let rows = currency_rows_at(alloc, position, values)?;
        Ok(LocaleCurrencies { locale, rows })
    }

    fn serves(entry: &Self::Entry, locale: &DataLocale) -> bool {
        *locale == entry.locale
    }
}

/// The first row of a currency.
#[tactic(auto, unfolding(crate::specs::CurrencySymbols::row_of_code))]
fn row_of_code<'a>(rows: &'a [CurrencyRow], code: &str) -> Option<&'a CurrencyRow>
    ensures { option_map (λ x. x.now) result ≡ row_of_code code.now rows.now }
{
    for row in rows {
        if code == row.code.as_str() {
            return Some(row);
        }
    }
    None
}

/// The rows of the first entry of a locale.
#[tactic(auto, unfolding(crate::specs::CurrencySymbols::rows_of_locale))]
fn rows_of_locale<'a>(entries: &'a [LocaleCurrencies], locale: &str) -> Option<&'a [CurrencyRow]>
    ensures { option_map (λ x. x.now) result ≡ rows_of_locale locale.now entries.now }
{
    for entry in entries {
        if locale == entry.locale.as_str() {
            return Some(entry.rows.as_slice());
        }
    }
    None
}

/// The row of the currency that is named, in the rows of a locale.
fn row_in<'a>(rows: Option<&'a [CurrencyRow]>, code: Option<&str>) -> Option<&'a CurrencyRow>
    ensures { option_map (λ x. x.now) result
        ≡ row_in (option_map (λ r. r.now) rows.entry) (option_map (λ c. c.now) code.entry) }
{
    match (rows, code) {
        (Some(rows), Some(code)) => row_of_code(rows, code),
        _ => None,
    }
}

/// The row of an identifier: a currency's code in a locale.
pub fn row_filed<'a>(
    entries: &'a [LocaleCurrencies],
    id: &DataIdentifierBorrowed<'_>,
) -> Option<&'a CurrencyRow>
    ensures { option_map (λ x. x.now) result ≡ row_filed (identifier_of id.now) entries.now }
{
    row_in(rows_of_locale(entries, id.locale()), id.system())
}
