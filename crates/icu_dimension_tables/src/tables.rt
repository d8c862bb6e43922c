//! Whole documents.

ghost use Rattle.serde_json.specs.View.{view};
ghost use Rattle.icu_table_entries.specs.Reading.{Gives};
ghost use Rattle.icu_dimension_tables.specs.DimensionTables.{dimension_tables_at, dimension_tables_of};

use crate::currency_compact::CurrencyCompactEntry;
use crate::currency_digits::currency_digits_under;
use crate::currency_symbols::{CurrencySymbolsEntry, LocaleCurrencies};
use crate::money::{CurrenciesEntry, LocaleMoney};
use crate::percents::{LocalePercents, PercentsEntry};
use crate::units::{UnitEntry, UnitPatterns};
use icu_decimal_symbols::DecimalSymbols;
use icu_dimension_data::{CompactRows, CurrencyDigits};
use icu_table_entries::entries::optional_entries;
use icu_table_entries::fields::object_in;
use icu_table_entries::named::NamedEntry;
use icu_table_entries::whole_numbers::value_of;
use icu_table_entries::{Key, TableError};
use icu_tables::symbols::SymbolsEntry;
use serde_json::Value;
use std::alloc::Global;
use std::marker::Model;

/// The data of formatters of money, percents and units, read from a JSON document (this project's
/// own format, `docs/FORMATS.md`).
#[derive(Drop)]
pub struct DimensionTables {
    pub(crate) digits: Option<CurrencyDigits>,
    pub(crate) percents: Option<Vec<NamedEntry<LocalePercents>>>,
    pub(crate) units: Option<Vec<UnitPatterns>>,
    pub(crate) money: Option<Vec<NamedEntry<LocaleMoney>>>,
    pub(crate) symbols: Option<Vec<LocaleCurrencies>>,
    pub(crate) decimals: Option<Vec<NamedEntry<DecimalSymbols>>>,
    pub(crate) compact: Option<Vec<NamedEntry<CompactRows>>>,
}

impl Model for DimensionTables {
    ghost use Rattle.std.specs.Prelude.{option_map};
    ghost use Rattle.icu_dimension_tables.specs.DimensionTables.{DimensionData};
    ghost use Rattle.icu_dimension_tables.specs.Money.{patterns_filed, placeholders_filed};
    ghost use Rattle.icu_dimension_tables.specs.Percents.{percents_filed, permilles_filed};

    ghost Value = { DimensionData };

    ghost view = { λ t. record {
      digits = t.digits;
      percents = option_map percents_filed (option_map (λ v. v.items) t.percents);
      permilles = option_map permilles_filed (option_map (λ v. v.items) t.percents);
      units = option_map (λ v. v.items) t.units;
      currencies = option_map patterns_filed (option_map (λ v. v.items) t.money);
      placeholders = option_map placeholders_filed (option_map (λ v. v.items) t.money);
      symbols = option_map (λ v. v.items) t.symbols;
      decimals = option_map (λ v. v.items) t.decimals;
      compact = option_map (λ v. v.items) t.compact;
    } };
}

impl DimensionTables {
    /// The tables of a JSON text, or its first fault.
    ///
    /// A text that isn't JSON is rejected first, then a value that has a number anywhere that isn't
    /// a 64-bit whole number. Then keys are judged in the order `currency_digits`, `percents`,
    /// `units`, `currencies`, `currency_symbols`, `currency_decimals`, `currency_compact`, and each
    /// list entry by entry. In an entry the kinds of all fields are judged before their contents;
    /// the rows of `currency_symbols` come last, one after the other, and so do those of
    /// `currency_compact`. Each key may be absent; unknown keys are ignored, and of equal keys the
    /// last one counts.
    // promise: The text determines the tables of money, or its first fault.
    // mutations: cash_digits_taken_for_digits
    #[tactic(auto, unfolding(crate::specs::DimensionTables::dimension_tables_of))]
    pub fn from_json(alloc: Global, text: &str) -> Result<DimensionTables, TableError>
        ensures { Gives (λ x. x) result (dimension_tables_of text.now) }
    {
        let value = value_of(alloc, text)?;
        DimensionTables::from_value(alloc, &value)
    }

    /// The tables of a value that was read from JSON, or its first fault.
    ///
    /// Keys are judged as by [`DimensionTables::from_json`], which first searches the value for
    /// numbers that aren't 64-bit whole numbers.
    #[tactic(auto, unfolding(crate::specs::DimensionTables::dimension_tables_at))]
    pub fn from_value(alloc: Global, value: &Value) -> Result<DimensionTables, TableError>
        ensures { Gives (λ x. x) result (dimension_tables_at (view value.now)) }
    {
        let value = object_in(value, Key::Document)?;
        Ok(DimensionTables {
            digits: currency_digits_under(alloc, value)?,
            percents: optional_entries::<PercentsEntry>(alloc, value, Key::Percents)?,
            units: optional_entries::<UnitEntry>(alloc, value, Key::Units)?,
            money: optional_entries::<CurrenciesEntry>(alloc, value, Key::Currencies)?,
            symbols: optional_entries::<CurrencySymbolsEntry>(alloc, value, Key::CurrencySymbols)?,
            decimals: optional_entries::<SymbolsEntry>(alloc, value, Key::CurrencyDecimals)?,
            compact: optional_entries::<CurrencyCompactEntry>(alloc, value, Key::CurrencyCompact)?,
        })
    }
}
