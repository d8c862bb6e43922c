//! All tables of a text for one locale: entries of other locales aren't kept.

ghost use Rattle.std.specs.Prelude.{◌≡◌, IfOk, List, ℕ, Some};
ghost use Rattle.serde_json.specs.Data.{Members, object};
ghost use Rattle.serde_json.specs.Read.{read};
ghost use Rattle.icu_dimension_tables.specs.AllTables.{all_tables_of};
ghost use Rattle.icu_dimension_tables.specs.ForLocale.{HoldsAll, IsAllFor};

use crate::all_tables::AllTables;
use crate::currency_compact::CurrencyCompactEntry;
use crate::currency_digits::{DigitsRow, DigitsRowEntry, digits_of_rows};
use crate::currency_symbols::{CurrencySymbolsEntry, LocaleCurrencies};
use crate::money::{CurrenciesEntry, LocaleMoney};
use crate::percents::{LocalePercents, PercentsEntry};
use crate::tables::DimensionTables;
use crate::units::{UnitEntry, UnitPatterns};
use icu_decimal_symbols::DecimalSymbols;
use icu_dimension_data::CompactRows;
use icu_provider::DataLocale;
use icu_table_entries::named::NamedEntry;
use icu_table_entries::{Key, TableError};
use icu_tables::for_locale::{Found, Kept, document, once};
use icu_tables::symbols::SymbolsEntry;
use icu_tables::tokens::Unread;
use json::Reader;
use std::alloc::Global;
use std::marker::Model;

/// What is kept of the members of all tables.
#[derive(Drop)]
struct AllFound {
    numbers: Found,
    digits: Option<Vec<DigitsRow>>,
    percents: Option<Vec<NamedEntry<LocalePercents>>>,
    units: Option<Vec<UnitPatterns>>,
    money: Option<Vec<NamedEntry<LocaleMoney>>>,
    symbols: Option<Vec<LocaleCurrencies>>,
    decimals: Option<Vec<NamedEntry<DecimalSymbols>>>,
    compact: Option<Vec<NamedEntry<CompactRows>>>,
}

impl Model for AllFound {
    ghost use Rattle.std.specs.Prelude.{option_map};
    ghost use Rattle.icu_dimension_tables.specs.ForLocale.{AllFoundData};

    ghost Value = { AllFoundData };

    ghost view = { λ f. record {
      numbers = f.numbers;
      digits = option_map (λ v. v.items) f.digits;
      percents = option_map (λ v. v.items) f.percents;
      units = option_map (λ v. v.items) f.units;
      money = option_map (λ v. v.items) f.money;
      symbols = option_map (λ v. v.items) f.symbols;
      decimals = option_map (λ v. v.items) f.decimals;
      compact = option_map (λ v. v.items) f.compact;
    } };
}

impl Kept for AllFound {
    ghost use Rattle.icu_dimension_tables.specs.ForLocale.{HoldsAll};

    ghost holds = { λ locale members found. HoldsAll locale members found };

    fn none() -> AllFound {
        let numbers = Found::none();
        AllFound {
            numbers,
            digits: None,
            percents: None,
            units: None,
            money: None,
            symbols: None,
            decimals: None,
            compact: None,
        }
    }

    fn add(
        &mut self,
        alloc: Global,
        locale: &DataLocale,
        name: &str,
        reader: &mut Reader<'_>,
    ) -> Result<(), Unread> {
        match name {
            "currency_digits" => {
                let key = Key::CurrencyDigits;
                once::<DigitsRowEntry>(alloc, locale, key, reader, &mut self.digits)
            }
            "percents" => {
                once::<PercentsEntry>(alloc, locale, Key::Percents, reader, &mut self.percents)
            }
            "units" => once::<UnitEntry>(alloc, locale, Key::Units, reader, &mut self.units),
            "currencies" => {
                once::<CurrenciesEntry>(alloc, locale, Key::Currencies, reader, &mut self.money)
            }
            "currency_symbols" => {
                let key = Key::CurrencySymbols;
                once::<CurrencySymbolsEntry>(alloc, locale, key, reader, &mut self.symbols)
            }
            "currency_decimals" => {
                let key = Key::CurrencyDecimals;
                once::<SymbolsEntry>(alloc, locale, key, reader, &mut self.decimals)
            }
            "currency_compact" => {
                let key = Key::CurrencyCompact;
                once::<CurrencyCompactEntry>(alloc, locale, key, reader, &mut self.compact)
            }
            _ => self.numbers.add(alloc, locale, name, reader),
        }
    }
}

impl AllFound {
    /// All tables of what was found, if the lists are there that have to be.
    fn tables(self, alloc: Global) -> Result<AllTables, Unread>
        ensures { IfOk result (λ t. (locale text : List ℕ) (ds : Members) → HoldsAll locale ds self
            → read text ≡ Some (object ds) → IsAllFor locale t (all_tables_of text)) }
    {
        let digits = digits_of_rows(alloc, &self.digits)?;
        let numbers = self.numbers.tables()?;
        let dimension = DimensionTables {
            digits,
            percents: self.percents,
            units: self.units,
            money: self.money,
            symbols: self.symbols,
            decimals: self.decimals,
            compact: self.compact,
        };
        Ok(AllTables { numbers, dimension })
    }
}

/// All tables of a text, if nothing in it is rejected or rare.
fn tables(alloc: Global, locale: &DataLocale, text: &str) -> Result<AllTables, Unread>
    ensures { IfOk result (λ t. IsAllFor locale.now t (all_tables_of text.now)) }
{
    document::<AllFound>(alloc, locale, text)?.tables(alloc)
}

impl AllTables {
    ghost use Rattle.icu_dimension_tables.specs.ForLocale.{AllGivesFor};

    /// All tables of a JSON text for one locale, or the first fault of the text.
    ///
    /// The whole text is judged, as by [`AllTables::from_json`]: the same texts are rejected, for
    /// the same faults. For each identifier of the locale the tables answer what those of the whole
    /// text answer, and for digits of numbering systems and of currencies in any locale. What they
    /// answer in other locales isn't specified: unless the text has something rare, entries of
    /// other locales aren't kept.
    // promise: For its locale it answers and rejects as `from_json`.
    // mutations: for_locale_leaves_out_decimals, all_for_locale_rejects_what_is_rare
    pub fn from_json_for_locale(
        alloc: Global,
        text: &str,
        locale: &DataLocale,
    ) -> Result<AllTables, TableError>
        ensures { AllGivesFor locale.now result (all_tables_of text.now) }
    {
        match tables(alloc, locale, text) {
            Ok(tables) => Ok(tables),
            Err(Unread::OutOfMemory) => Err(TableError::OutOfMemory),
            Err(Unread::Other) => AllTables::from_json(alloc, text),
        }
    }
}
