//! Whole documents.

ghost use Rattle.serde_json.specs.View.{view};
ghost use Rattle.icu_table_entries.specs.Reading.{Gives};
ghost use Rattle.icu_tables.specs.Tables.{tables_at, tables_of};

use crate::compact::CompactEntry;
use crate::digits::{DigitsEntry, SystemDigits};
use crate::rules::RulesEntry;
use crate::symbols::SymbolsEntry;
use icu_decimal_data::CompactPatterns;
use icu_decimal_symbols::DecimalSymbols;
use icu_pattern::SinglePlaceholder;
use icu_plurals::PluralRules;
use icu_table_entries::entries::{entries_under, optional_entries};
use icu_table_entries::fields::object_in;
use icu_table_entries::named::NamedEntry;
use icu_table_entries::whole_numbers::value_of;
use icu_table_entries::{Key, TableError};
use serde_json::Value;
use std::alloc::Global;
use std::marker::Model;

/// The data of formatters, read from a JSON document (this project's own format,
/// `docs/FORMATS.md`): symbols, digits, plural rules and compact patterns, each entry by its locale
/// or numbering system.
#[derive(Drop)]
pub struct Tables {
    pub(crate) symbols: Vec<NamedEntry<DecimalSymbols>>,
    pub(crate) digits: Vec<SystemDigits>,
    pub(crate) rules: Option<Vec<NamedEntry<PluralRules>>>,
    pub(crate) short: Option<Vec<NamedEntry<CompactPatterns<SinglePlaceholder>>>>,
    pub(crate) long: Option<Vec<NamedEntry<CompactPatterns<SinglePlaceholder>>>>,
    pub(crate) ordinals: Option<Vec<NamedEntry<PluralRules>>>,
}

impl Model for Tables {
    ghost use Rattle.std.specs.Prelude.{option_map};
    ghost use Rattle.icu_tables.specs.Tables.{TablesData};

    ghost Value = { TablesData };

    ghost view = { λ t. record {
      symbols = t.symbols.items;
      digits = t.digits.items;
      rules = option_map (λ v. v.items) t.rules;
      short = option_map (λ v. v.items) t.short;
      long = option_map (λ v. v.items) t.long;
      ordinals = option_map (λ v. v.items) t.ordinals;
    } };
}

impl Tables {
    /// The tables of a JSON text, or its first fault.
    ///
    /// A text that isn't JSON is rejected first, then a value that has a number anywhere that isn't
    /// a 64-bit whole number. Then keys are judged in the order `symbols`, `digits`, `rules`,
    /// `short`, `long`, `ordinals`, and each list entry by entry. In an entry the kinds of all fields are
    /// judged before their contents. Unknown keys are ignored, and of equal keys the last one
    /// counts.
    // promise: The text determines the tables, or the first fault.
    // mutations: locale_judged_before_kinds
    pub fn from_json(alloc: Global, text: &str) -> Result<Tables, TableError>
        ensures { Gives (λ x. x) result (tables_of text.now) }
    {
        let value = value_of(alloc, text)?;
        Tables::from_value(alloc, &value)
    }

    /// The tables of a value that was read from JSON, or its first fault.
    ///
    /// Keys are judged as by [`Tables::from_json`], which first searches the value for numbers that
    /// aren't 64-bit whole numbers.
    #[tactic(auto, unfolding(crate::specs::Tables::tables_at))]
    pub fn from_value(alloc: Global, value: &Value) -> Result<Tables, TableError>
        ensures { Gives (λ x. x) result (tables_at (view value.now)) }
    {
        let value = object_in(value, Key::Document)?;
        Ok(Tables {
            symbols: entries_under::<SymbolsEntry>(alloc, value, Key::Symbols)?,
            digits: entries_under::<DigitsEntry>(alloc, value, Key::Digits)?,
            rules: optional_entries::<RulesEntry>(alloc, value, Key::Rules)?,
            short: optional_entries::<CompactEntry>(alloc, value, Key::Short)?,
            long: optional_entries::<CompactEntry>(alloc, value, Key::Long)?,
            ordinals: optional_entries::<RulesEntry>(alloc, value, Key::Ordinals)?,
        })
    }
}
