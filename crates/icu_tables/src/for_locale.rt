//! The tables of a text for one locale: entries of other locales aren't kept.

ghost use Rattle.std.specs.Prelude.{◌≡◌, ℕ, IfOk, List, OnOk, Some, option_map};
ghost use Rattle.serde_json.specs.Data.{Members, no_members, object};
ghost use Rattle.serde_json.specs.Read.{read};
ghost use Rattle.icu_tables.specs.ForLocale.{AddsMembers, AreEntries, Holds, IsFor, IsOnce};
ghost use Rattle.icu_tables.specs.Owned.{AreMembersOf};
ghost use Rattle.icu_tables.specs.Tables.{tables_of};

use crate::compact::CompactEntry;
use crate::digits::{DigitsEntry, SystemDigits};
use crate::rules::RulesEntry;
use crate::symbols::SymbolsEntry;
use crate::tables::Tables;
use crate::tokens::{Unread, owned};
use icu_decimal_data::CompactPatterns;
use icu_decimal_symbols::DecimalSymbols;
use icu_pattern::SinglePlaceholder;
use icu_plurals::PluralRules;
use icu_provider::DataLocale;
use icu_table_entries::entries::EntryKind;
use icu_table_entries::named::NamedEntry;
use icu_table_entries::{Key, Position, TableError};
use json::{Reader, Scratch, Token};
use std::alloc::Global;
use std::marker::Model;

/// How deep the values under the keys of a document may nest.
const MOST_NESTED: usize = 126;

/// How deep the entries in the lists under its keys may nest.
const MOST_NESTED_ENTRY: usize = MOST_NESTED - 1;

/// What is kept of the members of a document, for a locale.
pub trait Kept: Drop + Sized {
    /// What is kept of these members for a locale.
    ghost holds: { List ℕ → Members → Self → Type 0 };

    /// What is kept before the first member.
    fn none() -> Self
        ensures { (locale : List ℕ) → holds locale no_members result };

    /// Reads a member's value, and adds what is kept of it.
    fn add(
        &mut self,
        alloc: Global,
        locale: &DataLocale,
        name: &str,
        reader: &mut Reader<'_>,
    ) -> Result<(), Unread>
        ensures { OnOk result
            (AddsMembers holds locale.now name.now reader.old self.old self.new reader.new) };
}

/// What is kept of the members of tables of numbers.
#[derive(Drop)]
pub struct Found {
    symbols: Option<Vec<NamedEntry<DecimalSymbols>>>,
    digits: Option<Vec<SystemDigits>>,
    rules: Option<Vec<NamedEntry<PluralRules>>>,
    short: Option<Vec<NamedEntry<CompactPatterns<SinglePlaceholder>>>>,
    long: Option<Vec<NamedEntry<CompactPatterns<SinglePlaceholder>>>>,
    ordinals: Option<Vec<NamedEntry<PluralRules>>>,
}

impl Model for Found {
    ghost use Rattle.std.specs.Prelude.{option_map};
    ghost use Rattle.icu_tables.specs.ForLocale.{FoundData};

    ghost Value = { FoundData };

    ghost view = { λ f. record {
      symbols = option_map (λ v. v.items) f.symbols;
      digits = option_map (λ v. v.items) f.digits;
      rules = option_map (λ v. v.items) f.rules;
      short = option_map (λ v. v.items) f.short;
      long = option_map (λ v. v.items) f.long;
      ordinals = option_map (λ v. v.items) f.ordinals;
    } };
}

/// The entries of the list that is read next, of those that may answer a request in a locale.
fn served<T: EntryKind>(
    alloc: Global,
    locale: &DataLocale,
    key: Key,
    reader: &mut Reader<'_>,
) -> Result<Vec<T::Entry>, Unread>
    ensures { IfOk result
        (λ v. AreEntries T.read_at (T.serves locale.now) key reader.old v.items reader.new) }
{
    let Some(Token::BeginArray) = reader.next() else {
        return Err(Unread::Other);
    };
    let mut found = Vec::new(alloc);
    for index in 0..usize::MAX {
        if reader.take_end_array() {
            return Ok(found);
        }
        let value = owned(alloc, reader, MOST_NESTED_ENTRY)?;
        let entry = T::from_entry(alloc, Position { key, index }, &value)?;
        if T::serves(&entry, locale) {
            found.push(entry)?;
        }
    }
    Err(Unread::Other)
}

/// The same, for a key that wasn't met before.
pub fn once<T: EntryKind>(
    alloc: Global,
    locale: &DataLocale,
    key: Key,
    reader: &mut Reader<'_>,
    slot: &mut Option<Vec<T::Entry>>,
) -> Result<(), Unread>
    ensures { OnOk result (IsOnce T.read_at (T.serves locale.now) key reader.old
        (option_map (λ v. v.items) slot.old) (option_map (λ v. v.items) slot.new) reader.new) }
{
    if slot.is_some() {
        return Err(Unread::Other);
    }
    *slot = Some(served::<T>(alloc, locale, key, reader)?);
    Ok(())
}

impl Kept for Found {
    ghost use Rattle.icu_tables.specs.ForLocale.{Holds};

    ghost holds = { λ locale members found. Holds locale members found };

    fn none() -> Found {
        Found {
            symbols: None,
            digits: None,
            rules: None,
            short: None,
            long: None,
            ordinals: None,
        }
    }

    fn add(
        &mut self,
        alloc: Global,
        locale: &DataLocale,
        name: &str,
        reader: &mut Reader<'_>,
    ) -> Result<(), Unread> {
        match name {
            "symbols" => {
                once::<SymbolsEntry>(alloc, locale, Key::Symbols, reader, &mut self.symbols)
            }
            "digits" => once::<DigitsEntry>(alloc, locale, Key::Digits, reader, &mut self.digits),
            "rules" => once::<RulesEntry>(alloc, locale, Key::Rules, reader, &mut self.rules),
            "short" => once::<CompactEntry>(alloc, locale, Key::Short, reader, &mut self.short),
            "long" => once::<CompactEntry>(alloc, locale, Key::Long, reader, &mut self.long),
            "ordinals" => {
                once::<RulesEntry>(alloc, locale, Key::Ordinals, reader, &mut self.ordinals)
            }
            _ => {
                drop(owned(alloc, reader, MOST_NESTED)?);
                Ok(())
            }
        }
    }
}

/// What is kept of all members that are left.
fn members<K: Kept>(
    alloc: Global,
    locale: &DataLocale,
    reader: &mut Reader<'_>,
) -> Result<K, Unread>
    ensures { IfOk result (λ f. (ds : Members) × K.holds locale.now ds f
        × AreMembersOf 126 reader.old ds reader.new) }
{
    let mut found = K::none();
    'members: while let Some(name) = reader.next_key()? {
        found.add(alloc, locale, name, reader)?;
    }
    Ok(found)
}

/// What is kept of the object that a text is.
pub fn document<K: Kept>(alloc: Global, locale: &DataLocale, text: &str) -> Result<K, Unread>
    ensures { IfOk result (λ f. (ds : Members) × K.holds locale.now ds f
        × (read text.now ≡ Some (object ds))) }
{
    let mut scratch = Scratch::new(alloc);
    let mut reader = Reader::new(text, &mut scratch)?;
    let Some(Token::BeginObject) = reader.next() else {
        return Err(Unread::Other);
    };
    let found = members::<K>(alloc, locale, &mut reader)?;
    if reader.next().is_some() {
        return Err(Unread::Other);
    }
    Ok(found)
}

impl Found {
    /// The tables of what was found, if the lists are there that have to be.
    pub fn tables(self) -> Result<Tables, Unread>
        ensures { IfOk result (λ t. (locale text : List ℕ) (ds : Members) → Holds locale ds self
            → read text ≡ Some (object ds) → IsFor locale t (tables_of text)) }
    {
        let (Some(symbols), Some(digits)) = (self.symbols, self.digits) else {
            return Err(Unread::Other);
        };
        Ok(Tables {
            symbols,
            digits,
            rules: self.rules,
            short: self.short,
            long: self.long,
            ordinals: self.ordinals,
        })
    }
}

/// The tables of a text, if nothing in it is rejected or rare.
fn tables(alloc: Global, locale: &DataLocale, text: &str) -> Result<Tables, Unread>
    ensures { IfOk result (λ t. IsFor locale.now t (tables_of text.now)) }
{
    document::<Found>(alloc, locale, text)?.tables()
}

impl Tables {
    ghost use Rattle.icu_tables.specs.ForLocale.{GivesFor};

    /// The tables of a JSON text for one locale, or the first fault of the text (this project's
    /// own).
    ///
    /// The whole text is judged, as by [`Tables::from_json`]: the same texts are rejected, for the
    /// same faults. For each identifier of the locale the tables answer what those of the whole
    /// text answer, and for digits in any locale. What they answer in other locales isn't
    /// specified: unless the text has something rare, entries of other locales aren't kept.
    // promise: Its tables answer for the locale as all tables do.
    // mutations: for_locale_keeps_the_others
    // promise: The same texts are rejected, by the same first fault.
    // mutations: for_locale_refuses_what_is_rare
    pub fn from_json_for_locale(
        alloc: Global,
        text: &str,
        locale: &DataLocale,
    ) -> Result<Tables, TableError>
        ensures { GivesFor locale.now result (tables_of text.now) }
    {
        match tables(alloc, locale, text) {
            Ok(tables) => Ok(tables),
            Err(Unread::OutOfMemory) => Err(TableError::OutOfMemory),
            Err(Unread::Other) => Tables::from_json(alloc, text),
        }
    }
}
