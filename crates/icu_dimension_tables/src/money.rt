//! Entries of the patterns of money.

ghost use Rattle.std.specs.Prelude.{◌≡◌, IfOk, None, option_map};
ghost use Rattle.serde_json.specs.View.{view};
ghost use Rattle.icu_provider.specs.Identifier.{identifier_of};
ghost use Rattle.icu_table_entries.specs.Named.{first_filed};
ghost use Rattle.icu_table_entries.specs.Reading.{Gives};
ghost use Rattle.icu_dimension_tables.specs.Money.{money_patterns_of, money_texts_at, patterns_filed, placeholders_filed, placeholders_of};

use crate::by_category::elements_read;
use crate::money_pattern::money_pattern_of;
use crate::name_placeholders::{NamePattern, NamePlaceholders};
use crate::sign_texts::sign_text_of;
use icu_dimension::provider::CurrencyPatterns;
use icu_dimension_data::CldrPattern;
use icu_plurals::PluralElements;
use icu_provider::{DataIdentifierBorrowed, DataLocale};
use icu_table_entries::entries::EntryKind;
use icu_table_entries::fields::{object_in, optional_text_at, text_at};
use icu_table_entries::named::{NamedEntry, first_filed, name_of};
use icu_table_entries::texts::{Texts, optional_texts_at};
use icu_table_entries::{Key, Position, TableError};
use serde_json::Value;
use std::alloc::{AllocError, Global};
use std::marker::Model;

/// The patterns of money of a locale, with the texts of its signs.
#[derive(Drop)]
pub struct MoneyPatterns {
    standard: CldrPattern,
    accounting: CldrPattern,
    minus_sign: String,
    plus_sign: String,
}

impl Model for MoneyPatterns {
    ghost use Rattle.std.specs.String.{string_bytes};
    ghost use Rattle.icu_dimension.specs.CurrencyData.{MoneyPatterns as PatternsOfMoney};

    ghost Value = { PatternsOfMoney };

    ghost view = { λ p. record {
      standard = p.standard;
      accounting = p.accounting;
      minus_sign = string_bytes p.minus_sign;
      plus_sign = string_bytes p.plus_sign;
    } };
}

impl MoneyPatterns {
    /// The patterns with memory of their own, as a formatter takes them.
    pub fn copy(&self, alloc: Global) -> Result<CurrencyPatterns, AllocError>
        ensures { IfOk result (λ p. p ≡ self.now) }
    {
        let standard = self.standard.copy(alloc)?;
        let accounting = self.accounting.copy(alloc)?;
        let minus_sign = self.minus_sign.as_str();
        CurrencyPatterns::new(
            alloc,
            standard,
            accounting,
            minus_sign,
            self.plus_sign.as_str(),
        )
    }
}

/// The texts of the patterns and of the signs, not yet judged.
#[derive(Drop)]
struct MoneyTexts<'a> {
    standard: &'a str,
    accounting: &'a str,
    minus_sign: &'a str,
    plus_sign: &'a str,
}

impl<'a> Model for MoneyTexts<'a> {
    ghost use Rattle.icu_dimension_tables.specs.Money.{MoneyTexts as TextsOfMoney};

    ghost Value = { TextsOfMoney };

    ghost view = { λ t. record {
      standard = t.standard.now;
      accounting = t.accounting.now;
      minus_sign = t.minus_sign.now;
      plus_sign = t.plus_sign.now;
    } };
}

/// The four texts of an entry.
#[tactic(auto, unfolding(crate::specs::Money::money_texts_at))]
fn money_texts_at(value: &Value) -> Result<MoneyTexts<'_>, TableError>
    ensures { Gives (λ x. x) result (money_texts_at (view value.now)) }
{
    Ok(MoneyTexts {
        standard: text_at(value, Key::Standard)?,
        accounting: text_at(value, Key::Accounting)?,
        minus_sign: text_at(value, Key::Minus)?,
        plus_sign: text_at(value, Key::Plus)?,
    })
}

/// The patterns of these texts, and the signs, none of which is empty.
#[tactic(auto, unfolding(crate::specs::Money::money_patterns_of))]
fn money_patterns_of(
    alloc: Global,
    position: Position,
    texts: &MoneyTexts<'_>,
) -> Result<MoneyPatterns, TableError>
    ensures { Gives (λ x. x) result (money_patterns_of position texts.now) }
{
    let standard = money_pattern_of(alloc, position, texts.standard)?;
    let accounting = money_pattern_of(alloc, position, texts.accounting)?;
    let minus_sign = sign_text_of(alloc, position, Key::Minus, texts.minus_sign)?;
    let plus_sign = sign_text_of(alloc, position, Key::Plus, texts.plus_sign)?;
    Ok(MoneyPatterns {
        standard,
        accounting,
        minus_sign,
        plus_sign,
    })
}

/// The places of texts that may be absent.
#[tactic(auto, unfolding(crate::specs::Money::placeholders_of))]
fn placeholders_of(
    alloc: Global,
    position: Position,
    names: &Option<Texts<'_>>,
) -> Result<Option<PluralElements<NamePlaceholders>>, TableError>
    ensures { Gives (λ x. x) result (placeholders_of position names.now) }
{
    match names {
        Some(names) => {
            let placeholders = elements_read::<NamePattern>(alloc, position, &names.elements())?;
            Ok(Some(placeholders))
        }
        None => Ok(None),
    }
}

/// How a locale writes amounts: with a symbol, and with a name, if the entry says how.
#[derive(Drop)]
pub struct LocaleMoney {
    pub patterns: MoneyPatterns,
    pub placeholders: Option<PluralElements<NamePlaceholders>>,
}

impl Model for LocaleMoney {
    ghost use Rattle.icu_dimension_tables.specs.Money.{LocaleMoney as MoneyOfLocale};

    ghost Value = { MoneyOfLocale };

    ghost view = { λ m. record { patterns = m.patterns; placeholders = m.placeholders } };
}

/// How a locale writes amounts, under its name.
pub struct CurrenciesEntry;

impl EntryKind for CurrenciesEntry {
    type Entry = NamedEntry<LocaleMoney>;

    ghost use Rattle.icu_dimension_tables.specs.Money.{currencies_at};
    ghost use Rattle.icu_table_entries.specs.Named.{is_of};

    ghost read_at = { currencies_at };

    ghost serves = { is_of };

    #[tactic(auto, unfolding(crate::specs::Money::currencies_at))]
    fn from_entry(
        alloc: Global,
        position: Position,
        value: &Value,
    ) -> Result<Self::Entry, TableError> {
        let value = object_in(value, position.key)?;
        let locale = text_at(value, Key::Locale)?;
        let system = optional_text_at(value, Key::System)?;
        let texts = money_texts_at(value)?;
        let names = optional_texts_at(value, Key::Names)?;
        let name = name_of(position, locale, system)?;
        let patterns = money_patterns_of(alloc, position, &texts)?;
        let placeholders = placeholders_of(alloc, position, &names)?;
        let content = LocaleMoney {
            patterns,
            placeholders,
        };
        Ok(NamedEntry { name, content })
    }

    fn serves(entry: &Self::Entry, locale: &DataLocale) -> bool {
        entry.name.is_of(locale)
    }
}

/// The patterns of the first entry with an identifier.
#[tactic(auto, using(crate::proofs::Filed::first_part))]
pub fn patterns_filed<'a>(
    entries: &'a [NamedEntry<LocaleMoney>],
    id: &DataIdentifierBorrowed<'_>,
) -> Option<&'a MoneyPatterns>
    ensures { option_map (λ x. x.now) result
        ≡ first_filed (identifier_of id.now) (patterns_filed entries.now) }
{
    match first_filed(entries, id) {
        Some(money) => Some(&money.patterns),
        None => None,
    }
}

/// The data of the first entry with the identifier's locale and no numbering system.
pub fn filed_in_locale<'a, T>(
    entries: &'a [NamedEntry<T>],
    id: &DataIdentifierBorrowed<'_>,
) -> Option<&'a T>
    ensures { option_map (λ x. x.now) result
        ≡ first_filed (record { system = None; locale = (identifier_of id.now).locale })
        entries.now }
{
    let Ok(locale) = DataLocale::try_from_str(id.locale()) else {
        unreachable!()
    };
    first_filed(entries, &DataIdentifierBorrowed::for_locale(&locale))
}

/// The places of names of the first entry with the identifier's locale and no numbering system,
/// which may have none.
#[tactic(auto, using(crate::proofs::Filed::first_part))]
pub fn placeholders_filed<'a>(
    entries: &'a [NamedEntry<LocaleMoney>],
    id: &DataIdentifierBorrowed<'_>,
) -> Option<&'a Option<PluralElements<NamePlaceholders>>>
    ensures { option_map (λ x. x.now) result
        ≡ first_filed (record { system = None; locale = (identifier_of id.now).locale })
        (placeholders_filed entries.now) }
{
    match filed_in_locale(entries, id) {
        Some(money) => Some(&money.placeholders),
        None => None,
    }
}
