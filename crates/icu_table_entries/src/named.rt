//! The names of entries: locales and numbering systems.

ghost use Rattle.std.specs.Prelude.{◌≡◌, nat_eq, option_map};
ghost use Rattle.std.specs.Cmp.Lexicographic.{pointwise};
ghost use Rattle.icu_provider.specs.Identifier.{identifier_of};
ghost use Rattle.icu_table_entries.specs.Named.{locale_of, system_of, optional_system_of, identifier_from, first_filed};
ghost use Rattle.icu_table_entries.specs.Reading.{Gives};

use crate::error::{EntryFault, Position, TableError};
use icu_provider::{DataIdentifierBorrowed, DataLocale, NumberingSystem};
use std::marker::Model;

/// A locale, and a numbering system or none.
#[derive(Drop)]
pub struct Name {
    locale: DataLocale,
    system: Option<NumberingSystem>,
}

impl Model for Name {
    ghost use Rattle.icu_provider.specs.Identifier.{Identifier};

    ghost Value = { Identifier };

    ghost view = { λ n. record { system = n.system; locale = n.locale } };
}

/// The locale of a text.
#[tactic(auto, unfolding(crate::specs::Named::locale_of))]
pub fn locale_of(position: Position, text: &str) -> Result<DataLocale, TableError>
    ensures { Gives (λ x. x) result (locale_of position text.now) }
{
    match DataLocale::try_from_str(text) {
        Ok(locale) => Ok(locale),
        Err(_) => Err(position.refusal(EntryFault::BadLocale)),
    }
}

/// The numbering system of a text.
#[tactic(auto, unfolding(crate::specs::Named::system_of))]
pub fn system_of(position: Position, text: &str) -> Result<NumberingSystem, TableError>
    ensures { Gives (λ x. x) result (system_of position text.now) }
{
    match NumberingSystem::try_from_str(text) {
        Ok(system) => Ok(system),
        Err(_) => Err(position.refusal(EntryFault::BadNumberingSystem)),
    }
}

/// The numbering system of a text, if there is one.
#[tactic(auto, unfolding(crate::specs::Named::optional_system_of))]
fn optional_system_of(
    position: Position,
    text: Option<&str>,
) -> Result<Option<NumberingSystem>, TableError>
    ensures { Gives (λ x. x) result
        (optional_system_of position (option_map (λ t. t.now) text.entry)) }
{
    match text {
        Some(text) => Ok(Some(system_of(position, text)?)),
        None => Ok(None),
    }
}

/// The name of these texts.
#[tactic(auto, unfolding(crate::specs::Named::identifier_from))]
pub fn name_of(position: Position, locale: &str, system: Option<&str>) -> Result<Name, TableError>
    ensures { Gives (λ x. x) result
        (identifier_from position locale.now (option_map (λ t. t.now) system.entry)) }
{
    Ok(Name {
        locale: locale_of(position, locale)?,
        system: optional_system_of(position, system)?,
    })
}

impl Name {
    /// The identifier of the data under this name.
    fn identifier(&self) -> DataIdentifierBorrowed<'_>
        ensures { identifier_of result ≡ self.now }
    {
        match &self.system {
            Some(system) => DataIdentifierBorrowed::for_marker_attributes_and_locale(
                system.as_str(),
                &self.locale,
            ),
            None => DataIdentifierBorrowed::for_locale(&self.locale),
        }
    }
}

impl Name {
    /// Whether the data under this name is of the locale, in any numbering system.
    pub fn is_of(&self, locale: &DataLocale) -> bool
        ensures { result ≡ pointwise nat_eq locale.now self.now.locale }
    {
        *locale == self.locale
    }
}

/// Data under a name.
#[derive(Drop)]
pub struct NamedEntry<T> {
    pub name: Name,
    pub content: T,
}

impl<T> Model for NamedEntry<T> {
    ghost use Rattle.icu_table_entries.specs.Named.{NamedEntry as FiledData};

    ghost Value = { FiledData T };

    ghost view = { λ e. record { identifier = e.name; content = e.content } };
}

/// The data of the first entry with an identifier.
// promise: The first entry with the identifier is found.
// mutations: another_entry_answers
#[tactic(auto, unfolding(crate::specs::Named::first_filed))]
pub fn first_filed<'a, T>(
    entries: &'a [NamedEntry<T>],
    id: &DataIdentifierBorrowed<'_>,
) -> Option<&'a T>
    ensures { option_map (λ x. x.now) result ≡ first_filed (identifier_of id.now) entries.now }
{
    for entry in entries {
        if *id == entry.name.identifier() {
            return Some(&entry.content);
        }
    }
    None
}
