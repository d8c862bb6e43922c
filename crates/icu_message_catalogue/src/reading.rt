//! Reading a catalogue, member by member in the document's order.

ghost use Rattle.std.specs.Prelude.{◌≡◌};
ghost use Rattle.json.specs.Value.{value_view};
ghost use Rattle.icu_message_catalogue.specs.Catalogue.{catalogue_at, is_aside, is_locale, message_in, text_in, value_of};
ghost use Rattle.icu_message_catalogue.specs.Reading.{Gives};

use crate::catalogue::Catalogue;
use crate::error::CatalogueError;
use icu_message::{Message, ParseError};
use indexmap::IndexMap;
use json::{Error, Scratch, Value};
use std::alloc::Global;

/// The value of a JSON text.
#[tactic(auto, unfolding(crate::specs::Catalogue::value_of))]
pub(crate) fn value_of<'a>(
    alloc: Global,
    text: &'a str,
    scratch: &'a mut Scratch,
) -> Result<Value<'a>, CatalogueError>
    ensures { Gives value_view result (value_of text.now) }
{
    match Value::parse(alloc, text, scratch) {
        Ok(value) => Ok(value),
        Err(Error::Invalid) => Err(CatalogueError::NotJson),
        Err(_) => Err(CatalogueError::OutOfMemory),
    }
}

/// Whether a key begins with `@`.
fn is_aside(key: &str) -> bool
    ensures { result ≡ is_aside key.now }
{
    match key.as_bytes() {
        [first, ..] => *first == b'@',
        [] => false,
    }
}

/// Whether a key is that of the locale.
fn is_locale(key: &str) -> bool
    ensures { result ≡ is_locale key.now }
{
    key == "@@locale"
}

/// The text that a member's value is.
#[tactic(auto, unfolding(crate::specs::Catalogue::text_in))]
fn text_in<'a>(alloc: Global, key: &str, value: &Value<'a>) -> Result<&'a str, CatalogueError>
    ensures { Gives (λ t. t.now) result (text_in key.now (value_view value.now)) }
{
    match value.as_str() {
        Some(text) => Ok(text),
        None => Err(CatalogueError::WrongKind {
            id: String::from_str(alloc, key)?,
        }),
    }
}

/// The message that a member's value is.
#[tactic(auto, unfolding(crate::specs::Catalogue::message_in))]
fn message_in(alloc: Global, key: &str, value: &Value<'_>) -> Result<Message, CatalogueError>
    ensures { Gives (λ m. m) result (message_in key.now (value_view value.now)) }
{
    let text = text_in(alloc, key, value)?;
    match Message::parse(alloc, text) {
        Ok(message) => Ok(message),
        Err(ParseError::OutOfMemory) => Err(CatalogueError::OutOfMemory),
        Err(fault) => Err(CatalogueError::Message {
            id: String::from_str(alloc, key)?,
            fault,
        }),
    }
}

impl Catalogue {
    ghost use Rattle.std.specs.Prelude.{◌≡◌, Ok, IfErr, OnOk};
    ghost use Rattle.json.specs.Value.{members_view, value_view};
    ghost use Rattle.icu_message_catalogue.specs.Catalogue.{no_catalogue, with_locale, with_member, with_members, with_text};
    ghost use Rattle.icu_message_catalogue.specs.Reading.{Fails};

    /// A catalogue without a locale and messages.
    fn new(alloc: Global) -> Catalogue
        ensures { result ≡ no_catalogue }
    {
        Catalogue {
            locale: None,
            messages: IndexMap::new(alloc),
        }
    }

    /// Takes the locale.
    #[tactic(auto, unfolding(crate::specs::Catalogue::with_locale))]
    fn set_locale(
        &mut self,
        alloc: Global,
        key: &str,
        value: &Value<'_>,
    ) -> Result<(), CatalogueError>
        ensures taken { OnOk result
            (with_locale self.old key.now (value_view value.now) ≡ Ok self.new) }
        ensures fault { IfErr result
            (λ e. Fails e (with_locale self.old key.now (value_view value.now))) }
    {
        let text = text_in(alloc, key, value)?;
        self.locale = Some(String::from_str(alloc, text)?);
        Ok(())
    }

    /// Takes a message.
    #[tactic(auto, unfolding(crate::specs::Catalogue::with_text))]
    fn add_message(
        &mut self,
        alloc: Global,
        key: &str,
        value: &Value<'_>,
    ) -> Result<(), CatalogueError>
        ensures taken { OnOk result
            (with_text self.old key.now (value_view value.now) ≡ Ok self.new) }
        ensures fault { IfErr result
            (λ e. Fails e (with_text self.old key.now (value_view value.now))) }
    {
        let message = message_in(alloc, key, value)?;
        let id = String::from_str(alloc, key)?;
        drop(self.messages.insert(id, message)?);
        Ok(())
    }

    /// Takes a member.
    #[tactic(auto, unfolding(crate::specs::Catalogue::with_member))]
    fn add_member(
        &mut self,
        alloc: Global,
        key: &str,
        value: &Value<'_>,
    ) -> Result<(), CatalogueError>
        ensures taken { OnOk result
            (with_member self.old key.now (value_view value.now) ≡ Ok self.new) }
        ensures fault { IfErr result
            (λ e. Fails e (with_member self.old key.now (value_view value.now))) }
    {
        if is_locale(key) {
            return self.set_locale(alloc, key, value);
        }
        if is_aside(key) {
            return Ok(());
        }
        self.add_message(alloc, key, value)
    }

    /// Takes members, in their order.
    fn add_members(
        &mut self,
        alloc: Global,
        members: &Vec<(&str, Value<'_>)>,
    ) -> Result<(), CatalogueError>
        ensures taken { OnOk result
            (with_members self.old (members_view members.now.items) ≡ Ok self.new) }
        ensures fault { IfErr result
            (λ e. Fails e (with_members self.old (members_view members.now.items))) }
    {
        for member in members {
            self.add_member(alloc, member.0, &member.1)?;
        }
        Ok(())
    }
}

/// The catalogue that a value is.
#[tactic(auto, unfolding(crate::specs::Catalogue::catalogue_at))]
pub(crate) fn catalogue_at(alloc: Global, value: &Value<'_>) -> Result<Catalogue, CatalogueError>
    ensures { Gives (λ c. c) result (catalogue_at (value_view value.now)) }
{
    let Value::Object(members) = value else {
        return Err(CatalogueError::NotAnObject);
    };
    let mut catalogue = Catalogue::new(alloc);
    catalogue.add_members(alloc, members)?;
    Ok(catalogue)
}
