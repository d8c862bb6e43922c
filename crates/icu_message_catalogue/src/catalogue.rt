//! Catalogues.

use crate::error::CatalogueError;
use crate::reading::{catalogue_at, value_of};
use icu_message::Message;
use indexmap::IndexMap;
use indexmap::map::Keys;
use json::Scratch;
use std::alloc::Global;
use std::marker::Model;

/// Messages by their ids, read from a JSON object (FormatJS, or ARB).
#[derive(Drop)]
pub struct Catalogue {
    pub(crate) locale: Option<String>,
    pub(crate) messages: IndexMap<String, Message>,
}

impl Model for Catalogue {
    ghost use Rattle.std.specs.Prelude.{option_map, string_bytes};
    ghost use Rattle.icu_message_catalogue.specs.Catalogue.{CatalogueData};
    ghost use Rattle.icu_message_catalogue.specs.Entries.{entries_view};

    ghost Value = { CatalogueData };

    ghost view = { λ c. record {
      locale = option_map (λ s. string_bytes s) c.locale;
      messages = entries_view c.messages.entries;
    } };
}

impl Catalogue {
    ghost use Rattle.std.specs.Prelude.{◌≡◌, map, option_map, string_bytes};
    ghost use Rattle.icu_message_catalogue.specs.Catalogue.{catalogue_of};
    ghost use Rattle.icu_message_catalogue.specs.Entries.{ids_of, message_of};
    ghost use Rattle.icu_message_catalogue.specs.Reading.{Gives};

    /// The catalogue of a JSON text, or its first fault.
    ///
    /// A text that isn't JSON is rejected first, then a value that isn't an object. Then its members
    /// are judged in their order. The text under `@@locale` is the locale, and other members whose
    /// keys begin with `@` are left aside. The value of every other member has to be a text that is
    /// a message. Of equal ids the last one counts, and of several `@@locale` too; the earlier ones
    /// are judged all the same.
    // promise: The text determines the catalogue, or its first fault.
    // mutations: catalogue_bad_message_as_another_kind, catalogue_number_left_aside
    // promise: Of equal ids the last one counts.
    // mutations: catalogue_first_of_equal_ids_counts
    // promise: Other members whose keys begin with `@` are left aside.
    // mutations: catalogue_aside_key_of_one_byte_judged
    #[tactic(auto, unfolding(crate::specs::Catalogue::catalogue_of))]
    pub fn from_json(alloc: Global, text: &str) -> Result<Catalogue, CatalogueError>
        ensures { Gives (λ c. c) result (catalogue_of text.now) }
    {
        let mut scratch = Scratch::new(alloc);
        let value = value_of(alloc, text, &mut scratch)?;
        catalogue_at(alloc, &value)
    }

    /// The locale that the catalogue names (`@@locale` of ARB), as it is spelled there.
    // promise: The locale is the text under `@@locale`.
    // mutations: catalogue_locale_of_every_aside_key, catalogue_locale_left_out
    pub fn locale(&self) -> Option<&str>
        ensures { option_map (λ s. s.now) result ≡ self.now.locale }
    {
        match &self.locale {
            Some(locale) => Some(locale.as_str()),
            None => None,
        }
    }

    /// The message of an id.
    // promise: The message of an id, byte for byte.
    // mutations: catalogue_message_of_the_first_id
    pub fn message(&self, id: &str) -> Option<&Message>
        ensures { option_map (λ m. m.now) result ≡ message_of id.now self.now.messages }
    {
        self.messages.get(id)
    }

    /// The ids, in the order of their first members.
    // promise: Ids stand in the order of the document.
    // mutations: catalogue_ids_sorted
    #[tactic(auto, using(crate::proofs::Entries::keys_are_ids))]
    pub fn ids(&self) -> Keys<'_, String, Message>
        ensures { map (λ id. string_bytes id) result ≡ ids_of self.now.messages }
    {
        self.messages.keys()
    }
}
