//! What the text of a message asks for: its names with their kinds, and the places with a form of
//! their own.

ghost use Rattle.std.specs.Prelude.{◌≡◌, ◌⊎◌, None, Some};
ghost use Rattle.icu_message.specs.Signature.{signature};
ghost use Rattle.kept_messages.specs.Places.{place_from};
ghost use Rattle.talmuiga_c.specs.Endings.{out_of_memory};
ghost use Rattle.talmuiga_c.specs.MessagePlaces.{IsNameAt, IsPlaceAt, kind_number, name_from, named_at, no_named, no_place, place_at};

use crate::message_status::{NO_SUCH_PLACE, WordAt, no_word, word_at};
use crate::status;
use icu_message::{ArgumentKind, NamedKind};
use kept_messages::{LocaleMessage, Place};
use std::alloc::Global;

/// Where a place with a form of its own has its name and its skeleton in the text of a message.
#[repr(C)]
#[derive(Clone, Copy)]
pub struct PlaceAt {
    /// The name.
    pub name: WordAt,
    /// The skeleton, which may be empty.
    pub skeleton: WordAt,
}

/// Where a name stands first in the text of a message, and what the message asks of its argument.
#[repr(C)]
#[derive(Clone, Copy)]
pub struct NamedAt {
    /// The name.
    pub name: WordAt,
    /// The number of the kind.
    pub kind: u32,
}

/// There is no place.
fn no_place() -> PlaceAt
    ensures { result ≡ no_place }
{
    PlaceAt {
        name: no_word(),
        skeleton: no_word(),
    }
}

/// Where a place stands.
fn place_at(place: Place) -> PlaceAt
    ensures { result ≡ place_at place }
{
    PlaceAt {
        name: word_at(place.name),
        skeleton: word_at(place.skeleton),
    }
}

/// Sets the place with a form of its own at an index.
pub fn set_place(message: &LocaleMessage, index: usize, place: &mut PlaceAt) -> u32
    ensures { IsPlaceAt (place_from index message.now.message.pieces) place.new result }
{
    match message.place(index) {
        Some(found) => {
            *place = place_at(found);
            status::DONE
        }
        None => {
            *place = no_place();
            NO_SUCH_PLACE
        }
    }
}

/// The number of the kind of an argument.
fn kind_number(kind: ArgumentKind) -> u32
    ensures { result ≡ kind_number kind }
{
    match kind {
        ArgumentKind::Any => 0,
        ArgumentKind::Number => 1,
        ArgumentKind::Text => 2,
    }
}

/// There is no name.
fn no_named() -> NamedAt
    ensures { result ≡ no_named }
{
    NamedAt {
        name: no_word(),
        kind: 0,
    }
}

/// Where a name stands, and its kind.
fn named_at(named: NamedKind) -> NamedAt
    ensures { result ≡ named_at named }
{
    NamedAt {
        name: word_at(named.name),
        kind: kind_number(named.kind),
    }
}

/// The name at an index.
fn name_from(index: usize, names: &[NamedKind]) -> Option<NamedKind>
    ensures { result ≡ name_from index names.now }
{
    if index < names.len() {
        return Some(names[index]);
    }
    None
}

/// Sets the name of a message at an index, in the order in which names stand first.
pub fn set_name(alloc: Global, message: &LocaleMessage, index: usize, named: &mut NamedAt) -> u32
    ensures { IsNameAt (name_from index (signature message.now.message.text
        message.now.message.pieces)) named.new result }
{
    let Ok(names) = message.message().signature(alloc) else {
        *named = no_named();
        return status::OUT_OF_MEMORY;
    };
    match name_from(index, &names) {
        Some(found) => {
            *named = named_at(found);
            status::DONE
        }
        None => {
            *named = no_named();
            NO_SUCH_PLACE
        }
    }
}
