//! The arguments that a message wants.

use crate::message_forms::PlaceForm;
use icu_message::{ArgumentKind, Message, NamedKind, Piece};
use number_forms::Form;
use std::alloc::{AllocError, Global};
use std::str;

/// The name of the number that a message is written for.
pub(crate) const NUMBER: &str = "n";

/// What a message wants of an argument.
#[derive(Clone, Copy)]
pub(crate) enum WantedValue<'a> {
    /// A text.
    Text,
    /// A number in the form that the options ask for.
    Number(&'a Form),
    /// A number in the form of a skeleton.
    Formatted(&'a str, &'a Form),
}

/// An argument that a message wants.
#[derive(Clone, Copy)]
pub(crate) struct WantedArgument<'a> {
    /// The name.
    pub(crate) name: &'a str,
    /// What is wanted of it.
    pub(crate) value: WantedValue<'a>,
}

impl<'a> WantedValue<'a> {
    /// The form of a number.
    pub(crate) fn form(self) -> Option<&'a Form> {
        match self {
            WantedValue::Text => None,
            WantedValue::Number(form) | WantedValue::Formatted(_, form) => Some(form),
        }
    }
}

/// Whether a name stands in a place without a form of its own, or a choice picks by it.
fn is_plain(message: &Message, name: &[u8]) -> bool {
    for piece in message.pieces() {
        if let Piece::Place(word) | Piece::Hash(word) | Piece::Choice(_, word) = *piece {
            if message.word(word) == name {
                return true;
            }
        }
    }
    false
}

/// What is wanted of a name without a form of its own: a number in this form, or a text.
fn plain_value<'a>(name: &str, kind: ArgumentKind, form: &'a Form) -> WantedValue<'a> {
    match kind {
        ArgumentKind::Number => WantedValue::Number(form),
        ArgumentKind::Any if name == NUMBER => WantedValue::Number(form),
        ArgumentKind::Any | ArgumentKind::Text => WantedValue::Text,
    }
}

/// The argument that is wanted without a form of its own, if the message wants the name so.
fn plain_argument<'a>(
    message: &'a Message,
    named: NamedKind,
    form: &'a Form,
) -> Option<WantedArgument<'a>> {
    let name = message.word(named.name);
    if !is_plain(message, name) {
        return None;
    }
    let name = str::from_utf8(name).ok()?;
    let value = plain_value(name, named.kind, form);
    Some(WantedArgument { name, value })
}

/// The arguments that are wanted without a form of their own, in the order of their names.
fn plain_arguments<'a>(
    alloc: Global,
    message: &'a Message,
    form: &'a Form,
) -> Result<Vec<WantedArgument<'a>>, AllocError> {
    let names = message.signature(alloc)?;
    let mut wanted = Vec::new(alloc);
    for named in &names {
        if let Some(argument) = plain_argument(message, *named, form) {
            wanted.push(argument)?;
        }
    }
    Ok(wanted)
}

/// The arguments that a message wants: numbers without a form of their own in the form that the
/// options ask for, and then those in the forms of its places.
pub(crate) fn wanted_arguments<'a>(
    alloc: Global,
    message: &'a Message,
    form: &'a Form,
    forms: &'a [PlaceForm<'a>],
) -> Result<Vec<WantedArgument<'a>>, AllocError> {
    let mut wanted = plain_arguments(alloc, message, form)?;
    for opened in forms {
        wanted.push(WantedArgument {
            name: opened.place.name,
            value: WantedValue::Formatted(opened.place.skeleton, &opened.form),
        })?;
    }
    Ok(wanted)
}
