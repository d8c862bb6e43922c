//! The names of a message with their kinds.

ghost use Rattle.std.specs.Prelude.{◌≡◌, IfOk, OnOk};
ghost use Rattle.icu_message.specs.Signature.{asked, asked_of, kind_at, kind_of_name, is_listed, with_asked, signature};

use crate::piece::{ChoiceKind, Piece, Word};
use std::alloc::{AllocError, Global};

/// What a message asks of an argument.
#[derive(Clone, Copy, Debug, PartialEq, Eq)]
pub enum ArgumentKind {
    /// A number or a text: it stands in places without a form alone.
    Any,
    /// A number: `plural` or `selectordinal` picks by it, or it stands in a place with a form.
    Number,
    /// A text: `select` picks by it.
    Text,
}

/// A name of a message, where it stands first, and what the message asks of its argument.
#[derive(Clone, Copy, Debug, PartialEq, Eq)]
pub struct NamedKind {
    /// The name.
    pub name: Word,
    /// What is asked of its argument.
    pub kind: ArgumentKind,
}

fn asked_of(name: Word, kind: ArgumentKind) -> Option<NamedKind>
    ensures { result ≡ asked_of name kind }
{
    Some(NamedKind { name, kind })
}

/// The name of a piece, and what the piece asks of its argument.
fn asked(piece: Piece) -> Option<NamedKind>
    ensures { result ≡ asked piece }
{
    match piece {
        Piece::Place(name) => asked_of(name, ArgumentKind::Any),
        Piece::Formatted(name, _) | Piece::Hash(name) => asked_of(name, ArgumentKind::Number),
        Piece::Choice(ChoiceKind::Select, name) => asked_of(name, ArgumentKind::Text),
        Piece::Choice(_, name) => asked_of(name, ArgumentKind::Number),
        _ => None,
    }
}

/// What is asked of the argument with a name.
fn kind_at(text: &[u8], name: Word, asked: Option<NamedKind>) -> ArgumentKind
    ensures { result ≡ kind_at text.now name asked }
{
    match asked {
        Some(asked) if asked.name.is_same(text, name) => asked.kind,
        _ => ArgumentKind::Any,
    }
}

/// The kind of a name: what the first of the pieces asks that doesn't take any argument.
fn kind_of_name(text: &[u8], name: Word, pieces: &[Piece]) -> ArgumentKind
    ensures { result ≡ kind_of_name text.now name pieces.now }
{
    for piece in pieces {
        match kind_at(text, name, asked(*piece)) {
            ArgumentKind::Any => {}
            ArgumentKind::Number => return ArgumentKind::Number,
            ArgumentKind::Text => return ArgumentKind::Text,
        }
    }
    ArgumentKind::Any
}

fn is_listed(text: &[u8], name: Word, names: &[NamedKind]) -> bool
    ensures { result ≡ is_listed text.now name names.now }
{
    for listed in names {
        if listed.name.is_same(text, name) {
            return true;
        }
    }
    false
}

/// Lists a name with its kind in all pieces, unless it is among the names.
fn list(
    text: &[u8],
    all: &[Piece],
    names: &mut Vec<NamedKind>,
    asked: Option<NamedKind>,
) -> Result<(), AllocError>
    ensures { OnOk result (names.new.items
        ≡ with_asked text.now all.now names.old.items asked) }
{
    let Some(asked) = asked else {
        return Ok(());
    };
    if !is_listed(text, asked.name, names) {
        names.push(NamedKind {
            name: asked.name,
            kind: kind_of_name(text, asked.name, all),
        })?;
    }
    Ok(())
}

/// The names of the pieces of a text with their kinds, in the order in which they first appear.
pub(crate) fn signature(
    alloc: Global,
    text: &[u8],
    pieces: &[Piece],
) -> Result<Vec<NamedKind>, AllocError>
    ensures { IfOk result (λ names. names.items ≡ signature text.now pieces.now) }
{
    let mut names = Vec::new(alloc);
    for piece in pieces {
        list(text, pieces, &mut names, asked(*piece))?;
    }
    Ok(names)
}
