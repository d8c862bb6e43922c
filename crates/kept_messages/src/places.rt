//! The places of a message that have a form of their own.

ghost use Rattle.std.specs.Prelude.{◌≡◌};
ghost use Rattle.kept_messages.specs.Places.{place_from, place_of};

use icu_message::{Piece, Word};

/// A place with a form of its own: where its name and its skeleton stand in the message's text.
#[derive(Clone, Copy, Debug, PartialEq, Eq)]
pub struct Place {
    /// The name.
    pub name: Word,
    /// The skeleton; it is empty in `{NAME, number}`.
    pub skeleton: Word,
}

/// The place that a piece is, if it has a form of its own.
fn place_of(piece: Piece) -> Option<Place>
    ensures { result ≡ place_of piece }
{
    match piece {
        Piece::Formatted(name, skeleton) => Some(Place { name, skeleton }),
        _ => None,
    }
}

/// The place at an index, of those that have a form of their own.
pub(crate) fn place_from(index: usize, pieces: &[Piece]) -> Option<Place>
    ensures { result ≡ place_from index pieces.now }
{
    let mut left = index;
    for piece in pieces {
        if let Some(place) = place_of(*piece) {
            if left == 0 {
                return Some(place);
            }
            left -= 1;
        }
    }
    None
}
