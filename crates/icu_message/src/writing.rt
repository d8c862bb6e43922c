//! Writing a message.

ghost use Rattle.std.specs.Prelude.{◌≡◌, ◌++◌, OnOk};
ghost use Rattle.icu_message.specs.Writing.{written, piece_text, sought, argument_fault};

use crate::argument::value_text;
use crate::error::WriteError;
use crate::filling::Filling;
use crate::moving::Mode;
use crate::piece::Piece;
use std::alloc::AllocError;

fn write_piece(
    filling: &Filling<'_>,
    mode: Mode,
    piece: Piece,
    out: &mut Vec<u8>,
) -> Result<(), AllocError>
    ensures { OnOk result (out.new.items ≡ out.old.items ++ piece_text filling.now mode piece) }
{
    if let Mode::Writing = mode {
        match piece {
            Piece::Byte(byte) | Piece::Special(byte) => out.push(byte)?,
            Piece::Place(name) | Piece::Hash(name) => {
                out.extend_from_slice(value_text(filling.named(name)))?;
            }
            Piece::Formatted(name, skeleton) => {
                out.extend_from_slice(value_text(filling.formed(name, skeleton)))?;
            }
            _ => {}
        }
    }
    Ok(())
}

fn sought<'a>(
    filling: &Filling<'a>,
    key: &'a [u8],
    mode: Mode,
    piece: Piece,
    rest: &[Piece],
) -> &'a [u8]
    ensures { result.now ≡ sought filling.now key.now mode piece rest.now }
{
    match (mode, piece) {
        (Mode::Writing, Piece::Choice(kind, name)) => filling.picked(kind, name, rest),
        _ => key,
    }
}

/// What is wrong with the arguments of the pieces.
pub(crate) fn argument_fault(filling: &Filling<'_>, pieces: &[Piece]) -> Option<WriteError>
    ensures { result ≡ argument_fault filling.now pieces.now }
{
    for piece in pieces {
        if let Some(fault) = filling.piece_fault(*piece) {
            return Some(fault);
        }
    }
    None
}

/// Writes the pieces of a text.
pub(crate) fn write(
    filling: &Filling<'_>,
    pieces: &[Piece],
    out: &mut Vec<u8>,
) -> Result<(), AllocError>
    ensures { OnOk result (out.new.items ≡ out.old.items ++ written filling.now pieces.now) }
{
    let mut mode = Mode::Writing;
    let mut key: &[u8] = b"".as_slice();
    for (at, piece) in pieces.iter().enumerate() {
        write_piece(filling, mode, *piece, out)?;
        let next = mode.moved(filling.text, key, *piece);
        key = sought(filling, key, mode, *piece, pieces.split_at(at + 1).1);
        mode = next;
    }
    Ok(())
}
