//! Spelling a message.

ghost use Rattle.std.specs.Prelude.{◌≡◌, ◌++◌, [], OnOk};
ghost use Rattle.icu_message.specs.Spelling.{said, said_all, lead, style, spelled_before, before_next, closed, spelling};
ghost use Rattle.icu_message.specs.declared.piece.Piece.TheVariants.{Formatted};

use crate::piece::{Piece, Word};
use std::alloc::AllocError;

/// What stands before the spelling of the next piece.
#[derive(Clone, Copy)]
pub(crate) enum Before {
    /// Nothing that matters.
    Nothing,
    /// A quote that isn't closed.
    Quote,
    /// The end of an arm.
    EndedArm,
}

/// The text whose pieces are spelled, and what stands before the next piece.
#[derive(Clone, Copy)]
struct Speller<'a> {
    text: &'a [u8],
    before: Before,
}

impl<'a> Speller<'a> {
    /// Begins or closes a quote, or writes the space between two arms.
    fn lead(self, piece: Piece, out: &mut Vec<u8>) -> Result<(), AllocError>
        ensures { OnOk result (out.new.items ≡ out.old.items
            ++ lead self.entry.before (said self.entry.text.now piece)) }
    {
        match (self.before, piece) {
            (Before::Quote, Piece::Special(_) | Piece::Byte(b'\'')) => {}
            (Before::Quote, _) | (Before::Nothing, Piece::Special(_)) => out.push(b'\'')?,
            (Before::EndedArm, Piece::Arm(_)) => out.push(b' ')?,
            _ => {}
        }
        Ok(())
    }

    /// Spells the style of a formatted place; nothing for the empty skeleton.
    fn style(self, skeleton: &[u8], out: &mut Vec<u8>) -> Result<(), AllocError>
        ensures { OnOk result (out.new.items ≡ out.old.items ++ style skeleton.now) }
    {
        if skeleton.is_empty() {
            return Ok(());
        }
        out.extend_from_slice(b",::".as_slice())?;
        out.extend_from_slice(skeleton)
    }

    /// Spells a formatted place.
    fn formatted(self, name: Word, skeleton: Word, out: &mut Vec<u8>) -> Result<(), AllocError>
        ensures { OnOk result (out.new.items ≡ out.old.items
            ++ spelled_before [] (said self.entry.text.now (Formatted name skeleton))) }
    {
        out.push(b'{')?;
        out.extend_from_slice(name.bytes(self.text))?;
        out.extend_from_slice(b",number".as_slice())?;
        self.style(skeleton.bytes(self.text), out)?;
        out.push(b'}')?;
        Ok(())
    }

    /// Spells a piece.
    fn piece(self, piece: Piece, out: &mut Vec<u8>) -> Result<(), AllocError>
        ensures { OnOk result (out.new.items ≡ out.old.items
            ++ spelled_before [] (said self.entry.text.now piece)) }
    {
        match piece {
            Piece::Byte(b'\'') => out.extend_from_slice(b"''".as_slice())?,
            Piece::Byte(byte) | Piece::Special(byte) => out.push(byte)?,
            Piece::Place(name) => {
                out.push(b'{')?;
                out.extend_from_slice(name.bytes(self.text))?;
                out.push(b'}')?;
            }
            Piece::Formatted(name, skeleton) => self.formatted(name, skeleton, out)?,
            Piece::Hash(_) => out.push(b'#')?,
            Piece::Choice(kind, name) => {
                out.push(b'{')?;
                out.extend_from_slice(name.bytes(self.text))?;
                out.push(b',')?;
                out.extend_from_slice(kind.name())?;
                out.push(b',')?;
            }
            Piece::Arm(key) => {
                out.extend_from_slice(key.bytes(self.text))?;
                out.push(b'{')?;
            }
            Piece::EndArm | Piece::EndChoice => out.push(b'}')?,
        }
        Ok(())
    }

    /// What stands before the piece behind this one.
    fn behind(self, piece: Piece) -> Before
        ensures { result ≡ before_next self.entry.before (said self.entry.text.now piece) }
    {
        match (self.before, piece) {
            (_, Piece::Special(_)) | (Before::Quote, Piece::Byte(b'\'')) => Before::Quote,
            (_, Piece::EndArm) => Before::EndedArm,
            _ => Before::Nothing,
        }
    }
}

/// Closes a quote.
fn spell_end(before: Before, out: &mut Vec<u8>) -> Result<(), AllocError>
    ensures { OnOk result (out.new.items ≡ out.old.items ++ closed before) }
{
    if let Before::Quote = before {
        out.push(b'\'')?;
    }
    Ok(())
}

/// Spells the pieces of a text.
pub(crate) fn spell(text: &[u8], pieces: &[Piece], out: &mut Vec<u8>) -> Result<(), AllocError>
    ensures { OnOk result (out.new.items ≡ out.old.items
        ++ spelling (said_all text.now pieces.now)) }
{
    let mut before = Before::Nothing;
    for piece in pieces {
        let speller = Speller { text, before };
        speller.lead(*piece, out)?;
        speller.piece(*piece, out)?;
        before = speller.behind(*piece);
    }
    spell_end(before, out)
}
