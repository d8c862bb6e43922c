//! Which pieces of a message are written.

ghost use Rattle.std.specs.Prelude.{◌≡◌, ◌<◌, ◌≤◌, ◌+◌, ◌^◌, length};
ghost use Rattle.icu_message.specs.Writing.{has_arm, moved, depth};

use crate::piece::Piece;
use crate::words::same;

/// What becomes of the next piece.
#[derive(Clone, Copy)]
pub(crate) enum Mode {
    /// It is written.
    Writing,
    /// It is left out: the arm of a choice is sought, and so many choices are open in its arms.
    Seeking(usize),
    /// It is left out: an arm was written, and so many choices are open in the arms behind it.
    Leaving(usize),
}

/// Whether the choice that begins before the pieces has an arm with a key.
pub(crate) fn has_arm(text: &[u8], key: &[u8], pieces: &[Piece]) -> bool
    ensures { result ≡ has_arm text.now key.now 0 pieces.now }
{
    let mut level: usize = 0;
    for piece in pieces {
        match *piece {
            Piece::Choice(_, _) => level += 1,
            Piece::Arm(word) if level == 0 && same(word.bytes(text), key) => return true,
            Piece::EndChoice if level == 0 => return false,
            Piece::EndChoice => level -= 1,
            _ => {}
        }
    }
    false
}

fn sought_in(text: &[u8], key: &[u8], level: usize, piece: Piece) -> Mode
    requires { level < 2 ^ 63 }
    ensures stepped { result ≡ moved text.now key.now (Mode.Seeking level) piece }
    ensures depth { depth result ≤ level + 1 }
{
    match piece {
        Piece::Choice(_, _) => Mode::Seeking(level + 1),
        Piece::Arm(word) if level == 0 && same(word.bytes(text), key) => Mode::Writing,
        Piece::EndChoice if level == 0 => Mode::Writing,
        Piece::EndChoice => Mode::Seeking(level - 1),
        _ => Mode::Seeking(level),
    }
}

fn left_in(text: &[u8], key: &[u8], level: usize, piece: Piece) -> Mode
    requires { level < 2 ^ 63 }
    ensures stepped { result ≡ moved text.now key.now (Mode.Leaving level) piece }
    ensures depth { depth result ≤ level + 1 }
{
    match piece {
        Piece::Choice(_, _) => Mode::Leaving(level + 1),
        Piece::EndChoice if level == 0 => Mode::Writing,
        Piece::EndChoice => Mode::Leaving(level - 1),
        _ => Mode::Leaving(level),
    }
}

impl Mode {
    /// The mode behind a piece, where the arm with a key is sought.
    pub(crate) fn moved(self, text: &[u8], key: &[u8], piece: Piece) -> Mode
        requires { depth self < 2 ^ 63 }
        ensures stepped { result ≡ moved text.now key.now self piece }
        ensures depth { depth result ≤ depth self + 1 }
    {
        match self {
            Mode::Writing => match piece {
                Piece::Choice(_, _) => Mode::Seeking(0),
                Piece::EndArm => Mode::Leaving(0),
                _ => Mode::Writing,
            },
            Mode::Seeking(level) => sought_in(text, key, level, piece),
            Mode::Leaving(level) => left_in(text, key, level, piece),
        }
    }
}
