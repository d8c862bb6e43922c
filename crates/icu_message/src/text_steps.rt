//! Reading a byte of text, in a quote or outside of one.

ghost use Rattle.std.specs.Prelude.{◌≡◌, ◌≤◌, IfOk, is_some, Option};
ghost use Rattle.icu_message.specs.Stepping.{is_special, hash_step, apostrophe_step, text_step, quoted_byte, quoted_step, IsNested};

use crate::error::ParseError;
use crate::piece::{Piece, Word};
use crate::stepping::{Here, Position, State, Step};

/// How many choices may be open.
const DEEPEST: usize = 8;

/// Whether a byte of text has to be quoted: a brace, and `#` directly in an arm that a number
/// picks.
fn is_special(counted: bool, byte: u8) -> bool
    ensures { result ≡ is_special counted byte }
{
    byte == b'{' || byte == b'}' || (byte == b'#' && counted)
}

impl State {
    fn hash(self, counted: Option<Word>) -> Step
        requires { self.level ≤ 8 }
        ensures stepped { result ≡ hash_step self counted }
        ensures nested { IsNested result.state }
    {
        match counted {
            Some(name) => Step::adds(self.level, Position::Text, Piece::Hash(name)),
            None => Step::adds(self.level, Position::Text, Piece::Byte(b'#')),
        }
    }

    /// An apostrophe: one of two, the beginning of a quote, or itself.
    fn apostrophe(self, here: Here) -> Step
        requires { self.level ≤ 8 }
        ensures stepped { result ≡ apostrophe_step self here }
        ensures nested { IsNested result.state }
    {
        if here.next == b'\'' {
            return Step::adds(self.level, Position::Doubled, Piece::Byte(b'\''));
        }
        if is_special(here.counted.is_some(), here.next) {
            return self.silent(Position::Quoted(here.at));
        }
        Step::adds(self.level, Position::Text, Piece::Byte(b'\''))
    }

    pub(crate) fn text(self, here: Here) -> Result<Step, ParseError>
        requires { self.level ≤ 8 }
        ensures stepped { result ≡ text_step self here }
        ensures nested { IfOk result (λ t. IsNested t.state) }
    {
        match here.byte {
            b'{' => {
                if DEEPEST <= self.level {
                    return Err(ParseError::TooDeep { byte: here.at });
                }
                Ok(self.silent(Position::Opened))
            }
            b'}' => {
                if self.level == 0 {
                    return Err(ParseError::Unopened { byte: here.at });
                }
                Ok(Step::adds(self.level, Position::KeyDue, Piece::EndArm))
            }
            b'\'' => Ok(self.apostrophe(here)),
            b'#' => Ok(self.hash(here.counted)),
            byte => Ok(Step::adds(self.level, Position::Text, Piece::Byte(byte))),
        }
    }

    fn quoted_byte(self, from: usize, here: Here) -> Step
        requires { self.level ≤ 8 }
        ensures stepped { result ≡ quoted_byte self from here }
        ensures nested { IsNested result.state }
    {
        let position = Position::Quoted(from);
        if is_special(here.counted.is_some(), here.byte) {
            return Step::adds(self.level, position, Piece::Special(here.byte));
        }
        Step::adds(self.level, position, Piece::Byte(here.byte))
    }

    pub(crate) fn quoted(self, from: usize, here: Here) -> Step
        requires { self.level ≤ 8 }
        ensures stepped { result ≡ quoted_step self from here }
        ensures nested { IsNested result.state }
    {
        if here.byte != b'\'' {
            return self.quoted_byte(from, here);
        }
        if here.next == b'\'' {
            return Step::adds(self.level, Position::DoubledIn(from), Piece::Byte(b'\''));
        }
        self.silent(Position::Text)
    }
}
