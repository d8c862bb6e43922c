//! Reading a byte of a formatted place: its kind `number` and its skeleton.

ghost use Rattle.std.specs.Prelude.{◌≡◌, ◌<◌, IfOk};
ghost use Rattle.icu_message.specs.Stepping.{number_read, behind_number, style_step, colon_step, skeleton_step, skeleton_read, moved_fault, IsNested};
ghost use Rattle.icu_message.specs.Words.{has_brace};

use crate::error::ParseError;
use crate::keys::has_other_kind;
use crate::piece::{BegunChoice, ChoiceKind, Piece, Word};
use crate::stepping::{Here, Position, State, Step};
use crate::words::is_space_byte;
use number_skeleton::{SkeletonFault, read_skeleton};
use std::cmp::min;
use std::str;

/// Whether a brace is among the bytes.
fn has_brace(bytes: &[u8]) -> bool
    ensures { result ≡ has_brace bytes.now }
{
    for byte in bytes {
        if *byte == b'{' || *byte == b'}' {
            return true;
        }
    }
    false
}

/// The fault of a skeleton that stands in a message.
fn moved_fault(skeleton: Word, fault: SkeletonFault) -> ParseError
    ensures { result ≡ moved_fault skeleton fault }
{
    let len = skeleton.end.saturating_sub(skeleton.start);
    ParseError::Skeleton {
        kind: fault.kind(),
        byte: skeleton.start + min(fault.byte(), len),
    }
}

impl State {
    /// A byte behind the word `number`.
    pub(crate) fn number_read(
        self,
        text: &[u8],
        choices: &[BegunChoice],
        name: Word,
        from: usize,
        here: Here,
    ) -> Result<Step, ParseError>
        requires { self.level < 8 }
        ensures stepped { result ≡ number_read text.now choices.now self name from here }
        ensures nested { IfOk result (λ t. IsNested t.state) }
    {
        if has_other_kind(text, ChoiceKind::Plural, name, choices) {
            return Err(ParseError::TwoKinds { byte: from });
        }
        self.behind_number(text, name, here)
    }

    /// A byte behind `number`.
    pub(crate) fn behind_number(
        self,
        text: &[u8],
        name: Word,
        here: Here,
    ) -> Result<Step, ParseError>
        requires { self.level < 8 }
        ensures stepped { result ≡ behind_number text.now self name here }
        ensures nested { IfOk result (λ t. IsNested t.state) }
    {
        if here.byte == b'}' {
            return self.skeleton_read(text, name, here.word_from(here.at));
        }
        if here.byte == b',' {
            return Ok(self.silent(Position::StyleDue(name)));
        }
        if is_space_byte(here.byte) {
            return Ok(self.silent(Position::AfterNumber(name)));
        }
        Err(ParseError::Unexpected { byte: here.at })
    }

    /// A byte where a style is due.
    pub(crate) fn style(self, name: Word, here: Here) -> Result<Step, ParseError>
        requires { self.level < 8 }
        ensures stepped { result ≡ style_step self name here }
        ensures nested { IfOk result (λ t. IsNested t.state) }
    {
        if is_space_byte(here.byte) {
            return Ok(self.silent(Position::StyleDue(name)));
        }
        if here.byte == b':' {
            return Ok(self.silent(Position::ColonDue(name, here.at)));
        }
        Err(ParseError::Style { byte: here.at })
    }

    /// A byte behind the first `:` of a style.
    pub(crate) fn colon(self, name: Word, from: usize, here: Here) -> Result<Step, ParseError>
        requires { self.level < 8 }
        ensures stepped { result ≡ colon_step self name from here }
        ensures nested { IfOk result (λ t. IsNested t.state) }
    {
        if here.byte == b':' {
            return Ok(self.silent(Position::SkeletonDue(name)));
        }
        Err(ParseError::Style { byte: from })
    }

    /// A byte of a skeleton, or behind it.
    pub(crate) fn skeleton(
        self,
        text: &[u8],
        name: Word,
        from: usize,
        here: Here,
    ) -> Result<Step, ParseError>
        requires { self.level < 8 }
        ensures stepped { result ≡ skeleton_step text.now self name from here }
        ensures nested { IfOk result (λ t. IsNested t.state) }
    {
        if here.byte == b'}' {
            return self.skeleton_read(text, name, here.word_from(from));
        }
        Ok(self.silent(Position::InSkeleton(name, from)))
    }

    /// The place of a number whose skeleton is complete.
    fn skeleton_read(self, text: &[u8], name: Word, skeleton: Word) -> Result<Step, ParseError>
        requires { self.level < 8 }
        ensures stepped { result ≡ skeleton_read text.now self name skeleton }
        ensures nested { IfOk result (λ t. IsNested t.state) }
    {
        let bytes = skeleton.bytes(text);
        let Ok(style) = str::from_utf8(bytes) else {
            return Err(ParseError::Style {
                byte: skeleton.start,
            });
        };
        if has_brace(bytes) {
            return Err(ParseError::Style {
                byte: skeleton.start,
            });
        }
        match read_skeleton(style) {
            Ok(_) => {
                let place = Piece::Formatted(name, skeleton);
                Ok(Step::adds(self.level, Position::Text, place))
            }
            Err(fault) => Err(moved_fault(skeleton, fault)),
        }
    }
}
