//! Reading a byte of an argument: its name and its kind.

ghost use Rattle.std.specs.Prelude.{◌≡◌, ◌<◌, IfOk, Option};
ghost use Rattle.icu_message.specs.Stepping.{name_step, after_name, in_name, kind_step, behind_kind, kind_read, in_kind, IsNested};

use crate::error::ParseError;
use crate::keys::has_other_kind;
use crate::names::{is_name, is_number_kind, kind_of};
use crate::piece::{BegunChoice, ChoiceKind, Piece, Word};
use crate::stepping::{Here, Position, State, Step};
use crate::words::{is_space_byte, is_word_byte};

impl State {
    /// A byte where a name is due.
    pub(crate) fn name(self, here: Here) -> Result<Step, ParseError>
        requires { self.level < 8 }
        ensures stepped { result ≡ name_step self here }
        ensures nested { IfOk result (λ t. IsNested t.state) }
    {
        if is_space_byte(here.byte) {
            return Ok(self.silent(Position::Opened));
        }
        if is_word_byte(here.byte) {
            return Ok(self.silent(Position::InName(here.at)));
        }
        Err(ParseError::Name { byte: here.at })
    }

    /// A byte of a name, or behind it.
    pub(crate) fn in_name(self, text: &[u8], from: usize, here: Here) -> Result<Step, ParseError>
        requires { self.level < 8 }
        ensures stepped { result ≡ in_name text.now self from here }
        ensures nested { IfOk result (λ t. IsNested t.state) }
    {
        if is_word_byte(here.byte) {
            return Ok(self.silent(Position::InName(from)));
        }
        let name = here.word_from(from);
        if is_name(name.bytes(text)) {
            return self.after_name(name, here);
        }
        Err(ParseError::Name { byte: from })
    }

    /// A byte behind a name.
    pub(crate) fn after_name(self, name: Word, here: Here) -> Result<Step, ParseError>
        requires { self.level < 8 }
        ensures stepped { result ≡ after_name self name here }
        ensures nested { IfOk result (λ t. IsNested t.state) }
    {
        if here.byte == b'}' {
            return Ok(Step::adds(self.level, Position::Text, Piece::Place(name)));
        }
        if here.byte == b',' {
            return Ok(self.silent(Position::KindDue(name)));
        }
        if is_space_byte(here.byte) {
            return Ok(self.silent(Position::Named(name)));
        }
        Err(ParseError::Unexpected { byte: here.at })
    }

    /// A byte where a kind is due.
    pub(crate) fn kind(self, name: Word, here: Here) -> Result<Step, ParseError>
        requires { self.level < 8 }
        ensures stepped { result ≡ kind_step self name here }
        ensures nested { IfOk result (λ t. IsNested t.state) }
    {
        if is_space_byte(here.byte) {
            return Ok(self.silent(Position::KindDue(name)));
        }
        if is_word_byte(here.byte) {
            return Ok(self.silent(Position::InKind(name, here.at)));
        }
        Err(ParseError::Kind { byte: here.at })
    }

    /// A byte of a kind, or behind it.
    pub(crate) fn in_kind(
        self,
        text: &[u8],
        choices: &[BegunChoice],
        name: Word,
        from: usize,
        here: Here,
    ) -> Result<Step, ParseError>
        requires { self.level < 8 }
        ensures stepped { result ≡ in_kind text.now choices.now self name from here }
        ensures nested { IfOk result (λ t. IsNested t.state) }
    {
        if is_word_byte(here.byte) {
            return Ok(self.silent(Position::InKind(name, from)));
        }
        let word = here.word_from(from).bytes(text);
        if is_number_kind(word) {
            return self.number_read(text, choices, name, from, here);
        }
        self.kind_read(text, choices, name, from, here, kind_of(word))
    }

    /// A byte behind a word for a kind.
    fn kind_read(
        self,
        text: &[u8],
        choices: &[BegunChoice],
        name: Word,
        from: usize,
        here: Here,
        kind: Option<ChoiceKind>,
    ) -> Result<Step, ParseError>
        requires { self.level < 8 }
        ensures stepped { result ≡ kind_read text.now choices.now self name from here kind }
        ensures nested { IfOk result (λ t. IsNested t.state) }
    {
        let Some(kind) = kind else {
            return Err(ParseError::Kind { byte: from });
        };
        if has_other_kind(text, kind, name, choices) {
            return Err(ParseError::TwoKinds { byte: from });
        }
        self.behind_kind(kind, name, here)
    }

    /// A byte behind a kind.
    pub(crate) fn behind_kind(
        self,
        kind: ChoiceKind,
        name: Word,
        here: Here,
    ) -> Result<Step, ParseError>
        requires { self.level < 8 }
        ensures stepped { result ≡ behind_kind self kind name here }
        ensures nested { IfOk result (λ t. IsNested t.state) }
    {
        if here.byte == b',' {
            let choice = Piece::Choice(kind, name);
            return Ok(Step::adds(self.level + 1, Position::KeyDue, choice));
        }
        if is_space_byte(here.byte) {
            return Ok(self.silent(Position::AfterKind(kind, name)));
        }
        Err(ParseError::Unexpected { byte: here.at })
    }
}
