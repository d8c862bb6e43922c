//! Reading one byte of a message: what it adds, and what may follow.

ghost use Rattle.std.specs.Prelude.{◌≡◌, ◌≤◌, ◌<◌, IfOk};
ghost use Rattle.icu_message.specs.Stepping.{start, silent, adds, step, end_fault, word_to, IsNested};

use crate::error::ParseError;
use crate::piece::{BegunChoice, ChoiceKind, OpenKey, Piece, Word};

/// What the bytes so far end with.
#[derive(Clone, Copy)]
pub(crate) enum Position {
    /// In text.
    Text,
    /// Between two apostrophes in text, which stand for one.
    Doubled,
    /// In the quote that begins at this byte.
    Quoted(usize),
    /// Between two apostrophes in the quote that begins at this byte.
    DoubledIn(usize),
    /// Behind the brace of an argument.
    Opened,
    /// In a name that begins at this byte.
    InName(usize),
    /// Behind a name.
    Named(Word),
    /// Behind the comma after a name.
    KindDue(Word),
    /// In the word for a kind that begins at this byte.
    InKind(Word, usize),
    /// Behind the kind.
    AfterKind(ChoiceKind, Word),
    /// Behind `number`.
    AfterNumber(Word),
    /// Behind the comma after `number`.
    StyleDue(Word),
    /// Behind the first `:` of a style, at this byte.
    ColonDue(Word, usize),
    /// Behind the second `:` of a style.
    SkeletonDue(Word),
    /// In a skeleton that begins at this byte.
    InSkeleton(Word, usize),
    /// Where a key is due, or the end of a choice.
    KeyDue,
    /// In a key that begins at this byte.
    InKey(usize),
    /// Behind the `=` of a key that begins at this byte.
    ValueDue(usize),
    /// In a key that begins at the first byte, with a value that begins at the second.
    InValue(usize, usize),
    /// Behind a key.
    AfterKey(Word),
}

/// How far a message was read: the position, and how many choices are open.
#[derive(Clone, Copy)]
pub(crate) struct State {
    pub(crate) position: Position,
    pub(crate) level: usize,
}

/// The byte that is read, where it stands, the byte behind it (0 at the end of the text), and the
/// name of the number by which the innermost choice picks, if it picks by one.
#[derive(Clone, Copy)]
pub(crate) struct Here {
    pub(crate) at: usize,
    pub(crate) byte: u8,
    pub(crate) next: u8,
    pub(crate) counted: Option<Word>,
}

/// The result of reading one byte: the state behind it, and the piece that it completes.
#[derive(Clone, Copy)]
pub(crate) struct Step {
    pub(crate) state: State,
    pub(crate) added: Option<Piece>,
}

impl Here {
    /// The word that begins at a byte and ends before this one.
    pub(crate) fn word_from(self, start: usize) -> Word
        ensures { result ≡ word_to start self }
    {
        Word {
            start,
            end: self.at,
        }
    }
}

impl Step {
    /// A piece, and the state behind it.
    pub(crate) fn adds(level: usize, position: Position, piece: Piece) -> Step
        ensures { result ≡ adds level position piece }
    {
        Step {
            state: State { position, level },
            added: Some(piece),
        }
    }
}

impl State {
    pub(crate) fn start() -> State
        ensures { result ≡ start }
    {
        State {
            position: Position::Text,
            level: 0,
        }
    }

    /// A position, and no piece.
    pub(crate) fn silent(self, position: Position) -> Step
        ensures { result ≡ silent self position }
    {
        Step {
            state: State {
                position,
                level: self.level,
            },
            added: None,
        }
    }

    /// Reads a byte of a text, by the keys of the open choices and the choices so far.
    pub(crate) fn step(
        self,
        text: &[u8],
        keys: &[OpenKey],
        choices: &[BegunChoice],
        here: Here,
    ) -> Result<Step, ParseError>
        requires { IsNested self }
        ensures stepped { result ≡ step text.now keys.now choices.now self here }
        ensures nested { IfOk result (λ t. IsNested t.state) }
    {
        match self.position {
            Position::Text => self.text(here),
            Position::Doubled => Ok(self.silent(Position::Text)),
            Position::Quoted(from) => Ok(self.quoted(from, here)),
            Position::DoubledIn(from) => Ok(self.silent(Position::Quoted(from))),
            Position::Opened => self.name(here),
            Position::InName(from) => self.in_name(text, from, here),
            Position::Named(name) => self.after_name(name, here),
            Position::KindDue(name) => self.kind(name, here),
            Position::InKind(name, from) => self.in_kind(text, choices, name, from, here),
            Position::AfterKind(kind, name) => self.behind_kind(kind, name, here),
            Position::AfterNumber(name) => self.behind_number(text, name, here),
            Position::StyleDue(name) => self.style(name, here),
            Position::ColonDue(name, from) => self.colon(name, from, here),
            Position::SkeletonDue(name) => self.skeleton(text, name, here.at, here),
            Position::InSkeleton(name, from) => self.skeleton(text, name, from, here),
            Position::KeyDue => self.key(text, keys, here),
            Position::InKey(from) => self.in_key(text, keys, from, here),
            Position::ValueDue(from) => self.value(from, here),
            Position::InValue(from, digit) => self.in_value(text, keys, from, digit, here),
            Position::AfterKey(key) => self.after_key(text, keys, key, here),
        }
    }

    /// The fault of a text that ends here, if it may not end here. The byte here is a space: the
    /// end of the text ends a word as white space does.
    pub(crate) fn end_fault(
        self,
        text: &[u8],
        keys: &[OpenKey],
        choices: &[BegunChoice],
        here: Here,
    ) -> Option<ParseError>
        requires { IsNested self }
        ensures { result ≡ end_fault text.now keys.now choices.now self here }
    {
        match self.position {
            Position::Text if self.level == 0 => None,
            Position::Quoted(from) | Position::DoubledIn(from) => {
                Some(ParseError::OpenQuote { byte: from })
            }
            Position::ValueDue(_) => Some(ParseError::End { byte: here.at }),
            _ => match self.step(text, keys, choices, here) {
                Ok(_) => Some(ParseError::End { byte: here.at }),
                Err(fault) => Some(fault),
            },
        }
    }
}
