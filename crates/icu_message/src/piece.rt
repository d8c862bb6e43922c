//! The pieces of a message, in the order of its text.

/// Where a name or a key stands in the text of a message, in bytes.
#[derive(Clone, Copy, Debug, PartialEq, Eq)]
pub struct Word {
    /// The first byte.
    pub start: usize,
    /// The byte behind the last.
    pub end: usize,
}

/// What a choice picks its arm by.
#[derive(Clone, Copy, Debug, PartialEq, Eq)]
pub enum ChoiceKind {
    /// A number, by cardinal rules.
    Plural,
    /// A number, by ordinal rules.
    SelectOrdinal,
    /// A text.
    Select,
}

/// A piece of a message. A choice is the pieces from its `Choice` to its `EndChoice`, an arm those
/// from its `Arm` to its `EndArm`.
#[derive(Clone, Copy, Debug, PartialEq, Eq)]
pub enum Piece {
    /// A byte of text that stands for itself.
    Byte(u8),
    /// A byte of text that has to be quoted where it stands.
    Special(u8),
    /// The place of the argument with this name.
    Place(Word),
    /// The place of the number with this name, in the form of this skeleton.
    Formatted(Word, Word),
    /// `#`: the place of the number with this name, by which the innermost choice picks.
    Hash(Word),
    /// A choice by the argument with this name begins.
    Choice(ChoiceKind, Word),
    /// An arm with this key begins.
    Arm(Word),
    /// The arm ends.
    EndArm,
    /// The choice ends.
    EndChoice,
}

/// A key of a choice that isn't closed, and how many choices are open in its arms.
#[derive(Clone, Copy)]
pub(crate) struct OpenKey {
    pub(crate) level: usize,
    pub(crate) word: Word,
}

/// A choice that was begun, and how many choices are open in its arms. A formatted place stands
/// here too, as a choice by a number at a level that no choice has.
#[derive(Clone, Copy)]
pub(crate) struct BegunChoice {
    pub(crate) level: usize,
    pub(crate) kind: ChoiceKind,
    pub(crate) name: Word,
}
