//! The keys of the choices that are open, and the choices that were begun.

ghost use Rattle.std.specs.Prelude.{◌≡◌};
ghost use Rattle.icu_message.specs.Keys.{has_key, has_keys, has_other, number_named, counted_at, has_other_kind};

use crate::piece::{BegunChoice, ChoiceKind, OpenKey, Word};

pub(crate) fn is_present(text: &[u8], level: usize, word: Word, keys: &[OpenKey]) -> bool
    ensures { result ≡ has_key text.now level word keys.now }
{
    for key in keys {
        if key.level == level && key.word.is_same(text, word) {
            return true;
        }
    }
    false
}

pub(crate) fn has_any(level: usize, keys: &[OpenKey]) -> bool
    ensures { result ≡ has_keys level keys.now }
{
    for key in keys {
        if key.level == level {
            return true;
        }
    }
    false
}

pub(crate) fn has_other_key(text: &[u8], level: usize, keys: &[OpenKey]) -> bool
    ensures { result ≡ has_other text.now level keys.now }
{
    for key in keys {
        if key.level == level && key.word.is_other(text) {
            return true;
        }
    }
    false
}

fn number_named(kind: ChoiceKind, name: Word) -> Option<Word>
    ensures { result ≡ number_named kind name }
{
    match kind {
        ChoiceKind::Select => None,
        ChoiceKind::Plural | ChoiceKind::SelectOrdinal => Some(name),
    }
}

/// The name of the number by which the last choice of a level picks, if it picks by one.
pub(crate) fn counted_at(level: usize, choices: &[BegunChoice]) -> Option<Word>
    ensures { result ≡ counted_at level choices.now }
{
    let mut found = None;
    for choice in choices {
        if choice.level == level {
            found = number_named(choice.kind, choice.name);
        }
    }
    found
}

/// Whether a choice of the other sort was begun by the same name.
pub(crate) fn has_other_kind(
    text: &[u8],
    kind: ChoiceKind,
    name: Word,
    choices: &[BegunChoice],
) -> bool
    ensures { result ≡ has_other_kind text.now kind name choices.now }
{
    for choice in choices {
        if choice.kind.is_apart(kind) && choice.name.is_same(text, name) {
            return true;
        }
    }
    false
}
