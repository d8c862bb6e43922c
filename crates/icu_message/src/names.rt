//! Which words are names, keys and kinds.

ghost use Rattle.std.specs.Prelude.{◌≡◌};
ghost use Rattle.icu_message.specs.Names.{has_no_zero_in_front, is_word_text, is_name, is_value, is_exact, category_name, is_category, is_key, kind_of, is_number_kind};
ghost use Rattle.icu_message.specs.Names.{kind_name, are_apart};

use crate::piece::ChoiceKind;
use crate::words::{has_digits_alone, has_word_bytes_alone, same};
use icu_plurals::PluralCategory;

/// The most bytes of a name, and of a key of `select`.
const LONGEST_WORD: usize = 63;

/// The most digits of a key `=`.
const LONGEST_VALUE: usize = 18;

fn begins_without_zero(word: &[u8]) -> bool
    ensures { result ≡ has_no_zero_in_front word.now }
{
    word.len() < 2 || word[0] != b'0'
}

fn is_word_text(word: &[u8]) -> bool
    ensures { result ≡ is_word_text word.now }
{
    1 <= word.len() && word.len() <= LONGEST_WORD && has_word_bytes_alone(word)
}

pub(crate) fn is_name(word: &[u8]) -> bool
    ensures { result ≡ is_name word.now }
{
    is_word_text(word) && (!has_digits_alone(word) || begins_without_zero(word))
}

fn is_value(word: &[u8]) -> bool
    ensures { result ≡ is_value word.now }
{
    1 <= word.len()
        && word.len() <= LONGEST_VALUE
        && has_digits_alone(word)
        && begins_without_zero(word)
}

fn is_exact(word: &[u8]) -> bool
    ensures { result ≡ is_exact word.now }
{
    !word.is_empty() && word[0] == b'=' && is_value(word.split_at(1).1)
}

/// The name of a category, as it stands in messages.
pub(crate) fn category_name(category: PluralCategory) -> &'static [u8]
    ensures { result.now ≡ category_name category }
{
    match category {
        PluralCategory::Zero => b"zero".as_slice(),
        PluralCategory::One => b"one".as_slice(),
        PluralCategory::Two => b"two".as_slice(),
        PluralCategory::Few => b"few".as_slice(),
        PluralCategory::Many => b"many".as_slice(),
        PluralCategory::Other => b"other".as_slice(),
    }
}

fn is_category(word: &[u8]) -> bool
    ensures { result ≡ is_category word.now }
{
    same(word, b"zero".as_slice())
        || same(word, b"one".as_slice())
        || same(word, b"two".as_slice())
        || same(word, b"few".as_slice())
        || same(word, b"many".as_slice())
        || same(word, b"other".as_slice())
}

/// Whether a word is a key, of a choice that picks by a number or of one that picks by a text.
pub(crate) fn is_key(counted: bool, word: &[u8]) -> bool
    ensures { result ≡ is_key counted word.now }
{
    if counted {
        return is_exact(word) || (is_word_text(word) && is_category(word));
    }
    is_word_text(word)
}

pub(crate) fn kind_of(word: &[u8]) -> Option<ChoiceKind>
    ensures { result ≡ kind_of word.now }
{
    if same(word, b"plural".as_slice()) {
        return Some(ChoiceKind::Plural);
    }
    if same(word, b"selectordinal".as_slice()) {
        return Some(ChoiceKind::SelectOrdinal);
    }
    if same(word, b"select".as_slice()) {
        return Some(ChoiceKind::Select);
    }
    None
}

/// Whether a word is the kind of a formatted place.
pub(crate) fn is_number_kind(word: &[u8]) -> bool
    ensures { result ≡ is_number_kind word.now }
{
    same(word, b"number".as_slice())
}

impl ChoiceKind {
    pub(crate) fn name(self) -> &'static [u8]
        ensures { result.now ≡ kind_name self }
    {
        match self {
            ChoiceKind::Plural => b"plural".as_slice(),
            ChoiceKind::SelectOrdinal => b"selectordinal".as_slice(),
            ChoiceKind::Select => b"select".as_slice(),
        }
    }

    /// Whether one kind picks by a number and the other by a text.
    pub(crate) fn is_apart(self, other: ChoiceKind) -> bool
        ensures { result ≡ are_apart self other }
    {
        match (self, other) {
            (ChoiceKind::Select, ChoiceKind::Select) => false,
            (ChoiceKind::Select, _) | (_, ChoiceKind::Select) => true,
            _ => false,
        }
    }
}
