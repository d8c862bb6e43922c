//! What a message is written with, and which arm is picked by it.

ghost use Rattle.std.specs.Prelude.{◌≡◌};
ghost use Rattle.icu_message.specs.Writing.{place_fault, form_fault, choice_fault};

use crate::argument::{Argument, ArgumentValue, form_of, value_of};
use crate::error::WriteError;
use crate::moving::has_arm;
use crate::names::category_name;
use crate::piece::{ChoiceKind, Piece, Word};
use crate::shown_number::ShownNumber;
use icu_plurals::PluralRules;
use std::marker::Model;

/// The text of a message, plural rules and arguments.
#[derive(Drop)]
pub(crate) struct Filling<'a> {
    pub(crate) text: &'a [u8],
    pub(crate) cardinal: &'a PluralRules,
    pub(crate) ordinal: &'a PluralRules,
    pub(crate) given: &'a [Argument<'a>],
}

/// What is wrong with an argument that stands in a place.
fn place_fault(name: Word, value: Option<ArgumentValue<'_>>) -> Option<WriteError>
    ensures { result ≡ place_fault name value.entry }
{
    match value {
        Some(_) => None,
        None => Some(WriteError::MissingArgument { name }),
    }
}

/// What is wrong with an argument that stands in a place with a form: it isn't given in this form,
/// or is a text.
fn form_fault(
    name: Word,
    form: Option<ArgumentValue<'_>>,
    plain: Option<ArgumentValue<'_>>,
) -> Option<WriteError>
    ensures { result ≡ form_fault name form.entry plain.entry }
{
    match (form, plain) {
        (Some(_), _) => None,
        (None, Some(ArgumentValue::Text(_))) => Some(WriteError::NotANumber { name }),
        (None, _) => Some(WriteError::MissingArgument { name }),
    }
}

/// What is wrong with an argument that a choice picks by.
fn choice_fault(
    kind: ChoiceKind,
    name: Word,
    value: Option<ArgumentValue<'_>>,
) -> Option<WriteError>
    ensures { result ≡ choice_fault kind name value.entry }
{
    match (kind, value) {
        (_, None | Some(ArgumentValue::Form(_, _))) => Some(WriteError::MissingArgument { name }),
        (ChoiceKind::Select, Some(ArgumentValue::Number(_))) => {
            Some(WriteError::NotAText { name })
        }
        (ChoiceKind::Select, Some(ArgumentValue::Text(_))) => None,
        (_, Some(ArgumentValue::Text(_))) => Some(WriteError::NotANumber { name }),
        (_, Some(ArgumentValue::Number(_))) => None,
    }
}

impl<'a> Filling<'a> {
    ghost use Rattle.std.specs.Prelude.{◌≡◌};
    ghost use Rattle.icu_message.specs.Writing.{has_arm, key_or_other, key_for_number, picked, piece_fault, named, formed, Filling as Filled};

    /// What is given for a name.
    pub(crate) fn named(&self, name: Word) -> Option<ArgumentValue<'a>>
        ensures { result ≡ named self.now name }
    {
        value_of(self.given, name.bytes(self.text))
    }

    /// What is given for a name in the form of a skeleton.
    pub(crate) fn formed(&self, name: Word, skeleton: Word) -> Option<ArgumentValue<'a>>
        ensures { result ≡ formed self.now name skeleton }
    {
        form_of(self.given, name.bytes(self.text), skeleton.bytes(self.text))
    }

    /// A key, if the choice that begins before the pieces has an arm with it, else `other`.
    fn key_or_other<'k>(&self, key: &'k [u8], rest: &[Piece]) -> &'k [u8]
        ensures { result.now ≡ key_or_other (λ key. has_arm self.now.text key 0 rest.now) key.now }
    {
        if has_arm(self.text, key, rest) {
            return key;
        }
        b"other".as_slice()
    }

    /// The key of the arm for a number.
    fn key_for_number(
        &self,
        rules: &PluralRules,
        number: &'a ShownNumber,
        rest: &[Piece],
    ) -> &'a [u8]
        ensures { result.now ≡ key_for_number (λ key. has_arm self.now.text key 0 rest.now)
            rules.now number.now }
    {
        if has_arm(self.text, number.exact(), rest) {
            return number.exact();
        }
        let category = rules.category_for(number.operands());
        self.key_or_other(category_name(category), rest)
    }

    /// The key of the arm that is written of a choice that begins before the pieces.
    pub(crate) fn picked(&self, kind: ChoiceKind, name: Word, rest: &[Piece]) -> &'a [u8]
        ensures { result.now ≡ picked self.now kind name rest.now }
    {
        match (kind, self.named(name)) {
            (ChoiceKind::Plural, Some(ArgumentValue::Number(number))) => {
                self.key_for_number(self.cardinal, number, rest)
            }
            (ChoiceKind::SelectOrdinal, Some(ArgumentValue::Number(number))) => {
                self.key_for_number(self.ordinal, number, rest)
            }
            (ChoiceKind::Select, Some(ArgumentValue::Text(text))) => {
                self.key_or_other(text.as_bytes(), rest)
            }
            _ => b"other".as_slice(),
        }
    }

    /// What is wrong with the argument of a piece.
    pub(crate) fn piece_fault(&self, piece: Piece) -> Option<WriteError>
        ensures { result ≡ piece_fault self.now piece }
    {
        match piece {
            Piece::Place(name) | Piece::Hash(name) => place_fault(name, self.named(name)),
            Piece::Formatted(name, skeleton) => {
                form_fault(name, self.formed(name, skeleton), self.named(name))
            }
            Piece::Choice(kind, name) => choice_fault(kind, name, self.named(name)),
            _ => None,
        }
    }
}

impl<'a> Model for Filling<'a> {
    ghost use Rattle.icu_message.specs.Writing.{Filling as Filled};

    ghost Value = { Filled };

    ghost view = { λ f. record {
      text = f.text.now;
      cardinal = f.cardinal.now;
      ordinal = f.ordinal.now;
      given = f.given.now;
    } };
}
