//! Arguments of messages.

ghost use Rattle.std.specs.Prelude.{◌≡◌};
ghost use Rattle.icu_message.specs.Arguments.{form_of, has_form, is_form, value_of, value_text};

use crate::shown_number::ShownNumber;
use crate::words::same;

/// What is given for a name.
#[derive(Clone, Copy)]
pub enum ArgumentValue<'a> {
    /// A text. `select` picks by it.
    Text(&'a str),
    /// A number. `plural` and `selectordinal` pick by it.
    Number(&'a ShownNumber),
    /// A number in the form of a skeleton. It stands in the places `{NAME, number, ::SKELETON}` of
    /// its name and its skeleton alone, byte for byte; the empty skeleton is that of
    /// `{NAME, number}`.
    Form(&'a str, &'a ShownNumber),
}

/// An argument: a name, and what is given for it.
#[derive(Clone, Copy)]
pub struct Argument<'a> {
    /// The name.
    pub name: &'a str,
    /// What is given.
    pub value: ArgumentValue<'a>,
}

/// Whether a value is a number in the form of a skeleton.
fn is_form(value: ArgumentValue<'_>) -> bool
    ensures { result ≡ is_form value.entry }
{
    match value {
        ArgumentValue::Form(_, _) => true,
        ArgumentValue::Text(_) | ArgumentValue::Number(_) => false,
    }
}

/// Whether a value is a number in the form of this skeleton.
fn has_form(skeleton: &[u8], value: ArgumentValue<'_>) -> bool
    ensures { result ≡ has_form skeleton.now value.entry }
{
    match value {
        ArgumentValue::Form(text, _) => same(text.as_bytes(), skeleton),
        ArgumentValue::Text(_) | ArgumentValue::Number(_) => false,
    }
}

/// What the first argument with a name gives, of those without the form of a skeleton.
pub(crate) fn value_of<'a>(given: &[Argument<'a>], name: &[u8]) -> Option<ArgumentValue<'a>>
    ensures { result ≡ value_of given.now name.now }
{
    for argument in given {
        if !is_form(argument.value) && same(argument.name.as_bytes(), name) {
            return Some(argument.value);
        }
    }
    None
}

/// The first argument with a name in the form of a skeleton.
pub(crate) fn form_of<'a>(
    given: &[Argument<'a>],
    name: &[u8],
    skeleton: &[u8],
) -> Option<ArgumentValue<'a>>
    ensures { result ≡ form_of given.now name.now skeleton.now }
{
    for argument in given {
        if has_form(skeleton, argument.value) && same(argument.name.as_bytes(), name) {
            return Some(argument.value);
        }
    }
    None
}

/// What is written of an argument.
pub(crate) fn value_text<'a>(value: Option<ArgumentValue<'a>>) -> &'a [u8]
    ensures { result.now ≡ value_text value.entry }
{
    match value {
        Some(ArgumentValue::Text(text)) => text.as_bytes(),
        Some(ArgumentValue::Number(number) | ArgumentValue::Form(_, number)) => number.text(),
        None => b"".as_slice(),
    }
}
