//! The arguments of a message: the number that it is written for, and the fields beside it.

use crate::message_wanted::{NUMBER, WantedArgument, WantedValue};
use icu_message::{Argument, ArgumentValue, ShownNumber};
use locnum_lines::FoundNumber;
use number_forms::TextError;
use number_messages::shown_by;
use std::alloc::{AllocError, Global};
use std::str;

/// A record: its fields, and the names of their columns.
#[derive(Clone, Copy)]
pub(crate) struct Fields<'a> {
    /// The texts of all fields.
    pub(crate) texts: &'a [FoundNumber],
    /// The names of the columns, as far as a header has them.
    pub(crate) names: &'a [FoundNumber],
}

/// A text that is no number where a message asks for one.
#[derive(Clone, Copy)]
pub(crate) struct NoNumber<'a> {
    pub(crate) text: &'a [u8],
    pub(crate) error: TextError,
}

/// The field of a name such as `f2`.
fn field_of_number<'a>(fields: Fields<'a>, name: &[u8]) -> Option<&'a [u8]> {
    let digits = name.strip_prefix(b"f".as_slice())?;
    let number: usize = str::from_utf8(digits).ok()?.parse().ok()?;
    let field = fields.texts.get(number.checked_sub(1)?)?;
    Some(&field.text)
}

/// The field of a column's name.
fn field_of_column<'a>(fields: Fields<'a>, name: &[u8]) -> Option<&'a [u8]> {
    for (index, column) in fields.names.iter().enumerate() {
        if column.text.as_slice() == name {
            let field = fields.texts.get(index)?;
            return Some(&field.text);
        }
    }
    None
}

/// The text of a name: of `n` that of the number, else that of a column or of a field.
fn text_of<'a>(number: &'a [u8], fields: Fields<'a>, name: &str) -> Option<&'a [u8]> {
    if name == NUMBER {
        return Some(number);
    }
    let name = name.as_bytes();
    match field_of_column(fields, name) {
        Some(text) => Some(text),
        None => field_of_number(fields, name),
    }
}

/// The numbers among the arguments that are wanted, in their order.
pub(crate) fn numbers_shown<'a>(
    alloc: Global,
    wanted: &[WantedArgument<'_>],
    number: &'a [u8],
    fields: Fields<'a>,
) -> Result<Vec<ShownNumber>, NoNumber<'a>> {
    let mut numbers = Vec::new(alloc);
    for argument in wanted {
        let (Some(form), Some(text)) = (
            argument.value.form(),
            text_of(number, fields, argument.name),
        ) else {
            continue;
        };
        let shown = match shown_by(alloc, form, text) {
            Ok(shown) => shown,
            Err(error) => return Err(NoNumber { text, error }),
        };
        if numbers.push(shown).is_err() {
            let error = TextError::OutOfMemory;
            return Err(NoNumber { text, error });
        }
    }
    Ok(numbers)
}

/// What is given of an argument: a text in UTF-8, or the next number.
fn value_of<'a>(
    wanted: WantedValue<'a>,
    text: &'a [u8],
    number: Option<&'a ShownNumber>,
) -> Option<ArgumentValue<'a>> {
    match wanted {
        WantedValue::Text => Some(ArgumentValue::Text(str::from_utf8(text).ok()?)),
        WantedValue::Number(_) => Some(ArgumentValue::Number(number?)),
        WantedValue::Formatted(skeleton, _) => Some(ArgumentValue::Form(skeleton, number?)),
    }
}

/// The arguments that are wanted. A name that no field has isn't given, and neither is a text that
/// isn't UTF-8.
pub(crate) fn arguments<'a>(
    alloc: Global,
    wanted: &[WantedArgument<'a>],
    numbers: &'a [ShownNumber],
    number: &'a [u8],
    fields: Fields<'a>,
) -> Result<Vec<Argument<'a>>, AllocError> {
    let mut given = Vec::new(alloc);
    let mut used: usize = 0;
    for argument in wanted {
        let WantedArgument { name, value } = *argument;
        let Some(text) = text_of(number, fields, name) else {
            continue;
        };
        if let Some(value) = value_of(value, text, numbers.get(used)) {
            given.push(Argument { name, value })?;
        }
        if value.form().is_some() {
            used = used.saturating_add(1);
        }
    }
    Ok(given)
}
