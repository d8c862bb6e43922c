//! Arguments of rows: `NAME=NUMBER` is a number, `NAME,SKELETON=NUMBER` a number in the form of a
//! skeleton, and `NAME:TEXT` a text.

use icu_message::{Argument, ArgumentValue, ShownNumber};
use std::alloc::{AllocError, Global};

/// A number with its name, or with its name and its skeleton.
fn number<'a>(name: &'a str, number: &'a ShownNumber) -> Argument<'a> {
    match name.split_once(',') {
        Some((name, skeleton)) => Argument {
            name,
            value: ArgumentValue::Form(skeleton, number),
        },
        None => Argument {
            name,
            value: ArgumentValue::Number(number),
        },
    }
}

/// The name and the text of an argument that is a number.
pub(crate) fn number_in(argument: &str) -> Option<(&str, &str)> {
    match argument.split_once(':') {
        Some((name, _)) if !name.contains('=') => None,
        _ => argument.split_once('='),
    }
}

/// The arguments, of which the numbers are shown in their order; `None` if one is neither.
pub(crate) fn given<'a>(
    alloc: Global,
    arguments: &'a [String],
    numbers: &'a [ShownNumber],
) -> Result<Option<Vec<Argument<'a>>>, AllocError> {
    let mut given = Vec::new(alloc);
    let mut shown = numbers.iter();
    for argument in arguments {
        let argument = match number_in(argument) {
            Some((name, _)) => match shown.next() {
                Some(shown) => number(name, shown),
                None => return Ok(None),
            },
            None => match argument.as_str().split_once(':') {
                Some((name, text)) => Argument {
                    name,
                    value: ArgumentValue::Text(text),
                },
                None => return Ok(None),
            },
        };
        given.push(argument)?;
    }
    Ok(Some(given))
}
