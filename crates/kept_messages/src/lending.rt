//! Arguments as a message takes them.

ghost use Rattle.std.specs.Prelude.{◌≡◌, IfOk, map};
ghost use Rattle.kept_messages.specs.Arguments.{given_data, lent_data, lent_value, value_data};

use crate::arguments::{Arguments, Given, GivenValue};
use icu_message::{Argument, ArgumentValue};
use std::alloc::{AllocError, Global};

/// A value as a message takes it.
fn lent_value(value: &GivenValue) -> ArgumentValue<'_>
    ensures { lent_value result ≡ value_data value.now }
{
    match value {
        GivenValue::Text(text) => ArgumentValue::Text(text.as_str()),
        GivenValue::Number(number) => ArgumentValue::Number(number),
        GivenValue::Form(skeleton, number) => ArgumentValue::Form(skeleton.as_str(), number),
    }
}

/// An argument as a message takes it.
fn lent_argument(given: &Given) -> Argument<'_>
    ensures { lent_data result ≡ given_data given.now }
{
    Argument {
        name: given.name.as_str(),
        value: lent_value(&given.value),
    }
}

/// The arguments as a message takes them.
pub(crate) fn lent_arguments(
    alloc: Global,
    arguments: &Arguments,
) -> Result<Vec<Argument<'_>>, AllocError>
    ensures { IfOk result (λ lent. map lent_data lent.items ≡ arguments.now) }
{
    let mut lent = Vec::new(alloc);
    for given in arguments.given() {
        lent.push(lent_argument(given))?;
    }
    Ok(lent)
}
