//! Arguments of messages as C keeps them: how values are added.

ghost use Rattle.std.specs.Prelude.{◌≡◌, option_map};
ghost use Rattle.talmuiga_c.specs.Given.{AddsForm, AddsNumber, AddsText, kept_form};
ghost use Rattle.talmuiga_c.specs.Asked.{text_in};

use crate::asked::text_in;
use crate::kept::Kept;
use crate::message_status::{NO_FORM, NOT_UTF8};
use crate::status::{self, text_status};
use kept_messages::Arguments;
use number_forms::Form;
use std::alloc::Global;

/// The form of a formatter, if it has one.
fn kept_form(kept: &Kept) -> Option<&Form>
    ensures { option_map (λ form. form.now) result ≡ kept_form kept.now }
{
    match kept {
        Kept::ByWords(_) => None,
        Kept::BySkeleton(form) => Some(form),
        Kept::WithRanges(form, _) => Some(form),
    }
}

/// Adds a text.
pub fn add_text(alloc: Global, arguments: &mut Arguments, name: &[u8], text: &[u8]) -> u32
    ensures { AddsText (text_in name.now) (text_in text.now) arguments.old arguments.new result }
{
    let (Some(name), Some(text)) = (text_in(name), text_in(text)) else {
        return NOT_UTF8;
    };
    match arguments.push_text(alloc, name, text) {
        Ok(()) => status::DONE,
        Err(_) => status::OUT_OF_MEMORY,
    }
}

/// Adds a number as a formatter writes it.
pub fn add_number(
    alloc: Global,
    arguments: &mut Arguments,
    kept: &Kept,
    name: &[u8],
    text: &[u8],
) -> u32
    ensures { AddsNumber (text_in name.now) (kept_form kept.now) text.now arguments.old
        arguments.new result }
{
    let Some(name) = text_in(name) else {
        return NOT_UTF8;
    };
    let Some(form) = kept_form(kept) else {
        return NO_FORM;
    };
    match arguments.push_number(alloc, name, form, text) {
        Ok(()) => status::DONE,
        Err(error) => text_status(error),
    }
}

/// Adds a number as a formatter writes it, for the places of a skeleton.
pub fn add_form(
    alloc: Global,
    arguments: &mut Arguments,
    kept: &Kept,
    name: &[u8],
    skeleton: &[u8],
    text: &[u8],
) -> u32
    ensures { AddsForm (text_in name.now) (text_in skeleton.now) (kept_form kept.now) text.now
        arguments.old arguments.new result }
{
    let (Some(name), Some(skeleton)) = (text_in(name), text_in(skeleton)) else {
        return NOT_UTF8;
    };
    let Some(form) = kept_form(kept) else {
        return NO_FORM;
    };
    match arguments.push_form(alloc, name, skeleton, form, text) {
        Ok(()) => status::DONE,
        Err(error) => text_status(error),
    }
}
