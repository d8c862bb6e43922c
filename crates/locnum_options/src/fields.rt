//! Which fields are asked for.

ghost use Rattle.std.specs.Prelude.{◌≡◌};
ghost use Rattle.locnum_options.specs.Fields.{end_named, ends_named, fields_named, positive_number_named, range_named};
ghost use Rattle.locnum_options.specs.Options.{GivesOption};
ghost use Rattle.locnum_options.specs.Words.{ok_or};

use crate::fault::OptionFault;
use crate::texts::{cut_at, number_named};
use locnum_lines::FieldRange;
use std::alloc::Global;

/// A number from 1 on, as that of a field.
#[tactic(auto, unfolding(crate::specs::Fields::positive_number_named))]
pub(crate) fn positive_number_named(text: &str) -> Option<usize>
    ensures { result ≡ positive_number_named text.now }
{
    let number = number_named(text)?;
    if number == 0 {
        return None;
    }
    Some(number)
}

/// An end of a range; this one where it is missing.
#[tactic(auto, unfolding(crate::specs::Fields::end_named))]
fn end_named(missing: usize, text: &str) -> Option<usize>
    ensures { result ≡ end_named missing text.now }
{
    if text.is_empty() {
        return Some(missing);
    }
    positive_number_named(text)
}

/// The range between two ends.
#[tactic(auto, unfolding(crate::specs::Fields::ends_named))]
fn ends_named(first: &str, last: &str) -> Option<FieldRange>
    ensures { result ≡ ends_named first.now last.now }
{
    let first = end_named(1, first)?;
    let last = end_named(usize::MAX, last)?;
    if first > last {
        return None;
    }
    Some(FieldRange { first, last })
}

/// The range of a text: `N`, `N-`, `N-M`, `-M` or `-`.
#[tactic(auto, unfolding(crate::specs::Fields::range_named))]
fn range_named(text: &str) -> Option<FieldRange>
    ensures { result ≡ range_named text.now }
{
    match cut_at(text, '-') {
        Some((first, last)) => ends_named(first, last),
        None => {
            let number = positive_number_named(text)?;
            Some(FieldRange {
                first: number,
                last: number,
            })
        }
    }
}

/// The range of a text, or the fault.
fn range_given(text: &str) -> Result<FieldRange, OptionFault>
    ensures { result ≡ ok_or (range_named text.now) OptionFault.Fields }
{
    match range_named(text) {
        Some(range) => Ok(range),
        None => Err(OptionFault::Fields),
    }
}

/// The ranges of a text that is cut at its commas.
pub(crate) fn fields_named(alloc: Global, text: &str) -> Result<Vec<FieldRange>, OptionFault>
    ensures { GivesOption (λ v. v.items) result (ok_or (fields_named text.now) OptionFault.Fields) }
{
    let mut fields = Vec::new(alloc);
    let mut rest = text;
    while let Some((part, behind)) = rest.split_once(',') {
        fields.push(range_given(part)?)?;
        rest = behind;
    }
    fields.push(range_given(rest)?)?;
    Ok(fields)
}
