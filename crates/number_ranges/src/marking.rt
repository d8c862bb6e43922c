//! The text of one end of a range, as its form writes it.

ghost use Rattle.std.specs.Prelude.{◌≡◌, IfErr, IfOk, Ok};
ghost use Rattle.number_forms.specs.Forms.{formatter_events};
ghost use Rattle.number_ranges.specs.Reported.{end_error, reported, start_error};
ghost use Rattle.number_ranges.specs.WroteRange.{IsRefusal};

use crate::error::RangeTextError;
use crate::reported::{end_error, start_error};
use fixed_decimal::Decimal;
use number_forms::Form;
use std::alloc::Global;
use writeable::PartsText;

/// What the form writes for the start.
pub(crate) fn mark_start(
    alloc: Global,
    form: &Form,
    decimal: &Decimal,
) -> Result<PartsText, RangeTextError>
    ensures ok { IfOk result (λ t. formatter_events form.now.formatter decimal.now.sign
        decimal.now.absolute ≡ Ok t.events) }
    ensures refused { IfErr result (λ error. IsRefusal (reported start_error
        (formatter_events form.now.formatter decimal.now.sign decimal.now.absolute)) error) }
{
    match form.mark_decimal(alloc, decimal) {
        Ok(text) => Ok(text),
        Err(error) => Err(start_error(error)),
    }
}

/// What the form writes for the end.
pub(crate) fn mark_end(
    alloc: Global,
    form: &Form,
    decimal: &Decimal,
) -> Result<PartsText, RangeTextError>
    ensures ok { IfOk result (λ t. formatter_events form.now.formatter decimal.now.sign
        decimal.now.absolute ≡ Ok t.events) }
    ensures refused { IfErr result (λ error. IsRefusal (reported end_error
        (formatter_events form.now.formatter decimal.now.sign decimal.now.absolute)) error) }
{
    match form.mark_decimal(alloc, decimal) {
        Ok(text) => Ok(text),
        Err(error) => Err(end_error(error)),
    }
}
