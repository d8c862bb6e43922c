//! The two ends of a range, as they are read and as they are written.

ghost use Rattle.std.specs.Prelude.{◌≡◌, IfErr, IfOk, Ok};
ghost use Rattle.number_forms.specs.Decimals.{scaled_decimal, shown_decimal};
ghost use Rattle.number_ranges.specs.Ranges.{ascending};
ghost use Rattle.number_ranges.specs.Reported.{end_error, reported, start_error};
ghost use Rattle.number_ranges.specs.WroteRange.{IsRefusal};

use crate::error::RangeTextError;
use crate::reported::{end_error, start_error};
use fixed_decimal::Decimal;
use icu_ranges::DecimalRange;
use number_forms::{Form, Prepared};
use std::alloc::Global;

/// The start of a range: its number as it is read, and as it is written.
pub(crate) fn start_of(alloc: Global, form: &Form, text: &[u8]) -> Result<Prepared, RangeTextError>
    ensures read { IfOk result (λ p.
        scaled_decimal form.now text.now ≡ Ok (p.read.sign, p.read.absolute)) }
    ensures written { IfOk result (λ p.
        shown_decimal form.now text.now ≡ Ok (p.written.sign, p.written.absolute)) }
    ensures refused { IfErr result (λ error.
        IsRefusal (reported start_error (shown_decimal form.now text.now)) error) }
{
    match form.prepare(alloc, text) {
        Ok(prepared) => Ok(prepared),
        Err(error) => Err(start_error(error)),
    }
}

/// The end of a range: its number as it is read, and as it is written.
pub(crate) fn end_of(alloc: Global, form: &Form, text: &[u8]) -> Result<Prepared, RangeTextError>
    ensures read { IfOk result (λ p.
        scaled_decimal form.now text.now ≡ Ok (p.read.sign, p.read.absolute)) }
    ensures written { IfOk result (λ p.
        shown_decimal form.now text.now ≡ Ok (p.written.sign, p.written.absolute)) }
    ensures refused { IfErr result (λ error.
        IsRefusal (reported end_error (shown_decimal form.now text.now)) error) }
{
    match form.prepare(alloc, text) {
        Ok(prepared) => Ok(prepared),
        Err(error) => Err(end_error(error)),
    }
}

/// Whether the first number isn't above the second.
pub(crate) fn ascending(start: Decimal, end: Decimal) -> Result<(), RangeTextError>
    ensures { result ≡ ascending (start.sign, start.absolute) (end.sign, end.absolute) }
{
    match DecimalRange::try_new(start, end) {
        Ok(_) => Ok(()),
        Err(_) => Err(RangeTextError::Descending),
    }
}
