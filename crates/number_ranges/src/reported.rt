//! Errors of one end as those of the range.

ghost use Rattle.std.specs.Prelude.{◌≡◌};
ghost use Rattle.number_ranges.specs.Reported.{end_error, start_error};

use crate::error::RangeTextError;
use decimal_lines::TextError;

/// The error of a range whose start has an error.
pub(crate) fn start_error(error: TextError) -> RangeTextError
    ensures { result ≡ start_error error }
{
    match error {
        TextError::OutOfMemory => RangeTextError::OutOfMemory,
        error => RangeTextError::Start(error),
    }
}

/// The error of a range whose end has an error.
pub(crate) fn end_error(error: TextError) -> RangeTextError
    ensures { result ≡ end_error error }
{
    match error {
        TextError::OutOfMemory => RangeTextError::OutOfMemory,
        error => RangeTextError::End(error),
    }
}
