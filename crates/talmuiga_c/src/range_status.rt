//! How calls with ranges end, besides as those with one number.

ghost use Rattle.std.specs.Prelude.{◌≡◌};
ghost use Rattle.talmuiga_c.specs.Patterns.{pattern_status};
ghost use Rattle.talmuiga_c.specs.Ranges.{end_status, range_status};

use crate::status::{self, text_status};
use decimal_lines::TextError;
use number_forms::StartError;
use number_ranges::RangeTextError;

/// There is no range pattern: the tables have none for the locale, or the formatter was opened
/// without one.
pub const NO_PATTERN: u32 = 10;

/// The start is above the end.
pub const DESCENDING: u32 = 11;

/// The end isn't a decimal.
pub const END_NOT_DECIMAL: u32 = 12;

/// The end has a digit at a power of ten past the limits.
pub const END_TOO_MANY_DIGITS: u32 = 13;

/// The number that is shown of the end would be ten to the power 32768 or more, or have a digit at
/// a power past the limits.
pub const END_OVERFLOW: u32 = 14;

/// The status where there is no pattern.
pub fn pattern_status(error: StartError) -> u32
    ensures { result ≡ pattern_status error }
{
    match error {
        StartError::NotUtf8 | StartError::Refused(_) => status::TABLES_REFUSED,
        StartError::NoData => NO_PATTERN,
        StartError::OutOfMemory => status::OUT_OF_MEMORY,
    }
}

/// The status of an end that isn't shown.
fn end_status(error: TextError) -> u32
    ensures { result ≡ end_status error }
{
    match error {
        TextError::NotDecimal => END_NOT_DECIMAL,
        TextError::TooManyDigits => END_TOO_MANY_DIGITS,
        TextError::Overflow => END_OVERFLOW,
        TextError::OutOfMemory => status::OUT_OF_MEMORY,
    }
}

/// The status of a range that isn't written.
pub fn range_status(error: RangeTextError) -> u32
    ensures { result ≡ range_status error }
{
    match error {
        RangeTextError::Start(error) => text_status(error),
        RangeTextError::End(error) => end_status(error),
        RangeTextError::Descending => DESCENDING,
        RangeTextError::OutOfMemory => status::OUT_OF_MEMORY,
    }
}
