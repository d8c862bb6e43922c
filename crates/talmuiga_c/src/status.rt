//! How a call ends.

ghost use Rattle.std.specs.Prelude.{◌≡◌};
ghost use Rattle.talmuiga_c.specs.Endings.{status_of};
ghost use Rattle.talmuiga_c.specs.Kept.{text_status};
ghost use Rattle.talmuiga_c.specs.Skeletons.{form_status};

use decimal_lines::{StartError, TextError};
use number_forms::StartError as FormError;

/// The whole output is written.
pub const DONE: u32 = 0;

/// Memory ran out.
pub const OUT_OF_MEMORY: u32 = 1;

/// The arguments have another form.
pub const WORDS_REFUSED: u32 = 2;

/// The tables aren't UTF-8, or their text is rejected.
pub const TABLES_REFUSED: u32 = 3;

/// The tables lack data that a formatter of the locale needs.
pub const NO_DATA: u32 = 4;

/// The output has room for the first lines only.
pub const OUTPUT_TOO_SMALL: u32 = 5;

/// A text isn't a decimal.
pub const NOT_DECIMAL: u32 = 6;

/// A text has a digit at a power of ten past the limits.
pub const TOO_MANY_DIGITS: u32 = 7;

/// The number that is shown of a text would be ten to the power 32768 or more, or have a digit at a
/// power past the limits.
pub const OVERFLOW: u32 = 8;

/// A skeleton has a fault, or asks for what no form has.
pub const SKELETON_REFUSED: u32 = 9;

/// The status of a text that isn't shown.
pub fn text_status(error: TextError) -> u32
    ensures { result ≡ text_status error }
{
    match error {
        TextError::NotDecimal => NOT_DECIMAL,
        TextError::TooManyDigits => TOO_MANY_DIGITS,
        TextError::Overflow => OVERFLOW,
        TextError::OutOfMemory => OUT_OF_MEMORY,
    }
}

/// The status where there is no mode.
pub fn status_of(error: StartError) -> u32
    ensures { result ≡ status_of error }
{
    match error {
        StartError::Tables => TABLES_REFUSED,
        StartError::NoData => NO_DATA,
        StartError::OutOfMemory => OUT_OF_MEMORY,
    }
}

/// The status where there is no form.
pub fn form_status(error: FormError) -> u32
    ensures { result ≡ form_status error }
{
    match error {
        FormError::NotUtf8 | FormError::Refused(_) => TABLES_REFUSED,
        FormError::NoData => NO_DATA,
        FormError::OutOfMemory => OUT_OF_MEMORY,
    }
}
