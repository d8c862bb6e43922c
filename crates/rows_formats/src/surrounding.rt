//! What formatters lend: what stands around a number, with `{0}` in its place.

use crate::dimension_faults::Fault;
use crate::dimension_making::sign_of;
use fixed_decimal::Decimal;
use icu_dimension_data::SignedPatterns;
use icu_plurals::PluralOperands;
use std::alloc::Global;
use writeable::Writeable;

/// What stands in the place of the number.
pub(crate) const PLACEHOLDER: &str = "{0}";

/// What patterns put around numbers of the sign of a word.
pub(crate) fn surrounding(
    alloc: Global,
    patterns: &SignedPatterns,
    sign: &str,
) -> Result<String, Fault> {
    let pattern = patterns.for_sign(sign_of(sign)?);
    Ok(pattern.interpolate(PLACEHOLDER).write_to_string(alloc)?)
}

/// The plural operands of a number.
pub(crate) fn operands_of(number: &Decimal) -> PluralOperands {
    PluralOperands::from_significand_and_exponent(&number.absolute, 0)
}
