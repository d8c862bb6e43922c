//! What keeps other crates from implementing a trait of this one.

use icu_decimal::{
    CompactDecimalFormatter, DecimalFormatter, FormattedUnsignedCompactDecimal,
    FormattedUnsignedDecimal,
};

/// Keeps other crates from implementing `AbstractFormatter` and `ShownNumber`.
pub trait Sealed {}

impl Sealed for DecimalFormatter {}

impl Sealed for CompactDecimalFormatter {}

impl Sealed for FormattedUnsignedDecimal<'_> {}

impl Sealed for FormattedUnsignedCompactDecimal<'_> {}
