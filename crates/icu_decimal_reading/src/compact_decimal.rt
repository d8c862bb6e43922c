//! A compact number: a significand and an exponent.

ghost use Rattle.std.specs.Prelude.{◌≡◌, ◌↔◌, IfOk, IsErrOf, pos};
ghost use Rattle.fixed_decimal.specs.Scaling.{IsMoved, IsTimesTenTo, MovesPastLimits};
ghost use Rattle.fixed_decimal.specs.Size.{size};
ghost use Rattle.fixed_decimal.specs.Unsigned.{IsUnsigned};

use fixed_decimal::{Decimal, DecimalError};

/// A compact number, as `1.2K`: a significand, and the power of ten that the pattern names (ICU4X
/// `CompactDecimal`).
#[derive(Debug, PartialEq, Eq, Drop)]
pub struct CompactDecimal {
    /// The digits that are written, with their sign.
    pub significand: Decimal,
    /// The power of ten.
    pub exponent: u8,
}

impl CompactDecimal {
    /// The number itself: the significand times ten to the exponent, with the significand's sign
    /// (this project's own).
    ///
    /// `Limit` if it needs a power above 32767; else the only error is `OutOfMemory`.
    // promise: A number that is read is significand times ten to exponent.
    // mutations: compact_value_without_its_exponent
    pub fn into_decimal(self) -> Result<Decimal, DecimalError>
        ensures moved { IfOk result (λ d.
            IsMoved self.significand.absolute (pos self.exponent) d.absolute) }
        ensures size { IfOk result (λ d.
            IsTimesTenTo (pos self.exponent) (size self.significand.absolute) (size d.absolute)) }
        ensures sign { IfOk result (λ d. d.sign ≡ self.significand.sign) }
        ensures valid { IfOk result (λ d. IsUnsigned d.absolute) }
        ensures limit { IsErrOf result DecimalError.Limit
            ↔ MovesPastLimits self.significand.absolute (pos self.exponent) }
        ensures no_syntax { ¬ (IsErrOf result DecimalError.Syntax) }
    {
        let mut value = self.significand;
        value.multiply_pow10(self.exponent as i16)?;
        Ok(value)
    }
}
