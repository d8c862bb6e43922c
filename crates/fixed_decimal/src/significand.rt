//! Significands of rounded decimals.

ghost use Rattle.std.specs.Prelude.{◌↔◌, IfOk, IsErrOf, pos, ◌-ℤ◌, ◌≤ℤ◌};
ghost use Rattle.fixed_decimal.specs.Unsigned.{IsUnsigned, high};
ghost use Rattle.fixed_decimal.specs.Rounding.{RoundsPastLimits};
ghost use Rattle.fixed_decimal.specs.Significand.{IsRoundedSignificand};

use crate::rounding::{round_digits, scale_below};
use crate::{DecimalError, UnsignedDecimal, UnsignedRoundingMode};
use std::alloc::Global;

impl UnsignedDecimal {
    /// The significand of the number rounded at the power, half to even: it times ten to the
    /// exponent is the rounded number, and it has no zeros at its end below power 0.
    ///
    /// It is one new value, equal to what `rounded` at the power, `multiplied_pow10` by the negated
    /// exponent and `trimmed_end` give one after another. Where a carry would need power 32768 the
    /// answer is `Limit`, before memory is asked for.
    // promise: Times ten to the exponent it is the rounded number.
    // mutations: rounded_significand_half_of_the_exponent
    pub fn rounded_significand(
        &self,
        alloc: Global,
        power: i16,
        exponent: u8,
    ) -> Result<Self, DecimalError>
        requires high { pos exponent ≤ℤ high self.now }
        requires low { (pos exponent -ℤ power) ≤ℤ pos 32768 }
        ensures significand { IfOk result (λ s. IsRoundedSignificand self.now power exponent s) }
        ensures valid { IfOk result (λ s. IsUnsigned s) }
        ensures limit { IsErrOf result DecimalError.Limit ↔ RoundsPastLimits self.now power }
        ensures no_syntax { ¬ (IsErrOf result DecimalError.Syntax) }
    {
        let Some(rounded) = round_digits(
            &self.digits,
            self.scale,
            power,
            UnsignedRoundingMode::HalfEven,
        ) else {
            return Err(DecimalError::Limit);
        };
        let moved = scale_below(power) as usize + exponent as usize;
        let (left, scale) = rounded.without_last_zeros(&self.digits, moved);
        match left.gathered(alloc, &self.digits) {
            Ok(digits) => Ok(UnsignedDecimal {
                digits,
                scale: scale as u16,
            }),
            Err(_) => Err(DecimalError::OutOfMemory),
        }
    }
}
