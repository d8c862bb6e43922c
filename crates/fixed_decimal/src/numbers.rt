//! Decimals of whole numbers.

ghost use Rattle.std.specs.Prelude.{◌≡◌, ◌*◌, IfOk, IsOkUnless, pos};
ghost use Rattle.fixed_decimal.specs.Unsigned.{IsUnsigned, low, high, one};
ghost use Rattle.fixed_decimal.specs.Size.{size, ten_to, magnitude};

use crate::digits::reverse_digits;
use crate::{DecimalError, UnsignedDecimal};
use smallvec::SmallVec;
use std::alloc::Global;

/// How many digits the greatest u64 has.
const U64_DIGITS: usize = 20;

impl UnsignedDecimal {
    /// The digits of a whole number, without leading zeros; zero has one digit.
    pub fn from_u64(alloc: Global, value: u64) -> Result<Self, DecimalError>
        ensures size { IfOk result (λ d. size d ≡ value * ten_to (pos 0)) }
        ensures low { IfOk result (λ d. low d ≡ pos 0) }
        ensures high { IfOk result (λ d. high d ≡ magnitude (size d)) }
        ensures valid { IfOk result (λ d. IsUnsigned d) }
        ensures memory { IsOkUnless result DecimalError.OutOfMemory }
    {
        let mut digits = SmallVec::with_capacity(alloc, U64_DIGITS)?;
        digits.push_reserved((value % 10) as u8);
        let mut rest = value / 10;
        while rest > 0 {
            digits.push_reserved((rest % 10) as u8);
            rest /= 10;
        }
        reverse_digits(&mut digits);
        Ok(UnsignedDecimal { digits, scale: 0 })
    }

    /// The number one, written `1` (ICU4X `UnsignedDecimal::ONE`).
    pub fn one(alloc: Global) -> Result<Self, DecimalError>
        ensures one { IfOk result (λ d. d ≡ one) }
        ensures valid { IfOk result (λ d. IsUnsigned d) }
        ensures memory { IsOkUnless result DecimalError.OutOfMemory }
    {
        let mut digits = SmallVec::with_capacity(alloc, 1)?;
        digits.push_reserved(1);
        Ok(UnsignedDecimal { digits, scale: 0 })
    }
}
