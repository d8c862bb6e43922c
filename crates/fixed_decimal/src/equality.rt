//! Equality of sign, range and digits, and copies.

ghost use Rattle.std.specs.Prelude.{nat_eq, ◌≡◌, IfOk, IsOkUnless};
ghost use Rattle.std.proofs.Common.{rules};
ghost use Rattle.std.specs.Cmp.Lexicographic.{pointwise};
ghost use Rattle.std.specs.Cmp.Rules.{comparing};
ghost use Rattle.std.specs.Ordering.{eq_of_both, on};
ghost use Rattle.fixed_decimal.specs.Unsigned.{IsUnsigned};

use crate::{Decimal, DecimalError, UnsignedDecimal};
use smallvec::SmallVec;
use std::alloc::Global;

impl PartialEq for UnsignedDecimal {
    ghost eq = { eq_of_both (on (λ d. d.digits) (pointwise nat_eq)) (on (λ d. d.scale) nat_eq) };

    ghost laws = { Prim.search (comparing, rules) };

    fn eq(&self, other: &Self) -> bool {
        self.digits == other.digits && self.scale == other.scale
    }
}

impl Eq for UnsignedDecimal {
    ghost laws = { Prim.search (comparing, rules) };
}

impl UnsignedDecimal {
    /// An equal value, with memory of its own.
    pub fn copy(&self, alloc: Global) -> Result<Self, DecimalError>
        ensures equal { IfOk result (λ d. d ≡ self.now) }
        ensures valid { IsUnsigned self.now }
        ensures memory { IsOkUnless result DecimalError.OutOfMemory }
    {
        let digits = SmallVec::from_slice(alloc, &self.digits)?;
        Ok(UnsignedDecimal {
            digits,
            scale: self.scale,
        })
    }
}

impl Decimal {
    /// An equal value, with memory of its own.
    pub fn copy(&self, alloc: Global) -> Result<Self, DecimalError>
        ensures equal { IfOk result (λ d. d ≡ self.now) }
        ensures valid { IsUnsigned self.now.absolute }
        ensures memory { IsOkUnless result DecimalError.OutOfMemory }
    {
        let absolute = self.absolute.copy(alloc)?;
        Ok(Decimal {
            sign: self.sign,
            absolute,
        })
    }
}
