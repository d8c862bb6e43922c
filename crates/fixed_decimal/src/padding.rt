//! Zeros before and behind the digits: just those that are wanted.

ghost use Rattle.std.specs.Prelude.{◌≡◌, ◌<◌, ◌+◌, ◌⊎◌, ◌↔◌, IfOk, IfErr, IsErrOf, pos, ◌-ℤ◌};
ghost use Rattle.std.specs.Int.{int_max};
ghost use Rattle.fixed_decimal.specs.Unsigned.{IsUnsigned, high};
ghost use Rattle.fixed_decimal.specs.Size.{size, magnitude};
ghost use Rattle.fixed_decimal.specs.Modes.{IsLeastFrom};
ghost use Rattle.fixed_decimal.specs.Padding.{IsExactWith};

use crate::digits::{MAX_DIGITS, cut_front, leading_zeros, widen};
use crate::{DecimalError, UnsignedDecimal};
use std::alloc::Global;

impl UnsignedDecimal {
    /// The same number without the zeros before its first digit other than 0; the digit at power 0
    /// stays (ICU4X `trimmed_start`).
    // promise: No zero is left before the number but at power 0.
    // mutations: trimmed_start_one_zero_kept
    pub fn trimmed_start(mut self) -> Self
        ensures size { size result ≡ size self }
        ensures high { high result ≡ int_max (pos 0) (magnitude (size self)) }
        ensures valid { IsUnsigned result }
    {
        let count = self.digits.len();
        let most = count - self.scale as usize - 1;
        let zeros = leading_zeros(&self.digits).min(most);
        cut_front(&mut self.digits, zeros);
        self
    }

    /// A new value: the same number with as many digits at power 0 and above as it needs, `integer`
    /// at least, and as many below power 0, `fraction` at least (ICU4X `pad_start`, `pad_end`).
    ///
    /// Where more than 32,768 are wanted the answer is `Limit`, before memory is asked for.
    // promise: It has the digits that are needed, and those wanted.
    // mutations: padded_wanted_zeros_left_out, padded_zeros_before_the_number_kept
    // promise: `Limit` comes exactly where too many are wanted.
    // mutations: padded_limit_one_digit_early
    pub fn padded(
        &self,
        alloc: Global,
        integer: usize,
        fraction: usize,
    ) -> Result<Self, DecimalError>
        ensures size { IfOk result (λ y. size y ≡ size self.now) }
        ensures high { IfOk result (λ y.
            high y ≡ int_max (int_max (pos 0) (pos integer -ℤ pos 1)) (magnitude (size self.now))) }
        ensures scale { IfOk result (λ y.
            IsLeastFrom (IsExactWith (size self.now)) fraction y.scale) }
        ensures valid { IfOk result (λ y. IsUnsigned y) }
        ensures limit { IsErrOf result DecimalError.Limit
            ↔ ((32768 < integer) ⊎ (32768 < fraction)) }
        ensures no_syntax { ¬ (IsErrOf result DecimalError.Syntax) }
    {
        if integer > MAX_DIGITS || fraction > MAX_DIGITS {
            return Err(DecimalError::Limit);
        }
        let mut trimmed = self.copy(alloc)?.trimmed_start().trimmed_end();
        let integer_count = trimmed.digits.len() - trimmed.scale as usize;
        let front = integer.saturating_sub(integer_count);
        let back = fraction.saturating_sub(trimmed.scale as usize);
        widen(&mut trimmed.digits, front, back)?;
        trimmed.scale += back as u16;
        Ok(trimmed)
    }
}
