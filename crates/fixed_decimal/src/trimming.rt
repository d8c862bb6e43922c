//! Leaving out the zeros at a decimal's end.

ghost use Rattle.std.specs.Prelude.{◌≡◌};
ghost use Rattle.fixed_decimal.specs.Unsigned.{IsUnsigned, high};
ghost use Rattle.fixed_decimal.specs.Size.{size};
ghost use Rattle.fixed_decimal.specs.Trimming.{IsTrimmedEnd, IsTrimmed};

use crate::UnsignedDecimal;
use crate::digits::without_zeros;

impl UnsignedDecimal {
    /// The same number without the zeros at its end that stand below power 0 (ICU4X `trimmed_end`).
    // promise: No zero is left at the end below power 0; the size stays.
    // mutations: trimmed_end_last_zero_kept
    pub fn trimmed_end(mut self) -> Self
        ensures trimmed { IsTrimmedEnd self result }
        ensures last { IsTrimmed result }
        ensures size { size result ≡ size self }
        ensures high { high result ≡ high self }
        ensures valid { IsUnsigned result }
    {
        let count = self.digits.len();
        let kept = without_zeros(&self.digits, count - self.scale as usize);
        self.digits.truncate(kept);
        self.scale -= (count - kept) as u16;
        self
    }
}
