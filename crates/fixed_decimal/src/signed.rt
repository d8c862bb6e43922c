//! Decimals with a sign.

ghost use Rattle.std.specs.Prelude.{◌≡◌, ◌≢◌, ◌*◌, ◌↔◌, ◌==◌, ◌<ℤ◌, IfOk, IfErr, OnOk, OnErr, IsErrAnd, IsErrOf, IsOkUnless, MatchBool, MatchResult};
ghost use Rattle.std.specs.Prelude.{pos, unsigned_abs, int_lt};
ghost use Rattle.fixed_decimal.specs.Unsigned.{IsUnsigned, low, high};
ghost use Rattle.fixed_decimal.specs.Size.{size, ten_to, magnitude};
ghost use Rattle.fixed_decimal.specs.Rounding.{IsRounded, RoundsPastLimits};
ghost use Rattle.fixed_decimal.specs.RoundedBy.{IsRoundedBy, RoundsPastLimitsBy};
ghost use Rattle.fixed_decimal.specs.Increments.{unit_of};
ghost use Rattle.fixed_decimal.specs.SignDisplay.{is_negative};
ghost use Rattle.fixed_decimal.specs.Scaling.{IsMoved, IsTimesTenTo, MovesPastLimits};
ghost use Rattle.fixed_decimal.specs.SignDisplay.{sign_by_display};

use crate::signs::{is_negative, sign_by_display};
use crate::{
    DecimalError, RoundingIncrement, Sign, SignDisplay, SignedRoundingMode, UnsignedDecimal,
    UnsignedRoundingMode,
};
use std::alloc::Global;

/// A decimal: a sign and a number without one. `-0` keeps its sign.
#[derive(Debug, PartialEq, Eq, Drop)]
pub struct Decimal {
    /// The sign as it is written.
    pub sign: Sign,
    /// The number without its sign.
    pub absolute: UnsignedDecimal,
}

impl Decimal {
    /// The digits of a whole number, without a sign and without leading zeros.
    pub fn from_u64(alloc: Global, value: u64) -> Result<Self, DecimalError>
        ensures sign { IfOk result (λ d. d.sign ≡ Sign.None) }
        ensures size { IfOk result (λ d. size d.absolute ≡ value * ten_to (pos 0)) }
        ensures low { IfOk result (λ d. low d.absolute ≡ pos 0) }
        ensures high { IfOk result (λ d. high d.absolute ≡ magnitude (size d.absolute)) }
        ensures valid { IfOk result (λ d. IsUnsigned d.absolute) }
        ensures memory { IsOkUnless result DecimalError.OutOfMemory }
    {
        let absolute = UnsignedDecimal::from_u64(alloc, value)?;
        Ok(Decimal {
            sign: Sign::None,
            absolute,
        })
    }

    /// The digits of a whole number, without leading zeros; `Negative` below zero, else without a
    /// sign.
    // promise: The decimal has the size and the sign of the integer.
    // mutations: from_i64_minus_one_without_its_sign
    pub fn from_i64(alloc: Global, value: i64) -> Result<Self, DecimalError>
        ensures sign { IfOk result (λ d.
            MatchBool (int_lt value (pos 0)) (d.sign ≡ Sign.Negative) (d.sign ≡ Sign.None)) }
        ensures size { IfOk result (λ d. size d.absolute ≡ unsigned_abs value * ten_to (pos 0)) }
        ensures low { IfOk result (λ d. low d.absolute ≡ pos 0) }
        ensures high { IfOk result (λ d. high d.absolute ≡ magnitude (size d.absolute)) }
        ensures valid { IfOk result (λ d. IsUnsigned d.absolute) }
        ensures memory { IsOkUnless result DecimalError.OutOfMemory }
    {
        let absolute = UnsignedDecimal::from_u64(alloc, value.unsigned_abs())?;
        let sign = if value < 0 {
            Sign::Negative
        } else {
            Sign::None
        };
        Ok(Decimal { sign, absolute })
    }

    /// Multiplies by ten to the power, the sign kept (ICU4X `multiply_pow10`): each digit that many
    /// powers higher, and the range widened to include 0.
    ///
    /// `Limit` is determined before memory is asked for; an error leaves the value unchanged.
    pub fn multiply_pow10(&mut self, power: i16) -> Result<(), DecimalError>
        ensures moved { OnOk result (IsMoved self.old.absolute power self.new.absolute) }
        ensures size { OnOk result
            (IsTimesTenTo power (size self.old.absolute) (size self.new.absolute)) }
        ensures sign { self.new.sign ≡ self.old.sign }
        ensures valid { IsUnsigned self.new.absolute }
        ensures limit { IsErrOf result DecimalError.Limit
            ↔ MovesPastLimits self.old.absolute power }
        ensures no_syntax { ¬ (IsErrOf result DecimalError.Syntax) }
        ensures unchanged { OnErr result (self.new ≡ self.old) }
    {
        self.absolute.multiply_pow10(power)
    }

    /// Turns the number into the nearest multiple of ten to the power, the even one of two equally
    /// near, the sign kept (ICU4X `round`).
    ///
    /// Where a carry would need power 32768 the answer is `Limit`, before memory is asked for; an
    /// error leaves the value unchanged.
    // promise: In place a number becomes what `rounded` makes of it.
    // mutations: round_halves_away_from_zero
    pub fn round(&mut self, power: i16) -> Result<(), DecimalError>
        ensures rounded { OnOk result (IsRounded self.old.absolute power self.new.absolute) }
        ensures sign { self.new.sign ≡ self.old.sign }
        ensures valid { IsUnsigned self.new.absolute }
        ensures limit { IsErrOf result DecimalError.Limit
            ↔ RoundsPastLimits self.old.absolute power }
        ensures no_syntax { ¬ (IsErrOf result DecimalError.Syntax) }
        ensures unchanged { OnErr result (self.new ≡ self.old) }
    {
        let mode = SignedRoundingMode::Unsigned(UnsignedRoundingMode::HalfEven);
        self.absolute.round_with_mode(power, mode, false)
    }

    /// The nearest multiple of ten to the power, the even one of two equally near, the sign kept.
    ///
    /// Where a carry would need power 32768 the answer is `Limit`, before memory is asked for; a
    /// value that is rejected is handed back.
    pub fn rounded(self, power: i16) -> Result<Self, (Self, DecimalError)>
        ensures rounded { IfOk result (λ y. IsRounded self.absolute power y.absolute) }
        ensures sign { IfOk result (λ y. y.sign ≡ self.sign) }
        ensures valid { MatchResult result (λ y. IsUnsigned y.absolute) (λ e.
            IsUnsigned e.0.absolute) }
        ensures limit { IsErrAnd result (λ e. e.1 ≡ DecimalError.Limit)
            ↔ RoundsPastLimits self.absolute power }
        ensures no_syntax { IfErr result (λ e. e.1 ≢ DecimalError.Syntax) }
        ensures handed_back { IfErr result (λ e. e.0 ≡ self) }
    {
        let Decimal { sign, absolute } = self;
        match absolute.rounded(power) {
            Ok(absolute) => Ok(Decimal { sign, absolute }),
            Err((absolute, error)) => Err((Decimal { sign, absolute }, error)),
        }
    }

    /// The multiple of ten to the power that the mode takes, the sign kept (ICU4X
    /// `round_with_mode`).
    ///
    /// Where a carry would need power 32768 the answer is `Limit`, before memory is asked for; a
    /// value that is rejected is handed back.
    // promise: The mode takes the sign into account, and keeps it.
    // mutations: minus_of_a_decimal_passed_over, rounded_with_mode_sign_lost
    pub fn rounded_with_mode(
        self,
        power: i16,
        mode: SignedRoundingMode,
    ) -> Result<Self, (Self, DecimalError)>
        ensures rounded { IfOk result (λ y.
            IsRoundedBy mode (is_negative self.sign) (ten_to power) self.absolute power
            y.absolute) }
        ensures sign { IfOk result (λ y. y.sign ≡ self.sign) }
        ensures valid { MatchResult result (λ y. IsUnsigned y.absolute) (λ e.
            IsUnsigned e.0.absolute) }
        ensures limit { IsErrAnd result (λ e. e.1 ≡ DecimalError.Limit)
            ↔ RoundsPastLimitsBy mode (is_negative self.sign) (ten_to power) self.absolute }
        ensures no_syntax { IfErr result (λ e. e.1 ≢ DecimalError.Syntax) }
        ensures handed_back { IfErr result (λ e. e.0 ≡ self) }
    {
        let Decimal { sign, absolute } = self;
        match absolute.rounded_with_mode(power, mode, is_negative(sign)) {
            Ok(absolute) => Ok(Decimal { sign, absolute }),
            Err((absolute, error)) => Err((Decimal { sign, absolute }, error)),
        }
    }

    /// The multiple of the increment at the power that the mode takes, the sign kept (ICU4X
    /// `round_with_mode_and_increment`): of 25 at power -2, a multiple of 0.25.
    ///
    /// Where the result would need power 32768 the answer is `Limit`, before memory is asked for; a
    /// value that is rejected is handed back.
    // promise: With increments, too, the mode takes the sign into account.
    // mutations: increment_minus_passed_over, increment_sign_lost
    pub fn rounded_with_mode_and_increment(
        self,
        power: i16,
        mode: SignedRoundingMode,
        increment: RoundingIncrement,
    ) -> Result<Self, (Self, DecimalError)>
        ensures rounded { IfOk result (λ y.
            IsRoundedBy mode (is_negative self.sign) (unit_of increment power) self.absolute power
            y.absolute) }
        ensures sign { IfOk result (λ y. y.sign ≡ self.sign) }
        ensures valid { MatchResult result (λ y. IsUnsigned y.absolute) (λ e.
            IsUnsigned e.0.absolute) }
        ensures limit { IsErrAnd result (λ e. e.1 ≡ DecimalError.Limit)
            ↔ RoundsPastLimitsBy mode (is_negative self.sign) (unit_of increment power)
            self.absolute }
        ensures no_syntax { IfErr result (λ e. e.1 ≢ DecimalError.Syntax) }
        ensures handed_back { IfErr result (λ e. e.0 ≡ self) }
    {
        let Decimal { sign, absolute } = self;
        let minus = is_negative(sign);
        match absolute.rounded_with_mode_and_increment(power, mode, minus, increment) {
            Ok(absolute) => Ok(Decimal { sign, absolute }),
            Err((absolute, error)) => Err((Decimal { sign, absolute }, error)),
        }
    }

    /// The same number with the sign that is to be shown (ICU4X `with_sign_display`).
    // promise: The sign shown is that of the display; the number stays.
    // mutations: with_sign_display_minus_of_zero_kept
    pub fn with_sign_display(self, display: SignDisplay) -> Self
        ensures sign { result.sign ≡ sign_by_display display (size self.absolute == 0) self.sign }
        ensures absolute { result.absolute ≡ self.absolute }
        ensures valid { IsUnsigned result.absolute }
    {
        let Decimal { sign, absolute } = self;
        let sign = sign_by_display(display, absolute.is_zero(), sign);
        Decimal { sign, absolute }
    }
}
