//! Rounding to a multiple of a power of ten, by a mode.

ghost use Rattle.std.specs.Prelude.{◌≡◌, ◌≢◌, ◌+◌, ◌*◌, ◌<◌, ◌≤◌, ◌^◌, ◌↔◌, MatchBool, MatchResult, All, length, take, drop, IfOk, IfErr, IfNone, IfSome};
ghost use Rattle.std.specs.Prelude.{IsErrAnd, IsErrOf, OnErr, OnOk, pos, negsuc, ◌-ℤ◌, ◌≤ℤ◌};
ghost use Rattle.std.specs.Ordering.{MatchOrdering};
ghost use Rattle.fixed_decimal.specs.Unsigned.{IsUnsigned};
ghost use Rattle.fixed_decimal.specs.Size.{weighed, ten_to};
ghost use Rattle.fixed_decimal.specs.Rounding.{IsRounded, RoundsPastLimits, scale_at, zeros_at};
ghost use Rattle.fixed_decimal.specs.RoundedBy.{IsRoundedBy, IsRoundedSize, RoundsPastLimitsBy, SizeRoundsPastLimits};
ghost use Rattle.fixed_decimal.specs.RoundedBy.{RoundsUpBy, RoundsDownBy, IsOdd, IsEven};
ghost use Rattle.fixed_decimal.specs.RoundedDigits.{digits_left};

use crate::digits::{MAX_DIGITS, is_all_zero, without_nines};
use crate::modes::size_mode;
use crate::rounded_digits::{RoundedDigits, TOO_MANY_DIGITS};
use crate::{DecimalError, SignedRoundingMode, UnsignedDecimal, UnsignedRoundingMode};
use std::cmp::Ordering;

impl UnsignedDecimal {
    /// The nearest multiple of ten to the power, the even one of two equally near.
    ///
    /// Where a carry would need power 32768 the answer is `Limit`, before memory is asked for; a
    /// value that is rejected is handed back.
    // promise: It is the nearest multiple; of two equally near, the even.
    // mutations: rounded_halves_go_up, rounded_truncates
    // promise: `Limit` comes exactly where it reaches 10^32768.
    // mutations: rounded_limit_at_the_greatest_power
    // promise: The digits are valid: below ten, and within the limits.
    // mutations: rounded_carry_left_out
    pub fn rounded(self, power: i16) -> Result<Self, (Self, DecimalError)>
        ensures rounded { IfOk result (λ y. IsRounded self power y) }
        ensures valid { MatchResult result (λ y. IsUnsigned y) (λ e. IsUnsigned e.0) }
        ensures limit { IsErrAnd result (λ e. e.1 ≡ DecimalError.Limit)
            ↔ RoundsPastLimits self power }
        ensures no_syntax { IfErr result (λ e. e.1 ≢ DecimalError.Syntax) }
        ensures handed_back { IfErr result (λ e. e.0 ≡ self) }
    {
        let mode = SignedRoundingMode::Unsigned(UnsignedRoundingMode::HalfEven);
        self.rounded_with_mode(power, mode, false)
    }

    /// The multiple of ten to the power that the mode takes of a number with or without a minus
    /// (ICU4X `round_with_mode`).
    ///
    /// Where a carry would need power 32768 the answer is `Limit`, before memory is asked for; a
    /// value that is rejected is handed back.
    // promise: It is the multiple of ten to the power that the mode takes.
    // mutations: half_down_as_half_up, up_of_little_is_nothing
    // promise: A minus turns ceiling into down, and floor into up.
    // mutations: ceiling_of_a_negative_away_from_zero
    pub fn rounded_with_mode(
        mut self,
        power: i16,
        mode: SignedRoundingMode,
        minus: bool,
    ) -> Result<Self, (Self, DecimalError)>
        ensures rounded { IfOk result (λ y. IsRoundedBy mode minus (ten_to power) self power y) }
        ensures valid { MatchResult result (λ y. IsUnsigned y) (λ e. IsUnsigned e.0) }
        ensures limit { IsErrAnd result (λ e. e.1 ≡ DecimalError.Limit)
            ↔ RoundsPastLimitsBy mode minus (ten_to power) self }
        ensures no_syntax { IfErr result (λ e. e.1 ≢ DecimalError.Syntax) }
        ensures handed_back { IfErr result (λ e. e.0 ≡ self) }
    {
        match self.round_with_mode(power, mode, minus) {
            Ok(()) => Ok(self),
            Err(error) => Err((self, error)),
        }
    }

    /// The same in place; an error leaves the value unchanged.
    pub(crate) fn round_with_mode(
        &mut self,
        power: i16,
        mode: SignedRoundingMode,
        minus: bool,
    ) -> Result<(), DecimalError>
        ensures rounded { OnOk result
            (IsRoundedBy mode minus (ten_to power) self.old power self.new) }
        ensures valid { IsUnsigned self.new }
        ensures limit { IsErrOf result DecimalError.Limit
            ↔ RoundsPastLimitsBy mode minus (ten_to power) self.old }
        ensures no_syntax { ¬ (IsErrOf result DecimalError.Syntax) }
        ensures unchanged { OnErr result (self.new ≡ self.old) }
    {
        let mode = size_mode(mode, minus);
        let Some(rounded) = round_digits(&self.digits, self.scale, power, mode) else {
            return Err(DecimalError::Limit);
        };
        match rounded.leave(&mut self.digits) {
            Ok(()) => {
                self.scale = scale_below(power);
                Ok(())
            }
            Err(_) => Err(DecimalError::OutOfMemory),
        }
    }
}

/// What rounding at the power leaves of the digits, the last `scale` of which stand below power 0;
/// none where a carry would need power 32768.
pub(crate) fn round_digits(
    digits: &[u8],
    scale: u16,
    power: i16,
    mode: UnsignedRoundingMode,
) -> Option<RoundedDigits>
    requires { IsUnsigned (record { digits = digits.now; scale = scale }) }
    ensures kept { IfSome result (λ r. r.kept ≤ length digits.now) }
    ensures small { IfSome result (λ r. r.kept + r.zeros < TOO_MANY_DIGITS) }
    ensures raised { IfSome result (λ r. IfSome r.raised (λ d. d ≢ 0)) }
    ensures valid { IfSome result (λ r.
        IsUnsigned (record {
          digits = digits_left digits.now r.kept r.raised r.zeros;
          scale = scale_at power;
        })) }
    ensures rounded { IfSome result (λ r.
        IsRoundedSize mode (ten_to power) (record { digits = digits.now; scale = scale }) power
        (record {
          digits = digits_left digits.now r.kept r.raised r.zeros;
          scale = scale_at power;
        })) }
    ensures none { IfNone result
        (SizeRoundsPastLimits mode (ten_to power) (record { digits = digits.now; scale = scale })) }
{
    let count = digits.len();
    let integer_count = count - scale as usize;
    let zeros = zeros_below(power);
    let Some(kept) = kept_count(integer_count, power) else {
        if rounds_up_from_nothing(digits, mode) {
            return Some(RoundedDigits {
                kept: 0,
                raised: Some(1),
                zeros,
            });
        }
        return Some(RoundedDigits::cut(0, zeros));
    };
    if kept >= count {
        return Some(RoundedDigits::cut(count, kept - count));
    }
    if !rounds_up(digits, kept, mode) {
        return Some(RoundedDigits::cut(kept, zeros));
    }
    let left = without_nines(digits, kept);
    if left > 0 {
        return Some(RoundedDigits {
            kept: left - 1,
            raised: Some(digits[left - 1] + 1),
            zeros: kept - left + zeros,
        });
    }
    if integer_count == MAX_DIGITS {
        return None;
    }
    Some(RoundedDigits {
        kept: 0,
        raised: Some(1),
        zeros: kept + zeros,
    })
}

/// Whether a mode rounds the first `kept` digits up because of the digits behind them.
fn rounds_up(digits: &[u8], kept: usize, mode: UnsignedRoundingMode) -> bool
    requires some_dropped { kept < length digits.now }
    requires below_ten { All (λ d. d < 10) digits.now }
    ensures { let unit = 10 ^ length (drop kept digits.now) in
        let q = weighed 0 (take kept digits.now) in
        let rest = weighed 0 (drop kept digits.now) in
        MatchBool result (RoundsUpBy mode unit q rest) (RoundsDownBy mode unit q rest) }
{
    match mode {
        UnsignedRoundingMode::Expand => !is_all_zero(&digits[kept..]),
        UnsignedRoundingMode::Trunc => false,
        UnsignedRoundingMode::HalfExpand => match against_half(digits, kept) {
            Ordering::Less => false,
            Ordering::Equal | Ordering::Greater => true,
        },
        UnsignedRoundingMode::HalfTrunc => match against_half(digits, kept) {
            Ordering::Less | Ordering::Equal => false,
            Ordering::Greater => true,
        },
        UnsignedRoundingMode::HalfEven => match against_half(digits, kept) {
            Ordering::Less => false,
            Ordering::Equal => ends_odd(digits, kept),
            Ordering::Greater => true,
        },
    }
}

/// Whether a mode rounds a number up that is less than half a unit.
pub(crate) fn rounds_up_from_nothing(digits: &[u8], mode: UnsignedRoundingMode) -> bool
    ensures { let rest = weighed 0 digits.now in
        MatchBool result
        ((unit : _) → 2 * rest < unit → RoundsUpBy mode unit 0 rest)
        ((unit : _) → 2 * rest < unit → RoundsDownBy mode unit 0 rest) }
{
    match mode {
        UnsignedRoundingMode::Expand => !is_all_zero(digits),
        _ => false,
    }
}

/// How the digits behind the first `kept` compare with half a unit of the last of these.
pub(crate) fn against_half(digits: &[u8], kept: usize) -> Ordering
    requires some_dropped { kept < length digits.now }
    requires below_ten { All (λ d. d < 10) digits.now }
    ensures { let unit = 10 ^ length (drop kept digits.now) in
        let rest = weighed 0 (drop kept digits.now) in
        MatchOrdering result (2 * rest < unit) (2 * rest ≡ unit) (unit < 2 * rest) }
{
    let first = digits[kept];
    if first > 5 {
        return Ordering::Greater;
    }
    if first < 5 {
        return Ordering::Less;
    }
    if is_all_zero(&digits[kept + 1..]) {
        Ordering::Equal
    } else {
        Ordering::Greater
    }
}

/// Whether the first `kept` digits make an odd number.
pub(crate) fn ends_odd(digits: &[u8], kept: usize) -> bool
    requires { kept ≤ length digits.now }
    ensures { let q = weighed 0 (take kept digits.now) in MatchBool result (IsOdd q) (IsEven q) }
{
    kept > 0 && digits[kept - 1] % 2 == 1
}

/// How many zeros stand at power 0 and above in a number rounded at the power.
pub(crate) fn zeros_below(power: i16) -> usize
    ensures { result ≡ zeros_at power }
{
    power.max(0) as usize
}

/// How many digits stand below power 0 in a number rounded at the power.
pub(crate) fn scale_below(power: i16) -> u16
    ensures { result ≡ scale_at power }
{
    (-(power.min(0) as i32)) as u16
}

/// How many digits stand at the power and above; none where the power is more than one above that
/// of the first digit.
fn kept_count(integer_count: usize, power: i16) -> Option<usize>
    requires { integer_count ≤ MAX_DIGITS }
    ensures none { IfNone result ((pos integer_count -ℤ power) ≤ℤ negsuc 0) }
    ensures some { IfSome result (λ kept. pos kept ≡ pos integer_count -ℤ power) }
{
    let kept = integer_count as i32 - power as i32;
    if kept < 0 { None } else { Some(kept as usize) }
}
