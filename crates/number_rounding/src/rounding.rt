//! How numbers are rounded, and how many digits are written of them.

use fixed_decimal::SignedRoundingMode;
use skeleton_settings::Precision;

/// A precision, a rounding mode, and how many digits a shown significand has at least.
#[derive(Clone, Copy, Debug, PartialEq, Eq)]
pub struct Rounding {
    /// How fine a shown number is. The digits of a currency are two here: a caller that knows the
    /// currency puts its digits in their place.
    pub precision: Precision,
    /// Which of the showable numbers around a number is taken.
    pub mode: SignedRoundingMode,
    /// Whether a whole significand is written without digits below power 0.
    pub hides_zeros_of_whole: bool,
    /// How many digits a significand has at power 0 and above at least.
    pub integer_digits: u16,
}
