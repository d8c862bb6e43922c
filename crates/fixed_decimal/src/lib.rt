//! Decimals: a sign, a written range of powers of ten from -32768 to 32767, and a digit at each
//! power of the range.
//!
//! A port of the part of ICU4X's `fixed_decimal` on which its number formatters stand.
//!
//! ```
//! let decimal = Decimal::try_from_str(rt.alloc(), "-0012.50").ok()?;
//! println!(rt; "magnitude {}", decimal.absolute.nonzero_magnitude_start()).ok()?;
//! let rounded = decimal.rounded(0).ok()?;
//! println!(rt; "last digit {}", rounded.absolute.digit_at(0)).ok()
//! ```
//!
//! prints `magnitude 1` and `last digit 2`.
#![tactic(auto)]

mod digits;
mod equality;
mod error;
mod increments;
mod lanes;
pub mod laws;
mod modes;
mod numbers;
mod padding;
mod reading;
mod rounded_digits;
mod rounding;
mod scaling;
mod short_text;
mod signed;
mod significand;
mod signs;
mod step_digits;
mod step_rounding;
mod trimming;
mod unsigned;

pub use error::DecimalError;
pub use increments::RoundingIncrement;
pub use modes::{SignedRoundingMode, UnsignedRoundingMode};
pub use signed::Decimal;
pub use signs::{Sign, SignDisplay};
pub use unsigned::UnsignedDecimal;
