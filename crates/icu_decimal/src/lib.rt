//! Decimals in the digits, signs, separators and groups of a locale: a port of ICU4X's
//! `icu_decimal`.
//!
//! ```
//! let Ok(symbols) = DecimalSymbols::new_en_for_testing(rt.alloc()) else {
//!     return None;
//! };
//! let formatter = DecimalFormatter::from_parts(
//!     symbols,
//!     ASCII_DIGITS,
//!     DecimalFormatterOptions::default(),
//! );
//! let decimal = Decimal::try_from_str(rt.alloc(), "-987654.321").ok()?;
//! println!(rt; "{}", formatter.format(&decimal)).ok()
//! ```
//!
//! prints `-987,654.321`.
#![tactic(auto)]

mod compact_formatter;
mod compact_rounding;
mod cow;
mod decimal_formatter;
pub mod error;
mod formatted_compact;
mod formatted_decimal;
mod formatted_sign;
pub mod laws;
mod loading;
pub mod parts;
pub mod provider;

/// What a formatter takes.
pub mod input {
    pub use fixed_decimal::{Decimal, SignDisplay};
}

pub use compact_formatter::CompactDecimalFormatter;
pub use cow::Cow;
pub use decimal_formatter::DecimalFormatter;
pub use formatted_compact::{FormattedUnsignedCompactDecimal, InterpolatedDecimal};
pub use formatted_decimal::{FormattedDecimal, FormattedUnsignedDecimal};
pub use formatted_sign::FormattedSign;
pub use icu_decimal_options::{grouper, options, preferences};
pub use preferences::DecimalFormatterPreferences;
