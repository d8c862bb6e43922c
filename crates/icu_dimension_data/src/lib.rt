//! The data of money and percents: patterns of CLDR with their currency symbols and signs, and the
//! digits of currencies.
//!
//! ```
//! let texts = AffixTexts {
//!     minus_sign: "-",
//!     plus_sign: "+",
//!     percent_sign: "%",
//!     currency: "$",
//! };
//! let accounting = CldrPattern::parse(rt.alloc(), "¤#,##0.00;(¤#,##0.00)").ok()?;
//! let patterns = accounting.resolve(rt.alloc(), &texts, &ASCII_DIGITS).ok()?;
//! let loss = patterns.for_sign(Sign::Negative).interpolate("1,234.50");
//! let text = loss.write_to_string(rt.alloc()).ok()?;
//! println!(rt; "{text}").ok()
//! ```
//!
//! prints `($1,234.50)`.
#![tactic(auto)]

pub mod affix_texts;
pub mod affix_token;
pub mod by_category;
pub mod cldr_pattern;
pub mod compact_currency_patterns;
pub mod compact_rows;
mod comparing;
mod copying;
pub mod currency_code;
pub mod currency_digits;
pub mod error;
mod flattening;
pub mod parts;
mod permilles;
mod reading;
mod resolving;
pub mod signed_patterns;
mod signed_tables;
mod spacing;
mod stepping;
mod subpattern;

pub use affix_texts::AffixTexts;
pub use affix_token::AffixToken;
pub use cldr_pattern::CldrPattern;
pub use compact_currency_patterns::CompactCurrencyPatterns;
pub use compact_rows::{CompactRow, CompactRows};
pub use currency_code::{BadCurrencyCode, CurrencyCode};
pub use currency_digits::{CashStep, CurrencyDigits, CurrencyEntry, FractionDigits, rounded_to};
pub use error::PatternFault;
pub use signed_patterns::{SignedPattern, SignedPatterns, Surrounded};
