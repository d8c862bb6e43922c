//! Money, percents and units over any formatter of numbers.
//!
//! ```
//! let Ok(symbols) = DecimalSymbols::new_en_for_testing(rt.alloc()) else {
//!     return None;
//! };
//! let formatter = DecimalFormatter::from_parts(
//!     symbols,
//!     ASCII_DIGITS,
//!     DecimalFormatterOptions::default(),
//! );
//! let texts = AffixTexts {
//!     minus_sign: "-",
//!     plus_sign: "+",
//!     percent_sign: "%",
//!     currency: "CHF",
//! };
//! let pattern = CldrPattern::parse(rt.alloc(), "¤#,##0.00").ok()?;
//! let patterns = pattern.resolve(rt.alloc(), &texts, &ASCII_DIGITS).ok()?;
//! let francs = CurrencyFormatter::new(formatter, patterns);
//! let decimal = Decimal::try_from_str(rt.alloc(), "-1234.5").ok()?;
//! let amount = rounded_to(decimal, 2).ok()?;
//! let text = francs.write_to_string(rt.alloc(), &amount).ok()?;
//! println!(rt; "{text}").ok()
//! ```
//!
//! prints `-CHF 1,234.50`, with U+00A0 behind the symbol.
#![tactic(auto)]

mod compact_currency_formatter;
mod currency_data;
mod currency_formatter;
mod frame;
mod hundredfold;
pub mod laws;
mod loading;
mod loading_compact;
mod long_currency_formatter;
mod markers;
mod name_pattern;
pub mod options;
mod percent_formatter;
pub mod provider;
mod readable;
mod unit_pattern;
mod units_formatter;

pub use compact_currency_formatter::CompactCurrencyFormatter;
pub use currency_formatter::CurrencyFormatter;
pub use hundredfold::percents_of;
pub use icu_dimension_data::parts;
pub use long_currency_formatter::LongCurrencyFormatter;
pub use name_pattern::{NamePattern, NameTexts, Named};
pub use percent_formatter::PercentFormatter;
pub use units_formatter::UnitsFormatter;
