//! Numbers with a unit, over any formatter of numbers.
//!
//! ```
//! let Ok(symbols) = DecimalSymbols::new_en_for_testing(rt.alloc()) else {
//!     return None;
//! };
//! let formatter = DecimalFormatter::from_parts(
//!     symbols,
//!     ASCII_DIGITS,
//!     DecimalFormatterOptions::default(),
//! );
//! let rules = PluralRules::from_rules(
//!     rt.alloc(),
//!     &[(PluralCategory::One, "i = 1 and v = 0")],
//! ).ok()?;
//! let one = Pattern::try_new(rt.alloc(), Some(0), " meter").ok()?;
//! let other = Pattern::try_new(rt.alloc(), Some(0), " meters").ok()?;
//! let elements = PluralElements::new(other).with_one_value(Some(one));
//! let metres = UnitFormatter::new(formatter, rules, elements);
//! let decimal = Decimal::try_from_str(rt.alloc(), "1234").ok()?;
//! let mut text = PartsText::new(rt.alloc());
//! metres.write(rt.alloc(), &decimal, &mut text).ok()?;
//! println!(rt; "{}", text.text()).ok()
//! ```
//!
//! prints `1,234 meters`.
#![tactic(auto)]

mod unit_formatter;

pub use unit_formatter::UnitFormatter;
