//! Plural categories, operands, rules and elements (UTS 35 Part 3, Language Plural Rules), after
//! ICU4X's crate `icu_plurals`.
//!
//! ```
//! let rules = PluralRules::from_rules(
//!     rt.alloc(),
//!     &[(PluralCategory::One, "i = 1 and v = 0")],
//! ).ok()?;
//! let decimal = Decimal::try_from_str(rt.alloc(), "1").ok()?;
//! let operands = PluralOperands::from_significand_and_exponent(&decimal.absolute, 0);
//! println!(rt;
//!     "one: {}",
//!     rules.category_for(operands) == PluralCategory::One
//! )
//! .ok()
//! ```
//!
//! prints `one: true`.
#![tactic(auto)]

pub mod category;
pub mod elements;
mod evaluation;
pub mod laws;
pub mod loading;
pub mod operands;
pub mod rules;
mod whole_number;

pub use category::PluralCategory;
pub use elements::PluralElements;
pub use icu_plurals_conditions::{RulesError, error};
pub use loading::{PluralRulesPreferences, PluralsCardinalV1, PluralsOrdinalV1};
pub use operands::{PluralOperands, RawPluralOperands};
pub use rules::PluralRules;
