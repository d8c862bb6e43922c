//! Conditions of plural rules (UTS 35 Part 3, Plural rules syntax): their texts, read into small
//! values or rejected at the first fault.
//!
//! ```
//! let byte = first_fault("i = 1 or")?;
//! println!(rt; "rejected at byte {byte}").ok()?;
//! let text = "i = 1 and v = 0";
//! if first_fault(text).is_some() {
//!     return None;
//! }
//! let condition = read_condition(rt.alloc(), text).ok()?;
//! println!(rt; "alternatives: {}", condition.alternatives.len()).ok()
//! ```
//!
//! prints `rejected at byte 8` and `alternatives: 1`.
#![tactic(auto)]

pub mod condition;
mod draft;
pub mod error;
pub mod laws;
mod lexer;
mod progress;
pub mod reader;

pub use condition::Condition;
pub use error::RulesError;
pub use reader::{first_fault, read_condition};
