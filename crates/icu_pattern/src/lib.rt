//! Patterns: texts with at most one placeholder for a value, after ICU4X's crate `icu_pattern`.
//!
//! ```
//! let pattern: Pattern<SinglePlaceholder> = Pattern::try_new(rt.alloc(), Some(0), " km").ok()?;
//! let text = pattern.interpolate("12").write_to_string(rt.alloc()).ok()?;
//! println!(rt; "{text}").ok()
//! ```
//!
//! prints `12 km`.
#![tactic(auto)]

pub mod backend;
pub mod error;
pub mod interpolated;
pub mod pattern;

pub use backend::{NoPlaceholder, PatternBackend, SinglePlaceholder};
pub use error::PatternError;
pub use interpolated::Interpolated;
pub use pattern::{Pattern, PatternRef};
