//! Preferences and options of formatters, and where they end the groups of an integer.
//!
//! ```
//! let sizes = GroupingSizes {
//!     primary: 3,
//!     secondary: 2,
//!     min_grouping: 1,
//! };
//! let separated = check(7, 5, GroupingStrategy::default(), sizes);
//! println!(rt; "after hundreds of thousands: {separated}").ok()
//! ```
//!
//! prints `after hundreds of thousands: true`.
#![tactic(auto)]

pub mod grouper;
pub mod laws;
pub mod options;
pub mod preferences;

pub use grouper::check;
pub use options::{CompactDecimalFormatterOptions, DecimalFormatterOptions, GroupingStrategy};
pub use preferences::{CompactDecimalFormatterPreferences, DecimalFormatterPreferences};
