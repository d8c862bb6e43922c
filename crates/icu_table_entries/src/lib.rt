//! How entries of tables are read from JSON: keys, fields, names, texts, patterns, and their
//! faults.
#![tactic(auto)]

pub mod entries;
mod error;
pub mod fields;
pub mod named;
pub mod pattern_text;
pub mod texts;
pub mod whole_numbers;

pub use error::{EntryFault, Key, Position, TableError};
