//! Lines, or records of CSV, with numbers in some of their fields, to such lines in which these are in
//! the form of a locale.
#![tactic(auto)]

mod blocks;
mod columns;
mod csv;
mod cutting;
mod field;
mod finding;
mod front;
mod gathered;
mod holding;
mod line;
mod names;
mod nearest;
mod note;
mod padding;
mod records;
mod running;
mod settings;
mod whole;
mod writing;

pub use finding::{FoundNumber, NumberFinder, RecordState};
pub use front::behind_mark;
pub use padding::{Alignment, Padding, push_padded};
pub use running::{Report, RunError, run};
pub use settings::{Delimiter, FieldRange, LineSettings, Refusals, Source};
