//! Records in which a range stands in the place of one field, and the field of its end is left out.
#![tactic(auto)]

mod columns;
mod csv;
mod cutting;
mod naming;
mod placing;
mod writing;

pub use columns::column_named;
pub use writing::{RangeFields, push_front, push_record};
