//! Ranges by the forms of `number_forms`, as `3–5`, `$3.00 – $5.00`, `1K – 2K` and
//! `3–5 km`.
#![tactic(auto)]

mod by_category;
mod compact;
mod ends;
mod error;
mod given;
mod marking;
mod reported;
mod writing;

pub use by_category::push_range;
pub use error::RangeTextError;
