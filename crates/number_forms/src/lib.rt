//! From the text of a number to the bytes that are written: a form of a locale for numbers, money,
//! percents or units, with its rounding and its signs. `push_reported` shows texts of the
//! input in notes and explanations.
#![tactic(auto)]

mod characters;
mod decimals;
mod error;
mod form;
mod making;
mod reported;
mod rounded;
mod scaled;
mod shortened;
mod shortened_with;
mod writing;

pub use decimal_lines::TextError;
pub use decimals::Prepared;
pub use error::StartError;
pub use form::Form;
pub use reported::push_reported;
pub use shortened::{has_compact_increment, shorten};
