//! Rounding of numbers to what is shown of them, by any precision, rounding mode and compact table.
#![tactic(auto)]

mod error;
pub mod laws;
mod places;
mod precision;
mod rounded;
mod rounding;
mod showing;
mod significand;

pub use error::ShownError;
pub use precision::divides_one;
pub use rounding::Rounding;
pub use showing::{ShownNumber, shown};
