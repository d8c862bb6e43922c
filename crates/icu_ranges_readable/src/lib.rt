//! Whether the texts of ranges determine both numbers.
#![tactic(auto)]

mod amounts;
mod characters;
pub mod laws;
mod readable;

pub use amounts::are_amount_ranges_readable;
pub use readable::are_ranges_readable;
