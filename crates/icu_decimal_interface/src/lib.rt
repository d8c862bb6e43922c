//! What stands on a formatter of numbers, plain or compact: units, money, percents and ranges. One
//! call shows a number to a value of the caller's, and all other calls are final functions on it.
#![tactic(auto)]

mod abstract_formatter;
mod frame;
pub mod laws;
mod pairs;
mod sealed;
mod showing;

pub use abstract_formatter::AbstractFormatter;
pub use frame::{Characters, Frame, ShownNumber};
pub use pairs::{PairFrame, write_pair_into};
pub use showing::UseShown;
