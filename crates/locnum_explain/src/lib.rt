//! Explanations of how the text of a number is written, for people who write tables.
#![tactic(auto)]

mod around;
mod columns;
mod compact;
mod explaining;
mod facts;
pub mod laws;
mod marking;
mod operands;
mod parts;
mod patterns;
mod repeating;
mod rounding;
mod settings;
mod texts;

pub use around::push_around;
pub use explaining::explain;
pub use facts::{push_entry, push_magnitude, push_pattern};
pub use operands::push_operands;
pub use parts::push_parts;
pub use settings::{DigitsBy, Settings};
pub use texts::{explain_at, explain_line, explain_lines};
