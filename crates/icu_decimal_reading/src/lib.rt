//! Reads the text of a number back, as a plain or a compact formatter wrote it.
#![tactic(auto)]

mod alike;
mod compact_decimal;
mod compact_reading;
mod compact_written;
mod digits;
mod error;
pub mod laws;
mod number;
mod reading;
mod written;

pub use compact_decimal::CompactDecimal;
pub use compact_reading::read_compact;
pub use error::NotRead;
pub use reading::read_text;
