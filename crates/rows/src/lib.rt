//! Rows of tests as data. A row is a line of a file: a call, its arguments, `=` and the answer
//! that is wanted. A program of rows tells this crate what each call answers; this crate reads
//! the rows, asks, prints each row whose answer is another one, and counts.
//!
//! # Example
//!
//! ```text
//! # Half to even.
//! round 1.25 -1 = 1.2
//! round {9*32768} 12 = Limit
//! format en.json short 1650 = 1.6K
//! ```
#![tactic(auto)]

mod asking;
mod counting;
mod documents;
mod escapes;
mod readers;
mod reading;
mod running;

pub use asking::Calls;
pub use documents::{Document, Documents};
pub use escapes::{decoded, escaped};
pub use readers::SlowReader;
pub use reading::Row;
pub use running::run;
