//! Text with marked parts: sinks that take characters and named parts, and values that write
//! themselves to sinks, after ICU4X's crate `writeable`.
//!
//! ```
//! let mut text = PartsText::new(rt.alloc());
//! text.open_part(Part {
//!     category: "number",
//!     value: "integer",
//! })
//! .ok()?;
//! text.write_str("12").ok()?;
//! text.close_part().ok()?;
//! text.write_str(" km").ok()?;
//! let spans = text.spans(rt.alloc()).ok()?;
//! println!(rt; "{} with {} part", text.text(), spans.len()).ok()
//! ```
//!
//! prints `12 km with 1 part`.
#![tactic(auto)]

mod byte_groups;
mod byte_writer;
pub mod error;
pub mod event_writer;
mod formatter_writer;
pub mod groups;
pub mod laws;
pub mod parts_text;
pub mod sink;
mod text_writer;
mod wide_digits;
mod wide_groups;
pub mod writeable;

pub use error::OutOfMemory;
pub use event_writer::{ASCII_DIGITS, EventWriter, WithParts};
pub use groups::Grouping;
pub use parts_text::PartsText;
pub use sink::{Part, PartsWrite, WriteFault};
pub use writeable::Writeable;
