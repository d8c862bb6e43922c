//! Lines of decimals to lines of text, in the form of a locale.
//!
//! ```
//! let mode = Mode::english(rt.alloc()).ok()?;
//! let mut output = [0; 32];
//! let filled = format_lines(rt.alloc(), &mode, b"1000007\n1e3\n", &mut output);
//! let text = str::from_utf8(output.get(..filled.written)?).ok()?;
//! print!(rt; "{text}").ok()
//! ```
//!
//! prints `1,000,007` and `error: not a decimal`.
#![tactic(auto)]

mod blocks;
mod filling;
pub mod laws;
mod line;
mod mode;
mod mode_of_tables;
mod progress;
mod running;
mod showing;
mod single_text;
mod table_faults;
mod words;
mod writing;

pub use filling::{FillError, Filled, format_lines};
pub use mode::{Mode, StartError};
pub use mode_of_tables::{compact_options, plain_options};
pub use progress::{Progress, format_some};
pub use running::{RunError, run};
pub use showing::{mark_shown, push_shown, write_shown};
pub use single_text::{TextError, format_parts, format_text, read_decimal};
pub use table_faults::{TablesFault, judge_tables};
pub use words::{Style, Words, parse_words};
pub use writing::{WriteFailed, write_piece};
