//! Whether a formatted number can be read back: tests of symbols, digits and compact tables.
//!
//! ```
//! let Ok(symbols) = DecimalSymbols::new_en_for_testing(rt.alloc()) else {
//!     return None;
//! };
//! println!(rt;
//!     "readable: {}",
//!     are_numbers_readable(&symbols, &ASCII_DIGITS)
//! )
//! .ok()
//! ```
//!
//! prints `readable: true`.
#![tactic(auto)]

mod readable;
mod readable_table;

pub use readable::are_numbers_readable;
pub use readable_table::is_table_readable;
