//! Symbols: the texts of signs and separators that a locale writes numbers with, and the sizes of
//! its digit groups.
//!
//! ```
//! let builder = DecimalSymbolStrsBuilder {
//!     minus_sign_prefix: "-",
//!     minus_sign_suffix: "",
//!     plus_sign_prefix: "+",
//!     plus_sign_suffix: "",
//!     decimal_separator: ",",
//!     grouping_separator: ".",
//!     numsys: "latn",
//! };
//! let symbols = builder.build(rt.alloc()).ok()?;
//! println!(rt; "before fractions {}", symbols.decimal_separator()).ok()
//! ```
//!
//! prints `before fractions ,`.
#![tactic(auto)]

pub mod decimal_symbols;
pub mod error;
pub mod grouping_sizes;
pub mod laws;
mod symbol_bytes;
mod symbol_damage;
pub mod symbols;
pub mod symbols_view;

pub use decimal_symbols::DecimalSymbols;
pub use error::{Damaged, SymbolsError};
pub use grouping_sizes::GroupingSizes;
pub use symbols::{DecimalSymbolStrsBuilder, DecimalSymbolsStrs};
pub use symbols_view::SymbolsView;
