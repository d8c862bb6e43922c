//! The options of `locnum`: from the texts of a command line to the form of numbers and the fields
//! of lines.
#![tactic(auto)]

mod beside;
mod counts;
mod explained;
mod fault;
mod fields;
mod given;
mod integer;
mod kinds;
mod locale;
mod names;
mod options;
mod padding;
mod precision;
mod rounding;
mod scale;
mod settings;
mod texts;
mod words;

pub use beside::NumberOption;
pub use explained::Explain;
pub use fault::OptionFault;
pub use given::{Environment, Given};
pub use options::{Options, parse_options};
