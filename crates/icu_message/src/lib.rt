//! Messages with places and choices (ICU MessageFormat): read into a flat list of pieces, and
//! written with the texts and numbers of arguments.
#![tactic(auto)]

pub mod argument;
mod argument_steps;
pub mod error;
mod filling;
mod key_steps;
mod keys;
pub mod laws;
pub mod message;
mod moving;
mod names;
mod number_steps;
pub mod piece;
pub mod places;
mod reading;
mod showing;
pub mod shown_number;
pub mod signature;
mod spelling;
mod stepping;
mod text_steps;
mod words;
mod writing;

pub use argument::{Argument, ArgumentValue};
pub use error::{ParseError, WriteError};
pub use message::Message;
pub use piece::{ChoiceKind, Piece, Word};
pub use places::Places;
pub use showing::whole_number;
pub use shown_number::ShownNumber;
pub use signature::{ArgumentKind, NamedKind};
