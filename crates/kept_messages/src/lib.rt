//! Messages with the plural rules of their locale, and arguments that own what they hold: for
//! callers that keep both, as the library for C does.
#![tactic(auto)]

mod arguments;
mod error;
mod lending;
mod locale_message;
mod places;
mod reading;
mod rules;

pub use arguments::{Arguments, Given, GivenValue};
pub use error::OpenError;
pub use locale_message::LocaleMessage;
pub use places::Place;
