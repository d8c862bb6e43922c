//! Catalogues: JSON objects from ids to messages, as FormatJS and ARB have them.
#![tactic(auto)]

mod catalogue;
mod error;
mod reading;

pub use catalogue::Catalogue;
pub use error::CatalogueError;
