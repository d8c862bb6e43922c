//! Data requests and data providers, after ICU4X's crate `icu_provider`: locales, names of
//! numbering systems, identifiers, requests, errors and the trait of providers.
//!
//! ```
//! let locale = DataLocale::try_from_str("de-CH").ok()?;
//! let id = DataIdentifierBorrowed::for_locale(&locale);
//! println!(rt; "by the locale alone: {}", id.system().is_none()).ok()
//! ```
//!
//! prints `by the locale alone: true`.
#![tactic(auto)]

pub mod error;
pub mod identifier;
pub mod locale;
pub mod numbering_system;
pub mod provider;
mod short_text;

pub use error::{DataError, DataErrorKind};
pub use identifier::{DataIdentifierBorrowed, DataRequest};
pub use locale::{BadLocale, DataLocale};
pub use numbering_system::{BadNumberingSystem, NumberingSystem};
pub use provider::{DataMarker, DataProvider};
