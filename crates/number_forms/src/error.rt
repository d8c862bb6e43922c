//! Why there is no form.

use icu_table_entries::TableError;
use thiserror::Error;

/// Why there is no form.
#[derive(Clone, Copy, Debug, PartialEq, Eq, Error)]
pub enum StartError {
    /// The file of tables isn't UTF-8.
    #[error("not UTF-8")]
    NotUtf8,
    /// Its text is rejected.
    #[error("{0}")]
    Refused(TableError),
    /// The tables lack data that the form needs.
    #[error("no data")]
    NoData,
    /// An allocation failed.
    #[error("out of memory")]
    OutOfMemory,
}
