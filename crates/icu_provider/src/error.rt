//! Why a provider has no data.

use thiserror::Error;

/// The kind of a data error (ICU4X, `DataErrorKind`).
#[derive(Clone, Copy, Debug, PartialEq, Eq, Error)]
pub enum DataErrorKind {
    /// The provider has data for this marker, but none for this identifier.
    #[error("no data by this identifier")]
    IdentifierNotFound,
    /// The provider has no data for this marker.
    #[error("no data of this marker")]
    MarkerNotFound,
    /// The request cannot be answered by any provider.
    #[error("not a request for data")]
    InvalidRequest,
    /// A reason of the provider's own.
    #[error("the provider failed")]
    Custom,
    /// Memory ran out.
    #[error("out of memory")]
    OutOfMemory,
}

/// Why data can't be had: a kind, and a text of the provider's own, which may be empty (ICU4X,
/// `DataError`).
#[derive(Clone, Copy, Debug, PartialEq, Eq, Error)]
#[error("{kind}{}{context}", separator(.context))]
pub struct DataError {
    /// The kind of the error.
    pub kind: DataErrorKind,
    /// The provider's own text; empty if it has none.
    pub context: &'static str,
}

/// What stands before the context of an error.
fn separator(context: &str) -> &'static str {
    if context.is_empty() { "" } else { ": " }
}

impl From<DataErrorKind> for DataError {
    ghost use Rattle.std.specs.Prelude.{◌≡◌, []};

    ghost from_gives = { λ kind e. (e.kind ≡ kind) × (e.context.now ≡ []) };

    /// The error of this kind, with an empty context.
    fn from(kind: DataErrorKind) -> DataError {
        DataError { kind, context: "" }
    }
}
