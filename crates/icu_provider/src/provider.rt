//! Data providers.

ghost use Rattle.std.specs.Prelude.{Result};
ghost use Rattle.icu_provider.specs.Answer.{Answers, Refusal};
ghost use Rattle.icu_provider.specs.Identifier.{Identifier, identifier_of};

use crate::error::DataError;
use crate::identifier::DataRequest;
use std::alloc::Global;

/// The marker of a kind of data (ICU4X, `DataMarker`).
pub trait DataMarker {
    /// The type of the data.
    type DataStruct;
}

/// A provider of data of one kind (ICU4X, `DataProvider`).
///
/// The answer is determined by the provider's value and the identifier alone, so that the same
/// request always has the same answer. Any call may run out of memory.
pub trait DataProvider<M: DataMarker> {
    /// The provider's answer for each identifier, if memory suffices.
    ghost answer: { Self → Identifier → Result M.DataStruct Refusal };

    /// The data for the identifier of the request, or the error with its text. If memory runs out,
    /// the error is `OutOfMemory` without a text.
    // promise: Provider and identifier determine the data or the error.
    fn load(&self, alloc: Global, request: &DataRequest<'_>) -> Result<M::DataStruct, DataError>
        ensures { Answers result (answer self.now (identifier_of request.now.id)) };
}
