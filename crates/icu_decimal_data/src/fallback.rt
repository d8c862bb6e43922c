//! Loading data by several identifiers in turn.

ghost use Rattle.std.specs.Prelude.{map};
ghost use Rattle.icu_provider.specs.Answer.{Answers};
ghost use Rattle.icu_provider.specs.Identifier.{identifier_of};
ghost use Rattle.icu_decimal_data.specs.Decided.{decided};

use icu_provider::{
    DataError, DataErrorKind, DataIdentifierBorrowed, DataMarker, DataProvider, DataRequest,
};
use std::alloc::Global;

/// The data for the first of the identifiers that the provider has data for.
///
/// The identifiers are requested in their order, all but the last silently. The search ends with
/// the first answer other than `IdentifierNotFound`, or with the last one's answer. Without
/// identifiers the error is `InvalidRequest`.
// promise: The first answer other than `IdentifierNotFound` counts.
// mutations: fallback_skips_every_error, fallback_never_asks_the_last
pub fn load_with_fallback<M: DataMarker, D: DataProvider<M>>(
    alloc: Global,
    provider: &D,
    ids: &[DataIdentifierBorrowed<'_>],
) -> Result<M::DataStruct, DataError>
    ensures { Answers result
        (decided (map (λ id. D.answer provider.now (identifier_of id)) ids.now)) }
{
    let Some((last, others)) = ids.split_last() else {
        return Err(DataError::from(DataErrorKind::InvalidRequest));
    };
    for id in others {
        let request = DataRequest {
            id: *id,
            silent: true,
        };
        match provider.load(alloc, &request) {
            Err(
                DataError {
                    kind: DataErrorKind::IdentifierNotFound,
                    ..
                },
            ) => {}
            decided => return decided,
        }
    }
    let request = DataRequest {
        id: *last,
        silent: false,
    };
    provider.load(alloc, &request)
}
