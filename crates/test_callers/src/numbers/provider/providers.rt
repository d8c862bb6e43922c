ghost use Rattle.std.specs.Prelude.{Ok, if◌then◌else◌, nat_eq, length, is_some};
ghost use Rattle.icu_provider.specs.Answer.{refused};
ghost use Rattle.icu_provider.specs.declared.error.DataErrorKind.TheVariants.{IdentifierNotFound, Custom};

use icu_provider::{
    DataError, DataErrorKind, DataIdentifierBorrowed, DataLocale, DataMarker, DataProvider,
    DataRequest,
};
use std::alloc::Global;

struct LengthV1;

impl DataMarker for LengthV1 {
    type DataStruct = usize;
}

/// Knows how long the texts of locales are, but not those of two bytes, and fails where a system is
/// asked for.
struct Lengths;

impl DataProvider<LengthV1> for Lengths {
    ghost answer = { λ _ id. if is_some id.system then refused Custom
        else (if nat_eq (length id.locale) 2 then refused IdentifierNotFound
        else Ok (length id.locale)) };

    fn load(&self, _alloc: Global, request: &DataRequest<'_>) -> Result<usize, DataError> {
        if request.id.system().is_some() {
            return Err(DataErrorKind::Custom.into());
        }
        match request.id.locale().len() {
            2 => Err(DataErrorKind::IdentifierNotFound.into()),
            length => Ok(length),
        }
    }
}

/// What a provider answers by an identifier.
fn answer<M: DataMarker, D: DataProvider<M>>(
    alloc: Global,
    provider: &D,
    id: DataIdentifierBorrowed<'_>,
) -> Result<M::DataStruct, DataError> {
    provider.load(alloc, &DataRequest { id, silent: false })
}

/// The length of a locale, or the kind of the error.
fn length_of(alloc: Global, system: Option<&str>, locale: &str) -> Result<usize, DataErrorKind> {
    let locale = DataLocale::try_from_str(locale).unwrap_or_default();
    let id = match system {
        Some(system) => DataIdentifierBorrowed::for_marker_attributes_and_locale(system, &locale),
        None => DataIdentifierBorrowed::for_locale(&locale),
    };
    answer::<LengthV1, Lengths>(alloc, &Lengths, id).map_err(|error| error.kind)
}

const ASKED: &[(Option<&str>, &str, Result<usize, DataErrorKind>)] = &[
    (None, "ar-EG", Ok(5)),
    (None, "not a locale", Ok(3)),
    (None, "en", Err(DataErrorKind::IdentifierNotFound)),
    (Some("thai"), "ar-EG", Err(DataErrorKind::Custom)),
];

#[test]
fn answers_by_the_identifier(rt: HostRuntime) {
    for (system, locale, want) in ASKED {
        assert!(rt; length_of(rt.alloc(), *system, locale) == *want, "{locale}");
    }
}
