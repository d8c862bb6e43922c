//! Copies of locales, numbering systems, identifiers and requests.
use icu_provider::{DataIdentifierBorrowed, DataLocale, DataRequest, NumberingSystem};

#[test]
fn a_locale_equals_its_copy(rt: HostRuntime) {
    let locale = DataLocale::try_from_str("ar-EG").unwrap_or_default();
    let copied = locale;
    assert!(rt; copied == locale && copied.as_str() == "ar-EG");
}

/// Whether a numbering system equals its copy.
fn is_copied(name: &str) -> bool {
    match NumberingSystem::try_from_str(name) {
        Ok(system) => {
            let copied = system;
            copied == system && copied.as_str() == name
        }
        Err(_) => false,
    }
}

#[test]
fn a_numbering_system_equals_its_copy(rt: HostRuntime) {
    assert!(rt; is_copied("arab"));
}

#[test]
fn a_request_is_copied_with_its_identifier(rt: HostRuntime) {
    let id = DataIdentifierBorrowed::for_marker_attributes("thai");
    let request = DataRequest { id, silent: true };
    let copied = request;
    assert!(rt; copied.id == id && copied.silent == request.silent);
}
