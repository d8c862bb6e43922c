//! Errors under a width, a fill, a precision and the alternate form: the same characters, unpadded.

use crate::styled::is_styled;
use icu_pattern::PatternError;
use icu_plurals_conditions::RulesError;
use icu_provider::{BadLocale, BadNumberingSystem, DataError, DataErrorKind};
use std::alloc::Global;

const PATTERNS: [(PatternError, &str); 2] = [
    (
        PatternError::BadPlace,
        "the place does not fit the literal of the pattern",
    ),
    (PatternError::OutOfMemory, "out of memory"),
];

#[test]
fn displays_errors_of_patterns_under_every_style(rt: HostRuntime) {
    for &(error, want) in &PATTERNS {
        assert!(rt; is_styled(rt.alloc(), &error, want), "{want}");
    }
}

const RULES: [(RulesError, &str); 2] = [
    (
        RulesError::BadRule { rule: 1, byte: 8 },
        "rule 1 isn't a condition, by its byte 8",
    ),
    (RulesError::OutOfMemory, "out of memory"),
];

#[test]
fn displays_errors_of_rules_under_every_style(rt: HostRuntime) {
    for &(error, want) in &RULES {
        assert!(rt; is_styled(rt.alloc(), &error, want), "{want}");
    }
}

const KINDS: [(DataErrorKind, &str); 5] = [
    (
        DataErrorKind::IdentifierNotFound,
        "no data by this identifier",
    ),
    (DataErrorKind::MarkerNotFound, "no data of this marker"),
    (DataErrorKind::InvalidRequest, "not a request for data"),
    (DataErrorKind::Custom, "the provider failed"),
    (DataErrorKind::OutOfMemory, "out of memory"),
];

#[test]
fn displays_kinds_of_errors_under_every_style(rt: HostRuntime) {
    for &(error, want) in &KINDS {
        assert!(rt; is_styled(rt.alloc(), &error, want), "{want}");
    }
}

/// The context of a provider's error, and the whole text.
const CONTEXTS: [(&str, &str); 2] = [
    ("", "the provider failed"),
    (
        "the file ends too early",
        "the provider failed: the file ends too early",
    ),
];

fn is_error_styled(alloc: Global, context: &'static str, want: &str) -> bool {
    let error = DataError {
        kind: DataErrorKind::Custom,
        context,
    };
    is_styled(alloc, &error, want)
}

#[test]
fn displays_errors_with_their_context_under_every_style(rt: HostRuntime) {
    for &(context, want) in &CONTEXTS {
        assert!(rt; is_error_styled(rt.alloc(), context, want), "{want}");
    }
}

#[test]
fn displays_bad_names_under_every_style(rt: HostRuntime) {
    assert!(rt; is_styled(rt.alloc(), &BadLocale, "not the text of a locale"));
    assert!(rt;
        is_styled(
            rt.alloc(),
            &BadNumberingSystem,
            "not the name of a numbering system"
        )
    );
}
