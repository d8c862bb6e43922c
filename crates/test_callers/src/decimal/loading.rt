//! Formatters that are made of the data of a provider of the tests: by which identifiers they ask
//! it, and which of its errors is reported.

use super::shelf::{KEPT_AWAY, Refusals, Shelf, WANT_OF_MEMORY};
use fixed_decimal::Decimal;
use icu_decimal::error::FormatError;
use icu_decimal::options::{
    CompactDecimalFormatterOptions, DecimalFormatterOptions, GroupingStrategy,
};
use icu_decimal::preferences::{
    CompactDecimalFormatterPreferences, DecimalFormatterPreferences, NumberingSystem,
};
use icu_decimal::{CompactDecimalFormatter, DecimalFormatter};
use icu_provider::{DataError, DataErrorKind, DataLocale};
use std::alloc::Global;

/// Which formatter is made.
#[derive(Clone, Copy, PartialEq, Eq)]
enum Style {
    Plain,
    Short,
    Long,
}

/// What is asked for: a style, a locale, a preferred system and a strategy.
type Asked = (
    Style,
    &'static str,
    Option<&'static str>,
    Option<GroupingStrategy>,
);

const NO_REFUSALS: Refusals = [None; 4];

fn preferences(locale: &str, system: Option<&str>) -> CompactDecimalFormatterPreferences {
    let numbering_system = match system {
        Some(system) => NumberingSystem::try_from_str(system).ok(),
        None => None,
    };
    CompactDecimalFormatterPreferences {
        locale_preferences: DataLocale::try_from_str(locale).unwrap_or_default(),
        numbering_system,
    }
}

fn plain(alloc: Global, shelf: &Shelf, asked: Asked) -> Result<DecimalFormatter, DataError> {
    let (_, locale, system, strategy) = asked;
    let prefs = DecimalFormatterPreferences::from(&preferences(locale, system));
    let options = DecimalFormatterOptions {
        grouping_strategy: strategy,
    };
    DecimalFormatter::try_new_unstable(alloc, shelf, prefs, options)
}

fn compact(
    alloc: Global,
    shelf: &Shelf,
    asked: Asked,
) -> Result<CompactDecimalFormatter, DataError> {
    let (style, locale, system, strategy) = asked;
    let prefs = preferences(locale, system);
    let options = match strategy {
        Some(strategy) => CompactDecimalFormatterOptions::from(strategy),
        None => CompactDecimalFormatterOptions::default(),
    };
    match style {
        Style::Long => {
            CompactDecimalFormatter::try_new_long_unstable(alloc, shelf, prefs, options)
        }
        _ => CompactDecimalFormatter::try_new_short_unstable(alloc, shelf, prefs, options),
    }
}

/// The text that was written; out of memory is reported as that of a provider without a text.
fn told(text: Result<String, FormatError>) -> Result<String, DataError> {
    match text {
        Ok(text) => Ok(text),
        Err(_) => Err(WANT_OF_MEMORY),
    }
}

/// The text of a decimal by the plain formatter that is asked for, or why it isn't made.
fn plain_text(
    alloc: Global,
    shelf: &Shelf,
    asked: Asked,
    decimal: &Decimal,
) -> Result<String, DataError> {
    match plain(alloc, shelf, asked) {
        Ok(formatter) => told(formatter.format_to_string(alloc, decimal)),
        Err(error) => Err(error),
    }
}

/// The same by the compact one.
fn compact_text(
    alloc: Global,
    shelf: &Shelf,
    asked: Asked,
    decimal: &Decimal,
) -> Result<String, DataError> {
    match compact(alloc, shelf, asked) {
        Ok(formatter) => told(formatter.format_to_string(alloc, decimal)),
        Err(error) => Err(error),
    }
}

/// The text of a decimal by the formatter that is asked for, or why it isn't made.
fn text_of(
    alloc: Global,
    shelf: &Shelf,
    asked: Asked,
    decimal: &Decimal,
) -> Result<String, DataError> {
    match asked.0 {
        Style::Plain => plain_text(alloc, shelf, asked, decimal),
        _ => compact_text(alloc, shelf, asked, decimal),
    }
}

/// Whether a text is this one, or why there is none.
fn is_told(text: Result<String, DataError>, want: &str) -> Result<bool, DataError> {
    match text {
        Ok(text) => Ok(text.as_str() == want),
        Err(error) => Err(error),
    }
}

/// Whether what is asked for writes a number so by a shelf, or why it isn't made.
fn writes_from(
    alloc: Global,
    shelf: &Shelf,
    asked: Asked,
    number: &str,
    want: &str,
) -> Result<bool, DataError> {
    match Decimal::try_from_str(alloc, number) {
        Ok(decimal) => is_told(text_of(alloc, shelf, asked, &decimal), want),
        Err(_) => Err(WANT_OF_MEMORY),
    }
}

/// Whether what is asked for writes a number so, or why it isn't made.
fn writes_once(
    alloc: Global,
    refusals: Refusals,
    asked: Asked,
    number: &str,
    want: &str,
) -> Result<bool, DataError> {
    match Shelf::made(alloc, refusals) {
        Some(shelf) => writes_from(alloc, &shelf, asked, number, want),
        None => Err(WANT_OF_MEMORY),
    }
}

/// The same, asked once more where memory ran out.
fn writes(
    alloc: Global,
    refusals: Refusals,
    asked: Asked,
    number: &str,
    want: &str,
) -> Result<bool, DataError> {
    match writes_once(alloc, refusals, asked, number, want) {
        Err(WANT_OF_MEMORY) => writes_once(alloc, refusals, asked, number, want),
        answered => answered,
    }
}

/// What is asked for, a number, and how it is written: rules are asked for by the locale alone, and
/// digits and patterns by the preferred system.
const WRITTEN: &[(Asked, &str, &str)] = &[
    ((Style::Plain, "en", None, None), "1234", "1,234"),
    ((Style::Plain, "en", Some("arab"), None), "1234", "١,٢٣٤"),
    ((Style::Short, "en", Some("arab"), None), "15000", "١٥k"),
    ((Style::Short, "en", Some("wxyz"), None), "15000", "15K"),
    (
        (Style::Long, "en", Some("arab"), None),
        "15000",
        "١٥ thousands",
    ),
    (
        (Style::Long, "en", None, Some(GroupingStrategy::Always)),
        "1000000",
        "1,000 thousands",
    ),
];

#[test]
fn asks_by_the_preferred_system(rt: HostRuntime) {
    for &(asked, number, want) in WRITTEN {
        assert!(rt;
            writes(rt.alloc(), NO_REFUSALS, asked, number, want) == Ok(true),
            "{want}"
        );
    }
}

const NOT_FOUND: DataError = DataError {
    kind: DataErrorKind::IdentifierNotFound,
    context: "",
};

/// What is asked for, and why it isn't made, with the provider's text.
const REFUSED: &[(Style, &str, Option<&str>, DataError)] = &[
    (Style::Plain, "xx", None, NOT_FOUND),
    (Style::Plain, "en", Some("nosymb"), KEPT_AWAY),
    (Style::Plain, "en", Some("nodigits"), KEPT_AWAY),
    (Style::Short, "en", Some("nodigits"), KEPT_AWAY),
    (Style::Short, "en", Some("nopatt"), KEPT_AWAY),
    (Style::Long, "en", Some("nosymb"), KEPT_AWAY),
];

#[test]
fn refuses_what_the_provider_refuses(rt: HostRuntime) {
    for &(style, locale, system, want) in REFUSED {
        let asked = (style, locale, system, None);
        assert!(rt;
            writes(rt.alloc(), NO_REFUSALS, asked, "1", "") == Err(want),
            "{locale} {system:?}"
        );
    }
}

const KINDS: &[DataErrorKind] = &[
    DataErrorKind::IdentifierNotFound,
    DataErrorKind::MarkerNotFound,
    DataErrorKind::InvalidRequest,
    DataErrorKind::Custom,
    DataErrorKind::OutOfMemory,
];

/// Whether an error of the symbols, of the digits, of the rules and of the patterns is reported
/// with its text, whatever is rejected after it.
fn is_answered(alloc: Global, style: Style, kind: DataErrorKind, other: DataErrorKind) -> bool {
    let asked = (style, "en", None, None);
    let error = DataError {
        kind,
        context: "the first",
    };
    let first = Some(error);
    let later = Some(DataError {
        kind: other,
        context: "a later one",
    });
    writes(alloc, [first, later, later, later], asked, "1", "") == Err(error)
        && writes(alloc, [None, first, later, later], asked, "1", "") == Err(error)
        && writes(alloc, [None, None, first, later], asked, "1", "") == Err(error)
        && writes(alloc, [None, None, None, first], asked, "1", "") == Err(error)
}

#[test]
fn answers_the_first_refusal(rt: HostRuntime) {
    for &kind in KINDS {
        assert!(rt;
            is_answered(rt.alloc(), Style::Short, kind, DataErrorKind::Custom),
            "{kind:?}"
        );
        assert!(rt;
            is_answered(rt.alloc(), Style::Long, kind, DataErrorKind::MarkerNotFound),
            "{kind:?}"
        );
    }
}
