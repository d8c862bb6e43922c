//! Which error of a provider is reported.

use crate::dimension::withheld::{Kept, NOTHING, Withheld};
use icu_decimal::options::DecimalFormatterOptions;
use icu_decimal::preferences::DecimalFormatterPreferences;
use icu_dimension::options::CurrencyFormatterOptions;
use icu_dimension::provider::UnitsLongV1;
use icu_dimension::{
    CompactCurrencyFormatter, CurrencyFormatter, LongCurrencyFormatter, PercentFormatter,
    UnitsFormatter,
};
use icu_dimension_data::CurrencyCode;
use icu_provider::{DataError, DataErrorKind, DataLocale};
use std::alloc::Global;

/// Which formatter is made.
#[derive(Clone, Copy)]
enum Made {
    Money,
    Names,
    Compact,
    Percent,
    Units,
}

/// Which kind of data is kept away.
#[derive(Clone, Copy)]
enum Lacking {
    Nothing,
    Symbols,
    Patterns,
    Currency,
    Compact,
    Rules,
}

fn kept_of(lacking: Lacking) -> Kept {
    let mut kept = NOTHING;
    match lacking {
        Lacking::Nothing => {}
        Lacking::Symbols => kept.symbols = true,
        Lacking::Patterns => kept.patterns = true,
        Lacking::Currency => kept.currency = true,
        Lacking::Compact => kept.compact = true,
        Lacking::Rules => kept.rules = true,
    }
    kept
}

/// Memory ran out.
const WANTING: DataError = DataError {
    kind: DataErrorKind::OutOfMemory,
    context: "",
};

/// Why a formatter isn't made.
fn refusal<F: Drop>(made: Result<F, DataError>) -> Option<DataError> {
    match made {
        Ok(_) => None,
        Err(error) => Some(error),
    }
}

fn english() -> DecimalFormatterPreferences {
    DecimalFormatterPreferences {
        locale_preferences: DataLocale::try_from_str("en").unwrap_or_default(),
        numbering_system: None,
    }
}

/// Why a formatter of dollars isn't made.
fn refusal_of_money(
    alloc: Global,
    tables: &Withheld,
    made: Made,
    code: CurrencyCode,
) -> Option<DataError> {
    let prefs = english();
    let options = DecimalFormatterOptions::default();
    match made {
        Made::Names => refusal(LongCurrencyFormatter::try_new_unstable(
            alloc, tables, prefs, code, options,
        )),
        Made::Compact => refusal(CompactCurrencyFormatter::try_new_unstable(
            alloc, tables, prefs, code, options,
        )),
        _ => {
            let options = CurrencyFormatterOptions::default();
            refusal(CurrencyFormatter::try_new_unstable(alloc, tables, prefs, code, options))
        }
    }
}

/// Why a formatter isn't made by tables.
fn refusal_by(alloc: Global, tables: &Withheld, made: Made) -> Option<DataError> {
    let options = DecimalFormatterOptions::default();
    match made {
        Made::Percent => refusal(PercentFormatter::try_new_unstable(
            alloc,
            tables,
            english(),
            options,
        )),
        Made::Units => refusal(UnitsFormatter::try_new_unstable::<UnitsLongV1, Withheld>(
            alloc,
            tables,
            english(),
            "kilometer",
            options,
        )),
        _ => match CurrencyCode::try_from_str("USD") {
            Ok(code) => refusal_of_money(alloc, tables, made, code),
            Err(_) => None,
        },
    }
}

/// Why a formatter isn't made where a kind of data is kept away.
fn refused_once(alloc: Global, made: Made, lacking: Lacking) -> Option<DataError> {
    match Withheld::of(alloc, kept_of(lacking)) {
        Some(tables) => refusal_by(alloc, &tables, made),
        None => Some(WANTING),
    }
}

/// The same, asked once more where memory ran out.
fn refused(alloc: Global, made: Made, lacking: Lacking) -> Option<DataError> {
    match refused_once(alloc, made, lacking) {
        Some(WANTING) => refused_once(alloc, made, lacking),
        told => told,
    }
}

/// A formatter, and what is kept away.
const REFUSED: &[(Made, Lacking)] = &[
    (Made::Money, Lacking::Symbols),
    (Made::Money, Lacking::Patterns),
    (Made::Money, Lacking::Currency),
    (Made::Names, Lacking::Symbols),
    (Made::Names, Lacking::Rules),
    (Made::Names, Lacking::Currency),
    (Made::Compact, Lacking::Symbols),
    (Made::Compact, Lacking::Rules),
    (Made::Compact, Lacking::Currency),
    (Made::Compact, Lacking::Compact),
    (Made::Percent, Lacking::Symbols),
    (Made::Percent, Lacking::Patterns),
    (Made::Units, Lacking::Rules),
];

#[test]
fn the_error_of_the_provider_is_reported(rt: HostRuntime) {
    for &(made, lacking) in REFUSED {
        assert!(rt; refused(rt.alloc(), made, lacking) == Some(NOTHING.error));
    }
}

/// Formatters, which are made where nothing is kept away.
const MADE: &[Made] = &[
    Made::Money,
    Made::Names,
    Made::Compact,
    Made::Percent,
    Made::Units,
];

#[test]
fn formatters_are_made_where_nothing_is_kept_away(rt: HostRuntime) {
    for &made in MADE {
        assert!(rt; refused(rt.alloc(), made, Lacking::Nothing).is_none());
    }
}
