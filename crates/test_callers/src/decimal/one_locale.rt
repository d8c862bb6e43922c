//! A provider of the reader's own, as README shows it, and formatters made from it.

ghost use Rattle.std.specs.Prelude.{Ok, Some, None, codes, if◌then◌else◌};
ghost use Rattle.icu_provider.specs.Answer.{refused};
ghost use Rattle.icu_provider.specs.Identifier.{same_identifier};
ghost use Rattle.icu_provider.specs.declared.error.DataErrorKind.TheVariants.{IdentifierNotFound};

use super::fixtures::LATIN;
use fixed_decimal::Decimal;
use icu_decimal::DecimalFormatter;
use icu_decimal::options::{DecimalFormatterOptions, GroupingStrategy};
use icu_decimal::preferences::DecimalFormatterPreferences;
use icu_decimal::provider::{
    DecimalDigitsV1, DecimalSymbolStrsBuilder, DecimalSymbols, DecimalSymbolsV1, GroupingSizes,
    SymbolsError,
};
use icu_provider::{
    DataError, DataErrorKind, DataIdentifierBorrowed, DataLocale, DataProvider, DataRequest,
};
use std::alloc::Global;

/// What one locale says about numbers.
#[derive(Drop)]
struct OneLocale {
    locale: DataLocale,
    symbols: DecimalSymbols,
    digits: [char; 10],
}

impl DataProvider<DecimalSymbolsV1> for OneLocale {
    ghost answer = { λ own id. if same_identifier id (record { system = None; locale = own.locale })
        then Ok own.symbols else refused IdentifierNotFound };

    fn load(&self, alloc: Global, request: &DataRequest<'_>) -> Result<DecimalSymbols, DataError> {
        if request.id != DataIdentifierBorrowed::for_locale(&self.locale) {
            return Err(DataErrorKind::IdentifierNotFound.into());
        }
        self.symbols
            .copy(alloc)
            .map_err(|_| DataErrorKind::OutOfMemory.into())
    }
}

impl DataProvider<DecimalDigitsV1> for OneLocale {
    ghost answer = { λ own id.
        if same_identifier id (record {
          system = Some own.symbols.strings.numsys;
          locale = codes "und";
        }) then Ok own.digits else refused IdentifierNotFound };

    fn load(&self, _alloc: Global, request: &DataRequest<'_>) -> Result<[char; 10], DataError> {
        if request.id != DataIdentifierBorrowed::for_marker_attributes(self.symbols.numsys()) {
            return Err(DataErrorKind::IdentifierNotFound.into());
        }
        Ok(self.digits)
    }
}

/// A provider of one locale, whose numbers have points and these separators and sizes of groups;
/// none if out of memory.
fn provider(
    alloc: Global,
    locale: &str,
    grouping_separator: &str,
    (primary, secondary, min_grouping): (u8, u8, u8),
) -> Option<OneLocale> {
    let builder = DecimalSymbolStrsBuilder {
        minus_sign_prefix: "-",
        minus_sign_suffix: "",
        plus_sign_prefix: "+",
        plus_sign_suffix: "",
        decimal_separator: ".",
        grouping_separator,
        numsys: "latn",
    };
    let grouping_sizes = GroupingSizes {
        primary,
        secondary,
        min_grouping,
    };
    match builder.build(alloc) {
        Ok(strings) => Some(OneLocale {
            locale: DataLocale::try_from_str(locale).unwrap_or_default(),
            symbols: DecimalSymbols {
                strings,
                grouping_sizes,
            },
            digits: LATIN,
        }),
        Err(_) => None,
    }
}

/// The text of a decimal by a formatter; none where one of them wasn't made, or memory ran out.
fn text_by(
    alloc: Global,
    made: Option<DecimalFormatter>,
    decimal: Option<Decimal>,
) -> Option<String> {
    match made.zip(decimal) {
        Some((formatter, decimal)) => formatter.format_to_string(alloc, &decimal).ok(),
        None => None,
    }
}

/// The text of a number in a provider's locale; none if out of memory.
fn written(
    alloc: Global,
    provider: &OneLocale,
    strategy: GroupingStrategy,
    number: u64,
) -> Option<String> {
    let prefs = DecimalFormatterPreferences {
        locale_preferences: provider.locale,
        numbering_system: None,
    };
    let options = DecimalFormatterOptions::from(strategy);
    let made = DecimalFormatter::try_new_unstable(alloc, provider, prefs, options).ok();
    text_by(alloc, made, Decimal::from_u64(alloc, number).ok())
}

/// Whether a text is this one; none where there is no text.
fn is_text(text: Option<String>, want: &str) -> Option<bool> {
    match text {
        Some(text) => Some(text.as_str() == want),
        None => None,
    }
}

/// Whether a number is written so; none if out of memory.
fn is_written_once(
    alloc: Global,
    (locale, separator, sizes): (&str, &str, (u8, u8, u8)),
    strategy: GroupingStrategy,
    number: u64,
    want: &str,
) -> Option<bool> {
    match provider(alloc, locale, separator, sizes) {
        Some(provider) => is_text(written(alloc, &provider, strategy, number), want),
        None => None,
    }
}

/// The same, asked once more where memory ran out.
fn is_written(
    alloc: Global,
    locale: (&str, &str, (u8, u8, u8)),
    strategy: GroupingStrategy,
    number: u64,
    want: &str,
) -> bool {
    match is_written_once(alloc, locale, strategy, number, want) {
        Some(held) => held,
        None => is_written_once(alloc, locale, strategy, number, want) == Some(true),
    }
}

/// A locale, its separator of groups, and how a million and seven are written.
const OWN: &[(&str, &str, &str)] = &[("de-CH", "’", "1’000’007"), ("en-ZA", " ", "1 000 007")];

#[test]
fn a_provider_of_the_readers_own(rt: HostRuntime) {
    for &(locale, separator, want) in OWN {
        let locale = (locale, separator, (3, 3, 1));
        assert!(rt;
            is_written(rt.alloc(), locale, GroupingStrategy::Auto, 1_000_007, want),
            "{want}"
        );
    }
}

/// Why something wasn't made; none where it was.
fn kind_of<T: Drop>(made: Result<T, DataError>) -> Option<DataErrorKind> {
    match made {
        Ok(_) => None,
        Err(error) => Some(error.kind),
    }
}

/// Why no formatter of a locale is made of a provider.
fn refusal_by(alloc: Global, provider: &OneLocale, locale: &str) -> Option<DataErrorKind> {
    let prefs = DecimalFormatterPreferences {
        locale_preferences: DataLocale::try_from_str(locale).unwrap_or_default(),
        numbering_system: None,
    };
    let options = DecimalFormatterOptions::default();
    kind_of(DecimalFormatter::try_new_unstable(alloc, provider, prefs, options))
}

/// The same of a provider of German in Switzerland; none if out of memory.
fn refusal(alloc: Global, locale: &str) -> Option<DataErrorKind> {
    match provider(alloc, "de-CH", "’", (3, 3, 1)) {
        Some(provider) => refusal_by(alloc, &provider, locale),
        None => None,
    }
}

/// The same, asked once more where memory ran out.
fn is_not_found(alloc: Global, locale: &str) -> bool {
    match refusal(alloc, locale) {
        Some(kind) => kind == DataErrorKind::IdentifierNotFound,
        None => refusal(alloc, locale) == Some(DataErrorKind::IdentifierNotFound),
    }
}

#[test]
fn a_provider_of_the_readers_own_has_no_other_locale(rt: HostRuntime) {
    for &locale in &["en-US", "de", "und"] {
        assert!(rt; is_not_found(rt.alloc(), locale), "{locale}");
    }
}
