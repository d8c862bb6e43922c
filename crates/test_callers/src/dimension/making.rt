//! Formatters of money. None is answered where memory ran out.

use fixed_decimal::Decimal;
use icu_decimal::DecimalFormatter;
use icu_decimal::options::DecimalFormatterOptions;
use icu_decimal_data::{DecimalSymbolStrsBuilder, DecimalSymbols, GroupingSizes};
use icu_dimension::CurrencyFormatter;
use icu_dimension_data::{AffixTexts, CldrPattern, SignedPatterns};
use std::alloc::Global;
use writeable::ASCII_DIGITS;

/// How the numbers of a language are written: its separators, and its minus sign.
#[derive(Clone, Copy)]
pub(crate) struct Numbers {
    pub(crate) decimal: &'static str,
    pub(crate) group: &'static str,
    pub(crate) minus: &'static str,
}

pub(crate) const ENGLISH: Numbers = Numbers {
    decimal: ".",
    group: ",",
    minus: "-",
};

/// The symbols of a language.
fn symbols(alloc: Global, numbers: Numbers) -> Option<DecimalSymbols> {
    let builder = DecimalSymbolStrsBuilder {
        minus_sign_prefix: numbers.minus,
        minus_sign_suffix: "",
        plus_sign_prefix: "+",
        plus_sign_suffix: "",
        decimal_separator: numbers.decimal,
        grouping_separator: numbers.group,
        numsys: "latn",
    };
    match builder.build(alloc) {
        Ok(strings) => Some(DecimalSymbols {
            strings,
            grouping_sizes: GroupingSizes {
                primary: 3,
                secondary: 3,
                min_grouping: 1,
            },
        }),
        Err(_) => None,
    }
}

/// The plain formatter of a language.
fn plain(alloc: Global, numbers: Numbers) -> Option<DecimalFormatter> {
    match symbols(alloc, numbers) {
        Some(symbols) => {
            let options = DecimalFormatterOptions::default();
            Some(DecimalFormatter::from_parts(symbols, ASCII_DIGITS, options))
        }
        None => None,
    }
}

/// The patterns of a language for a currency.
fn patterns(
    alloc: Global,
    numbers: Numbers,
    pattern: &str,
    currency: &str,
) -> Option<SignedPatterns> {
    let texts = AffixTexts {
        minus_sign: numbers.minus,
        plus_sign: "+",
        percent_sign: "%",
        currency,
    };
    match CldrPattern::parse(alloc, pattern) {
        Ok(pattern) => pattern.resolve(alloc, &texts, &ASCII_DIGITS).ok(),
        Err(_) => None,
    }
}

/// The decimal of a text.
pub(crate) fn decimal(alloc: Global, text: &str) -> Option<Decimal> {
    Decimal::try_from_str(alloc, text).ok()
}

/// A language, its pattern and a symbol.
pub(crate) type Money = (Numbers, &'static str, &'static str);

/// Money over the plain formatter of its language.
pub(crate) fn money_of(
    alloc: Global,
    (numbers, pattern, symbol): Money,
) -> Option<CurrencyFormatter<DecimalFormatter>> {
    match plain(alloc, numbers).zip(patterns(alloc, numbers, pattern, symbol)) {
        Some((formatter, patterns)) => Some(CurrencyFormatter::new(formatter, patterns)),
        None => None,
    }
}
