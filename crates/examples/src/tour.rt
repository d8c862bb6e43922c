//! Decimals in English: plain with the bytes of each part, short, and as amounts of money.

use fixed_decimal::Decimal;
use icu_base::{
    ASCII_DIGITS, PartsText, Pattern, PluralCategory, PluralElements, PluralRules,
    SinglePlaceholder, Writeable,
};
use icu_decimal::options::{CompactDecimalFormatterOptions, DecimalFormatterOptions};
use icu_decimal::provider::{CompactPatterns, DecimalSymbols};
use icu_decimal::{CompactDecimalFormatter, DecimalFormatter};
use icu_dimension::CurrencyFormatter;
use icu_dimension_data::{AffixTexts, CldrPattern, rounded_to};
use std::alloc::Global;
use std::collections::BTreeMap;

/// English symbols and digits.
fn english(alloc: Global, options: DecimalFormatterOptions) -> Option<DecimalFormatter> {
    let Ok(symbols) = DecimalSymbols::new_en_for_testing(alloc) else {
        return None;
    };
    Some(DecimalFormatter::from_parts(symbols, ASCII_DIGITS, options))
}

/// Writes a text, and each of its parts with the bytes where it stands.
fn print_parts(rt: &HostRuntime, text: &PartsText) -> Option<()> {
    println!(rt; "{}", text.text()).ok()?;
    let spans = text.spans(rt.alloc()).ok()?;
    for (start, end, part) in &spans {
        println!(rt; "{start}..{end} {}", part.value).ok()?;
    }
    Some(())
}

/// Writes a number in English, and its parts.
fn print_plain(rt: &HostRuntime, number: &str) -> Option<()> {
    let formatter = english(rt.alloc(), DecimalFormatterOptions::default())?;
    let decimal = Decimal::try_from_str(rt.alloc(), number).ok()?;
    let mut text = PartsText::new(rt.alloc());
    formatter.format(&decimal).write_to_parts(&mut text).ok()?;
    print_parts(rt, &text)
}

/// Patterns with a letter behind the number, the same for each plural category.
fn behind(alloc: Global, letter: &str) -> Option<PluralElements<Pattern<SinglePlaceholder>>> {
    let pattern = Pattern::try_new(alloc, Some(0), letter).ok()?;
    Some(PluralElements::new(pattern))
}

/// The patterns of thousands and millions in short English.
fn short_patterns(alloc: Global) -> Option<CompactPatterns<SinglePlaceholder>> {
    let mut patterns = BTreeMap::new(alloc);
    patterns.entry(3).ok()?.or_insert((3, behind(alloc, "K")?));
    patterns.entry(6).ok()?.or_insert((6, behind(alloc, "M")?));
    CompactPatterns::new(alloc, patterns, None).ok()
}

/// Thousands and millions in short English.
fn short_english(alloc: Global) -> Option<CompactDecimalFormatter> {
    let plain = english(alloc, CompactDecimalFormatterOptions::default().into())?;
    let rules = PluralRules::from_rules(alloc, &[(PluralCategory::One, "i = 1 and v = 0")]).ok()?;
    let table = short_patterns(alloc)?;
    Some(CompactDecimalFormatter::from_parts(plain, rules, table))
}

/// Writes a number in short English.
fn print_short(rt: &HostRuntime, formatter: &CompactDecimalFormatter, number: &str) -> Option<()> {
    let decimal = Decimal::try_from_str(rt.alloc(), number).ok()?;
    let text = formatter.format_to_string(rt.alloc(), &decimal).ok()?;
    println!(rt; "{number} is {text}").ok()
}

/// Amounts in dollars, by the standard pattern.
fn dollars(alloc: Global) -> Option<CurrencyFormatter<DecimalFormatter>> {
    let texts = AffixTexts {
        minus_sign: "-",
        plus_sign: "+",
        percent_sign: "%",
        currency: "$",
    };
    let pattern = CldrPattern::parse(alloc, "¤#,##0.00").ok()?;
    let patterns = pattern.resolve(alloc, &texts, &ASCII_DIGITS).ok()?;
    let formatter = english(alloc, DecimalFormatterOptions::default())?;
    Some(CurrencyFormatter::new(formatter, patterns))
}

/// Writes an amount of money, rounded to cents.
fn print_amount(
    rt: &HostRuntime,
    formatter: &CurrencyFormatter<DecimalFormatter>,
    number: &str,
) -> Option<()> {
    let decimal = Decimal::try_from_str(rt.alloc(), number).ok()?;
    let amount = rounded_to(decimal, 2).ok()?;
    let text = formatter.write_to_string(rt.alloc(), &amount).ok()?;
    println!(rt; "{number} is {text}").ok()
}

/// Writes what the page shows; none where memory or standard output is wanting.
pub(crate) fn print_all(rt: &HostRuntime) -> Option<()> {
    print_plain(rt, "-987654.321")?;
    let formatter = short_english(rt.alloc())?;
    for number in ["999500", "15127", "-13132", "0.2222"] {
        print_short(rt, &formatter, number)?;
    }
    let money = dollars(rt.alloc())?;
    for number in ["1234.5", "-0.125"] {
        print_amount(rt, &money, number)?;
    }
    Some(())
}
