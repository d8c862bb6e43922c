//! A tour of the libraries, and the examples of their first pages, one function for each library.
#![tactic(auto)]

mod tour;

use decimal_lines::{Mode, format_lines};
use fixed_decimal::{Decimal, Sign};
use icu_decimal::options::{CompactDecimalFormatterOptions, DecimalFormatterOptions};
use icu_decimal::preferences::CompactDecimalFormatterPreferences;
use icu_decimal::{CompactDecimalFormatter, DecimalFormatter};
use icu_decimal_data::{DecimalSymbols, SymbolsView};
use icu_decimal_options::{GroupingStrategy, check};
use icu_decimal_readable::are_numbers_readable;
use icu_decimal_symbols::{DecimalSymbolStrsBuilder, GroupingSizes};
use icu_dimension::CurrencyFormatter;
use icu_dimension_data::{AffixTexts, CldrPattern, rounded_to};
use icu_pattern::{Pattern, SinglePlaceholder};
use icu_plurals::{PluralCategory, PluralElements, PluralOperands, PluralRules};
use icu_plurals_conditions::{first_fault, read_condition};
use icu_provider::{DataIdentifierBorrowed, DataLocale};
use icu_tables::Tables;
use icu_unit::UnitFormatter;
use std::process::ExitCode;
use std::str;
use writeable::{ASCII_DIGITS, Part, PartsText, PartsWrite, Writeable};

/// English with thousands.
const TABLES: &str =
    "{\"symbols\":[{\"locale\":\"en\",\"minus\":[\"-\",\"\"],\"plus\":[\"+\",\"\"],\
\"decimal\":\".\",\"group\":\",\",\"numsys\":\"latn\",\"sizes\":[3,3,1]}],\
\"digits\":[[\"latn\",\"0123456789\"]],\
\"rules\":[{\"locale\":\"en\",\"rules\":[[\"one\",\"i = 1 and v = 0\"]]}],\
\"short\":[{\"locale\":\"en\",\"patterns\":[[3,3,{\"other\":\"{0}K\"}]]}]}";

fn of_fixed_decimal(rt: &HostRuntime) -> Option<()> {
    let decimal = Decimal::try_from_str(rt.alloc(), "-0012.50").ok()?;
    println!(rt; "magnitude {}", decimal.absolute.nonzero_magnitude_start()).ok()?;
    let rounded = decimal.rounded(0).ok()?;
    println!(rt; "last digit {}", rounded.absolute.digit_at(0)).ok()
}

fn of_writeable(rt: &HostRuntime) -> Option<()> {
    let mut text = PartsText::new(rt.alloc());
    text.open_part(Part {
        category: "number",
        value: "integer",
    })
    .ok()?;
    text.write_str("12").ok()?;
    text.close_part().ok()?;
    text.write_str(" km").ok()?;
    let spans = text.spans(rt.alloc()).ok()?;
    println!(rt; "{} with {} part", text.text(), spans.len()).ok()
}

fn of_icu_pattern(rt: &HostRuntime) -> Option<()> {
    let pattern: Pattern<SinglePlaceholder> = Pattern::try_new(rt.alloc(), Some(0), " km").ok()?;
    let text = pattern.interpolate("12").write_to_string(rt.alloc()).ok()?;
    println!(rt; "{text}").ok()
}

fn of_plural_conditions(rt: &HostRuntime) -> Option<()> {
    let byte = first_fault("i = 1 or")?;
    println!(rt; "rejected at byte {byte}").ok()?;
    let text = "i = 1 and v = 0";
    if first_fault(text).is_some() {
        return None;
    }
    let condition = read_condition(rt.alloc(), text).ok()?;
    println!(rt; "alternatives: {}", condition.alternatives.len()).ok()
}

fn of_icu_plurals(rt: &HostRuntime) -> Option<()> {
    let rules = PluralRules::from_rules(
        rt.alloc(),
        &[(PluralCategory::One, "i = 1 and v = 0")],
    ).ok()?;
    let decimal = Decimal::try_from_str(rt.alloc(), "1").ok()?;
    let operands = PluralOperands::from_significand_and_exponent(&decimal.absolute, 0);
    println!(rt;
        "one: {}",
        rules.category_for(operands) == PluralCategory::One
    )
    .ok()
}

fn of_icu_provider(rt: &HostRuntime) -> Option<()> {
    let locale = DataLocale::try_from_str("de-CH").ok()?;
    let id = DataIdentifierBorrowed::for_locale(&locale);
    println!(rt; "by the locale alone: {}", id.system().is_none()).ok()
}

fn of_icu_decimal_symbols(rt: &HostRuntime) -> Option<()> {
    let builder = DecimalSymbolStrsBuilder {
        minus_sign_prefix: "-",
        minus_sign_suffix: "",
        plus_sign_prefix: "+",
        plus_sign_suffix: "",
        decimal_separator: ",",
        grouping_separator: ".",
        numsys: "latn",
    };
    let symbols = builder.build(rt.alloc()).ok()?;
    println!(rt; "before fractions {}", symbols.decimal_separator()).ok()
}

fn of_icu_decimal_options(rt: &HostRuntime) -> Option<()> {
    let sizes = GroupingSizes {
        primary: 3,
        secondary: 2,
        min_grouping: 1,
    };
    let separated = check(7, 5, GroupingStrategy::default(), sizes);
    println!(rt; "after hundreds of thousands: {separated}").ok()
}

fn of_icu_decimal_data(rt: &HostRuntime) -> Option<()> {
    let Ok(symbols) = DecimalSymbols::new_en_for_testing(rt.alloc()) else {
        return None;
    };
    let view = SymbolsView::parse(symbols.strings.as_bytes()).ok()?;
    println!(rt; "between groups {}", view.grouping_separator()).ok()
}

fn of_icu_decimal_readable(rt: &HostRuntime) -> Option<()> {
    let Ok(symbols) = DecimalSymbols::new_en_for_testing(rt.alloc()) else {
        return None;
    };
    println!(rt;
        "readable: {}",
        are_numbers_readable(&symbols, &ASCII_DIGITS)
    )
    .ok()
}

fn of_icu_decimal(rt: &HostRuntime) -> Option<()> {
    let Ok(symbols) = DecimalSymbols::new_en_for_testing(rt.alloc()) else {
        return None;
    };
    let formatter = DecimalFormatter::from_parts(
        symbols,
        ASCII_DIGITS,
        DecimalFormatterOptions::default(),
    );
    let decimal = Decimal::try_from_str(rt.alloc(), "-987654.321").ok()?;
    println!(rt; "{}", formatter.format(&decimal)).ok()
}

fn of_icu_tables(rt: &HostRuntime) -> Option<()> {
    let tables = Tables::from_json(rt.alloc(), TABLES).ok()?;
    let prefs = CompactDecimalFormatterPreferences {
        locale_preferences: DataLocale::try_from_str("en").ok()?,
        numbering_system: None,
    };
    let options = CompactDecimalFormatterOptions::default();
    let formatter = CompactDecimalFormatter::try_new_short_unstable(
        rt.alloc(),
        &tables,
        prefs,
        options,
    ).ok()?;
    let decimal = Decimal::try_from_str(rt.alloc(), "15127").ok()?;
    let text = formatter.format_to_string(rt.alloc(), &decimal).ok()?;
    println!(rt; "{text}").ok()
}

/// What tables are rejected by: the key, the entry of its list and the fault.
fn of_refused_tables(rt: &HostRuntime) -> Option<()> {
    let text = "{\"symbols\":[],\"digits\":[],\"rules\":[],\
\"short\":[{\"locale\":\"en\",\"patterns\":[[3,4,{\"other\":\"{0}K\"}]]}]}";
    match Tables::from_json(rt.alloc(), text) {
        Ok(_) => None,
        Err(error) => println!(rt; "{error}").ok(),
    }
}

fn of_icu_dimension_data(rt: &HostRuntime) -> Option<()> {
    let texts = AffixTexts {
        minus_sign: "-",
        plus_sign: "+",
        percent_sign: "%",
        currency: "$",
    };
    let accounting = CldrPattern::parse(rt.alloc(), "¤#,##0.00;(¤#,##0.00)").ok()?;
    let patterns = accounting.resolve(rt.alloc(), &texts, &ASCII_DIGITS).ok()?;
    let loss = patterns.for_sign(Sign::Negative).interpolate("1,234.50");
    let text = loss.write_to_string(rt.alloc()).ok()?;
    println!(rt; "{text}").ok()
}

fn of_icu_dimension(rt: &HostRuntime) -> Option<()> {
    let Ok(symbols) = DecimalSymbols::new_en_for_testing(rt.alloc()) else {
        return None;
    };
    let formatter = DecimalFormatter::from_parts(
        symbols,
        ASCII_DIGITS,
        DecimalFormatterOptions::default(),
    );
    let texts = AffixTexts {
        minus_sign: "-",
        plus_sign: "+",
        percent_sign: "%",
        currency: "CHF",
    };
    let pattern = CldrPattern::parse(rt.alloc(), "¤#,##0.00").ok()?;
    let patterns = pattern.resolve(rt.alloc(), &texts, &ASCII_DIGITS).ok()?;
    let francs = CurrencyFormatter::new(formatter, patterns);
    let decimal = Decimal::try_from_str(rt.alloc(), "-1234.5").ok()?;
    let amount = rounded_to(decimal, 2).ok()?;
    let text = francs.write_to_string(rt.alloc(), &amount).ok()?;
    println!(rt; "{text}").ok()
}

fn of_icu_unit(rt: &HostRuntime) -> Option<()> {
    let Ok(symbols) = DecimalSymbols::new_en_for_testing(rt.alloc()) else {
        return None;
    };
    let formatter = DecimalFormatter::from_parts(
        symbols,
        ASCII_DIGITS,
        DecimalFormatterOptions::default(),
    );
    let rules = PluralRules::from_rules(
        rt.alloc(),
        &[(PluralCategory::One, "i = 1 and v = 0")],
    ).ok()?;
    let one = Pattern::try_new(rt.alloc(), Some(0), " meter").ok()?;
    let other = Pattern::try_new(rt.alloc(), Some(0), " meters").ok()?;
    let elements = PluralElements::new(other).with_one_value(Some(one));
    let metres = UnitFormatter::new(formatter, rules, elements);
    let decimal = Decimal::try_from_str(rt.alloc(), "1234").ok()?;
    let mut text = PartsText::new(rt.alloc());
    metres.write(rt.alloc(), &decimal, &mut text).ok()?;
    println!(rt; "{}", text.text()).ok()
}

fn of_decimal_lines(rt: &HostRuntime) -> Option<()> {
    let mode = Mode::english(rt.alloc()).ok()?;
    let mut output = [0; 32];
    let filled = format_lines(rt.alloc(), &mode, b"1000007\n1e3\n", &mut output);
    let text = str::from_utf8(output.get(..filled.written)?).ok()?;
    print!(rt; "{text}").ok()
}

/// The tour and all examples; none where memory or standard output is wanting.
fn print_all(rt: &HostRuntime) -> Option<()> {
    tour::print_all(rt)?;
    of_fixed_decimal(rt)?;
    of_writeable(rt)?;
    of_icu_pattern(rt)?;
    of_plural_conditions(rt)?;
    of_icu_plurals(rt)?;
    of_icu_provider(rt)?;
    of_icu_decimal_symbols(rt)?;
    of_icu_decimal_options(rt)?;
    of_icu_decimal_data(rt)?;
    of_icu_decimal_readable(rt)?;
    of_icu_decimal(rt)?;
    of_icu_tables(rt)?;
    of_refused_tables(rt)?;
    of_icu_dimension_data(rt)?;
    of_icu_dimension(rt)?;
    of_icu_unit(rt)?;
    of_decimal_lines(rt)
}

fn main(rt: HostRuntime) -> ExitCode {
    match print_all(&rt) {
        Some(()) => ExitCode::SUCCESS,
        None => ExitCode::FAILURE,
    }
}
