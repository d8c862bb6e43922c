//! Calls of `icu_unit`. Their arguments are those of a formatter, a number, and the texts that stand
//! behind numbers of the categories one and many and behind all other numbers; `none` stands for
//! none.

use crate::CallResult;
use crate::decimal::asked::{Asked, asked_of, decimal_of, text_of};
use crate::decimal::frames::behind_number;
use crate::decimal::making::{Setting, plain_of, rules_of};
use crate::decimal::spelled::{no_data, sink_of, written};
use fixed_decimal::Decimal;
use icu_decimal::CompactDecimalFormatter;
use icu_decimal_interface::AbstractFormatter;
use icu_pattern::{Pattern, SinglePlaceholder};
use icu_plurals::{PluralElements, PluralRules};
use icu_tables::{TableError, Tables};
use icu_unit::UnitFormatter;
use rows::Documents;
use std::alloc::{AllocError, Global};

/// A number, and the texts of its unit.
#[derive(Clone, Copy)]
struct Amount<'a> {
    number: &'a str,
    one: &'a str,
    many: &'a str,
    other: &'a str,
}

/// The patterns of a unit.
type Elements = PluralElements<Pattern<SinglePlaceholder>>;

/// The pattern of a text behind a number, unless there is none.
fn pattern_of(alloc: Global, text: &str) -> Result<Option<Pattern<SinglePlaceholder>>, AllocError> {
    match text {
        "none" => Ok(None),
        _ => Ok(Some(behind_number(alloc, text)?)),
    }
}

/// The patterns of the texts of a unit. They are joined at the end, since all eight are gone through
/// where the joined ones are given back.
fn elements_of(alloc: Global, amount: Amount<'_>) -> Result<Option<Elements>, AllocError> {
    let other = pattern_of(alloc, amount.other)?;
    let one = pattern_of(alloc, amount.one)?;
    let many = pattern_of(alloc, amount.many)?;
    match other {
        Some(other) => Ok(Some(
            PluralElements::new(other)
                .with_one_value(one)
                .with_many_value(many),
        )),
        None => Ok(None),
    }
}

/// What a unit leaves in a sink.
fn write<F: AbstractFormatter>(
    alloc: Global,
    unit: &UnitFormatter<F>,
    decimal: &Decimal,
    limit: Option<usize>,
) -> CallResult {
    let mut sink = sink_of(alloc, limit);
    let returned = unit.write(alloc, decimal, &mut sink);
    written(alloc, &sink, returned)
}

/// The same of the number that a text spells.
fn write_number<F: AbstractFormatter>(
    alloc: Global,
    unit: &UnitFormatter<F>,
    asked: &Asked<'_>,
    number: &str,
) -> CallResult {
    match decimal_of(alloc, number, asked.sign)? {
        Some(decimal) => write(alloc, unit, &decimal, asked.limit),
        None => Ok(None),
    }
}

/// What a unit over a formatter and with rules writes.
fn with_rules<F: AbstractFormatter + Drop>(
    alloc: Global,
    asked: &Asked<'_>,
    (formatter, rules): (F, PluralRules),
    amount: Amount<'_>,
) -> CallResult {
    match elements_of(alloc, amount)? {
        Some(elements) => {
            let unit = UnitFormatter::new(formatter, rules, elements);
            write_number(alloc, &unit, asked, amount.number)
        }
        None => Ok(None),
    }
}

/// What a unit over a formatter writes.
fn over<F: AbstractFormatter + Drop>(
    alloc: Global,
    setting: Setting<'_>,
    formatter: F,
    amount: Amount<'_>,
) -> CallResult {
    match rules_of(alloc, setting) {
        Ok(rules) => with_rules(alloc, setting.asked, (formatter, rules), amount),
        Err(error) => no_data(alloc, error),
    }
}

fn of_plain(alloc: Global, setting: Setting<'_>, amount: Amount<'_>) -> CallResult {
    match plain_of(alloc, setting) {
        Ok(formatter) => over(alloc, setting, formatter, amount),
        Err(error) => no_data(alloc, error),
    }
}

fn of_short(alloc: Global, setting: Setting<'_>, amount: Amount<'_>) -> CallResult {
    match CompactDecimalFormatter::try_new_short_unstable(
        alloc,
        setting.tables,
        setting.asked.preferences(),
        setting.asked.compact_options(),
    ) {
        Ok(formatter) => over(alloc, setting, formatter, amount),
        Err(error) => no_data(alloc, error),
    }
}

fn of_long(alloc: Global, setting: Setting<'_>, amount: Amount<'_>) -> CallResult {
    match CompactDecimalFormatter::try_new_long_unstable(
        alloc,
        setting.tables,
        setting.asked.preferences(),
        setting.asked.compact_options(),
    ) {
        Ok(formatter) => over(alloc, setting, formatter, amount),
        Err(error) => no_data(alloc, error),
    }
}

/// What a unit by tables writes.
fn by_tables(alloc: Global, setting: Setting<'_>, amount: Amount<'_>) -> CallResult {
    match setting.asked.style {
        "plain" => of_plain(alloc, setting, amount),
        "short" => of_short(alloc, setting, amount),
        "long" => of_long(alloc, setting, amount),
        _ => Ok(None),
    }
}

/// What a unit by the tables of a text writes.
fn by_text(alloc: Global, text: &str, asked: &Asked<'_>, amount: Amount<'_>) -> CallResult {
    match Tables::from_json(alloc, text) {
        Ok(tables) => by_tables(
            alloc,
            Setting {
                tables: &tables,
                asked,
            },
            amount,
        ),
        Err(TableError::OutOfMemory) => Err(AllocError),
        Err(_) => Ok(None),
    }
}

/// What a unit by a file writes.
fn by_words(
    alloc: Global,
    documents: &Documents,
    asked: &Asked<'_>,
    words: &[String],
) -> CallResult {
    match (text_of(documents, asked.file), words) {
        (Some(text), [number, one, many, other]) => {
            let amount = Amount {
                number: number.as_str(),
                one: one.as_str(),
                many: many.as_str(),
                other: other.as_str(),
            };
            by_text(alloc, text, asked, amount)
        }
        _ => Ok(None),
    }
}

/// What a call of units answers.
pub(crate) fn returned(
    alloc: Global,
    documents: &Documents,
    call: &str,
    arguments: &[String],
) -> CallResult {
    if call != "UnitFormatter::write" {
        return Ok(None);
    }
    match asked_of(arguments) {
        Some((asked, words)) => by_words(alloc, documents, &asked, words),
        None => Ok(None),
    }
}
