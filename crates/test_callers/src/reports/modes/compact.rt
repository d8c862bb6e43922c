//! Readers and writers that fail in a compact mode, that of short English, which rounds half to even.

use super::{english, runs_slowly};
use crate::reports::slow::Full;
use decimal_lines::{Mode, RunError};
use icu_decimal::provider::CompactPatterns;
use icu_decimal::{CompactDecimalFormatter, DecimalFormatter};
use icu_pattern::{Pattern, SinglePlaceholder};
use icu_plurals::{PluralElements, PluralRules};
use std::alloc::Global;
use std::collections::BTreeMap;

/// An exponent, which is its type too, and the text that follows a number.
const ROWS: &[(u8, &str)] = &[(3, "K"), (6, "M"), (9, "B"), (12, "T")];

type Elements = PluralElements<Pattern<SinglePlaceholder>>;

/// Puts a row into a map; whether there was memory for it.
fn is_put_once(alloc: Global, map: &mut BTreeMap<u8, (u8, Elements)>, row: (u8, &str)) -> bool {
    match Pattern::try_new(alloc, Some(0), row.1) {
        Ok(pattern) => map
            .insert(row.0, (row.0, PluralElements::new(pattern)))
            .is_ok(),
        Err(_) => false,
    }
}

/// The map of the rows, each put once more where memory ran out; if it is rejected again, some
/// are left out.
fn map(alloc: Global) -> BTreeMap<u8, (u8, Elements)> {
    let mut map = BTreeMap::new(alloc);
    for &row in ROWS {
        if !is_put_once(alloc, &mut map, row) {
            is_put_once(alloc, &mut map, row);
        }
    }
    map
}

/// The table of the rows, made once more where memory ran out.
fn table(alloc: Global) -> Option<CompactPatterns<SinglePlaceholder>> {
    match CompactPatterns::new(alloc, map(alloc), None) {
        Ok(table) => Some(table),
        Err(_) => CompactPatterns::new(alloc, map(alloc), None).ok(),
    }
}

/// Plural rules without a condition, made once more where memory ran out.
fn rules(alloc: Global) -> Option<PluralRules> {
    match PluralRules::from_rules(alloc, &[]) {
        Ok(rules) => Some(rules),
        Err(_) => PluralRules::from_rules(alloc, &[]).ok(),
    }
}

/// The mode of these parts and the table of the rows.
fn with_rules(alloc: Global, formatter: DecimalFormatter, rules: PluralRules) -> Option<Mode> {
    match table(alloc) {
        Some(table) => Some(Mode::Compact(CompactDecimalFormatter::from_parts(
            formatter, rules, table,
        ))),
        None => None,
    }
}

/// The mode of a plain formatter with the table of the rows.
fn with_plain(alloc: Global, formatter: DecimalFormatter) -> Option<Mode> {
    match rules(alloc) {
        Some(rules) => with_rules(alloc, formatter, rules),
        None => None,
    }
}

/// Compact numbers in short English.
fn short_english(alloc: Global) -> Option<Mode> {
    match english(alloc) {
        Ok(Mode::Plain(formatter)) => with_plain(alloc, formatter),
        _ => None,
    }
}

/// Whether a run over three numbers, of which that many bytes can be read, into a writer with this
/// room ends so and leaves this there.
fn ends(
    alloc: Global,
    good: usize,
    output: (usize, Full),
    want: (Result<(), RunError>, &[u8]),
) -> bool {
    match short_english(alloc) {
        Some(mode) => runs_slowly(alloc, &mode, (b"1650\n1750\n1950", good), output, want),
        None => false,
    }
}

/// What is written of the three numbers.
const WRITTEN: &[u8] = b"1.6K\n1.8K\n2K\n";

/// Whether a writer with this room is left with a beginning, if it then fails and also if it then
/// takes no more.
fn keeps(alloc: Global, room: usize) -> bool {
    let Some(want) = WRITTEN.get(..room) else {
        return false;
    };
    let fault = Err(RunError::Write);
    ends(alloc, usize::MAX, (room, Full::Fails), (fault, want))
        && ends(alloc, usize::MAX, (room, Full::TakesNothing), (fault, want))
}

#[test]
fn keeps_a_beginning_where_writing_fails(rt: HostRuntime) {
    for room in 0..WRITTEN.len() {
        assert!(rt; keeps(rt.alloc(), room), "after {room}");
    }
}

/// How many bytes can be read, and what is written of them.
const GOOD: &[(usize, &str)] = &[
    (0, ""),
    (1, ""),
    (4, ""),
    (5, "1.6K\n"),
    (9, "1.6K\n"),
    (10, "1.6K\n1.8K\n"),
    (13, "1.6K\n1.8K\n"),
];

#[test]
fn keeps_whole_lines_where_reading_fails(rt: HostRuntime) {
    for &(good, want) in GOOD {
        let wanted = (Err(RunError::Read), want.as_bytes());
        assert!(rt;
            ends(rt.alloc(), good, (usize::MAX, Full::Fails), wanted),
            "after {good}"
        );
    }
}
