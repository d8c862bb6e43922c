//! What a provider of the tests may keep, made of rows and copied for each answer.

ghost use Rattle.std.specs.Prelude.{Ok};
ghost use Rattle.icu_provider.specs.Answer.{Answers};

use super::fixtures::ENGLISH;
use icu_decimal::provider::{CompactPatterns, DecimalSymbolStrsBuilder, DecimalSymbols};
use icu_pattern::{Pattern, SinglePlaceholder};
use icu_plurals::{PluralCategory, PluralElements, PluralRules};
use icu_provider::{DataError, DataErrorKind};
use std::alloc::Global;
use std::collections::BTreeMap;

pub(super) type Table = CompactPatterns<SinglePlaceholder>;

/// A decimal separator, a separator of groups, and the numbering system.
pub(super) type Texts = (&'static str, &'static str, &'static str);

/// What stands after one thousand, and after other numbers of thousands.
pub(super) type Thousands = (&'static str, &'static str);

/// What a provider may keep: it is made of a row of a table, and copied for each answer.
pub(super) trait Kept: Sized + Drop {
    type Row: Copy;

    /// None where memory ran out.
    fn made(alloc: Global, row: Self::Row) -> Option<Self>;

    fn copied(&self, alloc: Global) -> Result<Self, DataError>
        ensures { Answers result (Ok self.now) };
}

impl Kept for DecimalSymbols {
    type Row = Texts;

    fn made(
        alloc: Global,
        (decimal_separator, grouping_separator, numsys): Texts,
    ) -> Option<DecimalSymbols> {
        let builder = DecimalSymbolStrsBuilder {
            minus_sign_prefix: "-",
            minus_sign_suffix: "",
            plus_sign_prefix: "+",
            plus_sign_suffix: "",
            decimal_separator,
            grouping_separator,
            numsys,
        };
        match builder.build(alloc) {
            Ok(strings) => Some(DecimalSymbols {
                strings,
                grouping_sizes: ENGLISH,
            }),
            Err(_) => None,
        }
    }

    fn copied(&self, alloc: Global) -> Result<Self, DataError> {
        match self.copy(alloc) {
            Ok(symbols) => Ok(symbols),
            Err(_) => Err(DataErrorKind::OutOfMemory.into()),
        }
    }
}

impl Kept for [char; 10] {
    type Row = [char; 10];

    fn made(_alloc: Global, row: [char; 10]) -> Option<[char; 10]> {
        Some(row)
    }

    fn copied(&self, _alloc: Global) -> Result<Self, DataError> {
        Ok(*self)
    }
}

impl Kept for PluralRules {
    type Row = &'static [(PluralCategory, &'static str)];

    fn made(alloc: Global, row: &'static [(PluralCategory, &'static str)]) -> Option<PluralRules> {
        PluralRules::from_rules(alloc, row).ok()
    }

    fn copied(&self, alloc: Global) -> Result<Self, DataError> {
        match self.copy(alloc) {
            Ok(rules) => Ok(rules),
            Err(_) => Err(DataErrorKind::OutOfMemory.into()),
        }
    }
}

type Elements = PluralElements<Pattern<SinglePlaceholder>>;

/// The patterns of the texts behind one thousand and behind other numbers of thousands; none where
/// an allocation fails.
fn elements_of(alloc: Global, one: &str, other: &str) -> Option<Elements> {
    let other = Pattern::try_new(alloc, Some(0), other).ok();
    match other.zip(Pattern::try_new(alloc, Some(0), one).ok()) {
        Some((other, one)) => Some(PluralElements::new(other).with_one_value(Some(one))),
        None => None,
    }
}

/// The map of thousands with these patterns; none if out of memory.
fn map_of(alloc: Global, elements: Elements) -> Option<BTreeMap<u8, (u8, Elements)>> {
    let mut map = BTreeMap::new(alloc);
    match map.insert(3, (3, elements)) {
        Ok(_) => Some(map),
        Err(_) => None,
    }
}

/// The table of thousands with these patterns; none if out of memory.
fn table_of(alloc: Global, elements: Elements) -> Option<Table> {
    match map_of(alloc, elements) {
        Some(map) => CompactPatterns::new(alloc, map, None).ok(),
        None => None,
    }
}

impl Kept for Table {
    type Row = Thousands;

    fn made(alloc: Global, (one, other): Thousands) -> Option<Table> {
        match elements_of(alloc, one, other) {
            Some(elements) => table_of(alloc, elements),
            None => None,
        }
    }

    fn copied(&self, alloc: Global) -> Result<Self, DataError> {
        match self.copy(alloc) {
            Ok(table) => Ok(table),
            Err(_) => Err(DataErrorKind::OutOfMemory.into()),
        }
    }
}
