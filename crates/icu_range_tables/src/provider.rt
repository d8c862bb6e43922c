//! Tables of ranges as a provider.

use crate::tables::RangeTables;
use icu_provider::{DataError, DataProvider, DataRequest};
use icu_ranges::{PluralRanges, PluralsRangesV1, RangePattern, RangePatternsV1};
use icu_table_entries::named::first_filed;
use icu_tables::provider::{answered, found, present};
use std::alloc::Global;

impl DataProvider<RangePatternsV1> for RangeTables {
    ghost use Rattle.icu_table_entries.specs.Answering.{optional_answer};

    ghost answer = { λ tables id. optional_answer tables.ranges id };

    /// A copy of the pattern of the first entry of `ranges` with the identifier's locale and
    /// numbering system, or none.
    // promise: Range patterns are those of the first entry that matches.
    // mutations: absent_ranges_told_as_no_entry
    fn load(&self, alloc: Global, request: &DataRequest<'_>) -> Result<RangePattern, DataError> {
        let entries = present(&self.ranges)?;
        let pattern = found(first_filed(entries, &request.id))?;
        answered(pattern.copy(alloc))
    }
}

impl DataProvider<PluralsRangesV1> for RangeTables {
    ghost use Rattle.icu_table_entries.specs.Answering.{optional_answer};

    ghost answer = { λ tables id. optional_answer tables.plural_ranges id };

    /// A copy of the first entry of `plural_ranges` with the identifier's locale; none for an
    /// identifier with a numbering system.
    fn load(&self, alloc: Global, request: &DataRequest<'_>) -> Result<PluralRanges, DataError> {
        let entries = present(&self.plural_ranges)?;
        let ranges = found(first_filed(entries, &request.id))?;
        answered(ranges.copy(alloc))
    }
}
