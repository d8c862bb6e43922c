//! A provider whose symbols have the groups that a form asks for.

ghost use Rattle.std.specs.Prelude.{◌≡◌};
ghost use Rattle.number_formatters.specs.Grouped.{aligned, sizes_of, strategy_of};

use crate::settings::FormGrouping;
use icu_decimal_data::{
    DecimalCompactLongV1, DecimalCompactShortV1, DecimalDigitsV1, DecimalSymbolsV1,
};
use icu_decimal_options::options::GroupingStrategy;
use icu_decimal_symbols::{DecimalSymbols, GroupingSizes};
use icu_dimension::provider::{
    CurrencyCompactShortV1, CurrencyDecimalSymbolsV1, CurrencyNamesV1, CurrencyPatternsV1,
    CurrencySymbolsV1, PercentPatternsV1, PermillePatternsV1, UnitsLongV1, UnitsNarrowV1,
    UnitsShortV1,
};
use icu_plurals::PluralsCardinalV1;
use icu_provider::{DataError, DataMarker, DataProvider, DataRequest};
use std::alloc::Global;

/// The strategy of a grouping; by other sizes than the locale's separators are always written.
pub(crate) fn strategy_of(grouping: Option<FormGrouping>) -> Option<GroupingStrategy>
    ensures { result ≡ strategy_of grouping }
{
    match grouping {
        None => None,
        Some(FormGrouping::Strategy(strategy)) => Some(strategy),
        Some(FormGrouping::OnAligned | FormGrouping::Thousands) => Some(GroupingStrategy::Always),
    }
}

/// Groups of three digits, where one digit before the last group suffices.
const THOUSANDS: GroupingSizes = GroupingSizes {
    primary: 3,
    secondary: 3,
    min_grouping: 1,
};

/// The sizes of a locale, or three where it has no groups; one digit before the last group suffices.
fn aligned(sizes: GroupingSizes) -> GroupingSizes
    ensures { result ≡ aligned sizes }
{
    if sizes.primary == 0 {
        THOUSANDS
    } else {
        GroupingSizes {
            primary: sizes.primary,
            secondary: sizes.secondary,
            min_grouping: 1,
        }
    }
}

/// The sizes of a grouping, by those of a locale.
fn sizes_of(grouping: Option<FormGrouping>, sizes: GroupingSizes) -> GroupingSizes
    ensures { result ≡ sizes_of grouping sizes }
{
    match grouping {
        None => sizes,
        Some(FormGrouping::Strategy(_)) => sizes,
        Some(FormGrouping::OnAligned) => aligned(sizes),
        Some(FormGrouping::Thousands) => THOUSANDS,
    }
}

/// A provider whose symbols have the sizes of a grouping.
#[derive(Drop)]
pub(crate) struct Grouped<'a, D> {
    pub(crate) provider: &'a D,
    pub(crate) grouping: Option<FormGrouping>,
}

impl<D: DataProvider<DecimalSymbolsV1>> DataProvider<DecimalSymbolsV1> for Grouped<'_, D> {
    ghost use Rattle.number_formatters.specs.Grouped.{grouped};

    ghost answer = { λ g. grouped g.grouping (D.answer g.provider.now) };

    fn load(&self, alloc: Global, request: &DataRequest<'_>) -> Result<DecimalSymbols, DataError> {
        let symbols = self.provider.load(alloc, request)?;
        Ok(DecimalSymbols {
            strings: symbols.strings,
            grouping_sizes: sizes_of(self.grouping, symbols.grouping_sizes),
        })
    }
}

impl<D: DataProvider<CurrencyDecimalSymbolsV1>> DataProvider<CurrencyDecimalSymbolsV1>
    for Grouped<'_, D> {
    ghost use Rattle.number_formatters.specs.Grouped.{grouped};

    ghost answer = { λ g. grouped g.grouping (D.answer g.provider.now) };

    fn load(&self, alloc: Global, request: &DataRequest<'_>) -> Result<DecimalSymbols, DataError> {
        let symbols = self.provider.load(alloc, request)?;
        Ok(DecimalSymbols {
            strings: symbols.strings,
            grouping_sizes: sizes_of(self.grouping, symbols.grouping_sizes),
        })
    }
}

/// Data without sizes of groups, which are passed on as they are.
trait HasNoSizes: DataMarker {}

impl HasNoSizes for DecimalDigitsV1 {}

impl HasNoSizes for PluralsCardinalV1 {}

impl HasNoSizes for DecimalCompactShortV1 {}

impl HasNoSizes for DecimalCompactLongV1 {}

impl HasNoSizes for CurrencyPatternsV1 {}

impl HasNoSizes for CurrencySymbolsV1 {}

impl HasNoSizes for CurrencyNamesV1 {}

impl HasNoSizes for CurrencyCompactShortV1 {}

impl HasNoSizes for PercentPatternsV1 {}

impl HasNoSizes for PermillePatternsV1 {}

impl HasNoSizes for UnitsLongV1 {}

impl HasNoSizes for UnitsShortV1 {}

impl HasNoSizes for UnitsNarrowV1 {}

impl<M: HasNoSizes, D: DataProvider<M>> DataProvider<M> for Grouped<'_, D> {
    ghost answer = { λ g. D.answer g.provider.now };

    fn load(&self, alloc: Global, request: &DataRequest<'_>) -> Result<M::DataStruct, DataError> {
        self.provider.load(alloc, request)
    }
}
