//! How ranges are written whose pattern depends on their plural category.

ghost use Rattle.std.specs.Prelude.{◌≡◌};
ghost use Rattle.icu_ranges.specs.Writing.{WroteText};
ghost use Rattle.icu_unit_ranges.specs.NameRanges.{names_range_framed};
ghost use Rattle.icu_unit_ranges.specs.UnitRanges.{units_range_framed};

use crate::given::GivenNumber;
use crate::names::write_names;
use crate::units::write_units;
use icu_decimal::error::FormatError;
use icu_decimal_interface::AbstractFormatter;
use icu_dimension::{LongCurrencyFormatter, UnitsFormatter};
use icu_ranges::{PluralRanges, RangeStyle};
use std::alloc::Global;
use writeable::{EventWriter, Writeable};

/// How ranges are written whose pattern depends on their plural category: with which separator,
/// what is written where both texts are equal, and which categories ranges have (this project's
/// own).
#[derive(Drop)]
pub struct PluralRangeStyle<'a> {
    /// The separator, and what is written where both texts are equal.
    pub style: RangeStyle<'a>,
    /// The categories of ranges.
    pub plural_ranges: &'a PluralRanges,
}

impl PluralRangeStyle<'_> {
    /// Writes two numbers that are shown already as a range with a unit, into any writer (this
    /// project's own).
    ///
    /// The pattern is that of the range's category, or that of all other numbers if the category
    /// has none of its own, or one without a place for a number. Both numbers stand in it with
    /// their signs, joined. If both texts are equal, each with its own unit, the first is written
    /// alone, as `units` writes it.
    ///
    /// After `OutOfMemory` the writer is unchanged. `Sink` only where the writer failed. `Overflow`
    /// is never reported.
    // promise: Two numbers stand in the pattern of their category.
    // mutations: unit_category_of_the_start, unit_categories_exchanged
    pub fn write_units_into<F: AbstractFormatter, A: Writeable, B: Writeable, K: EventWriter>(
        &self,
        alloc: Global,
        units: &UnitsFormatter<F>,
        start: &GivenNumber<'_, A>,
        end: &GivenNumber<'_, B>,
        out: &mut K,
    ) -> Result<(), FormatError>
        ensures { WroteText K.wrote out.old result (units_range_framed (record {
          style = record {
            separator = self.now.style.pattern.now;
            fallback = self.now.style.fallback;
          };
          plural_ranges = self.now.plural_ranges.now;
        }) (F.symbols units.now.formatter) units.now.rules units.now.elements start.now.sign
            end.now.sign start.now.operands (A.events start.now.number.now) end.now.operands
            (B.events end.now.number.now)) out.new }
    {
        write_units(alloc, self, units, start, end, out)
    }

    /// Writes two amounts that are shown already as a range with the name of their currency, into
    /// any writer (this project's own).
    ///
    /// The name is that of the range's category, or that of all other numbers if the category has
    /// none of its own. If both texts are equal, each with its own name, the first is written
    /// alone, as `money` writes it. The errors are those of
    /// [`write_units_into`](PluralRangeStyle::write_units_into).
    // promise: Two amounts have the name of their category.
    // mutations: name_category_of_the_end
    pub fn write_names_into<F: AbstractFormatter, A: Writeable, B: Writeable, K: EventWriter>(
        &self,
        alloc: Global,
        money: &LongCurrencyFormatter<F>,
        start: &GivenNumber<'_, A>,
        end: &GivenNumber<'_, B>,
        out: &mut K,
    ) -> Result<(), FormatError>
        ensures { WroteText K.wrote out.old result (names_range_framed (record {
          style = record {
            separator = self.now.style.pattern.now;
            fallback = self.now.style.fallback;
          };
          plural_ranges = self.now.plural_ranges.now;
        }) (F.symbols money.now.formatter) money.now.rules money.now.elements start.now.sign
            end.now.sign start.now.operands (A.events start.now.number.now) end.now.operands
            (B.events end.now.number.now)) out.new }
    {
        write_names(alloc, self, money, start, end, out)
    }
}
