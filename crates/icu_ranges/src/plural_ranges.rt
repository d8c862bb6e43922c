//! The plural category of a range.

ghost use Rattle.std.specs.Prelude.{◌≡◌};
ghost use Rattle.icu_ranges.specs.PluralRanges.{category_number, first_repeated, has_pair, has_repeated, is_for, resolved};

use crate::error::PluralRangesError;
use icu_plurals::{PluralCategory, PluralOperands, PluralRules};
use std::alloc::{AllocError, Global};
use std::marker::Model;

/// The category of the ranges whose ends have two given categories.
#[derive(Clone, Copy, Debug)]
pub struct PluralRange {
    /// The category of the start.
    pub start: PluralCategory,
    /// The category of the end.
    pub end: PluralCategory,
    /// The category of the range.
    pub result: PluralCategory,
}

/// The categories of ranges in a language (ICU4X `PluralRanges`; UTS 35 Part 3, Plural Ranges).
///
/// A pair of categories without an entry gives `Other`, as in ICU.
#[derive(Drop)]
pub struct PluralRanges {
    ranges: Vec<PluralRange>,
}

impl Model for PluralRanges {
    ghost use Rattle.std.specs.Prelude.{List};
    ghost use Rattle.icu_ranges.specs.declared.plural_ranges.PluralRange.{PluralRange};

    ghost Value = { List PluralRange };

    ghost view = { λ r. r.ranges.items };
}

/// A category's place in the order of categories.
fn category_number(category: PluralCategory) -> u8
    ensures { result ≡ category_number category }
{
    match category {
        PluralCategory::Zero => 0,
        PluralCategory::One => 1,
        PluralCategory::Two => 2,
        PluralCategory::Few => 3,
        PluralCategory::Many => 4,
        PluralCategory::Other => 5,
    }
}

/// Whether an entry is for these categories.
fn is_for(range: &PluralRange, start: PluralCategory, end: PluralCategory) -> bool
    ensures { result ≡ is_for range.now start end }
{
    category_number(range.start) == category_number(start)
        && category_number(range.end) == category_number(end)
}

/// Whether some entry is for these categories.
fn has_pair(ranges: &[PluralRange], start: PluralCategory, end: PluralCategory) -> bool
    ensures { result ≡ has_pair ranges.now start end }
{
    for range in ranges {
        if is_for(range, start, end) {
            return true;
        }
    }
    false
}

/// Whether a pair of categories has two entries.
fn has_repeated(ranges: &[PluralRange]) -> bool
    ensures { result ≡ has_repeated ranges.now }
{
    for index in 0..ranges.len() {
        let range = ranges[index];
        if has_pair(ranges.split_at(index + 1).1, range.start, range.end) {
            return true;
        }
    }
    false
}

/// The result for these categories.
fn resolved(ranges: &[PluralRange], start: PluralCategory, end: PluralCategory) -> PluralCategory
    ensures { result ≡ resolved ranges.now start end }
{
    for range in ranges {
        if is_for(range, start, end) {
            return range.result;
        }
    }
    PluralCategory::Other
}

/// The index of the first entry whose pair of categories a later entry has too.
pub fn first_repeated(ranges: &[PluralRange]) -> Option<usize>
    ensures { result ≡ first_repeated 0 ranges.now }
{
    for index in 0..ranges.len() {
        let range = ranges[index];
        if has_pair(ranges.split_at(index + 1).1, range.start, range.end) {
            return Some(index);
        }
    }
    None
}

impl PluralRanges {
    ghost use Rattle.std.specs.Prelude.{◌≡◌, [], true, false, IfOk, IsErrOf};
    ghost use Rattle.icu_plurals.specs.Rules.{category_of};
    ghost use Rattle.icu_ranges.specs.PluralRanges.{has_repeated, resolved};

    /// No entries: each range has the category `Other`.
    pub fn empty(alloc: Global) -> Self
        ensures { result ≡ [] }
    {
        PluralRanges {
            ranges: Vec::new(alloc),
        }
    }

    /// The categories of these entries. Two entries for one pair of categories are rejected.
    pub fn try_new(alloc: Global, ranges: &[PluralRange]) -> Result<Self, PluralRangesError>
        ensures made { IfOk result (λ r. r ≡ ranges.now) }
        ensures unrepeated { IfOk result (λ r. has_repeated ranges.now ≡ false) }
        ensures repeated { IsErrOf result PluralRangesError.RepeatedPair →
            has_repeated ranges.now ≡ true }
    {
        if has_repeated(ranges) {
            return Err(PluralRangesError::RepeatedPair);
        }
        Ok(PluralRanges {
            ranges: Vec::from_slice(alloc, ranges)?,
        })
    }

    /// A copy of the entries, with its own memory.
    pub fn copy(&self, alloc: Global) -> Result<Self, AllocError>
        ensures { IfOk result (λ r. r ≡ self.now) }
    {
        Ok(PluralRanges {
            ranges: Vec::from_slice(alloc, &self.ranges)?,
        })
    }

    /// The category of a range by the categories of its ends (ICU4X `resolve_range`).
    // promise: A range has the category of its pair, and else `other`.
    // mutations: plural_ranges_category_of_the_start
    pub fn resolve_range(&self, start: PluralCategory, end: PluralCategory) -> PluralCategory
        ensures { result ≡ resolved self.now start end }
    {
        resolved(&self.ranges, start, end)
    }

    /// The category of a range by the operands of its ends as they are shown (ICU4X
    /// `category_for_range`).
    pub fn category_for_range(
        &self,
        rules: &PluralRules,
        start: PluralOperands,
        end: PluralOperands,
    ) -> PluralCategory
        ensures { result
            ≡ resolved self.now (category_of rules.now start) (category_of rules.now end) }
    {
        self.resolve_range(rules.category_for(start), rules.category_for(end))
    }
}
