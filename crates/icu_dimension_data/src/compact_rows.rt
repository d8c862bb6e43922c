//! Compact patterns of money as CLDR has them.

ghost use Rattle.std.specs.Prelude.{◌≡◌, IfOk};

use crate::by_category::{SlotMaker, elements_made, other_of};
use crate::cldr_pattern::CldrPattern;
use icu_plurals::PluralElements;
use std::alloc::{AllocError, Global};
use std::marker::Model;

/// A type, its exponent and the patterns of amounts from it on.
#[derive(Drop)]
pub struct CompactRow {
    /// The power of ten at which the row begins.
    pub log10_type: u8,
    /// The power of ten that its patterns name.
    pub exponent: u8,
    /// Its patterns, as CLDR has them, as `¤0K`.
    pub patterns: PluralElements<CldrPattern>,
}

/// The compact patterns of money of a locale and a numbering system, by rising types (UTS 35 Part
/// 3, Compact Number Formats). They fit every currency: its symbol is put in by
/// [`CompactRows::resolve`].
#[derive(Drop)]
pub struct CompactRows {
    /// The rows; the type of each is above the one before it.
    pub rows: Vec<CompactRow>,
}

impl Model for CompactRows {
    ghost use Rattle.std.specs.Prelude.{List, None};
    ghost use Rattle.icu_dimension_data.specs.CompactRows.{RowsRise};
    ghost use Rattle.icu_dimension_data.specs.declared.compact_rows.CompactRow.{CompactRow};

    ghost Value = { List CompactRow };

    ghost view = { λ t. t.rows.items };

    ghost invariant = { λ t. RowsRise None t.rows.items };
}

/// Patterns that are copied.
#[derive(Drop)]
struct PatternsCopied<'a> {
    patterns: &'a PluralElements<CldrPattern>,
}

impl SlotMaker for PatternsCopied<'_> {
    type Made = CldrPattern;

    ghost use Rattle.std.specs.Prelude.{None, slice_index_or};
    ghost use Rattle.icu_plurals.specs.Elements.{slots};

    ghost in_slot = { λ p slot. slice_index_or (slots p.patterns.now) slot None };

    ghost for_others = { λ p. p.patterns.now.other };

    fn make(&self, alloc: Global, slot: u8) -> Result<Option<CldrPattern>, AllocError> {
        match self.patterns.slot(slot) {
            Some(pattern) => Ok(Some(pattern.copy(alloc)?)),
            None => Ok(None),
        }
    }

    fn make_other(&self, alloc: Global) -> Result<CldrPattern, AllocError> {
        other_of(self.patterns).copy(alloc)
    }
}

impl CompactRow {
    ghost use Rattle.std.specs.Prelude.{◌≡◌, IfOk};

    /// An equal row, with memory of its own.
    fn copy(&self, alloc: Global) -> Result<Self, AllocError>
        ensures { IfOk result (λ r. r ≡ self.now) }
    {
        let patterns = &self.patterns;
        Ok(CompactRow {
            log10_type: self.log10_type,
            exponent: self.exponent,
            patterns: elements_made(alloc, &PatternsCopied { patterns })?,
        })
    }
}

/// Equal rows, with memory of their own.
fn rows_copy(alloc: Global, rows: &[CompactRow]) -> Result<Vec<CompactRow>, AllocError>
    ensures { IfOk result (λ v. v.items ≡ rows.now) }
{
    let mut copied = Vec::new(alloc);
    for index in 0..rows.len() {
        copied.push(rows[index].copy(alloc)?)?;
    }
    Ok(copied)
}

impl CompactRows {
    ghost use Rattle.std.specs.Prelude.{◌≡◌, IfOk};

    /// Equal rows, with memory of their own.
    pub fn copy(&self, alloc: Global) -> Result<Self, AllocError>
        ensures { IfOk result (λ r. r ≡ self.now) }
    {
        let rows = rows_copy(alloc, &self.rows)?;
        Ok(CompactRows { rows })
    }
}
