//! Tables of compact patterns.

#![tactic(auto, using(crate::proofs::TableCalls::calls))]

ghost use Rattle.std.specs.Prelude.{◌≡◌, ◌↔◌, ◌<◌, IfOk, IfSome, IsErrOf, IsTrue, MatchOption, IsOkUnless, None, [], length, option_map, slice_get};
ghost use Rattle.std.specs.Prelude.{slice_index_or};
ghost use Rattle.fixed_decimal.specs.Size.{place};
ghost use Rattle.icu_plurals.specs.Elements.{slots, selected, sole_value};
ghost use Rattle.icu_plurals.specs.Operands.{Operands};
ghost use Rattle.icu_plurals.specs.declared.category.PluralCategory.{PluralCategory};
ghost use Rattle.icu_pattern.specs.Refs.{text_of_ref};
ghost use Rattle.icu_plurals.specs.Rules.{category_of};
ghost use Rattle.icu_decimal_data.specs.CompactTable.{IsCompactTable, IsIndex, entry_at, entry_for, next_entry, index_after, log10_type_of, exponent_of};
ghost use Rattle.icu_decimal_data.specs.PackedTable.{IsPackable};
ghost use Rattle.icu_decimal_data.specs.TableBytes.{table_bytes};
ghost use Rattle.icu_decimal_data.specs.CompactFaults.{fault_of};
ghost use Rattle.icu_decimal_data.specs.Kept.{as_table, kept, at};
ghost use Rattle.icu_decimal_data.specs.declared.error.CompactError.TheVariants.{OutOfMemory};

use crate::error::CompactError;
use crate::kept::first_fault;
use crate::table_bytes::number_at;
use crate::table_search::{exponent_at, reached, type_at};
use crate::table_slots::{pattern_at, pick, sole_pattern};
use crate::table_writing::table_of;
use icu_pattern::{Pattern, PatternBackend, PatternRef};
use icu_plurals::{PluralElements, PluralOperands, PluralRules};
use std::alloc::Global;
use std::collections::BTreeMap;
use std::marker::{Model, PhantomData};

/// The compact patterns of a locale (ICU4X, `CompactPatterns`; UTS 35 Part 3, Compact Number
/// Formats): entries in the order of their types, each with an exponent and patterns.
///
/// The type is the power of ten at which the entry begins, and the exponent is the power of ten
/// that its patterns name: with type 4 and exponent 3, numbers from ten thousand on are written in
/// thousands. All is held in one byte string.
#[derive(Drop)]
pub struct CompactPatterns<P: PatternBackend> {
    bytes: Vec<u8>,
    backend: PhantomData<P>,
}

impl<P: PatternBackend> Model for CompactPatterns<P> {
    ghost use Rattle.std.specs.Prelude.{List};
    ghost use Rattle.icu_decimal_data.specs.CompactTable.{TableEntry};
    ghost use Rattle.icu_decimal_data.specs.TableReading.{table_in, IsTableBytes};

    ghost Value = { List TableEntry };

    ghost view = { λ t. table_in t.bytes.items };

    ghost invariant = { λ t. IsTableBytes P.accepted t.bytes.items };
}

impl<P: PatternBackend> PartialEq for CompactPatterns<P> {
    ghost use Rattle.std.specs.Cmp.{partial_equiv_from_equiv};
    ghost use Rattle.icu_decimal_data.specs.SameTable.{same_table, same_table_laws};

    ghost eq = { same_table };

    ghost laws = { partial_equiv_from_equiv same_table_laws };

    /// Whether all entries are equal.
    fn eq(&self, other: &Self) -> bool {
        self.bytes == other.bytes
    }
}

impl<P: PatternBackend> Eq for CompactPatterns<P> {
    ghost use Rattle.icu_decimal_data.specs.SameTable.{same_table_laws};

    ghost laws = { same_table_laws };
}

impl<P: PatternBackend> CompactPatterns<P> {
    /// The table of a map from types to exponents and patterns.
    ///
    /// The leading types whose patterns equal `zero_magnitude`, if it is given, are skipped. Of the
    /// rest, the first is kept. A later type is kept unless its patterns equal its predecessor's;
    /// the predecessor's pattern for exactly one is ignored in that comparison. Exponents aren't
    /// compared. The map is dropped, even when an error is returned.
    // promise: The table has exactly the entries that `kept` keeps.
    // mutations: new_table_nothing_skipped
    // promise: A faulty map is rejected by its first fault.
    // mutations: new_table_exponent_above_its_type
    pub fn new(
        alloc: Global,
        patterns: BTreeMap<u8, (u8, PluralElements<Pattern<P>>)>,
        zero_magnitude: Option<&PluralElements<Pattern<P>>>,
    ) -> Result<Self, CompactError>
        ensures kept { IfOk result (λ table.
            table ≡ kept (at zero_magnitude.entry) (as_table patterns.entries)) }
        ensures refused { MatchOption (fault_of (at zero_magnitude.entry)
            (as_table patterns.entries))
            (IsOkUnless result OutOfMemory) (λ fault. IsErrOf result fault) }
    {
        if let Some(fault) = first_fault(&patterns, zero_magnitude) {
            return Err(fault);
        }
        let bytes = table_of(alloc, &patterns, zero_magnitude)?;
        Ok(CompactPatterns {
            bytes,
            backend: PhantomData,
        })
    }

    /// The number of entries.
    pub fn len(&self) -> usize
        ensures { result ≡ length self.now }
    {
        number_at(&self.bytes, 0)
    }

    /// Whether there are no entries.
    pub fn is_empty(&self) -> bool
        ensures { IsTrue result ↔ (self.now ≡ []) }
    {
        self.len() == 0
    }

    /// The index of the entry for a magnitude: the last one whose type isn't above the magnitude.
    // promise: The entry is the last whose type isn't above the magnitude.
    // mutations: entry_index_own_type_not_reached
    pub fn entry_index(&self, magnitude: i32) -> Option<usize>
        ensures entry { entry_at self.now result ≡ entry_for self.now (place magnitude) }
        ensures next { slice_get self.now (index_after result)
            ≡ next_entry self.now (place magnitude) }
        ensures index { IsIndex self.now result }
        ensures table { IsCompactTable self.now }
    {
        match reached(&self.bytes, magnitude) {
            0 => None,
            count => Some(count - 1),
        }
    }

    /// States that the entries are a compact table. It does nothing: it is its contract.
    pub(crate) fn is_compact_table(&self)
        ensures { IsCompactTable self.now }
    {
        let _ = &self.bytes;
    }

    /// The type of an entry.
    pub fn log10_type(&self, index: usize) -> u8
        requires { index < length self.now }
        ensures { result ≡ log10_type_of (slice_get self.now index) }
    {
        type_at(&self.bytes, index)
    }

    /// The exponent of an entry.
    pub fn exponent(&self, index: usize) -> u8
        requires { index < length self.now }
        ensures { result ≡ exponent_of (slice_get self.now index) }
    {
        exponent_at(&self.bytes, index)
    }

    /// The pattern in a slot of an entry. The slots are, from 0: exactly zero, exactly one, the
    /// categories zero, one, two, few and many, and all other numbers.
    pub fn slot(&self, index: usize, slot: u8) -> Option<PatternRef<'_, P>>
        requires index { index < length self.now }
        requires slot { slot < 8 }
        ensures { IfSome (slice_get self.now index) (λ e. option_map text_of_ref result
            ≡ slice_index_or (slots e.elements) slot None) }
    {
        pattern_at(&self.bytes, index, slot as usize)
    }

    /// The pattern of an entry for all other numbers, if it has no other pattern. `pick` then
    /// returns it for every number.
    // promise: A pattern without others is the one that all numbers get.
    // mutations: sole_pattern_of_the_first_entry
    pub fn sole_pattern(&self, index: usize) -> Option<PatternRef<'_, P>>
        requires { index < length self.now }
        ensures pattern { IfSome (slice_get self.now index) (λ e. option_map text_of_ref result
            ≡ sole_value e.elements) }
        ensures picked { IfSome (slice_get self.now index) (λ e.
            IfSome result (λ p. (operands : Operands) (category : PluralCategory)
            → selected e.elements operands category ≡ text_of_ref p)) }
    {
        sole_pattern(&self.bytes, index)
    }

    /// The pattern of an entry for a number with these operands: the one for exactly zero or
    /// exactly one, if it is present and the number is exactly that; else the one for the number's
    /// plural category, if it is present; else the one for all other numbers. It takes no memory.
    // promise: The pattern is picked as `PluralElements::get` picks one.
    // mutations: pick_of_the_first_entry
    pub fn pick(
        &self,
        index: usize,
        operands: &PluralOperands,
        rules: &PluralRules,
    ) -> PatternRef<'_, P>
        requires { index < length self.now }
        ensures { IfSome (slice_get self.now index) (λ e. text_of_ref result
            ≡ selected e.elements operands.now (category_of rules.now operands.now)) }
    {
        pick(&self.bytes, index, operands, rules)
    }

    /// A copy of the table, with its own memory.
    pub fn copy(&self, alloc: Global) -> Result<Self, CompactError>
        ensures equal { IfOk result (λ table. table ≡ self.now) }
        ensures memory { IsOkUnless result OutOfMemory }
    {
        Ok(CompactPatterns {
            bytes: Vec::from_slice(alloc, &self.bytes)?,
            backend: PhantomData,
        })
    }

    /// The byte string of the table (docs/FORMATS.md). `CompactView::parse` accepts it.
    // promise: A table is one byte string, which can be packed.
    // mutations: packed_literals_overlap, as_bytes_of_no_table
    pub fn as_bytes(&self) -> &[u8]
        ensures bytes { result.now ≡ table_bytes self.now }
        ensures packable { IsPackable P.accepted self.now }
    {
        &self.bytes
    }

    /// A copy of the table's byte string.
    pub fn pack(&self, alloc: Global) -> Result<Vec<u8>, CompactError>
        ensures bytes { IfOk result (λ v. v.items ≡ table_bytes self.now) }
        ensures memory { IsOkUnless result OutOfMemory }
    {
        Ok(Vec::from_slice(alloc, self.as_bytes())?)
    }
}
