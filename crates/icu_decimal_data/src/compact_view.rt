//! Compact tables in borrowed bytes.

ghost use Rattle.std.specs.Prelude.{◌≡◌, ◌≤◌, ◌<◌, List, None, IfOk, IfErr, IsOk, IsOkAnd, MatchResult, Err, length, slice_index_or, ⊤};
ghost use Rattle.std.specs.Option.{option_map};
ghost use Rattle.icu_plurals.specs.Elements.{slots, selected};
ghost use Rattle.icu_pattern.specs.Refs.{text_of_ref};
ghost use Rattle.icu_plurals.specs.Rules.{category_of};
ghost use Rattle.icu_decimal_data.specs.CompactTable.{TableEntry, entry_for, exponent_for};
ghost use Rattle.icu_decimal_data.specs.PackedTable.{IsPackable};
ghost use Rattle.icu_decimal_data.specs.TableBytes.{table_bytes};
ghost use Rattle.icu_decimal_data.specs.TableReading.{IsTableBytes, table_step, count_in};
ghost use Rattle.fixed_decimal.specs.Size.{place};

use crate::error::Damaged;
use crate::table_damage::check;
use crate::table_search::{exponent_at, reached, type_at};
use crate::table_slots::{pattern_at, pick};
use icu_pattern::{PatternBackend, PatternRef};
use icu_plurals::{PluralOperands, PluralRules};
use std::alloc::AllocError;
use std::marker::PhantomData;

/// A compact table in its byte string. Patterns are borrowed for as long as the bytes are. No call
/// takes memory.
pub struct CompactView<'a, P: PatternBackend> {
    bytes: &'a [u8],
    backend: PhantomData<P>,
    ghost packed: { IsTableBytes P.accepted bytes.now },
}

impl<P: PatternBackend> Clone for CompactView<'_, P> {
    ghost is_clone = { λ s r. r ≡ s };

    ghost is_infallible = { λ _. ⊤ };

    fn clone(&self) -> Result<Self, AllocError> {
        Ok(*self)
    }
}

impl<P: PatternBackend> Copy for CompactView<'_, P> {}

impl<'a, P: PatternBackend> CompactView<'a, P> {
    ghost use Rattle.icu_decimal_data.specs.ViewedTable.{viewed_table, viewed_entry};

    /// The table with these bytes.
    ///
    /// The first damage is reported by its byte offset, in this order: fewer than four bytes, at
    /// their number; more than 256 entries, at 0; another length than the first four bytes give, at
    /// the smaller of the two; then, record by record and slot by slot, values that can't be; then
    /// literal bytes that no slot uses, at the first of them.
    // promise: Just the bytes of a table are read, and as that table.
    // mutations: table_repeated_record, table_longer_than_it_says
    // promise: Other bytes are rejected at the first damage met.
    // mutations: table_damage_a_byte_off
    #[tactic(auto, using(crate::proofs::PackedTables::tables))]
    pub fn parse(bytes: &'a [u8]) -> Result<Self, Damaged>
        ensures found { IfOk result (λ v. IsPackable P.accepted (viewed_table v)
            × (bytes.now ≡ table_bytes (viewed_table v))) }
        ensures every { (t : List TableEntry) → IsPackable P.accepted t → bytes.now ≡ table_bytes t
            → IsOkAnd result (λ v. viewed_table v ≡ t) }
        ensures inside { IfErr result (λ e. e.byte ≤ length bytes.now) }
        ensures damaged { MatchResult result (λ _. IsOk (table_step P.accepted bytes.now)) (λ e.
            table_step P.accepted bytes.now ≡ Err e.byte) }
    {
        check::<P>(bytes)?;
        Ok(CompactView {
            bytes,
            backend: PhantomData,
        })
    }

    /// The entry for a magnitude, found by binary search: the last one whose type isn't above the
    /// magnitude.
    // promise: The entry is that of the table which is shown.
    // mutations: search_skips_the_first
    #[tactic(auto, using(crate::proofs::TableSearch::searching))]
    pub fn entry_for_magnitude(&self, magnitude: i16) -> Option<EntryView<'a, P>>
        ensures { option_map viewed_entry result
            ≡ entry_for (viewed_table self.now) (place magnitude) }
    {
        match reached(self.bytes, magnitude as i32) {
            0 => None,
            count => Some(EntryView {
                bytes: self.bytes,
                index: count - 1,
                backend: PhantomData,
            }),
        }
    }

    /// The exponent for a magnitude: that of its entry, or 0 if it has none.
    pub fn exponent_for_magnitude(&self, magnitude: i16) -> u8
        ensures { result ≡ exponent_for (viewed_table self.now) (place magnitude) }
    {
        match self.entry_for_magnitude(magnitude) {
            Some(entry) => entry.exponent(),
            None => 0,
        }
    }
}

/// An entry of a compact table in its byte string. Patterns are borrowed for as long as the bytes
/// are. No call takes memory.
pub struct EntryView<'a, P: PatternBackend> {
    bytes: &'a [u8],
    index: usize,
    backend: PhantomData<P>,
    ghost packed: { IsTableBytes P.accepted bytes.now },
    ghost inside: { index < count_in bytes.now },
}

impl<P: PatternBackend> Clone for EntryView<'_, P> {
    ghost is_clone = { λ s r. r ≡ s };

    ghost is_infallible = { λ _. ⊤ };

    fn clone(&self) -> Result<Self, AllocError> {
        Ok(*self)
    }
}

impl<P: PatternBackend> Copy for EntryView<'_, P> {}

impl<'a, P: PatternBackend> EntryView<'a, P> {
    ghost use Rattle.icu_decimal_data.specs.ViewedTable.{viewed_entry};

    /// The type: the power of ten at which the entry begins.
    #[tactic(auto, using(crate::proofs::TableSearch::searching))]
    pub fn log10_type(&self) -> u8
        ensures { result ≡ (viewed_entry self.now).log10_type }
    {
        type_at(self.bytes, self.index)
    }

    /// The exponent: the power of ten that the patterns name.
    #[tactic(auto, using(crate::proofs::TableSearch::searching))]
    pub fn exponent(&self) -> u8
        ensures { result ≡ (viewed_entry self.now).exponent }
    {
        exponent_at(self.bytes, self.index)
    }

    /// The pattern in a slot. The slots are, from 0: exactly zero, exactly one, the categories
    /// zero, one, two, few and many, and all other numbers.
    pub fn slot(&self, slot: u8) -> Option<PatternRef<'a, P>>
        requires { slot < 8 }
        ensures { option_map text_of_ref result
            ≡ slice_index_or (slots (viewed_entry self.now).elements) slot None }
    {
        pattern_at(self.bytes, self.index, slot as usize)
    }

    /// The pattern for a number with these operands: the one for exactly zero or exactly one, if it
    /// is present and the number is exactly that; else the one for the number's plural category, if
    /// it is present; else the one for all other numbers.
    // promise: A view picks the pattern that the table picks.
    // mutations: view_pick_of_the_first_entry
    pub fn pick(&self, operands: &PluralOperands, rules: &PluralRules) -> PatternRef<'a, P>
        ensures { text_of_ref result ≡ selected (viewed_entry self.now).elements operands.now
            (category_of rules.now operands.now) }
    {
        pick(self.bytes, self.index, operands, rules)
    }
}
