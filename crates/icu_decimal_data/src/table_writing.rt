//! The byte string of the table that is made of a map.

#![tactic(auto, using(crate::proofs::TableWriting::writing))]

ghost use Rattle.std.specs.Prelude.{◌≡◌, ℕ, ◌+◌, ◌<◌, ◌^◌, ◌++◌, [], ◌∷◌, length, slice_index, IfOk, OnOk, option_map};
ghost use Rattle.std.specs.List.Sorted.{IsStrictlySortedBy};
ghost use Rattle.std.specs.Map.{keys_of};
ghost use Rattle.std.specs.Ordering.{nat_cmp};
ghost use Rattle.icu_plurals.specs.Elements.{slots};
ghost use Rattle.icu_decimal_data.specs.Kept.{as_table, kept, at};
ghost use Rattle.icu_decimal_data.specs.PackedTable.{ArePatterns, AreWritable, literal_of, slot_literals, literals};
ghost use Rattle.icu_decimal_data.specs.TableBytes.{number_bytes, slot_bytes, slots_bytes, records_bytes, table_bytes};

use crate::kept::{Elements, stays};
use crate::table_bytes::{
    ABSENT, HEAD_LEN, RECORD_LEN, SLOT_LEN, WITH_PLACEHOLDER, WITHOUT_PLACEHOLDER, are_below_256,
};
use icu_pattern::{Pattern, PatternBackend};
use std::alloc::{AllocError, Global};
use std::collections::BTreeMap;

/// Appends a number in two bytes, the low one first.
fn push_number(bytes: &mut Vec<u8>, number: usize) -> Result<(), AllocError>
    requires { number < 2 ^ 16 }
    ensures { OnOk result (bytes.new.items ≡ bytes.old.items ++ number_bytes number) }
{
    bytes.push((number % 256) as u8)?;
    bytes.push((number / 256) as u8)?;
    Ok(())
}

/// Appends a slot to the records, and its literal to the pool.
fn push_slot<P: PatternBackend>(
    records: &mut Vec<u8>,
    pool: &mut Vec<u8>,
    slot: Option<&Pattern<P>>,
) -> Result<(), AllocError>
    requires { length pool.old.items + length (literal_of (option_map (λ p. p.now) slot)) < 2 ^ 16 }
    ensures records { OnOk result (records.new.items ≡ records.old.items
        ++ slot_bytes (length pool.old.items) (option_map (λ p. p.now) slot.entry)) }
    ensures pool { OnOk result (pool.new.items ≡ pool.old.items
        ++ literal_of (option_map (λ p. p.now) slot.entry)) }
    ensures pattern { OnOk result
        (ArePatterns P.accepted (option_map (λ p. p.now) slot.entry ∷ [])) }
{
    let Some(pattern) = slot else {
        return records.extend_from_slice(&[ABSENT; SLOT_LEN]);
    };
    let pattern = pattern.as_ref();
    let literal = pattern.literal().as_bytes();
    let (kind, placeholder) = match pattern.placeholder() {
        Some(placeholder) => (WITH_PLACEHOLDER, placeholder),
        None => (WITHOUT_PLACEHOLDER, 0),
    };
    records.push(kind)?;
    push_number(records, pool.len())?;
    push_number(records, literal.len())?;
    push_number(records, placeholder)?;
    pool.extend_from_slice(literal)
}

/// Appends the slots of an entry to the records, and their literals to the pool.
fn push_slots<P: PatternBackend>(
    records: &mut Vec<u8>,
    pool: &mut Vec<u8>,
    elements: &Elements<P>,
) -> Result<(), AllocError>
    requires { length pool.old.items + length (slot_literals (slots elements.now)) < 2 ^ 16 }
    ensures records { OnOk result (records.new.items ≡ records.old.items
        ++ slots_bytes (length pool.old.items) (slots elements.now)) }
    ensures pool { OnOk result (pool.new.items ≡ pool.old.items
        ++ slot_literals (slots elements.now)) }
    ensures patterns { OnOk result (ArePatterns P.accepted (slots elements.now)) }
{
    for slot in 0..8 {
        push_slot(records, pool, elements.slot(slot))?;
    }
    Ok(())
}

/// The records and the pool of the entries that are kept of a map.
fn records_and_pool<P: PatternBackend>(
    alloc: Global,
    map: &BTreeMap<u8, (u8, Elements<P>)>,
    zero_magnitude: Option<&Elements<P>>,
) -> Result<(Vec<u8>, Vec<u8>), AllocError>
    requires { length (literals (kept (at zero_magnitude) (as_table map.now.entries))) < 2 ^ 16 }
    ensures records { IfOk result (λ p.
        p.0.items ≡ records_bytes 0 (kept (at zero_magnitude.entry) (as_table map.now.entries))) }
    ensures pool { IfOk result (λ p.
        p.1.items ≡ literals (kept (at zero_magnitude.entry) (as_table map.now.entries))) }
    ensures writable { IfOk result (λ _.
        AreWritable P.accepted (kept (at zero_magnitude.entry) (as_table map.now.entries))) }
    ensures sorted { IsStrictlySortedBy nat_cmp (keys_of map.now.entries) }
{
    let mut records = Vec::new(alloc);
    let mut pool = Vec::new(alloc);
    let mut last = None;
    for (log10_type, value) in map {
        let elements = &value.1;
        if stays(zero_magnitude, last, elements) {
            records.push(*log10_type)?;
            records.push(value.0)?;
            push_slots(&mut records, &mut pool, elements)?;
            last = Some(elements);
        }
    }
    Ok((records, pool))
}

/// The byte string of the entries that are kept of a map, whose literals are less than 65,536
/// bytes.
pub(crate) fn table_of<P: PatternBackend>(
    alloc: Global,
    map: &BTreeMap<u8, (u8, Elements<P>)>,
    zero_magnitude: Option<&Elements<P>>,
) -> Result<Vec<u8>, AllocError>
    requires { length (literals (kept (at zero_magnitude) (as_table map.now.entries))) < 2 ^ 16 }
    ensures bytes { IfOk result (λ b.
        b.items ≡ table_bytes (kept (at zero_magnitude.entry) (as_table map.now.entries))) }
    ensures writable { IfOk result (λ _.
        AreWritable P.accepted (kept (at zero_magnitude.entry) (as_table map.now.entries))) }
    ensures are_bytes { IfOk result (λ b. (i : ℕ) → slice_index b.items i < 256) }
    ensures sorted { IsStrictlySortedBy nat_cmp (keys_of map.now.entries) }
{
    let (records, pool) = records_and_pool(alloc, map, zero_magnitude)?;
    let mut bytes = Vec::with_capacity(alloc, HEAD_LEN + records.len() + pool.len())?;
    push_number(&mut bytes, records.len() / RECORD_LEN)?;
    push_number(&mut bytes, pool.len())?;
    bytes.extend_from_slice(&records)?;
    bytes.extend_from_slice(&pool)?;
    are_below_256(&bytes);
    Ok(bytes)
}
