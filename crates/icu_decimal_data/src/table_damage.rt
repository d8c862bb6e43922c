//! Checks whether bytes are those of a compact table, record by record and slot by slot, up to the
//! first damage.

#![tactic(auto, using(crate::proofs::TableSteps::steps), unfolding(crate::specs::TableReading::slot_step, crate::specs::TableReading::record_step, crate::specs::TableReading::table_step))]

ghost use Rattle.std.specs.Prelude.{◌≡◌, Bool, ℕ, ◌+◌, ◌*◌, ◌<◌, ◌≤◌, ◌^◌, List, Option, drop, take, length, slice_index, slice_range, IsTrue, ◌↔◌};
ghost use Rattle.std.specs.Prelude.{Some, None, Ok, Err, ◌==◌, ◌&&◌, nat_eq, IfSome, IfOk};
ghost use Rattle.std.specs.List.{list_all};
ghost use Rattle.std.specs.Option.{option_map, option_eq};
ghost use Rattle.icu_pattern.specs.Patterns.{same_pattern};
ghost use Rattle.icu_decimal_data.specs.PackedTable.{is_pattern};
ghost use Rattle.std.specs.Cmp.Lexicographic.{pointwise};
ghost use Rattle.icu_decimal_data.specs.TableAnswers.{GivesNumber, Passes};
ghost use Rattle.icu_decimal_data.specs.TableReading.{two_byte_number, slot_step, slots_step, record_step, records_step, table_step, is_wrong_kind};
ghost use Rattle.icu_decimal_data.specs.TableReading.{is_wrong_placeholder, is_wrong_type, is_wrong_exponent, is_repeated, same_at, same_from, placeholder_in};
ghost use Rattle.icu_decimal_data.specs.TableReading.{pattern_in, slot_in, slot_at, count_in, pool_start, pool_in, whole_len};

use crate::error::Damaged;
use crate::kept::MAX_ZEROS;
use crate::table_bytes::{
    ABSENT, HEAD_LEN, RECORD_LEN, SLOT_LEN, SLOTS_LEN, WITH_PLACEHOLDER, WITHOUT_PLACEHOLDER,
    literal_of, number_at, placeholder_of,
};
use icu_pattern::PatternBackend;
use std::str;

/// The greatest number of entries: one for each type.
const MAX_ENTRIES: usize = 256;

/// Whether a slot's kind is wrong: no kind at all, absent in the last slot, or with a place where
/// the backend has no places.
fn is_kind_wrong<P: PatternBackend>(is_last: bool, kind: u8) -> bool
    ensures { result ≡ is_wrong_kind P.accepted is_last kind }
{
    kind > WITH_PLACEHOLDER
        || (is_last && kind == ABSENT)
        || (kind == WITH_PLACEHOLDER && !P::accepts(Some(0), ""))
}

/// Whether a slot's place is after the end of its literal, or isn't 0 although the pattern has no
/// place.
fn is_placeholder_wrong(slot: &[u8]) -> bool
    requires { length slot.now ≡ SLOT_LEN }
    ensures { result ≡ is_wrong_placeholder slot.now }
{
    number_at(slot, 3) < number_at(slot, 5)
        || (slot[0] == WITHOUT_PLACEHOLDER && number_at(slot, 5) != 0)
}

/// Whether all bytes are zero.
fn are_zero(bytes: &[u8]) -> bool
    ensures { result ≡ list_all (λ b. b == 0) bytes.now }
{
    bytes.iter().all(|b| *b == 0)
}

/// Whether a literal is UTF-8, and the backend accepts it with this place.
fn is_good_pattern<P: PatternBackend>(placeholder: Option<usize>, literal: &[u8]) -> bool
    ensures { result ≡ is_pattern P.accepted
        (record { placeholder = placeholder; literal = literal.now }) }
{
    match str::from_utf8(literal) {
        Ok(literal) => P::accepts(placeholder, literal),
        Err(_) => false,
    }
}

/// Whether the backend accepts the pattern of a slot.
fn is_slot_good<P: PatternBackend>(pool: &[u8], slot: &[u8]) -> bool
    requires { length slot.now ≡ SLOT_LEN }
    ensures { result ≡ is_pattern P.accepted (pattern_in pool.now slot.now) }
{
    is_good_pattern::<P>(placeholder_of(slot), literal_of(pool, slot))
}

/// Checks a slot, and returns the length of the literals up to its own.
fn check_slot<P: PatternBackend>(
    pool: &[u8],
    pool_start: usize,
    is_last: bool,
    at: usize,
    sum: usize,
    slot: &[u8],
) -> Result<usize, Damaged>
    requires seven { length slot.now ≡ SLOT_LEN }
    requires room { at + SLOT_LEN < 2 ^ 64 }
    requires pool_room { pool_start + 2 ^ 16 < 2 ^ 64 }
    requires sum_room { sum ≤ length pool.now }
    ensures inside { IfOk result (λ n. n ≤ length pool.now) }
    ensures gives { GivesNumber result
        (slot_step P.accepted pool.now pool_start is_last at sum slot.now) }
{
    if is_kind_wrong::<P>(is_last, slot[0]) {
        return Err(Damaged { byte: at });
    }
    if slot[0] == ABSENT {
        if !are_zero(&slot[1..]) {
            return Err(Damaged { byte: at + 1 });
        }
        return Ok(sum);
    }
    let start = number_at(slot, 1);
    let len = number_at(slot, 3);
    if start != sum {
        return Err(Damaged { byte: at + 1 });
    }
    if start + len > pool.len() {
        return Err(Damaged { byte: at + 3 });
    }
    if is_placeholder_wrong(slot) {
        return Err(Damaged { byte: at + 5 });
    }
    if !is_slot_good::<P>(pool, slot) {
        return Err(Damaged {
            byte: pool_start + start,
        });
    }
    Ok(sum + len)
}

/// Checks the slots of a record.
#[tactic(auto, using(crate::proofs::TableLoops::slots_loop))]
fn check_slots<P: PatternBackend>(
    pool: &[u8],
    pool_start: usize,
    at: usize,
    sum: usize,
    bytes: &[u8],
) -> Result<usize, Damaged>
    requires slots { length bytes.now ≡ SLOTS_LEN }
    requires room { at + SLOTS_LEN < 2 ^ 64 }
    requires pool_room { pool_start + 2 ^ 16 < 2 ^ 64 }
    requires sum_room { sum ≤ length pool.now }
    ensures inside { IfOk result (λ n. n ≤ length pool.now) }
    ensures gives { GivesNumber result
        (slots_step P.accepted pool.now pool_start 8 at sum bytes.now) }
{
    let mut total = sum;
    for j in 0..8 {
        let slot = &bytes[SLOT_LEN * j..SLOT_LEN * j + SLOT_LEN];
        total = check_slot::<P>(pool, pool_start, j == 7, at + SLOT_LEN * j, total, slot)?;
    }
    Ok(total)
}

/// A slot of a record.
fn slot(bytes: &[u8], index: usize) -> &[u8]
    requires len { length bytes.now ≡ RECORD_LEN }
    requires inside { index < 8 }
    ensures slot { result.now ≡ slot_at (drop 2 bytes.now) index }
    ensures seven { length result.now ≡ SLOT_LEN }
{
    &bytes[2 + SLOT_LEN * index..2 + SLOT_LEN * index + SLOT_LEN]
}

/// Whether the places in two slots are the same.
fn is_same_placeholder(a: &[u8], b: &[u8]) -> bool
    requires a { length a.now ≡ SLOT_LEN }
    requires b { length b.now ≡ SLOT_LEN }
    ensures { result ≡ option_eq nat_eq (placeholder_in a.now) (placeholder_in b.now) }
{
    placeholder_of(a) == placeholder_of(b)
}

/// Whether the literals of two slots are the same.
fn is_same_literal(pool: &[u8], a: &[u8], b: &[u8]) -> bool
    requires a { length a.now ≡ SLOT_LEN }
    requires b { length b.now ≡ SLOT_LEN }
    ensures { result ≡ pointwise nat_eq (pattern_in pool.now a.now).literal
        (pattern_in pool.now b.now).literal }
{
    literal_of(pool, a) == literal_of(pool, b)
}

/// Whether the patterns of two slots are the same.
fn is_same_pattern(pool: &[u8], a: &[u8], b: &[u8]) -> bool
    requires a { length a.now ≡ SLOT_LEN }
    requires b { length b.now ≡ SLOT_LEN }
    ensures { result ≡ same_pattern (pattern_in pool.now a.now) (pattern_in pool.now b.now) }
{
    is_same_placeholder(a, b) && is_same_literal(pool, a, b)
}

/// Whether two slots are the same: both absent, or of the same pattern.
fn is_same_slot(pool: &[u8], a: &[u8], b: &[u8]) -> bool
    requires a { length a.now ≡ SLOT_LEN }
    requires b { length b.now ≡ SLOT_LEN }
    ensures { result ≡ option_eq same_pattern (slot_in pool.now a.now) (slot_in pool.now b.now) }
{
    if a[0] == ABSENT || b[0] == ABSENT {
        a[0] == ABSENT && b[0] == ABSENT
    } else {
        is_same_pattern(pool, a, b)
    }
}

/// Whether the slots from the third on are the same.
#[tactic(auto, using(crate::proofs::RecordRepeats::repeats))]
fn are_later_same(pool: &[u8], before: &[u8], bytes: &[u8]) -> bool
    requires before { length before.now ≡ RECORD_LEN }
    requires len { length bytes.now ≡ RECORD_LEN }
    ensures { result ≡ same_from pool.now before.now bytes.now 2 6 }
{
    for j in 2..8 {
        if !is_same_slot(pool, slot(before, j), slot(bytes, j)) {
            return false;
        }
    }
    true
}

/// Whether the first slots are the same, there is no second one, and the later ones are the same.
fn are_slots_repeated(pool: &[u8], before: &[u8], bytes: &[u8]) -> bool
    requires before { length before.now ≡ RECORD_LEN }
    requires len { length bytes.now ≡ RECORD_LEN }
    ensures { result
        ≡ (same_at pool.now before.now bytes.now 0
        && ((slice_index (slot_at (drop 2 bytes.now) 1) 0 == 0)
        && same_from pool.now before.now bytes.now 2 6)) }
{
    is_same_slot(pool, slot(before, 0), slot(bytes, 0))
        && slot(bytes, 1)[0] == ABSENT
        && are_later_same(pool, before, bytes)
}

/// Whether a record has the patterns of the one before it, without that one's pattern for exactly
/// one.
fn is_repeating(pool: &[u8], before: &[u8], bytes: &[u8]) -> bool
    requires before { length before.now ≡ RECORD_LEN }
    requires len { length bytes.now ≡ RECORD_LEN }
    ensures { result ≡ is_repeated pool.now (Some before.now) bytes.now }
{
    are_slots_repeated(pool, before, bytes)
}

/// Checks a record.
fn check_record<P: PatternBackend>(
    pool: &[u8],
    pool_start: usize,
    before: Option<&[u8]>,
    at: usize,
    sum: usize,
    bytes: &[u8],
) -> Result<usize, Damaged>
    requires len { length bytes.now ≡ RECORD_LEN }
    requires before { IfSome before (λ b. length b.now ≡ RECORD_LEN) }
    requires room { at + RECORD_LEN < 2 ^ 64 }
    requires pool_room { pool_start + 2 ^ 16 < 2 ^ 64 }
    requires sum_room { sum ≤ length pool.now }
    ensures inside { IfOk result (λ n. n ≤ length pool.now) }
    ensures gives { GivesNumber result
        (record_step P.accepted pool.now pool_start
        (option_map (λ b. b.now) before.entry) at sum bytes.now) }
{
    let log10_type = bytes[0];
    let exponent = bytes[1];
    if let Some(before) = before {
        if log10_type <= before[0] {
            return Err(Damaged { byte: at });
        }
    }
    if exponent > log10_type || log10_type - exponent > MAX_ZEROS {
        return Err(Damaged { byte: at + 1 });
    }
    if let Some(before) = before {
        if exponent < before[1] {
            return Err(Damaged { byte: at + 1 });
        }
    }
    let total = check_slots::<P>(pool, pool_start, at + 2, sum, &bytes[2..])?;
    if let Some(before) = before {
        if is_repeating(pool, before, bytes) {
            return Err(Damaged { byte: at });
        }
    }
    Ok(total)
}

/// Checks all records.
#[tactic(auto, using(crate::proofs::TableLoops::records_loop))]
fn check_records<P: PatternBackend>(
    pool: &[u8],
    pool_start: usize,
    count: usize,
    records: &[u8],
) -> Result<usize, Damaged>
    requires len { RECORD_LEN * count ≤ length records.now }
    requires few { count ≤ 256 }
    requires pool_room { pool_start + 2 ^ 16 < 2 ^ 64 }
    ensures inside { IfOk result (λ n. n ≤ length pool.now) }
    ensures gives { GivesNumber result
        (records_step P.accepted pool.now pool_start count None 4 0 records.now) }
{
    let mut total = 0;
    let mut before = None;
    for i in 0..count {
        let record = &records[RECORD_LEN * i..RECORD_LEN * i + RECORD_LEN];
        total = check_record::<P>(
            pool,
            pool_start,
            before,
            HEAD_LEN + RECORD_LEN * i,
            total,
            record,
        )?;
        before = Some(record);
    }
    Ok(total)
}

/// Checks that the bytes are those of a table; else reports the byte of the first damage.
pub(crate) fn check<P: PatternBackend>(bytes: &[u8]) -> Result<(), Damaged>
    ensures { Passes result (table_step P.accepted bytes.now) }
{
    if bytes.len() < HEAD_LEN {
        return Err(Damaged { byte: bytes.len() });
    }
    let count = number_at(bytes, 0);
    if count > MAX_ENTRIES {
        return Err(Damaged { byte: 0 });
    }
    let pool_len = number_at(bytes, 2);
    let pool_start = HEAD_LEN + RECORD_LEN * count;
    if bytes.len() != pool_start + pool_len {
        return Err(Damaged {
            byte: bytes.len().min(pool_start + pool_len),
        });
    }
    let total = check_records::<P>(&bytes[pool_start..], pool_start, count, &bytes[HEAD_LEN..])?;
    if total != pool_len {
        return Err(Damaged {
            byte: pool_start + total,
        });
    }
    Ok(())
}
