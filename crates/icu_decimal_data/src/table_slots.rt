//! The slots of entries in the byte string of a compact table.

#![tactic(auto, using(crate::proofs::TableSearch::searching))]

ghost use Rattle.std.specs.Prelude.{◌≡◌, ◌<◌, None, length, take, is_some, is_none, slice_index_or, option_map};
ghost use Rattle.std.specs.List.{list_all};
ghost use Rattle.icu_plurals.specs.Elements.{slots, presence, selected, sole_value};
ghost use Rattle.icu_plurals.specs.Rules.{category_of};
ghost use Rattle.icu_pattern.specs.Refs.{text_of_ref};
ghost use Rattle.icu_decimal_data.specs.TableReading.{IsTableBytes, IsSearchable, count_in, entry_of, pool_in, slot_of};

use crate::table_bytes::{
    ABSENT, HEAD_LEN, RECORD_LEN, SLOT_LEN, SLOTS_START, literal_of, number_at, placeholder_of,
};
use icu_pattern::{PatternBackend, PatternRef};
use icu_plurals::{PluralOperands, PluralRules};
use std::str;

/// The pool: the bytes behind the records.
fn pool_of(bytes: &[u8]) -> &[u8]
    requires { IsSearchable bytes.now }
    ensures { result.now ≡ pool_in bytes.now }
{
    &bytes[HEAD_LEN + RECORD_LEN * number_at(bytes, 0)..]
}

/// The seven bytes of an entry's slot.
fn slot_of(bytes: &[u8], index: usize, slot: usize) -> &[u8]
    requires searchable { IsSearchable bytes.now }
    requires inside { index < count_in bytes.now }
    requires slot { slot < 8 }
    ensures bytes { result.now ≡ slot_of bytes.now index slot }
    ensures seven { length result.now ≡ SLOT_LEN }
{
    let start = SLOTS_START + RECORD_LEN * index + SLOT_LEN * slot;
    &bytes[start..start + SLOT_LEN]
}

/// Whether an entry has a pattern in a slot.
fn is_present<P: PatternBackend>(bytes: &[u8], index: usize, slot: usize) -> bool
    requires table { IsTableBytes P.accepted bytes.now }
    requires inside { index < count_in bytes.now }
    requires slot { slot < 8 }
    ensures { result ≡ is_some
        (slice_index_or (slots (entry_of bytes.now index).elements) slot None) }
{
    slot_of(bytes, index, slot)[0] != ABSENT
}

/// In which slots an entry has patterns.
fn presence<P: PatternBackend>(bytes: &[u8], index: usize) -> [bool; 8]
    requires table { IsTableBytes P.accepted bytes.now }
    requires inside { index < count_in bytes.now }
    ensures { result ≡ presence (entry_of bytes.now index).elements }
{
    [
        is_present::<P>(bytes, index, 0),
        is_present::<P>(bytes, index, 1),
        is_present::<P>(bytes, index, 2),
        is_present::<P>(bytes, index, 3),
        is_present::<P>(bytes, index, 4),
        is_present::<P>(bytes, index, 5),
        is_present::<P>(bytes, index, 6),
        is_present::<P>(bytes, index, 7),
    ]
}

/// The pattern in a slot of an entry. The literal isn't checked again to be UTF-8, which would cost
/// time for every number that is formatted: that it is UTF-8 is proved from `table`.
pub(crate) fn pattern_at<P: PatternBackend>(
    bytes: &[u8],
    index: usize,
    slot: usize,
) -> Option<PatternRef<'_, P>>
    requires table { IsTableBytes P.accepted bytes.now }
    requires inside { index < count_in bytes.now }
    requires slot { slot < 8 }
    ensures { option_map text_of_ref result
        ≡ slice_index_or (slots (entry_of bytes.now index).elements) slot None }
{
    let found = slot_of(bytes, index, slot);
    if found[0] == ABSENT {
        return None;
    }
    let literal = unsafe { str::from_utf8_unchecked(literal_of(pool_of(bytes), found)) };
    match PatternRef::try_new(placeholder_of(found), literal) {
        Ok(pattern) => Some(pattern),
        Err(_) => unreachable!(),
    }
}

/// Whether an entry has a pattern for all numbers and no other.
#[tactic(auto, using(crate::proofs::TableSlots::sole_steps))]
fn has_no_other<P: PatternBackend>(bytes: &[u8], index: usize) -> bool
    requires table { IsTableBytes P.accepted bytes.now }
    requires inside { index < count_in bytes.now }
    ensures { result ≡ list_all is_none (take 7 (slots (entry_of bytes.now index).elements)) }
{
    for slot in 0..7 {
        if is_present::<P>(bytes, index, slot) {
            return false;
        }
    }
    true
}

/// The pattern of an entry that has one for all numbers and no other.
pub(crate) fn sole_pattern<P: PatternBackend>(
    bytes: &[u8],
    index: usize,
) -> Option<PatternRef<'_, P>>
    requires table { IsTableBytes P.accepted bytes.now }
    requires inside { index < count_in bytes.now }
    ensures { option_map text_of_ref result ≡ sole_value (entry_of bytes.now index).elements }
{
    if has_no_other::<P>(bytes, index) {
        pattern_at(bytes, index, 7)
    } else {
        None
    }
}

/// The pattern of an entry for a number of these operands.
pub(crate) fn pick<'a, P: PatternBackend>(
    bytes: &'a [u8],
    index: usize,
    operands: &PluralOperands,
    rules: &PluralRules,
) -> PatternRef<'a, P>
    requires table { IsTableBytes P.accepted bytes.now }
    requires inside { index < count_in bytes.now }
    ensures { text_of_ref result ≡ selected (entry_of bytes.now index).elements operands.now
        (category_of rules.now operands.now) }
{
    let slot = rules.slot_for(operands, &presence::<P>(bytes, index));
    match pattern_at(bytes, index, slot as usize) {
        Some(pattern) => pattern,
        None => unreachable!(),
    }
}
