//! The layout of a compact table in bytes.

ghost use Rattle.std.specs.Prelude.{◌≡◌, ℕ, ◌+◌, ◌<◌, ◌^◌, length, slice_index};
ghost use Rattle.icu_decimal_data.specs.TableReading.{two_byte_number, placeholder_in, pattern_in};

/// The length of the two numbers in front: the number of entries, and the length of the pool.
pub(crate) const HEAD_LEN: usize = 4;

/// The length of an entry's record: its type, its exponent and eight slots.
pub(crate) const RECORD_LEN: usize = 58;

/// Where the first slot of the first record begins.
pub(crate) const SLOTS_START: usize = 6;

/// The length of a record's eight slots.
pub(crate) const SLOTS_LEN: usize = 56;

/// The length of a slot: its kind, and three numbers, which are the start and the length of its
/// literal in the pool, and its place.
pub(crate) const SLOT_LEN: usize = 7;

/// The kind of a slot without a pattern.
pub(crate) const ABSENT: u8 = 0;

/// The kind of a slot whose pattern has no place.
pub(crate) const WITHOUT_PLACEHOLDER: u8 = 1;

/// The kind of a slot whose pattern has a place.
pub(crate) const WITH_PLACEHOLDER: u8 = 2;

/// States that bytes are below 256. It does nothing: it is its contract.
pub(crate) fn are_below_256(bytes: &[u8])
    ensures { (i : ℕ) → slice_index bytes.now i < 256 }
{
    let _ = bytes;
}

/// The number in two bytes, the low byte first.
pub(crate) fn number_at(bytes: &[u8], at: usize) -> usize
    requires { at + 1 < length bytes.now }
    ensures is { result ≡ two_byte_number bytes.now at }
    ensures small { result < 2 ^ 16 }
{
    bytes[at] as usize + 256 * (bytes[at + 1] as usize)
}

/// The place of a slot's pattern.
pub(crate) fn placeholder_of(slot: &[u8]) -> Option<usize>
    requires { length slot.now ≡ SLOT_LEN }
    ensures { result ≡ placeholder_in slot.now }
{
    if slot[0] == WITH_PLACEHOLDER {
        Some(number_at(slot, 5))
    } else {
        None
    }
}

/// The literal of a slot's pattern, as far as the pool goes.
pub(crate) fn literal_of<'a>(pool: &'a [u8], slot: &[u8]) -> &'a [u8]
    requires { length slot.now ≡ SLOT_LEN }
    ensures { result.now ≡ (pattern_in pool.now slot.now).literal }
{
    let start = number_at(slot, 1);
    let len = number_at(slot, 3);
    let rest = &pool[start.min(pool.len())..];
    &rest[..len.min(rest.len())]
}
