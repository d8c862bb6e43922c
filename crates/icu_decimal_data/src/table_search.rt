//! The records of a compact table in its bytes, and the search among them.

#![tactic(auto, using(crate::proofs::TableSearch::searching))]

ghost use Rattle.std.specs.Prelude.{◌≡◌, ◌+◌, ◌*◌, ◌<◌, nat_le};
ghost use Rattle.fixed_decimal.specs.Size.{finest, place};
ghost use Rattle.icu_decimal_data.specs.TableReading.{IsSearchable, IsReached, count_in, type_in, exponent_in};

use crate::table_bytes::{HEAD_LEN, RECORD_LEN, number_at};

/// The type of an entry.
pub(crate) fn type_at(bytes: &[u8], index: usize) -> u8
    requires searchable { IsSearchable bytes.now }
    requires inside { index < count_in bytes.now }
    ensures { result ≡ type_in bytes.now index }
{
    bytes[HEAD_LEN + RECORD_LEN * index]
}

/// The exponent of an entry.
pub(crate) fn exponent_at(bytes: &[u8], index: usize) -> u8
    requires searchable { IsSearchable bytes.now }
    requires inside { index < count_in bytes.now }
    ensures { result ≡ exponent_in bytes.now index }
{
    bytes[HEAD_LEN + RECORD_LEN * index + 1]
}

/// Whether a type isn't above a magnitude.
fn is_reached(log10_type: u8, magnitude: i32) -> bool
    ensures { result ≡ nat_le (log10_type + finest) (place magnitude) }
{
    log10_type as i32 <= magnitude
}

/// The number of entries whose type isn't above a magnitude.
pub(crate) fn reached(bytes: &[u8], magnitude: i32) -> usize
    requires { IsSearchable bytes.now }
    ensures { IsReached bytes.now (place magnitude) result }
{
    let mut low = 0;
    let mut high = number_at(bytes, 0);
    while low < high {
        let middle = low + (high - low) / 2;
        if is_reached(type_at(bytes, middle), magnitude) {
            low = middle + 1;
        } else {
            high = middle;
        }
    }
    low
}
