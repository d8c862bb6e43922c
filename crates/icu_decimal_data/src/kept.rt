//! The types of a map that a compact table keeps, and the errors of a map.

ghost use Rattle.std.specs.Prelude.{◌≡◌, ◌+◌, min};
ghost use Rattle.std.specs.Option.{option_map};
ghost use Rattle.icu_decimal_data.specs.Kept.{as_table, at};
ghost use Rattle.icu_decimal_data.specs.CompactFaults.{has_falling_exponents, fault_at, fault_of, slot_size, elements_size};
ghost use Rattle.icu_decimal_data.specs.KeptSince.{stays};

use crate::error::CompactError;
use icu_pattern::{Pattern, PatternBackend};
use icu_plurals::PluralElements;
use std::collections::BTreeMap;

/// The greatest length in bytes of all literals of the kept patterns together.
const MAX_LITERAL_BYTES: usize = 65535;

/// The greatest difference of a type and its exponent.
pub(crate) const MAX_ZEROS: u8 = 15;

pub(crate) type Elements<P> = PluralElements<Pattern<P>>;

/// Whether some exponent is below that of the preceding type.
fn exponents_fall<P: PatternBackend>(map: &BTreeMap<u8, (u8, Elements<P>)>) -> bool
    ensures { result ≡ has_falling_exponents (as_table map.now.entries) }
{
    let mut before = 0;
    for (_, value) in map {
        if value.0 < before {
            return true;
        }
        before = value.0;
    }
    false
}

/// The error of a type and its exponent, if there is one.
fn fault_at(log10_type: u8, exponent: u8) -> Option<CompactError>
    ensures { result ≡ fault_at log10_type exponent }
{
    if exponent > log10_type {
        Some(CompactError::ExponentAboveType)
    } else if log10_type - exponent > MAX_ZEROS {
        Some(CompactError::TooManyZeros)
    } else {
        None
    }
}

/// Whether elements are kept: they differ from the last kept ones or, before any is kept, from
/// `zero_magnitude`.
pub(crate) fn stays<P: PatternBackend>(
    zero_magnitude: Option<&Elements<P>>,
    last: Option<&Elements<P>>,
    elements: &Elements<P>,
) -> bool
    ensures { result ≡ stays (at zero_magnitude.entry) (at last.entry) elements.now }
{
    match (last, zero_magnitude) {
        (Some(last), _) => !last.equal_without_explicit_one(elements),
        (None, Some(zero)) => elements != zero,
        (None, None) => true,
    }
}

/// The length of a pattern's literal in bytes.
fn literal_size<P: PatternBackend>(slot: Option<&Pattern<P>>) -> usize
    ensures { result ≡ slot_size (option_map (λ p. p.now) slot.entry) }
{
    match slot {
        Some(pattern) => pattern.as_ref().literal().len(),
        None => 0,
    }
}

/// The size plus the length of all literals, at most `usize::MAX`.
fn with_literals<P: PatternBackend>(size: usize, elements: &Elements<P>) -> usize
    ensures { result ≡ min (size + elements_size elements.now) usize.MAX }
{
    let mut size = size;
    for slot in 0..8 {
        size = size.saturating_add(literal_size(elements.slot(slot)));
    }
    size
}

/// The first error of a map, if it has one.
pub(crate) fn first_fault<P: PatternBackend>(
    map: &BTreeMap<u8, (u8, Elements<P>)>,
    zero_magnitude: Option<&Elements<P>>,
) -> Option<CompactError>
    ensures { result ≡ fault_of (at zero_magnitude.entry) (as_table map.now.entries) }
{
    if exponents_fall(map) {
        return Some(CompactError::ExponentsFall);
    }
    let mut last = None;
    let mut size = 0;
    for (log10_type, value) in map {
        let elements = &value.1;
        if stays(zero_magnitude, last, elements) {
            if let Some(fault) = fault_at(*log10_type, value.0) {
                return Some(fault);
            }
            size = with_literals(size, elements);
            last = Some(elements);
        }
    }
    if size > MAX_LITERAL_BYTES {
        Some(CompactError::TooLarge)
    } else {
        None
    }
}
