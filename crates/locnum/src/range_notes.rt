//! The notes of ranges of fields.

use locnum_lines::FoundNumber;
use number_forms::push_reported;
use number_ranges::RangeTextError;
use std::alloc::{AllocError, Global};

/// What stands behind the line of a place such as `line 2, field 3 (net)`.
fn field_of_place(place: &[u8]) -> &[u8] {
    let Some(comma) = place.iter().position(|byte| *byte == b',') else {
        return place;
    };
    match place.split_at(comma).1 {
        [b',', b' ', field @ ..] => field,
        behind => behind,
    }
}

/// The note of two fields whose range isn't written: where they stand, both texts, and why.
pub(crate) fn note_of_fields(
    alloc: Global,
    start: &FoundNumber,
    end: &FoundNumber,
    error: RangeTextError,
) -> Result<Vec<u8>, AllocError> {
    let mut note = Vec::from_slice(alloc, b"locnum: ")?;
    note.extend_from_slice(&start.position)?;
    note.extend_from_slice(b" to ")?;
    note.extend_from_slice(field_of_place(&end.position))?;
    note.extend_from_slice(b": ")?;
    push_reported(&start.text, &mut note)?;
    note.extend_from_slice(b"..")?;
    push_reported(&end.text, &mut note)?;
    note.extend_from_slice(b": ")?;
    note.extend_from_slice(format!(in alloc; "{error}")?.as_bytes())?;
    note.push(b'\n')?;
    Ok(note)
}
