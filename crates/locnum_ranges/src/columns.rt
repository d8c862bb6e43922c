//! Columns by the names of the header.

ghost use Rattle.std.specs.Prelude.{◌≡◌, IfOk, nat_eq};
ghost use Rattle.std.specs.Cmp.Lexicographic.{pointwise};
ghost use Rattle.locnum_ranges.specs.Contents.{column_named, name_in};

use crate::cutting::first_field;
use crate::naming::name_in;
use locnum_lines::Delimiter;
use std::alloc::{AllocError, Global};

/// Whether a field of the header gives this name.
fn is_named(
    alloc: Global,
    delimiter: Delimiter,
    name: &str,
    field: &[u8],
) -> Result<bool, AllocError>
    ensures { IfOk result (λ is. is ≡ pointwise nat_eq (name_in delimiter field.now) name.now) }
{
    let column = name_in(alloc, delimiter, field)?;
    Ok(column.as_slice() == name.as_bytes())
}

/// The number, from 1 on, of the first column that this record of a header gives the name (this
/// project's own).
// promise: It is the column that `--field` takes by this name.
// mutations: range_column_of_the_field_behind
pub fn column_named(
    alloc: Global,
    delimiter: Delimiter,
    name: &str,
    header: &[u8],
) -> Result<Option<usize>, AllocError>
    ensures { IfOk result (λ column.
        column ≡ column_named delimiter name.now header.now) }
{
    let mut next = Some(header);
    let mut index: usize = 1;
    while let Some(line) = next {
        let first = first_field(delimiter, line);
        if is_named(alloc, delimiter, name, first.text)? {
            return Ok(Some(index));
        }
        let Some(following) = index.checked_add(1) else {
            return Err(AllocError);
        };
        index = following;
        next = first.rest;
    }
    Ok(None)
}
