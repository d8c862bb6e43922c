//! Columns by the names of the header.

ghost use Rattle.std.specs.Prelude.{◌≡◌, ◌++◌, IfNone, IfOk, map, nat_eq, option_map, string_bytes};
ghost use Rattle.std.specs.Cmp.Lexicographic.{pointwise};
ghost use Rattle.locnum_lines.specs.Named.{column_from, columns_named, missing_name};

use crate::settings::FieldRange;
use std::alloc::AllocError;

/// Whether a column has this name.
fn is_named(column: &[u8], name: &str) -> bool
    ensures { result ≡ pointwise nat_eq column.now name.now }
{
    column == name.as_bytes()
}

/// The number of the first column of this name, from 1 on.
#[tactic(auto, unfolding(crate::specs::Named::column_from))]
fn column_of(name: &str, header: &[Vec<u8>]) -> Option<usize>
    ensures { result ≡ column_from 1 name.now (map (λ v. v.items) header.now) }
{
    let mut index = 1;
    let mut left = header;
    while let Some((column, rest)) = left.split_first() {
        if is_named(column, name) {
            return Some(index);
        }
        index += 1;
        left = rest;
    }
    None
}

/// Appends the columns of these names. The result is the first name that is no column's.
#[tactic(auto, unfolding(crate::specs::Named::columns_named, crate::specs::Named::missing_name))]
pub(crate) fn push_columns<'a>(
    names: &'a [String],
    header: &[Vec<u8>],
    columns: &mut Vec<FieldRange>,
) -> Result<Option<&'a str>, AllocError>
    ensures missing { IfOk result (λ name. option_map (λ t. t.now) name
        ≡ missing_name (map (λ v. v.items) header.now) (map string_bytes names.now)) }
    ensures found { IfOk result (λ name. IfNone name (columns.new.items ≡ columns.old.items
        ++ columns_named (map (λ v. v.items) header.now) (map string_bytes names.now))) }
{
    let mut left = names;
    while let Some((name, rest)) = left.split_first() {
        let Some(index) = column_of(name, header) else {
            return Ok(Some(name));
        };
        columns.push(FieldRange {
            first: index,
            last: index,
        })?;
        left = rest;
    }
    Ok(None)
}
