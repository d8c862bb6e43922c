//! The names that are most like another one.

use number_forms::push_reported;
use std::alloc::{AllocError, Global};
use std::cmp::Ordering;
use strsim::jaro_winkler;

/// How many names a note has at most.
const MOST: usize = 5;

/// The names with how alike each is to another one, the nearest first, and else in their order.
fn by_likeness<'a>(
    alloc: Global,
    names: &[&'a str],
    wanted: &str,
) -> Result<Vec<(f64, &'a str)>, AllocError> {
    let mut near = Vec::new(alloc);
    for name in names {
        near.push((jaro_winkler(alloc, name, wanted)?, *name))?;
    }
    near.sort_by(|first, second| {
        let order = second.0.partial_cmp(&first.0);
        order.unwrap_or(Ordering::Equal)
    })?;
    Ok(near)
}

/// Appends names with commas between them; two dots where there are more.
fn push_names(names: &[(f64, &str)], out: &mut Vec<u8>) -> Result<(), AllocError> {
    for (index, entry) in names.iter().enumerate() {
        if index > 0 {
            out.extend_from_slice(b", ")?;
        }
        if index == MOST {
            return out.extend_from_slice(b"..");
        }
        push_reported(entry.1.as_bytes(), out)?;
    }
    Ok(())
}

/// Appends the names that are nearest to another one, or that there are none.
pub(crate) fn push_nearest(
    alloc: Global,
    names: &[&str],
    wanted: &str,
    out: &mut Vec<u8>,
) -> Result<(), AllocError> {
    if names.is_empty() {
        return out.extend_from_slice(b"none");
    }
    push_names(&by_likeness(alloc, names, wanted)?, out)
}
