//! How many rows of each call were tried.

use std::alloc::{AllocError, Global};

/// A call and how many of its rows were tried.
#[derive(Debug, Drop)]
pub(crate) struct Count {
    pub(crate) call: String,
    pub(crate) rows: usize,
}

/// Where a call stands among the counts.
fn index_of(counts: &[Count], call: &str) -> Option<usize> {
    counts.iter().position(|count| count.call.as_str() == call)
}

/// Counts a row of a call.
pub(crate) fn count_row(
    alloc: Global,
    counts: &mut Vec<Count>,
    call: &str,
) -> Result<(), AllocError> {
    match index_of(counts, call) {
        Some(index) => {
            if let Some(count) = counts.get_mut(index) {
                count.rows = count.rows.saturating_add(1);
            }
            Ok(())
        }
        None => Ok(counts.push(Count {
            call: String::from_str(alloc, call)?,
            rows: 1,
        })?),
    }
}
