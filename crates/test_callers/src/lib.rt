//! The tests that are no rows: texts with parts, sinks, readers and writers that fail, providers of a test's own,
//! callers of the laws, values under a width and a fill. The library itself offers nothing. The rows
//! are in `rows_numbers`, `rows_formats` and `rows_reports`.
//!
//! Each test holds whichever single allocation fails: a call gives its usual answer or runs out of
//! memory, and the same call then gives its usual answer.
#![tactic(auto)]

#[cfg(test)]
mod annotated;
#[cfg(test)]
mod decimal;
#[cfg(test)]
mod dimension;
#[cfg(test)]
mod numbers;
#[cfg(test)]
mod reports;
#[cfg(test)]
mod styled;
