//! What patterns write with a value in their place.
mod filled;

use icu_pattern::{Pattern, PatternBackend, PatternError};
use std::alloc::Global;
use std::process::Abort;

/// What is answered for a pattern; the call is repeated if memory ran out.
fn judged<P: PatternBackend>(
    alloc: Global,
    placeholder: Option<usize>,
    literal: &str,
) -> Result<Pattern<P>, PatternError> {
    match Pattern::try_new(alloc, placeholder, literal) {
        Err(PatternError::OutOfMemory) => Pattern::try_new(alloc, placeholder, literal),
        answered => answered,
    }
}

/// The pattern, which the backend accepts.
fn pattern_of<P: PatternBackend>(
    rt: &impl Abort,
    alloc: Global,
    placeholder: Option<usize>,
    literal: &str,
) -> Pattern<P> {
    match judged(alloc, placeholder, literal) {
        Ok(pattern) => pattern,
        Err(_) => panic!(rt; "the pattern was refused"),
    }
}
