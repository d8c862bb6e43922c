//! Why a number was not formatted.

use std::fmt::{self, InlineText, Write};
use std::marker::Model;
use thiserror::Error;

/// Why a number was not formatted.
#[derive(Clone, Copy, Debug, PartialEq, Eq, Error)]
pub enum FormatError {
    /// The nearest compact number is ten to the power 32768 or more.
    #[error("the compact number is too large")]
    Overflow,
    /// An allocation failed.
    #[error("out of memory")]
    OutOfMemory,
    /// The sink could not take the text.
    #[error("the sink could not take the text")]
    Sink,
}

/// How many bytes the text of a `CompactExponentError` has at most.
const LONGEST_TEXT: usize = 64;

/// The compact exponent given for a number isn't that of its magnitude (ICU4X
/// `CompactExponentError`). It is a small value that takes no memory.
#[derive(Clone, Copy, Debug)]
pub struct CompactExponentError {
    pub(crate) actual: u8,
    pub(crate) expected: u8,
    pub(crate) magnitude: i32,
}

impl Model for CompactExponentError {
    ghost use Rattle.icu_decimal.specs.ExponentMismatch.{ExponentMismatch};

    ghost Value = { ExponentMismatch };

    ghost view = { λ s. record {
      actual = s.actual;
      expected = s.expected;
      magnitude = s.magnitude;
    } };

    ghost inverse = { λ m. record {
      actual = m.actual;
      expected = m.expected;
      magnitude = m.magnitude;
    } };
}

impl fmt::Display for CompactExponentError {
    ghost use Rattle.std.specs.Prelude.{Some};
    ghost use Rattle.icu_decimal.specs.ExponentMismatch.{mismatch_text};

    ghost output = { λ mismatch. Some (mismatch_text mismatch) };

    ghost styled_output = { λ mismatch _. Some (mismatch_text mismatch) };

    // promise: The text has both exponents and the magnitude.
    // mutations: error_exponents_swapped, error_cut_by_a_width
    fn fmt<W: fmt::Write>(&self, f: &mut fmt::Formatter<W>) -> fmt::Result {
        let CompactExponentError {
            actual,
            expected,
            magnitude,
        } = *self;
        let mut text = InlineText::<LONGEST_TEXT>::new();
        write!(
            text,
            "Expected compact exponent {expected} for 10^{magnitude}, got {actual}"
        )?;
        f.write_str(text.as_str())
    }
}

impl std::error::Error for CompactExponentError {}
