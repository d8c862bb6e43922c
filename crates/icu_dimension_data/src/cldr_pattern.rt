//! Patterns of numbers as CLDR writes them (UTS 35 Part 3, Number Patterns).

use crate::error::PatternFault;
use crate::reading::{first_fault, read};
use crate::subpattern::Subpattern;
use std::alloc::Global;
use std::marker::Model;

/// A pattern of CLDR, as `¤#,##0.00;(¤#,##0.00)`: what stands around the number, and around a
/// negative number if that has a subpattern of its own. The digits and groups that the number part
/// asks for aren't kept.
#[derive(Drop)]
pub struct CldrPattern {
    pub(crate) first: Subpattern,
    pub(crate) second: Option<Subpattern>,
}

impl Model for CldrPattern {
    ghost use Rattle.icu_dimension_data.specs.Patterns.{PatternText};

    ghost Value = { PatternText };

    ghost view = { λ p. record { first = p.first; second = p.second } };
}

impl CldrPattern {
    ghost use Rattle.std.specs.Prelude.{◌≡◌, Ok, Err, IfOk, IsOkUnless, MatchResult};
    ghost use Rattle.icu_dimension_data.specs.Reading.{pattern_of};

    /// The pattern of a text. A text that is no pattern is rejected by its first fault from left to
    /// right, whether or not memory ran out; `OutOfMemory` is reported of patterns alone.
    ///
    /// A subpattern is what stands around its number part, a run of `#`, `0`, `,` and `.`; a second
    /// one may stand behind `;`. `¤` is the currency symbol, `-` and `+` the signs, `%` the percent
    /// sign; what stands in apostrophes is taken as it is, and two apostrophes are one. Other
    /// characters of the syntax are rejected, so that none is written by mistake.
    // promise: The pattern is the one that the text spells.
    // mutations: parse_second_subpattern_left_out
    // promise: A text that is no pattern is rejected by its first fault.
    // mutations: parse_unclosed_quote_accepted
    pub fn parse(alloc: Global, text: &str) -> Result<Self, PatternFault>
        ensures read { IfOk result (λ p. pattern_of text.now ≡ Ok p) }
        ensures refused { MatchResult (pattern_of text.now) (λ _.
            IsOkUnless result PatternFault.OutOfMemory) (λ fault. result ≡ Err fault) }
    {
        if let Some(fault) = first_fault(text) {
            return Err(fault);
        }
        read(alloc, text)
    }
}
