//! The text between the two numbers of a range.

ghost use Rattle.std.specs.Prelude.{◌≡◌, List, ℕ, MatchOption, if◌then◌else◌};
ghost use Rattle.icu_ranges.specs.Separator.{IsRangePattern, plain_events, space_if, spaced_events};

use crate::edges::ink_at_edges;
use crate::error::RangePatternError;
use std::alloc::{AllocError, Global};
use std::marker::Model;
use writeable::{EventWriter, WriteFault};

/// The pattern of ranges: the separator between two numbers, as `–` of `{0}–{1}` (this project's
/// own).
///
/// Between two texts that aren't both bare numbers the separator has a space on each side on which
/// it has no white space of its own, as in `-3 – 5`.
#[derive(Drop)]
pub struct RangePattern {
    separator: String,
    space_before: bool,
    space_after: bool,
    approximately_sign: String,
}

/// The approximately sign of CLDR's root.
const ROOT_APPROXIMATELY_SIGN: &str = "~";

impl Model for RangePattern {
    ghost use Rattle.icu_ranges.specs.Separator.{Separator};
    ghost use Rattle.std.specs.String.{string_bytes};

    ghost Value = { Separator };

    ghost view = { λ p. record {
      text = string_bytes p.separator;
      space_before = p.space_before;
      space_after = p.space_after;
      approximately = string_bytes p.approximately_sign;
    } };
}

/// The separator in the text of a range pattern.
fn separator_in(text: &str) -> Option<&str>
    ensures { MatchOption result ((s : List ℕ) → ¬ (IsRangePattern text.now s))
        (λ s. IsRangePattern text.now s.now) }
{
    let Some((start, rest)) = text.split_once('}') else {
        return None;
    };
    let Some((separator, end)) = rest.split_once('{') else {
        return None;
    };
    if start != "{0" {
        return None;
    }
    if end != "1}" {
        return None;
    }
    if separator.is_empty() {
        return None;
    }
    match separator.split_once('}') {
        Some(_) => None,
        None => Some(separator),
    }
}

impl RangePattern {
    ghost use Rattle.std.specs.Prelude.{◌≡◌, List, ℕ, IfOk, IsErrOf};
    ghost use Rattle.std.specs.String.{string_bytes};
    ghost use Rattle.icu_ranges.specs.Separator.{IsRangePattern, separator_of, with_approximately};

    /// The pattern of a text: `{0}`, a separator without braces, and `{1}`. Any other text is a
    /// `BadRangePattern`. The approximately sign is `~`.
    // promise: Just the other texts are rejected.
    // mutations: parse_empty_separator_accepted, parse_brace_in_the_separator
    pub fn parse(alloc: Global, text: &str) -> Result<Self, RangePatternError>
        ensures read { IfOk result (λ p. (s : List ℕ) × IsRangePattern text.now s
            × (p ≡ separator_of s)) }
        ensures rejected { IsErrOf result RangePatternError.BadRangePattern →
            (s : List ℕ) → ¬ (IsRangePattern text.now s) }
    {
        let Some(separator) = separator_in(text) else {
            return Err(RangePatternError::BadRangePattern);
        };
        let (space_before, space_after) = ink_at_edges(separator);
        Ok(RangePattern {
            separator: String::from_str(alloc, separator)?,
            space_before,
            space_after,
            approximately_sign: String::from_str(alloc, ROOT_APPROXIMATELY_SIGN)?,
        })
    }

    /// The separator.
    pub fn separator(&self) -> &str
        ensures { result.now ≡ self.now.text }
    {
        self.separator.as_str()
    }

    /// The pattern with another approximately sign, as `≈`.
    // promise: Another approximately sign leaves the separator.
    // mutations: approximately_sign_of_a_pattern_not_replaced
    pub fn with_approximately_sign(mut self, sign: String) -> Self
        ensures { result ≡ with_approximately (string_bytes sign) self }
    {
        self.approximately_sign = sign;
        self
    }

    /// The sign that is written where both texts of a range are equal, if
    /// [`RangeIdentityFallback::Approximately`] is wanted there. It is `~` if none was given.
    ///
    /// [`RangeIdentityFallback::Approximately`]: crate::RangeIdentityFallback::Approximately
    pub fn approximately_sign(&self) -> &str
        ensures { result.now ≡ self.now.approximately }
    {
        self.approximately_sign.as_str()
    }

    /// A copy of the pattern, with its own memory.
    pub fn copy(&self, alloc: Global) -> Result<Self, AllocError>
        ensures { IfOk result (λ p. p ≡ self.now) }
    {
        Ok(RangePattern {
            separator: String::from_str(alloc, self.separator.as_str())?,
            space_before: self.space_before,
            space_after: self.space_after,
            approximately_sign: String::from_str(alloc, self.approximately_sign.as_str())?,
        })
    }
}

/// Writes a space, or nothing.
fn write_space_if<K: EventWriter>(wanted: bool, out: &mut K) -> Result<(), WriteFault>
    ensures { K.wrote out.old result (space_if wanted) out.new }
{
    if wanted { out.character(' ') } else { Ok(()) }
}

/// Writes the separator, plain or with spaces around it.
pub(crate) fn write_separator<K: EventWriter>(
    pattern: &RangePattern,
    is_plain: bool,
    out: &mut K,
) -> Result<(), WriteFault>
    ensures { K.wrote out.old result
        (if is_plain then plain_events pattern.now else spaced_events pattern.now) out.new }
{
    if is_plain {
        return out.text(pattern.separator.as_str());
    }
    write_space_if(pattern.space_before, out)?;
    out.text(pattern.separator.as_str())?;
    write_space_if(pattern.space_after, out)
}
