//! One number by a formatter that is kept, with the parts of its text.

ghost use Rattle.std.specs.Prelude.{◌≡◌, Ok, IfErr, IfOk, map};
ghost use Rattle.writeable.specs.PartSpans.{span};
ghost use Rattle.writeable.specs.Spans.{spans};
ghost use Rattle.decimal_lines.specs.SingleText.{IsRefusal};
ghost use Rattle.talmuiga_c.specs.Answers.{kept_events};
ghost use Rattle.talmuiga_c.specs.Marked.{HoldsSpans, IsShownInParts, numbered, part_number};

use crate::kept::Kept;
use crate::output::put_text;
use crate::status::{self, text_status};
use decimal_lines::{TextError, format_parts};
use std::alloc::Global;
use writeable::{Part, PartsText};

/// A part of a text.
#[repr(C)]
#[derive(Clone, Copy)]
pub struct Span {
    /// Its first byte.
    pub start: usize,
    /// The byte behind its last one.
    pub end: usize,
    /// Its number.
    pub part: u32,
}

/// A part that this version has no number for.
pub const OTHER: u32 = 0;

/// An affix of a minus.
pub const MINUS_SIGN: u32 = 1;

/// An affix of a plus.
pub const PLUS_SIGN: u32 = 2;

/// The digits in front of the decimal separator, with what separates their groups.
pub const INTEGER: u32 = 3;

/// The digits behind the decimal separator.
pub const FRACTION: u32 = 4;

/// A separator of groups.
pub const GROUP: u32 = 5;

/// The decimal separator.
pub const DECIMAL: u32 = 6;

/// The symbol or the name of a currency.
pub const CURRENCY: u32 = 7;

/// A percent sign.
pub const PERCENT_SIGN: u32 = 8;

/// A per mille sign.
pub const PER_MILLE_SIGN: u32 = 9;

/// The name of a unit.
pub const UNIT: u32 = 10;

/// The literal of a compact pattern.
pub const COMPACT: u32 = 11;

/// The number of a part, by its name.
#[tactic(auto, unfolding(crate::specs::Marked::part_number))]
fn part_number(name: &str) -> u32
    ensures { result ≡ part_number name.now }
{
    match name {
        "minusSign" => MINUS_SIGN,
        "plusSign" => PLUS_SIGN,
        "integer" => INTEGER,
        "fraction" => FRACTION,
        "group" => GROUP,
        "decimal" => DECIMAL,
        "currency" => CURRENCY,
        "percentSign" => PERCENT_SIGN,
        "perMilleSign" => PER_MILLE_SIGN,
        "unit" => UNIT,
        "compact" => COMPACT,
        _ => OTHER,
    }
}

/// A span as C sees it.
fn numbered(start: usize, end: usize, part: Part) -> Span
    ensures { result ≡ numbered (span (start, end, part)) }
{
    Span {
        start,
        end,
        part: part_number(part.value),
    }
}

/// Puts spans to the front of an array, if they fit, and answers how many they are.
fn put_spans(array: &mut [Span], found: &[(usize, usize, Part)]) -> usize
    ensures { HoldsSpans array.old array.new (map numbered (map span found.now)) result }
{
    if found.len() <= array.len() {
        for index in 0..found.len() {
            let (start, end, part) = found[index];
            array[index] = numbered(start, end, part);
        }
    }
    found.len()
}

/// What is shown for a text.
fn mark_text(alloc: Global, kept: &Kept, text: &[u8]) -> Result<PartsText, TextError>
    ensures ok { IfOk result (λ shown. kept_events kept.now text.now ≡ Ok shown.events) }
    ensures refused { IfErr result (λ error. IsRefusal (kept_events kept.now text.now) error) }
{
    match kept {
        Kept::ByWords(mode) => format_parts(alloc, mode, text),
        Kept::BySkeleton(form) => form.mark(alloc, text),
        Kept::WithRanges(form, _) => form.mark(alloc, text),
    }
}

/// What is shown for a text, and the spans of its parts.
fn marked(
    alloc: Global,
    kept: &Kept,
    text: &[u8],
) -> Result<(PartsText, Vec<(usize, usize, Part)>), TextError>
    ensures ok { IfOk result (λ shown. (kept_events kept.now text.now ≡ Ok shown.0.events)
        × (map span shown.1.items ≡ spans shown.0.events)) }
    ensures refused { IfErr result (λ error. IsRefusal (kept_events kept.now text.now) error) }
{
    match mark_text(alloc, kept, text) {
        Ok(shown) => match shown.spans(alloc) {
            Ok(found) => Ok((shown, found)),
            Err(_) => Err(TextError::OutOfMemory),
        },
        Err(error) => Err(error),
    }
}

/// Formats one text, and returns its parts; the text and the parts are written where each
/// has room.
pub fn format_parts_in(
    alloc: Global,
    kept: &Kept,
    text: &[u8],
    output: &mut [u8],
    length: &mut usize,
    spans: &mut [Span],
    count: &mut usize,
) -> u32
    ensures { IsShownInParts kept.now text.now output.old output.new length.new spans.old spans.new
        count.new result }
{
    match marked(alloc, kept, text) {
        Ok((shown, found)) => {
            *length = put_text(output, shown.text().as_bytes());
            *count = put_spans(spans, &found);
            if *length <= output.len() && *count <= spans.len() {
                status::DONE
            } else {
                status::OUTPUT_TOO_SMALL
            }
        }
        Err(error) => {
            *length = 0;
            *count = 0;
            text_status(error)
        }
    }
}
