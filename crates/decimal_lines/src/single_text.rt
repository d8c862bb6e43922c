//! A single text instead of a line: its characters, or its characters and parts.

ghost use Rattle.std.specs.Prelude.{◌≡◌, Ok, length, IfErr, IfOk, OnErr};
ghost use Rattle.decimal_lines.specs.SingleText.{HoldsIfRoom, HoldsEvents, IsRefusal, decimal_read, events_of};

use crate::mode::Mode;
use crate::showing::{mark_shown, push_shown};
use fixed_decimal::{Decimal, DecimalError};
use std::alloc::Global;
use thiserror::Error;
use writeable::PartsText;

/// Why a text has no formatted number.
#[derive(Clone, Copy, Debug, PartialEq, Eq, Error)]
pub enum TextError {
    /// The text isn't a decimal.
    #[error("not a decimal")]
    NotDecimal,
    /// It has a digit at a power of ten past the limits.
    #[error("too many digits")]
    TooManyDigits,
    /// Its nearest compact number is ten to the power 32768 or more.
    #[error("overflow")]
    Overflow,
    /// An allocation failed.
    #[error("out of memory")]
    OutOfMemory,
}

/// How many bytes beyond the argument's length are reserved for a text; a longer text asks for
/// more.
const ROOM: usize = 64;

/// The decimal that a text reads as.
pub fn read_decimal(alloc: Global, text: &[u8]) -> Result<Decimal, TextError>
    ensures ok { IfOk result (λ d. decimal_read text.now ≡ Ok (d.sign, d.absolute)) }
    ensures refused { IfErr result (λ error. IsRefusal (decimal_read text.now) error) }
{
    match Decimal::try_from_utf8(alloc, text) {
        Ok(decimal) => Ok(decimal),
        Err(DecimalError::Syntax) => Err(TextError::NotDecimal),
        Err(DecimalError::Limit) => Err(TextError::TooManyDigits),
        Err(DecimalError::OutOfMemory) => Err(TextError::OutOfMemory),
    }
}

/// Copies a text to the front of the output, if it fits.
fn put_front(output: &mut [u8], text: &[u8])
    ensures { HoldsIfRoom output.old output.new text.now (length text.now) }
{
    if text.len() <= output.len() {
        output[..text.len()].copy_from_slice(text);
    }
}

/// Writes what the mode shows for a text to the front of the output, if it fits. The result is its
/// length in bytes, whether or not it was written (this project's own).
///
/// The text is a decimal and nothing else: a line feed or a carriage return in it is rejected.
// promise: The output has the text of the number if it fits.
// mutations: text_room_told_as_its_length
#[tactic(auto, unfolding(crate::specs::SingleText::events_of))]
pub fn format_text(
    alloc: Global,
    mode: &Mode,
    text: &[u8],
    output: &mut [u8],
) -> Result<usize, TextError>
    // If the text fits, the output holds it, and else what it held before.
    ensures ok { IfOk result (λ n.
        HoldsEvents (events_of mode.now text.now) output.old output.new n) }

    // The text is rejected, or memory runs out.
    ensures refused { IfErr result (λ error. IsRefusal (events_of mode.now text.now) error) }
    ensures unchanged { OnErr result (output.new ≡ output.old) }
{
    let decimal = read_decimal(alloc, text)?;
    let Ok(mut shown) = Vec::with_capacity(alloc, text.len().saturating_add(ROOM)) else {
        return Err(TextError::OutOfMemory);
    };
    push_shown(alloc, mode, &decimal, &mut shown)?;
    put_front(output, &shown);
    Ok(shown.len())
}

/// What the mode shows for a text, with the byte offsets of its parts (this project's own).
///
/// The text is a decimal and nothing else, as for [`format_text`](crate::format_text). The parts
/// are those of `icu_decimal`; in a compact number the sign alone has a part.
// promise: The text has just the events of the number, with parts.
// mutations: parts_overflow_told_as_no_decimal
#[tactic(auto, unfolding(crate::specs::SingleText::events_of))]
pub fn format_parts(alloc: Global, mode: &Mode, text: &[u8]) -> Result<PartsText, TextError>
    ensures ok { IfOk result (λ parts. events_of mode.now text.now ≡ Ok parts.events) }
    ensures refused { IfErr result (λ error. IsRefusal (events_of mode.now text.now) error) }
{
    let decimal = read_decimal(alloc, text)?;
    mark_shown(alloc, mode, &decimal)
}
