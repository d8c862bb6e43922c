//! From bytes to bytes, without a reader or a writer.

ghost use Rattle.std.specs.Prelude.{◌≡◌, ◌+◌, ◌<◌, ◌≤◌, ◌++◌, take, drop, length, Err, IfErr, IfOk, OnOk, OnErr};
ghost use Rattle.decimal_lines.specs.LineResults.{text_result};
ghost use Rattle.decimal_lines.specs.Filled.{HasRoomLeft, HoldsAllThatFit, HoldsWholeLines, IsFilled, IsFirstLine};
ghost use Rattle.decimal_lines.specs.Lines.{line_output, output_of};

use crate::line::push_line;
use crate::mode::Mode;
use memchr::memchr;
use std::alloc::Global;
use thiserror::Error;

/// Why an output doesn't hold the answers to all lines.
#[derive(Clone, Copy, Debug, PartialEq, Eq, Error)]
pub enum FillError {
    /// The answer to the next line has no room behind what is written.
    #[error("the output is too small")]
    TooSmall,
    /// An allocation failed.
    #[error("out of memory")]
    OutOfMemory,
}

/// How far an output is filled (this project's own).
#[derive(Clone, Copy, Debug, PartialEq, Eq)]
pub struct Filled {
    /// How many bytes are written, from the front of the output; they end with a line.
    pub written: usize,
    /// Whether these bytes are the answers to all lines, or why not.
    pub outcome: Result<(), FillError>,
}

/// The first line of some bytes, without its line feed, and what follows.
pub(crate) fn first_line(bytes: &[u8]) -> (&[u8], &[u8])
    ensures { IsFirstLine bytes.now result.0.now result.1.now }
{
    match memchr(b'\n', bytes) {
        Some(n) => {
            let (line, after) = bytes.split_at(n);
            (line, after.split_at(1).1)
        }
        None => bytes.split_at(bytes.len()),
    }
}

/// Copies a text to a byte offset of the output, if it fits. The result is where it ends.
pub(crate) fn put(output: &mut [u8], at: usize, text: &[u8]) -> Result<usize, FillError>
    requires { at ≤ length output.old }
    ensures fits { IfOk result (λ end. (end ≡ at + length text.now)
        × (at + length text.now ≤ length output.old)) }
    ensures bytes { OnOk result (output.new ≡ take at output.old ++ text.now
        ++ drop (at + length text.now) output.old) }
    ensures too_small { IfErr result (λ error. (error ≡ FillError.TooSmall)
        × (length output.old < at + length text.now)) }
    ensures unchanged { OnErr result (output.new ≡ output.old) }
{
    if text.len() > output.len() - at {
        return Err(FillError::TooSmall);
    }
    let end = at + text.len();
    output[at..end].copy_from_slice(text);
    Ok(end)
}

/// Writes the answer to a line at a byte offset of the output, if it fits. The result is where it
/// ends. A full output is reported before any allocation.
#[tactic(auto, using(crate::proofs::FilledLines::line_some))]
fn put_line(
    alloc: Global,
    mode: &Mode,
    line: &[u8],
    text: &mut Vec<u8>,
    output: &mut [u8],
    at: usize,
) -> Result<usize, FillError>
    requires { at ≤ length output.old }
    ensures fits { IfOk result (λ end. at + length (line_output (text_result mode.now) line.now)
        ≤ length output.old) }
    ensures bytes { OnOk result (output.new ≡ take at output.old
        ++ line_output (text_result mode.now) line.now
        ++ drop (at + length (line_output (text_result mode.now) line.now)) output.old) }
    ensures end { IfOk result (λ end.
        end ≡ at + length (line_output (text_result mode.now) line.now)) }
    ensures unchanged { OnErr result (output.new ≡ output.old) }
    ensures too_small { result ≡ Err FillError.TooSmall
        → length output.old < at + length (line_output (text_result mode.now) line.now) }
    ensures memory { result ≡ Err FillError.OutOfMemory → at < length output.old }
{
    if at == output.len() {
        return Err(FillError::TooSmall);
    }
    text.clear();
    if push_line(alloc, mode, line, text).is_err() {
        return Err(FillError::OutOfMemory);
    }
    put(output, at, text)
}

/// Formats all lines of the input into the output: for each line the decimal in the mode's form, or
/// an error line, and a line feed (this project's own).
///
/// Lines are those of [`run`](crate::run). An output that is too small holds the answers to as many
/// lines as fit. If an allocation fails, `OutOfMemory` is reported even if the next answer
/// wouldn't fit; but a full output is reported as `TooSmall`.
// promise: If it reports `Ok`, the output is that of the whole input.
// mutations: filling_all_that_is_left_as_one_line
// promise: Else the output has whole lines of the input's beginning.
// mutations: filling_at_the_end_of_the_room
pub fn format_lines(alloc: Global, mode: &Mode, input: &[u8], output: &mut [u8]) -> Filled
    // The output of the whole input was written.
    ensures ok { OnOk result.outcome
        (IsFilled output.old output.new (output_of (text_result mode.now) input.now)
        result.written) }

    // What was written is the output of whole lines at the input's beginning;
    ensures err { OnErr result.outcome
        (HoldsWholeLines (text_result mode.now) input.now output.old output.new result.written) }

    // the output is too small for the whole, and for the next line's answer.
    ensures too_small { result.outcome ≡ Err FillError.TooSmall
        → length output.old < length (output_of (text_result mode.now) input.now) }
    ensures full { result.outcome ≡ Err FillError.TooSmall
        → HoldsAllThatFit (text_result mode.now) input.now output.old output.new result.written }

    // If memory runs out, a line is left, and so is some room.
    ensures memory { result.outcome ≡ Err FillError.OutOfMemory
        → HasRoomLeft (text_result mode.now) input.now output.old output.new result.written }
{
    let mut text = Vec::new(alloc);
    let mut written = 0;
    let mut left = input;
    while !left.is_empty() {
        let (line, rest) = first_line(left);
        match put_line(alloc, mode, line, &mut text, output, written) {
            Ok(end) => written = end,
            Err(error) => {
                return Filled {
                    written,
                    outcome: Err(error),
                };
            }
        }
        left = rest;
    }
    Filled {
        written,
        outcome: Ok(()),
    }
}
