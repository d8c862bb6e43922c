//! An input that is answered piece by piece, each in an output of limited size.

ghost use Rattle.std.specs.Prelude.{◌≡◌, ◌<◌, ◌⊎◌, Err, length, OnErr, OnOk};
ghost use Rattle.decimal_lines.specs.LineResults.{text_result};
ghost use Rattle.decimal_lines.specs.Lines.{line_output};
ghost use Rattle.decimal_lines.specs.Progress.{WritesFirst, NextNeeds};

use crate::filling::{FillError, first_line, put};
use crate::line::push_line;
use crate::mode::Mode;
use std::alloc::{AllocError, Global};

/// How far an input is answered (this project's own).
#[derive(Clone, Copy, Debug, PartialEq, Eq)]
pub struct Progress {
    /// How many bytes of the input are answered, from its front; they end with a line.
    pub consumed: usize,
    /// How many bytes of the output are written, from its front: the answers to the consumed bytes.
    pub written: usize,
    /// The length of the answer that didn't fit, with its line feed; else 0.
    pub needed: usize,
    /// Whether the whole input is answered, or why not.
    pub outcome: Result<(), FillError>,
}

/// Makes a buffer hold the answer to a line.
fn line_result(
    alloc: Global,
    mode: &Mode,
    line: &[u8],
    text: &mut Vec<u8>,
) -> Result<(), AllocError>
    ensures { OnOk result (text.new.items ≡ line_output (text_result mode.now) line.now) }
{
    text.clear();
    push_line(alloc, mode, line, text)
}

/// The progress in an input that isn't answered to its end.
fn stopped(consumed: usize, written: usize, needed: usize, error: FillError) -> Progress
    ensures { result ≡ record {
      consumed = consumed;
      written = written;
      needed = needed;
      outcome = Err error;
    } }
{
    Progress {
        consumed,
        written,
        needed,
        outcome: Err(error),
    }
}

/// Formats as many lines of the input into the output as fit. The result says how far that is, and
/// how much room the next answer needs (this project's own).
///
/// The caller continues behind the consumed bytes, with any output that has room for one answer.
/// Lines and answers are those of [`run`](crate::run). If an allocation fails, `OutOfMemory`
/// is reported even if the answer wouldn't fit.
// promise: The output is that of the lines that are consumed.
// mutations: some_next_line_told_as_consumed
// promise: With `TooSmall` the next answer has `needed` bytes.
// mutations: some_needed_without_its_line_feed
pub fn format_some(alloc: Global, mode: &Mode, input: &[u8], output: &mut [u8]) -> Progress
    // Whatever the outcome, what was written is the output of the consumed bytes.
    ensures holds { WritesFirst (text_result mode.now) input.now output.old output.new
        result.consumed result.written }

    // All of the input is consumed, or a line is left.
    ensures ok { OnOk result.outcome (result.consumed ≡ length input.now) }
    ensures err { OnErr result.outcome (result.consumed < length input.now) }

    // The next line's answer is `needed` bytes long and doesn't fit.
    ensures too_small { result.outcome ≡ Err FillError.TooSmall
        → NextNeeds (text_result mode.now) input.now output.old result.consumed result.written
        result.needed }

    // Otherwise `needed` is 0.
    ensures unneeded { (result.outcome ≡ Err FillError.TooSmall) ⊎ (result.needed ≡ 0) }
{
    let mut text = Vec::new(alloc);
    let mut written = 0;
    let mut left = input;
    while !left.is_empty() {
        let (line, rest) = first_line(left);
        let consumed = input.len() - left.len();
        let Ok(()) = line_result(alloc, mode, line, &mut text) else {
            return stopped(consumed, written, 0, FillError::OutOfMemory);
        };
        match put(output, written, &text) {
            Ok(end) => written = end,
            Err(error) => return stopped(consumed, written, text.len(), error),
        }
        left = rest;
    }
    Progress {
        consumed: input.len(),
        written,
        needed: 0,
        outcome: Ok(()),
    }
}
