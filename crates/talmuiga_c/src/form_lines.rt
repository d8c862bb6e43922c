//! Lines by a form, as `decimal_lines` answers lines by a mode.

ghost use Rattle.std.specs.Prelude.{◌≡◌, ◌+◌, ◌≤◌, ◌<◌, ◌++◌, ◌⊎◌, Err, IfErr, IfOk, OnErr, OnOk, drop, length, take};
ghost use Rattle.decimal_lines.specs.Filled.{IsFirstLine};
ghost use Rattle.decimal_lines.specs.Lines.{line_output, without_return};
ghost use Rattle.decimal_lines.specs.Progress.{WritesFirst, NextNeeds};
ghost use Rattle.talmuiga_c.specs.Answers.{form_result};

use decimal_lines::{FillError, Progress, TextError};
use memchr::memchr;
use number_forms::Form;
use std::alloc::{AllocError, Global};

/// The first line of some bytes, without its line feed, and what follows.
fn first_line(bytes: &[u8]) -> (&[u8], &[u8])
    ensures { IsFirstLine bytes.now result.0.now result.1.now }
{
    match memchr(b'\n', bytes) {
        Some(n) => {
            let (line, after) = bytes.split_at(n);
            (line, after.split_at(1).1)
        }
        None => bytes.split_at(bytes.len()),
    }
}

/// The line without one carriage return at its end.
#[tactic(auto, using(decimal_lines::proofs::Returns::returns_dropped))]
fn without_return(line: &[u8]) -> &[u8]
    ensures { result.now ≡ without_return line.now }
{
    if !line.is_empty() && line[line.len() - 1] == b'\r' {
        &line[..line.len() - 1]
    } else {
        line
    }
}

/// Appends the answer to a text; without memory some bytes of it may stand there.
fn push_answer(alloc: Global, form: &Form, text: &[u8], out: &mut Vec<u8>) -> Result<(), AllocError>
    ensures { OnOk result (out.new.items ≡ out.old.items ++ form_result form.now text.now) }
{
    match form.push(alloc, text, out) {
        Ok(()) => Ok(()),
        Err(TextError::NotDecimal) => out.extend_from_slice(b"error: not a decimal"),
        Err(TextError::TooManyDigits) => out.extend_from_slice(b"error: too many digits"),
        Err(TextError::Overflow) => out.extend_from_slice(b"error: overflow"),
        Err(TextError::OutOfMemory) => Err(AllocError),
    }
}

/// Makes a buffer hold the answer to a line.
#[tactic(auto, unfolding(decimal_lines::specs::Lines::line_output))]
fn answer_line(
    alloc: Global,
    form: &Form,
    line: &[u8],
    text: &mut Vec<u8>,
) -> Result<(), AllocError>
    ensures { OnOk result (text.new.items ≡ line_output (form_result form.now) line.now) }
{
    text.clear();
    push_answer(alloc, form, without_return(line), text)?;
    text.push(b'\n')?;
    Ok(())
}

/// Copies a text to a byte offset of the output, if it fits. The result is where it ends.
fn put(output: &mut [u8], at: usize, text: &[u8]) -> Result<usize, FillError>
    requires { at ≤ length output.old }
    ensures fits { IfOk result (λ end. (end ≡ at + length text.now)
        × (at + length text.now ≤ length output.old)) }
    ensures bytes { OnOk result (output.new ≡ take at output.old ++ text.now
        ++ drop (at + length text.now) output.old) }
    ensures too_small { IfErr result (λ error. (error ≡ FillError.TooSmall)
        × (length output.old < at + length text.now)) }
    ensures unchanged { OnErr result (output.new ≡ output.old) }
{
    if text.len() > output.len() - at {
        return Err(FillError::TooSmall);
    }
    let end = at + text.len();
    output[at..end].copy_from_slice(text);
    Ok(end)
}

/// The progress in an input that isn't answered to its end.
fn stopped(consumed: usize, written: usize, needed: usize, error: FillError) -> Progress
    ensures { result ≡ record {
      consumed = consumed;
      written = written;
      needed = needed;
      outcome = Err error;
    } }
{
    Progress {
        consumed,
        written,
        needed,
        outcome: Err(error),
    }
}

/// Formats as many lines of the input into the output as fit. The result says how far that is, and
/// how much room the next answer needs.
///
/// Lines and error lines are those of `decimal_lines::format_some`.
pub fn format_some_by(alloc: Global, form: &Form, input: &[u8], output: &mut [u8]) -> Progress
    // Whatever the outcome, what was written is the output of the consumed bytes.
    ensures holds { WritesFirst (form_result form.now) input.now output.old output.new
        result.consumed result.written }

    // All of the input is consumed, or a line is left.
    ensures ok { OnOk result.outcome (result.consumed ≡ length input.now) }
    ensures err { OnErr result.outcome (result.consumed < length input.now) }

    // The next line's answer is `needed` bytes long and doesn't fit.
    ensures too_small { result.outcome ≡ Err FillError.TooSmall
        → NextNeeds (form_result form.now) input.now output.old result.consumed result.written
        result.needed }

    // Otherwise `needed` is 0.
    ensures unneeded { (result.outcome ≡ Err FillError.TooSmall) ⊎ (result.needed ≡ 0) }
{
    let mut text = Vec::new(alloc);
    let mut written = 0;
    let mut left = input;
    while !left.is_empty() {
        let (line, rest) = first_line(left);
        let consumed = input.len() - left.len();
        let Ok(()) = answer_line(alloc, form, line, &mut text) else {
            return stopped(consumed, written, 0, FillError::OutOfMemory);
        };
        match put(output, written, &text) {
            Ok(end) => written = end,
            Err(error) => return stopped(consumed, written, text.len(), error),
        }
        left = rest;
    }
    Progress {
        consumed: input.len(),
        written,
        needed: 0,
        outcome: Ok(()),
    }
}
