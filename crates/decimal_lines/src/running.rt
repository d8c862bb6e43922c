//! From a reader to a writer.

ghost use Rattle.std.specs.Prelude.{◌≡◌, ◌≢◌, ◌<◌, [], Some, Err, OnOk, OnErr, IfSome, IfOk, length, vec_len};
ghost use Rattle.std.specs.Io.KnownBytes.{Appends};
ghost use Rattle.decimal_lines.specs.LineResults.{text_result};
ghost use Rattle.decimal_lines.specs.Lines.{output_of, IsPartLine};
ghost use Rattle.decimal_lines.specs.Written.{AppendsBeginning, AppendsProperBeginning, StopsBetween};

use crate::blocks::take_block;
use crate::line::push_line;
use crate::mode::Mode;
use crate::writing::write_piece;
use std::alloc::{AllocError, Global};
use std::io::{Read, Write};
use thiserror::Error;

/// Why a run stopped early.
#[derive(Clone, Copy, Debug, PartialEq, Eq, Error)]
pub enum RunError {
    /// The reader answered an error, or 2^64 reads had no end.
    #[error("reading failed")]
    Read,
    /// The writer answered an error, or took no byte.
    #[error("writing failed")]
    Write,
    /// An allocation failed.
    #[error("out of memory")]
    OutOfMemory,
}

/// How many bytes are read at once.
const BLOCK_LEN: usize = 65536;

/// Writes a line for what is held back at the end of the input, if anything is.
fn finish<W: Write>(
    alloc: Global,
    mode: &Mode,
    held: &[u8],
    out: &mut Vec<u8>,
    writer: &mut W,
) -> Result<(), RunError>
    requires { IsPartLine held.now }
    ensures ok { OnOk result (Appends (W.contents writer.old) (W.contents writer.new)
        (output_of (text_result mode.now) held.now)) }
    ensures err { OnErr result (AppendsBeginning (W.contents writer.old) (W.contents writer.new)
        (output_of (text_result mode.now) held.now)) }
    ensures write { result ≡ Err RunError.Write
        → AppendsProperBeginning (W.contents writer.old) (W.contents writer.new)
        (output_of (text_result mode.now) held.now) }
    ensures not_read { result ≢ Err RunError.Read }
{
    if held.is_empty() {
        return Ok(());
    }
    out.clear();
    let Ok(()) = push_line(alloc, mode, held, out) else {
        return Err(RunError::OutOfMemory);
    };
    match write_piece(writer, out) {
        Ok(()) => Ok(()),
        Err(_) => Err(RunError::Write),
    }
}

/// Reads all lines by this buffer, and writes one line for each.
fn run_by<R: Read, W: Write>(
    alloc: Global,
    mode: &Mode,
    reader: &mut R,
    writer: &mut W,
    block: &mut [u8],
) -> Result<(), RunError>
    requires { 0 < length block.old }
    ensures ok { OnOk result (IfSome (R.remaining reader.old) (λ input.
        Appends (W.contents writer.old) (W.contents writer.new)
        (output_of (text_result mode.now) input)
        × (R.remaining reader.new ≡ Some []))) }
    ensures err { OnErr result (IfSome (R.remaining reader.old) (λ input.
        AppendsBeginning (W.contents writer.old) (W.contents writer.new)
        (output_of (text_result mode.now) input))) }
    ensures read { result ≡ Err RunError.Read → IfSome (R.remaining reader.old) (λ input.
        StopsBetween (text_result mode.now) (W.contents writer.old) (W.contents writer.new) input
        (R.remaining reader.new)) }
    ensures write { result ≡ Err RunError.Write → IfSome (R.remaining reader.old) (λ input.
        AppendsProperBeginning (W.contents writer.old) (W.contents writer.new)
        (output_of (text_result mode.now) input)) }
{
    let mut held = Vec::new(alloc);
    let mut out = Vec::new(alloc);
    for _ in 0..=u64::MAX {
        let Ok(n) = reader.read(block) else {
            return Err(RunError::Read);
        };
        if n == 0 {
            return finish(alloc, mode, &held, &mut out, writer);
        }
        out.clear();
        let Ok(()) = take_block(alloc, mode, &block[..n], &mut held, &mut out) else {
            return Err(RunError::OutOfMemory);
        };
        let Ok(()) = write_piece(writer, &out) else {
            return Err(RunError::Write);
        };
    }
    Err(RunError::Read)
}

/// A buffer of this many bytes.
fn buffer(alloc: Global, len: usize) -> Result<Vec<u8>, AllocError>
    ensures { IfOk result (λ v. vec_len v ≡ len) }
{
    Vec::from_elem(alloc, 0u8, len)
}

/// Reads all lines, and writes one line for each: the decimal in the mode's form, or an error line.
///
/// Lines end in a line feed, and one carriage return before it is dropped; the last line may end
/// without. Each error of the reader is `Read`, and so are 2^64 reads without an end; each error of
/// the writer is `Write`, and so is a write that takes no byte. Nothing is flushed.
// promise: If it returns `Ok`, it wrote just the output of the input.
// mutations: last_line_left_out, two_returns_dropped
// promise: After an error what was written is a beginning of it.
// mutations: short_write_taken_for_all
pub fn run<R: Read, W: Write>(
    alloc: Global,
    mode: &Mode,
    reader: &mut R,
    writer: &mut W,
) -> Result<(), RunError>
    // The output of the whole input was written, and all of it read.
    ensures ok { OnOk result (IfSome (R.remaining reader.old) (λ input.
        Appends (W.contents writer.old) (W.contents writer.new)
        (output_of (text_result mode.now) input)
        × (R.remaining reader.new ≡ Some []))) }

    // What was written is a beginning of it;
    ensures err { OnErr result (IfSome (R.remaining reader.old) (λ input.
        AppendsBeginning (W.contents writer.old) (W.contents writer.new)
        (output_of (text_result mode.now) input))) }

    // where reading failed, the output of just the whole lines read so far;
    ensures read { result ≡ Err RunError.Read → IfSome (R.remaining reader.old) (λ input.
        StopsBetween (text_result mode.now) (W.contents writer.old) (W.contents writer.new) input
        (R.remaining reader.new)) }

    // and where writing failed, something was left to write.
    ensures write { result ≡ Err RunError.Write → IfSome (R.remaining reader.old) (λ input.
        AppendsProperBeginning (W.contents writer.old) (W.contents writer.new)
        (output_of (text_result mode.now) input)) }
{
    let Ok(mut block) = buffer(alloc, BLOCK_LEN) else {
        return Err(RunError::OutOfMemory);
    };
    run_by(alloc, mode, reader, writer, block.as_mut_slice())
}
