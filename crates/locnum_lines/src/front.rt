//! A byte order mark in front of an input.

ghost use Rattle.std.specs.Prelude.{◌≡◌, ◌⊎◌, ◌<◌, ◌≤◌, ◌++◌, [], IfNone, IfOk, drop, length, take};
ghost use Rattle.std.specs.Io.KnownBytes.{Consumes, IsAtEnd, prepend_known};
ghost use Rattle.std.specs.Option.{option_to_list};
ghost use Rattle.locnum_lines.specs.Front.{is_marked, mark_length};

use crate::running::RunError;
use crate::settings::Source;
use std::alloc::Global;
use std::io::Read;

/// How many bytes a byte order mark has.
const MARK_LEN: usize = 3;

/// Whether a byte order mark is at the front of these bytes.
fn is_marked(bytes: &[u8]) -> bool
    ensures { result ≡ is_marked bytes.now }
{
    bytes.len() >= 3 && bytes[0] == 0xef && bytes[1] == 0xbb && bytes[2] == 0xbf
}

/// How many bytes at the front of an input are a byte order mark.
pub(crate) fn mark_length(source: Source, bytes: &[u8]) -> usize
    ensures { result ≡ mark_length source bytes.now }
{
    match source {
        Source::Lines => if is_marked(bytes) { 3 } else { 0 },
        Source::Word(_) => 0,
    }
}

/// The front of an input without its byte order mark (this project's own).
// promise: What is behind a byte order mark is all that is left.
// mutations: mark_in_place_of_what_is_behind_it
pub fn behind_mark(source: Source, bytes: &[u8]) -> &[u8]
    ensures { result.now ≡ drop (mark_length source bytes.now) bytes.now }
{
    bytes.split_at(mark_length(source, bytes)).1
}

/// The next byte, if the input has one.
fn read_byte<R: Read>(reader: &mut R) -> Result<Option<u8>, RunError>
    ensures bytes { IfOk result (λ byte.
        Consumes (R.remaining reader.old) (R.remaining reader.new) (option_to_list byte)) }
    ensures end { IfOk result (λ byte. IfNone byte (IsAtEnd (R.remaining reader.new))) }
{
    let mut buffer = [0u8; 1];
    let Ok(n) = reader.read(&mut buffer) else {
        return Err(RunError::Read);
    };
    if n == 0 {
        return Ok(None);
    }
    Ok(Some(buffer[0]))
}

/// Some of the bytes that were read before.
fn read_before(rest: &mut &[u8], block: &mut [u8]) -> Result<usize, RunError>
    requires some { 0 < length rest.old.now }
    requires room { 0 < length block.old }
    ensures bound { IfOk result (λ n. n ≤ length block.new) }
    ensures same { length block.new ≡ length block.old }
    ensures some { IfOk result (λ n. 0 < n) }
    ensures bytes { IfOk result (λ n. rest.old.now ≡ take n block.new ++ rest.new.now) }
{
    match rest.read(block) {
        Ok(n) => Ok(n),
        Err(_) => Err(RunError::Read),
    }
}

/// The next bytes: those that were read before, or else those that the reader gives.
pub(crate) fn read_more<R: Read>(
    rest: &mut &[u8],
    reader: &mut R,
    block: &mut [u8],
) -> Result<usize, RunError>
    requires { 0 < length block.old }
    ensures bound { IfOk result (λ n. n ≤ length block.new) }
    ensures room { length block.new ≡ length block.old }
    ensures bytes { IfOk result (λ n. Consumes
        (prepend_known rest.old.now (R.remaining reader.old))
        (prepend_known rest.new.now (R.remaining reader.new)) (take n block.new)) }
    ensures end { IfOk result (λ n. n ≡ 0 → IsAtEnd (R.remaining reader.new)) }
    ensures none_left { IfOk result (λ n. n ≡ 0 → rest.new.now ≡ []) }
{
    if !rest.is_empty() {
        return read_before(rest, block);
    }
    match reader.read(block) {
        Ok(n) => Ok(n),
        Err(_) => Err(RunError::Read),
    }
}

/// As many bytes as a byte order mark has, or fewer where the input has no more.
pub(crate) fn read_front<R: Read>(alloc: Global, reader: &mut R) -> Result<Vec<u8>, RunError>
    ensures bytes { IfOk result (λ front.
        Consumes (R.remaining reader.old) (R.remaining reader.new) front.items) }
    ensures enough { IfOk result (λ front.
        (length front.items ≡ 3) ⊎ IsAtEnd (R.remaining reader.new)) }
{
    let mut front = Vec::new(alloc);
    while front.len() < MARK_LEN {
        let Some(byte) = read_byte(reader)? else {
            return Ok(front);
        };
        let Ok(()) = front.push(byte) else {
            return Err(RunError::OutOfMemory);
        };
    }
    Ok(front)
}
