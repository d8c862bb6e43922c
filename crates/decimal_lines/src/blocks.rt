//! Lines cut out of blocks of input.

ghost use Rattle.std.specs.Prelude.{◌++◌, ◌∷◌, [], Some, OnOk};
ghost use Rattle.decimal_lines.specs.LineResults.{text_result};
ghost use Rattle.decimal_lines.specs.Lines.{IsPartLine};
ghost use Rattle.decimal_lines.specs.Written.{Feeds};

use crate::line::push_line;
use crate::mode::Mode;
use memchr::memchr;
use std::alloc::{AllocError, Global};

/// Ends a line whose first bytes may have been held back: its output is appended to `out`.
fn end_line(
    alloc: Global,
    mode: &Mode,
    rest: &[u8],
    held: &mut Vec<u8>,
    out: &mut Vec<u8>,
) -> Result<(), AllocError>
    requires held_part { IsPartLine held.old.items }
    requires rest_part { IsPartLine rest.now }
    ensures { OnOk result (Feeds (text_result mode.now) (Some out.old.items)
        (Some out.new.items) held.old.items (rest.now ++ 10 ∷ []) held.new.items) }
{
    if held.is_empty() {
        push_line(alloc, mode, rest, out)?;
        return Ok(());
    }
    held.extend_from_slice(rest)?;
    push_line(alloc, mode, held, out)?;
    held.clear();
    Ok(())
}

/// Cuts a block into lines: the output of each whole one is appended to `out`, and the rest is held
/// back.
pub fn take_block(
    alloc: Global,
    mode: &Mode,
    block: &[u8],
    held: &mut Vec<u8>,
    out: &mut Vec<u8>,
) -> Result<(), AllocError>
    requires { IsPartLine held.old.items }
    ensures { OnOk result (Feeds (text_result mode.now) (Some out.old.items)
        (Some out.new.items) held.old.items block.now held.new.items) }
{
    let mut rest = block;
    while let Some(n) = memchr(b'\n', rest) {
        let (line, after) = rest.split_at(n);
        end_line(alloc, mode, line, held, out)?;
        rest = after.split_at(1).1;
    }
    held.extend_from_slice(rest)?;
    Ok(())
}
