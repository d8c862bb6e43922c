//! From a mode to a status.

ghost use Rattle.std.specs.Prelude.{◌≡◌};
ghost use Rattle.talmuiga_c.specs.Asked.{mode_asked};
ghost use Rattle.talmuiga_c.specs.Endings.{EndsIn, IsFormatted};

use crate::status::{self, status_of};
use decimal_lines::{FillError, Mode, Words, format_lines};
use std::alloc::Global;

/// Formats all lines in a mode.
pub fn format_by(
    alloc: Global,
    mode: &Mode,
    input: &[u8],
    output: &mut [u8],
    written: &mut usize,
) -> u32
    ensures { IsFormatted mode.now input.now output.old output.new written.new result }
{
    let filled = format_lines(alloc, mode, input, output);
    *written = filled.written;
    match filled.outcome {
        Ok(()) => status::DONE,
        Err(FillError::TooSmall) => status::OUTPUT_TOO_SMALL,
        Err(FillError::OutOfMemory) => status::OUT_OF_MEMORY,
    }
}

/// Formats all lines in the mode that the arguments make of the tables.
pub fn format_asked(
    alloc: Global,
    words: &Words<'_>,
    tables: &[u8],
    input: &[u8],
    output: &mut [u8],
    written: &mut usize,
) -> u32
    ensures { EndsIn (mode_asked words.now tables.now) input.now output.old output.new written.new
        result }
{
    match Mode::make(alloc, words, tables) {
        Ok(mode) => format_by(alloc, &mode, input, output, written),
        Err(error) => {
            *written = 0;
            status_of(error)
        }
    }
}
