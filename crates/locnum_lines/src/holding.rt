//! Numbers that hold the delimiter.

ghost use Rattle.std.specs.Prelude.{◌≡◌, [], MatchBool, OnOk};
ghost use Rattle.locnum_lines.specs.FieldRuns.{held_by};
ghost use Rattle.locnum_lines.specs.Ran.{first_of};

use crate::cutting::bytes_before;
use crate::settings::Delimiter;
use std::alloc::AllocError;

/// Whether a text holds the delimiter, which would end a field within it.
fn holds(delimiter: Delimiter, text: &[u8]) -> bool
    ensures { MatchBool result (held_by delimiter text.now ≡ text.now)
        (held_by delimiter text.now ≡ []) }
{
    match delimiter {
        Delimiter::Blanks | Delimiter::Csv(_) => false,
        Delimiter::Byte(delimiter) => bytes_before(delimiter, text) < text.len(),
    }
}

/// A number that was written, if it is the first one that holds the delimiter.
pub(crate) fn hold(
    delimiter: Delimiter,
    number: &[u8],
    holding: &mut Vec<u8>,
) -> Result<(), AllocError>
    ensures { OnOk result
        (holding.new.items ≡ first_of holding.old.items (held_by delimiter number.now)) }
{
    if holding.is_empty() && holds(delimiter, number) {
        holding.extend_from_slice(number)?;
    }
    Ok(())
}
