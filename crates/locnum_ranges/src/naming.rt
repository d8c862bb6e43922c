//! The name that a field of the header gives its column.

ghost use Rattle.std.specs.Prelude.{◌≡◌, IfOk};
ghost use Rattle.locnum_lines.specs.Fields.{cut_field};
ghost use Rattle.locnum_ranges.specs.Contents.{csv_content, name_in};

use crate::csv::{content_of, core_length};
use crate::cutting::{blanks_before, content_length};
use locnum_lines::Delimiter;
use std::alloc::{AllocError, Global};

/// A text without the blanks around it.
fn trimmed(text: &[u8]) -> &[u8]
    ensures { result.now ≡ (cut_field text.now).number }
{
    let (_before, rest) = text.split_at(blanks_before(text));
    rest.split_at(content_length(rest)).0
}

/// The content of a field of CSV that may have a carriage return at its end.
pub(crate) fn csv_content(alloc: Global, text: &[u8]) -> Result<Vec<u8>, AllocError>
    ensures { IfOk result (λ content. content.items ≡ csv_content text.now) }
{
    content_of(alloc, text.split_at(core_length(text)).0)
}

/// The name that a field of the header gives.
pub(crate) fn name_in(
    alloc: Global,
    delimiter: Delimiter,
    text: &[u8],
) -> Result<Vec<u8>, AllocError>
    ensures { IfOk result (λ name. name.items ≡ name_in delimiter text.now) }
{
    match delimiter {
        Delimiter::Blanks | Delimiter::Byte(_) => Vec::from_slice(alloc, trimmed(text)),
        Delimiter::Csv(_) => csv_content(alloc, text),
    }
}
