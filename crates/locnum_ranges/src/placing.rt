//! A range in the place of a number in a field.

ghost use Rattle.std.specs.Prelude.{◌≡◌, ◌<◌, ◌+◌, ◌^◌, ◌++◌, OnOk, length, option_map};
ghost use Rattle.locnum_lines.specs.FieldRuns.{blanks_kept};
ghost use Rattle.locnum_lines.specs.Fields.{cut_field};
ghost use Rattle.locnum_lines.specs.Padding.{padded};
ghost use Rattle.locnum_lines.specs.Widths.{padding_width};
ghost use Rattle.locnum_ranges.specs.Placed.{in_csv, in_field, in_place, own_padding, padding_by};

use crate::csv::{core_length, is_in_quotes, push_as_field};
use crate::cutting::{blanks_before, content_length};
use crate::naming::csv_content;
use locnum_lines::{Alignment, Delimiter, LineSettings, Padding, push_padded};
use std::alloc::{AllocError, Global};

/// The padding of a field of this number itself, which blanks end.
fn own_padding(index: usize, before: &[u8], number: &[u8]) -> Option<Padding>
    requires { length before.now + length number.now < 2 ^ 64 }
    ensures { result ≡ own_padding index before.now number.now }
{
    if index <= 1 && before.is_empty() {
        return None;
    }
    let columns = (before.len() + number.len()).min(65535);
    Some(Padding {
        columns: columns as u16,
        alignment: Alignment::Right,
    })
}

/// The padding of a range in the place of this number, which stands in a field of this number behind
/// these blanks.
fn padding_by(
    settings: &LineSettings,
    index: usize,
    before: &[u8],
    number: &[u8],
) -> Option<Padding>
    requires { length before.now + length number.now < 2 ^ 64 }
    ensures { result
        ≡ padding_by settings.now.delimiter settings.now.padding index before.now number.now }
{
    let None = settings.padding else {
        return settings.padding;
    };
    match settings.delimiter {
        Delimiter::Blanks => own_padding(index, before, number),
        Delimiter::Byte(_) | Delimiter::Csv(_) => None,
    }
}

/// Appends a range with its padding, behind the blanks in front of it unless it has one.
fn push_behind_blanks(
    padding: Option<Padding>,
    before: &[u8],
    range: &[u8],
    out: &mut Vec<u8>,
) -> Result<(), AllocError>
    ensures { OnOk result (out.new.items ≡ out.old.items
        ++ (blanks_kept (option_map padding_width padding) before.now
        ++ padded (option_map padding_width padding) range.now)) }
{
    if padding.is_none() {
        out.extend_from_slice(before)?;
    }
    push_padded(padding, range, out)
}

/// Appends a text in which a range stands in the place of its number.
fn push_in_place(
    settings: &LineSettings,
    index: usize,
    text: &[u8],
    range: &[u8],
    out: &mut Vec<u8>,
) -> Result<(), AllocError>
    ensures { OnOk result (out.new.items ≡ out.old.items
        ++ in_place settings.now index (cut_field text.now) range.now) }
{
    let (before, rest) = text.split_at(blanks_before(text));
    let (number, behind) = rest.split_at(content_length(rest));
    let padding = padding_by(settings, index, before, number);
    push_behind_blanks(padding, before, range, out)?;
    out.extend_from_slice(behind)
}

/// Appends a field of CSV in which a range stands in the place of its number.
fn push_in_csv(
    alloc: Global,
    settings: &LineSettings,
    index: usize,
    delimiter: u8,
    field: &[u8],
    range: &[u8],
    out: &mut Vec<u8>,
) -> Result<(), AllocError>
    ensures { OnOk result (out.new.items ≡ out.old.items
        ++ in_csv settings.now index delimiter field.now range.now) }
{
    let content = csv_content(alloc, field)?;
    let mut text = Vec::new(alloc);
    push_in_place(settings, index, &content, range, &mut text)?;
    push_as_field(delimiter, settings.end, is_in_quotes(field), &text, out)?;
    out.extend_from_slice(field.split_at(core_length(field)).1)
}

/// Appends a field of this number in which a range stands in the place of its number.
pub(crate) fn push_in_field(
    alloc: Global,
    settings: &LineSettings,
    index: usize,
    field: &[u8],
    range: &[u8],
    out: &mut Vec<u8>,
) -> Result<(), AllocError>
    ensures { OnOk result (out.new.items ≡ out.old.items
        ++ in_field settings.now index settings.now.delimiter field.now range.now) }
{
    match settings.delimiter {
        Delimiter::Blanks | Delimiter::Byte(_) => {
            push_in_place(settings, index, field, range, out)
        }
        Delimiter::Csv(delimiter) => push_in_csv(
            alloc, settings, index, delimiter, field, range, out,
        ),
    }
}
