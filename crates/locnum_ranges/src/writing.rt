//! Records of which two fields become one.

ghost use Rattle.std.specs.Prelude.{◌≡◌, ◌++◌, [], IfOk, OnOk, min, option_map};
ghost use Rattle.locnum_ranges.specs.Fields.{fields_in};
ghost use Rattle.locnum_ranges.specs.Written.{behind_field, field_written, fields_written, front_written, joined_field, record_written};

use crate::csv::core_length;
use crate::cutting::{FirstField, first_field};
use crate::placing::push_in_field;
use locnum_lines::{Delimiter, LineSettings};
use std::alloc::{AllocError, Global};

/// The two fields of a range, by their numbers from 1 on (this project's own).
#[derive(Clone, Copy, Debug, PartialEq, Eq)]
pub struct RangeFields {
    /// The field of the start, in whose place the range stands.
    pub start: usize,
    /// The field of the end, which is left out.
    pub end: usize,
}

/// Appends a field of this number: with the range, if it is that of the start and there is one.
fn push_text(
    alloc: Global,
    settings: &LineSettings,
    start: usize,
    range: Option<&[u8]>,
    index: usize,
    field: &[u8],
    out: &mut Vec<u8>,
) -> Result<(), AllocError>
    ensures { OnOk result (out.new.items ≡ out.old.items ++ field_written settings.now start
        (option_map (λ s. s.now) range.entry) index field.now) }
{
    match range {
        Some(range) if index == start => push_in_field(alloc, settings, index, field, range, out),
        _ => out.extend_from_slice(field),
    }
}

/// Appends the first field, which has this number, behind the byte that ends the last field that
/// stays; nothing of the field of the end. The result is the byte that ends the last field that
/// stays.
fn push_field<'a>(
    alloc: Global,
    settings: &LineSettings,
    fields: RangeFields,
    range: Option<&[u8]>,
    index: usize,
    before: &'a [u8],
    first: FirstField<'a>,
    out: &mut Vec<u8>,
) -> Result<&'a [u8], AllocError>
    ensures out { OnOk result (out.new.items ≡ out.old.items ++ joined_field settings.now fields
        (option_map (λ s. s.now) range.entry) index before.now first.entry.text.now) }
    ensures behind { IfOk result (λ behind.
        behind.now ≡ behind_field fields.end index before.now first.entry.behind.now) }
{
    if index == fields.end {
        return Ok(before);
    }
    out.extend_from_slice(before)?;
    push_text(alloc, settings, fields.start, range, index, first.text, out)?;
    Ok(first.behind)
}

/// Appends the fields of a record.
fn push_fields(
    alloc: Global,
    settings: &LineSettings,
    fields: RangeFields,
    range: Option<&[u8]>,
    record: &[u8],
    out: &mut Vec<u8>,
) -> Result<(), AllocError>
    ensures { OnOk result (out.new.items ≡ out.old.items ++ fields_written settings.now fields
        (option_map (λ s. s.now) range.entry) 1 []
        (fields_in settings.now.delimiter «record».now)) }
{
    let mut next = Some(record);
    let mut index: usize = 1;
    let mut before: &[u8] = &[];
    while let Some(line) = next {
        let first = first_field(settings.delimiter, line);
        before = push_field(alloc, settings, fields, range, index, before, first, out)?;
        let Some(following) = index.checked_add(1) else {
            return Err(AllocError);
        };
        index = following;
        next = first.rest;
    }
    Ok(())
}

/// Appends a record in which a range stands in the field of the start, and the field of the end is
/// left out with its delimiter (this project's own).
///
/// Without a range the field of the start stays as it is, as in a header. The record has no byte that
/// ends lines behind it. If the field of the end is the last one, the delimiter in front of it goes,
/// and a carriage return at its end stays.
// promise: The range and the other fields stand as they stood.
// mutations: range_in_no_field, range_without_its_blanks
// promise: The field of the end is left out with its delimiter.
// mutations: range_end_leaves_its_delimiter
pub fn push_record(
    alloc: Global,
    settings: &LineSettings,
    fields: RangeFields,
    range: Option<&[u8]>,
    record: &[u8],
    out: &mut Vec<u8>,
) -> Result<(), AllocError>
    ensures { OnOk result (out.new.items ≡ out.old.items ++ record_written settings.now fields
        (option_map (λ s. s.now) range.entry) «record».now) }
{
    let (core, behind) = record.split_at(core_length(record));
    push_fields(alloc, settings, fields, range, core, out)?;
    out.extend_from_slice(behind)
}

/// Appends the fields of a record that stand in front of both fields of a range, each with the byte
/// that ends it (this project's own).
///
/// It is what is left of a record at whose range a run stops.
// promise: Of a record without a range the front is left.
// mutations: range_front_with_the_first_field
pub fn push_front(
    delimiter: Delimiter,
    fields: RangeFields,
    record: &[u8],
    out: &mut Vec<u8>,
) -> Result<(), AllocError>
    ensures { OnOk result (out.new.items ≡ out.old.items
        ++ front_written (min fields.start fields.end) 1
        (fields_in delimiter «record».now)) }
{
    let first = fields.start.min(fields.end);
    let mut next = Some(record);
    let mut index: usize = 1;
    while let Some(line) = next {
        if index >= first {
            return Ok(());
        }
        let field = first_field(delimiter, line);
        out.extend_from_slice(field.text)?;
        out.extend_from_slice(field.behind)?;
        let Some(following) = index.checked_add(1) else {
            return Err(AllocError);
        };
        index = following;
        next = field.rest;
    }
    Ok(())
}
