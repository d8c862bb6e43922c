//! The names of columns, by the last record of the header.

ghost use Rattle.std.specs.Prelude.{◌≡◌, ◌<◌, ◌∷◌, IfOk, IfSome, length, map, option_map, take};
ghost use Rattle.locnum_lines.specs.Csv.{content_from, core_length};
ghost use Rattle.locnum_lines.specs.Fields.{cut_field, fields_from};
ghost use Rattle.locnum_lines.specs.Stage.{name_in, names_in, names_of, names_of_rest};
ghost use Rattle.locnum_lines.specs.declared.cutting.FieldState.TheVariants.{Front};

use crate::csv::{content_of, core_length};
use crate::cutting::{blanks_before, content_length, field_length};
use crate::settings::Delimiter;
use std::alloc::{AllocError, Global};

/// A text without the blanks around it.
pub(crate) fn trimmed(text: &[u8]) -> &[u8]
    ensures { result.now ≡ (cut_field text.now).number }
{
    let (_before, rest) = text.split_at(blanks_before(text));
    rest.split_at(content_length(rest)).0
}

/// The content of a field of CSV that may have a carriage return at its end.
fn csv_content(alloc: Global, text: &[u8]) -> Result<Vec<u8>, AllocError>
    ensures { IfOk result (λ content.
        content.items ≡ content_from Front (take (core_length text.now) text.now)) }
{
    content_of(alloc, text.split_at(core_length(text)).0)
}

/// The name that a field of the header gives.
fn name_in(alloc: Global, delimiter: Delimiter, text: &[u8]) -> Result<Vec<u8>, AllocError>
    ensures { IfOk result (λ name. name.items ≡ name_in delimiter text.now) }
{
    match delimiter {
        Delimiter::Blanks | Delimiter::Byte(_) => Vec::from_slice(alloc, trimmed(text)),
        Delimiter::Csv(_) => csv_content(alloc, text),
    }
}

/// The first field of a record, and the rest behind the byte that ends it, unless it is the last.
fn first_field(delimiter: Delimiter, line: &[u8]) -> (&[u8], Option<&[u8]>)
    ensures names { names_of delimiter (fields_from delimiter Front line.now)
        ≡ name_in delimiter result.0.now
        ∷ names_of_rest delimiter (option_map (λ s. s.now) result.1) }
    ensures shorter { IfSome result.1 (λ rest. length rest.now < length line.now) }
{
    let (field, behind) = line.split_at(field_length(delimiter, line));
    match behind.split_first() {
        None => (field, None),
        Some((_separator, rest)) => (field, Some(rest)),
    }
}

/// The names that a record of the header gives.
pub(crate) fn names_in(
    alloc: Global,
    delimiter: Delimiter,
    line: &[u8],
) -> Result<Vec<Vec<u8>>, AllocError>
    ensures { IfOk result (λ names. map (λ v. v.items) names.items ≡ names_in delimiter line.now) }
{
    let mut names = Vec::new(alloc);
    let mut next = Some(line);
    while let Some(rest) = next {
        let (field, following) = first_field(delimiter, rest);
        names.push(name_in(alloc, delimiter, field)?)?;
        next = following;
    }
    Ok(names)
}
