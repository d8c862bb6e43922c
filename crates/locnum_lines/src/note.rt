//! The lines of notes: of texts that are rejected, of names that are no column's, and of quotes
//! that don't end.

ghost use Rattle.std.specs.Prelude.{◌≡◌, ◌++◌, ◌-◌, OnOk, codes, decimal, map, option_map};
ghost use Rattle.std.specs.List.{slice_get};
ghost use Rattle.locnum_lines.specs.Notes.{column_text, missing_note, names_text, note, others_text, position_text, reason, unended_note};
ghost use Rattle.locnum_lines.specs.declared.settings.Source.TheVariants.{Lines};

use crate::nearest::nearest;
use crate::settings::Source;
use decimal_lines::TextError;
use itoa::Buffer;
use number_forms::push_reported;
use std::alloc::{AllocError, Global};

/// Why a text is rejected.
fn reason(error: TextError) -> &'static str
    ensures { result.now ≡ reason error }
{
    match error {
        TextError::NotDecimal => "not a decimal",
        TextError::TooManyDigits => "too many digits",
        TextError::Overflow => "overflow",
        TextError::OutOfMemory => "out of memory",
    }
}

/// The name of the column of this number, from 1 on, if it has one.
fn name_at(names: &[Vec<u8>], index: usize) -> Option<&[u8]>
    ensures { option_map (λ s. s.now) result
        ≡ slice_get (map (λ v. v.items) names.now) (index - 1) }
{
    let name = names.get(index.saturating_sub(1))?;
    Some(name)
}

/// Appends the name of a column, if it has one.
fn push_column(name: Option<&[u8]>, notes: &mut Vec<u8>) -> Result<(), AllocError>
    ensures { OnOk result (notes.new.items
        ≡ notes.old.items ++ column_text (option_map (λ s. s.now) name.entry)) }
{
    match name {
        None | Some([]) => Ok(()),
        Some(name) => {
            notes.extend_from_slice(b" (")?;
            push_reported(name, notes)?;
            notes.push(b')')?;
            Ok(())
        }
    }
}

/// Appends a number.
fn push_count(count: u64, notes: &mut Vec<u8>) -> Result<(), AllocError>
    ensures { OnOk result (notes.new.items ≡ notes.old.items ++ decimal count) }
{
    let mut digits = Buffer::new();
    notes.extend_from_slice(digits.format(count).as_bytes())
}

/// Appends where a field of this number stands in a record of lines behind that many.
#[tactic(auto, unfolding(crate::specs::Notes::position_text))]
fn push_field_position(
    lines: u64,
    names: &[Vec<u8>],
    index: usize,
    notes: &mut Vec<u8>,
) -> Result<(), AllocError>
    ensures { OnOk result (notes.new.items ≡ notes.old.items
        ++ position_text Lines lines (map (λ v. v.items) names.now) index) }
{
    let Some(line) = lines.checked_add(1) else {
        return Err(AllocError);
    };
    notes.extend_from_slice(b"line ")?;
    push_count(line, notes)?;
    notes.extend_from_slice(b", field ")?;
    push_count(index as u64, notes)?;
    push_column(name_at(names, index), notes)
}

/// Appends which argument of the command line a number is.
#[tactic(auto, unfolding(crate::specs::Notes::position_text))]
fn push_word_position(number: u64, notes: &mut Vec<u8>) -> Result<(), AllocError>
    ensures { OnOk result (notes.new.items ≡ notes.old.items ++ (codes "word " ++ decimal number)) }
{
    notes.extend_from_slice(b"word ")?;
    push_count(number, notes)
}

/// Appends where a field of this number stands in a record behind that many lines.
#[tactic(auto, unfolding(crate::specs::Notes::position_text))]
pub(crate) fn push_position(
    source: Source,
    lines: u64,
    names: &[Vec<u8>],
    index: usize,
    notes: &mut Vec<u8>,
) -> Result<(), AllocError>
    ensures { OnOk result (notes.new.items ≡ notes.old.items
        ++ position_text source lines (map (λ v. v.items) names.now) index) }
{
    match source {
        Source::Lines => push_field_position(lines, names, index, notes),
        Source::Word(number) => push_word_position(number, notes),
    }
}

/// Appends the line that says why a text is rejected that stands in a field of this number of a
/// record behind that many lines.
#[tactic(auto, unfolding(crate::specs::Notes::note))]
pub(crate) fn push_note(
    source: Source,
    lines: u64,
    names: &[Vec<u8>],
    index: usize,
    text: &[u8],
    error: TextError,
    notes: &mut Vec<u8>,
) -> Result<(), AllocError>
    ensures { OnOk result (notes.new.items ≡ notes.old.items
        ++ note (position_text source lines (map (λ v. v.items) names.now) index) text.now error) }
{
    notes.extend_from_slice(b"locnum: ")?;
    push_position(source, lines, names, index, notes)?;
    notes.extend_from_slice(b": ")?;
    push_reported(text, notes)?;
    notes.extend_from_slice(b": ")?;
    notes.extend_from_slice(reason(error).as_bytes())?;
    notes.push(b'\n')?;
    Ok(())
}

/// Appends names behind another one.
fn push_others(names: &[&[u8]], notes: &mut Vec<u8>) -> Result<(), AllocError>
    ensures { OnOk result (notes.new.items
        ≡ notes.old.items ++ others_text (map (λ s. s.now) names.now)) }
{
    for name in names {
        notes.extend_from_slice(b", ")?;
        push_reported(name, notes)?;
    }
    Ok(())
}

/// Appends names with commas between them.
fn push_names(names: &[&[u8]], notes: &mut Vec<u8>) -> Result<(), AllocError>
    ensures { OnOk result (notes.new.items
        ≡ notes.old.items ++ names_text (map (λ s. s.now) names.now)) }
{
    let Some((name, others)) = names.split_first() else {
        return Ok(());
    };
    push_reported(name, notes)?;
    push_others(others, notes)
}

/// Appends the line that reports a name that is no column's, and the five columns with the nearest
/// names.
#[tactic(auto, unfolding(crate::specs::Notes::missing_note))]
pub(crate) fn push_missing_note(
    alloc: Global,
    names: &[Vec<u8>],
    name: &[u8],
    notes: &mut Vec<u8>,
) -> Result<(), AllocError>
    ensures { OnOk result (notes.new.items
        ≡ notes.old.items ++ missing_note (map (λ v. v.items) names.now) name.now) }
{
    let near = nearest(alloc, name, names)?;
    notes.extend_from_slice(b"locnum: no field ")?;
    push_reported(name, notes)?;
    notes.extend_from_slice(b"; the header has ")?;
    push_names(&near, notes)?;
    notes.push(b'\n')?;
    Ok(())
}

/// Appends the line that says where quotes begin that don't end.
#[tactic(auto, unfolding(crate::specs::Notes::unended_note))]
pub(crate) fn push_unended_note(line: u64, notes: &mut Vec<u8>) -> Result<(), AllocError>
    ensures { OnOk result (notes.new.items ≡ notes.old.items ++ unended_note line) }
{
    notes.extend_from_slice(b"locnum: line ")?;
    push_count(line, notes)?;
    notes.extend_from_slice(b": a quote without an end\n")?;
    Ok(())
}
