//! Facts about a number, each in a line.

ghost use Rattle.std.specs.Prelude.{◌≡◌, ◌<◌, ◌++◌, OnOk, decimal, length, slice_get};
ghost use Rattle.fixed_decimal.specs.Size.{place};
ghost use Rattle.fixed_decimal.specs.Unsigned.{IsUnsigned};
ghost use Rattle.icu_decimal_data.specs.CompactTable.{IsIndex, entry_at};
ghost use Rattle.icu_pattern.specs.Refs.{text_of_ref};
ghost use Rattle.locnum_explain.specs.Facts.{entry_line, entry_text, fact, magnitude_line, pattern_line, placeholder_line, type_and_exponent, with_placeholder};

use fixed_decimal::UnsignedDecimal;
use icu_decimal_data::CompactPatterns;
use icu_pattern::{PatternRef, SinglePlaceholder};
use itoa::Buffer;
use std::alloc::AllocError;

/// Appends a label, a text and the end of a line.
#[tactic(auto, unfolding(crate::specs::Facts::fact))]
fn push_fact(label: &[u8], text: &[u8], out: &mut Vec<u8>) -> Result<(), AllocError>
    ensures { OnOk result (out.new.items ≡ out.old.items ++ fact label.now text.now) }
{
    out.extend_from_slice(label)?;
    out.extend_from_slice(text)?;
    out.push(b'\n')?;
    Ok(())
}

/// Appends a small number.
fn push_small(number: u8, out: &mut Vec<u8>) -> Result<(), AllocError>
    ensures { OnOk result (out.new.items ≡ out.old.items ++ decimal number) }
{
    let mut digits = Buffer::new();
    out.extend_from_slice(digits.format(number).as_bytes())
}

/// Appends the line of a number's magnitude, the power of ten of its first digit that isn't 0 (this
/// project's own). Without memory some bytes of it may stand there.
#[tactic(auto, unfolding(crate::specs::Facts::magnitude_line))]
pub fn push_magnitude(value: &UnsignedDecimal, out: &mut Vec<u8>) -> Result<(), AllocError>
    ensures appended { OnOk result (out.new.items ≡ out.old.items ++ magnitude_line value.now) }
    ensures valid { IsUnsigned value.now }
{
    let mut digits = Buffer::new();
    let magnitude = digits.format(value.nonzero_magnitude_start());
    push_fact(b"  magnitude  ", magnitude.as_bytes(), out)
}

/// Appends a type and an exponent.
#[tactic(auto, unfolding(crate::specs::Facts::type_and_exponent))]
fn push_type_and_exponent(log10_type: u8, exponent: u8, out: &mut Vec<u8>) -> Result<(), AllocError>
    ensures { OnOk result (out.new.items ≡ out.old.items
        ++ type_and_exponent log10_type exponent) }
{
    out.extend_from_slice(b"type ")?;
    push_small(log10_type, out)?;
    out.extend_from_slice(b", exponent ")?;
    push_small(exponent, out)
}

/// Appends the type and the exponent of the entry at an index.
fn push_entry_at(
    table: &CompactPatterns<SinglePlaceholder>,
    index: usize,
    out: &mut Vec<u8>,
) -> Result<(), AllocError>
    requires { index < length table.now }
    ensures { OnOk result (out.new.items ≡ out.old.items
        ++ entry_text (slice_get table.now index)) }
{
    push_type_and_exponent(table.log10_type(index), table.exponent(index), out)
}

/// Appends the type and the exponent of an entry, or that there is none.
fn push_entry_text(
    table: &CompactPatterns<SinglePlaceholder>,
    index: Option<usize>,
    out: &mut Vec<u8>,
) -> Result<(), AllocError>
    requires { IsIndex table.now index }
    ensures { OnOk result (out.new.items ≡ out.old.items
        ++ entry_text (entry_at table.now index)) }
{
    match index {
        Some(index) => push_entry_at(table, index, out),
        None => out.extend_from_slice(b"none"),
    }
}

/// Appends the line of the entry that a compact table has for a magnitude: its type and its
/// exponent, or `none` (this project's own). Without memory some bytes of it may stand there.
#[tactic(auto, unfolding(crate::specs::Facts::entry_line))]
pub fn push_entry(
    table: &CompactPatterns<SinglePlaceholder>,
    magnitude: i32,
    out: &mut Vec<u8>,
) -> Result<(), AllocError>
    ensures { OnOk result (out.new.items ≡ out.old.items
        ++ entry_line table.now (place magnitude)) }
{
    out.extend_from_slice(b"  entry      ")?;
    push_entry_text(table, table.entry_index(magnitude), out)?;
    out.push(b'\n')?;
    Ok(())
}

/// Appends a literal, with `{0}` behind that many of its first bytes.
fn push_with_placeholder(
    literal: &[u8],
    placeholder: Option<usize>,
    out: &mut Vec<u8>,
) -> Result<(), AllocError>
    ensures { OnOk result (out.new.items ≡ out.old.items
        ++ with_placeholder literal.now placeholder) }
{
    let Some(placeholder) = placeholder else {
        return out.extend_from_slice(literal);
    };
    let (before, behind) = literal.split_at(placeholder.min(literal.len()));
    out.extend_from_slice(before)?;
    out.extend_from_slice(b"{0}")?;
    out.extend_from_slice(behind)
}

/// Appends the line of a literal, with `{0}` behind that many of its first bytes.
#[tactic(auto, unfolding(crate::specs::Facts::placeholder_line))]
fn push_placeholder_line(
    literal: &[u8],
    placeholder: Option<usize>,
    out: &mut Vec<u8>,
) -> Result<(), AllocError>
    ensures { OnOk result (out.new.items ≡ out.old.items
        ++ placeholder_line literal.now placeholder) }
{
    out.extend_from_slice(b"  pattern    ")?;
    push_with_placeholder(literal, placeholder, out)?;
    out.push(b'\n')?;
    Ok(())
}

/// Appends the line of a pattern, with `{0}` where the number stands (this project's own). Without
/// memory some bytes of it may stand there.
#[tactic(auto, unfolding(crate::specs::Facts::pattern_line))]
pub fn push_pattern(
    pattern: PatternRef<'_, SinglePlaceholder>,
    out: &mut Vec<u8>,
) -> Result<(), AllocError>
    ensures { OnOk result (out.new.items ≡ out.old.items
        ++ pattern_line (text_of_ref pattern.entry)) }
{
    push_placeholder_line(pattern.literal().as_bytes(), pattern.placeholder(), out)
}
