//! The pattern of a unit around a range.

ghost use Rattle.std.specs.Prelude.{◌≡◌, chars};
ghost use Rattle.std.specs.Str.{drop_trailing_whitespace, skip_leading_whitespace};
ghost use Rattle.icu_dimension.specs.UnitPatterns.{in_unit, leading_whitespace, trailing_whitespace, unit_interpolated, unit_literal};
ghost use Rattle.icu_unit_ranges.specs.UnitRanges.{range_unit, with_place};

use crate::values::{other_value, value_for};
use icu_dimension_data::parts::UNIT;
use icu_pattern::{Pattern, SinglePlaceholder};
use icu_plurals::{PluralCategory, PluralElements};
use writeable::{EventWriter, WriteFault, Writeable};

/// A pattern, or another one if it has no place for a number.
fn with_place<'a>(
    pattern: &'a Pattern<SinglePlaceholder>,
    other: &'a Pattern<SinglePlaceholder>,
) -> &'a Pattern<SinglePlaceholder>
    ensures { result.now ≡ with_place pattern.now other.now }
{
    if pattern.as_ref().placeholder().is_some() {
        pattern
    } else {
        other
    }
}

/// The pattern of a range of a category: that of the category if it has a place for a number, and
/// else that of all other numbers.
pub(crate) fn range_unit(
    elements: &PluralElements<Pattern<SinglePlaceholder>>,
    category: PluralCategory,
) -> &Pattern<SinglePlaceholder>
    ensures { result.now ≡ range_unit elements.now category }
{
    with_place(value_for(elements, category), other_value(elements))
}

/// The white space at the start of a text, and what follows it.
fn split_start(text: &str) -> (&str, &str)
    ensures space { chars result.0.now ≡ leading_whitespace (chars text.now) }
    ensures rest { chars result.1.now ≡ skip_leading_whitespace (chars text.now) }
{
    let rest = text.trim_start();
    text.split_at(text.len() - rest.len())
}

/// A text without the white space at its end, and that white space.
fn split_end(text: &str) -> (&str, &str)
    ensures kept { chars result.0.now ≡ drop_trailing_whitespace (chars text.now) }
    ensures space { chars result.1.now ≡ trailing_whitespace (chars text.now) }
{
    text.split_at(text.trim_end().len())
}

/// Writes a text in the part of a unit, if it isn't empty.
fn write_in_unit<K: EventWriter>(text: &str, out: &mut K) -> Result<(), WriteFault>
    ensures { K.wrote out.old result (in_unit (chars text.now)) out.new }
{
    if text.is_empty() {
        return Ok(());
    }
    out.part(UNIT, text)
}

/// Writes a literal of a unit's pattern.
fn write_literal<K: EventWriter>(literal: &str, out: &mut K) -> Result<(), WriteFault>
    ensures { K.wrote out.old result (unit_literal (chars literal.now)) out.new }
{
    let (space_before, rest) = split_start(literal);
    let (unit, space_behind) = split_end(rest);
    out.text(space_before)?;
    write_in_unit(unit, out)?;
    out.text(space_behind)
}

/// Writes the pattern of a unit with a value in its place; without a place its literal alone.
pub(crate) fn write_unit<W: Writeable, K: EventWriter>(
    pattern: &Pattern<SinglePlaceholder>,
    value: &W,
    out: &mut K,
) -> Result<(), WriteFault>
    ensures { K.wrote out.old result (unit_interpolated pattern.now (W.events value.now)) out.new }
{
    let pattern = pattern.as_ref();
    let literal = pattern.literal();
    let Some(placeholder) = pattern.placeholder() else {
        return write_literal(literal, out);
    };
    let (before, behind) = literal.split_at(placeholder);
    write_literal(before, out)?;
    value.write_events(out)?;
    write_literal(behind, out)
}
