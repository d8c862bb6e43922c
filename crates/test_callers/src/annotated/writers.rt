//! Digits, in groups and without, over every writer.

ghost use Rattle.std.specs.Prelude.{◌<◌, All};

use super::sink_with;
use std::alloc::Global;
use std::fmt;
use writeable::{EventWriter, Grouping, OutOfMemory, PartsText, PartsWrite, WithParts, WriteFault};

const DIGITS: [u8; 12] = [1, 2, 3, 4, 5, 6, 7, 8, 9, 0, 1, 2];

/// The first digits of 123456789012, in groups or without, by a table or without one as '0' to '9'.
#[derive(Drop)]
pub(super) struct Shown<'l> {
    pub(super) count: usize,
    pub(super) grouping: Option<&'l Grouping<'l>>,
    pub(super) characters: Option<&'l [char; 10]>,
}

/// The digits from the first on, as many as there are.
fn first_digits(count: usize) -> &'static [u8]
    ensures { All (λ d. d < 10) result.now }
{
    DIGITS.split_at(count.min(DIGITS.len())).0
}

/// Writes the digits. Groups of no digits are rejected.
fn write<K: EventWriter>(out: &mut K, shown: &Shown<'_>) -> Result<(), WriteFault> {
    let digits = first_digits(shown.count);
    match (shown.grouping, shown.characters) {
        (None, None) => out.ascii_digits(digits),
        (None, Some(characters)) => out.digits(digits, characters),
        (Some(grouping), _) if grouping.primary == 0 || grouping.secondary == 0 => Err(WriteFault),
        (Some(grouping), None) => out.ascii_groups(digits, grouping),
        (Some(grouping), Some(characters)) => out.groups(digits, grouping, characters),
    }
}

/// Whether a buffer of bytes gets this text.
fn is_in_bytes(alloc: Global, shown: &Shown<'_>, text: &str) -> bool {
    let mut out = Vec::new(alloc);
    write(&mut out, shown).is_ok() && out.as_slice() == text.as_bytes()
}

/// Whether a text gets this text.
fn is_in_a_text(alloc: Global, shown: &Shown<'_>, text: &str) -> bool {
    let mut out = String::new(alloc);
    write(&mut out, shown).is_ok() && out.as_str() == text
}

impl fmt::Display for Shown<'_> {
    ghost use Rattle.std.specs.Prelude.{None};

    ghost output = { λ _. None };

    ghost styled_output = { λ _ _. None };

    fn fmt<W: fmt::Write>(&self, f: &mut fmt::Formatter<W>) -> fmt::Result {
        write(f, self).map_err(|_| fmt::Error)
    }
}

/// Whether a formatter gets this text.
fn is_displayed(alloc: Global, shown: &Shown<'_>, text: &str) -> bool {
    match format!(in alloc; "{shown}") {
        Ok(string) => string.as_str() == text,
        Err(_) => false,
    }
}

/// Writes the digits to a sink, with the parts.
fn write_to_parts<S: PartsWrite>(sink: &mut S, shown: &Shown<'_>) -> Result<(), WriteFault> {
    let mut out = WithParts { sink };
    let written = write(&mut out, shown);
    out.into_inner();
    written
}

/// Whether both sinks hold the same parts of their texts.
fn have_equal_spans(
    alloc: Global,
    left: &PartsText,
    right: &PartsText,
) -> Result<bool, OutOfMemory> {
    let spans = left.spans(alloc)?;
    Ok(spans.as_slice() == right.spans(alloc)?.as_slice())
}

/// Whether a sink gets the text and the parts that another one holds.
fn is_in_parts(alloc: Global, shown: &Shown<'_>, want: &PartsText) -> bool {
    let mut sink = PartsText::new(alloc);
    let written = write_to_parts(&mut sink, shown);
    let equal = have_equal_spans(alloc, &sink, want);
    written.is_ok() && sink.text() == want.text() && equal == Ok(true)
}

/// Whether each writer gets this text, in which brackets show the parts; asked once more where
/// memory ran out.
pub(super) fn is_written(alloc: Global, shown: &Shown<'_>, marked: &str) -> bool {
    let (_, want) = sink_with(alloc, None, marked);
    let text = want.text();
    (is_in_bytes(alloc, shown, text) || is_in_bytes(alloc, shown, text))
        && (is_in_a_text(alloc, shown, text) || is_in_a_text(alloc, shown, text))
        && (is_displayed(alloc, shown, text) || is_displayed(alloc, shown, text))
        && (is_in_parts(alloc, shown, &want) || is_in_parts(alloc, shown, &want))
}
