//! Two texts as a range.

ghost use Rattle.std.specs.Prelude.{◌≡◌, IfOk};
ghost use Rattle.writeable.specs.Events.{text_of};
ghost use Rattle.icu_ranges.specs.Joined.{joined};
ghost use Rattle.icu_ranges.specs.Approximately.{approximated};
ghost use Rattle.icu_ranges.specs.Ranges.{is_single, range_of, single_of};
ghost use Rattle.icu_ranges.specs.Writing.{WroteText};

use crate::approximately::Approximated;
use crate::edges::is_bare;
use crate::options::RangeIdentityFallback;
use crate::range_pattern::{RangePattern, write_separator};
use crate::range_style::RangeStyle;
use icu_decimal::error::FormatError;
use std::alloc::Global;
use writeable::{EventWriter, OutOfMemory, WriteFault, Writeable};

/// A borrowed value, with its parts.
#[derive(Drop)]
pub(crate) struct Lent<'a, T> {
    pub(crate) value: &'a T,
}

impl<T: Writeable> Writeable for Lent<'_, T> {
    ghost events = { λ l. T.events l.value.now };

    fn write_events<K: EventWriter>(&self, out: &mut K) -> Result<(), WriteFault> {
        self.value.write_events(out)
    }
}

/// Writes two texts with the separator between them.
pub(crate) fn write_joined<A: Writeable, B: Writeable, K: EventWriter>(
    pattern: &RangePattern,
    start: &A,
    end: &B,
    out: &mut K,
) -> Result<(), WriteFault>
    ensures { K.wrote out.old result
        (joined pattern.now (A.events start.now) (B.events end.now)) out.new }
{
    let is_plain = is_bare(start) && is_bare(end);
    start.write_events(out)?;
    write_separator(pattern, is_plain, out)?;
    end.write_events(out)
}

/// Two texts with the separator between them, as one value.
#[derive(Drop)]
pub(crate) struct JoinedTexts<'a, A, B> {
    pub(crate) pattern: &'a RangePattern,
    pub(crate) start: &'a A,
    pub(crate) end: &'a B,
}

impl<A: Writeable, B: Writeable> Writeable for JoinedTexts<'_, A, B> {
    ghost use Rattle.icu_ranges.specs.Joined.{joined};

    ghost events = { λ j. joined j.pattern.now (A.events j.start.now) (B.events j.end.now) };

    fn write_events<K: EventWriter>(&self, out: &mut K) -> Result<(), WriteFault> {
        write_joined(self.pattern, self.start, self.end, out)
    }
}

/// The bytes of a text.
fn text_bytes<T: Writeable>(alloc: Global, value: &T) -> Result<Vec<u8>, OutOfMemory>
    ensures { IfOk result (λ bytes. bytes.items ≡ text_of (T.events value.now)) }
{
    let mut bytes = Vec::new(alloc);
    match value.write_events(&mut bytes) {
        Ok(()) => Ok(bytes),
        Err(_) => Err(OutOfMemory),
    }
}

/// Whether two texts are written as one. Texts are compared in memory.
pub(crate) fn is_single<A: Writeable, B: Writeable>(
    alloc: Global,
    fallback: RangeIdentityFallback,
    start: &A,
    end: &B,
) -> Result<bool, OutOfMemory>
    ensures { IfOk result (λ b. b ≡ is_single fallback (A.events start.now) (B.events end.now)) }
{
    match fallback {
        RangeIdentityFallback::Range => Ok(false),
        RangeIdentityFallback::SingleValue | RangeIdentityFallback::Approximately => {
            let first = text_bytes(alloc, start)?;
            let second = text_bytes(alloc, end)?;
            Ok(first.as_slice() == second.as_slice())
        }
    }
}

/// Writes a text that both ends of a range have.
fn write_single<A: Writeable, K: EventWriter>(
    style: &RangeStyle<'_>,
    text: &A,
    out: &mut K,
) -> Result<(), WriteFault>
    ensures { K.wrote out.old result (single_of style.now.fallback (A.events text.now)
        (approximated style.now.pattern.now.approximately (A.events text.now))) out.new }
{
    match style.fallback {
        RangeIdentityFallback::Approximately => {
            let sign = style.pattern.approximately_sign();
            Approximated { sign, value: text }.write_events(out)
        }
        RangeIdentityFallback::SingleValue | RangeIdentityFallback::Range => text.write_events(out),
    }
}

/// Writes two texts as a range.
pub(crate) fn write_range_of<A: Writeable, B: Writeable, K: EventWriter>(
    alloc: Global,
    style: &RangeStyle<'_>,
    start: &A,
    end: &B,
    out: &mut K,
) -> Result<(), FormatError>
    ensures { WroteText K.wrote out.old result (range_of (record {
      separator = style.now.pattern.now;
      fallback = style.now.fallback;
    }) (A.events start.now) (B.events end.now)) out.new }
{
    let result = match is_single(alloc, style.fallback, start, end) {
        Ok(true) => write_single(style, start, out),
        Ok(false) => write_joined(style.pattern, start, end, out),
        Err(OutOfMemory) => return Err(FormatError::OutOfMemory),
    };
    match result {
        Ok(()) => Ok(()),
        Err(WriteFault) => Err(FormatError::Sink),
    }
}
