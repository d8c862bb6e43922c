//! Whether two texts are written as one, and two texts that are joined.

ghost use Rattle.std.specs.Prelude.{◌≡◌, IfOk};
ghost use Rattle.writeable.specs.Events.{text_of};
ghost use Rattle.icu_ranges.specs.Joined.{joined};
ghost use Rattle.icu_ranges.specs.Ranges.{is_single};
ghost use Rattle.icu_unit_ranges.specs.Recordings.{kept_events};

use crate::recording::Recording;
use icu_ranges::{RangeIdentityFallback, RangePattern, RangeStyle};
use std::alloc::Global;
use writeable::{OutOfMemory, Writeable};

/// The bytes of a text.
fn text_bytes<T: Writeable>(alloc: Global, value: &T) -> Result<Vec<u8>, OutOfMemory>
    ensures { IfOk result (λ bytes. bytes.items ≡ text_of (T.events value.now)) }
{
    let mut bytes = Vec::new(alloc);
    match value.write_events(&mut bytes) {
        Ok(()) => Ok(bytes),
        Err(_) => Err(OutOfMemory),
    }
}

/// Whether two texts are written as one. Texts are compared in memory.
pub(crate) fn is_single<A: Writeable, B: Writeable>(
    alloc: Global,
    fallback: RangeIdentityFallback,
    start: &A,
    end: &B,
) -> Result<bool, OutOfMemory>
    ensures { IfOk result (λ b. b ≡ is_single fallback (A.events start.now) (B.events end.now)) }
{
    match fallback {
        RangeIdentityFallback::Range => Ok(false),
        RangeIdentityFallback::SingleValue | RangeIdentityFallback::Approximately => {
            let first = text_bytes(alloc, start)?;
            let second = text_bytes(alloc, end)?;
            Ok(first.as_slice() == second.as_slice())
        }
    }
}

/// Two texts with the separator between them, as they are to stand in a pattern.
pub(crate) fn joined<A: Writeable, B: Writeable>(
    alloc: Global,
    pattern: &RangePattern,
    start: &A,
    end: &B,
) -> Result<Recording, OutOfMemory>
    ensures { IfOk result (λ r. kept_events r.kept.items
        ≡ joined pattern.now (A.events start.now) (B.events end.now)) }
{
    let style = RangeStyle {
        pattern,
        fallback: RangeIdentityFallback::Range,
    };
    let mut recording = Recording::new(alloc);
    match style.write_texts_into(alloc, start, end, &mut recording) {
        Ok(()) => Ok(recording),
        Err(_) => Err(OutOfMemory),
    }
}
