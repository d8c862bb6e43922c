//! What a mode shows for a decimal: in any writer, in a buffer, or as a text with parts.

ghost use Rattle.std.specs.Prelude.{◌≡◌, ◌≢◌, Ok, IfErr, IfOk, OnOk};
ghost use Rattle.decimal_lines.specs.SingleText.{AppendsEvents, IsRefusal, WroteEvents, compact_events, mode_events};
ghost use Rattle.writeable.specs.Sink.{Writes};
ghost use Rattle.icu_decimal.specs.Decimal.{decimal_events};

use crate::mode::Mode;
use crate::single_text::TextError;
use fixed_decimal::Decimal;
use icu_decimal::error::FormatError;
use icu_decimal::{CompactDecimalFormatter, DecimalFormatter};
use std::alloc::Global;
use writeable::{EventWriter, PartsText, PartsWrite, WithParts, Writeable};

/// Writes a decimal in full; `OutOfMemory` only where the writer fails.
fn write_plain<K: EventWriter>(
    formatter: &DecimalFormatter,
    decimal: &Decimal,
    out: &mut K,
) -> Result<(), TextError>
    ensures { WroteEvents K.wrote out.old result
        (Ok (decimal_events formatter.now decimal.now.sign decimal.now.absolute)) out.new }
{
    match formatter.format(decimal).write_events(out) {
        Ok(()) => Ok(()),
        Err(_) => Err(TextError::OutOfMemory),
    }
}

/// Writes a decimal in compact form.
fn write_compact<K: EventWriter>(
    alloc: Global,
    formatter: &CompactDecimalFormatter,
    decimal: &Decimal,
    out: &mut K,
) -> Result<(), TextError>
    ensures { WroteEvents K.wrote out.old result
        (compact_events formatter.now decimal.now.sign decimal.now.absolute) out.new }
{
    match formatter.format(alloc, decimal) {
        Ok(formatted) => match formatted.write_events(out) {
            Ok(()) => Ok(()),
            Err(_) => Err(TextError::OutOfMemory),
        },
        Err(FormatError::Overflow) => Err(TextError::Overflow),
        Err(FormatError::OutOfMemory | FormatError::Sink) => Err(TextError::OutOfMemory),
    }
}

/// Writes what the mode shows for a decimal into any writer (this project's own).
///
/// `Overflow` if the number is too large to be shown; the writer is then unchanged. `OutOfMemory`
/// if an allocation or the writer fails; the writer may then hold a beginning.
pub fn write_shown<K: EventWriter>(
    alloc: Global,
    mode: &Mode,
    decimal: &Decimal,
    out: &mut K,
) -> Result<(), TextError>
    ensures { WroteEvents K.wrote out.old result
        (mode_events mode.now decimal.now.sign decimal.now.absolute) out.new }
{
    match mode {
        Mode::Plain(formatter) => write_plain(formatter, decimal, out),
        Mode::Compact(formatter) => write_compact(alloc, formatter, decimal, out),
    }
}

/// Appends what the mode shows for a decimal; without memory some bytes of it may stand there.
pub fn push_shown(
    alloc: Global,
    mode: &Mode,
    decimal: &Decimal,
    out: &mut Vec<u8>,
) -> Result<(), TextError>
    ensures ok { OnOk result (AppendsEvents
        (mode_events mode.now decimal.now.sign decimal.now.absolute)
        out.old.items out.new.items) }
    ensures refused { IfErr result (λ error. IsRefusal
        (mode_events mode.now decimal.now.sign decimal.now.absolute) error) }
    ensures unchanged { IfErr result (λ error. error ≢ TextError.OutOfMemory →
        out.new.items ≡ out.old.items) }
{
    write_shown(alloc, mode, decimal, out)
}

/// Writes what the mode shows for a decimal to a sink, with the parts.
fn write_parts<S: PartsWrite>(
    alloc: Global,
    mode: &Mode,
    decimal: &Decimal,
    sink: &mut S,
) -> Result<(), TextError>
    ensures { WroteEvents (Writes S.events S.failures) sink.old result
        (mode_events mode.now decimal.now.sign decimal.now.absolute) sink.new }
{
    let mut out = WithParts { sink };
    let result = write_shown(alloc, mode, decimal, &mut out);
    out.into_inner();
    result
}

/// What the mode shows for a decimal, with the byte offsets of its parts (this project's own).
///
/// The parts are those of `icu_decimal`; in a compact number the sign alone has a part. `Overflow`
/// if the number is too large to be shown, else `OutOfMemory`.
pub fn mark_shown(alloc: Global, mode: &Mode, decimal: &Decimal) -> Result<PartsText, TextError>
    ensures ok { IfOk result (λ text.
        mode_events mode.now decimal.now.sign decimal.now.absolute ≡ Ok text.events) }
    ensures refused { IfErr result (λ error. IsRefusal
        (mode_events mode.now decimal.now.sign decimal.now.absolute) error) }
{
    let mut text = PartsText::new(alloc);
    write_parts(alloc, mode, decimal, &mut text)?;
    Ok(text)
}
