//! The answer to a line.

ghost use Rattle.std.specs.Prelude.{◌≡◌, ◌++◌, ◌∷◌, [], OnOk, codes};
ghost use Rattle.decimal_lines.specs.LineResults.{text_result, text_by};
ghost use Rattle.decimal_lines.specs.Compact.{compact_result};
ghost use Rattle.decimal_lines.specs.Lines.{without_return, line_output};
ghost use Rattle.decimal_lines.specs.Plain.{plain_text};

use crate::mode::Mode;
use fixed_decimal::{Decimal, DecimalError};
use icu_decimal::error::FormatError;
use icu_decimal::{CompactDecimalFormatter, DecimalFormatter};
use std::alloc::{AllocError, Global};
use writeable::Writeable;

/// The line without one carriage return at its end.
#[tactic(auto, using(crate::proofs::Returns::returns_dropped))]
fn without_return(line: &[u8]) -> &[u8]
    ensures { result.now ≡ without_return line.now }
{
    if !line.is_empty() && line[line.len() - 1] == b'\r' {
        &line[..line.len() - 1]
    } else {
        line
    }
}

/// Appends the plain text of a decimal; without memory some bytes of it may stand there.
#[tactic(auto, unfolding(crate::specs::Plain::plain_text))]
pub(crate) fn push_plain(
    formatter: &DecimalFormatter,
    decimal: &Decimal,
    out: &mut Vec<u8>,
) -> Result<(), AllocError>
    ensures { OnOk result (out.new.items ≡ out.old.items
        ++ plain_text formatter.now decimal.now.sign decimal.now.absolute) }
{
    let formatted = formatter.format(decimal);
    match formatted.write_events(out) {
        Ok(()) => Ok(()),
        Err(_) => Err(AllocError),
    }
}

/// Appends the compact text of a decimal, or `error: overflow`; without memory some bytes of it may
/// stand there.
fn push_compact(
    alloc: Global,
    formatter: &CompactDecimalFormatter,
    decimal: &Decimal,
    out: &mut Vec<u8>,
) -> Result<(), AllocError>
    ensures { OnOk result (out.new.items ≡ out.old.items
        ++ compact_result formatter.now decimal.now.sign decimal.now.absolute) }
{
    match formatter.format(alloc, decimal) {
        Ok(formatted) => match formatted.write_events(out) {
            Ok(()) => Ok(()),
            Err(_) => Err(AllocError),
        },
        Err(FormatError::Overflow) => out.extend_from_slice(b"error: overflow"),
        Err(FormatError::OutOfMemory | FormatError::Sink) => Err(AllocError),
    }
}

/// Appends what the mode shows for a decimal; without memory some bytes of it may stand there.
fn push_decimal(
    alloc: Global,
    mode: &Mode,
    decimal: &Decimal,
    out: &mut Vec<u8>,
) -> Result<(), AllocError>
    ensures { OnOk result (out.new.items ≡ out.old.items
        ++ text_by mode.now decimal.now.sign decimal.now.absolute) }
{
    match mode {
        Mode::Plain(formatter) => push_plain(formatter, decimal, out),
        Mode::Compact(formatter) => push_compact(alloc, formatter, decimal, out),
    }
}

/// Appends the answer to a text; without memory some bytes of it may stand there.
#[tactic(auto, using(crate::proofs::Answering::answering))]
fn push_result(alloc: Global, mode: &Mode, text: &[u8], out: &mut Vec<u8>) -> Result<(), AllocError>
    ensures { OnOk result (out.new.items ≡ out.old.items ++ text_result mode.now text.now) }
{
    match Decimal::try_from_utf8(alloc, text) {
        Ok(decimal) => push_decimal(alloc, mode, &decimal, out),
        Err(DecimalError::Syntax) => out.extend_from_slice(b"error: not a decimal"),
        Err(DecimalError::Limit) => out.extend_from_slice(b"error: too many digits"),
        Err(DecimalError::OutOfMemory) => Err(AllocError),
    }
}

/// Appends what is written for a line; without memory some bytes of it may stand there.
#[tactic(auto, unfolding(crate::specs::Lines::line_output))]
pub fn push_line(
    alloc: Global,
    mode: &Mode,
    line: &[u8],
    out: &mut Vec<u8>,
) -> Result<(), AllocError>
    ensures { OnOk result (out.new.items ≡ out.old.items
        ++ line_output (text_result mode.now) line.now) }
{
    push_result(alloc, mode, without_return(line), out)?;
    out.push(b'\n')?;
    Ok(())
}
