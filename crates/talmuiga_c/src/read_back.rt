//! Reads the text of a number back, as a formatter that is kept writes numbers in full.

ghost use Rattle.std.specs.Prelude.{◌≡◌, IfErr, IfNone, IfOk, IfSome, OnErr, Some, chars, option_map};
ghost use Rattle.std.specs.Str.{is_utf8};
ghost use Rattle.icu_decimal_reading.specs.Reading.{IfNoNumber, IsAt, IsNoText, fault_byte};
ghost use Rattle.talmuiga_c.specs.ReadBack.{HoldsNumber, IsReadBack, IsReader, ReadsBytes, ReadsCharacters, formatter_plain, kept_plain, mode_plain};

use crate::kept::Kept;
use crate::output::put_text;
use crate::plain_digits::spelled;
use crate::status;
use decimal_lines::Mode;
use icu_decimal::DecimalFormatter;
use icu_decimal_reading::{NotRead, read_text};
use number_formatters::Formatter;
use std::alloc::Global;
use std::str;

/// The text isn't that of any number, as the formatter writes numbers.
pub const NOT_READ: u32 = 22;

/// The formatter reads no texts: it doesn't write numbers in full and alone, or their texts don't
/// determine them.
pub const NO_READING: u32 = 23;

/// What writes numbers in full, if a mode does.
fn mode_plain(mode: &Mode) -> Option<&DecimalFormatter>
    ensures { option_map (λ formatter. formatter.now) result ≡ mode_plain mode.now }
{
    match mode {
        Mode::Plain(formatter) => Some(formatter),
        Mode::Compact(_) => None,
    }
}

/// The same of a formatter of a form, which writes numbers alone.
fn formatter_plain(formatter: &Formatter) -> Option<&DecimalFormatter>
    ensures { option_map (λ plain. plain.now) result ≡ formatter_plain formatter.now }
{
    match formatter {
        Formatter::Numbers(mode) => mode_plain(mode),
        _ => None,
    }
}

/// The same of a formatter that is kept.
fn kept_plain(kept: &Kept) -> Option<&DecimalFormatter>
    ensures { option_map (λ plain. plain.now) result ≡ kept_plain kept.now }
{
    match kept {
        Kept::ByWords(mode) => mode_plain(mode),
        Kept::BySkeleton(form) => formatter_plain(form.formatter()),
        Kept::WithRanges(form, _) => formatter_plain(form.formatter()),
    }
}

/// Reads a text, and writes its decimal in plain digits, if they fit. The result is their length.
fn put_number(
    alloc: Global,
    formatter: &DecimalFormatter,
    text: &str,
    output: &mut [u8],
) -> Result<usize, NotRead>
    ensures ok { IfOk result (λ n.
        HoldsNumber formatter.now (chars text.now) output.old output.new n) }
    ensures refused { IsReader formatter.now
        → IfErr result (IfNoNumber (IsNoText formatter.now (chars text.now))) }
    ensures byte { IfErr result (IsAt (fault_byte formatter.now (chars text.now))) }
    ensures unchanged { OnErr result (output.new ≡ output.old) }
{
    let decimal = read_text(alloc, formatter, text)?;
    let digits = spelled(alloc, &decimal)?;
    Ok(put_text(output, &digits))
}

/// Reads a text, and sets the length of its decimal and the byte of a fault.
fn read_characters(
    alloc: Global,
    formatter: &DecimalFormatter,
    text: &str,
    output: &mut [u8],
    length: &mut usize,
    byte: &mut usize,
) -> u32
    requires { IsReader formatter.now }
    ensures { ReadsCharacters formatter.now (chars text.now) output.old output.new length.new
        byte.new result }
{
    *length = 0;
    *byte = 0;
    match put_number(alloc, formatter, text, output) {
        Ok(count) => {
            *length = count;
            if count <= output.len() {
                status::DONE
            } else {
                status::OUTPUT_TOO_SMALL
            }
        }
        Err(NotRead::NoNumber { byte: place }) => {
            *byte = place;
            NOT_READ
        }
        Err(NotRead::OutOfMemory) => status::OUT_OF_MEMORY,
    }
}

/// The same of bytes.
fn read_bytes(
    alloc: Global,
    formatter: &DecimalFormatter,
    text: &[u8],
    output: &mut [u8],
    length: &mut usize,
    byte: &mut usize,
) -> u32
    requires { IsReader formatter.now }
    ensures { ReadsBytes (is_utf8 text.now) formatter.now text.now output.old output.new
        length.new byte.new result }
{
    match str::from_utf8(text) {
        Ok(text) => read_characters(alloc, formatter, text, output, length, byte),
        Err(error) => {
            *length = 0;
            *byte = error.valid_up_to();
            NOT_READ
        }
    }
}

/// What reads the texts of a formatter that is kept, if it has readable ones.
fn reader(kept: &Kept) -> Option<&DecimalFormatter>
    ensures some { IfSome result (λ reader.
        (kept_plain kept.now ≡ Some reader.now) × IsReader reader.now) }
    ensures none { IfNone result (IfSome (kept_plain kept.now) (λ format. ¬ (IsReader format))) }
{
    let plain = kept_plain(kept)?;
    if plain.is_readable() {
        Some(plain)
    } else {
        None
    }
}

/// Reads a text as a formatter that is kept writes numbers, and sets the length of its decimal
/// and the byte of a fault.
pub fn read_in(
    alloc: Global,
    kept: &Kept,
    text: &[u8],
    output: &mut [u8],
    length: &mut usize,
    byte: &mut usize,
) -> u32
    ensures { IsReadBack kept.now text.now output.old output.new length.new byte.new result }
{
    match reader(kept) {
        Some(formatter) => read_bytes(alloc, formatter, text, output, length, byte),
        None => {
            *length = 0;
            *byte = 0;
            NO_READING
        }
    }
}
