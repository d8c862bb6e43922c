//! Reading a text as a number.

ghost use Rattle.std.specs.Prelude.{◌≡◌, ◌≢◌, ◌<◌, All, IfErr, IfOk, chars};
ghost use Rattle.fixed_decimal.specs.Unsigned.{IsUnsigned};
ghost use Rattle.fixed_decimal.specs.declared.signs.Sign.{Sign as OfSign};
ghost use Rattle.icu_decimal_readable.specs.Readable.{IsReadable};
ghost use Rattle.icu_decimal_reading.specs.Reading.{IfNoNumber, IsAt, IsNoText, IsNotWritten, IsTextOf, differs_scaled, differs_written};
ghost use Rattle.icu_decimal_reading.specs.Reading.{fault_byte, no_nearer, number_of, ungrouped, values, written};

use crate::NotRead;
use crate::digits::{last_run, values_of};
use crate::number::number_of;
use crate::written::{sign_of, ungrouped};
use fixed_decimal::Decimal;
use icu_decimal::DecimalFormatter;
use std::alloc::Global;

/// What was read, with the greater of two bytes if it is no number.
fn no_nearer(byte: usize, read: Result<Decimal, NotRead>) -> Result<Decimal, NotRead>
    ensures { result ≡ no_nearer byte read }
{
    match read {
        Err(NotRead::NoNumber { byte: other }) => Err(NotRead::NoNumber {
            byte: byte.max(other),
        }),
        read => read,
    }
}

/// Reads a text as the number with these digits, so many of them behind the separator.
fn read_scaled(
    alloc: Global,
    formatter: &DecimalFormatter,
    digits: &[u8],
    scale: usize,
    text: &str,
) -> Result<Decimal, NotRead>
    requires below_ten { All (λ d. d < 10) digits.now }
    requires digits { digits.now ≡ values formatter.now.digits (chars text.now) }
    ensures read { IfOk result (λ d. chars text.now ≡ written formatter.now d.sign d.absolute) }
    ensures valid { IfOk result (λ d. IsUnsigned d.absolute) }
    ensures refused { IfErr result (IfNoNumber ((sign : OfSign) →
        IsUnsigned (number_of digits.now scale)
        → chars text.now ≢ written formatter.now sign (number_of digits.now scale))) }
    ensures byte { IfErr result (IsAt (differs_scaled formatter.now (chars text.now) scale)) }
{
    let Some(absolute) = number_of(alloc, digits, scale)? else {
        return Err(NotRead::NoNumber { byte: 0 });
    };
    let sign = sign_of(alloc, formatter, &absolute, text)?;
    Ok(Decimal { sign, absolute })
}

/// Reads a text as a number with these digits.
fn read_digits(
    alloc: Global,
    formatter: &DecimalFormatter,
    digits: &[u8],
    text: &str,
) -> Result<Decimal, NotRead>
    requires below_ten { All (λ d. d < 10) digits.now }
    requires digits { digits.now ≡ values formatter.now.digits (chars text.now) }
    ensures read { IfOk result (λ d. chars text.now ≡ written formatter.now d.sign d.absolute) }
    ensures valid { IfOk result (λ d. IsUnsigned d.absolute) }
    ensures refused { IsReadable formatter.now.symbols.strings formatter.now.digits
        → IfErr result (IfNoNumber (IsNotWritten formatter.now (chars text.now))) }
    ensures byte { IfErr result (IsAt (differs_written formatter.now (chars text.now))) }
{
    match read_scaled(alloc, formatter, digits, 0, text) {
        Err(NotRead::NoNumber { byte }) => {
            let scale = last_run(formatter.digits(), text);
            no_nearer(byte, read_scaled(alloc, formatter, digits, scale, text))
        }
        read => read,
    }
}

/// Reads a text with just the groups that the formatter writes.
fn read_written(alloc: Global, formatter: &DecimalFormatter, text: &str) -> Result<Decimal, NotRead>
    ensures read { IfOk result (λ d. chars text.now ≡ written formatter.now d.sign d.absolute) }
    ensures valid { IfOk result (λ d. IsUnsigned d.absolute) }
    ensures refused { IsReadable formatter.now.symbols.strings formatter.now.digits
        → IfErr result (IfNoNumber (IsNotWritten formatter.now (chars text.now))) }
    ensures byte { IfErr result (IsAt (differs_written formatter.now (chars text.now))) }
{
    let digits = values_of(alloc, formatter.digits(), text)?;
    read_digits(alloc, formatter, &digits, text)
}

/// Reads a text without groups.
fn read_ungrouped(
    alloc: Global,
    formatter: &DecimalFormatter,
    text: &str,
) -> Result<Decimal, NotRead>
    ensures read { IfOk result (λ d.
        chars text.now ≡ written (ungrouped formatter.now) d.sign d.absolute) }
    ensures valid { IfOk result (λ d. IsUnsigned d.absolute) }
    ensures refused { IsReadable formatter.now.symbols.strings formatter.now.digits
        → IfErr result (IfNoNumber (IsNotWritten (ungrouped formatter.now) (chars text.now))) }
    ensures byte { IfErr result
        (IsAt (differs_written (ungrouped formatter.now) (chars text.now))) }
{
    let plain = ungrouped(alloc, formatter)?;
    read_written(alloc, &plain, text)
}

/// Reads the text of a number, as the formatter writes it: with its groups or with none.
///
/// The digits of the text are those characters that are digits of the formatter. The number is the
/// whole number with these digits, or the one with the last run of digits as its fraction. If the
/// text is that of neither, with any sign, the answer is `NoNumber`.
///
/// What is read is written again in the same bytes ([`laws::read_is_written`]). If the formatter is
/// readable ([`DecimalFormatter::is_readable`]), each text that it writes is read as its decimal,
/// in sign, range and every digit ([`laws::written_is_read`]). No other text is read: none with
/// further spaces, other signs or groups of another size.
///
/// It takes memory for the digits, the number, at most twelve texts and, if the text isn't read with
/// groups, for a copy of the symbols.
///
/// [`laws::read_is_written`]: crate::laws::read_is_written
/// [`laws::written_is_read`]: crate::laws::written_is_read
// promise: The text given is a text of the decimal that is read.
// mutations: text_compared_by_its_length
// promise: If readable, each text of a decimal is read.
// mutations: fraction_not_tried, plus_not_tried
// promise: `NoNumber` names the byte where the text differs.
// mutations: fault_of_the_nearer_text
pub fn read_text(
    alloc: Global,
    formatter: &DecimalFormatter,
    text: &str,
) -> Result<Decimal, NotRead>
    ensures read { IfOk result (λ d.
        IsTextOf formatter.now (chars text.now) d.sign d.absolute) }
    ensures valid { IfOk result (λ d. IsUnsigned d.absolute) }
    // No text that a readable formatter writes is rejected.
    ensures refused { IsReadable formatter.now.symbols.strings formatter.now.digits
        → IfErr result (IfNoNumber (IsNoText formatter.now (chars text.now))) }
    ensures byte { IfErr result (IsAt (fault_byte formatter.now (chars text.now))) }
{
    match read_written(alloc, formatter, text) {
        Err(NotRead::NoNumber { byte }) => {
            no_nearer(byte, read_ungrouped(alloc, formatter, text))
        }
        read => read,
    }
}
