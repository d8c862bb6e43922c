//! Numbers multiplied by a power of ten.

ghost use Rattle.std.specs.Prelude.{◌≡◌, ◌↔◌, IfErr, IfOk, OnOk, IsTrue, Ok, max};
ghost use Rattle.fixed_decimal.specs.Modes.{IsLeastFrom};
ghost use Rattle.fixed_decimal.specs.Padding.{IsExactWith};
ghost use Rattle.fixed_decimal.specs.Size.{magnitude, size};
ghost use Rattle.fixed_decimal.specs.Unsigned.{IsUnsigned, integer_count};
ghost use Rattle.decimal_lines.specs.Computed.{count_up_to};
ghost use Rattle.decimal_lines.specs.SingleText.{IsRefusal};
ghost use Rattle.number_forms.specs.Scaled.{IsBare, moved_number, scaled};

use decimal_lines::TextError;
use fixed_decimal::{Decimal, DecimalError, UnsignedDecimal};
use std::alloc::Global;

/// Whether a number begins with a digit other than 0, or with that at power 0.
pub(crate) fn has_no_zeros_before(value: &UnsignedDecimal) -> bool
    ensures none { IsTrue result ↔ (integer_count value.now
        ≡ max 1 (count_up_to (magnitude (size value.now)))) }
    ensures valid { IsUnsigned value.now }
{
    value.nonzero_magnitude_start().max(0) as usize + 1 == value.integer().len()
}

/// The same number without zeros before it, and with as many fraction digits as it needs, and that
/// many at least.
pub(crate) fn trimmed(alloc: Global, decimal: &Decimal, least: u16) -> Result<Decimal, TextError>
    ensures size { IfOk result (λ d. size d.absolute ≡ size decimal.now.absolute) }
    ensures count { IfOk result (λ d. integer_count d.absolute
        ≡ max 1 (count_up_to (magnitude (size decimal.now.absolute)))) }
    ensures scale { IfOk result (λ d. IsLeastFrom (IsExactWith (size decimal.now.absolute))
        least d.absolute.scale) }
    ensures valid { IfOk result (λ d. IsUnsigned d.absolute) }
    ensures sign { IfOk result (λ d. d.sign ≡ decimal.now.sign) }
    ensures memory { IfErr result (λ error. error ≡ TextError.OutOfMemory) }
{
    match decimal.absolute.padded(alloc, 1, least as usize) {
        Ok(absolute) => Ok(Decimal {
            sign: decimal.sign,
            absolute,
        }),
        Err(_) => Err(TextError::OutOfMemory),
    }
}

/// How many digits stand below power 0.
pub(crate) fn scale_of(value: &UnsignedDecimal) -> u16
    ensures scale { result ≡ value.now.scale }
    ensures valid { IsUnsigned value.now }
{
    value.fraction().len() as u16
}

/// Takes the zeros before a number off; its fraction digits stay.
fn make_bare(alloc: Global, decimal: &mut Decimal) -> Result<(), TextError>
    ensures bare { OnOk result (IsBare decimal.old.absolute decimal.new.absolute) }
    ensures sign { decimal.new.sign ≡ decimal.old.sign }
    ensures memory { IfErr result (λ error. error ≡ TextError.OutOfMemory) }
{
    if has_no_zeros_before(&decimal.absolute) {
        return Ok(());
    }
    *decimal = trimmed(alloc, decimal, scale_of(&decimal.absolute))?;
    Ok(())
}

/// Moves each digit that many powers higher.
fn move_digits(alloc: Global, decimal: &mut Decimal, power: i16) -> Result<(), TextError>
    ensures ok { OnOk result
        (moved_number power decimal.old.absolute ≡ Ok decimal.new.absolute) }
    ensures sign { decimal.new.sign ≡ decimal.old.sign }
    ensures refused { IfErr result (λ error.
        IsRefusal (moved_number power decimal.old.absolute) error) }
{
    make_bare(alloc, decimal)?;
    match decimal.multiply_pow10(power) {
        Ok(()) => make_bare(alloc, decimal),
        Err(DecimalError::Limit) => Err(TextError::Overflow),
        Err(_) => Err(TextError::OutOfMemory),
    }
}

/// Multiplies a number by ten to the power; its digits stay as they are, where that is one.
pub(crate) fn scale(alloc: Global, decimal: &mut Decimal, power: i16) -> Result<(), TextError>
    ensures ok { OnOk result (scaled power decimal.old.absolute ≡ Ok decimal.new.absolute) }
    ensures sign { decimal.new.sign ≡ decimal.old.sign }
    ensures refused { IfErr result (λ error. IsRefusal (scaled power decimal.old.absolute) error) }
{
    if power == 0 {
        return Ok(());
    }
    move_digits(alloc, decimal, power)
}
