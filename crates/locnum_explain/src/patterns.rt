//! The patterns in which numbers stand, each in a line, with `{0}` in the place of the number.

ghost use Rattle.std.specs.Prelude.{◌≡◌, ◌++◌, OnOk};
ghost use Rattle.locnum_explain.specs.Patterns.{name_line, signed_line, unit_line, written_line};

use fixed_decimal::{Sign, UnsignedDecimal};
use icu_decimal::DecimalFormatter;
use icu_dimension::{LongCurrencyFormatter, UnitsFormatter};
use icu_dimension_data::SignedPatterns;
use icu_plurals::PluralOperands;
use std::alloc::{AllocError, Global};
use writeable::Writeable;

/// What stands in the place of the number.
const NUMBER_PLACEHOLDER: &str = "{0}";

/// Appends the line of a pattern, by what it writes.
#[tactic(auto, unfolding(crate::specs::Patterns::written_line))]
fn push_written<W: Writeable>(
    alloc: Global,
    pattern: &W,
    out: &mut Vec<u8>,
) -> Result<(), AllocError>
    ensures { OnOk result (out.new.items ≡ out.old.items
        ++ written_line (W.events pattern.now)) }
{
    let Ok(text) = pattern.write_to_string(alloc) else {
        return Err(AllocError);
    };
    out.extend_from_slice(b"  pattern    ")?;
    out.extend_from_slice(text.as_bytes())?;
    out.push(b'\n')?;
    Ok(())
}

/// Appends the pattern of numbers of a sign.
pub(crate) fn push_signed(
    alloc: Global,
    patterns: &SignedPatterns,
    sign: Sign,
    out: &mut Vec<u8>,
) -> Result<(), AllocError>
    ensures { OnOk result (out.new.items ≡ out.old.items ++ signed_line patterns.now sign) }
{
    push_written(
        alloc,
        &patterns.for_sign(sign).interpolate(NUMBER_PLACEHOLDER),
        out,
    )
}

/// Appends the pattern that a number picks among those with the name of a currency.
pub(crate) fn push_name(
    alloc: Global,
    formatter: &LongCurrencyFormatter<DecimalFormatter>,
    value: &UnsignedDecimal,
    out: &mut Vec<u8>,
) -> Result<(), AllocError>
    ensures { OnOk result (out.new.items ≡ out.old.items
        ++ name_line formatter.now.rules formatter.now.elements value.now) }
{
    let operands = PluralOperands::from_significand_and_exponent(value, 0);
    let pattern = formatter.elements().get(operands, formatter.plural_rules());
    push_written(alloc, &pattern.interpolate(NUMBER_PLACEHOLDER), out)
}

/// Appends the pattern that a number picks among those with a unit.
pub(crate) fn push_unit(
    alloc: Global,
    formatter: &UnitsFormatter<DecimalFormatter>,
    value: &UnsignedDecimal,
    out: &mut Vec<u8>,
) -> Result<(), AllocError>
    ensures { OnOk result (out.new.items ≡ out.old.items
        ++ unit_line formatter.now.rules formatter.now.elements value.now) }
{
    let operands = PluralOperands::from_significand_and_exponent(value, 0);
    let pattern = formatter.elements().get(operands, formatter.plural_rules());
    push_written(alloc, &pattern.interpolate(NUMBER_PLACEHOLDER), out)
}
