//! What is said of compact numbers besides their texts and their magnitudes.

ghost use Rattle.std.specs.Prelude.{◌≡◌, ◌++◌, OnOk};
ghost use Rattle.fixed_decimal.specs.Size.{place};
ghost use Rattle.fixed_decimal.specs.Unsigned.{IsUnsigned};
ghost use Rattle.icu_decimal_data.specs.CompactTable.{IsCompactTable, IsIndex, entry_at};
ghost use Rattle.icu_decimal.specs.CompactFormat.{magnitude_with, pattern_of, significand_of};
ghost use Rattle.icu_decimal.specs.CompactNumber.{rounding_place};
ghost use Rattle.locnum_explain.specs.Facts.{pattern_line};
ghost use Rattle.locnum_explain.specs.Compact.{amount_facts, compact_facts, entry_lines, frame_for, frame_line, showable_line};

use crate::around::push_around;
use crate::facts::{push_entry, push_pattern};
use crate::operands::push_operands;
use crate::patterns::push_signed;
use fixed_decimal::{Decimal, Sign, UnsignedDecimal};
use icu_decimal::error::FormatError;
use icu_decimal::{CompactDecimalFormatter, FormattedUnsignedCompactDecimal};
use icu_dimension::CompactCurrencyFormatter;
use icu_dimension_data::SignedPatterns;
use icu_plurals::PluralOperands;
use std::alloc::{AllocError, Global};

/// Appends the line of the pattern of an entry for a significand; of the number alone without an
/// entry.
#[tactic(auto, unfolding(crate::specs::Facts::pattern_line, crate::specs::Facts::placeholder_line))]
fn push_pattern_at(
    formatter: &CompactDecimalFormatter,
    index: Option<usize>,
    significand: &UnsignedDecimal,
    out: &mut Vec<u8>,
) -> Result<(), AllocError>
    requires { IsIndex formatter.now.table index }
    ensures { OnOk result (out.new.items ≡ out.old.items ++ pattern_line
        (pattern_of formatter.now (entry_at formatter.now.table index) significand.now)) }
{
    let Some(index) = index else {
        return out.extend_from_slice(b"  pattern    {0}\n");
    };
    let operands = PluralOperands::from_significand_and_exponent(significand, 0);
    let rules = formatter.plural_rules();
    push_pattern(formatter.patterns().pick(index, &operands, rules), out)
}

/// Appends the entry for a magnitude, and the operands, the category and the pattern of a
/// significand.
fn push_entry_lines(
    formatter: &CompactDecimalFormatter,
    magnitude: i32,
    significand: &UnsignedDecimal,
    out: &mut Vec<u8>,
) -> Result<(), AllocError>
    ensures appended { OnOk result (out.new.items ≡ out.old.items
        ++ entry_lines formatter.now (place magnitude) significand.now) }
    ensures table { IsCompactTable formatter.now.table }
{
    let patterns = formatter.patterns();
    let index = patterns.entry_index(magnitude);
    push_entry(patterns, magnitude, out)?;
    push_operands(formatter.plural_rules(), significand, out)?;
    push_pattern_at(formatter, index, significand, out)
}

/// Appends what a compact number is displayed by.
fn push_decomposed(
    formatter: &CompactDecimalFormatter,
    number: &FormattedUnsignedCompactDecimal<'_>,
    out: &mut Vec<u8>,
) -> Result<(), AllocError>
    ensures appended { OnOk result (out.new.items ≡ out.old.items ++ entry_lines formatter.now
        (place (magnitude_with (significand_of number.now) number.now.exponent))
        (significand_of number.now)) }
    ensures table { IsCompactTable formatter.now.table }
{
    let significand = number.significand();
    let magnitude = significand.nonzero_magnitude_start() as i32 + number.exponent() as i32;
    push_entry_lines(formatter, magnitude, significand, out)
}

/// The power at which a number of a magnitude is rounded, given the exponent for that magnitude.
fn round_power(exponent: u8, magnitude: i16) -> i32
    ensures { place result ≡ rounding_place exponent (place magnitude) }
{
    let magnitude = magnitude as i32;
    let exponent = exponent as i32;
    if magnitude > exponent {
        exponent
    } else {
        magnitude - 1
    }
}

/// Appends the line of the two values around a number that are shown at its magnitude.
fn push_showable(
    alloc: Global,
    formatter: &CompactDecimalFormatter,
    value: &UnsignedDecimal,
    out: &mut Vec<u8>,
) -> Result<(), AllocError>
    ensures { OnOk result (out.new.items ≡ out.old.items
        ++ showable_line formatter.now.table value.now) }
{
    let magnitude = value.nonzero_magnitude_start();
    let exponent = formatter.compact_exponent_for_magnitude(magnitude);
    push_around(alloc, round_power(exponent, magnitude), value, out)
}

/// Appends what is said of a compact number: the two values around it that are shown, and the
/// entry, the operands, the category and the pattern by which it is displayed; nothing where its
/// nearest compact number is ten to the power 32768 or more.
pub(crate) fn push_compact(
    alloc: Global,
    formatter: &CompactDecimalFormatter,
    decimal: &Decimal,
    out: &mut Vec<u8>,
) -> Result<(), AllocError>
    requires { IsUnsigned decimal.now.absolute }
    ensures { OnOk result (out.new.items ≡ out.old.items
        ++ compact_facts formatter.now decimal.now.absolute) }
{
    match formatter.format(alloc, decimal) {
        Ok(formatted) => {
            push_showable(alloc, formatter, &decimal.absolute, out)?;
            push_decomposed(formatter, formatted.value(), out)
        }
        Err(FormatError::Overflow) => Ok(()),
        Err(FormatError::OutOfMemory | FormatError::Sink) => Err(AllocError),
    }
}

/// Appends the pattern of money around a compact number, unless an entry displays it.
fn push_frame_for(
    alloc: Global,
    patterns: &SignedPatterns,
    sign: Sign,
    has_entry: bool,
    out: &mut Vec<u8>,
) -> Result<(), AllocError>
    ensures { OnOk result (out.new.items ≡ out.old.items
        ++ frame_for patterns.now sign has_entry) }
{
    if has_entry {
        Ok(())
    } else {
        push_signed(alloc, patterns, sign, out)
    }
}

/// Appends the pattern of money in which a compact amount stands, if it stands in one.
fn push_frame(
    alloc: Global,
    money: &CompactCurrencyFormatter,
    decimal: &Decimal,
    out: &mut Vec<u8>,
) -> Result<(), AllocError>
    ensures { OnOk result (out.new.items ≡ out.old.items
        ++ frame_line money.now decimal.now.sign decimal.now.absolute) }
{
    let sign = decimal.sign;
    match money.for_sign(sign).format(alloc, decimal) {
        Ok(formatted) => {
            let has_entry = money.has_entry(sign, formatted.value());
            push_frame_for(alloc, money.patterns(), sign, has_entry, out)
        }
        Err(FormatError::Overflow) => Ok(()),
        Err(FormatError::OutOfMemory | FormatError::Sink) => Err(AllocError),
    }
}

/// Appends what is said of a compact amount: that of its compact number, by the formatter of its
/// sign, and the pattern of money in which it stands, if it stands in one.
// promise: A compact amount has the patterns of its own sign.
// mutations: amount_by_the_patterns_without_a_sign
pub(crate) fn push_amount(
    alloc: Global,
    money: &CompactCurrencyFormatter,
    decimal: &Decimal,
    out: &mut Vec<u8>,
) -> Result<(), AllocError>
    requires { IsUnsigned decimal.now.absolute }
    ensures { OnOk result (out.new.items ≡ out.old.items
        ++ amount_facts money.now decimal.now.sign decimal.now.absolute) }
{
    push_compact(alloc, money.for_sign(decimal.sign), decimal, out)?;
    push_frame(alloc, money, decimal, out)
}
