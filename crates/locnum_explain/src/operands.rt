//! The plural operands of a number as it is written, and its category.

ghost use Rattle.std.specs.Prelude.{◌≡◌, ◌++◌, OnOk, decimal};
ghost use Rattle.icu_plurals.specs.Operands.{operands_in};
ghost use Rattle.locnum_explain.specs.Operands.{category_name, large_text, operands_and_category, operands_line, operands_text};

use fixed_decimal::UnsignedDecimal;
use icu_plurals::{PluralCategory, PluralOperands, PluralRules, RawPluralOperands};
use itoa::Buffer;
use std::alloc::AllocError;

/// Appends a letter and the number that it stands for.
fn push_operand(letter: &[u8], number: u64, out: &mut Vec<u8>) -> Result<(), AllocError>
    ensures { OnOk result (out.new.items ≡ out.old.items ++ letter.now ++ decimal number) }
{
    let mut digits = Buffer::new();
    out.extend_from_slice(letter)?;
    out.extend_from_slice(digits.format(number).as_bytes())
}

/// Appends the dots of a number with more digits than those that are seen.
fn push_large(is_large: bool, out: &mut Vec<u8>) -> Result<(), AllocError>
    ensures { OnOk result (out.new.items ≡ out.old.items ++ large_text is_large) }
{
    if is_large {
        out.extend_from_slice(b"...")?;
    }
    Ok(())
}

/// Appends operands.
#[tactic(auto, unfolding(crate::specs::Operands::operands_text))]
fn push_operands_text(operands: RawPluralOperands, out: &mut Vec<u8>) -> Result<(), AllocError>
    ensures { OnOk result (out.new.items ≡ out.old.items ++ operands_text (operands_in operands)) }
{
    out.extend_from_slice(b"i=")?;
    push_large(operands.is_large, out)?;
    push_operand(b"", operands.i, out)?;
    push_operand(b" v=", operands.v as u64, out)?;
    push_operand(b" w=", operands.w as u64, out)?;
    push_operand(b" f=", operands.f, out)?;
    push_operand(b" t=", operands.t, out)?;
    push_operand(b" c=", operands.c as u64, out)
}

/// The name of a category.
fn category_name(category: PluralCategory) -> &'static str
    ensures { result.now ≡ category_name category }
{
    match category {
        PluralCategory::Zero => "zero",
        PluralCategory::One => "one",
        PluralCategory::Two => "two",
        PluralCategory::Few => "few",
        PluralCategory::Many => "many",
        PluralCategory::Other => "other",
    }
}

/// Appends the line of operands and a category.
#[tactic(auto, unfolding(crate::specs::Operands::operands_and_category))]
fn push_operands_and_category(
    operands: RawPluralOperands,
    category: PluralCategory,
    out: &mut Vec<u8>,
) -> Result<(), AllocError>
    ensures { OnOk result (out.new.items ≡ out.old.items
        ++ operands_and_category (operands_in operands) category) }
{
    out.extend_from_slice(b"  operands   ")?;
    push_operands_text(operands, out)?;
    out.extend_from_slice(b" -> ")?;
    out.extend_from_slice(category_name(category).as_bytes())?;
    out.push(b'\n')?;
    Ok(())
}

/// Appends the line of the plural operands of a number as it is written, and of its category by
/// plural rules (UTS 35 Part 3, Plural Operand Meanings; this project's own). Of the integer digits
/// the eighteen lowest are seen, behind `...` where another isn't zero. Without memory some bytes
/// of the line may stand there.
// promise: Rules and number determine the operands and the category.
// mutations: operands_w_counts_zeros_at_the_end
#[tactic(auto, unfolding(crate::specs::Operands::operands_line))]
pub fn push_operands(
    rules: &PluralRules,
    value: &UnsignedDecimal,
    out: &mut Vec<u8>,
) -> Result<(), AllocError>
    ensures { OnOk result (out.new.items ≡ out.old.items ++ operands_line rules.now value.now) }
{
    let operands = PluralOperands::from_significand_and_exponent(value, 0);
    push_operands_and_category(operands.raw(), rules.category_for(operands), out)
}
