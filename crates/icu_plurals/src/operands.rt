//! The operands of a number.

ghost use Rattle.std.specs.Prelude.{◌≡◌, ◌<◌, All, take};
ghost use Rattle.icu_plurals.specs.Operands.{number_of, integer_after_moving, fraction_after_moving};
ghost use Rattle.icu_plurals.specs.WholeNumber.{whole_number};

use crate::whole_number::{WholeNumber, number, with_digits, with_zeros, without_trailing_zeros};
use fixed_decimal::UnsignedDecimal;
use std::marker::Model;

/// How many fraction digits the operands take into account.
const SEEN_DIGITS: usize = 18;

/// The operands of a number as it is written, by which plural rules choose a category (UTS 35 Part
/// 3, Plural Operand Meanings). It is a small value that takes no memory.
#[derive(Clone, Copy, Debug, PartialEq, Eq)]
pub struct PluralOperands {
    pub(crate) i: u64,
    pub(crate) is_large: bool,
    pub(crate) v: u8,
    pub(crate) w: u8,
    pub(crate) f: u64,
    pub(crate) t: u64,
    pub(crate) c: u8,
}

/// The operands of a number by UTS 35's letters (Part 3, Plural Operand Meanings; ICU4X
/// `RawPluralOperands`).
#[derive(Clone, Copy, Debug, PartialEq, Eq)]
pub struct RawPluralOperands {
    /// The eighteen lowest integer digits.
    pub i: u64,
    /// Whether an integer digit above these isn't zero. ICU4X has no such field.
    pub is_large: bool,
    /// How many fraction digits there are, of the first eighteen.
    pub v: u8,
    /// How many of them are left without the zeros at their end.
    pub w: u8,
    /// The fraction digits as a number.
    pub f: u64,
    /// The fraction digits without the zeros at their end, as a number.
    pub t: u64,
    /// The exponent of the compact form, also called e.
    pub c: u8,
}

impl Model for PluralOperands {
    ghost use Rattle.icu_plurals.specs.Operands.{Operands};

    ghost Value = { Operands };

    ghost view = { λ s. record {
      i = s.i;
      is_large = s.is_large;
      v = s.v;
      w = s.w;
      f = s.f;
      t = s.t;
      c = s.c;
    } };

    ghost inverse = { λ o. record {
      i = o.i;
      is_large = o.is_large;
      v = o.v;
      w = o.w;
      f = o.f;
      t = o.t;
      c = o.c;
    } };
}

impl PluralOperands {
    ghost use Rattle.std.specs.Prelude.{◌≡◌};
    ghost use Rattle.icu_plurals.specs.Operands.{operands_in, operands_of};
    ghost use Rattle.icu_plurals.specs.Elements.{is_exactly};

    /// The operands of the number `significand * 10^exponent` as it is written once the point is
    /// moved `exponent` places to the right (ICU4X `from_significand_and_exponent`). The exponent
    /// is UTS 35's operand c. Leading zeros don't matter, and fraction digits after the eighteenth
    /// are ignored.
    // promise: Operands are those of the number, its point moved.
    // mutations: operands_exponent_lost, operands_higher_digit_not_noticed
    pub fn from_significand_and_exponent(significand: &UnsignedDecimal, exponent: u8) -> Self
        ensures { result ≡ operands_of significand.now exponent }
    {
        let whole = whole_part(significand, exponent);
        let seen = seen_fraction(significand, exponent);
        let trimmed = without_trailing_zeros(seen);
        PluralOperands {
            i: whole.lowest,
            is_large: whole.is_large,
            v: seen.len() as u8,
            w: trimmed.len() as u8,
            f: number(seen),
            t: number(trimmed),
            c: exponent,
        }
    }

    /// The operands by their letters.
    // promise: Each letter has its operand.
    // mutations: raw_fraction_without_its_zeros
    pub fn raw(self) -> RawPluralOperands
        ensures { operands_in result ≡ self }
    {
        RawPluralOperands {
            i: self.i,
            is_large: self.is_large,
            v: self.v,
            w: self.w,
            f: self.f,
            t: self.t,
            c: self.c,
        }
    }

    /// Whether the number is exactly this integer, written without fraction digits or an exponent.
    pub(crate) fn is_exactly(self, number: u64) -> bool
        ensures { result ≡ is_exactly number self }
    {
        !self.is_large && self.i == number && self.v == 0 && self.c == 0
    }
}

/// The number that stands before the point, once it is moved `places` to the right.
fn whole_part(significand: &UnsignedDecimal, places: u8) -> WholeNumber
    ensures { result ≡ whole_number (number_of (integer_after_moving places significand.now)) }
{
    let fraction = significand.fraction();
    let passed = fraction.split_at(fraction.len().min(places as usize)).0;
    let nothing = WholeNumber {
        lowest: 0,
        is_large: false,
    };
    let integer = with_digits(nothing, significand.integer());
    let whole = with_digits(integer, passed);
    with_zeros(whole, places as usize - passed.len())
}

/// The first eighteen digits that stand behind the point, once it is moved `places` to the right.
fn seen_fraction(significand: &UnsignedDecimal, places: u8) -> &[u8]
    ensures digits { result.now ≡ take 18 (fraction_after_moving places significand.now) }
    ensures below_ten { All (λ d. d < 10) result.now }
{
    let fraction = significand.fraction();
    let behind = fraction.split_at(fraction.len().min(places as usize)).1;
    behind.split_at(behind.len().min(SEEN_DIGITS)).0
}
