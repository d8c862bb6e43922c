//! When the conditions of plural rules hold.
ghost use Rattle.std.specs.Prelude.{◌≡◌};
ghost use Rattle.std.specs.List.{list_any, list_all};
ghost use Rattle.icu_plurals.specs.Meaning.{remainder, integer, sought, has, is_listed, relation_holds, holds};
ghost use Rattle.icu_plurals_conditions.specs.Owned.{relation_of, condition_in};

use crate::operands::PluralOperands;
use icu_plurals_conditions::condition::{Alternative, Condition, Item, Operand, Relation};

/// The number, reduced by the modulus if there is one. A modulus of zero, which no condition that
/// was read has, leaves the number as it is.
fn reduced(number: u64, modulus: Option<u64>) -> u64
    ensures { result ≡ remainder number modulus }
{
    match modulus {
        None | Some(0) => number,
        Some(modulus) => number % modulus,
    }
}

/// The integer digits, reduced by the modulus; none where they are more than a listed value can
/// have.
fn integer_digits(operands: PluralOperands, modulus: Option<u64>) -> Option<u64>
    ensures { result ≡ integer operands modulus }
{
    if modulus.is_none() && operands.is_large {
        return None;
    }
    Some(reduced(operands.i, modulus))
}

/// The value of an operand, reduced by the modulus; none where no listed value can equal it.
fn number_sought(operands: PluralOperands, operand: Operand, modulus: Option<u64>) -> Option<u64>
    ensures { result ≡ sought operands operand modulus }
{
    let number = match operand {
        Operand::N if operands.t > 0 => return None,
        Operand::N | Operand::I => return integer_digits(operands, modulus),
        Operand::V => u64::from(operands.v),
        Operand::W => u64::from(operands.w),
        Operand::F => operands.f,
        Operand::T => operands.t,
        Operand::C | Operand::E => u64::from(operands.c),
    };
    Some(reduced(number, modulus))
}

/// Whether the number is this value, or in this range.
fn has(item: Item, number: u64) -> bool
    ensures { result ≡ has number item }
{
    match item {
        Item::Value(value) => number == value,
        Item::Range(first, last) => first <= number && number <= last,
    }
}

/// Whether the number is one of these values, or in one of these ranges.
fn one_has(ranges: &[Item], number: u64) -> bool
    ensures { result ≡ list_any (has number) ranges.now }
{
    ranges.iter().any(|item| has(*item, number))
}

/// Whether a relation lists the number, if there is one.
fn lists(relation: &Relation, number: Option<u64>) -> bool
    ensures { result ≡ is_listed number relation.now.ranges.items }
{
    match number {
        Some(number) => one_has(&relation.ranges, number),
        None => false,
    }
}

/// Whether a relation holds.
fn relation_holds(relation: &Relation, operands: PluralOperands) -> bool
    ensures { result ≡ relation_holds operands (relation_of relation.now) }
{
    let number = number_sought(operands, relation.operand, relation.modulus);
    lists(relation, number) != relation.negated
}

fn all_hold(relations: &[Relation], operands: PluralOperands) -> bool
    ensures { result ≡ list_all (λ r. relation_holds operands (relation_of r)) relations.now }
{
    relations
        .iter()
        .all(|relation| relation_holds(relation, operands))
}

fn one_holds(alternatives: &[Alternative], operands: PluralOperands) -> bool
    ensures { result ≡ list_any (λ a.
        list_all (λ r. relation_holds operands (relation_of r)) a.relations.items)
        alternatives.now }
{
    alternatives
        .iter()
        .any(|alternative| all_hold(&alternative.relations, operands))
}

/// Whether a condition holds of a number with these operands.
pub(crate) fn condition_holds(condition: &Condition, operands: PluralOperands) -> bool
    ensures { result ≡ holds operands (condition_in condition.now) }
{
    let alternatives = condition.alternatives.as_slice();
    if alternatives.is_empty() {
        return true;
    }
    one_holds(alternatives, operands)
}
