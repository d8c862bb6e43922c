//! Conditions of plural rules as values.
ghost use Rattle.std.specs.Prelude.{◌≡◌, IfOk, IsOkUnless, map};
ghost use Rattle.icu_plurals_conditions.specs.Owned.{relation_of, relations_of, condition_in};

use crate::error::RulesError;
use std::alloc::Global;

/// An operand of a relation, by the letter that UTS 35 gives it.
#[derive(Clone, Copy, PartialEq, Eq)]
pub enum Operand {
    /// The absolute value of the number (n).
    N,
    /// The integer digits as a number (i).
    I,
    /// The number of fraction digits, with trailing zeros (v).
    V,
    /// The number of fraction digits, without trailing zeros (w).
    W,
    /// The fraction digits as a whole number, with trailing zeros (f).
    F,
    /// The fraction digits as a whole number, without trailing zeros (t).
    T,
    /// The exponent of a compact number (c).
    C,
    /// A deprecated synonym of `C` (e).
    E,
}

/// A value, or a range with both ends.
#[derive(Clone, Copy, PartialEq, Eq)]
pub enum Item {
    /// One number.
    Value(u64),
    /// All numbers from the first to the last, both included; none where the first is greater.
    Range(u64, u64),
}

/// Says that an operand, reduced by the modulus if there is one, is listed, or (`!=`) that it
/// isn't.
#[derive(Drop)]
pub struct Relation {
    /// The operand that is tested.
    pub operand: Operand,
    /// The modulus, if there is one. A condition that was read of a text has none of zero.
    pub modulus: Option<u64>,
    /// Whether the relation holds where the operand isn't listed (`!=`).
    pub negated: bool,
    /// The values and ranges that are listed.
    pub ranges: Vec<Item>,
}

/// Relations that all have to hold.
#[derive(Drop)]
pub struct Alternative {
    /// The relations, as they stand between `and`.
    pub relations: Vec<Relation>,
}

/// Alternatives of which at least one has to hold, unless there are none.
#[derive(Drop)]
pub struct Condition {
    /// The alternatives, as they stand between `or`. With none, the condition always holds.
    pub alternatives: Vec<Alternative>,
}

impl Relation {
    fn copy(&self, alloc: Global) -> Result<Relation, RulesError>
        ensures copied { IfOk result (λ r. relation_of r ≡ relation_of self.now) }
        ensures memory { IsOkUnless result RulesError.OutOfMemory }
    {
        let ranges = Vec::from_slice(alloc, &self.ranges)?;
        Ok(Relation {
            operand: self.operand,
            modulus: self.modulus,
            negated: self.negated,
            ranges,
        })
    }
}

fn copy_relations(alloc: Global, relations: &[Relation]) -> Result<Vec<Relation>, RulesError>
    ensures copied { IfOk result (λ v. map relation_of v.items ≡ map relation_of relations.now) }
    ensures memory { IsOkUnless result RulesError.OutOfMemory }
{
    let mut copied = Vec::new(alloc);
    for relation in relations {
        copied.push(relation.copy(alloc)?)?;
    }
    Ok(copied)
}

impl Alternative {
    fn copy(&self, alloc: Global) -> Result<Alternative, RulesError>
        ensures copied { IfOk result (λ a. relations_of a ≡ relations_of self.now) }
        ensures memory { IsOkUnless result RulesError.OutOfMemory }
    {
        let relations = copy_relations(alloc, &self.relations)?;
        Ok(Alternative { relations })
    }
}

fn copy_alternatives(
    alloc: Global,
    alternatives: &[Alternative],
) -> Result<Vec<Alternative>, RulesError>
    ensures copied { IfOk result (λ v. map relations_of v.items
        ≡ map relations_of alternatives.now) }
    ensures memory { IsOkUnless result RulesError.OutOfMemory }
{
    let mut copied = Vec::new(alloc);
    for alternative in alternatives {
        copied.push(alternative.copy(alloc)?)?;
    }
    Ok(copied)
}

impl Condition {
    /// A copy of the condition, with its own memory.
    pub fn copy(&self, alloc: Global) -> Result<Condition, RulesError>
        ensures copied { IfOk result (λ c. condition_in c ≡ condition_in self.now) }
        ensures memory { IsOkUnless result RulesError.OutOfMemory }
    {
        let alternatives = copy_alternatives(alloc, &self.alternatives)?;
        Ok(Condition { alternatives })
    }
}
