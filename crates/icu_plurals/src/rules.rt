//! Plural rules, and the category of a number by them.
ghost use Rattle.std.specs.Prelude.{◌≡◌, ◌↔◌, ◌<◌, ℕ, true, None, IfOk, IsOkUnless, IsErrOf, map, slice_index_or, false};
ghost use Rattle.std.specs.List.{AllZip};
ghost use Rattle.icu_plurals.specs.Elements.{selected_slot};
ghost use Rattle.icu_plurals.specs.Rules.{spelled_rules, IsReadFrom, IsFirstBadRule, category_of, rule_of, bad_rule_from};

use crate::category::PluralCategory;
use crate::elements::PluralElements;
use crate::evaluation::condition_holds;
use crate::operands::PluralOperands;
use icu_plurals_conditions::{Condition, RulesError, first_fault, read_condition};
use std::alloc::Global;
use std::marker::Model;

#[derive(Drop)]
struct Rule {
    category: PluralCategory,
    condition: Condition,
}

/// Rules that give a number its plural category (UTS 35 Part 3, Language Plural Rules), in their
/// order.
///
/// They are read once into small values; no text is kept.
#[derive(Drop)]
pub struct PluralRules {
    rules: Vec<Rule>,
}

impl Model for PluralRules {
    ghost use Rattle.std.specs.Prelude.{List, map};
    ghost use Rattle.icu_plurals.specs.Rules.{Rule as PluralRule, rule_of};

    ghost Value = { List PluralRule };

    ghost view = { λ s. map rule_of s.rules.items };
}

/// The first rule whose text isn't in the grammar, and the byte of its first fault.
fn first_bad_rule(rules: &[(PluralCategory, &str)]) -> Option<(usize, usize)>
    ensures { result ≡ bad_rule_from 0 (spelled_rules rules.now) }
{
    for index in 0..rules.len() {
        let (_, text) = rules[index];
        if let Some(byte) = first_fault(text) {
            return Some((index, byte));
        }
    }
    None
}

/// The rules, where each text is in the grammar.
fn read_rules(alloc: Global, rules: &[(PluralCategory, &str)]) -> Result<PluralRules, RulesError>
    requires { bad_rule_from 0 (spelled_rules rules.now) ≡ None }
    ensures read { IfOk result (λ r. AllZip IsReadFrom (spelled_rules rules.now) r) }
    ensures memory { IsOkUnless result RulesError.OutOfMemory }
{
    let mut read = Vec::new(alloc);
    for index in 0..rules.len() {
        let (category, text) = rules[index];
        let condition = read_condition(alloc, text)?;
        read.push(Rule {
            category,
            condition,
        })?;
    }
    Ok(PluralRules { rules: read })
}

fn copy_rules(alloc: Global, rules: &[Rule]) -> Result<Vec<Rule>, RulesError>
    ensures copied { IfOk result (λ v. map rule_of v.items ≡ map rule_of rules.now) }
    ensures memory { IsOkUnless result RulesError.OutOfMemory }
{
    let mut copied = Vec::new(alloc);
    for rule in rules {
        copied.push(Rule {
            category: rule.category,
            condition: rule.condition.copy(alloc)?,
        })?;
    }
    Ok(copied)
}

/// The category of the first rule that holds.
fn first_category(rules: &[Rule], operands: PluralOperands) -> PluralCategory
    ensures { result ≡ category_of (map rule_of rules.now) operands }
{
    for rule in rules {
        if condition_holds(&rule.condition, operands) {
            return rule.category;
        }
    }
    PluralCategory::Other
}

impl PluralRules {
    /// The rules with these categories and conditions. A condition is in the grammar of UTS 35 Part
    /// 3 (Plural rules syntax); the samples after it, from `@` on, are ignored. All texts are
    /// checked in order, from left to right, before memory is allocated, so a bad rule is reported
    /// even when no memory is left.
    // promise: Rules have the given categories, and the spelled conditions.
    // mutations: from_rules_categories_lost
    // promise: `BadRule` has the first bad rule, and its fault's byte.
    // mutations: from_rules_bad_rule_told_as_the_first
    pub fn from_rules(alloc: Global, rules: &[(PluralCategory, &str)]) -> Result<Self, RulesError>
        ensures read { IfOk result (λ r. AllZip IsReadFrom (spelled_rules rules.now) r) }
        ensures refused { (rule byte : ℕ) → IsErrOf result (RulesError.BadRule rule byte)
            ↔ IsFirstBadRule (spelled_rules rules.now) rule byte }
    {
        if let Some((rule, byte)) = first_bad_rule(rules) {
            return Err(RulesError::BadRule { rule, byte });
        }
        read_rules(alloc, rules)
    }

    /// The category of a number with these operands: that of the first rule whose condition holds,
    /// or `Other` if none does. It takes no memory.
    // promise: The first rule that holds decides; else it is `Other`.
    // mutations: category_for_first_rule_skipped, holds_or_before_and
    pub fn category_for(&self, operands: PluralOperands) -> PluralCategory
        ensures category { result ≡ category_of self.now operands }
    {
        first_category(&self.rules, operands)
    }

    /// The slot whose value `PluralElements::get` returns for a number with these operands, if
    /// exactly the slots in `present` have a value. Slots are counted from 0, as in
    /// `PluralElements::slot`. It takes no memory.
    // promise: The slots that are present determine that of a number.
    // mutations: slot_for_always_the_last, slot_for_two_is_few
    #[tactic(auto, using(crate::proofs::SelectedSlots::selected_slot_small))]
    pub fn slot_for(&self, operands: &PluralOperands, present: &[bool; 8]) -> u8
        requires { slice_index_or present.now 7 false ≡ true }
        ensures slot { result ≡ selected_slot present.now operands.now
            (category_of self.now operands.now) }
        ensures in_range { result < 8 }
    {
        *PluralElements::numbered(present).get(*operands, self)
    }

    /// A copy of the rules, with its own memory.
    pub fn copy(&self, alloc: Global) -> Result<Self, RulesError>
        ensures equal { IfOk result (λ r. r ≡ self.now) }
        ensures memory { IsOkUnless result RulesError.OutOfMemory }
    {
        let rules = copy_rules(alloc, &self.rules)?;
        Ok(PluralRules { rules })
    }
}
