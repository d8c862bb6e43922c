//! Calls of `icu_plurals` that need rules. Rules are spelled `one: i = 1; few: i = 2..4`, or by the
//! language that has them in the document `plurals.txt`, in lines as `Polish one: i = 1`.

ghost use Rattle.std.specs.Prelude.{◌≡◌, true, false, slice_index_or};

use crate::words::said;
use fixed_decimal::{Decimal, DecimalError};
use icu_plurals::{PluralCategory, PluralOperands, PluralRules, RulesError};
use rows::Documents;
use std::alloc::{AllocError, Global};

/// A rule of a category.
type Rule<'a> = (PluralCategory, &'a str);

/// The category of a name.
fn category_of(name: &str) -> Option<PluralCategory> {
    match name {
        "zero" => Some(PluralCategory::Zero),
        "one" => Some(PluralCategory::One),
        "two" => Some(PluralCategory::Two),
        "few" => Some(PluralCategory::Few),
        "many" => Some(PluralCategory::Many),
        "other" => Some(PluralCategory::Other),
        _ => None,
    }
}

/// The name of a category.
fn name_of(category: PluralCategory) -> &'static str {
    match category {
        PluralCategory::Zero => "zero",
        PluralCategory::One => "one",
        PluralCategory::Two => "two",
        PluralCategory::Few => "few",
        PluralCategory::Many => "many",
        PluralCategory::Other => "other",
    }
}

/// The rule of `CATEGORY: CONDITION`.
fn rule_of(text: &str) -> Option<Rule<'_>> {
    let (name, condition) = text.split_once(':')?;
    let category = category_of(name)?;
    Some((category, condition.strip_prefix(' ').unwrap_or(condition)))
}

/// The rules that an argument spells, between `; `.
fn spelled_rules(alloc: Global, text: &str) -> Result<Option<Vec<Rule<'_>>>, AllocError> {
    let mut rules = Vec::new(alloc);
    if text.is_empty() {
        return Ok(Some(rules));
    }
    for part in text.split("; ") {
        match rule_of(part) {
            Some(rule) => rules.push(rule)?,
            None => return Ok(None),
        }
    }
    Ok(Some(rules))
}

/// The rules of a language of the document.
fn rules_of_language<'a>(
    alloc: Global,
    document: &'a str,
    language: &str,
) -> Result<Option<Vec<Rule<'a>>>, AllocError> {
    let mut rules = Vec::new(alloc);
    for line in document.lines() {
        let rule = match line.split_once(' ') {
            Some((name, rule)) if name == language => rule_of(rule),
            _ => None,
        };
        if let Some(rule) = rule {
            rules.push(rule)?;
        }
    }
    if rules.is_empty() {
        Ok(None)
    } else {
        Ok(Some(rules))
    }
}

/// The rules of an argument.
fn given<'a>(
    alloc: Global,
    documents: &'a Documents,
    text: &'a str,
) -> Result<Option<Vec<Rule<'a>>>, AllocError> {
    if text.is_empty() || text.contains(':') {
        return spelled_rules(alloc, text);
    }
    match documents.text("plurals.txt") {
        Some(document) => rules_of_language(alloc, document, text),
        None => Ok(None),
    }
}

/// The rules of an argument, if they can be read.
pub(crate) fn rules_of(
    alloc: Global,
    documents: &Documents,
    text: &str,
) -> Result<Option<PluralRules>, AllocError> {
    let Some(rules) = given(alloc, documents, text)? else {
        return Ok(None);
    };
    match PluralRules::from_rules(alloc, &rules) {
        Ok(rules) => Ok(Some(rules)),
        Err(RulesError::OutOfMemory) => Err(AllocError),
        Err(RulesError::BadRule { .. }) => Ok(None),
    }
}

/// The operands of a number and an exponent.
pub(crate) fn operands_of(
    alloc: Global,
    number: &str,
    exponent: &str,
) -> Result<Option<PluralOperands>, AllocError> {
    let Ok(exponent) = exponent.parse() else {
        return Ok(None);
    };
    match Decimal::try_from_str(alloc, number) {
        Ok(decimal) => Ok(Some(PluralOperands::from_significand_and_exponent(
            &decimal.absolute,
            exponent,
        ))),
        Err(DecimalError::OutOfMemory) => Err(AllocError),
        Err(_) => Ok(None),
    }
}

/// The operands of a number and an exponent by their letters.
fn raw(alloc: Global, number: &str, exponent: &str) -> Result<Option<String>, AllocError> {
    let Some(operands) = operands_of(alloc, number, exponent)? else {
        return Ok(None);
    };
    let raw = operands.raw();
    let large = if raw.is_large { " large" } else { "" };
    Ok(Some(format!(in alloc;
        "i={} v={} w={} f={} t={} c={}{large}",
        raw.i, raw.v, raw.w, raw.f, raw.t, raw.c
    )?))
}

/// The first bad rule, or that there is none.
fn from_rules(
    alloc: Global,
    documents: &Documents,
    text: &str,
) -> Result<Option<String>, AllocError> {
    let Some(rules) = given(alloc, documents, text)? else {
        return Ok(None);
    };
    match PluralRules::from_rules(alloc, &rules) {
        Ok(_) => said(alloc, "accepted"),
        Err(RulesError::OutOfMemory) => Err(AllocError),
        Err(RulesError::BadRule { rule, byte }) => {
            Ok(Some(format!(in alloc; "BadRule {rule} {byte}")?))
        }
    }
}

/// The category of a number by rules, or by a copy of them.
fn category_for(
    alloc: Global,
    documents: &Documents,
    is_copied: bool,
    rules: &str,
    number: &str,
    exponent: &str,
) -> Result<Option<String>, AllocError> {
    let (Some(mut rules), Some(operands)) = (
        rules_of(alloc, documents, rules)?,
        operands_of(alloc, number, exponent)?,
    ) else {
        return Ok(None);
    };
    if is_copied {
        rules = match rules.copy(alloc) {
            Ok(copy) => copy,
            Err(_) => return Err(AllocError),
        };
    }
    said(alloc, name_of(rules.category_for(operands)))
}

/// Which slots are present: the first seven by the bits of a number, and the last.
fn presence(bits: u8) -> [bool; 8]
    ensures { slice_index_or result 7 false ≡ true }
{
    [
        bits & 1 != 0,
        bits & 2 != 0,
        bits & 4 != 0,
        bits & 8 != 0,
        bits & 16 != 0,
        bits & 32 != 0,
        bits & 64 != 0,
        true,
    ]
}

/// The first of some slots that is present.
fn first_present(slots: &[u8], present: &[bool; 8]) -> Option<u8> {
    slots
        .iter()
        .copied()
        .find(|slot| *slot < 8 && present[*slot as usize])
}

/// In how many of the 128 sets of slots with the last one the slot of a number is the first of
/// these that is present.
fn slot_for(
    alloc: Global,
    documents: &Documents,
    (rules, number, exponent): (&str, &str, &str),
    slots: &[String],
) -> Result<Option<String>, AllocError> {
    let mut order = Vec::new(alloc);
    for slot in slots {
        match slot.as_str().parse::<u8>() {
            Ok(slot) => order.push(slot)?,
            Err(_) => return Ok(None),
        }
    }
    let (Some(rules), Some(operands)) = (
        rules_of(alloc, documents, rules)?,
        operands_of(alloc, number, exponent)?,
    ) else {
        return Ok(None);
    };
    let mut count: usize = 0;
    for bits in 0..128 {
        let present = presence(bits);
        if Some(rules.slot_for(&operands, &present)) == first_present(&order, &present) {
            count = count.saturating_add(1);
        }
    }
    Ok(Some(format!(in alloc; "{count} of 128 sets")?))
}

/// What a call of plural rules answers.
pub(crate) fn returned(
    alloc: Global,
    documents: &Documents,
    call: &str,
    arguments: &[String],
) -> Result<Option<String>, AllocError> {
    match arguments {
        [rules] if call == "from_rules" => from_rules(alloc, documents, rules),
        [number, exponent] if call == "raw" => raw(alloc, number, exponent),
        [rules, number, exponent] if call == "category_for" => {
            category_for(alloc, documents, false, rules, number, exponent)
        }
        [rules, number, exponent] if call == "PluralRules::copy" => {
            category_for(alloc, documents, true, rules, number, exponent)
        }
        [rules, number, exponent, slots @ ..] if call == "slot_for" => {
            slot_for(alloc, documents, (rules, number, exponent), slots)
        }
        _ => Ok(None),
    }
}
