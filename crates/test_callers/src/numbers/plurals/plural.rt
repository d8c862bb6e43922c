//! Operands and rules for the tests.
use fixed_decimal::{Decimal, DecimalError};
use icu_plurals::{PluralCategory, PluralOperands, PluralRules, RulesError};
use std::alloc::Global;
use std::process::Abort;

/// The cardinal rules of French, as UTS 35 publishes them.
pub(crate) const FRENCH: [(PluralCategory, &str); 2] = [
    (
        PluralCategory::One,
        "i = 0,1 @integer 0, 1 @decimal 0.0~1.5",
    ),
    (
        PluralCategory::Many,
        "e = 0 and i != 0 and i % 1000000 = 0 and v = 0 or e != 0..5 @integer 1000000, 1c6, 2c6, …",
    ),
];

/// The decimal; the call is repeated if memory ran out.
fn decimal_of(rt: &impl Abort, alloc: Global, text: &str) -> Decimal {
    match Decimal::try_from_str(alloc, text) {
        Ok(decimal) => decimal,
        Err(DecimalError::OutOfMemory) => match Decimal::try_from_str(alloc, text) {
            Ok(decimal) => decimal,
            Err(_) => panic!(rt; "memory was refused"),
        },
        Err(_) => panic!(rt; "the text is no decimal"),
    }
}

/// The operands of a decimal in text and an exponent.
pub(crate) fn operands_of(
    rt: &impl Abort,
    alloc: Global,
    text: &str,
    exponent: u8,
) -> PluralOperands {
    let decimal = decimal_of(rt, alloc, text);
    PluralOperands::from_significand_and_exponent(&decimal.absolute, exponent)
}

/// The rules; the call is repeated if memory ran out.
fn judged(alloc: Global, rules: &[(PluralCategory, &str)]) -> Result<PluralRules, RulesError> {
    match PluralRules::from_rules(alloc, rules) {
        Err(RulesError::OutOfMemory) => PluralRules::from_rules(alloc, rules),
        judged => judged,
    }
}

/// The rules, which are in the grammar.
pub(crate) fn rules_of(
    rt: &impl Abort,
    alloc: Global,
    rules: &[(PluralCategory, &str)],
) -> PluralRules {
    match judged(alloc, rules) {
        Ok(rules) => rules,
        Err(_) => panic!(rt; "the rules were refused"),
    }
}
