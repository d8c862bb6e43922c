//! Rules from a provider of data: what it is asked by, and what it answers.

ghost use Rattle.std.specs.Prelude.{Ok, Err, ◌&&◌, if◌then◌else◌, codes, bytes_eq, is_none};
ghost use Rattle.icu_provider.specs.Answer.{as_answer};

use super::plural::{FRENCH, operands_of, rules_of};
use icu_plurals::{PluralCategory, PluralRules, PluralRulesPreferences, PluralsCardinalV1};
use icu_provider::{DataError, DataErrorKind, DataLocale, DataProvider, DataRequest};
use std::alloc::Global;
use std::cell::Cell;
use std::process::Abort;

/// Has rules for French alone, asked without a numbering system; rejects all others by its error.
/// It counts how often it is asked, and how often it isn't asked to be silent.
#[derive(Drop)]
struct FrenchRules {
    rules: PluralRules,
    refusal: DataError,
    asked: Cell<usize>,
    aloud: Cell<usize>,
}

impl DataProvider<PluralsCardinalV1> for FrenchRules {
    ghost answer = { λ s id. if is_none id.system && bytes_eq id.locale (codes "fr") then Ok s.rules
        else as_answer (Err s.refusal) };

    fn load(&self, alloc: Global, request: &DataRequest<'_>) -> Result<PluralRules, DataError> {
        self.asked.set(self.asked.get().wrapping_add(1));
        if !request.silent {
            self.aloud.set(self.aloud.get().wrapping_add(1));
        }
        if request.id.system().is_some() || request.id.locale() != "fr" {
            return Err(self.refusal);
        }
        match self.rules.copy(alloc) {
            Ok(rules) => Ok(rules),
            Err(_) => Err(DataErrorKind::OutOfMemory.into()),
        }
    }
}

/// How all but French is rejected.
const NOT_FRENCH: DataError = DataError {
    kind: DataErrorKind::IdentifierNotFound,
    context: "not French",
};

fn french_rules(
    rt: &impl Abort,
    alloc: Global,
    rules: &[(PluralCategory, &str)],
    refusal: DataError,
) -> FrenchRules {
    FrenchRules {
        rules: rules_of(rt, alloc, rules),
        refusal,
        asked: Cell::new(0),
        aloud: Cell::new(0),
    }
}

fn preferences(locale: &str) -> PluralRulesPreferences {
    PluralRulesPreferences {
        locale_preferences: DataLocale::try_from_str(locale).unwrap_or_default(),
    }
}

/// The rules for a locale; the call is repeated if memory ran out.
fn loaded(alloc: Global, provider: &FrenchRules, locale: &str) -> Result<PluralRules, DataError> {
    match PluralRules::try_new_cardinal_unstable(alloc, provider, preferences(locale)) {
        Ok(rules) => Ok(rules),
        Err(_) => PluralRules::try_new_cardinal_unstable(alloc, provider, preferences(locale)),
    }
}

/// Whether the rules that are loaded of these give a number this category.
fn gives(
    rt: &impl Abort,
    alloc: Global,
    rules: &[(PluralCategory, &str)],
    number: &str,
    category: PluralCategory,
) -> bool {
    let provider = french_rules(rt, alloc, rules, NOT_FRENCH);
    match loaded(alloc, &provider, "fr") {
        Ok(rules) => rules.category_for(operands_of(rt, alloc, number, 0)) == category,
        Err(_) => false,
    }
}

/// A rule that takes few allocations, so that each one that copies it is rejected in some run.
const ALWAYS_TWO: &[(PluralCategory, &str)] = &[(PluralCategory::Two, "")];

/// Rules, a number and its category.
const ANSWERED: [(&[(PluralCategory, &str)], &str, PluralCategory); 4] = [
    (ALWAYS_TWO, "1", PluralCategory::Two),
    (&FRENCH, "1.5", PluralCategory::One),
    (&FRENCH, "1000000", PluralCategory::Many),
    (&FRENCH, "2", PluralCategory::Other),
];

#[test]
fn answers_the_rules_of_the_provider(rt: HostRuntime) {
    for &(rules, number, category) in &ANSWERED {
        assert!(rt; gives(&rt, rt.alloc(), rules, number, category), "{number}");
    }
}

/// Whether a locale is rejected by the provider's own error, kind and context.
fn is_refused(
    rt: &impl Abort,
    alloc: Global,
    locale: &str,
    kind: DataErrorKind,
    context: &'static str,
) -> bool {
    let error = DataError { kind, context };
    let provider = french_rules(rt, alloc, ALWAYS_TWO, error);
    match loaded(alloc, &provider, locale) {
        Ok(_) => false,
        Err(refusal) => refusal == error,
    }
}

#[test]
fn answers_the_refusal_of_the_provider(rt: HostRuntime) {
    for kind in [
        DataErrorKind::IdentifierNotFound,
        DataErrorKind::MarkerNotFound,
        DataErrorKind::InvalidRequest,
        DataErrorKind::Custom,
        DataErrorKind::OutOfMemory,
    ] {
        assert!(rt; is_refused(&rt, rt.alloc(), "fr-CA", kind, ""), "{kind}");
        assert!(rt;
            is_refused(&rt, rt.alloc(), "fr-CA", kind, "not French"),
            "{kind}"
        );
    }
}

/// Whether the provider is asked once for a locale, and aloud.
fn is_asked_once(rt: &impl Abort, alloc: Global, locale: &str) -> bool {
    let provider = french_rules(rt, alloc, ALWAYS_TWO, NOT_FRENCH);
    let found = PluralRules::try_new_cardinal_unstable(
        alloc,
        &provider,
        preferences(locale),
    ).is_ok();
    let asked = provider.asked.get() == 1 && provider.aloud.get() == 1;
    asked && (!found || locale == "fr")
}

#[test]
fn asks_the_provider_once(rt: HostRuntime) {
    for locale in ["fr", "de"] {
        assert!(rt; is_asked_once(&rt, rt.alloc(), locale), "{locale}");
    }
}
