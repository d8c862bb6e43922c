//! Entries of plural rules.

ghost use Rattle.std.specs.Prelude.{◌≡◌, map};
ghost use Rattle.serde_json.specs.View.{view};
ghost use Rattle.icu_plurals.specs.Rules.{spelled_rule, spelled_rules};
ghost use Rattle.icu_table_entries.specs.Reading.{Gives};
ghost use Rattle.icu_tables.specs.Rules.{category_named, spelled_rule_in, spelled_rules_in, rules_from};

use icu_plurals::{PluralCategory, PluralRules};
use icu_plurals_conditions::RulesError;
use icu_provider::DataLocale;
use icu_table_entries::entries::EntryKind;
use icu_table_entries::fields::{list_at, object_in, pair_in, text_at, text_in};
use icu_table_entries::named::{NamedEntry, name_of};
use icu_table_entries::{EntryFault, Key, Position, TableError};
use serde_json::Value;
use std::alloc::Global;

/// The plural category of a name.
#[tactic(auto, unfolding(crate::specs::Rules::category_named))]
fn category_named(name: &str) -> Option<PluralCategory>
    ensures { result ≡ category_named name.now }
{
    match name {
        "zero" => Some(PluralCategory::Zero),
        "one" => Some(PluralCategory::One),
        "two" => Some(PluralCategory::Two),
        "few" => Some(PluralCategory::Few),
        "many" => Some(PluralCategory::Many),
        "other" => Some(PluralCategory::Other),
        _ => None,
    }
}

/// A category and the text of a condition, which isn't judged yet.
#[tactic(auto, unfolding(crate::specs::Rules::spelled_rule_in))]
fn spelled_rule_in(value: &Value) -> Result<(PluralCategory, &str), TableError>
    ensures { Gives spelled_rule result (spelled_rule_in (view value.now)) }
{
    let (name, text) = pair_in(value, Key::Rules)?;
    let name = text_in(name, Key::Rules)?;
    match category_named(name) {
        Some(category) => Ok((category, text_in(text, Key::Rules)?)),
        None => Err(TableError::WrongKind(Key::Rules)),
    }
}

/// Each rule in turn.
#[tactic(auto, unfolding(crate::specs::Rules::spelled_rules_in))]
fn spelled_rules_in(
    alloc: Global,
    values: &[Value],
) -> Result<Vec<(PluralCategory, &str)>, TableError>
    ensures { Gives (λ v. spelled_rules v.items) result (spelled_rules_in (map view values.now)) }
{
    let mut found = Vec::new(alloc);
    for index in 0..values.len() {
        found.push(spelled_rule_in(&values[index])?)?;
    }
    Ok(found)
}

/// The rules that are given.
fn rules_of(
    alloc: Global,
    position: Position,
    spelled: &[(PluralCategory, &str)],
) -> Result<PluralRules, TableError>
    ensures { Gives (λ x. x) result (rules_from position 0 (spelled_rules spelled.now)) }
{
    match PluralRules::from_rules(alloc, spelled) {
        Ok(rules) => Ok(rules),
        Err(RulesError::BadRule { rule, byte }) => {
            Err(position.refusal(EntryFault::BadRule { rule, byte }))
        }
        Err(RulesError::OutOfMemory) => Err(TableError::OutOfMemory),
    }
}

/// Plural rules under their name.
pub struct RulesEntry;

impl EntryKind for RulesEntry {
    type Entry = NamedEntry<PluralRules>;

    ghost use Rattle.icu_tables.specs.Rules.{rules_at};
    ghost use Rattle.icu_table_entries.specs.Named.{is_of};

    ghost read_at = { rules_at };

    ghost serves = { is_of };

    #[tactic(auto, unfolding(crate::specs::Rules::rules_at))]
    fn from_entry(
        alloc: Global,
        position: Position,
        value: &Value,
    ) -> Result<Self::Entry, TableError> {
        let value = object_in(value, position.key)?;
        let locale = text_at(value, Key::Locale)?;
        let rules = list_at(value, Key::Rules)?;
        let spelled = spelled_rules_in(alloc, rules)?;
        let name = name_of(position, locale, None)?;
        let content = rules_of(alloc, position, &spelled)?;
        Ok(NamedEntry { name, content })
    }

    fn serves(entry: &Self::Entry, locale: &DataLocale) -> bool {
        entry.name.is_of(locale)
    }
}
