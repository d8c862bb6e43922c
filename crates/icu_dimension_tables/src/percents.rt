//! Entries of percents, which may have permilles too.

ghost use Rattle.std.specs.Prelude.{◌≡◌, option_map};
ghost use Rattle.serde_json.specs.View.{view};
ghost use Rattle.icu_provider.specs.Identifier.{identifier_of};
ghost use Rattle.icu_dimension_data.specs.LentTexts.{lent_texts};
ghost use Rattle.icu_table_entries.specs.Named.{first_filed};
ghost use Rattle.icu_table_entries.specs.Reading.{Gives};
ghost use Rattle.icu_dimension_tables.specs.Percents.{percent_texts_at, percent_texts_of, percents_filed, permilles_filed};
ghost use Rattle.icu_dimension_tables.specs.Percents.{permilles_found, permilles_with};

use crate::money_pattern::percent_pattern_of;
use crate::sign_texts::judge_sign;
use icu_dimension_data::{AffixTexts, CldrPattern, SignedPatterns};
use icu_provider::{DataIdentifierBorrowed, DataLocale};
use icu_table_entries::entries::EntryKind;
use icu_table_entries::fields::{object_in, optional_text_at, text_at};
use icu_table_entries::named::{NamedEntry, first_filed, name_of};
use icu_table_entries::{Key, Position, TableError};
use serde_json::Value;
use std::alloc::Global;
use std::marker::Model;
use writeable::ASCII_DIGITS;

/// The texts of the signs and of the percent sign.
#[tactic(auto, unfolding(crate::specs::Percents::percent_texts_at))]
fn percent_texts_at(value: &Value) -> Result<AffixTexts<'_>, TableError>
    ensures { Gives lent_texts result (percent_texts_at (view value.now)) }
{
    Ok(AffixTexts {
        minus_sign: text_at(value, Key::Minus)?,
        plus_sign: text_at(value, Key::Plus)?,
        percent_sign: text_at(value, Key::Percent)?,
        currency: "",
    })
}

/// The texts, of which none is empty but that of the currency.
#[tactic(auto, unfolding(crate::specs::Percents::percent_texts_of))]
fn judged<'a>(position: Position, texts: AffixTexts<'a>) -> Result<AffixTexts<'a>, TableError>
    ensures { Gives lent_texts result (percent_texts_of position (lent_texts texts.entry)) }
{
    Ok(AffixTexts {
        minus_sign: judge_sign(position, Key::Minus, texts.minus_sign)?,
        plus_sign: judge_sign(position, Key::Plus, texts.plus_sign)?,
        percent_sign: judge_sign(position, Key::Percent, texts.percent_sign)?,
        currency: texts.currency,
    })
}

/// The patterns of permilles, if there is a per mille sign, which may not be empty.
// promise: An empty per mille sign is rejected by its name.
// mutations: empty_per_mille_sign_let_through
#[tactic(auto, unfolding(crate::specs::Percents::permilles_with))]
fn permilles_with(
    alloc: Global,
    position: Position,
    pattern: &CldrPattern,
    texts: &AffixTexts<'_>,
    sign: Option<&str>,
) -> Result<Option<SignedPatterns>, TableError>
    ensures { Gives (λ x. x) result (permilles_with position pattern.now (lent_texts texts.now)
        (option_map (λ s. s.now) sign.entry)) }
{
    let Some(sign) = sign else {
        return Ok(None);
    };
    let texts = AffixTexts {
        minus_sign: texts.minus_sign,
        plus_sign: texts.plus_sign,
        percent_sign: judge_sign(position, Key::Permille, sign)?,
        currency: texts.currency,
    };
    let permilles = pattern.permilles(alloc)?;
    Ok(Some(permilles.resolve(alloc, &texts, &ASCII_DIGITS)?))
}

/// How a locale writes percents, and permilles, if the entry has their sign.
#[derive(Drop)]
pub struct LocalePercents {
    pub percents: SignedPatterns,
    pub permilles: Option<SignedPatterns>,
}

impl Model for LocalePercents {
    ghost use Rattle.icu_dimension_tables.specs.Percents.{LocalePercents as PercentsOfLocale};

    ghost Value = { PercentsOfLocale };

    ghost view = { λ p. record { percents = p.percents; permilles = p.permilles } };
}

/// Patterns of percents and of permilles under their name.
pub struct PercentsEntry;

impl EntryKind for PercentsEntry {
    type Entry = NamedEntry<LocalePercents>;

    ghost use Rattle.icu_dimension_tables.specs.Percents.{percents_at};
    ghost use Rattle.icu_table_entries.specs.Named.{is_of};

    ghost read_at = { percents_at };

    ghost serves = { is_of };

    #[tactic(auto, unfolding(crate::specs::Percents::percents_at))]
    fn from_entry(
        alloc: Global,
        position: Position,
        value: &Value,
    ) -> Result<Self::Entry, TableError> {
        let value = object_in(value, position.key)?;
        let locale = text_at(value, Key::Locale)?;
        let system = optional_text_at(value, Key::System)?;
        let text = text_at(value, Key::Pattern)?;
        let texts = percent_texts_at(value)?;
        let permille = optional_text_at(value, Key::Permille)?;
        let name = name_of(position, locale, system)?;
        let pattern = percent_pattern_of(alloc, position, text)?;
        let texts = judged(position, texts)?;
        let permilles = permilles_with(alloc, position, &pattern, &texts, permille)?;
        let percents = pattern.resolve(alloc, &texts, &ASCII_DIGITS)?;
        let content = LocalePercents {
            percents,
            permilles,
        };
        Ok(NamedEntry { name, content })
    }

    fn serves(entry: &Self::Entry, locale: &DataLocale) -> bool {
        entry.name.is_of(locale)
    }
}

/// The percents of the first entry with an identifier.
#[tactic(auto, using(crate::proofs::Filed::first_part))]
pub fn percents_filed<'a>(
    entries: &'a [NamedEntry<LocalePercents>],
    id: &DataIdentifierBorrowed<'_>,
) -> Option<&'a SignedPatterns>
    ensures { option_map (λ x. x.now) result
        ≡ first_filed (identifier_of id.now) (percents_filed entries.now) }
{
    match first_filed(entries, id) {
        Some(entry) => Some(&entry.percents),
        None => None,
    }
}

/// The permilles of the first entry with an identifier, if it has any.
#[tactic(auto, using(crate::proofs::Filed::first_part))]
pub fn permilles_filed<'a>(
    entries: &'a [NamedEntry<LocalePercents>],
    id: &DataIdentifierBorrowed<'_>,
) -> Option<&'a SignedPatterns>
    ensures { option_map (λ x. x.now) result
        ≡ permilles_found (first_filed (identifier_of id.now) (permilles_filed entries.now)) }
{
    match first_filed(entries, id) {
        Some(entry) => entry.permilles.as_ref(),
        None => None,
    }
}
