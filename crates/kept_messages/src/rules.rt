//! The plural rules that a message picks by.

ghost use Rattle.std.specs.Prelude.{◌≡◌, IfOk, List, Result, [], Ok};
ghost use Rattle.icu_decimal_options.specs.Preferences.{locale_id};
ghost use Rattle.icu_plurals.specs.Rules.{Rule};
ghost use Rattle.icu_provider.specs.Answer.{Answers, Refusal};
ghost use Rattle.icu_table_entries.specs.Answering.{optional_answer};
ghost use Rattle.kept_messages.specs.Opening.{Opens, answered, cardinal_in, ordinal_in};
ghost use Rattle.kept_messages.specs.Picking.{is_ordinal, is_plural, picks_by_ordinals, picks_by_plurals};

use crate::error::OpenError;
use icu_message::{ChoiceKind, Piece};
use icu_plurals::{PluralRules, PluralRulesPreferences};
use icu_provider::{DataError, DataErrorKind, DataLocale};
use icu_tables::Tables;
use std::alloc::Global;

/// Whether a choice by cardinal rules begins with a piece.
fn is_plural(piece: Piece) -> bool
    ensures { result ≡ is_plural piece }
{
    match piece {
        Piece::Choice(ChoiceKind::Plural, _) => true,
        _ => false,
    }
}

/// Whether a choice by ordinal rules begins with a piece.
fn is_ordinal(piece: Piece) -> bool
    ensures { result ≡ is_ordinal piece }
{
    match piece {
        Piece::Choice(ChoiceKind::SelectOrdinal, _) => true,
        _ => false,
    }
}

/// Whether a choice by cardinal rules is among pieces.
fn picks_by_plurals(pieces: &[Piece]) -> bool
    ensures { result ≡ picks_by_plurals pieces.now }
{
    for piece in pieces {
        if is_plural(*piece) {
            return true;
        }
    }
    false
}

/// Whether a choice by ordinal rules is among pieces.
fn picks_by_ordinals(pieces: &[Piece]) -> bool
    ensures { result ≡ picks_by_ordinals pieces.now }
{
    for piece in pieces {
        if is_ordinal(*piece) {
            return true;
        }
    }
    false
}

/// Rules by which each number is `other`, for messages that don't pick by them.
fn no_rules(alloc: Global) -> Result<PluralRules, OpenError>
    ensures { Opens result (Ok []) }
{
    match PluralRules::from_rules(alloc, &[]) {
        Ok(rules) => Ok(rules),
        Err(_) => Err(OpenError::OutOfMemory),
    }
}

/// The rules that tables answered, or why there are none.
fn answered(
    lacking: OpenError,
    loaded: Result<PluralRules, DataError>,
) -> Result<PluralRules, OpenError>
    ensures { (answer : Result (List Rule) Refusal) → Answers loaded answer →
        Opens result (answered lacking answer) }
{
    match loaded {
        Ok(rules) => Ok(rules),
        Err(error) => match error.kind {
            DataErrorKind::OutOfMemory => Err(OpenError::OutOfMemory),
            _ => Err(lacking),
        },
    }
}

/// The cardinal rules of tables for a locale.
fn load_cardinal(
    alloc: Global,
    tables: &Tables,
    locale: DataLocale,
) -> Result<PluralRules, DataError>
    ensures { Answers result (optional_answer tables.now.rules (locale_id locale)) }
{
    let preferences = PluralRulesPreferences {
        locale_preferences: locale,
    };
    PluralRules::try_new_cardinal_unstable(alloc, tables, preferences)
}

/// The ordinal rules of tables for a locale.
fn load_ordinal(
    alloc: Global,
    tables: &Tables,
    locale: DataLocale,
) -> Result<PluralRules, DataError>
    ensures { Answers result (optional_answer tables.now.ordinals (locale_id locale)) }
{
    let preferences = PluralRulesPreferences {
        locale_preferences: locale,
    };
    PluralRules::try_new_ordinal_unstable(alloc, tables, preferences)
}

/// The cardinal rules of tables, if pieces pick by them.
pub(crate) fn cardinal_in(
    alloc: Global,
    tables: &Tables,
    locale: DataLocale,
    pieces: &[Piece],
) -> Result<PluralRules, OpenError>
    ensures { Opens result (cardinal_in tables.now locale pieces.now) }
{
    if !picks_by_plurals(pieces) {
        return no_rules(alloc);
    }
    answered(
        OpenError::NoCardinalRules,
        load_cardinal(alloc, tables, locale),
    )
}

/// The ordinal rules of tables, if pieces pick by them.
pub(crate) fn ordinal_in(
    alloc: Global,
    tables: &Tables,
    locale: DataLocale,
    pieces: &[Piece],
) -> Result<PluralRules, OpenError>
    ensures { Opens result (ordinal_in tables.now locale pieces.now) }
{
    if !picks_by_ordinals(pieces) {
        return no_rules(alloc);
    }
    answered(
        OpenError::NoOrdinalRules,
        load_ordinal(alloc, tables, locale),
    )
}
