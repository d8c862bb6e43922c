//! One token: its stem, then its options.

ghost use Rattle.std.specs.Prelude.{◌≡◌, ◌+◌, ◌<◌, ◌^◌, length};
ghost use Rattle.number_skeleton.specs.Data.{draft_data, drafted};
ghost use Rattle.number_skeleton.specs.Results.{located};
ghost use Rattle.number_skeleton.specs.Stems.{stem_of};
ghost use Rattle.number_skeleton.specs.Tokens.{setting_of, other_setting_of, fresh, with_token};

use crate::bytes::{behind, byte_at, front, piece_len};
use crate::draft::{Draft, is_set, merged};
use crate::fault::{FaultKind, Setting, SkeletonFault};
use crate::stems::{Stem, stem_of};
use crate::values::value_of;

/// What a stem sets.
fn setting_of(stem: Stem) -> Setting
    ensures { result ≡ setting_of stem }
{
    match stem {
        Stem::Notation(_) => Setting::Notation,
        Stem::BaseUnit | Stem::Percent | Stem::Permille => Setting::Unit,
        Stem::Currency | Stem::UnitName => Setting::Unit,
        Stem::PercentTimesHundred | Stem::Scale => Setting::Scale,
        Stem::Width(_) => Setting::Width,
        Stem::Unlimited | Stem::Fraction(_) | Stem::Significant(_) => Setting::Precision,
        Stem::CurrencyPrecision(_) | Stem::Increment => Setting::Precision,
        Stem::Mode(_) => Setting::Mode,
        Stem::IntegerZeros(_) | Stem::IntegerWidth => Setting::IntegerWidth,
        Stem::Grouping(_) => Setting::Grouping,
        Stem::Latin | Stem::System => Setting::System,
        Stem::Sign(_) => Setting::Sign,
        Stem::DecimalAuto => Setting::Decimal,
    }
}

/// What else a stem sets: of `%x100` the unit.
fn other_setting_of(stem: Stem) -> Setting
    ensures { result ≡ other_setting_of stem }
{
    match stem {
        Stem::PercentTimesHundred => Setting::Unit,
        _ => setting_of(stem),
    }
}

/// A stem of what isn't set yet.
#[tactic(auto, unfolding(crate::specs::Tokens::fresh))]
fn fresh(at: usize, stem: Stem, draft: Draft<'_>) -> Result<Stem, SkeletonFault>
    ensures { result ≡ fresh at stem (draft_data draft.entry) }
{
    let setting = setting_of(stem);
    if is_set(draft, setting) {
        return Err(SkeletonFault {
            kind: FaultKind::Repeated(setting),
            byte: at,
        });
    }
    let other = other_setting_of(stem);
    if is_set(draft, other) {
        return Err(SkeletonFault {
            kind: FaultKind::Repeated(other),
            byte: at,
        });
    }
    Ok(stem)
}

/// The stem of a word, or a fault at its byte.
fn stem_at(at: usize, word: &[u8]) -> Result<Stem, SkeletonFault>
    ensures { result ≡ located at (stem_of word.now) }
{
    match stem_of(word) {
        Ok(stem) => Ok(stem),
        Err(kind) => Err(SkeletonFault { kind, byte: at }),
    }
}

/// One token: its stem, then its options.
#[tactic(auto, unfolding(crate::specs::Tokens::with_token))]
pub(crate) fn with_token<'a>(
    at: usize,
    token: &'a [u8],
    draft: Draft<'a>,
) -> Result<Draft<'a>, SkeletonFault>
    requires { at + length token.now < 2 ^ 64 }
    ensures { drafted result ≡ with_token at token.now (draft_data draft.entry) }
{
    if byte_at(token, 0) == b'/' {
        return Err(SkeletonFault {
            kind: FaultKind::StraySlash,
            byte: at,
        });
    }
    let len = piece_len(token);
    let stem = fresh(at, stem_at(at, front(token, len))?, draft)?;
    let value = value_of(at, at + len, behind(token, len), stem)?;
    Ok(merged(draft, value))
}
