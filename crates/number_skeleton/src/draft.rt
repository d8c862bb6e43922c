//! What the tokens of a skeleton set, piece by piece.

ghost use Rattle.std.specs.Prelude.{◌≡◌};
ghost use Rattle.skeleton_settings.specs.Settings.{skeleton_data};
ghost use Rattle.number_skeleton.specs.Data.{draft_data, nothing_drafted};
ghost use Rattle.number_skeleton.specs.Drafts.{merged, is_set, finished, is_increment_of_compact, is_compact, places_of, has_no_multiple, are_no_divisor};

use crate::fault::Setting;
use fixed_decimal::{RoundingIncrement, SignDisplay, SignedRoundingMode, UnsignedRoundingMode};
use skeleton_settings::{Grouping, Notation, NumberUnit, Precision, Skeleton, UnitWidth};

/// A precision, and whether `/w` stands behind it.
#[derive(Clone, Copy)]
pub(crate) struct Digits {
    pub(crate) precision: Precision,
    pub(crate) hides_zeros_of_whole: bool,
}

/// Which signs are written, and whether in the form for accounting.
#[derive(Clone, Copy)]
pub(crate) struct Signs {
    pub(crate) display: SignDisplay,
    pub(crate) is_accounting: bool,
}

/// Where the decimal separator is written.
#[derive(Clone, Copy)]
pub(crate) enum DecimalDisplay {
    /// Before fraction digits: `decimal-auto`.
    Auto,
}

/// What is set; of a token alone, or of all tokens so far.
#[derive(Clone, Copy)]
pub(crate) struct Draft<'a> {
    pub(crate) notation: Option<Notation>,
    pub(crate) unit: Option<NumberUnit<'a>>,
    pub(crate) width: Option<UnitWidth>,
    pub(crate) digits: Option<Digits>,
    pub(crate) mode: Option<SignedRoundingMode>,
    pub(crate) integer_digits: Option<u16>,
    pub(crate) scale: Option<i16>,
    pub(crate) grouping: Option<Grouping>,
    pub(crate) system: Option<&'a str>,
    pub(crate) signs: Option<Signs>,
    pub(crate) decimal: Option<DecimalDisplay>,
}

/// Nothing is set.
pub(crate) fn nothing_set() -> Draft<'static>
    ensures { result ≡ nothing_drafted }
{
    Draft {
        notation: None,
        unit: None,
        width: None,
        digits: None,
        mode: None,
        integer_digits: None,
        scale: None,
        grouping: None,
        system: None,
        signs: None,
        decimal: None,
    }
}

/// What either of two drafts sets.
#[tactic(auto, using(crate::proofs::Merging::either_mapped))]
pub(crate) fn merged<'a>(draft: Draft<'a>, more: Draft<'a>) -> Draft<'a>
    ensures { draft_data result ≡ merged (draft_data draft.entry) (draft_data more.entry) }
{
    Draft {
        notation: more.notation.or(draft.notation),
        unit: more.unit.or(draft.unit),
        width: more.width.or(draft.width),
        digits: more.digits.or(draft.digits),
        mode: more.mode.or(draft.mode),
        integer_digits: more.integer_digits.or(draft.integer_digits),
        scale: more.scale.or(draft.scale),
        grouping: more.grouping.or(draft.grouping),
        system: more.system.or(draft.system),
        signs: more.signs.or(draft.signs),
        decimal: more.decimal.or(draft.decimal),
    }
}

/// Whether it is set already.
pub(crate) fn is_set(draft: Draft<'_>, setting: Setting) -> bool
    ensures { result ≡ is_set (draft_data draft.entry) setting }
{
    match setting {
        Setting::Notation => draft.notation.is_some(),
        Setting::Unit => draft.unit.is_some(),
        Setting::Width => draft.width.is_some(),
        Setting::Precision => draft.digits.is_some(),
        Setting::Mode => draft.mode.is_some(),
        Setting::IntegerWidth => draft.integer_digits.is_some(),
        Setting::Scale => draft.scale.is_some(),
        Setting::Grouping => draft.grouping.is_some(),
        Setting::System => draft.system.is_some(),
        Setting::Sign => draft.signs.is_some(),
        Setting::Decimal => draft.decimal.is_some(),
    }
}

/// The settings, with defaults.
pub(crate) fn finished(draft: Draft<'_>) -> Skeleton<'_>
    ensures { skeleton_data result ≡ finished (draft_data draft.entry) }
{
    let signs = draft.signs.unwrap_or(Signs {
        display: SignDisplay::Auto,
        is_accounting: false,
    });
    Skeleton {
        notation: draft.notation.unwrap_or(Notation::Simple),
        unit: draft.unit.unwrap_or(NumberUnit::None),
        width: draft.width.unwrap_or(UnitWidth::Short),
        precision: draft.digits.map(|digits| digits.precision),
        hides_zeros_of_whole: draft
            .digits
            .is_some_and(|digits| digits.hides_zeros_of_whole),
        mode: draft.mode.unwrap_or(SignedRoundingMode::Unsigned(UnsignedRoundingMode::HalfEven)),
        integer_digits: draft.integer_digits.unwrap_or(1),
        scale: draft.scale.unwrap_or(0),
        grouping: draft.grouping,
        system: draft.system,
        sign: signs.display,
        is_accounting: signs.is_accounting,
    }
}

/// The least count of fraction digits of a number of which the increment, with its last digit
/// there, divides 1.
fn places_of(increment: RoundingIncrement) -> u16
    ensures { result ≡ places_of increment }
{
    match increment {
        RoundingIncrement::MultiplesOf1 => 0,
        RoundingIncrement::MultiplesOf2 | RoundingIncrement::MultiplesOf5 => 1,
        RoundingIncrement::MultiplesOf25 => 2,
    }
}

/// Whether 1 is no multiple of an increment times ten to the power.
fn has_no_multiple(increment: RoundingIncrement, power: i16) -> bool
    ensures { result ≡ has_no_multiple increment power }
{
    power > 0 || -(power as i32) < places_of(increment) as i32
}

/// Whether the precision is such an increment.
fn is_no_divisor(digits: Option<Digits>) -> bool
    ensures { result ≡ are_no_divisor digits }
{
    let Some(digits) = digits else {
        return false;
    };
    match digits.precision {
        Precision::Increment {
            increment,
            power,
            ..
        } => has_no_multiple(increment, power),
        Precision::Fraction { .. }
        | Precision::Significant { .. }
        | Precision::Both { .. }
        | Precision::Currency { .. } => false,
    }
}

/// Whether the notation is compact.
fn is_compact(notation: Option<Notation>) -> bool
    ensures { result ≡ is_compact notation }
{
    match notation {
        Some(Notation::CompactShort | Notation::CompactLong) => true,
        Some(Notation::Simple) | None => false,
    }
}

/// Whether in compact notation 1 is no multiple of the increment.
pub(crate) fn is_increment_of_compact(draft: Draft<'_>) -> bool
    ensures { result ≡ is_increment_of_compact (draft_data draft.entry) }
{
    is_compact(draft.notation) && is_no_divisor(draft.digits)
}
