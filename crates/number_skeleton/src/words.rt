//! Words of a skeleton.

ghost use Rattle.std.specs.Prelude.{◌≡◌};
ghost use Rattle.number_skeleton.specs.Words.{signs_of, sign_named, grouping_named, mode_named, width_named};
ghost use Rattle.number_skeleton.specs.Words.{precision_named, concise_stem, plain_stem, option_stem};

use crate::draft::Signs;
use crate::fault::{FaultKind, Thing};
use crate::stems::{Counts, Stem};
use fixed_decimal::{SignDisplay, SignedRoundingMode, UnsignedRoundingMode};
use skeleton_settings::{Grouping, Notation, UnitWidth};

fn signs(display: SignDisplay, is_accounting: bool) -> Signs
    ensures { result ≡ signs_of display is_accounting }
{
    Signs {
        display,
        is_accounting,
    }
}

/// The signs of a word behind `sign-`.
#[tactic(auto, unfolding(crate::specs::Words::sign_named))]
pub(crate) fn sign_named(word: &[u8]) -> Result<Signs, FaultKind>
    ensures { result ≡ sign_named word.now }
{
    if word == b"auto".as_slice() {
        Ok(signs(SignDisplay::Auto, false))
    } else if word == b"always".as_slice() {
        Ok(signs(SignDisplay::Always, false))
    } else if word == b"never".as_slice() {
        Ok(signs(SignDisplay::Never, false))
    } else if word == b"except-zero".as_slice() {
        Ok(signs(SignDisplay::ExceptZero, false))
    } else if word == b"negative".as_slice() {
        Ok(signs(SignDisplay::Negative, false))
    } else if word == b"accounting".as_slice() {
        Ok(signs(SignDisplay::Auto, true))
    } else if word == b"accounting-always".as_slice() {
        Ok(signs(SignDisplay::Always, true))
    } else if word == b"accounting-except-zero".as_slice() {
        Ok(signs(SignDisplay::ExceptZero, true))
    } else if word == b"accounting-negative".as_slice() {
        Ok(signs(SignDisplay::Negative, true))
    } else {
        Err(FaultKind::UnknownStem)
    }
}

/// The grouping of a word behind `group-`.
#[tactic(auto, unfolding(crate::specs::Words::grouping_named))]
pub(crate) fn grouping_named(word: &[u8]) -> Result<Grouping, FaultKind>
    ensures { result ≡ grouping_named word.now }
{
    if word == b"off".as_slice() {
        Ok(Grouping::Off)
    } else if word == b"min2".as_slice() {
        Ok(Grouping::Min2)
    } else if word == b"auto".as_slice() {
        Ok(Grouping::Auto)
    } else if word == b"on-aligned".as_slice() {
        Ok(Grouping::OnAligned)
    } else if word == b"thousands".as_slice() {
        Ok(Grouping::Thousands)
    } else {
        Err(FaultKind::UnknownStem)
    }
}

/// The rounding mode of a word behind `rounding-mode-`.
#[tactic(auto, unfolding(crate::specs::Words::mode_named))]
pub(crate) fn mode_named(word: &[u8]) -> Result<SignedRoundingMode, FaultKind>
    ensures { result ≡ mode_named word.now }
{
    if word == b"ceiling".as_slice() {
        Ok(SignedRoundingMode::Ceil)
    } else if word == b"floor".as_slice() {
        Ok(SignedRoundingMode::Floor)
    } else if word == b"down".as_slice() {
        Ok(SignedRoundingMode::Unsigned(UnsignedRoundingMode::Trunc))
    } else if word == b"up".as_slice() {
        Ok(SignedRoundingMode::Unsigned(UnsignedRoundingMode::Expand))
    } else if word == b"half-even".as_slice() {
        Ok(SignedRoundingMode::Unsigned(UnsignedRoundingMode::HalfEven))
    } else if word == b"half-ceiling".as_slice() {
        Ok(SignedRoundingMode::HalfCeil)
    } else if word == b"half-floor".as_slice() {
        Ok(SignedRoundingMode::HalfFloor)
    } else if word == b"half-down".as_slice() {
        Ok(SignedRoundingMode::Unsigned(UnsignedRoundingMode::HalfTrunc))
    } else if word == b"half-up".as_slice() {
        Ok(SignedRoundingMode::Unsigned(UnsignedRoundingMode::HalfExpand))
    } else if word == b"half-odd".as_slice() {
        Err(FaultKind::LeftOut(Thing::HalfOdd))
    } else if word == b"unnecessary".as_slice() {
        Err(FaultKind::LeftOut(Thing::Unnecessary))
    } else {
        Err(FaultKind::UnknownStem)
    }
}

/// The width of a word behind `unit-width-`.
#[tactic(auto, unfolding(crate::specs::Words::width_named))]
pub(crate) fn width_named(word: &[u8]) -> Result<UnitWidth, FaultKind>
    ensures { result ≡ width_named word.now }
{
    if word == b"narrow".as_slice() {
        Ok(UnitWidth::Narrow)
    } else if word == b"short".as_slice() {
        Ok(UnitWidth::Short)
    } else if word == b"full-name".as_slice() {
        Ok(UnitWidth::FullName)
    } else if word == b"iso-code".as_slice() {
        Ok(UnitWidth::IsoCode)
    } else if word == b"hidden".as_slice() {
        Ok(UnitWidth::Hidden)
    } else if word == b"formal".as_slice() {
        Err(FaultKind::LeftOut(Thing::Formal))
    } else if word == b"variant".as_slice() {
        Err(FaultKind::LeftOut(Thing::Variant))
    } else {
        Err(FaultKind::UnknownStem)
    }
}

/// The stem of a word behind `precision-`.
#[tactic(auto, unfolding(crate::specs::Words::precision_named))]
pub(crate) fn precision_named(word: &[u8]) -> Result<Stem, FaultKind>
    ensures { result ≡ precision_named word.now }
{
    if word == b"integer".as_slice() {
        Ok(Stem::Fraction(Counts {
            least: 0,
            most: Some(0),
        }))
    } else if word == b"unlimited".as_slice() {
        Ok(Stem::Unlimited)
    } else if word == b"currency-standard".as_slice() {
        Ok(Stem::CurrencyPrecision(false))
    } else if word == b"currency-cash".as_slice() {
        Ok(Stem::CurrencyPrecision(true))
    } else if word == b"increment".as_slice() {
        Ok(Stem::Increment)
    } else {
        Err(FaultKind::UnknownStem)
    }
}

/// Concise stems of grouping and signs.
#[tactic(auto, unfolding(crate::specs::Words::concise_stem))]
pub(crate) fn concise_stem(word: &[u8]) -> Result<Stem, FaultKind>
    ensures { result ≡ concise_stem word.now }
{
    if word == b",_".as_slice() {
        Ok(Stem::Grouping(Grouping::Off))
    } else if word == b",?".as_slice() {
        Ok(Stem::Grouping(Grouping::Min2))
    } else if word == b",!".as_slice() {
        Ok(Stem::Grouping(Grouping::OnAligned))
    } else if word == b"+!".as_slice() {
        Ok(Stem::Sign(signs(SignDisplay::Always, false)))
    } else if word == b"+_".as_slice() {
        Ok(Stem::Sign(signs(SignDisplay::Never, false)))
    } else if word == b"+?".as_slice() {
        Ok(Stem::Sign(signs(SignDisplay::ExceptZero, false)))
    } else if word == b"+-".as_slice() {
        Ok(Stem::Sign(signs(SignDisplay::Negative, false)))
    } else if word == b"()".as_slice() {
        Ok(Stem::Sign(signs(SignDisplay::Auto, true)))
    } else if word == b"()!".as_slice() {
        Ok(Stem::Sign(signs(SignDisplay::Always, true)))
    } else if word == b"()?".as_slice() {
        Ok(Stem::Sign(signs(SignDisplay::ExceptZero, true)))
    } else if word == b"()-".as_slice() {
        Ok(Stem::Sign(signs(SignDisplay::Negative, true)))
    } else {
        Err(FaultKind::UnknownStem)
    }
}

/// Stems that are one word and take no option.
#[tactic(auto, unfolding(crate::specs::Words::plain_stem))]
pub(crate) fn plain_stem(word: &[u8]) -> Result<Stem, FaultKind>
    ensures { result ≡ plain_stem word.now }
{
    if word == b"notation-simple".as_slice() {
        Ok(Stem::Notation(Notation::Simple))
    } else if word == b"compact-short".as_slice() {
        Ok(Stem::Notation(Notation::CompactShort))
    } else if word == b"K".as_slice() {
        Ok(Stem::Notation(Notation::CompactShort))
    } else if word == b"compact-long".as_slice() {
        Ok(Stem::Notation(Notation::CompactLong))
    } else if word == b"KK".as_slice() {
        Ok(Stem::Notation(Notation::CompactLong))
    } else if word == b"base-unit".as_slice() {
        Ok(Stem::BaseUnit)
    } else if word == b"percent".as_slice() {
        Ok(Stem::Percent)
    } else if word == b"%".as_slice() {
        Ok(Stem::Percent)
    } else if word == b"permille".as_slice() {
        Ok(Stem::Permille)
    } else if word == b"%x100".as_slice() {
        Ok(Stem::PercentTimesHundred)
    } else if word == b"latin".as_slice() {
        Ok(Stem::Latin)
    } else if word == b"decimal-auto".as_slice() {
        Ok(Stem::DecimalAuto)
    } else {
        Err(FaultKind::UnknownStem)
    }
}

/// Stems that need an option, and those that are left out.
#[tactic(auto, unfolding(crate::specs::Words::option_stem))]
pub(crate) fn option_stem(word: &[u8]) -> Result<Stem, FaultKind>
    ensures { result ≡ option_stem word.now }
{
    if word == b"currency".as_slice() {
        Ok(Stem::Currency)
    } else if word == b"unit".as_slice() {
        Ok(Stem::UnitName)
    } else if word == b"numbering-system".as_slice() {
        Ok(Stem::System)
    } else if word == b"scale".as_slice() {
        Ok(Stem::Scale)
    } else if word == b"integer-width".as_slice() {
        Ok(Stem::IntegerWidth)
    } else if word == b"integer-width-trunc".as_slice() {
        Err(FaultKind::LeftOut(Thing::IntegerCutOff))
    } else if word == b"scientific".as_slice() {
        Err(FaultKind::LeftOut(Thing::Scientific))
    } else if word == b"engineering".as_slice() {
        Err(FaultKind::LeftOut(Thing::Engineering))
    } else if word == b"decimal-always".as_slice() {
        Err(FaultKind::LeftOut(Thing::DecimalAlways))
    } else if word == b"measure-unit".as_slice() {
        Err(FaultKind::LeftOut(Thing::MeasureUnit))
    } else if word == b"per-measure-unit".as_slice() {
        Err(FaultKind::LeftOut(Thing::PerMeasureUnit))
    } else if word == b"usage".as_slice() {
        Err(FaultKind::LeftOut(Thing::Usage))
    } else {
        Err(FaultKind::UnknownStem)
    }
}
