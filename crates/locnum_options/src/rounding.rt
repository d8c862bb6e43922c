//! Which number is taken where a number is rounded, and where nothing is rounded.

ghost use Rattle.std.specs.Prelude.{◌≡◌, option_map};
ghost use Rattle.locnum_options.specs.Kinds.{is_simple};
ghost use Rattle.locnum_options.specs.Rounding.{half_mode_named, is_compact_kind, is_compact_precision, is_large_increment, is_rounded, judged_mode, mode_given, mode_named};

use crate::fault::OptionFault;
use crate::given::Given;
use fixed_decimal::{SignedRoundingMode, UnsignedRoundingMode};
use number_formatters::Kind;
use number_forms::has_compact_increment;
use skeleton_settings::{Notation, Precision};

/// The mode of a word that begins with `half-`.
#[tactic(auto, unfolding(crate::specs::Rounding::half_mode_named))]
fn half_mode_named(word: &str) -> Result<SignedRoundingMode, OptionFault>
    ensures { result ≡ half_mode_named word.now }
{
    match word {
        "half-even" => Ok(SignedRoundingMode::Unsigned(UnsignedRoundingMode::HalfEven)),
        "half-up" => Ok(SignedRoundingMode::Unsigned(UnsignedRoundingMode::HalfExpand)),
        "half-down" => Ok(SignedRoundingMode::Unsigned(UnsignedRoundingMode::HalfTrunc)),
        "half-ceiling" => Ok(SignedRoundingMode::HalfCeil),
        "half-floor" => Ok(SignedRoundingMode::HalfFloor),
        _ => Err(OptionFault::Round),
    }
}

/// The mode of a word: up is away from zero, and down towards zero.
#[tactic(auto, unfolding(crate::specs::Rounding::mode_named))]
fn mode_named(word: &str) -> Result<SignedRoundingMode, OptionFault>
    ensures { result ≡ mode_named word.now }
{
    match word {
        "up" => Ok(SignedRoundingMode::Unsigned(UnsignedRoundingMode::Expand)),
        "down" => Ok(SignedRoundingMode::Unsigned(UnsignedRoundingMode::Trunc)),
        "ceiling" => Ok(SignedRoundingMode::Ceil),
        "floor" => Ok(SignedRoundingMode::Floor),
        _ => half_mode_named(word),
    }
}

/// Which number is taken; the nearest, and of two equally near the even one, by default.
#[tactic(auto, unfolding(crate::specs::Rounding::mode_given))]
pub(crate) fn mode_given(word: Option<&str>) -> Result<SignedRoundingMode, OptionFault>
    ensures { result ≡ mode_given (option_map (λ t. t.now) word.entry) }
{
    match word {
        Some(word) => mode_named(word),
        None => Ok(SignedRoundingMode::Unsigned(UnsignedRoundingMode::HalfEven)),
    }
}

/// Whether numbers are in full.
fn is_simple(notation: Notation) -> bool
    ensures { result ≡ is_simple notation }
{
    matches!(notation, Notation::Simple)
}

/// Whether the numbers of a kind are compact.
pub(crate) fn is_compact_kind(kind: &Kind<'_>) -> bool
    ensures { result ≡ is_compact_kind kind.now }
{
    match kind {
        Kind::Short | Kind::Long | Kind::MoneyShort { .. } => true,
        Kind::Plain | Kind::Percent | Kind::Permille | Kind::Money { .. } => false,
        Kind::MoneyNamed { notation, .. } | Kind::Unit { notation, .. } => !is_simple(*notation),
    }
}

/// Whether compact numbers have this increment: 1 is a multiple of it.
fn is_compact_precision(precision: &Option<Precision>) -> bool
    ensures { result ≡ is_compact_precision precision.now }
{
    match precision {
        Some(precision) => has_compact_increment(precision),
        None => true,
    }
}

/// Whether numbers are rounded: they are compact, an option says how fine they are, or a currency
/// does.
#[tactic(auto, unfolding(crate::specs::Rounding::is_rounded))]
fn is_rounded(given: &Given, compact: bool) -> bool
    ensures { result ≡ is_rounded given.now compact }
{
    compact
        || given.flag("fraction")
        || given.flag("significant")
        || given.flag("increment")
        || given.flag("currency")
}

/// Whether compact numbers are asked for with an increment that they don't have.
#[tactic(auto, unfolding(crate::specs::Rounding::is_large_increment))]
fn is_large_increment(compact: bool, precision: &Option<Precision>) -> bool
    ensures { result ≡ is_large_increment compact precision.now }
{
    compact && !is_compact_precision(precision)
}

/// A mode, unless an increment is asked for that compact numbers don't have, or a mode where nothing
/// is rounded.
#[tactic(auto, unfolding(crate::specs::Rounding::judged_mode))]
pub(crate) fn judged_mode(
    given: &Given,
    compact: bool,
    precision: &Option<Precision>,
    mode: SignedRoundingMode,
) -> Result<SignedRoundingMode, OptionFault>
    ensures { result ≡ judged_mode given.now compact precision.now mode }
{
    if is_large_increment(compact, precision) {
        return Err(OptionFault::CompactIncrement);
    }
    if given.flag("round") && !is_rounded(given, compact) {
        return Err(OptionFault::NothingRounded);
    }
    Ok(mode)
}
