//! Tokens of the canonical text that are one word; none of a default.

ghost use Rattle.std.specs.Prelude.{◌≡◌};
ghost use Rattle.skeleton_settings.specs.Canonical.{word_data, notation_text, mode_text};
ghost use Rattle.skeleton_settings.specs.Canonical.{grouping_text, width_text, sign_text};

use crate::settings::{Grouping, Notation, UnitWidth};
use fixed_decimal::{SignDisplay, SignedRoundingMode, UnsignedRoundingMode};

/// The token of a notation.
pub(crate) fn notation_word(notation: Notation) -> Option<&'static str>
    ensures { word_data result ≡ notation_text notation }
{
    match notation {
        Notation::Simple => None,
        Notation::CompactShort => Some("compact-short"),
        Notation::CompactLong => Some("compact-long"),
    }
}

/// The token of a rounding mode.
pub(crate) fn mode_word(mode: SignedRoundingMode) -> Option<&'static str>
    ensures { word_data result ≡ mode_text mode }
{
    match mode {
        SignedRoundingMode::Unsigned(UnsignedRoundingMode::HalfEven) => None,
        SignedRoundingMode::Unsigned(UnsignedRoundingMode::Expand) => Some("rounding-mode-up"),
        SignedRoundingMode::Unsigned(UnsignedRoundingMode::Trunc) => Some("rounding-mode-down"),
        SignedRoundingMode::Unsigned(UnsignedRoundingMode::HalfExpand) => {
            Some("rounding-mode-half-up")
        }
        SignedRoundingMode::Unsigned(UnsignedRoundingMode::HalfTrunc) => {
            Some("rounding-mode-half-down")
        }
        SignedRoundingMode::Ceil => Some("rounding-mode-ceiling"),
        SignedRoundingMode::Floor => Some("rounding-mode-floor"),
        SignedRoundingMode::HalfCeil => Some("rounding-mode-half-ceiling"),
        SignedRoundingMode::HalfFloor => Some("rounding-mode-half-floor"),
    }
}

/// The token of grouping.
pub(crate) fn grouping_word(grouping: Option<Grouping>) -> Option<&'static str>
    ensures { word_data result ≡ grouping_text grouping }
{
    match grouping? {
        Grouping::Off => Some("group-off"),
        Grouping::Min2 => Some("group-min2"),
        Grouping::Auto => Some("group-auto"),
        Grouping::OnAligned => Some("group-on-aligned"),
        Grouping::Thousands => Some("group-thousands"),
    }
}

/// The token of a width.
pub(crate) fn width_word(width: UnitWidth) -> Option<&'static str>
    ensures { word_data result ≡ width_text width }
{
    match width {
        UnitWidth::Narrow => Some("unit-width-narrow"),
        UnitWidth::Short => None,
        UnitWidth::FullName => Some("unit-width-full-name"),
        UnitWidth::IsoCode => Some("unit-width-iso-code"),
        UnitWidth::Hidden => Some("unit-width-hidden"),
    }
}

/// The token of signs. There is no form for accounting that never shows a sign.
pub(crate) fn sign_word(sign: SignDisplay, is_accounting: bool) -> Option<&'static str>
    ensures { word_data result ≡ sign_text sign is_accounting }
{
    match (sign, is_accounting) {
        (SignDisplay::Auto, false) => None,
        (SignDisplay::Always, false) => Some("sign-always"),
        (SignDisplay::Never, _) => Some("sign-never"),
        (SignDisplay::ExceptZero, false) => Some("sign-except-zero"),
        (SignDisplay::Negative, false) => Some("sign-negative"),
        (SignDisplay::Auto, true) => Some("sign-accounting"),
        (SignDisplay::Always, true) => Some("sign-accounting-always"),
        (SignDisplay::ExceptZero, true) => Some("sign-accounting-except-zero"),
        (SignDisplay::Negative, true) => Some("sign-accounting-negative"),
    }
}
