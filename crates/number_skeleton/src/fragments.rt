//! What one token sets.

ghost use Rattle.std.specs.Prelude.{◌≡◌};
ghost use Rattle.skeleton_settings.specs.Settings.{unit_data};
ghost use Rattle.number_skeleton.specs.Data.{draft_data};
ghost use Rattle.number_skeleton.specs.Fragments.{only_notation, only_unit, only_width, only_digits};
ghost use Rattle.number_skeleton.specs.Fragments.{only_mode, only_integer_digits, only_scale};
ghost use Rattle.number_skeleton.specs.Fragments.{only_grouping, only_system, only_signs};
ghost use Rattle.number_skeleton.specs.Fragments.{only_decimal, percent_times_hundred};

use crate::draft::{DecimalDisplay, Digits, Draft, Signs, nothing_set};
use fixed_decimal::SignedRoundingMode;
use skeleton_settings::{Grouping, Notation, NumberUnit, Precision, UnitWidth};

/// A notation.
pub(crate) fn only_notation(notation: Notation) -> Draft<'static>
    ensures { draft_data result ≡ only_notation notation }
{
    Draft {
        notation: Some(notation),
        ..nothing_set()
    }
}

/// A unit.
pub(crate) fn only_unit(unit: NumberUnit<'_>) -> Draft<'_>
    ensures { draft_data result ≡ only_unit (unit_data unit.entry) }
{
    Draft {
        unit: Some(unit),
        ..nothing_set()
    }
}

/// A width.
pub(crate) fn only_width(width: UnitWidth) -> Draft<'static>
    ensures { draft_data result ≡ only_width width }
{
    Draft {
        width: Some(width),
        ..nothing_set()
    }
}

/// A precision, and whether `/w` stands behind it.
pub(crate) fn only_digits(precision: Precision, hides_zeros_of_whole: bool) -> Draft<'static>
    ensures { draft_data result ≡ only_digits precision hides_zeros_of_whole }
{
    Draft {
        digits: Some(Digits {
            precision,
            hides_zeros_of_whole,
        }),
        ..nothing_set()
    }
}

/// A rounding mode.
pub(crate) fn only_mode(mode: SignedRoundingMode) -> Draft<'static>
    ensures { draft_data result ≡ only_mode mode }
{
    Draft {
        mode: Some(mode),
        ..nothing_set()
    }
}

/// A least count of integer digits.
pub(crate) fn only_integer_digits(count: u16) -> Draft<'static>
    ensures { draft_data result ≡ only_integer_digits count }
{
    Draft {
        integer_digits: Some(count),
        ..nothing_set()
    }
}

/// A power of ten.
pub(crate) fn only_scale(power: i16) -> Draft<'static>
    ensures { draft_data result ≡ only_scale power }
{
    Draft {
        scale: Some(power),
        ..nothing_set()
    }
}

/// A grouping.
pub(crate) fn only_grouping(grouping: Grouping) -> Draft<'static>
    ensures { draft_data result ≡ only_grouping grouping }
{
    Draft {
        grouping: Some(grouping),
        ..nothing_set()
    }
}

/// A numbering system.
pub(crate) fn only_system(name: &str) -> Draft<'_>
    ensures { draft_data result ≡ only_system name.now }
{
    Draft {
        system: Some(name),
        ..nothing_set()
    }
}

/// Signs.
pub(crate) fn only_signs(signs: Signs) -> Draft<'static>
    ensures { draft_data result ≡ only_signs signs }
{
    Draft {
        signs: Some(signs),
        ..nothing_set()
    }
}

/// The decimal separator as it is by default.
pub(crate) fn only_decimal() -> Draft<'static>
    ensures { draft_data result ≡ only_decimal }
{
    Draft {
        decimal: Some(DecimalDisplay::Auto),
        ..nothing_set()
    }
}

/// Percent, of a number times a hundred.
pub(crate) fn percent_times_hundred() -> Draft<'static>
    ensures { draft_data result ≡ percent_times_hundred }
{
    Draft {
        unit: Some(NumberUnit::Percent),
        scale: Some(2),
        ..nothing_set()
    }
}
