//! Places, and the place and the increment at which numbers of a magnitude are rounded.
//!
//! A place counts powers of ten from -33024 on, which lies below each power that a decimal writes.

ghost use Rattle.std.specs.Prelude.{◌≡◌, ◌≤◌, ◌<◌, ◌+◌, ◌-◌, ◌*◌, ◌^◌, ◌⊎◌, Some};
ghost use Rattle.fixed_decimal.specs.Size.{finest, place};
ghost use Rattle.fixed_decimal.specs.Increments.{step_of};
ghost use Rattle.number_rounding.specs.Steps.{fraction_place, significant_place, preferred_place};
ghost use Rattle.number_rounding.specs.Steps.{step_place, increment_of};

use fixed_decimal::RoundingIncrement;
use skeleton_settings::{Precision, Priority};

/// The place of power 0.
pub(crate) const FINEST: u32 = 33024;

/// How many fraction digits stand for those of a currency that isn't known.
pub(crate) const UNRESOLVED: u16 = 2;

/// The place of a power.
pub(crate) fn place_of(power: i16) -> u32
    ensures place { result ≡ place power }
    ensures high { result ≤ finest + 32767 }
    ensures low { finest ≤ result + 32768 }
{
    (power as i32 + FINEST as i32) as u32
}

/// The place of the last of that many digits below power 0, or the least place of all.
pub(crate) fn fraction_place(most: Option<u16>) -> u32
    ensures { result ≡ fraction_place most }
{
    match most {
        Some(most) => FINEST.saturating_sub(most as u32),
        None => 0,
    }
}

/// The place of the last of that many significant digits, the first of which stands at `k`.
pub(crate) fn significant_place(most: u16, k: u32) -> u32
    ensures { result ≡ significant_place (Some most) k }
{
    k.saturating_sub((most as u32).saturating_sub(1))
}

/// Of two places that of the finer step, or that of the coarser one.
fn preferred_place(priority: Priority, a: u32, b: u32) -> u32
    ensures { result ≡ preferred_place priority a b }
{
    match priority {
        Priority::Relaxed => a.min(b),
        Priority::Strict => a.max(b),
    }
}

/// The place of the step at the place `k`.
pub(crate) fn step_place(precision: Precision, k: u32) -> u32
    ensures place { result ≡ step_place precision k }
    ensures fine { result + 32768 < finest
        → increment_of precision ≡ RoundingIncrement.MultiplesOf1 }
    ensures coarse { (result ≤ finest + 32767) ⊎ (result ≤ k) }
{
    match precision {
        Precision::Fraction { most, .. } => fraction_place(most),
        Precision::Significant { most: None, .. } => 0,
        Precision::Significant {
            most: Some(most),
            ..
        } => significant_place(most, k),
        Precision::Increment { power, .. } => place_of(power),
        Precision::Currency { .. } => fraction_place(Some(UNRESOLVED)),
        Precision::Both {
            most,
            many,
            priority,
            ..
        } => preferred_place(priority, fraction_place(most), significant_place(many, k)),
    }
}

/// The increment of the step.
pub(crate) fn increment_of(precision: Precision) -> RoundingIncrement
    ensures { result ≡ increment_of precision }
{
    match precision {
        Precision::Increment { increment, .. } => increment,
        _ => RoundingIncrement::MultiplesOf1,
    }
}
