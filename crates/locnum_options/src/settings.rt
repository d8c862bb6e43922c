//! The form of numbers: by a skeleton, or by the options for numbers.

ghost use Rattle.std.specs.Prelude.{◌≡◌};
ghost use Rattle.locnum_options.specs.Options.{GivesOption};
ghost use Rattle.locnum_options.specs.Settings.{IsReadOf, is_unlimited, number_settings, precision_or_unlimited, settings_given, skeleton_settings};

use crate::beside::option_beside;
use crate::fault::OptionFault;
use crate::given::Given;
use crate::integer::integer_given;
use crate::kinds::kind_given;
use crate::precision::precision_given;
use crate::rounding::{is_compact_kind, judged_mode, mode_given};
use crate::scale::scale_given;
use crate::words::{grouping_given, sign_given, system_given};
use icu_provider::DataLocale;
use number_formatters::Settings;
use number_skeleton::{SkeletonFault, read_skeleton};
use skeleton_settings::{Precision, Skeleton};
use std::alloc::Global;

/// What is read of a skeleton.
pub(crate) type ReadSkeleton<'a> = Result<Skeleton<'a>, SkeletonFault>;

/// What is read of the skeleton that is given, if one is.
pub(crate) fn skeleton_read<'a>(given: &Given<'a>) -> Option<ReadSkeleton<'a>>
    ensures { IsReadOf given.now result }
{
    let text = given.text("skeleton")?;
    Some(read_skeleton(text))
}

/// Whether no fraction digit is cut off, since integer digits are asked for, and neither a currency
/// nor the style says how fine numbers are.
#[tactic(auto, unfolding(crate::specs::Settings::is_unlimited))]
fn is_unlimited(given: &Given, compact: bool) -> bool
    ensures { result ≡ is_unlimited given.now compact }
{
    given.flag("integer") && !given.flag("currency") && !compact
}

/// How fine numbers are, which an option says first.
fn precision_or_unlimited(precision: Option<Precision>, unlimited: bool) -> Option<Precision>
    ensures { result ≡ precision_or_unlimited precision unlimited }
{
    match precision {
        None if unlimited => Some(Precision::Fraction {
            least: 0,
            most: None,
        }),
        _ => precision,
    }
}

/// The form of numbers that the options for numbers ask for.
#[tactic(auto, unfolding(crate::specs::Settings::number_settings))]
fn number_settings<'a>(
    alloc: Global,
    locale: DataLocale,
    given: &Given<'a>,
) -> Result<Settings<'a>, OptionFault>
    ensures { GivesOption (λ x. x) result (number_settings locale given.now) }
{
    let system = system_given(given.text("system"))?;
    let grouping = grouping_given(given.text("grouping"))?;
    let precision = precision_given(alloc, given)?;
    let mode = mode_given(given.text("round"))?;
    let integer_digits = integer_given(given.text("integer"))?;
    let scale = scale_given(alloc, given)?;
    let sign = sign_given(given.text("sign"))?;
    let kind = match kind_given(given) {
        Ok(kind) => kind,
        Err(fault) => return Err(fault),
    };
    let compact = is_compact_kind(&kind);
    let mode = judged_mode(given, compact, &precision, mode)?;
    Ok(Settings {
        locale,
        system,
        grouping,
        precision: precision_or_unlimited(precision, is_unlimited(given, compact)),
        mode,
        hides_zeros_of_whole: false,
        integer_digits,
        scale,
        sign,
        kind,
    })
}

/// The form of numbers that a skeleton asks for. No option for numbers stands beside it.
#[tactic(auto, unfolding(crate::specs::Settings::skeleton_settings))]
fn skeleton_settings<'a>(
    locale: DataLocale,
    skeleton: ReadSkeleton<'a>,
    given: &Given,
) -> Result<Settings<'a>, OptionFault>
    ensures { result ≡ skeleton_settings locale skeleton.entry given.now }
{
    if let Some(option) = option_beside(given) {
        return Err(OptionFault::BesideSkeleton(option));
    }
    let skeleton = match skeleton {
        Ok(skeleton) => skeleton,
        Err(fault) => return Err(OptionFault::Skeleton(fault)),
    };
    match Settings::of_skeleton(locale, &skeleton) {
        Ok(settings) => Ok(settings),
        Err(part) => Err(OptionFault::Unsupported(part)),
    }
}

/// The form of numbers: by the skeleton where one is given, else by the options for numbers.
#[tactic(auto, unfolding(crate::specs::Settings::settings_given))]
pub(crate) fn settings_given<'a>(
    alloc: Global,
    locale: DataLocale,
    skeleton: Option<ReadSkeleton<'a>>,
    given: &Given<'a>,
) -> Result<Settings<'a>, OptionFault>
    ensures { GivesOption (λ x. x) result (settings_given locale skeleton.entry given.now) }
{
    match skeleton {
        Some(skeleton) => skeleton_settings(locale, skeleton, given),
        None => number_settings(alloc, locale, given),
    }
}
