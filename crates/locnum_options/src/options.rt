//! What the options ask for.

ghost use Rattle.std.specs.Prelude.{◌≡◌, Option, Result, option_map};
ghost use Rattle.number_skeleton.specs.declared.fault.SkeletonFault.{SkeletonFault};
ghost use Rattle.skeleton_settings.specs.declared.settings.Skeleton.{Skeleton};
ghost use Rattle.locnum_options.specs.Options.{GivesOption, end_of, header_given, options_of, padding_given};
ghost use Rattle.locnum_options.specs.Settings.{IsReadOf};

use crate::explained::{Explain, explain_given};
use crate::fault::OptionFault;
use crate::fields::positive_number_named;
use crate::given::Given;
use crate::locale::locale_given;
use crate::names::{Chosen, chosen_given};
use crate::padding::padding_named;
use crate::settings::{ReadSkeleton, settings_given, skeleton_read};
use crate::words::{field_end_given, refusals_given};
use locnum_lines::{LineSettings, Padding, Source};
use number_formatters::Settings;
use std::alloc::Global;
use std::marker::Model;

/// What the options ask for (this project's own).
#[derive(Debug, Drop)]
pub struct Options<'a> {
    /// The form of numbers.
    pub settings: Settings<'a>,
    /// How lines are cut, and what becomes of them.
    pub lines: LineSettings,
    /// What is explained instead, if anything is.
    pub explain: Explain,
}

impl<'a> Model for Options<'a> {
    ghost use Rattle.locnum_options.specs.Options.{OptionsData};

    ghost Value = { OptionsData };

    ghost view = { λ o. record {
      settings = o.settings;
      lines = o.lines;
      explain = o.explain;
    } };
}

/// How many lines are a header; none by default.
#[tactic(auto, unfolding(crate::specs::Options::header_given))]
fn header_given(text: Option<&str>) -> Result<u64, OptionFault>
    ensures { result ≡ header_given (option_map (λ t. t.now) text.entry) }
{
    let Some(text) = text else {
        return Ok(0);
    };
    match positive_number_named(text) {
        Some(number) => Ok(number as u64),
        None => Err(OptionFault::Header),
    }
}

/// How wide numbers are at least; as wide as they are by default.
#[tactic(auto, unfolding(crate::specs::Options::padding_given))]
fn padding_given(text: Option<&str>) -> Result<Option<Padding>, OptionFault>
    ensures { result ≡ padding_given (option_map (λ t. t.now) text.entry) }
{
    let Some(text) = text else {
        return Ok(None);
    };
    match padding_named(text) {
        Some(padding) => Ok(Some(padding)),
        None => Err(OptionFault::Padding),
    }
}

/// The byte that ends a line.
#[tactic(auto, unfolding(crate::specs::Options::end_of))]
fn end_of(zero_terminated: bool) -> u8
    ensures { result ≡ end_of zero_terminated }
{
    if zero_terminated { 0 } else { b'\n' }
}

/// What the options ask for besides the skeleton that was read, or the first fault.
#[tactic(auto, unfolding(crate::specs::Options::options_of))]
fn options_of<'a>(
    alloc: Global,
    skeleton: Option<ReadSkeleton<'a>>,
    given: &Given<'a>,
) -> Result<Options<'a>, OptionFault>
    ensures { GivesOption (λ x. x) result (options_of skeleton.entry given.now) }
{
    let locale = locale_given(alloc, given)?;
    let settings = match settings_given(alloc, locale, skeleton, given) {
        Ok(settings) => settings,
        Err(fault) => return Err(fault),
    };
    let explain = explain_given(given)?;
    let delimiter = field_end_given(given)?;
    let Chosen { fields, names } = chosen_given(alloc, given)?;
    let header = header_given(given.text("header"))?;
    let padding = padding_given(given.text("padding"))?;
    let refusals = refusals_given(given.text("invalid"))?;
    Ok(Options {
        settings,
        lines: LineSettings {
            delimiter,
            fields,
            names,
            header,
            end: end_of(given.flag("zero-terminated")),
            refusals,
            padding,
            source: Source::Lines,
        },
        explain,
    })
}

/// What the options ask for, or the first fault (this project's own).
///
/// `OutOfMemory` may be reported in place of any result.
// promise: The arguments determine what is asked for, or the fault.
// mutations: options_header_judged_after_invalid, two_precisions_let_through
pub fn parse_options<'a>(alloc: Global, given: &Given<'a>) -> Result<Options<'a>, OptionFault>
    ensures { (skeleton : Option (Result Skeleton SkeletonFault)) × IsReadOf given.now skeleton
        × GivesOption (λ x. x) result (options_of skeleton given.now) }
{
    let skeleton = skeleton_read(given);
    options_of(alloc, skeleton, given)
}
