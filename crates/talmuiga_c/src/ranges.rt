//! Formatters that write ranges: how they are opened, and the range of two texts.

ghost use Rattle.std.specs.Prelude.{◌≡◌, IfErr, IfOk, OnErr, Ok};
ghost use Rattle.number_ranges.specs.ByCategory.{range_events};
ghost use Rattle.number_ranges.specs.WroteRange.{IsRefusal};
ghost use Rattle.talmuiga_c.specs.Handle.{empty};
ghost use Rattle.talmuiga_c.specs.LocaleRanges.{ranges_asked};
ghost use Rattle.talmuiga_c.specs.Ranges.{HoldsRange, IsRange, OpensBoth, OpensRanges, RangeOf, style_of};
ghost use Rattle.talmuiga_c.specs.Skeletons.{form_asked};

use crate::fault::{Fault, no_fault};
use crate::handle::Room;
use crate::kept::Kept;
use crate::locale_ranges::{LocaleRanges, ranges_asked};
use crate::output::put_text;
use crate::range_status::{NO_PATTERN, pattern_status, range_status};
use crate::skeletons::settings_asked;
use crate::status::{self, form_status};
use icu_ranges::{RangeIdentityFallback, RangeStyle};
use icu_unit_ranges::PluralRangeStyle;
use number_formatters::Settings;
use number_forms::Form;
use number_ranges::{RangeTextError, push_range};
use std::alloc::Global;

/// Opens a formatter of a form and of the ranges that the settings have in the tables.
fn open_with(
    alloc: Global,
    settings: &Settings<'_>,
    tables: &[u8],
    form: Form,
    formatter: &mut Room,
) -> u32
    requires empty { formatter.old.held ≡ empty }
    ensures opens { OpensBoth (Ok form) (ranges_asked settings.now tables.now) formatter.new.held
        result }
{
    match ranges_asked(alloc, settings, tables) {
        Ok(ranges) => {
            formatter.put(Kept::WithRanges(form, ranges));
            status::DONE
        }
        Err(error) => {
            drop(form);
            pattern_status(error)
        }
    }
}

/// Opens a formatter of the form and of the ranges that the settings make of the tables.
fn open_both(alloc: Global, settings: &Settings<'_>, tables: &[u8], formatter: &mut Room) -> u32
    requires empty { formatter.old.held ≡ empty }
    ensures opens { OpensBoth (form_asked settings.now tables.now)
        (ranges_asked settings.now tables.now) formatter.new.held result }
{
    match Form::of(alloc, settings, tables) {
        Ok(form) => open_with(alloc, settings, tables, form, formatter),
        Err(error) => form_status(error),
    }
}

/// Opens a formatter of the form and of the ranges that a locale and a skeleton make of the
/// tables. The locale is judged first, then the skeleton, then the tables for the form, and then
/// their ranges.
pub fn open_ranges(
    alloc: Global,
    tables: &[u8],
    locale: &[u8],
    skeleton: &[u8],
    fault: &mut Fault,
    formatter: &mut Room,
) -> u32
    requires empty { formatter.old.held ≡ empty }
    ensures opens { OpensRanges locale.now skeleton.now tables.now formatter.new.held
        fault.new result }
{
    match settings_asked(locale, skeleton) {
        Ok(settings) => {
            *fault = no_fault();
            open_both(alloc, &settings, tables, formatter)
        }
        Err(rejected) => {
            *fault = rejected.fault;
            rejected.status
        }
    }
}

/// Writes the range of two texts by a form, as a locale writes ranges, if it fits. The result is
/// its length.
fn put_range(
    alloc: Global,
    form: &Form,
    ranges: &LocaleRanges,
    start: &[u8],
    end: &[u8],
    output: &mut [u8],
) -> Result<usize, RangeTextError>
    ensures ok { IfOk result (λ n.
        HoldsRange (range_events form.now (style_of ranges.now) start.now end.now)
        output.old output.new n) }
    ensures refused { IfErr result (λ error. IsRefusal
        (range_events form.now (style_of ranges.now) start.now end.now) error) }
    ensures unchanged { OnErr result (output.new ≡ output.old) }
{
    let style = PluralRangeStyle {
        style: RangeStyle {
            pattern: &ranges.pattern,
            fallback: RangeIdentityFallback::Approximately,
        },
        plural_ranges: &ranges.plural_ranges,
    };
    let mut text = Vec::new(alloc);
    push_range(alloc, form, &style, start, end, &mut text)?;
    Ok(put_text(output, &text))
}

/// Writes the range of two texts by a form, as a locale writes ranges, if it fits, and sets its
/// length.
fn format_range_by(
    alloc: Global,
    form: &Form,
    ranges: &LocaleRanges,
    start: &[u8],
    end: &[u8],
    output: &mut [u8],
    length: &mut usize,
) -> u32
    ensures { RangeOf (range_events form.now (style_of ranges.now) start.now end.now)
        output.old output.new length.new result }
{
    match put_range(alloc, form, ranges, start, end, output) {
        Ok(count) => {
            *length = count;
            if count <= output.len() {
                status::DONE
            } else {
                status::OUTPUT_TOO_SMALL
            }
        }
        Err(error) => {
            *length = 0;
            range_status(error)
        }
    }
}

/// Writes the range of two texts, if it fits, and sets its length.
pub fn format_range_in(
    alloc: Global,
    kept: &Kept,
    start: &[u8],
    end: &[u8],
    output: &mut [u8],
    length: &mut usize,
) -> u32
    ensures { IsRange kept.now start.now end.now output.old output.new length.new result }
{
    match kept {
        Kept::WithRanges(form, ranges) => {
            format_range_by(alloc, form, ranges, start, end, output, length)
        }
        Kept::ByWords(_) | Kept::BySkeleton(_) => {
            *length = 0;
            NO_PATTERN
        }
    }
}
