//! Number skeletons as C hands them over: what is read of them, and the formatter that they open.

ghost use Rattle.std.specs.Prelude.{◌≡◌};
ghost use Rattle.talmuiga_c.specs.Handle.{empty};
ghost use Rattle.talmuiga_c.specs.Skeletons.{AsksFor, IsCanonical, OpensForm, OpensSkeleton, form_asked, locale_asked, read_data, skeleton_asked};

use crate::asked::text_in;
use crate::fault::{Fault, fault_of, no_fault, not_utf8, unsupported};
use crate::handle::Room;
use crate::kept::Kept;
use crate::output::put_text;
use crate::status::{self, form_status};
use icu_provider::DataLocale;
use number_formatters::Settings;
use number_forms::Form;
use number_skeleton::read_skeleton;
use skeleton_settings::Skeleton;
use std::alloc::Global;
use std::str;

/// Why no tables are read: a status, and what is wrong with the skeleton, if something is.
#[derive(Clone, Copy)]
pub struct Rejected {
    /// The status.
    pub status: u32,
    /// What is wrong with the skeleton.
    pub fault: Fault,
}

/// The locale of some bytes, where they are the text of one.
#[tactic(auto, unfolding(crate::specs::Skeletons::locale_asked, decimal_lines::specs::Words::locale_named))]
pub fn locale_asked(bytes: &[u8]) -> Option<DataLocale>
    ensures { result ≡ locale_asked bytes.now }
{
    match DataLocale::try_from_str(text_in(bytes)?) {
        Ok(locale) => Some(locale),
        Err(_) => None,
    }
}

/// The settings of a skeleton, or what is wrong with it.
#[tactic(auto, unfolding(crate::specs::Skeletons::skeleton_asked))]
fn skeleton_asked(bytes: &[u8]) -> Result<Skeleton<'_>, Fault>
    ensures { read_data result ≡ skeleton_asked bytes.now }
{
    let text = match str::from_utf8(bytes) {
        Ok(text) => text,
        Err(error) => return Err(not_utf8(error.valid_up_to())),
    };
    match read_skeleton(text) {
        Ok(skeleton) => Ok(skeleton),
        Err(fault) => Err(fault_of(fault)),
    }
}

/// A skeleton is rejected.
fn skeleton_refused(fault: Fault) -> Rejected
    ensures { result ≡ record { status = 9; fault = fault } }
{
    Rejected {
        status: status::SKELETON_REFUSED,
        fault,
    }
}

/// What a locale and a skeleton ask for, or why nothing is asked for: the locale is judged first.
pub fn settings_asked<'a>(locale: &[u8], skeleton: &'a [u8]) -> Result<Settings<'a>, Rejected>
    ensures { AsksFor locale.now skeleton.now result }
{
    let Some(locale) = locale_asked(locale) else {
        return Err(Rejected {
            status: status::WORDS_REFUSED,
            fault: no_fault(),
        });
    };
    let skeleton = match skeleton_asked(skeleton) {
        Ok(skeleton) => skeleton,
        Err(fault) => return Err(skeleton_refused(fault)),
    };
    match Settings::of_skeleton(locale, &skeleton) {
        Ok(settings) => Ok(settings),
        Err(thing) => Err(skeleton_refused(unsupported(thing))),
    }
}

/// Opens a formatter of the form that the settings make of the tables.
fn open_form(alloc: Global, settings: &Settings<'_>, tables: &[u8], formatter: &mut Room) -> u32
    requires empty { formatter.old.held ≡ empty }
    ensures opens { OpensForm (form_asked settings.now tables.now) formatter.new.held result }
{
    match Form::of(alloc, settings, tables) {
        Ok(form) => {
            formatter.put(Kept::BySkeleton(form));
            status::DONE
        }
        Err(error) => form_status(error),
    }
}

/// Opens a formatter of the form that a locale and a skeleton make of the tables. The locale is
/// judged first, then the skeleton, and then the tables.
pub fn open_skeleton(
    alloc: Global,
    tables: &[u8],
    locale: &[u8],
    skeleton: &[u8],
    fault: &mut Fault,
    formatter: &mut Room,
) -> u32
    requires empty { formatter.old.held ≡ empty }
    ensures opens { OpensSkeleton locale.now skeleton.now tables.now formatter.new.held
        fault.new result }
{
    match settings_asked(locale, skeleton) {
        Ok(settings) => {
            *fault = no_fault();
            open_form(alloc, &settings, tables, formatter)
        }
        Err(rejected) => {
            *fault = rejected.fault;
            rejected.status
        }
    }
}

/// Writes the canonical text of a skeleton, if it fits, and sets its length.
pub fn put_canonical(
    alloc: Global,
    skeleton: &[u8],
    output: &mut [u8],
    length: &mut usize,
    fault: &mut Fault,
) -> u32
    ensures { IsCanonical skeleton.now output.old output.new length.new fault.new result }
{
    *length = 0;
    *fault = no_fault();
    match skeleton_asked(skeleton) {
        Ok(skeleton) => match skeleton.canonical(alloc) {
            Ok(text) => {
                *length = put_text(output, text.as_bytes());
                if *length <= output.len() {
                    status::DONE
                } else {
                    status::OUTPUT_TOO_SMALL
                }
            }
            Err(_) => status::OUT_OF_MEMORY,
        },
        Err(found) => {
            *fault = found;
            status::SKELETON_REFUSED
        }
    }
}
