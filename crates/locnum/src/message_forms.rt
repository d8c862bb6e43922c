//! The forms of the places of a message that have a form of their own.

use crate::tables::{TablesFile, note_of_system};
use crate::{Failure, failure_of, put_note};
use icu_message::{Message, Piece};
use icu_provider::DataLocale;
use locnum_options::OptionFault;
use number_formatters::Settings;
use number_forms::{Form, StartError, push_reported};
use number_skeleton::read_skeleton;
use std::alloc::{AllocError, Global};
use std::str;

/// The places `{NAME, number, ::SKELETON}` with one name and one skeleton.
#[derive(Clone, Copy)]
pub(crate) struct Place<'a> {
    /// The name.
    pub(crate) name: &'a str,
    /// The skeleton; it is empty in `{NAME, number}`.
    pub(crate) skeleton: &'a str,
}

/// Places with their form.
#[derive(Drop)]
pub(crate) struct PlaceForm<'a> {
    /// The places.
    pub(crate) place: Place<'a>,
    /// Their form.
    pub(crate) form: Form,
}

/// The place of a piece, if this has a form of its own.
fn place_of<'a>(message: &'a Message, piece: Piece) -> Option<Place<'a>> {
    let Piece::Formatted(name, skeleton) = piece else {
        return None;
    };
    Some(Place {
        name: str::from_utf8(message.word(name)).ok()?,
        skeleton: str::from_utf8(message.word(skeleton)).ok()?,
    })
}

/// Whether the form of a place is among these.
fn is_opened(forms: &[PlaceForm<'_>], place: Place<'_>) -> bool {
    for opened in forms {
        if opened.place.name == place.name && opened.place.skeleton == place.skeleton {
            return true;
        }
    }
    false
}

/// What a note about a place begins with.
fn note_of_place(alloc: Global, place: Place<'_>) -> Result<Vec<u8>, AllocError> {
    let mut note = Vec::from_slice(alloc, b"locnum: {")?;
    note.extend_from_slice(place.name.as_bytes())?;
    note.extend_from_slice(b", number")?;
    if !place.skeleton.is_empty() {
        note.extend_from_slice(b", ::")?;
        push_reported(place.skeleton.as_bytes(), &mut note)?;
    }
    note.extend_from_slice(b"}: ")?;
    Ok(note)
}

/// Why there is no form of a place; it is reported.
fn failure_of_place(
    rt: &HostRuntime,
    file: TablesFile<'_>,
    settings: &Settings<'_>,
    place: Place<'_>,
    error: StartError,
) -> Failure {
    match note_of_place(rt.alloc(), place) {
        Ok(note) => failure_of(rt, &note, settings, file, error),
        Err(_) => Failure::OutOfMemory,
    }
}

/// Rejects a place with a numbering system that the tables don't have.
fn reject_system(
    rt: &HostRuntime,
    file: TablesFile<'_>,
    settings: &Settings<'_>,
    place: Place<'_>,
) -> Result<(), Failure> {
    let note = note_of_place(rt.alloc(), place)?;
    match note_of_system(rt.alloc(), &note, file, settings)? {
        Some(note) => Err(put_note(rt, &note)),
        None => Ok(()),
    }
}

/// What the skeleton of a place asks for.
fn settings_of<'a>(locale: DataLocale, place: Place<'a>) -> Result<Settings<'a>, Failure> {
    let skeleton = match read_skeleton(place.skeleton) {
        Ok(skeleton) => skeleton,
        Err(fault) => return Err(Failure::Options(OptionFault::Skeleton(fault))),
    };
    match Settings::of_skeleton(locale, &skeleton) {
        Ok(settings) => Ok(settings),
        Err(part) => Err(Failure::Options(OptionFault::Unsupported(part))),
    }
}

/// Adds the form of a place to these.
fn push_form<'a>(
    forms: &mut Vec<PlaceForm<'a>>,
    place: Place<'a>,
    form: Form,
) -> Result<(), Failure> {
    match forms.push(PlaceForm { place, form }) {
        Ok(()) => Ok(()),
        Err(_) => Err(Failure::OutOfMemory),
    }
}

/// Opens the form of a place, and adds it to these.
fn open_form<'a>(
    rt: &HostRuntime,
    file: TablesFile<'_>,
    locale: DataLocale,
    place: Place<'a>,
    forms: &mut Vec<PlaceForm<'a>>,
) -> Result<(), Failure> {
    let settings = settings_of(locale, place)?;
    match Form::of(rt.alloc(), &settings, file.bytes) {
        Ok(form) => push_form(forms, place, form)?,
        Err(error) => return Err(failure_of_place(rt, file, &settings, place, error)),
    }
    reject_system(rt, file, &settings, place)
}

/// Opens the forms of the places of a message that have a form of their own.
pub(crate) fn open_forms<'a>(
    rt: &HostRuntime,
    file: TablesFile<'_>,
    locale: DataLocale,
    message: &'a Message,
) -> Result<Vec<PlaceForm<'a>>, Failure> {
    let mut forms = Vec::new(rt.alloc());
    for piece in message.pieces() {
        let Some(place) = place_of(message, *piece) else {
            continue;
        };
        if !is_opened(&forms, place) {
            open_form(rt, file, locale, place, &mut forms)?;
        }
    }
    Ok(forms)
}
