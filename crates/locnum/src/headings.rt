//! What stands in front of explanations.

use crate::tables::{TablesFile, push_heading};
use clap::ArgMatches;
use number_formatters::Settings;
use number_skeleton::read_skeleton;
use std::alloc::{AllocError, Global};

/// What stands in front of explanations.
#[derive(Drop)]
pub(crate) struct Heading {
    /// The canonical text of the skeleton, if one is given.
    pub(crate) skeleton: Option<String>,
    /// The line of the skeleton, if one is given, and that of the tables.
    pub(crate) lines: Vec<u8>,
}

/// The canonical text of the skeleton that is given; two apostrophes where it sets nothing.
fn canonical(alloc: Global, matches: &ArgMatches<'_>) -> Result<Option<String>, AllocError> {
    let Some(text) = matches.get_str("skeleton") else {
        return Ok(None);
    };
    let Ok(skeleton) = read_skeleton(text) else {
        return Ok(None);
    };
    let canonical = skeleton.canonical(alloc)?;
    if canonical.is_empty() {
        return Ok(Some(String::from_str(alloc, "''")?));
    }
    Ok(Some(canonical))
}

/// Appends the line of a skeleton, if one is given.
fn push_skeleton(skeleton: Option<&str>, out: &mut Vec<u8>) -> Result<(), AllocError> {
    let Some(skeleton) = skeleton else {
        return Ok(());
    };
    out.extend_from_slice(b"skeleton: ")?;
    out.extend_from_slice(skeleton.as_bytes())?;
    out.push(b'\n')?;
    Ok(())
}

/// The canonical text of the skeleton and the lines in front of explanations.
pub(crate) fn heading_of(
    alloc: Global,
    matches: &ArgMatches<'_>,
    file: TablesFile<'_>,
    settings: &Settings<'_>,
) -> Result<Heading, AllocError> {
    let skeleton = canonical(alloc, matches)?;
    let mut lines = Vec::new(alloc);
    push_skeleton(skeleton.as_deref(), &mut lines)?;
    push_heading(file, settings, &mut lines)?;
    Ok(Heading { skeleton, lines })
}
