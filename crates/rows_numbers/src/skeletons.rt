//! Calls of `number_skeleton`. A skeleton that was read is answered by its canonical text.

use crate::words::said;
use number_skeleton::read_skeleton;
use std::alloc::{AllocError, Global};

/// The canonical text of a skeleton, or its first fault and the fault's byte.
fn read(alloc: Global, text: &str) -> Result<Option<String>, AllocError> {
    match read_skeleton(text) {
        Ok(skeleton) => Ok(Some(skeleton.canonical(alloc)?)),
        Err(fault) => {
            let kind = fault.kind();
            let byte = fault.byte();
            Ok(Some(format!(in alloc; "{kind:?} {byte}")?))
        }
    }
}

/// How the first fault is displayed.
fn displayed(alloc: Global, text: &str) -> Result<Option<String>, AllocError> {
    match read_skeleton(text) {
        Ok(_) => said(alloc, "none"),
        Err(fault) => Ok(Some(format!(in alloc; "{fault}")?)),
    }
}

/// The canonical text of a skeleton between brackets, or the byte of its first fault.
fn canonical_or_byte(alloc: Global, text: &str) -> Result<Option<String>, AllocError> {
    match read_skeleton(text) {
        Ok(skeleton) => {
            let canonical = skeleton.canonical(alloc)?;
            Ok(Some(format!(in alloc; "[{canonical}]")?))
        }
        Err(fault) => {
            let byte = fault.byte();
            Ok(Some(format!(in alloc; "{byte}")?))
        }
    }
}

/// What a call of skeletons answers.
pub(crate) fn returned(
    alloc: Global,
    call: &str,
    arguments: &[String],
) -> Result<Option<String>, AllocError> {
    match arguments {
        [text] => match call {
            "read_skeleton" => read(alloc, text),
            "display_fault" => displayed(alloc, text),
            "canonical_or_byte" => canonical_or_byte(alloc, text),
            _ => Ok(None),
        },
        _ => Ok(None),
    }
}
