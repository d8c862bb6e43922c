//! Which fields are numbers: those in ranges, or those of columns with names.

ghost use Rattle.std.specs.Prelude.{◌≡◌, ◌∷◌, [], IfOk, map, string_bytes};
ghost use Rattle.locnum_options.specs.Names.{are_names, chosen_given, chosen_named, headed, is_range_byte, is_range_text};
ghost use Rattle.locnum_options.specs.Options.{GivesOption};
ghost use Rattle.locnum_options.specs.Texts.{parts_of};

use crate::fault::OptionFault;
use crate::fields::fields_named;
use crate::given::Given;
use locnum_lines::FieldRange;
use std::alloc::{AllocError, Global};
use std::marker::Model;

/// Which fields are numbers.
#[derive(Debug, Drop)]
pub(crate) struct Chosen {
    /// The ranges of their numbers, unless they are chosen by name.
    pub(crate) fields: Vec<FieldRange>,
    /// The names of their columns; none: the fields are chosen by number.
    pub(crate) names: Vec<String>,
}

impl Model for Chosen {
    ghost use Rattle.std.specs.Prelude.{map, string_bytes};
    ghost use Rattle.locnum_options.specs.Names.{ChosenData};

    ghost Value = { ChosenData };

    ghost view = { λ c. record {
      fields = c.fields.items;
      names = map string_bytes c.names.items;
    } };
}

/// Whether a byte is a digit or a hyphen.
fn is_range_byte(byte: u8) -> bool
    ensures { result ≡ is_range_byte byte }
{
    byte == b'-' || (b'0' <= byte && byte <= b'9')
}

/// Whether a text has digits and hyphens alone, and is no name.
#[tactic(auto, unfolding(crate::specs::Names::is_range_text))]
fn is_range_text(text: &str) -> bool
    ensures { result ≡ is_range_text text.now }
{
    text.as_bytes().iter().all(|byte| is_range_byte(*byte))
}

/// The parts of a text that is cut at its commas.
fn parts_of(alloc: Global, text: &str) -> Result<Vec<&str>, AllocError>
    ensures { IfOk result (λ v. map (λ t. t.now) v.items ≡ parts_of 44 text.now) }
{
    let mut parts = Vec::new(alloc);
    let mut rest = text;
    while let Some((part, behind)) = rest.split_once(',') {
        parts.push(part)?;
        rest = behind;
    }
    parts.push(rest)?;
    Ok(parts)
}

/// Whether no part of a list is a text of a range.
#[tactic(auto, unfolding(crate::specs::Names::are_names))]
fn are_names(parts: &[&str]) -> bool
    ensures { result ≡ are_names (map (λ t. t.now) parts.now) }
{
    for part in parts {
        if is_range_text(part) {
            return false;
        }
    }
    true
}

/// Texts of their own.
fn owned(alloc: Global, parts: &[&str]) -> Result<Vec<String>, AllocError>
    ensures { IfOk result (λ v. map string_bytes v.items ≡ map (λ t. t.now) parts.now) }
{
    let mut names = Vec::new(alloc);
    for part in parts {
        names.push(String::from_str(alloc, part)?)?;
    }
    Ok(names)
}

/// The fields of a list of ranges, or of names.
#[tactic(auto, unfolding(crate::specs::Names::chosen_named))]
fn chosen_named(alloc: Global, text: &str) -> Result<Chosen, OptionFault>
    ensures { GivesOption (λ x. x) result (chosen_named text.now) }
{
    let parts = parts_of(alloc, text)?;
    if are_names(&parts) {
        return Ok(Chosen {
            fields: Vec::new(alloc),
            names: owned(alloc, &parts)?,
        });
    }
    Ok(Chosen {
        fields: fields_named(alloc, text)?,
        names: Vec::new(alloc),
    })
}

/// The first field alone.
fn first_field(alloc: Global) -> Result<Chosen, AllocError>
    ensures { IfOk result (λ c. c ≡ record {
      fields = record { first = 1; last = 1 } ∷ [];
      names = [];
    }) }
{
    Ok(Chosen {
        fields: vec![in alloc; FieldRange { first: 1, last: 1 }]?,
        names: Vec::new(alloc),
    })
}

/// The fields, unless they have names and there is no header.
#[tactic(auto, unfolding(crate::specs::Names::headed))]
fn headed(is_header: bool, chosen: Chosen) -> Result<Chosen, OptionFault>
    ensures { result ≡ headed is_header chosen }
{
    if is_header || chosen.names.is_empty() {
        return Ok(chosen);
    }
    Err(OptionFault::Names)
}

/// The fields that are numbers; the first one by default.
#[tactic(auto, unfolding(crate::specs::Names::chosen_given))]
pub(crate) fn chosen_given(alloc: Global, given: &Given) -> Result<Chosen, OptionFault>
    ensures { GivesOption (λ x. x) result (chosen_given given.now) }
{
    match given.text("field") {
        None => Ok(first_field(alloc)?),
        Some(text) => headed(given.flag("header"), chosen_named(alloc, text)?),
    }
}
