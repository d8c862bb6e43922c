//! Reading a message.

ghost use Rattle.std.specs.Prelude.{◌≡◌, ◌⊎◌, ◌<◌, ◌+◌, Ok, Err, IfOk, IfErr, length, drop};
ghost use Rattle.icu_message.specs.declared.error.ParseError.TheVariants.{OutOfMemory};
ghost use Rattle.icu_message.specs.Keys.{keys_to};
ghost use Rattle.icu_message.specs.Stepping.{start};
ghost use Rattle.icu_message.specs.Reading.{empty_draft, first, reading_from, pieces_of};

use crate::error::ParseError;
use crate::keys::counted_at;
use crate::piece::{BegunChoice, ChoiceKind, OpenKey, Piece};
use crate::stepping::{Here, State, Step};
use std::alloc::Global;
use std::marker::Model;

/// The most bytes of a message's text.
const LONGEST: usize = 65_535;

/// A level that no choice has.
const NO_LEVEL: usize = 9;

/// Closes the keys above a level.
fn close_keys(keys: &mut Vec<OpenKey>, level: usize)
    ensures { keys.new.items ≡ keys_to level keys.old.items }
{
    keys.retain(|key| key.level <= level);
}

/// The byte behind a byte of a text, or 0.
fn byte_behind(text: &[u8], at: usize) -> u8
    requires { at < length text.now }
    ensures { result ≡ first (drop (at + 1) text.now) }
{
    let rest = text.split_at(at + 1).1;
    if rest.is_empty() { 0 } else { rest[0] }
}

/// A message while it is read: its pieces, the keys of the choices that are open, and all choices
/// that were begun.
#[derive(Drop)]
pub(crate) struct Draft {
    pieces: Vec<Piece>,
    keys: Vec<OpenKey>,
    choices: Vec<BegunChoice>,
}

impl Model for Draft {
    ghost use Rattle.icu_message.specs.Reading.{Drafted};

    ghost Value = { Drafted };

    ghost view = { λ d. record {
      pieces = d.pieces.items;
      keys = d.keys.items;
      choices = d.choices.items;
    } };
}

impl Draft {
    ghost use Rattle.std.specs.Prelude.{◌≡◌, ◌<◌, ◌+◌, IsOkUnless, OnOk, length, drop, get_or, IfOk};
    ghost use Rattle.icu_message.specs.Reading.{empty_draft, with_added, keys_behind, choices_behind, here, fault_of_end};
    ghost use Rattle.icu_message.specs.Stepping.{step, IsNested};

    fn new(alloc: Global) -> Self
        ensures { result ≡ empty_draft }
    {
        Draft {
            pieces: Vec::new(alloc),
            keys: Vec::new(alloc),
            choices: Vec::new(alloc),
        }
    }

    /// Opens or closes keys, or begins a choice, at a piece.
    fn take_lists(&mut self, level: usize, piece: Piece) -> Result<(), ParseError>
        ensures keys { OnOk result (self.new.keys ≡ keys_behind level piece self.old.keys) }
        ensures choices { OnOk result (self.new.choices
            ≡ choices_behind level piece self.old.choices) }
        ensures pieces { OnOk result (self.new.pieces ≡ self.old.pieces) }
        ensures memory { IsOkUnless result ParseError.OutOfMemory }
    {
        match piece {
            Piece::Arm(word) => self.keys.push(OpenKey { level, word })?,
            Piece::Choice(kind, name) => self.choices.push(BegunChoice { level, kind, name })?,
            Piece::Formatted(name, _) => self.choices.push(BegunChoice {
                level: NO_LEVEL,
                kind: ChoiceKind::Plural,
                name,
            })?,
            Piece::EndChoice => close_keys(&mut self.keys, level),
            _ => {}
        }
        Ok(())
    }

    /// Adds the piece that a byte completes.
    fn take(&mut self, level: usize, added: Option<Piece>) -> Result<(), ParseError>
        ensures taken { OnOk result (self.new ≡ with_added level added self.old) }
        ensures memory { IsOkUnless result ParseError.OutOfMemory }
    {
        let Some(piece) = added else {
            return Ok(());
        };
        self.pieces.push(piece)?;
        self.take_lists(level, piece)
    }

    /// Reads the byte at a place of a text.
    fn step(&self, state: State, text: &[u8], at: usize) -> Result<Step, ParseError>
        requires nested { IsNested state }
        requires within { at < length text.now }
        ensures stepped { result ≡ step text.now self.now.keys self.now.choices state
            (here state self.now at (get_or text.now at 0) (drop (at + 1) text.now)) }
        ensures nested { IfOk result (λ t. IsNested t.state) }
    {
        let here = Here {
            at,
            byte: text[at],
            next: byte_behind(text, at),
            counted: counted_at(state.level, &self.choices),
        };
        state.step(text, &self.keys, &self.choices, here)
    }

    /// The fault of a text that ends here, if it may not end here.
    fn fault_of_end(&self, state: State, text: &[u8]) -> Option<ParseError>
        requires { IsNested state }
        ensures { result ≡ fault_of_end text.now state self.now (length text.now) }
    {
        let here = Here {
            at: text.len(),
            byte: b' ',
            next: 0,
            counted: counted_at(state.level, &self.choices),
        };
        state.end_fault(text, &self.keys, &self.choices, here)
    }
}

/// The pieces of a text of any length.
fn read_all(alloc: Global, text: &[u8]) -> Result<Vec<Piece>, ParseError>
    ensures read { IfOk result (λ p. reading_from text.now start empty_draft 0 text.now
        ≡ Ok p.items) }
    ensures rejected { IfErr result (λ e. (e ≡ OutOfMemory)
        ⊎ (reading_from text.now start empty_draft 0 text.now ≡ Err e)) }
{
    let mut state = State::start();
    let mut draft = Draft::new(alloc);
    for at in 0..text.len() {
        match draft.step(state, text, at) {
            Ok(step) => {
                draft.take(step.state.level, step.added)?;
                state = step.state;
            }
            Err(fault) => return Err(fault),
        }
    }
    match draft.fault_of_end(state, text) {
        Some(fault) => Err(fault),
        None => Ok(draft.pieces),
    }
}

/// The pieces of a text.
pub(crate) fn read(alloc: Global, text: &[u8]) -> Result<Vec<Piece>, ParseError>
    ensures read { IfOk result (λ p. pieces_of text.now ≡ Ok p.items) }
    ensures rejected { IfErr result (λ e. (e ≡ OutOfMemory) ⊎ (pieces_of text.now ≡ Err e)) }
{
    if LONGEST < text.len() {
        return Err(ParseError::TooLong { byte: LONGEST });
    }
    read_all(alloc, text)
}
