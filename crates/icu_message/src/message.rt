//! Messages.

use crate::argument::Argument;
use crate::error::{ParseError, WriteError};
use crate::filling::Filling;
use crate::piece::{Piece, Word};
use crate::places::{Places, places_of};
use crate::reading::read;
use crate::signature::{NamedKind, signature};
use crate::spelling::spell;
use crate::writing::{argument_fault, write};
use icu_plurals::PluralRules;
use std::alloc::{AllocError, Global};
use std::marker::Model;

/// A message: a text with places and choices (ICU `MessageFormat`), read once.
#[derive(Drop)]
pub struct Message {
    text: Vec<u8>,
    pieces: Vec<Piece>,
}

impl Model for Message {
    ghost use Rattle.std.specs.Prelude.{◌≡◌, Ok};
    ghost use Rattle.icu_message.specs.Reading.{MessageText, pieces_of};

    ghost Value = { MessageText };

    ghost view = { λ m. record { text = m.text.items; pieces = m.pieces.items } };

    ghost invariant = { λ m. pieces_of m.text.items ≡ Ok m.pieces.items };
}

impl Message {
    ghost use Rattle.std.specs.Prelude.{◌≡◌, ◌⊎◌, ◌++◌, [], Ok, Err, Some, None, IfOk, IfErr, OnOk, IfSome, IsSome, IsOkUnless};
    ghost use Rattle.icu_message.specs.declared.error.ParseError.TheVariants.{OutOfMemory};
    ghost use Rattle.icu_message.specs.Places.{places_in};
    ghost use Rattle.icu_message.specs.Reading.{pieces_of};
    ghost use Rattle.icu_message.specs.Signature.{signature};
    ghost use Rattle.icu_message.specs.Spelling.{said_all, spelling};
    ghost use Rattle.icu_message.specs.Trees.{Tree, pieces_in};
    ghost use Rattle.icu_message.specs.Words.{word_in};
    ghost use Rattle.icu_message.specs.Writing.{written, argument_fault};

    /// The message of a text.
    ///
    /// The text is read once, and memory is taken meanwhile: so `OutOfMemory` may be reported in
    /// place of a fault.
    // promise: A text is read, or its first fault and byte are reported.
    // mutations: parse_apostrophe_always_quotes, parse_name_reported_at_its_brace
    // promise: A choice has `other`, and no key twice.
    // mutations: parse_choice_without_other_accepted, parse_key_twice_accepted
    // promise: A skeleton's fault is reported with its byte.
    // mutations: parse_skeleton_fault_at_its_own_byte, parse_style_of_one_colon
    pub fn parse(alloc: Global, text: &str) -> Result<Self, ParseError>
        ensures text { IfOk result (λ m. m.text ≡ text.now) }
        ensures read { IfOk result (λ m. pieces_of text.now ≡ Ok m.pieces) }
        ensures rejected { IfErr result (λ e. (e ≡ OutOfMemory) ⊎ (pieces_of text.now ≡ Err e)) }
    {
        let pieces = read(alloc, text.as_bytes())?;
        Ok(Message {
            text: Vec::from_slice(alloc, text.as_bytes())?,
            pieces,
        })
    }

    /// The pieces of the message.
    pub fn pieces(&self) -> &[Piece]
        ensures pieces { result.now ≡ self.now.pieces }
        ensures read { pieces_of self.now.text ≡ Ok result.now }
    {
        &self.pieces
    }

    /// A name or a key of the message.
    pub fn word(&self, word: Word) -> &[u8]
        ensures { result.now ≡ word_in self.now.text word }
    {
        word.bytes(&self.text)
    }

    /// The names of the message with their kinds, in the order in which they first appear.
    // promise: Each name stands there once, with its kind.
    // mutations: signature_name_listed_twice, signature_form_of_any_kind
    pub fn signature(&self, alloc: Global) -> Result<Vec<NamedKind>, AllocError>
        ensures { IfOk result (λ names. names.items ≡ signature self.now.text self.now.pieces) }
    {
        signature(alloc, &self.text, &self.pieces)
    }

    /// How many places of an argument stand on the ways through the message, on which of each
    /// choice one arm is taken.
    // promise: The least and the most places on the message's ways.
    // mutations: places_of_the_last_arm_alone, places_of_a_form_left_out
    pub fn places_of(&self, alloc: Global, name: &str) -> Result<Places, AllocError>
        ensures { (t : Tree) → self.now.pieces ≡ pieces_in t [] →
            IfOk result (λ c. c ≡ places_in self.now.text name.now t) }
    {
        places_of(alloc, &self.text, name.as_bytes(), &self.pieces)
    }

    /// Appends the message, written with plural rules and arguments, to a buffer, in UTF-8.
    ///
    /// Each name of the message, in all of its arms, has to be given in its kind; otherwise nothing
    /// is written. Of two arguments with one name the first counts. If memory runs out, a part of
    /// the message may stand in the buffer.
    // promise: The message is written with its arguments in places.
    // mutations: write_name_in_place_of_its_argument, write_arm_behind_the_picked_one
    // promise: `=` comes before the category, and that before `other`.
    // mutations: write_exact_key_after_the_category, write_no_arm_in_place_of_other
    // promise: Ordinals go by ordinal rules.
    // mutations: write_cardinal_rules_for_ordinals
    // promise: If an argument is missing, nothing is written.
    // mutations: write_argument_missed_in_the_first_arm_alone
    pub fn write(
        &self,
        cardinal: &PluralRules,
        ordinal: &PluralRules,
        given: &[Argument<'_>],
        out: &mut Vec<u8>,
    ) -> Result<(), WriteError>
        ensures written { OnOk result (out.new.items ≡ out.old.items ++ written (record {
          text = self.now.text;
          cardinal = cardinal.now;
          ordinal = ordinal.now;
          given = given.now;
        }) self.now.pieces) }
        ensures reported { IfSome (argument_fault (record {
          text = self.now.text;
          cardinal = cardinal.now;
          ordinal = ordinal.now;
          given = given.now;
        }) self.now.pieces) (λ e. (result ≡ Err e) × (out.new.items ≡ out.old.items)) }
        ensures memory { argument_fault (record {
          text = self.now.text;
          cardinal = cardinal.now;
          ordinal = ordinal.now;
          given = given.now;
        }) self.now.pieces ≡ None → IsOkUnless result WriteError.OutOfMemory }
    {
        let filling = Filling {
            text: &self.text,
            cardinal,
            ordinal,
            given,
        };
        if let Some(fault) = argument_fault(&filling, &self.pieces) {
            return Err(fault);
        }
        write(&filling, &self.pieces, out)?;
        Ok(())
    }

    /// Appends the spelling of the message to a buffer: without white space but one space between
    /// two arms, so that equal messages are spelled alike.
    // promise: Equal messages are spelled alike, with quotes where needed.
    // mutations: spell_apostrophe_alone, spell_no_space_between_arms
    pub fn spell(&self, out: &mut Vec<u8>) -> Result<(), AllocError>
        ensures { OnOk result (out.new.items ≡ out.old.items
            ++ spelling (said_all self.now.text self.now.pieces)) }
    {
        spell(&self.text, &self.pieces, out)
    }
}
