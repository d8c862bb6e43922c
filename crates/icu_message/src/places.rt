//! How many places of an argument stand on the ways through a message.

ghost use Rattle.std.specs.Prelude.{◌≡◌, IfOk};
ghost use Rattle.icu_message.specs.Counting.{counted_from, nothing_counted};
ghost use Rattle.icu_message.specs.Places.{plus, none, one, with_place, joined, of_arms, is_named};

use crate::piece::{Piece, Word};
use crate::words::same;
use std::alloc::{AllocError, Global};
use std::cmp::{max, min};
use std::collections::VecDeque;
use std::marker::Model;

/// How many places of an argument stand on the ways that can be picked: at least and at most.
#[derive(Clone, Copy, Debug, PartialEq, Eq)]
pub struct Places {
    /// The least count.
    pub least: u16,
    /// The most.
    pub most: u16,
}

/// A choice that is open: the places before it, and those of its arms that ended.
#[derive(Clone, Copy)]
pub(crate) struct Around {
    before: Places,
    arms: Option<Places>,
}

fn none() -> Places
    ensures { result ≡ none }
{
    Places { least: 0, most: 0 }
}

fn plus(one: Places, other: Places) -> Places
    ensures { result ≡ plus one other }
{
    Places {
        least: one.least.saturating_add(other.least),
        most: one.most.saturating_add(other.most),
    }
}

/// A place more, if it has the name.
fn with_place(is_named: bool, places: Places) -> Places
    ensures { result ≡ with_place is_named places }
{
    if is_named {
        return plus(places, Places { least: 1, most: 1 });
    }
    places
}

/// The least and the most of two arms.
fn joined(arms: Option<Places>, places: Places) -> Places
    ensures { result ≡ joined arms places }
{
    match arms {
        Some(arms) => Places {
            least: min(arms.least, places.least),
            most: max(arms.most, places.most),
        },
        None => places,
    }
}

fn of_arms(arms: Option<Places>) -> Places
    ensures { result ≡ of_arms arms }
{
    match arms {
        Some(arms) => arms,
        None => none(),
    }
}

fn is_named(text: &[u8], name: &[u8], word: Word) -> bool
    ensures { result ≡ is_named text.now name.now word }
{
    same(word.bytes(text), name)
}

/// Places while they are counted: those so far of the innermost message, and what is open around
/// it, the innermost choice first.
#[derive(Drop)]
pub(crate) struct Counting {
    places: Places,
    around: VecDeque<Around>,
}

impl Model for Counting {
    ghost use Rattle.icu_message.specs.Counting.{Counted};

    ghost Value = { Counted };

    ghost view = { λ c. record {
      places = c.places;
      around = c.around.items;
    } };
}

impl Counting {
    ghost use Rattle.std.specs.Prelude.{◌≡◌, ◌∷◌, OnOk};
    ghost use Rattle.icu_message.specs.Counting.{arm_ended, choice_ended, counted_behind, nothing_counted};
    ghost use Rattle.icu_message.specs.Places.{none, with_place};

    fn new(alloc: Global) -> Self
        ensures { result ≡ nothing_counted }
    {
        Counting {
            places: none(),
            around: VecDeque::new(alloc),
        }
    }

    /// Begins a choice.
    fn begin(&mut self) -> Result<(), AllocError>
        ensures { OnOk result (self.new ≡ record {
          places = none;
          around = record { before = self.old.places; arms = None } ∷ self.old.around;
        }) }
    {
        self.around.push_front(Around {
            before: self.places,
            arms: None,
        })?;
        self.places = none();
        Ok(())
    }

    /// Ends an arm.
    fn end_arm(&mut self) -> Result<(), AllocError>
        ensures { OnOk result (self.new ≡ arm_ended self.old.places self.old.around) }
    {
        if let Some(open) = self.around.pop_front() {
            self.around.push_front(Around {
                before: open.before,
                arms: Some(joined(open.arms, self.places)),
            })?;
        }
        self.places = none();
        Ok(())
    }

    /// Ends a choice.
    fn end_choice(&mut self)
        ensures { self.new ≡ choice_ended self.old.around }
    {
        self.places = match self.around.pop_front() {
            Some(open) => plus(open.before, of_arms(open.arms)),
            None => none(),
        };
    }

    /// Passes a piece.
    fn pass(&mut self, text: &[u8], name: &[u8], piece: Piece) -> Result<(), AllocError>
        ensures { OnOk result (self.new ≡ counted_behind text.now name.now self.old piece) }
    {
        match piece {
            Piece::Place(word) | Piece::Formatted(word, _) | Piece::Hash(word) => {
                self.places = with_place(is_named(text, name, word), self.places);
            }
            Piece::Choice(_, _) => self.begin()?,
            Piece::EndArm => self.end_arm()?,
            Piece::EndChoice => self.end_choice(),
            _ => {}
        }
        Ok(())
    }
}

/// How many places of a name stand on the ways through the pieces of a text.
pub(crate) fn places_of(
    alloc: Global,
    text: &[u8],
    name: &[u8],
    pieces: &[Piece],
) -> Result<Places, AllocError>
    ensures { IfOk result (λ c.
        c ≡ (counted_from text.now name.now nothing_counted pieces.now).places) }
{
    let mut counting = Counting::new(alloc);
    for piece in pieces {
        counting.pass(text, name, *piece)?;
    }
    Ok(counting.places)
}
