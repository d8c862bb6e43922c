//! The approximately sign, before a number or in the place of its sign.

ghost use Rattle.std.specs.Prelude.{◌≡◌, false};
ghost use Rattle.icu_ranges.specs.Approximately.{amount_approximated, approximately_events, has_no_sign, is_sign, marked, marked_opening, sign_with_place};

use crate::joined::Lent;
use fixed_decimal::Sign;
use icu_dimension_data::SignedPatterns;
use writeable::{EventWriter, Part, WriteFault, Writeable};

/// The part around the approximately sign.
const APPROXIMATELY_SIGN: Part = Part {
    category: "decimal",
    value: "approximatelySign",
};

/// Writes the approximately sign, in its part.
#[tactic(auto, unfolding(crate::specs::Approximately::approximately_events))]
fn write_sign<K: EventWriter>(sign: &str, out: &mut K) -> Result<(), WriteFault>
    ensures { K.wrote out.old result (approximately_events sign.now) out.new }
{
    out.part(APPROXIMATELY_SIGN, sign)
}

/// A value with the approximately sign in front of it, in the part `approximatelySign` (this
/// project's own).
#[derive(Drop)]
pub struct Approximated<'a, T> {
    /// The approximately sign, as `~`.
    pub sign: &'a str,
    /// The value.
    pub value: &'a T,
}

impl<T: Writeable> Writeable for Approximated<'_, T> {
    ghost use Rattle.icu_ranges.specs.Approximately.{approximated};

    ghost events = { λ a. approximated a.sign.now (T.events a.value.now) };

    // promise: The approximately sign stands in front of the value.
    // mutations: approximately_sign_behind_the_number
    fn write_events<K: EventWriter>(&self, out: &mut K) -> Result<(), WriteFault> {
        write_sign(self.sign, out)?;
        self.value.write_events(out)
    }
}

/// Whether no sign is written.
pub(crate) fn has_no_sign(sign: Sign) -> bool
    ensures { result ≡ has_no_sign sign }
{
    match sign {
        Sign::None => true,
        Sign::Negative | Sign::Positive => false,
    }
}

/// The sign whose pattern has a place for the approximately sign.
fn sign_with_place(sign: Sign) -> Sign
    ensures { result ≡ sign_with_place sign }
{
    match sign {
        Sign::None | Sign::Positive => Sign::Positive,
        Sign::Negative => Sign::Negative,
    }
}

/// Whether a part is that of a minus or of a plus.
fn is_sign(part: Part) -> bool
    ensures { result ≡ is_sign part.category.now part.value.now }
{
    part.category == "decimal" && (part.value == "minusSign" || part.value == "plusSign")
}

/// Writes the start of a part: before that of a sign the approximately sign, or the latter alone.
fn write_opening<K: EventWriter>(
    sign: &str,
    is_alone: bool,
    part: Part,
    out: &mut K,
) -> Result<(), WriteFault>
    ensures { K.wrote out.old result
        (marked_opening sign.now is_alone part.category.now part.value.now) out.new }
{
    if !is_sign(part) {
        return out.open(part);
    }
    write_sign(sign, out)?;
    if is_alone { Ok(()) } else { out.open(part) }
}

/// Passes on what is written to another writer, with the approximately sign before each sign, or in
/// its place.
#[derive(Drop)]
struct SignMarker<'a, K> {
    sign: &'a str,
    /// The number's own sign isn't written.
    is_alone: bool,
    /// The part of a sign is being left out.
    is_left_out: bool,
    out: &'a mut K,
}

impl<'a, K> SignMarker<'a, K> {
    ghost use Rattle.std.specs.Prelude.{◌≡◌, false};

    fn new(sign: &'a str, is_alone: bool, out: &'a mut K) -> Self
        ensures sign { result.sign.now ≡ sign.now }
        ensures alone { result.is_alone ≡ is_alone }
        ensures left_out { result.is_left_out ≡ false }
        ensures out { result.out ≡ out.entry }
    {
        SignMarker {
            sign,
            is_alone,
            is_left_out: false,
            out,
        }
    }

    fn into_inner(self) -> &'a mut K
        ensures { result ≡ self.entry.out }
    {
        self.out
    }
}

impl<K: EventWriter> EventWriter for SignMarker<'_, K> {
    ghost use Rattle.std.specs.Prelude.{◌≡◌, List, OnOk, refl};
    ghost use Rattle.std.proofs.Common.{◌∙◌, subst};
    ghost use Rattle.writeable.specs.Events.{Event};
    ghost use Rattle.writeable.specs.Writes.{OnOk-stop};
    ghost use Rattle.icu_ranges.specs.Approximately.{leaves_out_after, marked};
    ghost use Rattle.icu_ranges.specs.MarkLaws.{left_out_then, marked_stop, marked_then};

    ghost wrote = { λ a r es b. (b.out.ghost_name ≡ a.out.ghost_name)
        × (b.sign.now ≡ a.sign.now)
        × (b.is_alone ≡ a.is_alone)
        × OnOk r (b.is_left_out ≡ leaves_out_after a.is_alone a.is_left_out es)
        × K.wrote a.out.now r (marked a.sign.now a.is_alone a.is_left_out es) b.out.now };

    ghost nothing = { λ a. (refl, refl, refl, refl, K.nothing a.out.now) };

    ghost then = { λ a b c r es fs h k. (
      k.0 ∙ h.0,
      k.1 ∙ h.1,
      k.2 ∙ h.2,
      left_out_then r a.is_alone b.is_alone a.is_left_out b.is_left_out c.is_left_out es fs h.2 h.3
          k.3,
      subst (λ (l : List Event). K.wrote a.out.now r l c.out.now)
          (marked_then a.sign.now b.sign.now a.is_alone b.is_alone a.is_left_out b.is_left_out es fs
          h.1 h.2 h.3)
          (K.then a.out.now b.out.now c.out.now r (marked a.sign.now a.is_alone a.is_left_out es)
          (marked b.sign.now b.is_alone b.is_left_out fs) h.4 k.4),
    ) };

    ghost stop = { λ a b e r es fs err h. (
      h.0,
      h.1,
      h.2,
      OnOk-stop _ r err,
      subst (λ (l : List Event). K.wrote a.out.now r l b.out.now)
          (marked_stop a.sign.now a.is_alone a.is_left_out es fs)
          (K.stop a.out.now b.out.now e r (marked a.sign.now a.is_alone a.is_left_out es)
          (marked a.sign.now a.is_alone (leaves_out_after a.is_alone a.is_left_out es) fs) err h.4),
    ) };

    #[tactic(auto, using(crate::proofs::MarkSteps::mark_steps))]
    fn text(&mut self, text: &str) -> Result<(), WriteFault> {
        if self.is_left_out {
            return Ok(());
        }
        self.out.text(text)
    }

    fn character(&mut self, character: char) -> Result<(), WriteFault> {
        if self.is_left_out {
            return Ok(());
        }
        self.out.character(character)
    }

    fn open(&mut self, part: Part) -> Result<(), WriteFault> {
        if self.is_left_out {
            return Ok(());
        }
        self.is_left_out = self.is_alone && is_sign(part);
        write_opening(self.sign, self.is_alone, part, self.out)
    }

    fn close(&mut self) -> Result<(), WriteFault> {
        if self.is_left_out {
            self.is_left_out = false;
            return Ok(());
        }
        self.out.close()
    }
}

/// Writes a value with the approximately sign before each sign, or in its place.
fn write_marked<T: Writeable, K: EventWriter>(
    sign: &str,
    is_alone: bool,
    value: &T,
    out: &mut K,
) -> Result<(), WriteFault>
    ensures { K.wrote out.old result (marked sign.now is_alone false (T.events value.now)) out.new }
{
    let mut marker = SignMarker::new(sign, is_alone, out);
    let result = value.write_events(&mut marker);
    marker.into_inner();
    result
}

/// Writes a number in the pattern of its sign, with the approximately sign.
pub(crate) fn write_amount_approximated<T: Writeable, K: EventWriter>(
    sign: &str,
    patterns: &SignedPatterns,
    number_sign: Sign,
    number: &T,
    out: &mut K,
) -> Result<(), WriteFault>
    ensures { K.wrote out.old result
        (amount_approximated sign.now patterns.now number_sign (T.events number.now)) out.new }
{
    let amount = patterns
        .for_sign(sign_with_place(number_sign))
        .interpolate(Lent { value: number });
    write_marked(sign, has_no_sign(number_sign), &amount, out)
}
