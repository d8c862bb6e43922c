//! Where the events of a value go: one interface over sinks, texts and formatters.
ghost use Rattle.std.specs.Prelude.{◌≡◌, ◌<◌, ◌∷◌, ◌++◌, [], All, List, Result, Ok, Err, IsErr, refl};
ghost use Rattle.std.proofs.Common.{sym, ◌∙◌, subst};
ghost use Rattle.writeable.specs.declared.sink.WriteFault.{WriteFault};
ghost use Rattle.writeable.specs.Events.{Event, text_events, without_parts, digit_events, ascii_characters};
ghost use Rattle.writeable.specs.Events.Event.{Char, Open, Close};
ghost use Rattle.writeable.specs.Groups.{separator_events, grouped_events};
ghost use Rattle.writeable.specs.Sink.{LentWrites};
ghost use Rattle.writeable.specs.Writes.{LentWrites-nothing, LentWrites-then, LentWrites-stop, without_parts-append};

use crate::groups::{Grouping, first_group, next_group};
use crate::sink::{Part, PartsWrite, WriteFault};

/// The characters '0' to '9'.
pub const ASCII_DIGITS: [char; 10] = ['0', '1', '2', '3', '4', '5', '6', '7', '8', '9'];

/// Where the events of a value go: a sink with parts, a sink that takes its characters alone, a
/// text, a buffer of bytes (in UTF-8), or a formatter. All but the first take the characters alone.
///
/// A value writes itself once, over this trait, and so has the same events in every output.
pub trait EventWriter {
    /// What a call did: the writer before it, the answer, the events that were to be written, and
    /// the writer after.
    ghost wrote: { Self → Result (Unit {0}) WriteFault → List Event → Self → Type 0 };

    /// Writes the characters of a text.
    fn text(&mut self, text: &str) -> Result<(), WriteFault>
        ensures { wrote self.old result (text_events text.now) self.new };

    /// Writes a character.
    fn character(&mut self, character: char) -> Result<(), WriteFault>
        ensures { wrote self.old result (Char character ∷ []) self.new };

    /// Writes the character of each digit, by a table of the characters of the digits 0 to 9.
    fn digits(&mut self, digits: &[u8], characters: &[char; 10]) -> Result<(), WriteFault>
        requires { All (λ d. d < 10) digits.now }
        ensures { wrote self.old result (digit_events characters.now digits.now) self.new }
    {
        for digit in digits {
            self.character(characters[*digit as usize])?;
        }
        Ok(())
    }

    /// Writes the separator of a grouping, as a part of its own where the grouping names one.
    // promise: The given separator stands between groups, in its part.
    // mutations: groups_always_by_a_comma
    fn separator(&mut self, grouping: &Grouping<'_>) -> Result<(), WriteFault>
        ensures { wrote self.old result (separator_events grouping.now) self.new }
    {
        match grouping.part {
            Some(part) => self.part(part, grouping.separator),
            None => self.text(grouping.separator),
        }
    }

    /// Writes digits in groups, with the separator between two.
    // promise: Digits are written in groups of the given sizes.
    // mutations: groups_all_of_the_primary_size
    fn groups(
        &mut self,
        digits: &[u8],
        grouping: &Grouping<'_>,
        characters: &[char; 10],
    ) -> Result<(), WriteFault>
        requires primary { 0 < grouping.now.primary }
        requires secondary { 0 < grouping.now.secondary }
        requires below_ten { All (λ d. d < 10) digits.now }
        ensures { wrote self.old result (grouped_events grouping.now characters.now digits.now)
            self.new }
    {
        let (primary, secondary) = (grouping.primary, grouping.secondary);
        let (first, mut rest) = digits.split_at(first_group(digits.len(), primary, secondary));
        self.digits(first, characters)?;
        'groups: while !rest.is_empty() {
            let (group, after) = rest.split_at(next_group(rest.len(), primary, secondary));
            self.separator(grouping)?;
            self.digits(group, characters)?;
            rest = after;
        }
        Ok(())
    }

    /// Writes digits by the characters '0' to '9'. A writer may use that each of them is one byte.
    fn ascii_digits(&mut self, digits: &[u8]) -> Result<(), WriteFault>
        requires { All (λ d. d < 10) digits.now }
        ensures { wrote self.old result (digit_events ascii_characters digits.now) self.new }
    {
        self.digits(digits, &ASCII_DIGITS)
    }

    /// Writes digits in groups by the characters '0' to '9'. A writer may use that each of them is
    /// one byte.
    // promise: Groups of digits are written by the characters `0` to `9`.
    // mutations: ascii_groups_default_of_other_digits
    fn ascii_groups(&mut self, digits: &[u8], grouping: &Grouping<'_>) -> Result<(), WriteFault>
        requires primary { 0 < grouping.now.primary }
        requires secondary { 0 < grouping.now.secondary }
        requires below_ten { All (λ d. d < 10) digits.now }
        ensures { wrote self.old result (grouped_events grouping.now ascii_characters digits.now)
            self.new }
    {
        self.groups(digits, grouping, &ASCII_DIGITS)
    }

    /// Opens a part.
    fn open(&mut self, part: Part) -> Result<(), WriteFault>
        ensures { wrote self.old result (Open part.category.now part.value.now ∷ []) self.new };

    /// Closes the part that was opened last and is still open.
    fn close(&mut self) -> Result<(), WriteFault>
        ensures { wrote self.old result (Close ∷ []) self.new };

    /// Writes a text as a part of its own.
    // promise: The text is written as a part of its own.
    // mutations: part_without_its_text
    fn part(&mut self, part: Part, text: &str) -> Result<(), WriteFault>
        ensures { wrote self.old result (Open part.category.now part.value.now
            ∷ (text_events text.now ++ Close ∷ [])) self.new }
    {
        self.open(part)?;
        self.text(text)?;
        self.close()
    }

    /// Writing no events succeeds and leaves the writer as it is.
    ghost nothing: { (a : Self) → wrote a (Ok tt) [] a };

    /// Events that were written, and then others: together they are written with the later answer.
    ghost then: { (a b c : Self) (r : Result (Unit {0}) WriteFault) (es fs : List Event) →
        wrote a (Ok tt) es b → wrote b r fs c → wrote a r (es ++ fs) c };

    /// Events whose writing failed, and others that were to follow: the writing of both failed.
    ghost stop: { (a b : Self) (e : WriteFault) (r : Result (Unit {0}) WriteFault)
        (es fs : List Event) → IsErr r → wrote a (Err e) es b → wrote a r (es ++ fs) b };
}

/// A sink as a writer: it passes all events on, with their parts.
#[derive(Drop)]
pub struct WithParts<'a, S> {
    /// Where the events go.
    pub sink: &'a mut S,
}

impl<'a, S> WithParts<'a, S> {
    /// The sink, which holds what was written.
    pub fn into_inner(self) -> &'a mut S
        ensures { result ≡ self.entry.sink }
    {
        self.sink
    }
}

// All events, by the law of the sink, through a borrow that stays the same one.
impl<S: PartsWrite> EventWriter for WithParts<'_, S> {
    ghost wrote = { λ a r es b.
        LentWrites S.events S.failures S.limit S.refusals a.sink r es b.sink };

    ghost nothing = { λ a. LentWrites-nothing S.events S.failures S.limit S.refusals a.sink };

    ghost then = { λ a b c r es fs.
        LentWrites-then S.events S.failures S.limit S.refusals a.sink b.sink c.sink r es fs };

    ghost stop = { λ a b e r es fs.
        LentWrites-stop S.events S.failures S.limit S.refusals a.sink b.sink e r es fs };

    fn text(&mut self, text: &str) -> Result<(), WriteFault> {
        self.sink.write_str(text)
    }

    fn character(&mut self, character: char) -> Result<(), WriteFault> {
        self.sink.write_char(character)
    }

    fn open(&mut self, part: Part) -> Result<(), WriteFault> {
        self.sink.open_part(part)
    }

    fn close(&mut self) -> Result<(), WriteFault> {
        self.sink.close_part()
    }
}

/// Passes the characters on to another writer, and no parts.
#[derive(Drop)]
pub(crate) struct WithoutParts<'a, K> {
    out: &'a mut K,
}

impl<'a, K> WithoutParts<'a, K> {
    pub(crate) fn new(out: &'a mut K) -> Self
        ensures { result.out ≡ out.entry }
    {
        WithoutParts { out }
    }

    pub(crate) fn into_inner(self) -> &'a mut K
        ensures { result ≡ self.entry.out }
    {
        self.out
    }
}

// The events without parts, as the inner writer writes them.
impl<K: EventWriter> EventWriter for WithoutParts<'_, K> {
    ghost wrote = { λ a r es b. (b.out.ghost_name ≡ a.out.ghost_name)
        × K.wrote a.out.now r (without_parts es) b.out.now };

    ghost nothing = { λ a. (refl, K.nothing a.out.now) };

    ghost then = { λ a b c r es fs h k. (
      k.0 ∙ h.0,
      subst (λ (l : List Event). K.wrote a.out.now r l c.out.now)
          (sym (without_parts-append es fs))
          (K.then a.out.now b.out.now c.out.now r (without_parts es) (without_parts fs) h.1 k.1),
    ) };

    ghost stop = { λ a b e r es fs err h. (
      h.0,
      subst (λ (l : List Event). K.wrote a.out.now r l b.out.now)
          (sym (without_parts-append es fs))
          (K.stop a.out.now b.out.now e r (without_parts es) (without_parts fs) err h.1),
    ) };

    #[tactic(auto, using(crate::proofs::EventLemmas::text_steps))]
    fn text(&mut self, text: &str) -> Result<(), WriteFault> {
        self.out.text(text)
    }

    fn character(&mut self, character: char) -> Result<(), WriteFault> {
        self.out.character(character)
    }

    #[tactic(auto, using(crate::proofs::EventLemmas::digit_steps))]
    fn digits(&mut self, digits: &[u8], characters: &[char; 10]) -> Result<(), WriteFault> {
        self.out.digits(digits, characters)
    }

    #[tactic(auto, using(crate::proofs::GroupTexts::group_steps))]
    fn groups(
        &mut self,
        digits: &[u8],
        grouping: &Grouping<'_>,
        characters: &[char; 10],
    ) -> Result<(), WriteFault> {
        let without_part = Grouping {
            part: None,
            ..*grouping
        };
        self.out.groups(digits, &without_part, characters)
    }

    #[tactic(auto, using(crate::proofs::EventLemmas::digit_steps))]
    fn ascii_digits(&mut self, digits: &[u8]) -> Result<(), WriteFault> {
        self.out.ascii_digits(digits)
    }

    #[tactic(auto, using(crate::proofs::GroupTexts::group_steps))]
    fn ascii_groups(&mut self, digits: &[u8], grouping: &Grouping<'_>) -> Result<(), WriteFault> {
        let mut without_part = *grouping;
        without_part.part = None;
        self.out.ascii_groups(digits, &without_part)
    }

    fn open(&mut self, _part: Part) -> Result<(), WriteFault> {
        Ok(())
    }

    fn close(&mut self) -> Result<(), WriteFault> {
        Ok(())
    }
}
