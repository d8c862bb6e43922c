//! A buffer of bytes as a writer: room for digits is asked for once.
ghost use Rattle.std.specs.Prelude.{◌≡◌, ◌∷◌, ◌++◌, [], OnOk, IsOk};
ghost use Rattle.writeable.specs.Events.{text_of};
ghost use Rattle.writeable.specs.Events.Event.{Char, Open, Close};
ghost use Rattle.writeable.specs.Writes.{AppendsText-nothing, AppendsText-then, OnOk-stop};

use crate::byte_groups::{are_ascii, push_byte_digits, push_byte_groups};
use crate::event_writer::{ASCII_DIGITS, EventWriter};
use crate::groups::Grouping;
use crate::sink::{Part, WriteFault};
use crate::wide_groups::{push_wide_digits, push_wide_groups};

// On success the text of the events stands behind the bytes that the buffer held.
impl EventWriter for Vec<u8> {
    ghost wrote = { λ a r es b. OnOk r (b.items ≡ a.items ++ text_of es) };

    ghost nothing = { λ a. AppendsText-nothing a.items };

    ghost then = { λ a b c r es fs. AppendsText-then a.items b.items c.items r es fs };

    ghost stop = { λ a b e r es fs err h. OnOk-stop _ r err };

    #[tactic(auto, using(crate::proofs::EventLemmas::text_steps))]
    fn text(&mut self, text: &str) -> Result<(), WriteFault> {
        push_bytes(self, text.as_bytes())
    }

    fn character(&mut self, character: char) -> Result<(), WriteFault> {
        push_character(self, character)
    }

    fn digits(&mut self, digits: &[u8], characters: &[char; 10]) -> Result<(), WriteFault> {
        push_wide_digits(self, digits, characters)
    }

    /// Asks for room once, where each character is one byte.
    fn groups(
        &mut self,
        digits: &[u8],
        grouping: &Grouping<'_>,
        characters: &[char; 10],
    ) -> Result<(), WriteFault> {
        let separator = grouping.separator.as_bytes();
        let (primary, secondary) = (grouping.primary, grouping.secondary);
        if separator.len() == 1 && are_ascii(characters) {
            return push_byte_groups(self, digits, primary, secondary, separator[0], characters);
        }
        push_wide_groups(self, digits, grouping, characters)
    }

    /// Asks for room once.
    fn ascii_digits(&mut self, digits: &[u8]) -> Result<(), WriteFault> {
        push_byte_digits(self, digits, &ASCII_DIGITS)
    }

    /// Asks for room once, where the separator is one byte.
    fn ascii_groups(&mut self, digits: &[u8], grouping: &Grouping<'_>) -> Result<(), WriteFault> {
        let separator = grouping.separator.as_bytes();
        if separator.len() == 1 {
            return push_byte_groups(
                self,
                digits,
                grouping.primary,
                grouping.secondary,
                separator[0],
                &ASCII_DIGITS,
            );
        }
        push_wide_groups(self, digits, grouping, &ASCII_DIGITS)
    }

    fn open(&mut self, part: Part) -> Result<(), WriteFault>
        ensures wrote { OnOk result (self.new.items ≡ self.old.items
            ++ text_of (Open part.category.now part.value.now ∷ [])) }
        ensures ok { IsOk result }
    {
        let _ = part;
        Ok(())
    }

    fn close(&mut self) -> Result<(), WriteFault>
        ensures wrote { OnOk result (self.new.items ≡ self.old.items ++ text_of (Close ∷ [])) }
        ensures ok { IsOk result }
    {
        Ok(())
    }
}

/// Appends bytes. An empty text, as most affixes are, and one byte, as most separators are, take no
/// copy of memory, and no further call where there is room.
fn push_bytes(out: &mut Vec<u8>, bytes: &[u8]) -> Result<(), WriteFault>
    ensures { OnOk result (out.new.items ≡ out.old.items ++ bytes.now) }
{
    if bytes.is_empty() {
        return Ok(());
    }
    if bytes.len() == 1 && out.len() < out.capacity() {
        out.push_reserved(bytes[0]);
        return Ok(());
    }
    copy_bytes(out, bytes)
}

/// Appends bytes by a copy of memory, with more room where it is needed. It is a function of its
/// own, so that `push_bytes` is short.
#[inline(never)]
fn copy_bytes(out: &mut Vec<u8>, bytes: &[u8]) -> Result<(), WriteFault>
    ensures { OnOk result (out.new.items ≡ out.old.items ++ bytes.now) }
{
    out.extend_from_slice(bytes).map_err(|_| WriteFault)
}

/// Appends a character.
fn push_character(out: &mut Vec<u8>, character: char) -> Result<(), WriteFault>
    ensures { OnOk result (out.new.items ≡ out.old.items ++ text_of (Char character ∷ [])) }
{
    if character.is_ascii() {
        return out.push(character as u8).map_err(|_| WriteFault);
    }
    let mut buffer = [0; 4];
    let encoded = character.encode_utf8(&mut buffer);
    out.extend_from_slice(encoded.as_bytes())
        .map_err(|_| WriteFault)
}
