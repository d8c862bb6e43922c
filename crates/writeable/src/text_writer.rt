//! A text as a writer: room for digits in groups is asked for once.
ghost use Rattle.std.specs.Prelude.{◌≡◌, ◌+◌, ◌*◌, ◌<◌, ◌≤◌, ◌∷◌, ◌++◌, [], All, IsOk, OnOk, length};
ghost use Rattle.std.specs.Char.{encode_utf8};
ghost use Rattle.std.specs.String.{string_bytes, string_len, string_capacity};
ghost use Rattle.writeable.specs.Events.{digit_events, text_of};
ghost use Rattle.writeable.specs.Events.Event.{Char, Close, Open};
ghost use Rattle.writeable.specs.Writes.{AppendsText-nothing, AppendsText-then, OnOk-stop};

use crate::byte_groups::{push_byte_digits, push_byte_groups};
use crate::event_writer::{ASCII_DIGITS, EventWriter};
use crate::groups::Grouping;
use crate::sink::{Part, WriteFault};
use crate::wide_groups::{push_wide_digits, push_wide_groups};
use std::mem;

// On success the text of the events stands behind what the string held.
impl EventWriter for String {
    ghost wrote = { λ a r es b. OnOk r (string_bytes b ≡ string_bytes a ++ text_of es) };

    ghost nothing = { λ a. AppendsText-nothing (string_bytes a) };

    ghost then = { λ a b c r es fs.
        AppendsText-then (string_bytes a) (string_bytes b) (string_bytes c) r es fs };

    ghost stop = { λ a b e r es fs err h. OnOk-stop _ r err };

    #[tactic(auto, using(crate::proofs::EventLemmas::text_steps))]
    fn text(&mut self, text: &str) -> Result<(), WriteFault> {
        push_text(self, text)
    }

    // promise: The character stands behind the text that was there.
    // mutations: string_character_doubled
    fn character(&mut self, character: char) -> Result<(), WriteFault> {
        push_character(self, character)
    }

    /// Asks for room once, by the longest of the characters. The bytes aren't tested to be UTF-8:
    /// that they are is proved.
    fn digits(&mut self, digits: &[u8], characters: &[char; 10]) -> Result<(), WriteFault> {
        let alloc = *self.allocator();
        let taken = mem::replace(self, String::new(alloc));
        let mut bytes = taken.into_bytes();
        let result = push_wide_digits(&mut bytes, digits, characters);
        *self = unsafe { String::from_utf8_unchecked(bytes) };
        result
    }

    /// Asks for room once, by the longest of the characters. The bytes aren't tested to be UTF-8:
    /// that they are is proved.
    fn groups(
        &mut self,
        digits: &[u8],
        grouping: &Grouping<'_>,
        characters: &[char; 10],
    ) -> Result<(), WriteFault> {
        let alloc = *self.allocator();
        let taken = mem::replace(self, String::new(alloc));
        let mut bytes = taken.into_bytes();
        let result = push_wide_groups(&mut bytes, digits, grouping, characters);
        *self = unsafe { String::from_utf8_unchecked(bytes) };
        result
    }

    /// Asks for room once. The bytes aren't tested to be UTF-8: that they are is proved.
    fn ascii_digits(&mut self, digits: &[u8]) -> Result<(), WriteFault> {
        let alloc = *self.allocator();
        let taken = mem::replace(self, String::new(alloc));
        let mut bytes = taken.into_bytes();
        let result = push_byte_digits(&mut bytes, digits, &ASCII_DIGITS);
        *self = unsafe { String::from_utf8_unchecked(bytes) };
        result
    }

    /// Asks for room once, where the separator is one byte. The bytes aren't tested to be UTF-8:
    /// that they are is proved.
    fn ascii_groups(&mut self, digits: &[u8], grouping: &Grouping<'_>) -> Result<(), WriteFault> {
        let separator = grouping.separator.as_bytes();
        if separator.len() != 1 {
            return self.groups(digits, grouping, &ASCII_DIGITS);
        }
        let (primary, secondary, separator) = (grouping.primary, grouping.secondary, separator[0]);
        let alloc = *self.allocator();
        let taken = mem::replace(self, String::new(alloc));
        let mut bytes = taken.into_bytes();
        let result = push_byte_groups(
            &mut bytes,
            digits,
            primary,
            secondary,
            separator,
            &ASCII_DIGITS,
        );
        *self = unsafe { String::from_utf8_unchecked(bytes) };
        result
    }

    fn open(&mut self, part: Part) -> Result<(), WriteFault>
        ensures wrote { OnOk result (string_bytes self.new ≡ string_bytes self.old
            ++ text_of (Open part.category.now part.value.now ∷ [])) }
        ensures ok { IsOk result }
    {
        let _ = part;
        Ok(())
    }

    fn close(&mut self) -> Result<(), WriteFault>
        ensures wrote { OnOk result (string_bytes self.new ≡ string_bytes self.old
            ++ text_of (Close ∷ [])) }
        ensures ok { IsOk result }
    {
        Ok(())
    }
}

/// Appends a text. An empty text, as most affixes are, and one ASCII character, as most separators
/// are, take no copy of memory.
fn push_text(out: &mut String, text: &str) -> Result<(), WriteFault>
    ensures { OnOk result (string_bytes out.new ≡ string_bytes out.old ++ text.now) }
{
    let bytes = text.as_bytes();
    if bytes.is_empty() {
        return Ok(());
    }
    if bytes.len() == 1 && bytes[0].is_ascii() {
        return push_character(out, bytes[0] as char);
    }
    out.push_str(text).map_err(|_| WriteFault)
}

/// Appends a character.
fn push_character(out: &mut String, character: char) -> Result<(), WriteFault>
    ensures { OnOk result (string_bytes out.new ≡ string_bytes out.old
        ++ text_of (Char character ∷ [])) }
{
    out.push(character).map_err(|_| WriteFault)
}
