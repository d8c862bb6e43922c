//! The first and the last character of what is written.

ghost use Rattle.std.specs.Prelude.{◌≡◌, Option, Some, None};
ghost use Rattle.std.specs.Str.{chars};
ghost use Rattle.writeable.specs.Events.{characters};
ghost use Rattle.icu_ranges.specs.Edges.{edges_after, edges_with, is_long, is_long_within};
ghost use Rattle.icu_ranges.specs.Joined.{has_digits, is_bare, is_digit};
ghost use Rattle.icu_ranges.specs.Separator.{begins_with_ink, ends_with_ink, has_ink_first, has_ink_last, is_pattern_white_space};

use ucd_category::GeneralCategory;
use writeable::{EventWriter, Part, WriteFault, Writeable};

/// The first and the last character of a text, and whether it has more than one.
#[derive(Clone, Copy, Debug)]
pub(crate) struct Edges {
    first: char,
    last: char,
    is_long: bool,
}

/// The edges of a text that goes on with a character.
fn edges_with(edges: Option<Edges>, character: char) -> Option<Edges>
    ensures { result ≡ edges_with edges character }
{
    match edges {
        Some(edges) => Some(Edges {
            first: edges.first,
            last: character,
            is_long: true,
        }),
        None => Some(Edges {
            first: character,
            last: character,
            is_long: false,
        }),
    }
}

/// Keeps the first and the last character of what is written. It takes no memory, and never fails.
#[derive(Drop)]
pub(crate) struct EdgeWriter {
    edges: Option<Edges>,
}

impl EventWriter for EdgeWriter {
    ghost use Rattle.std.specs.Prelude.{IsOk};
    ghost use Rattle.icu_ranges.specs.EdgeLaws.{edges_nothing, edges_then, edges_stop};

    ghost wrote = { λ a r es b. IsOk r × (b.edges ≡ edges_after a.edges (characters es)) };

    ghost nothing = { λ a. edges_nothing a.edges };

    ghost then = { λ a b c r es fs. edges_then a.edges b.edges c.edges r es fs };

    ghost stop = { λ a b e r es fs. edges_stop a.edges b.edges e r es fs };

    fn text(&mut self, text: &str) -> Result<(), WriteFault> {
        for character in text.chars() {
            self.edges = edges_with(self.edges, character);
        }
        Ok(())
    }

    fn character(&mut self, character: char) -> Result<(), WriteFault> {
        self.edges = edges_with(self.edges, character);
        Ok(())
    }

    fn open(&mut self, _part: Part) -> Result<(), WriteFault> {
        Ok(())
    }

    fn close(&mut self) -> Result<(), WriteFault> {
        Ok(())
    }
}

/// The edges of what a value writes.
fn edges_of<T: Writeable>(value: &T) -> Option<Edges>
    ensures { result ≡ edges_after None (characters (T.events value.now)) }
{
    let mut writer = EdgeWriter { edges: None };
    let _ = value.write_events(&mut writer);
    writer.edges
}

/// Whether a character is a decimal digit of any script.
fn is_digit(character: char) -> bool
    ensures { result ≡ is_digit character }
{
    matches!(
        GeneralCategory::for_char(character),
        GeneralCategory::DecimalNumber
    )
}

/// Whether both edges are decimal digits.
fn has_digits(edges: Option<Edges>) -> bool
    ensures { result ≡ has_digits edges }
{
    match edges {
        Some(edges) => is_digit(edges.first) && is_digit(edges.last),
        None => false,
    }
}

/// Whether what a value writes begins and ends with a decimal digit. It takes no memory.
pub(crate) fn is_bare<T: Writeable>(value: &T) -> bool
    ensures { result ≡ is_bare (characters (T.events value.now)) }
{
    has_digits(edges_of(value))
}

/// Whether a text with these edges has more than one character.
fn is_long_within(edges: Option<Edges>) -> bool
    ensures { result ≡ is_long_within edges }
{
    match edges {
        Some(edges) => edges.is_long,
        None => false,
    }
}

/// Whether what a value writes has more than one character. It takes no memory.
pub(crate) fn is_long<T: Writeable>(value: &T) -> bool
    ensures { result ≡ is_long (characters (T.events value.now)) }
{
    is_long_within(edges_of(value))
}

/// Whether a character is white space in patterns.
fn is_pattern_white_space(character: char) -> bool
    ensures { result ≡ is_pattern_white_space character }
{
    matches!(
        character,
        '\t'..='\r' | ' ' | '\u{85}' | '\u{200e}' | '\u{200f}' | '\u{2028}' | '\u{2029}'
    )
}

/// Whether the first character isn't white space.
fn has_ink_first(edges: Option<Edges>) -> bool
    ensures { result ≡ has_ink_first edges }
{
    match edges {
        Some(edges) => !is_pattern_white_space(edges.first),
        None => false,
    }
}

/// Whether the last character isn't white space.
fn has_ink_last(edges: Option<Edges>) -> bool
    ensures { result ≡ has_ink_last edges }
{
    match edges {
        Some(edges) => !is_pattern_white_space(edges.last),
        None => false,
    }
}

/// Whether a text begins with a character that isn't white space, and whether it ends with one.
pub(crate) fn ink_at_edges(text: &str) -> (bool, bool)
    ensures before { result.0 ≡ begins_with_ink (chars text.now) }
    ensures after { result.1 ≡ ends_with_ink (chars text.now) }
{
    let edges = edges_of(&text);
    (has_ink_first(edges), has_ink_last(edges))
}
