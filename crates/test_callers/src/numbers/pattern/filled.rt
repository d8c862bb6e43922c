//! What patterns write with a value in their place: as their contract says, under every style, and to
//! a sink that fails.
ghost use Rattle.std.specs.Prelude.{◌≡◌, IfOk};
ghost use Rattle.std.specs.String.{string_bytes};
ghost use Rattle.writeable.specs.Events.{text_of};
ghost use Rattle.icu_pattern.specs.Patterns.{interpolated};

use super::pattern_of;
use icu_pattern::{NoPlaceholder, Pattern, PatternBackend, SinglePlaceholder};
use std::alloc::{AllocError, Global};
use std::fmt;
use std::process::Abort;
use writeable::{EventWriter, Part, PartsText, WriteFault, Writeable};

const INTEGER: Part = Part {
    category: "decimal",
    value: "integer",
};

/// The number 12, as a part.
#[derive(Clone, Copy)]
struct Twelve;

impl Writeable for Twelve {
    ghost use Rattle.std.specs.Prelude.{List, ◌∷◌, ◌++◌, [], codes};
    ghost use Rattle.writeable.specs.Events.{Event, text_events};
    ghost use Rattle.writeable.specs.Events.Event.{Open, Close};

    ghost events = { λ _. Open (codes "decimal") (codes "integer")
        ∷ (text_events (codes "12") ++ Close ∷ []) };

    fn write_events<K: EventWriter>(&self, out: &mut K) -> Result<(), WriteFault> {
        out.open(INTEGER)?;
        out.text("12")?;
        out.close()
    }
}

/// The text of a value in a pattern is that of the pattern's events around the value's: that is
/// what its contract says.
fn text_with<P: PatternBackend, W: Writeable + Drop>(
    alloc: Global,
    pattern: &Pattern<P>,
    value: W,
) -> Result<String, WriteFault>
    ensures { IfOk result (λ t.
        string_bytes t ≡ text_of (interpolated pattern.now (W.events value))) }
{
    let filled = pattern.interpolate(value);
    match filled.write_to_string(alloc) {
        Ok(text) => Ok(text),
        Err(WriteFault) => filled.write_to_string(alloc),
    }
}

fn is_text_with<P: PatternBackend>(
    alloc: Global,
    pattern: &Pattern<P>,
    value: &str,
    want: &str,
) -> bool {
    match text_with(alloc, pattern, value) {
        Ok(text) => text.as_str() == want,
        Err(WriteFault) => false,
    }
}

#[test]
fn writes_the_value_as_the_contract_says(rt: HostRuntime) {
    let placed = pattern_of::<SinglePlaceholder>(&rt, rt.alloc(), Some(1), "~K");
    assert!(rt; is_text_with(rt.alloc(), &placed, "12", "~12K"));
    let unplaced = pattern_of::<NoPlaceholder>(&rt, rt.alloc(), None, "mille");
    assert!(rt; is_text_with(rt.alloc(), &unplaced, "12", "mille"));
}

/// Whether a text was made, and is this.
fn is_made(made: Result<String, AllocError>, want: &str) -> bool {
    match made {
        Ok(text) => text.as_str() == want,
        Err(_) => false,
    }
}

/// Whether a value is displayed with these characters, unpadded, under a width, a fill, a precision
/// and the alternate form.
fn is_styled<T: fmt::Display>(alloc: Global, value: &T, want: &str) -> bool {
    is_made(format!(in alloc; "{value:>80}"), want)
        && is_made(format!(in alloc; "{value:*^80}"), want)
        && is_made(format!(in alloc; "{value:.0}"), want)
        && is_made(format!(in alloc; "{value:#}"), want)
}

/// The same; the call is repeated if memory ran out.
fn is_displayed_unpadded<T: fmt::Display>(alloc: Global, value: &T, want: &str) -> bool {
    is_styled(alloc, value, want) || is_styled(alloc, value, want)
}

/// Places, literals, and what they make of 12.
const CASES: [(Option<usize>, &str, &str); 4] = [
    (Some(0), " thousand", "12 thousand"),
    (Some(4), "a\u{20ac}\u{1f600}", "a\u{20ac}12\u{1f600}"),
    (None, "mille", "mille"),
    (None, "", ""),
];

/// Whether 12 in a pattern is displayed unpadded.
fn is_unpadded(
    rt: &impl Abort,
    alloc: Global,
    (placeholder, literal, text): (Option<usize>, &str, &str),
) -> bool {
    let pattern = pattern_of::<SinglePlaceholder>(rt, alloc, placeholder, literal);
    is_displayed_unpadded(alloc, &pattern.interpolate(Twelve), text)
}

#[test]
fn displays_patterns_unpadded(rt: HostRuntime) {
    for &case in &CASES {
        assert!(rt; is_unpadded(&rt, rt.alloc(), case), "{}", case.2);
    }
}

/// Whether a sink with this limit holds this text, and failed where the limit is less than all six
/// events: a character, open, two characters, close, a character.
fn stops(rt: &impl Abort, alloc: Global, limit: usize, text: &str) -> bool {
    let pattern = pattern_of::<SinglePlaceholder>(rt, alloc, Some(1), "~K");
    let filled = pattern.interpolate(Twelve);
    let mut sink = PartsText::with_limit(alloc, limit);
    let mut written = filled.write_to_parts(&mut sink);
    if sink.growth_refused() {
        sink = PartsText::with_limit(alloc, limit);
        written = filled.write_to_parts(&mut sink);
    }
    written.is_ok() == (limit == 6) && sink.text() == text
}

const BEGINNINGS: [&str; 7] = ["", "~", "~", "~1", "~12", "~12", "~12K"];

#[test]
fn stops_at_the_fault_of_the_sink(rt: HostRuntime) {
    for (limit, text) in BEGINNINGS.iter().enumerate() {
        assert!(rt; stops(&rt, rt.alloc(), limit, text), "with limit {limit}");
    }
}
