//! A value written to sinks, to a text and by a formatter.
use super::{GROUP, is_annotated};
use crate::styled::is_styled;
use std::alloc::{AllocError, Global};
use std::{fmt, str};
use writeable::{EventWriter, OutOfMemory, Part, PartsText, WriteFault, Writeable};

/// A value of one part around a text, to show how a crate above writes its own.
#[derive(Clone, Copy, Drop)]
struct Grouped<'l> {
    text: &'l str,
}

impl Writeable for Grouped<'_> {
    ghost use Rattle.std.specs.Prelude.{List, ◌∷◌, ◌++◌, [], codes};
    ghost use Rattle.writeable.specs.Events.{Event, text_events};
    ghost use Rattle.writeable.specs.Events.Event.{Open, Close};

    ghost events = { λ g. Open (codes "decimal") (codes "group")
        ∷ (text_events g.text.now ++ Close ∷ []) };

    fn write_events<K: EventWriter>(&self, out: &mut K) -> Result<(), WriteFault> {
        out.open(GROUP)?;
        out.text(self.text)?;
        out.close()
    }
}

impl fmt::Display for Grouped<'_> {
    ghost use Rattle.std.specs.Prelude.{Some, ◌∷◌, ◌++◌, [], codes};
    ghost use Rattle.writeable.specs.Events.{text_events, text_of};
    ghost use Rattle.writeable.specs.Events.Event.{Open, Close};

    ghost output = { λ g. Some
        (text_of (Open (codes "decimal") (codes "group")
        ∷ (text_events g.text.now ++ Close ∷ []))) };

    ghost styled_output = { λ g _.
        Some (text_of (Open (codes "decimal") (codes "group")
        ∷ (text_events g.text.now ++ Close ∷ []))) };

    fn fmt<W: fmt::Write>(&self, f: &mut fmt::Formatter<W>) -> fmt::Result {
        self.write_events(f).map_err(|_| fmt::Error)
    }
}

/// Whether a value leaves this text with these spans in a sink; asked once more where a growth
/// failed.
fn writes_parts<T: Writeable>(
    alloc: Global,
    value: &T,
    text: &str,
    want: &[(usize, usize, Part)],
) -> bool {
    let mut sink = PartsText::new(alloc);
    if value.write_to_parts(&mut sink).is_err() {
        sink = PartsText::new(alloc);
        if value.write_to_parts(&mut sink).is_err() {
            return false;
        }
    }
    is_annotated(alloc, &sink, text, want)
}

/// Whether a value leaves this text without spans in a sink; asked once more where a growth
/// failed.
fn writes_characters<T: Writeable>(alloc: Global, value: &T, text: &str) -> bool {
    let mut sink = PartsText::new(alloc);
    if value.write_to(&mut sink).is_err() {
        sink = PartsText::new(alloc);
        if value.write_to(&mut sink).is_err() {
            return false;
        }
    }
    is_annotated(alloc, &sink, text, &[])
}

fn is_string<T: Writeable>(alloc: Global, value: &T, text: &str) -> bool {
    match value.write_to_string(alloc) {
        Ok(string) => string.as_str() == text,
        Err(WriteFault) => match value.write_to_string(alloc) {
            Ok(string) => string.as_str() == text,
            Err(WriteFault) => false,
        },
    }
}

const TEXTS: [&str; 3] = ["", "1", "a\u{f1}\u{20ac}\u{1f600}"];

/// Whether a text in a part is written in each way.
fn is_grouped(alloc: Global, text: &str) -> bool {
    let value = Grouped { text };
    let whole = [(0, text.len(), GROUP)];
    let count = if text.is_empty() { 0 } else { 1 };
    writes_parts(alloc, &value, text, whole.split_at(count).0)
        && writes_characters(alloc, &value, text)
        && is_string(alloc, &value, text)
        && is_styled(alloc, &value, text)
}

#[test]
fn writes_a_value_in_each_way(rt: HostRuntime) {
    for &text in &TEXTS {
        assert!(rt; is_grouped(rt.alloc(), text), "{text}");
    }
}

fn is_itself(alloc: Global, text: &str) -> bool {
    writes_parts(alloc, &text, text, &[])
        && writes_characters(alloc, &text, text)
        && is_string(alloc, &text, text)
}

#[test]
fn writes_a_text_in_each_way(rt: HostRuntime) {
    for &text in &TEXTS {
        assert!(rt; is_itself(rt.alloc(), text), "{text}");
    }
}

/// That many letters, made once more where memory ran out.
fn letters(alloc: Global, count: usize) -> Result<Vec<u8>, AllocError> {
    match Vec::from_elem(alloc, b'x', count) {
        Ok(letters) => Ok(letters),
        Err(_) => Vec::from_elem(alloc, b'x', count),
    }
}

/// Whether a text of that many letters is written in each way, alone and in a part.
fn writes_letters(alloc: Global, count: usize) -> bool {
    match letters(alloc, count) {
        Ok(letters) => {
            let text = str::from_utf8(&letters).unwrap_or_default();
            !text.is_empty() && is_itself(alloc, text) && is_grouped(alloc, text)
        }
        Err(_) => false,
    }
}

#[test]
fn writes_a_long_text_in_each_way(rt: HostRuntime) {
    assert!(rt; writes_letters(rt.alloc(), 200000));
}

/// Whether a sink with this limit holds this text, and failed where the limit is less than all four
/// events: open, two characters, close.
fn stops(alloc: Global, limit: usize, text: &str) -> bool {
    let mut sink = PartsText::with_limit(alloc, limit);
    let mut written = Grouped { text: "12" }.write_to_parts(&mut sink);
    if sink.growth_refused() {
        sink = PartsText::with_limit(alloc, limit);
        written = Grouped { text: "12" }.write_to_parts(&mut sink);
    }
    written.is_ok() == (limit == 4) && sink.text() == text
}

#[test]
fn stops_at_the_fault_of_the_sink(rt: HostRuntime) {
    for (limit, text) in ["", "", "1", "12", "12"].iter().enumerate() {
        assert!(rt; stops(rt.alloc(), limit, text), "with limit {limit}");
    }
}

#[test]
fn tells_its_errors(rt: HostRuntime) {
    assert!(rt; is_styled(rt.alloc(), &WriteFault, "the sink could not take the text"));
    assert!(rt; is_styled(rt.alloc(), &OutOfMemory, "out of memory"));
}
