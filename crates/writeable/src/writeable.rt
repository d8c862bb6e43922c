//! Values that write themselves as text with parts (ICU4X, `writeable::Writeable`).
ghost use Rattle.std.specs.Prelude.{◌≡◌, List, IfOk};
ghost use Rattle.std.specs.String.{string_bytes};
ghost use Rattle.writeable.specs.Events.{Event, text_events, without_parts, text_of};
ghost use Rattle.writeable.specs.Sink.{Writes, KeepsLimit};

use crate::event_writer::{EventWriter, WithParts, WithoutParts};
use crate::sink::{PartsWrite, WriteFault};
use std::alloc::Global;

/// How many bytes a text has room for when it begins: most numbers then take one block of memory.
const SHORT_TEXT: usize = 40;

/// A value that writes itself as text with parts.
///
/// Only `write_events` says how a value is written: every output is its events.
pub trait Writeable {
    /// The events of the value.
    ghost events: { Self → List Event };

    /// Writes the events of the value.
    fn write_events<K: EventWriter>(&self, out: &mut K) -> Result<(), WriteFault>
        ensures { K.wrote out.old result (events self.now) out.new };

    /// Writes the characters alone, as for a number inside of another text.
    final fn write_characters<K: EventWriter>(&self, out: &mut K) -> Result<(), WriteFault>
        ensures { K.wrote out.old result (without_parts (events self.now)) out.new }
    {
        let mut characters = WithoutParts::new(out);
        let result = self.write_events(&mut characters);
        characters.into_inner();
        result
    }

    /// Writes the value with its parts (ICU4X, `write_to_parts`).
    // promise: A sink gets all events of the value, or a beginning.
    // mutations: write_to_parts_left_out, text_fault_without_failure
    final fn write_to_parts<S: PartsWrite>(&self, sink: &mut S) -> Result<(), WriteFault>
        ensures writes { Writes S.events S.failures sink.old result (events self.now) sink.new }
        ensures limited { KeepsLimit S.events S.limit S.refusals sink.old result
            (events self.now) sink.new }
    {
        let mut out = WithParts { sink };
        let result = self.write_events(&mut out);
        out.into_inner();
        result
    }

    /// Writes the characters alone (ICU4X, `write_to`).
    final fn write_to<S: PartsWrite>(&self, sink: &mut S) -> Result<(), WriteFault>
        ensures writes { Writes S.events S.failures sink.old result
            (without_parts (events self.now)) sink.new }
        ensures limited { KeepsLimit S.events S.limit S.refusals sink.old result
            (without_parts (events self.now)) sink.new }
    {
        let mut out = WithParts { sink };
        let result = self.write_characters(&mut out);
        out.into_inner();
        result
    }

    /// The characters as a text. A `String` fails only where memory runs out; no clause says when
    /// the call fails.
    final fn write_to_string(&self, alloc: Global) -> Result<String, WriteFault>
        ensures { IfOk result (λ t. string_bytes t ≡ text_of (events self.now)) }
    {
        let Ok(mut out) = String::with_capacity(alloc, SHORT_TEXT) else {
            return Err(WriteFault);
        };
        self.write_events(&mut out)?;
        Ok(out)
    }
}

// A text is its characters, without parts.
impl Writeable for &str {
    ghost events = { λ s. text_events s.now };

    fn write_events<K: EventWriter>(&self, out: &mut K) -> Result<(), WriteFault> {
        out.text(self)
    }
}
