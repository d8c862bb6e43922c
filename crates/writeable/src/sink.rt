//! Sinks: what takes the characters and the parts of a text (ICU4X, `writeable::PartsWrite`).
ghost use Rattle.std.specs.Prelude.{ℕ, ◌∷◌, [], List, Option};
ghost use Rattle.writeable.specs.Events.{Event, text_events};
ghost use Rattle.writeable.specs.Events.Event.{Char, Open, Close};
ghost use Rattle.writeable.specs.Sink.{Writes, KeepsLimit};

pub use crate::error::OutOfMemory;
use thiserror::Error;

/// The name of a part of a text, as `decimal` and `minusSign` (ICU4X, `writeable::Part`).
#[derive(Debug, Clone, Copy, PartialEq, Eq)]
pub struct Part {
    /// The kind of value, as `decimal`.
    pub category: &'static str,
    /// Which part of such a value it is, as `minusSign`.
    pub value: &'static str,
}

/// A sink could not take all that it was given.
#[derive(Clone, Copy, Debug, PartialEq, Eq, Error)]
#[error("the sink could not take the text")]
pub struct WriteFault;

/// A destination for text with parts.
///
/// A sink is the list of events that it holds, and a count of its failures. A call appends its
/// events; or it answers a fault, appends a beginning of them and counts one more failure. So a
/// fault is answered only if the sink failed in that very call, and what a sink holds after a fault
/// is a beginning of what was to be written. A sink may have a limit of events, which no call
/// changes; a failure that isn't counted as an error leaves it full.
pub trait PartsWrite {
    /// The events that the sink holds.
    ghost events: { Self → List Event };

    /// How often the sink has failed: a count of 64 bits that stays at its last value.
    ghost failures: { Self → ℕ };

    /// How many events the sink may hold; none where it has no limit.
    ghost limit: { Self → Option ℕ };

    /// How many of its failures had another reason than its limit: all of them, where it has none.
    ghost refusals: { Self → ℕ };

    /// Appends the characters of a text. An empty text adds no event.
    // promise: A sink takes the text, or fails and holds a beginning.
    // mutations: sink_text_dropped
    // promise: A sink with a limit fails only if it is full or counts why.
    // mutations: sink_refused_growth_forgotten
    fn write_str(&mut self, text: &str) -> Result<(), WriteFault>
        ensures writes { Writes events failures self.old result (text_events text.now) self.new }
        ensures limited { KeepsLimit events limit refusals self.old result
            (text_events text.now) self.new };

    /// Appends a character.
    fn write_char(&mut self, character: char) -> Result<(), WriteFault>
        ensures writes { Writes events failures self.old result (Char character ∷ []) self.new }
        ensures limited { KeepsLimit events limit refusals self.old result
            (Char character ∷ []) self.new };

    /// Opens a part, which lasts until its own close.
    fn open_part(&mut self, part: Part) -> Result<(), WriteFault>
        ensures writes { Writes events failures self.old result
            (Open part.category.now part.value.now ∷ []) self.new }
        ensures limited { KeepsLimit events limit refusals self.old result
            (Open part.category.now part.value.now ∷ []) self.new };

    /// Closes the part that was opened last and is still open. With no part open this is an event
    /// all the same.
    fn close_part(&mut self) -> Result<(), WriteFault>
        ensures writes { Writes events failures self.old result (Close ∷ []) self.new }
        ensures limited { KeepsLimit events limit refusals self.old result (Close ∷ []) self.new };
}
