//! A sink that keeps a text and its parts.
ghost use Rattle.std.specs.Prelude.{◌≡◌, ◌↔◌, ℕ, ◌<◌, ◌+◌, ◌≢◌, IsTrue, [], Option, Some, None, IfSome, IfOk, IsOk, IsErr, OnOk, length, map, ◌∷◌, ◌++◌};
ghost use Rattle.std.specs.Option.{option_map};
ghost use Rattle.writeable.specs.Events.{text_of, text_events, without_parts};
ghost use Rattle.writeable.specs.Events.Event.{Char, Open, Close};
ghost use Rattle.writeable.specs.Sink.{Writes, KeepsLimit, one_more_failure};
ghost use Rattle.writeable.specs.Spans.{spans, span_of};
ghost use Rattle.writeable.specs.PartSpans.{span};
ghost use Rattle.writeable.specs.Annotated.{IsFull, IsWithinLimit};
ghost use Rattle.writeable.specs.Marks.{mark_at, mark_event, mark_event_of};

use crate::error::OutOfMemory;
use crate::sink::{Part, PartsWrite, WriteFault};
use std::alloc::Global;
use std::marker::Model;

/// Where a part was opened or closed, in bytes of the text.
#[derive(Drop)]
enum Mark {
    Open { at: usize, part: Part },
    Close { at: usize },
}

/// A sink that keeps all its events, up to a limit if it has one.
///
/// Only a growth that fails and the limit make it fail.
#[derive(Drop)]
pub struct PartsText {
    text: String,
    marks: Vec<Mark>,
    room: Option<usize>,
    failures: u64,
    refusals: u64,
}

impl Model for PartsText {
    ghost use Rattle.writeable.specs.Annotated.{Annotated};

    ghost Value = { Annotated };

    ghost use Rattle.writeable.specs.Marks.{annotated, IsMarked};

    ghost view = { annotated };

    ghost invariant = { IsMarked };
}

impl PartsText {
    /// A sink without a limit.
    #[tactic(auto, using(crate::proofs::MarkLemmas::mark_steps))]
    pub fn new(alloc: Global) -> Self
        ensures { result ≡ record { events = []; failures = 0; limit = None; refusals = 0 } }
    {
        PartsText {
            text: String::new(alloc),
            marks: Vec::new(alloc),
            room: None,
            failures: 0,
            refusals: 0,
        }
    }

    /// A sink that takes the first `limit` events, and fails at each further one.
    #[tactic(auto, using(crate::proofs::MarkLemmas::mark_steps))]
    pub fn with_limit(alloc: Global, limit: usize) -> Self
        ensures { result ≡ record { events = []; failures = 0; limit = Some limit; refusals = 0 } }
    {
        PartsText {
            text: String::new(alloc),
            marks: Vec::new(alloc),
            room: Some(limit),
            failures: 0,
            refusals: 0,
        }
    }

    /// The characters that the sink holds.
    // promise: The text has the characters of the events, without parts.
    // mutations: text_answered_empty
    #[tactic(auto, using(crate::proofs::MarkLemmas::mark_steps))]
    pub fn text(&self) -> &str
        ensures text { result.now ≡ text_of self.now.events }
        ensures characters { text_events result.now ≡ without_parts self.now.events }
        ensures within { IsWithinLimit self.now }
    {
        self.text.as_str()
    }

    /// Whether a growth of the sink has failed. Where none has, a fault left it full.
    pub fn growth_refused(&self) -> bool
        ensures { IsTrue result ↔ (0 < self.now.refusals) }
    {
        self.refusals > 0
    }

    /// The ranges of bytes from the opening of each part to its own close, in the order of opening,
    /// without empty ones (as ICU4X lists the parts of a text). A close with nothing open makes
    /// none, nor does a part that is never closed.
    ///
    /// One pass over the marks from the last to the first, with a stack of the closes whose opening
    /// is still to come.
    // promise: Each part has its span, from its open to its own close.
    // mutations: spans_end_at_the_wrong_close
    // promise: Spans stand in the order of opening, without empty ones.
    // mutations: spans_in_the_order_of_closing
    pub fn spans(&self, alloc: Global) -> Result<Vec<(usize, usize, Part)>, OutOfMemory>
        ensures { IfOk result (λ v. map span v.items ≡ spans self.now.events) }
    {
        let marks = self.marks.as_slice();
        let mut found = Vec::new(alloc);
        let mut closes = Vec::new(alloc);
        for index in (0..marks.len()).rev() {
            match &marks[index] {
                Mark::Open { at, part } => {
                    push_unless_empty(&mut found, *at, closes.pop(), *part)?;
                }
                Mark::Close { at } => closes.push(*at)?,
            }
        }
        found.reverse();
        Ok(found)
    }

    /// Counts a failure.
    fn fault(&mut self) -> WriteFault
        ensures { self.new ≡ record self.old { failures = one_more_failure self.old.failures } }
    {
        self.failures = self.failures.saturating_add(1);
        WriteFault
    }

    /// Counts a failure because memory ran out.
    fn fault_of_memory(&mut self) -> WriteFault
        ensures { self.new ≡ record self.old {
          failures = one_more_failure self.old.failures;
          refusals = one_more_failure self.old.refusals;
        } }
    {
        self.refusals = self.refusals.saturating_add(1);
        self.fault()
    }

    /// Keeps a text whole, in a sink without a limit.
    fn keep_text(&mut self, text: &str) -> Result<(), WriteFault>
        requires { self.old.limit ≡ None }
        ensures writes { Writes (λ s. s.events) (λ s. s.failures) self.old result
            (text_events text.now) self.new }
        ensures limited { KeepsLimit (λ s. s.events) (λ s. s.limit) (λ s. s.refusals)
            self.old result (text_events text.now) self.new }
        ensures within { IsWithinLimit self.new }
    {
        if self.text.push_str(text).is_err() {
            return Err(self.fault_of_memory());
        }
        Ok(())
    }

    /// Keeps the opening of the part; without a part it keeps a close.
    fn keep_mark(&mut self, opened: Option<Part>) -> Result<(), WriteFault>
        ensures writes { Writes (λ s. s.events) (λ s. s.failures) self.old result
            (mark_event_of opened ∷ []) self.new }
        ensures limited { KeepsLimit (λ s. s.events) (λ s. s.limit) (λ s. s.refusals)
            self.old result (mark_event_of opened ∷ []) self.new }
        ensures within { IsWithinLimit self.new }
    {
        if self.room == Some(0) {
            return Err(self.fault());
        }
        let mark = mark_of(self.text.len(), opened);
        if self.marks.push(mark).is_err() {
            return Err(self.fault_of_memory());
        }
        self.room = one_less(self.room);
        Ok(())
    }
}

impl PartsWrite for PartsText {
    ghost events = { λ s. s.events };

    ghost failures = { λ s. s.failures };

    ghost limit = { λ s. s.limit };

    ghost refusals = { λ s. s.refusals };

    // promise: It never holds more events than its limit.
    // mutations: sink_room_never_runs_out
    fn write_str(&mut self, text: &str) -> Result<(), WriteFault>
        ensures writes { Writes (λ s. s.events) (λ s. s.failures) self.old result
            (text_events text.now) self.new }
        ensures limited { KeepsLimit (λ s. s.events) (λ s. s.limit) (λ s. s.refusals)
            self.old result (text_events text.now) self.new }
        ensures within { IsWithinLimit self.new }
        ensures empty { length text.now ≡ 0 → IsOk result }
        ensures full { IsFull self.old → 0 < length text.now → IsErr result }
    {
        let is_limited = self.room.is_some();
        if text.is_empty() {
            return Ok(());
        }
        if !is_limited {
            return self.keep_text(text);
        }
        for character in text.chars() {
            self.write_char(character)?;
        }
        Ok(())
    }

    fn write_char(&mut self, character: char) -> Result<(), WriteFault>
        ensures writes { Writes (λ s. s.events) (λ s. s.failures) self.old result
            (Char character ∷ []) self.new }
        ensures limited { KeepsLimit (λ s. s.events) (λ s. s.limit) (λ s. s.refusals)
            self.old result (Char character ∷ []) self.new }
        ensures within { IsWithinLimit self.new }
        ensures full { IsFull self.old → IsErr result }
    {
        if self.room == Some(0) {
            return Err(self.fault());
        }
        if self.text.push(character).is_err() {
            return Err(self.fault_of_memory());
        }
        self.room = one_less(self.room);
        Ok(())
    }

    fn open_part(&mut self, part: Part) -> Result<(), WriteFault>
        ensures writes { Writes (λ s. s.events) (λ s. s.failures) self.old result
            (Open part.category.now part.value.now ∷ []) self.new }
        ensures limited { KeepsLimit (λ s. s.events) (λ s. s.limit) (λ s. s.refusals)
            self.old result (Open part.category.now part.value.now ∷ []) self.new }
        ensures within { IsWithinLimit self.new }
        ensures full { IsFull self.old → IsErr result }
    {
        self.keep_mark(Some(part))
    }

    fn close_part(&mut self) -> Result<(), WriteFault>
        ensures writes { Writes (λ s. s.events) (λ s. s.failures) self.old result
            (Close ∷ []) self.new }
        ensures limited { KeepsLimit (λ s. s.events) (λ s. s.limit) (λ s. s.refusals)
            self.old result (Close ∷ []) self.new }
        ensures within { IsWithinLimit self.new }
        ensures full { IsFull self.old → IsErr result }
    {
        self.keep_mark(None)
    }
}

/// The mark at a byte for the opening of the part; without a part the mark of a close.
fn mark_of(at: usize, opened: Option<Part>) -> Mark
    ensures offset { mark_at result ≡ at }
    ensures event { mark_event result ≡ mark_event_of opened }
{
    match opened {
        Some(part) => Mark::Open { at, part },
        None => Mark::Close { at },
    }
}

/// The room that is left after one more event.
fn one_less(room: Option<usize>) -> Option<usize>
    requires { room ≢ Some 0 }
    ensures { option_map (λ left. left + 1) result ≡ room }
{
    match room {
        Some(left) => Some(left - 1),
        None => None,
    }
}

/// Adds the span of a part that is opened at `start`, unless it is empty or never closed.
fn push_unless_empty(
    found: &mut Vec<(usize, usize, Part)>,
    start: usize,
    end: Option<usize>,
    part: Part,
) -> Result<(), OutOfMemory>
    ensures { OnOk result (map span found.new.items
        ≡ map span found.old.items ++ span_of start end part.category.now part.value.now) }
{
    match end {
        Some(end) if end != start => found.push((start, end, part))?,
        _ => {}
    }
    Ok(())
}
