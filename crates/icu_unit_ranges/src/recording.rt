//! Events that are kept, to be written later.

ghost use Rattle.std.specs.Prelude.{◌≡◌, ◌∷◌, [], ◌++◌, OnOk};
ghost use Rattle.icu_unit_ranges.specs.Recordings.{kept_event, kept_events};

use std::alloc::Global;
use writeable::{EventWriter, Part, WriteFault, Writeable};

/// An event that is kept.
#[derive(Clone, Copy, Debug)]
pub(crate) enum Recorded {
    Character(char),
    Open(Part),
    Close,
}

/// Keeps all events, with their parts. Only a growth that fails makes it fail.
#[derive(Drop)]
pub(crate) struct Recording {
    kept: Vec<Recorded>,
}

impl Recording {
    ghost use Rattle.std.specs.Prelude.{◌≡◌, ◌∷◌, [], ◌++◌, OnOk};
    ghost use Rattle.icu_unit_ranges.specs.Recordings.{kept_event, kept_events};

    /// Keeps nothing yet.
    pub(crate) fn new(alloc: Global) -> Self
        ensures { result.kept.items ≡ [] }
    {
        Recording {
            kept: Vec::new(alloc),
        }
    }

    /// Keeps an event.
    fn keep(&mut self, event: Recorded) -> Result<(), WriteFault>
        ensures { OnOk result (kept_events self.new.kept.items
            ≡ kept_events self.old.kept.items ++ kept_event event ∷ []) }
    {
        match self.kept.push(event) {
            Ok(()) => Ok(()),
            Err(_) => Err(WriteFault),
        }
    }
}

impl EventWriter for Recording {
    ghost use Rattle.std.specs.Prelude.{◌≡◌, ◌++◌, OnOk};
    ghost use Rattle.writeable.specs.Writes.{OnOk-stop};
    ghost use Rattle.icu_unit_ranges.specs.Recordings.{kept_events, kept_nothing, kept_then};

    ghost wrote = { λ a r es b. OnOk r (kept_events b.kept.items
        ≡ kept_events a.kept.items ++ es) };

    ghost nothing = { λ a. kept_nothing (kept_events a.kept.items) };

    ghost then = { λ a b c r es fs. kept_then (kept_events a.kept.items)
        (kept_events b.kept.items) (kept_events c.kept.items) r es fs };

    ghost stop = { λ a b e r es fs err h. OnOk-stop _ r err };

    fn text(&mut self, text: &str) -> Result<(), WriteFault> {
        for character in text.chars() {
            self.keep(Recorded::Character(character))?;
        }
        Ok(())
    }

    fn character(&mut self, character: char) -> Result<(), WriteFault> {
        self.keep(Recorded::Character(character))
    }

    fn open(&mut self, part: Part) -> Result<(), WriteFault> {
        self.keep(Recorded::Open(part))
    }

    fn close(&mut self) -> Result<(), WriteFault> {
        self.keep(Recorded::Close)
    }
}

/// Writes an event.
fn write_kept<K: EventWriter>(event: &Recorded, out: &mut K) -> Result<(), WriteFault>
    ensures { K.wrote out.old result (kept_event event.now ∷ []) out.new }
{
    match event {
        Recorded::Character(character) => out.character(*character),
        Recorded::Open(part) => out.open(*part),
        Recorded::Close => out.close(),
    }
}

/// Writes all events that are kept.
fn write_all_kept<K: EventWriter>(kept: &[Recorded], out: &mut K) -> Result<(), WriteFault>
    ensures { K.wrote out.old result (kept_events kept.now) out.new }
{
    for event in kept {
        write_kept(event, out)?;
    }
    Ok(())
}

impl Writeable for Recording {
    ghost use Rattle.icu_unit_ranges.specs.Recordings.{kept_events};

    ghost events = { λ r. kept_events r.kept.items };

    fn write_events<K: EventWriter>(&self, out: &mut K) -> Result<(), WriteFault> {
        write_all_kept(self.kept.as_slice(), out)
    }
}
