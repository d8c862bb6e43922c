//! A formatter as a writer.
ghost use Rattle.std.specs.Prelude.{◌∷◌, [], IsOk};
ghost use Rattle.writeable.specs.Events.Event.{Close, Open};
ghost use Rattle.writeable.specs.Sink.{Displays};
ghost use Rattle.writeable.specs.Writes.{Displays-nothing, Displays-then, Displays-stop};

use crate::event_writer::EventWriter;
use crate::sink::{Part, WriteFault};
use std::fmt;

// On success a formatter that indents nothing has written the text of the events, whatever its
// options are (`Displays`).
impl<W: fmt::Write> EventWriter for fmt::Formatter<W> {
    ghost wrote = { λ a r es b. Displays W.write_str_gives a r es b };

    ghost nothing = { λ a. Displays-nothing W.write_str_gives a };

    ghost then = { λ a b c r es fs. Displays-then W.write_str_gives a b c r es fs };

    ghost stop = { λ a b e r es fs. Displays-stop W.write_str_gives a b e r es fs };

    // promise: Where Display succeeds, it wrote just the characters.
    // mutations: display_text_left_out
    #[tactic(auto, using(crate::proofs::EventLemmas::text_steps))]
    fn text(&mut self, text: &str) -> Result<(), WriteFault> {
        self.write_str(text).map_err(|_| WriteFault)
    }

    fn character(&mut self, character: char) -> Result<(), WriteFault> {
        self.write_char(character).map_err(|_| WriteFault)
    }

    fn open(&mut self, part: Part) -> Result<(), WriteFault>
        ensures wrote { Displays W.write_str_gives self.old result
            (Open part.category.now part.value.now ∷ []) self.new }
        ensures ok { IsOk result }
    {
        let _ = part;
        Ok(())
    }

    fn close(&mut self) -> Result<(), WriteFault>
        ensures wrote { Displays W.write_str_gives self.old result (Close ∷ []) self.new }
        ensures ok { IsOk result }
    {
        Ok(())
    }
}
