//! What was gathered of an input's output and notes.

use crate::columns::push_columns;
use crate::names::names_in;
use crate::note::{push_missing_note, push_note, push_position};
use crate::settings::{FieldRange, LineSettings, Source, is_chosen};
use crate::whole::RestGuess;
use decimal_lines::TextError;
use std::alloc::{AllocError, Global};
use std::marker::Model;
use std::mem;

/// Output and notes that aren't written yet, and how far the run is.
#[derive(Drop)]
pub(crate) struct Gathered {
    pub(crate) output: Vec<u8>,
    pub(crate) notes: Vec<u8>,
    pub(crate) is_refused: bool,
    pub(crate) is_stopped: bool,
    /// The greatest number of a field.
    pub(crate) most_fields: usize,
    /// The first written number that holds the delimiter.
    pub(crate) holding: Vec<u8>,
    /// How many records of the header are left.
    pub(crate) header: u64,
    /// How many lines were run.
    pub(crate) lines: u64,
    /// The names of the columns.
    names: Vec<Vec<u8>>,
    /// The columns that were asked for by name.
    columns: Vec<FieldRange>,
    /// Room for the text of one field, whatever stands in it.
    spare: Vec<u8>,
    guess: RestGuess,
}

impl Model for Gathered {
    ghost use Rattle.std.specs.Prelude.{map};
    ghost use Rattle.locnum_lines.specs.Gathered.{GatheredData};

    ghost Value = { GatheredData };

    ghost view = { λ g. record {
      output = g.output.items;
      notes = g.notes.items;
      is_refused = g.is_refused;
      is_stopped = g.is_stopped;
      most_fields = g.most_fields;
      holding = g.holding.items;
      stage = record {
        left = g.header;
        lines = g.lines;
        names = map (λ v. v.items) g.names.items;
        columns = g.columns.items;
      };
    } };
}

impl Gathered {
    ghost use Rattle.std.specs.Prelude.{◌≡◌, ◌≢◌, ◌<◌, ◌+◌, max, [], ◌∷◌, ◌++◌, List, false, IfErr, Ok, OnOk, Some, drop, length, take};
    ghost use Rattle.locnum_lines.specs.Notes.{note, position_text};
    ghost use Rattle.locnum_lines.specs.Gathered.{Adds};
    ghost use Rattle.locnum_lines.specs.RecordRuns.{named_ran};
    ghost use Rattle.locnum_lines.specs.Settings.{is_chosen};
    ghost use Rattle.locnum_lines.specs.Stage.{fields_of, header_passed};

    /// Nothing gathered, with a header of that many records.
    pub(crate) fn new(alloc: Global, header: u64) -> Self
        ensures { result ≡ record {
          output = [];
          notes = [];
          is_refused = false;
          is_stopped = false;
          most_fields = 0;
          holding = [];
          stage = record { left = header; lines = 0; names = []; columns = [] };
        } }
    {
        Gathered {
            output: Vec::new(alloc),
            notes: Vec::new(alloc),
            is_refused: false,
            is_stopped: false,
            most_fields: 0,
            holding: Vec::new(alloc),
            header,
            lines: 0,
            names: Vec::new(alloc),
            columns: Vec::new(alloc),
            spare: Vec::new(alloc),
            guess: RestGuess::new(),
        }
    }

    /// Whether the rest of a record may be tried once more as one number.
    pub(crate) fn takes_try(&mut self) -> bool
        ensures { self.new ≡ self.old }
    {
        self.guess.takes_try()
    }

    /// It was one.
    pub(crate) fn renew_tries(&mut self)
        ensures { self.new ≡ self.old }
    {
        self.guess = RestGuess::new();
    }

    /// Nothing gathered apart, in the room that is spare here.
    pub(crate) fn apart(&mut self, alloc: Global) -> Self
        ensures nothing { result ≡ record {
          output = [];
          notes = [];
          is_refused = false;
          is_stopped = false;
          most_fields = 0;
          holding = [];
          stage = record { left = 0; lines = 0; names = []; columns = [] };
        } }
        ensures unchanged { self.new ≡ self.old }
    {
        let mut apart = Gathered::new(alloc, 0);
        mem::swap(&mut apart.output, &mut self.spare);
        apart.output.clear();
        apart
    }

    /// Takes back the room of what was gathered apart.
    pub(crate) fn take_back(&mut self, mut apart: Gathered)
        ensures { self.new ≡ self.old }
    {
        mem::swap(&mut apart.output, &mut self.spare);
    }

    /// Forgets what was written.
    pub(crate) fn clear(&mut self)
        ensures { self.new ≡ record self.old { output = []; notes = [] } }
    {
        self.output.clear();
        self.notes.clear();
        self.guess = RestGuess::new();
    }

    /// How many bytes were written.
    pub(crate) fn written(&self) -> usize
        ensures { result ≡ length self.now.output }
    {
        self.output.len()
    }

    /// What was written behind that many bytes.
    pub(crate) fn written_behind(&self, length: usize) -> &[u8]
        ensures { result.now ≡ drop length self.now.output }
    {
        match self.output.split_at_checked(length) {
            Some((_before, behind)) => behind,
            None => &[],
        }
    }

    /// Forgets what was written behind that many bytes of the output.
    pub(crate) fn forget_behind(&mut self, length: usize)
        ensures { self.new ≡ record self.old { output = take length self.old.output } }
    {
        self.output.truncate(length);
    }

    /// Bytes of the output.
    pub(crate) fn write(&mut self, bytes: &[u8]) -> Result<(), AllocError>
        ensures { OnOk result
            (self.new ≡ record self.old { output = self.old.output ++ bytes.now }) }
    {
        if bytes.is_empty() {
            return Ok(());
        }
        self.output.extend_from_slice(bytes)
    }

    /// A byte of the output.
    pub(crate) fn push(&mut self, byte: u8) -> Result<(), AllocError>
        ensures { OnOk result
            (self.new ≡ record self.old { output = self.old.output ++ byte ∷ [] }) }
    {
        self.output.push(byte)?;
        Ok(())
    }

    /// A field of this number.
    pub(crate) fn count(&mut self, index: usize)
        ensures { self.new ≡ record self.old { most_fields = max self.old.most_fields index } }
    {
        if self.most_fields < index {
            self.most_fields = index;
        }
    }

    /// The note of a text that is rejected in a field of this number.
    #[inline(never)]
    pub(crate) fn note(
        &mut self,
        source: Source,
        index: usize,
        text: &[u8],
        error: TextError,
    ) -> Result<(), AllocError>
        ensures { OnOk result (self.new ≡ record self.old {
          notes = self.old.notes
              ++ note (position_text source self.old.stage.lines self.old.stage.names index)
              text.now
              error;
        }) }
    {
        push_note(
            source,
            self.lines,
            &self.names,
            index,
            text,
            error,
            &mut self.notes,
        )
    }

    /// Appends where a field of this number stands in the next record.
    pub(crate) fn push_position(
        &self,
        source: Source,
        index: usize,
        out: &mut Vec<u8>,
    ) -> Result<(), AllocError>
        ensures { OnOk result (out.new.items ≡ out.old.items
            ++ position_text source self.now.stage.lines self.now.stage.names index) }
    {
        push_position(source, self.lines, &self.names, index, out)
    }

    /// Whether a field of this number is a number.
    pub(crate) fn chooses(&self, settings: &LineSettings, index: usize) -> bool
        ensures { result ≡ is_chosen (fields_of settings.now self.now.stage) index }
    {
        if settings.names.is_empty() {
            return is_chosen(&settings.fields, index);
        }
        is_chosen(&self.columns, index)
    }

    /// The last record of the header: it names the columns.
    fn pass_last(
        &mut self,
        alloc: Global,
        settings: &LineSettings,
        line: &[u8],
    ) -> Result<(), AllocError>
        requires going { self.old.is_stopped ≡ false }
        requires last { self.old.stage.left ≡ 1 }
        ensures { OnOk result (Adds self.old self.new
            (named_ran settings.now self.old.stage line.now)
            (header_passed settings.now self.old.stage line.now)) }
    {
        self.header = 0;
        self.names = names_in(alloc, settings.delimiter, line)?;
        let missing = push_columns(&settings.names, &self.names, &mut self.columns)?;
        if let Some(name) = missing {
            self.is_stopped = true;
            return push_missing_note(alloc, &self.names, name.as_bytes(), &mut self.notes);
        }
        Ok(())
    }

    /// A record of the header.
    pub(crate) fn pass_header(
        &mut self,
        alloc: Global,
        settings: &LineSettings,
        line: &[u8],
    ) -> Result<(), AllocError>
        requires going { self.old.is_stopped ≡ false }
        requires some { 0 < self.old.stage.left }
        ensures { OnOk result (Adds self.old self.new
            (named_ran settings.now self.old.stage line.now)
            (header_passed settings.now self.old.stage line.now)) }
    {
        if self.header == 1 {
            return self.pass_last(alloc, settings, line);
        }
        self.header -= 1;
        Ok(())
    }

    /// More lines that were run.
    pub(crate) fn pass(&mut self, lines: u64) -> Result<(), AllocError>
        ensures { OnOk result (self.new ≡ record self.old {
          stage = record self.old.stage { lines = self.old.stage.lines + lines };
        }) }
    {
        let Some(lines) = self.lines.checked_add(lines) else {
            return Err(AllocError);
        };
        self.lines = lines;
        Ok(())
    }
}
