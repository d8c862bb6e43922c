//! Which fields of a line are numbers, how wide they are, and what becomes of texts that are
//! rejected.

ghost use Rattle.std.specs.Prelude.{◌≡◌};
ghost use Rattle.locnum_lines.specs.Settings.{is_chosen};

use crate::padding::Padding;
use std::marker::Model;

/// What becomes of a text that is rejected (`--invalid` of GNU `numfmt`).
#[derive(Clone, Copy, Debug, PartialEq, Eq)]
pub enum Refusals {
    /// It is reported, and the run stops there.
    Abort,
    /// It is reported, and goes through as it is.
    Fail,
    /// The same; the program's status stays 0.
    Warn,
    /// It goes through as it is, and nothing is reported.
    Ignore,
}

/// What ends a field of a line.
#[derive(Clone, Copy, Debug, PartialEq, Eq)]
pub enum Delimiter {
    /// The first blank behind a word.
    Blanks,
    /// This byte.
    Byte(u8),
    /// This byte in CSV (RFC 4180), unless it stands between the quotes of a field that begins with
    /// one; a byte that ends a line belongs to the field there, too. Neither a quote nor the byte
    /// that ends a line is to be the delimiter.
    Csv(u8),
}

/// The fields from one number to another, both included; the first field of a line is 1.
#[derive(Clone, Copy, Debug, PartialEq, Eq)]
pub struct FieldRange {
    /// The first of them.
    pub first: usize,
    /// The last of them.
    pub last: usize,
}

/// Where the lines of a run come from; notes say it.
#[derive(Clone, Copy, Debug, PartialEq, Eq)]
pub enum Source {
    /// Lines of an input: notes say which line and which field.
    Lines,
    /// The argument of this number on the command line, from 1 on.
    Word(u64),
}

/// How lines are cut and which of their fields are numbers (this project's own, after GNU
/// `numfmt`).
#[derive(Debug, Drop)]
pub struct LineSettings {
    /// What ends a field.
    pub delimiter: Delimiter,
    /// The fields that are numbers, unless they are chosen by name.
    pub fields: Vec<FieldRange>,
    /// The names of the columns that are numbers; empty: the fields are chosen by number.
    pub names: Vec<String>,
    /// How many lines, or records of CSV, at the beginning go through as they are.
    pub header: u64,
    /// The byte that ends a line: a line feed, or 0.
    pub end: u8,
    /// What becomes of a text that is rejected.
    pub refusals: Refusals,
    /// How many columns each number takes at least; `None`: as many as it has.
    pub padding: Option<Padding>,
    /// Where the lines come from.
    pub source: Source,
}

impl Model for LineSettings {
    ghost use Rattle.std.specs.Prelude.{map, string_bytes};
    ghost use Rattle.locnum_lines.specs.Settings.{SettingsData};

    ghost Value = { SettingsData };

    ghost view = { λ s. record {
      delimiter = s.delimiter;
      fields = s.fields.items;
      names = map string_bytes s.names.items;
      header = s.header;
      end = s.end;
      refusals = s.refusals;
      padding = s.padding;
      source = s.source;
    } };
}

/// Whether a field of this number, from 1 on, is in one of the ranges.
pub(crate) fn is_chosen(ranges: &[FieldRange], index: usize) -> bool
    ensures { result ≡ is_chosen ranges.now index }
{
    for range in ranges {
        if range.first <= index && index <= range.last {
            return true;
        }
    }
    false
}
