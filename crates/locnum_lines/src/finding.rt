//! The numbers of records, each with where it stands.

ghost use Rattle.std.specs.Prelude.{◌≡◌, ◌≢◌, IfOk, OnOk, length, map, max, false, true};
ghost use Rattle.locnum_lines.specs.Finding.{found_at, found_from, line_found, line_noted, record_found, record_noted};
ghost use Rattle.locnum_lines.specs.Gathered.{Adds};
ghost use Rattle.locnum_lines.specs.Records.{is_open};
ghost use Rattle.locnum_lines.specs.Stage.{header_passed, names_in, stage_after};
ghost use Rattle.locnum_lines.specs.declared.cutting.FieldState.TheVariants.{Front};

use crate::cutting::{FieldState, is_quoted};
use crate::gathered::Gathered;
use crate::line::stop;
use crate::names::{names_in, trimmed};
use crate::records::{is_open_behind, last_begun, lines_in, state_behind};
use crate::settings::LineSettings;
use std::alloc::{AllocError, Global};
use std::marker::Model;

/// A number of a record (this project's own).
#[derive(Debug, Drop)]
pub struct FoundNumber {
    /// Where it stands, as notes say it: `line 2, field 3 (net)`.
    pub position: Vec<u8>,
    /// Its text: the field without the blanks around it, of CSV the field's content without them.
    pub text: Vec<u8>,
}

impl Model for FoundNumber {
    ghost use Rattle.locnum_lines.specs.Finding.{FoundData};

    ghost Value = { FoundData };

    ghost view = { λ n. record { position = n.position.items; text = n.text.items } };
}

/// How far the bytes of a record are read, for a caller that cuts an input into records itself (this
/// project's own).
///
/// A record ends at the end of a line, unless it is one of CSV in which quotes are open there.
#[derive(Debug, Drop)]
pub struct RecordState {
    state: FieldState,
}

impl Model for RecordState {
    ghost use Rattle.locnum_lines.specs.declared.cutting.FieldState.{FieldState};

    ghost Value = { FieldState };

    ghost view = { λ p. p.state };
}

impl RecordState {
    ghost use Rattle.std.specs.Prelude.{◌≡◌};
    ghost use Rattle.locnum_lines.specs.Fields.{is_quoted};
    ghost use Rattle.locnum_lines.specs.Records.{state_behind};
    ghost use Rattle.locnum_lines.specs.declared.cutting.FieldState.TheVariants.{Front};

    /// In front of a record.
    pub fn new() -> Self
        ensures { result ≡ Front }
    {
        RecordState {
            state: FieldState::Front,
        }
    }

    /// Behind more bytes of the record.
    // promise: It says behind which bytes quotes of CSV are open.
    // mutations: place_of_a_record_begun_again
    pub fn pass(&mut self, settings: &LineSettings, bytes: &[u8])
        ensures { self.new ≡ state_behind settings.now.delimiter self.old bytes.now }
    {
        self.state = state_behind(settings.delimiter, self.state, bytes);
    }

    /// Whether quotes are open.
    pub fn is_open(&self) -> bool
        ensures { result ≡ is_quoted self.now }
    {
        is_quoted(self.state)
    }
}

/// Finds the numbers of an input's records, for a caller that handles the records itself (this
/// project's own).
#[derive(Drop)]
pub struct NumberFinder {
    gathered: Gathered,
}

impl Model for NumberFinder {
    ghost use Rattle.locnum_lines.specs.Gathered.{GatheredData};

    ghost Value = { GatheredData };

    ghost view = { λ f. f.gathered };
}

/// The number of a chosen field, by what the field contains.
fn number_at(
    alloc: Global,
    settings: &LineSettings,
    index: usize,
    content: &[u8],
    gathered: &Gathered,
) -> Result<FoundNumber, AllocError>
    ensures { IfOk result (λ n. n ≡ found_at settings.now gathered.now.stage index content.now) }
{
    let text = Vec::from_slice(alloc, trimmed(content))?;
    let mut position = Vec::new(alloc);
    gathered.push_position(settings.source, index, &mut position)?;
    Ok(FoundNumber { position, text })
}

/// The numbers of the chosen fields, by what each field contains.
#[tactic(auto, unfolding(crate::specs::Finding::found_from))]
fn numbers_among(
    alloc: Global,
    settings: &LineSettings,
    contents: &[Vec<u8>],
    gathered: &Gathered,
) -> Result<Vec<FoundNumber>, AllocError>
    ensures { IfOk result (λ found. found.items ≡ found_from settings.now gathered.now.stage 1
        (map (λ v. v.items) contents.now)) }
{
    let mut found = Vec::new(alloc);
    let mut index: usize = 1;
    let mut left = contents;
    while let Some((content, rest)) = left.split_first() {
        if gathered.chooses(settings, index) {
            found.push(number_at(alloc, settings, index, content, gathered)?)?;
        }
        let Some(following) = index.checked_add(1) else {
            return Err(AllocError);
        };
        index = following;
        left = rest;
    }
    Ok(found)
}

/// The numbers of a record behind the header, whose fields are counted.
fn numbers_in(
    alloc: Global,
    settings: &LineSettings,
    record: &[u8],
    gathered: &mut Gathered,
) -> Result<Vec<FoundNumber>, AllocError>
    ensures found { IfOk result (λ found. found.items
        ≡ found_from settings.now gathered.old.stage 1
        (names_in settings.now.delimiter «record».now)) }
    ensures counted { OnOk result (gathered.new ≡ record gathered.old {
      most_fields = max gathered.old.most_fields
          (length (names_in settings.now.delimiter «record».now));
    }) }
{
    let contents = names_in(alloc, settings.delimiter, record)?;
    gathered.count(contents.len());
    numbers_among(alloc, settings, &contents, gathered)
}

/// The numbers of a record whose quotes end, in front of which as many records of the header are
/// left as were gathered.
fn numbers_of(
    alloc: Global,
    settings: &LineSettings,
    record: &[u8],
    gathered: &mut Gathered,
) -> Result<Vec<FoundNumber>, AllocError>
    requires { gathered.old.is_stopped ≡ false }
    ensures found { IfOk result (λ found. found.items
        ≡ line_found settings.now gathered.old.stage gathered.old.stage.left «record».now) }
    ensures noted { OnOk result (Adds gathered.old gathered.new
        (line_noted settings.now gathered.old.stage gathered.old.stage.left «record».now)
        (header_passed settings.now gathered.old.stage «record».now)) }
{
    if gathered.header == 0 {
        return numbers_in(alloc, settings, record, gathered);
    }
    gathered.pass_header(alloc, settings, record)?;
    Ok(Vec::new(alloc))
}

/// Reports the line in which the last field of a record begins, whose quotes don't end.
fn report_open(
    settings: &LineSettings,
    record: &[u8],
    gathered: &mut Gathered,
) -> Result<(), AllocError>
    requires { is_open settings.now.delimiter «record».now ≡ true }
    ensures { OnOk result (Adds gathered.old gathered.new
        (record_noted settings.now gathered.old.stage «record».now)
        (header_passed settings.now gathered.old.stage «record».now)) }
{
    let Some(first) = gathered.lines.checked_add(1) else {
        return Err(AllocError);
    };
    let Some(begun) = last_begun(settings.delimiter, settings.end, first, record) else {
        return Err(AllocError);
    };
    stop(begun, gathered)
}

/// The numbers of a record, or none and a note where its quotes don't end.
fn numbers_or_note(
    alloc: Global,
    settings: &LineSettings,
    record: &[u8],
    gathered: &mut Gathered,
) -> Result<Vec<FoundNumber>, AllocError>
    requires { gathered.old.is_stopped ≡ false }
    ensures found { IfOk result (λ found. found.items
        ≡ record_found settings.now false gathered.old.stage «record».now) }
    ensures noted { OnOk result (Adds gathered.old gathered.new
        (record_noted settings.now gathered.old.stage «record».now)
        (header_passed settings.now gathered.old.stage «record».now)) }
{
    if is_open_behind(settings.delimiter, FieldState::Front, record) {
        report_open(settings, record, gathered)?;
        return Ok(Vec::new(alloc));
    }
    numbers_of(alloc, settings, record, gathered)
}

/// The numbers of a record, whose lines are counted.
fn find_in(
    alloc: Global,
    settings: &LineSettings,
    record: &[u8],
    gathered: &mut Gathered,
) -> Result<Vec<FoundNumber>, AllocError>
    requires { gathered.old.is_stopped ≡ false }
    ensures found { IfOk result (λ found. found.items
        ≡ record_found settings.now false gathered.old.stage «record».now) }
    ensures noted { OnOk result (Adds gathered.old gathered.new
        (record_noted settings.now gathered.old.stage «record».now)
        (stage_after settings.now gathered.old.stage «record».now)) }
{
    let found = numbers_or_note(alloc, settings, record, gathered)?;
    gathered.pass(lines_in(settings.end, record))?;
    Ok(found)
}

impl NumberFinder {
    ghost use Rattle.std.specs.Prelude.{◌≡◌, [], IfOk, OnOk, false, true};
    ghost use Rattle.locnum_lines.specs.Finding.{record_found, record_noted};
    ghost use Rattle.locnum_lines.specs.Gathered.{Adds};
    ghost use Rattle.locnum_lines.specs.Records.{is_open};
    ghost use Rattle.locnum_lines.specs.Stage.{stage_after, start_of};
    ghost use Rattle.locnum_lines.specs.declared.cutting.FieldState.TheVariants.{Front};

    /// In front of an input, by the settings of its lines.
    pub fn new(alloc: Global, settings: &LineSettings) -> Self
        ensures { result ≡ record {
          output = [];
          notes = [];
          is_refused = false;
          is_stopped = false;
          most_fields = 0;
          holding = [];
          stage = start_of settings.now;
        } }
    {
        NumberFinder {
            gathered: Gathered::new(alloc, settings.header),
        }
    }

    /// The numbers of the next record, which has no byte that ends lines behind it.
    ///
    /// The header has none, and neither has a record of CSV whose quotes don't end. There the
    /// search ends, and it ends where the header lacks a name: no record behind has a number then.
    // promise: It finds the numbers of a record, with their places.
    // mutations: found_number_of_the_field_before
    // promise: The header has no numbers; open quotes end the search.
    // mutations: open_record_searched_for_numbers
    pub fn find(
        &mut self,
        alloc: Global,
        settings: &LineSettings,
        record: &[u8],
    ) -> Result<Vec<FoundNumber>, AllocError>
        ensures found { IfOk result (λ found. found.items
            ≡ record_found settings.now self.old.is_stopped self.old.stage «record».now) }
        ensures noted { OnOk result (self.old.is_stopped ≡ false → Adds self.old self.new
            (record_noted settings.now self.old.stage «record».now)
            (stage_after settings.now self.old.stage «record».now)) }
        ensures stopped { OnOk result (self.old.is_stopped ≡ true → self.new ≡ self.old) }
    {
        if self.gathered.is_stopped {
            return Ok(Vec::new(alloc));
        }
        find_in(alloc, settings, record, &mut self.gathered)
    }

    /// The notes so far: of a name that is no column's, or of quotes that don't end.
    pub fn notes(&self) -> &[u8]
        ensures { result.now ≡ self.now.notes }
    {
        &self.gathered.notes
    }

    /// Whether the search ended.
    pub fn is_stopped(&self) -> bool
        ensures { result ≡ self.now.is_stopped }
    {
        self.gathered.is_stopped
    }

    /// The greatest number of fields that a record behind the header had.
    pub fn most_fields(&self) -> usize
        ensures { result ≡ self.now.most_fields }
    {
        self.gathered.most_fields
    }
}
