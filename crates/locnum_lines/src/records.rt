//! Where records end, and in which line their last field begins.

ghost use Rattle.std.specs.Prelude.{◌≡◌, ◌<◌, IfSome, false, get_or, length, option_map, take, true};
ghost use Rattle.locnum_lines.specs.Records.{IsPartLine, begun_after, found_after, in_front, last_begun, line_after, line_end, lines_in, state_after, state_behind};
ghost use Rattle.locnum_lines.specs.Fields.{is_quoted};
ghost use Rattle.locnum_lines.specs.declared.cutting.FieldState.{FieldState};
ghost use Rattle.locnum_lines.specs.declared.cutting.FieldState.TheVariants.{Front};
ghost use Rattle.locnum_lines.specs.declared.settings.Delimiter.TheVariants.{Csv};

use crate::cutting::{FieldState, csv_state, ends_field, is_quoted, unchanging_length};
use crate::settings::Delimiter;
use memchr::memchr;

/// The place behind a byte of a record of CSV.
fn csv_state_after(delimiter: u8, state: FieldState, byte: u8) -> FieldState
    ensures { result ≡ state_after (Csv delimiter) state byte }
{
    if ends_field(Delimiter::Csv(delimiter), state, byte) {
        FieldState::Front
    } else {
        csv_state(state, byte)
    }
}

/// The place behind a byte of a record.
pub(crate) fn state_after(delimiter: Delimiter, state: FieldState, byte: u8) -> FieldState
    ensures { result ≡ state_after delimiter state byte }
{
    match delimiter {
        Delimiter::Blanks | Delimiter::Byte(_) => state,
        Delimiter::Csv(delimiter) => csv_state_after(delimiter, state, byte),
    }
}

/// The place behind bytes of a record of CSV of which none is a quote.
fn state_behind_unquoted(delimiter: u8, before: FieldState, bytes: &[u8]) -> FieldState
    requires { IsPartLine 34 bytes.now }
    ensures { result ≡ state_behind (Csv delimiter) before bytes.now }
{
    if is_quoted(before) {
        return before;
    }
    match bytes.split_last() {
        None => before,
        Some((last, _)) => if *last == delimiter {
            FieldState::Front
        } else {
            FieldState::Plain
        },
    }
}

/// The place behind bytes of a record of CSV.
#[inline(never)]
fn csv_state_behind(delimiter: u8, before: FieldState, bytes: &[u8]) -> FieldState
    ensures { result ≡ state_behind (Csv delimiter) before bytes.now }
{
    let Some(_) = memchr(b'"', bytes) else {
        return state_behind_unquoted(delimiter, before, bytes);
    };
    let mut state = before;
    let mut index = unchanging_length(delimiter, state, bytes);
    while index < bytes.len() {
        state = csv_state_after(delimiter, state, bytes[index]);
        index += 1;
        index += unchanging_length(delimiter, state, &bytes[index..]);
    }
    state
}

/// The place behind bytes of a record.
pub(crate) fn state_behind(delimiter: Delimiter, state: FieldState, bytes: &[u8]) -> FieldState
    ensures { result ≡ state_behind delimiter state bytes.now }
{
    match delimiter {
        Delimiter::Blanks | Delimiter::Byte(_) => state,
        Delimiter::Csv(delimiter) => csv_state_behind(delimiter, state, bytes),
    }
}

/// Whether bytes end outside of quotes wherever they begin, since they end with a quote behind a
/// byte that is neither one nor the delimiter.
fn ends_outside(delimiter: u8, bytes: &[u8]) -> bool
    ensures { result ≡ true → (state : FieldState) →
        is_quoted (state_behind (Csv delimiter) state bytes.now) ≡ false }
{
    let length = bytes.len();
    if length < 2 {
        return false;
    }
    let (before, last) = (bytes[length - 2], bytes[length - 1]);
    if last != b'"' || before == b'"' {
        return false;
    }
    before != delimiter
}

/// Whether quotes are open behind bytes of a record of CSV.
fn is_csv_open_behind(delimiter: u8, before: FieldState, bytes: &[u8]) -> bool
    ensures { result ≡ is_quoted (state_behind (Csv delimiter) before bytes.now) }
{
    if ends_outside(delimiter, bytes) {
        return false;
    }
    is_quoted(csv_state_behind(delimiter, before, bytes))
}

/// Whether quotes are open behind bytes of a record.
pub(crate) fn is_open_behind(delimiter: Delimiter, state: FieldState, bytes: &[u8]) -> bool
    ensures { result ≡ is_quoted (state_behind delimiter state bytes.now) }
{
    match delimiter {
        Delimiter::Blanks | Delimiter::Byte(_) => is_quoted(state),
        Delimiter::Csv(delimiter) => is_csv_open_behind(delimiter, state, bytes),
    }
}

/// How many lines a byte ends.
fn line_end(end: u8, byte: u8) -> u64
    ensures { result ≡ line_end end byte }
{
    if byte == end { 1 } else { 0 }
}

/// How many lines a record is.
pub(crate) fn lines_in(end: u8, bytes: &[u8]) -> u64
    ensures { result ≡ lines_in end bytes.now }
{
    let mut lines = 1;
    for byte in bytes {
        lines += line_end(end, *byte);
    }
    lines
}

/// The line behind a byte of this line, unless it has no number.
fn line_after(end: u8, line: u64, byte: u8) -> Option<u64>
    ensures { IfSome result (λ next. next ≡ line_after end line byte) }
{
    line.checked_add(line_end(end, byte))
}

/// The line in which a field begins behind a byte that ended the field before it or not.
fn begun_after(is_ended: bool, begun: u64, line: u64) -> u64
    ensures { result ≡ begun_after is_ended begun line }
{
    if is_ended { line } else { begun }
}

/// The line in which the last field of a record begins, by the line of the record, unless it has no
/// number.
pub(crate) fn last_begun(delimiter: Delimiter, end: u8, first: u64, record: &[u8]) -> Option<u64>
    ensures { IfSome result (λ begun.
        begun ≡ last_begun delimiter end Front first first record.now) }
{
    let mut state = FieldState::Front;
    let mut begun = first;
    let mut line = first;
    for byte in record {
        line = line_after(end, line, *byte)?;
        begun = begun_after(ends_field(delimiter, state, *byte), begun, line);
        state = state_after(delimiter, state, *byte);
    }
    Some(begun)
}

/// The place of the last byte that ends a field, behind one at this place that ends one or not.
fn found_after(is_ended: bool, found: Option<usize>, index: usize) -> Option<usize>
    ensures { result ≡ found_after is_ended found index }
{
    if is_ended { Some(index) } else { found }
}

/// The place of the last byte of a record that ends a field.
pub(crate) fn last_end(delimiter: Delimiter, record: &[u8]) -> Option<usize>
    ensures within { IfSome result (λ n. n < length record.now) }
    ensures value { option_map (λ n. (take n record.now, get_or record.now n 0)) result
        ≡ in_front delimiter Front record.now }
{
    let mut state = FieldState::Front;
    let mut found = None;
    let mut index = 0;
    while index < record.len() {
        found = found_after(ends_field(delimiter, state, record[index]), found, index);
        state = state_after(delimiter, state, record[index]);
        index += 1;
    }
    found
}
