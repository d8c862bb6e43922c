//! Where fields end, and what of them is a number.

ghost use Rattle.std.specs.Prelude.{◌≡◌, ◌+◌, ◌≤◌, drop, length};
ghost use Rattle.locnum_lines.specs.Fields.{blanks_before, content_length, csv_state, ends_field, field_length, is_blank, is_blank_behind, is_plain, is_quoted};
ghost use Rattle.locnum_lines.specs.Records.{state_behind};
ghost use Rattle.locnum_lines.specs.declared.cutting.FieldState.TheVariants.{Front, Plain};
ghost use Rattle.locnum_lines.specs.declared.settings.Delimiter.TheVariants.{Blanks, Byte, Csv};

use crate::settings::Delimiter;
use memchr::{memchr, memchr3};

/// Where in a field a byte stands, by the bytes in front of it.
#[derive(Clone, Copy, Debug, PartialEq, Eq)]
pub(crate) enum FieldState {
    /// In front of all of it but blanks.
    Front,
    /// In it, outside of quotes.
    Plain,
    /// Between its quotes.
    Quoted,
    /// Behind a quote between its quotes, which ends them unless another follows.
    AfterQuote,
}

/// Whether a byte is a space, a tab or a line feed.
fn is_blank(byte: u8) -> bool
    ensures { result ≡ is_blank byte }
{
    byte == b' ' || byte == b'\t' || byte == b'\n'
}

/// Whether a byte is a blank or a carriage return.
fn is_blank_behind(byte: u8) -> bool
    ensures { result ≡ is_blank_behind byte }
{
    byte == b' ' || byte == b'\t' || byte == b'\n' || byte == b'\r'
}

/// Whether a place is in a field, outside of quotes.
fn is_plain(state: FieldState) -> bool
    ensures { result ≡ is_plain state }
{
    match state {
        FieldState::Plain => true,
        FieldState::Front | FieldState::Quoted | FieldState::AfterQuote => false,
    }
}

/// Whether a place is between quotes.
pub(crate) fn is_quoted(state: FieldState) -> bool
    ensures { result ≡ is_quoted state }
{
    match state {
        FieldState::Quoted => true,
        FieldState::Front | FieldState::Plain | FieldState::AfterQuote => false,
    }
}

/// Whether a byte at this place ends its field.
pub(crate) fn ends_field(delimiter: Delimiter, state: FieldState, byte: u8) -> bool
    ensures { result ≡ ends_field delimiter state byte }
{
    match delimiter {
        Delimiter::Blanks => is_plain(state) && is_blank(byte),
        Delimiter::Byte(delimiter) => byte == delimiter,
        Delimiter::Csv(delimiter) => !is_quoted(state) && byte == delimiter,
    }
}

/// The place behind a byte of a field of CSV.
pub(crate) fn csv_state(state: FieldState, byte: u8) -> FieldState
    ensures { result ≡ csv_state state byte }
{
    match state {
        FieldState::Front => if byte == b'"' {
            FieldState::Quoted
        } else {
            FieldState::Plain
        },
        FieldState::Plain => FieldState::Plain,
        FieldState::Quoted => if byte == b'"' {
            FieldState::AfterQuote
        } else {
            FieldState::Quoted
        },
        FieldState::AfterQuote => if byte == b'"' {
            FieldState::Quoted
        } else {
            FieldState::Plain
        },
    }
}

/// How many bytes are in front of the first one like this; all of them where there is none.
#[inline(never)]
pub(crate) fn bytes_before(byte: u8, text: &[u8]) -> usize
    ensures { result ≡ field_length (Byte byte) Front text.now }
{
    match memchr(byte, text) {
        Some(n) => n,
        None => text.len(),
    }
}

/// How many bytes are in front of the first blank; all of them where there is none.
#[inline(never)]
fn word_length(text: &[u8]) -> usize
    ensures { result ≡ field_length Blanks Plain text.now }
{
    match memchr3(b' ', b'\t', b'\n', text) {
        Some(n) => n,
        None => text.len(),
    }
}

/// How long the first field of a line is that blanks end.
fn blank_field_length(line: &[u8]) -> usize
    ensures { result ≡ field_length Blanks Front line.now }
{
    let (before, word) = line.split_at(blanks_before(line));
    before.len() + word_length(word)
}

/// How many bytes of a field of CSV stand at this place, and change nothing of it.
pub(crate) fn unchanging_length(delimiter: u8, state: FieldState, text: &[u8]) -> usize
    ensures within { result ≤ length text.now }
    ensures field { field_length (Csv delimiter) state text.now
        ≡ result + field_length (Csv delimiter) state (drop result text.now) }
    ensures state { state_behind (Csv delimiter) state text.now
        ≡ state_behind (Csv delimiter) state (drop result text.now) }
{
    match state {
        FieldState::Front | FieldState::AfterQuote => 0,
        FieldState::Plain => bytes_before(delimiter, text),
        FieldState::Quoted => bytes_before(b'"', text),
    }
}

/// How long the first field of a record of CSV is.
#[inline(never)]
fn csv_field_length(delimiter: u8, line: &[u8]) -> usize
    ensures { result ≡ field_length (Csv delimiter) Front line.now }
{
    let mut state = FieldState::Front;
    let mut length = 0;
    while length < line.len() && !ends_field(Delimiter::Csv(delimiter), state, line[length]) {
        state = csv_state(state, line[length]);
        length += 1;
        length += unchanging_length(delimiter, state, &line[length..]);
    }
    length
}

/// How long the first field of a record is.
pub(crate) fn field_length(delimiter: Delimiter, line: &[u8]) -> usize
    ensures { result ≡ field_length delimiter Front line.now }
{
    match delimiter {
        Delimiter::Blanks => blank_field_length(line),
        Delimiter::Byte(delimiter) => bytes_before(delimiter, line),
        Delimiter::Csv(delimiter) => csv_field_length(delimiter, line),
    }
}

/// How many blanks are in front of a text.
pub(crate) fn blanks_before(text: &[u8]) -> usize
    ensures { result ≡ blanks_before text.now }
{
    let mut length = 0;
    while length < text.len() && is_blank(text[length]) {
        length += 1;
    }
    length
}

/// How long a text is without the blanks behind it.
pub(crate) fn content_length(text: &[u8]) -> usize
    ensures { result ≡ content_length text.now }
{
    let mut length = text.len();
    while length > 0 && is_blank_behind(text[length - 1]) {
        length -= 1;
    }
    length
}
