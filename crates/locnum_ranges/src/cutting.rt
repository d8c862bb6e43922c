//! Where fields end, and what of them is a number.

ghost use Rattle.std.specs.Prelude.{◌≡◌, ◌<◌, ◌∷◌, IfSome, length, option_map};
ghost use Rattle.locnum_lines.specs.Fields.{blanks_before, content_length, is_blank, is_blank_behind};
ghost use Rattle.locnum_ranges.specs.Fields.{csv_place, ends_field, field_length, fields_in, fields_of_rest, is_plain, is_quoted, next_place};
ghost use Rattle.locnum_ranges.specs.declared.cutting.Place.TheVariants.{Front};

use locnum_lines::Delimiter;

/// Where in a field a byte stands, by the bytes in front of it.
#[derive(Clone, Copy, Debug, PartialEq, Eq)]
pub(crate) enum Place {
    /// In front of all of it but blanks.
    Front,
    /// In it, outside of quotes.
    Plain,
    /// Between its quotes.
    Quoted,
    /// Behind a quote between its quotes, which ends them unless another follows.
    AfterQuote,
}

/// The first field of a record, the byte that ends it, if one does, and the rest behind that byte.
#[derive(Clone, Copy)]
pub(crate) struct FirstField<'a> {
    /// The field.
    pub(crate) text: &'a [u8],
    /// The byte that ends it, or nothing.
    pub(crate) behind: &'a [u8],
    /// What is behind this byte, if there is one.
    pub(crate) rest: Option<&'a [u8]>,
}

/// Whether a byte is a space, a tab or a line feed.
fn is_blank(byte: u8) -> bool
    ensures { result ≡ is_blank byte }
{
    byte == b' ' || byte == b'\t' || byte == b'\n'
}

/// Whether a byte is a blank or a carriage return.
fn is_blank_behind(byte: u8) -> bool
    ensures { result ≡ is_blank_behind byte }
{
    byte == b' ' || byte == b'\t' || byte == b'\n' || byte == b'\r'
}

/// Whether a place is in a field, outside of quotes.
fn is_plain(place: Place) -> bool
    ensures { result ≡ is_plain place }
{
    match place {
        Place::Plain => true,
        Place::Front | Place::Quoted | Place::AfterQuote => false,
    }
}

/// Whether a place is between quotes.
fn is_quoted(place: Place) -> bool
    ensures { result ≡ is_quoted place }
{
    match place {
        Place::Quoted => true,
        Place::Front | Place::Plain | Place::AfterQuote => false,
    }
}

/// Whether a byte at this place ends its field.
fn ends_field(delimiter: Delimiter, place: Place, byte: u8) -> bool
    ensures { result ≡ ends_field delimiter place byte }
{
    match delimiter {
        Delimiter::Blanks => is_plain(place) && is_blank(byte),
        Delimiter::Byte(delimiter) => byte == delimiter,
        Delimiter::Csv(delimiter) => !is_quoted(place) && byte == delimiter,
    }
}

/// The place behind a byte of a field of CSV.
pub(crate) fn csv_place(place: Place, byte: u8) -> Place
    ensures { result ≡ csv_place place byte }
{
    match place {
        Place::Front => if byte == b'"' {
            Place::Quoted
        } else {
            Place::Plain
        },
        Place::Plain => Place::Plain,
        Place::Quoted => if byte == b'"' {
            Place::AfterQuote
        } else {
            Place::Quoted
        },
        Place::AfterQuote => if byte == b'"' {
            Place::Quoted
        } else {
            Place::Plain
        },
    }
}

/// The place behind a byte that its field goes on with.
fn next_place(delimiter: Delimiter, place: Place, byte: u8) -> Place
    ensures { result ≡ next_place delimiter place byte }
{
    match delimiter {
        Delimiter::Blanks => if is_blank(byte) { place } else { Place::Plain },
        Delimiter::Byte(_) => Place::Plain,
        Delimiter::Csv(_) => csv_place(place, byte),
    }
}

/// How long the first field of a record is.
fn field_length(delimiter: Delimiter, line: &[u8]) -> usize
    ensures { result ≡ field_length delimiter Front line.now }
{
    let mut place = Place::Front;
    let mut length = 0;
    while length < line.len() && !ends_field(delimiter, place, line[length]) {
        place = next_place(delimiter, place, line[length]);
        length += 1;
    }
    length
}

/// The first field of a record, and the rest behind the byte that ends it, unless it is the last.
pub(crate) fn first_field(delimiter: Delimiter, line: &[u8]) -> FirstField<'_>
    ensures fields { fields_in delimiter line.now
        ≡ record { text = result.text.now; behind = result.behind.now }
        ∷ fields_of_rest delimiter (option_map (λ s. s.now) result.rest) }
    ensures shorter { IfSome result.rest (λ rest. length rest.now < length line.now) }
{
    let (text, behind) = line.split_at(field_length(delimiter, line));
    if behind.is_empty() {
        return FirstField {
            text,
            behind,
            rest: None,
        };
    }
    let (behind, rest) = behind.split_at(1);
    FirstField {
        text,
        behind,
        rest: Some(rest),
    }
}

/// How many blanks are in front of a text.
pub(crate) fn blanks_before(text: &[u8]) -> usize
    ensures { result ≡ blanks_before text.now }
{
    let mut length = 0;
    while length < text.len() && is_blank(text[length]) {
        length += 1;
    }
    length
}

/// How long a text is without the blanks behind it.
pub(crate) fn content_length(text: &[u8]) -> usize
    ensures { result ≡ content_length text.now }
{
    let mut length = text.len();
    while length > 0 && is_blank_behind(text[length - 1]) {
        length -= 1;
    }
    length
}
