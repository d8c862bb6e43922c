//! What holds of all that is read. The functions do nothing: each is its contract.

ghost use Rattle.icu_decimal_reading.specs.CompactReadingLaws.{OneCompactReading, ReadCompactIsWritten, ShownCompactIsRead, WrittenCompactIsRead};
ghost use Rattle.icu_decimal_reading.specs.ReadingLaws.{OneReading, ReadIsWritten, WrittenIsRead};

/// A text of a readable formatter, with its groups or with none, is the text of one decimal: of one
/// sign, range and list of digits.
// promise: A readable text, grouped or not, is of one decimal.
pub fn one_reading()
    ensures { OneReading }
{}

/// What a readable formatter writes of a decimal, with its groups or with none, is read as this
/// decimal, or memory runs out.
// promise: What a readable formatter writes is read back.
pub fn written_is_read()
    ensures { WrittenIsRead }
{}

/// What is read of a text is written again in the same bytes, with the formatter's groups or with
/// none. The formatter needs not be readable.
// promise: What is read is written again in the same bytes.
pub fn read_is_written()
    ensures { ReadIsWritten }
{}

/// A text of a readable compact formatter is the text of one number: of one sign, one significand,
/// in range and every digit, and one exponent.
// promise: A readable compact text is of one number.
pub fn one_compact_reading()
    ensures { OneCompactReading }
{}

/// What a readable compact formatter writes is read back, or memory runs out: what
/// `format_with_exponent` writes as the significand and the exponent that were given, and what
/// `format` writes as the significand and the exponent that are shown.
// promise: What a readable compact formatter writes is read back.
pub fn written_compact_is_read()
    ensures given { WrittenCompactIsRead }
    ensures nearest { ShownCompactIsRead }
{}

/// What is read of a text as a compact number is accepted by `format_with_exponent`, and written
/// again in the same bytes. The formatter needs not be readable.
// promise: What is read as compact is written again in the same bytes.
pub fn read_compact_is_written()
    ensures { ReadCompactIsWritten }
{}
