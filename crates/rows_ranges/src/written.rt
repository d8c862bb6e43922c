//! What is written for a range.

use crate::faults::Fault;
use icu_decimal::error::FormatError;
use icu_decimal_interface::AbstractFormatter;
use icu_ranges::{
    CurrencyRangeFormatter, DecimalRange, NumberRangeFormatter, PercentRangeFormatter,
};
use icu_unit_ranges::{LongCurrencyRangeFormatter, UnitsRangeFormatter};
use std::alloc::{AllocError, Global};
use std::str;
use writeable::{Part, PartsText};

/// What all formatters of ranges do.
pub(crate) trait RangeWriter {
    fn write_bytes(
        &self,
        alloc: Global,
        range: &DecimalRange,
        out: &mut Vec<u8>,
    ) -> Result<(), FormatError>;

    fn write_parts(
        &self,
        alloc: Global,
        range: &DecimalRange,
        sink: &mut PartsText,
    ) -> Result<(), FormatError>;

    fn range_text(&self, alloc: Global, range: &DecimalRange) -> Result<String, FormatError>;
}

impl<F: AbstractFormatter> RangeWriter for NumberRangeFormatter<F> {
    fn write_bytes(
        &self,
        alloc: Global,
        range: &DecimalRange,
        out: &mut Vec<u8>,
    ) -> Result<(), FormatError> {
        self.write_into(alloc, range, out)
    }

    fn write_parts(
        &self,
        alloc: Global,
        range: &DecimalRange,
        sink: &mut PartsText,
    ) -> Result<(), FormatError> {
        self.write(alloc, range, sink)
    }

    fn range_text(&self, alloc: Global, range: &DecimalRange) -> Result<String, FormatError> {
        self.write_to_string(alloc, range)
    }
}

impl<F: AbstractFormatter> RangeWriter for CurrencyRangeFormatter<F> {
    fn write_bytes(
        &self,
        alloc: Global,
        range: &DecimalRange,
        out: &mut Vec<u8>,
    ) -> Result<(), FormatError> {
        self.write_into(alloc, range, out)
    }

    fn write_parts(
        &self,
        alloc: Global,
        range: &DecimalRange,
        sink: &mut PartsText,
    ) -> Result<(), FormatError> {
        self.write(alloc, range, sink)
    }

    fn range_text(&self, alloc: Global, range: &DecimalRange) -> Result<String, FormatError> {
        self.write_to_string(alloc, range)
    }
}

impl<F: AbstractFormatter> RangeWriter for PercentRangeFormatter<F> {
    fn write_bytes(
        &self,
        alloc: Global,
        range: &DecimalRange,
        out: &mut Vec<u8>,
    ) -> Result<(), FormatError> {
        self.write_into(alloc, range, out)
    }

    fn write_parts(
        &self,
        alloc: Global,
        range: &DecimalRange,
        sink: &mut PartsText,
    ) -> Result<(), FormatError> {
        self.write(alloc, range, sink)
    }

    fn range_text(&self, alloc: Global, range: &DecimalRange) -> Result<String, FormatError> {
        self.write_to_string(alloc, range)
    }
}

impl<F: AbstractFormatter> RangeWriter for UnitsRangeFormatter<F> {
    fn write_bytes(
        &self,
        alloc: Global,
        range: &DecimalRange,
        out: &mut Vec<u8>,
    ) -> Result<(), FormatError> {
        self.write_into(alloc, range, out)
    }

    fn write_parts(
        &self,
        alloc: Global,
        range: &DecimalRange,
        sink: &mut PartsText,
    ) -> Result<(), FormatError> {
        self.write(alloc, range, sink)
    }

    fn range_text(&self, alloc: Global, range: &DecimalRange) -> Result<String, FormatError> {
        self.write_to_string(alloc, range)
    }
}

impl<F: AbstractFormatter> RangeWriter for LongCurrencyRangeFormatter<F> {
    fn write_bytes(
        &self,
        alloc: Global,
        range: &DecimalRange,
        out: &mut Vec<u8>,
    ) -> Result<(), FormatError> {
        self.write_into(alloc, range, out)
    }

    fn write_parts(
        &self,
        alloc: Global,
        range: &DecimalRange,
        sink: &mut PartsText,
    ) -> Result<(), FormatError> {
        self.write(alloc, range, sink)
    }

    fn range_text(&self, alloc: Global, range: &DecimalRange) -> Result<String, FormatError> {
        self.write_to_string(alloc, range)
    }
}

/// Appends a part and the bytes at which it starts and ends.
fn push_part(
    alloc: Global,
    spelled: &mut String,
    (start, end, part): (usize, usize, Part),
) -> Result<(), AllocError> {
    let value = part.value;
    let listed = format!(in alloc; " {value} {start}-{end}")?;
    spelled.push_str(listed.as_str())
}

/// Appends the parts of a sink.
fn push_spans(alloc: Global, spelled: &mut String, sink: &PartsText) -> Result<(), Fault> {
    let Ok(spans) = sink.spans(alloc) else {
        return Err(Fault::OutOfMemory);
    };
    for span in &spans {
        push_part(alloc, spelled, *span)?;
    }
    Ok(())
}

/// The text and the parts that a sink holds.
fn held(alloc: Global, sink: &PartsText) -> Result<String, Fault> {
    let mut spelled = format!(in alloc; "{} |", sink.text())?;
    push_spans(alloc, &mut spelled, sink)?;
    Ok(spelled)
}

/// What a call left in a sink.
fn left(
    alloc: Global,
    sink: &PartsText,
    written: Result<(), FormatError>,
) -> Result<String, Fault> {
    let text = held(alloc, sink)?;
    match written {
        Ok(()) => Ok(text),
        Err(FormatError::Sink) if sink.growth_refused() => Err(Fault::OutOfMemory),
        Err(error) if sink.text().is_empty() => Err(error.into()),
        Err(error) => Ok(format!(in alloc; "{error:?} | {text}")?),
    }
}

/// What `write` writes into a sink.
fn parts_text<W: RangeWriter>(
    alloc: Global,
    formatter: &W,
    range: &DecimalRange,
) -> Result<String, Fault> {
    let mut sink = PartsText::new(alloc);
    let written = formatter.write_parts(alloc, range, &mut sink);
    left(alloc, &sink, written)
}

/// Appends what a sink with room for that many events holds in the end; whether that is all.
fn push_beginning<W: RangeWriter>(
    alloc: Global,
    formatter: &W,
    range: &DecimalRange,
    limit: usize,
    beginnings: &mut String,
) -> Result<bool, Fault> {
    let mut sink = PartsText::with_limit(alloc, limit);
    let written = formatter.write_parts(alloc, range, &mut sink);
    beginnings.push_str(sink.text())?;
    match written {
        Ok(()) => Ok(true),
        Err(FormatError::Sink) if !sink.growth_refused() => Ok(false),
        Err(_) => Err(Fault::OutOfMemory),
    }
}

/// How many limits are tried at most.
const MOST_LIMITS: usize = 40;

/// What sinks with room for 0, 1, 2 and more events hold in the end, with `,` between them, up to
/// the first that takes all.
fn beginnings<W: RangeWriter>(
    alloc: Global,
    formatter: &W,
    range: &DecimalRange,
) -> Result<String, Fault> {
    let mut beginnings = String::new(alloc);
    for limit in 0..MOST_LIMITS {
        if push_beginning(alloc, formatter, range, limit, &mut beginnings)? {
            return Ok(beginnings);
        }
        beginnings.push_str(",")?;
    }
    Err(Fault::Unreadable)
}

/// What `write_into` writes into a buffer that holds `=`.
fn bytes_text<W: RangeWriter>(
    alloc: Global,
    formatter: &W,
    range: &DecimalRange,
) -> Result<String, Fault> {
    let mut bytes = Vec::from_slice(alloc, b"=")?;
    match formatter.write_bytes(alloc, range, &mut bytes) {
        Err(FormatError::Overflow) if bytes.len() == 1 => Err(Fault::Named("Overflow")),
        Err(_) => Err(Fault::OutOfMemory),
        Ok(()) => match str::from_utf8(&bytes) {
            Ok(text) => Ok(String::from_str(alloc, text)?),
            Err(_) => Err(Fault::Unreadable),
        },
    }
}

/// What a call answers for a range.
pub(crate) fn asked<W: RangeWriter>(
    alloc: Global,
    formatter: &W,
    call: &str,
    range: &DecimalRange,
) -> Result<String, Fault> {
    match call {
        "write_to_string" => Ok(formatter.range_text(alloc, range)?),
        "write" => parts_text(alloc, formatter, range),
        "write_limited" => beginnings(alloc, formatter, range),
        "write_into" => bytes_text(alloc, formatter, range),
        _ => Err(Fault::Unreadable),
    }
}
