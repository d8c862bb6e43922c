//! What formatters of money, percents and units write for a number.

use crate::decimal::spelled::held;
use crate::dimension_faults::Fault;
use crate::dimension_making::decimal;
use fixed_decimal::Decimal;
use icu_decimal::error::FormatError;
use icu_decimal_interface::AbstractFormatter;
use icu_dimension::{
    CompactCurrencyFormatter, CurrencyFormatter, LongCurrencyFormatter, PercentFormatter,
    UnitsFormatter,
};
use std::alloc::Global;
use writeable::PartsText;

/// What all these formatters do.
pub(crate) trait NumberWriter {
    fn write_number(
        &self,
        alloc: Global,
        number: &Decimal,
        sink: &mut PartsText,
    ) -> Result<(), FormatError>;

    fn number_text(&self, alloc: Global, number: &Decimal) -> Result<String, FormatError>;
}

impl<F: AbstractFormatter> NumberWriter for CurrencyFormatter<F> {
    fn write_number(
        &self,
        alloc: Global,
        number: &Decimal,
        sink: &mut PartsText,
    ) -> Result<(), FormatError> {
        self.write(alloc, number, sink)
    }

    fn number_text(&self, alloc: Global, number: &Decimal) -> Result<String, FormatError> {
        self.write_to_string(alloc, number)
    }
}

impl<F: AbstractFormatter> NumberWriter for PercentFormatter<F> {
    fn write_number(
        &self,
        alloc: Global,
        number: &Decimal,
        sink: &mut PartsText,
    ) -> Result<(), FormatError> {
        self.write(alloc, number, sink)
    }

    fn number_text(&self, alloc: Global, number: &Decimal) -> Result<String, FormatError> {
        self.write_to_string(alloc, number)
    }
}

impl<F: AbstractFormatter> NumberWriter for UnitsFormatter<F> {
    fn write_number(
        &self,
        alloc: Global,
        number: &Decimal,
        sink: &mut PartsText,
    ) -> Result<(), FormatError> {
        self.write(alloc, number, sink)
    }

    fn number_text(&self, alloc: Global, number: &Decimal) -> Result<String, FormatError> {
        self.write_to_string(alloc, number)
    }
}

impl<F: AbstractFormatter> NumberWriter for LongCurrencyFormatter<F> {
    fn write_number(
        &self,
        alloc: Global,
        number: &Decimal,
        sink: &mut PartsText,
    ) -> Result<(), FormatError> {
        self.write(alloc, number, sink)
    }

    fn number_text(&self, alloc: Global, number: &Decimal) -> Result<String, FormatError> {
        self.write_to_string(alloc, number)
    }
}

impl NumberWriter for CompactCurrencyFormatter {
    fn write_number(
        &self,
        alloc: Global,
        number: &Decimal,
        sink: &mut PartsText,
    ) -> Result<(), FormatError> {
        self.write(alloc, number, sink)
    }

    fn number_text(&self, alloc: Global, number: &Decimal) -> Result<String, FormatError> {
        self.write_to_string(alloc, number)
    }
}

/// What is left of a call of `write`: the text and its parts, in front of them an error, or the error
/// alone.
fn left(
    alloc: Global,
    sink: &PartsText,
    written: Result<(), FormatError>,
) -> Result<String, Fault> {
    let text = held(alloc, "", sink)?;
    match written {
        Ok(()) => Ok(text),
        Err(_) if sink.growth_refused() => Err(Fault::OutOfMemory),
        Err(error) if sink.text().is_empty() => Err(error.into()),
        Err(error) => Ok(format!(in alloc; "{error:?} | {text}")?),
    }
}

/// What `write` writes for a number.
fn parts_text<W: NumberWriter>(
    alloc: Global,
    formatter: &W,
    number: &Decimal,
) -> Result<String, Fault> {
    let mut sink = PartsText::new(alloc);
    let written = formatter.write_number(alloc, number, &mut sink);
    left(alloc, &sink, written)
}

/// A text, and what a sink has if that is another one.
fn both_texts(alloc: Global, text: String, sink: &PartsText) -> Result<String, Fault> {
    if sink.text() == text.as_str() {
        Ok(text)
    } else {
        Ok(format!(in alloc; "{text}, but {} in a sink", sink.text())?)
    }
}

/// What `write_to_string` answers for a number, and what `write` writes if that is another text.
pub(crate) fn number_text<W: NumberWriter>(
    alloc: Global,
    formatter: &W,
    number: &Decimal,
) -> Result<String, Fault> {
    let text = formatter.number_text(alloc, number)?;
    let mut sink = PartsText::new(alloc);
    match formatter.write_number(alloc, number, &mut sink) {
        Ok(()) => both_texts(alloc, text, &sink),
        Err(_) => Err(Fault::OutOfMemory),
    }
}

/// Appends what a sink with room for that many events holds in the end; whether that is all.
fn push_beginning<W: NumberWriter>(
    alloc: Global,
    formatter: &W,
    number: &Decimal,
    limit: usize,
    beginnings: &mut String,
) -> Result<bool, Fault> {
    let mut sink = PartsText::with_limit(alloc, limit);
    let written = formatter.write_number(alloc, number, &mut sink);
    beginnings.push_str(sink.text())?;
    match written {
        Ok(()) => Ok(true),
        Err(FormatError::Sink) if !sink.growth_refused() => Ok(false),
        Err(_) => Err(Fault::OutOfMemory),
    }
}

/// What sinks with room for 0, 1, 2 and more events hold in the end, with `,` between them, up to
/// the first that takes all.
fn beginnings<W: NumberWriter>(
    alloc: Global,
    formatter: &W,
    number: &Decimal,
) -> Result<String, Fault> {
    let mut beginnings = String::new(alloc);
    for limit in 0..100 {
        if limit > 0 {
            beginnings.push(',')?;
        }
        if push_beginning(alloc, formatter, number, limit, &mut beginnings)? {
            break;
        }
    }
    Ok(beginnings)
}

/// What a call of a formatter answers for the number of a word.
pub(crate) fn asked<W: NumberWriter>(
    alloc: Global,
    formatter: &W,
    call: &str,
    number: &str,
) -> Result<String, Fault> {
    let number = decimal(alloc, number)?;
    match call {
        "write_to_string" | "try_new_unstable" => number_text(alloc, formatter, &number),
        "write" => parts_text(alloc, formatter, &number),
        "write_limited" => beginnings(alloc, formatter, &number),
        _ => Err(Fault::Unreadable),
    }
}
