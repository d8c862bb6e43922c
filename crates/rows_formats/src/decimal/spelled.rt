//! What was written, and errors, as rows spell them.

use crate::CallResult;
use icu_decimal::error::FormatError;
use icu_plurals::{PluralCategory, PluralOperands, PluralRules, RulesError};
use icu_provider::{DataError, DataErrorKind};
use std::alloc::{AllocError, Global};
use std::fmt::Display;
use writeable::{Part, PartsText, Writeable};

/// How many parts are listed at most.
const MOST_LISTED: usize = 20;

/// An answer of fixed words.
pub(crate) fn said(alloc: Global, words: &str) -> CallResult {
    Ok(Some(String::from_str(alloc, words)?))
}

/// What the making of a formatter answers, which takes no words.
pub(crate) fn made(alloc: Global, words: &[String]) -> CallResult {
    match words {
        [] => said(alloc, "made"),
        _ => Ok(None),
    }
}

/// `yes` or `no`.
pub(crate) fn yes_or_no(is_so: bool) -> &'static str {
    if is_so { "yes" } else { "no" }
}

/// The name of a category.
pub(crate) fn name_of(category: PluralCategory) -> &'static str {
    match category {
        PluralCategory::Zero => "zero",
        PluralCategory::One => "one",
        PluralCategory::Two => "two",
        PluralCategory::Few => "few",
        PluralCategory::Many => "many",
        PluralCategory::Other => "other",
    }
}

/// A sink that takes this many events, or any number of them.
pub(crate) fn sink_of(alloc: Global, limit: Option<usize>) -> PartsText {
    match limit {
        Some(limit) => PartsText::with_limit(alloc, limit),
        None => PartsText::new(alloc),
    }
}

/// Appends a part and the bytes at which it starts and ends.
fn push_part(
    alloc: Global,
    spelled: &mut String,
    (start, end, part): (usize, usize, Part),
) -> Result<(), AllocError> {
    let value = part.value;
    let listed = format!(in alloc; " {value} {start}-{end}")?;
    spelled.push_str(listed.as_str())
}

/// Appends parts in their order.
fn push_parts(
    alloc: Global,
    spelled: &mut String,
    spans: &[(usize, usize, Part)],
) -> Result<(), AllocError> {
    for span in spans {
        push_part(alloc, spelled, *span)?;
    }
    Ok(())
}

/// Appends how many parts there are.
fn push_count(alloc: Global, spelled: &mut String, count: usize) -> Result<(), AllocError> {
    let counted = format!(in alloc; " {count} parts")?;
    spelled.push_str(counted.as_str())
}

/// Appends the parts of a sink in the order in which they open, of more than twenty their count.
fn push_spans(alloc: Global, spelled: &mut String, sink: &PartsText) -> Result<(), AllocError> {
    match sink.spans(alloc) {
        Ok(spans) if spans.len() > MOST_LISTED => push_count(alloc, spelled, spans.len()),
        Ok(spans) => push_parts(alloc, spelled, spans.as_slice()),
        Err(_) => Err(AllocError),
    }
}

/// Behind `before`, the text of a sink, and its parts in the order in which they open, each with
/// the bytes at which it starts and ends; of more than twenty their count.
pub(crate) fn held(alloc: Global, before: &str, sink: &PartsText) -> Result<String, AllocError> {
    let mut spelled = format!(in alloc; "{before}{} |", sink.text())?;
    push_spans(alloc, &mut spelled, sink)?;
    Ok(spelled)
}

/// What a sink holds after a call; in front of it stands why the call failed.
pub(crate) fn written(
    alloc: Global,
    sink: &PartsText,
    returned: Result<(), FormatError>,
) -> CallResult {
    match returned {
        Ok(()) => Ok(Some(held(alloc, "", sink)?)),
        Err(FormatError::Overflow) => Ok(Some(held(alloc, "Overflow: ", sink)?)),
        Err(FormatError::OutOfMemory) => Err(AllocError),
        Err(FormatError::Sink) if sink.growth_refused() => Err(AllocError),
        Err(FormatError::Sink) => Ok(Some(held(alloc, "Sink: ", sink)?)),
    }
}

/// What a value leaves in a sink.
fn in_a_sink<V: Writeable>(alloc: Global, value: &V, limit: Option<usize>) -> CallResult {
    let mut sink = sink_of(alloc, limit);
    let returned = match value.write_to_parts(&mut sink) {
        Ok(()) => Ok(()),
        Err(_) => Err(FormatError::Sink),
    };
    written(alloc, &sink, returned)
}

/// Whether a spelled text begins with this text.
fn is_of(spelled: &str, text: &str) -> bool {
    match spelled.strip_prefix(text) {
        Some(rest) => rest.starts_with(" |"),
        None => false,
    }
}

/// A text, and behind it another one with the name of what gave that.
pub(crate) fn followed(alloc: Global, spelled: &str, name: &str, text: &str) -> CallResult {
    Ok(Some(format!(in alloc; "{spelled} | {name} {text}")?))
}

/// An answer, and behind it a text that isn't the answer's, with the name of what gave it.
fn with_other(alloc: Global, returned: CallResult, name: &str, text: &str) -> CallResult {
    match returned? {
        Some(spelled) if is_of(spelled.as_str(), text) => Ok(Some(spelled)),
        Some(spelled) => followed(alloc, spelled.as_str(), name, text),
        None => Ok(None),
    }
}

/// What a value leaves in a sink. If the sink has no limit, the value is displayed too, and what
/// differs stands behind it.
pub(crate) fn value<V: Writeable + Display>(
    alloc: Global,
    value: &V,
    limit: Option<usize>,
) -> CallResult {
    let returned = in_a_sink(alloc, value, limit);
    if limit.is_some() {
        return returned;
    }
    let displayed = value.to_string(alloc)?;
    with_other(alloc, returned, "displayed", displayed.as_str())
}

/// The name of an error of a number.
pub(crate) fn no_number(alloc: Global, error: FormatError) -> CallResult {
    match error {
        FormatError::OutOfMemory => Err(AllocError),
        FormatError::Overflow => said(alloc, "Overflow"),
        FormatError::Sink => said(alloc, "Sink"),
    }
}

/// A text, or the name of why there is none.
pub(crate) fn text(alloc: Global, text: Result<String, FormatError>) -> CallResult {
    match text {
        Ok(text) => Ok(Some(text)),
        Err(error) => no_number(alloc, error),
    }
}

/// An answer, and behind it the text of `format_to_string` if it is another one. If the sink has a
/// limit, the text isn't compared.
pub(crate) fn with_text(
    alloc: Global,
    returned: CallResult,
    text: Result<String, FormatError>,
    limit: Option<usize>,
) -> CallResult {
    match text {
        Ok(_) if limit.is_some() => returned,
        Ok(text) => with_other(alloc, returned, "format_to_string", text.as_str()),
        Err(FormatError::OutOfMemory) => Err(AllocError),
        Err(FormatError::Overflow) => same_error(alloc, returned, "Overflow"),
        Err(FormatError::Sink) => same_error(alloc, returned, "Sink"),
    }
}

/// An answer that is an error's name, and else the name behind it.
fn same_error(alloc: Global, returned: CallResult, name: &str) -> CallResult {
    match returned? {
        Some(spelled) if spelled.as_str() == name => Ok(Some(spelled)),
        Some(spelled) => followed(alloc, spelled.as_str(), "format_to_string", name),
        None => Ok(None),
    }
}

/// The name of an error of a provider.
pub(crate) fn no_data(alloc: Global, error: DataError) -> CallResult {
    match error.kind {
        DataErrorKind::OutOfMemory => Err(AllocError),
        DataErrorKind::IdentifierNotFound => said(alloc, "IdentifierNotFound"),
        DataErrorKind::MarkerNotFound => said(alloc, "MarkerNotFound"),
        DataErrorKind::InvalidRequest => said(alloc, "InvalidRequest"),
        DataErrorKind::Custom => said(alloc, "Custom"),
    }
}

/// Whether a condition of plural rules holds of operands; `no condition` if it is none.
pub(crate) fn held_of(
    alloc: Global,
    condition: &str,
    operands: PluralOperands,
) -> Result<&'static str, AllocError> {
    match PluralRules::from_rules(alloc, &[(PluralCategory::One, condition)]) {
        Ok(rules) => Ok(yes_or_no(rules.category_for(operands) == PluralCategory::One)),
        Err(RulesError::OutOfMemory) => Err(AllocError),
        Err(_) => Ok("no condition"),
    }
}

/// An answer, and behind it whether a condition holds.
pub(crate) fn with_condition(alloc: Global, returned: CallResult, held: &str) -> CallResult {
    match returned? {
        Some(spelled) => Ok(Some(format!(in alloc; "{spelled} | {held}")?)),
        None => Ok(None),
    }
}
