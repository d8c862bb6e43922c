//! Calls of `number_ranges`.

use crate::CallResult;
use crate::bytes::{bytes_of, text_of};
use icu_plurals::PluralCategory;
use icu_ranges::{
    PluralRange, PluralRanges, PluralRangesError, RangeIdentityFallback, RangePattern,
    RangePatternError, RangeStyle,
};
use icu_unit_ranges::PluralRangeStyle;
use number_forms::Form;
use number_ranges::{RangeTextError, push_range};
use std::alloc::{AllocError, Global};

/// Two texts, what stands between them, and an entry of categories of ranges, or nothing.
#[derive(Clone, Copy)]
pub(crate) struct AskedRange<'a> {
    pattern: &'a str,
    entries: &'a str,
    start: &'a str,
    end: &'a str,
}

impl<'a> AskedRange<'a> {
    /// What is asked by three words: the pattern, the start and the end.
    pub(crate) fn of(words: &'a [String]) -> Option<AskedRange<'a>> {
        match words {
            [pattern, start, end] => Some(AskedRange {
                pattern: pattern.as_str(),
                entries: "",
                start: start.as_str(),
                end: end.as_str(),
            }),
            _ => None,
        }
    }

    /// What is asked by four words: the pattern, an entry of categories or nothing, the start and
    /// the end.
    pub(crate) fn by_category(words: &'a [String]) -> Option<AskedRange<'a>> {
        match words {
            [pattern, entries, start, end] => Some(AskedRange {
                pattern: pattern.as_str(),
                entries: entries.as_str(),
                start: start.as_str(),
                end: end.as_str(),
            }),
            _ => None,
        }
    }
}

/// Why a range isn't written.
fn not_ranged(alloc: Global, error: RangeTextError) -> CallResult {
    match error {
        RangeTextError::OutOfMemory => Err(AllocError),
        RangeTextError::Start(error) => Ok(Some(format!(in alloc; "Start {error:?}")?)),
        RangeTextError::End(error) => Ok(Some(format!(in alloc; "End {error:?}")?)),
        _ => Ok(Some(format!(in alloc; "{error:?}")?)),
    }
}

/// The category of a name.
fn category_of(name: &str) -> Option<PluralCategory> {
    match name {
        "zero" => Some(PluralCategory::Zero),
        "one" => Some(PluralCategory::One),
        "two" => Some(PluralCategory::Two),
        "few" => Some(PluralCategory::Few),
        "many" => Some(PluralCategory::Many),
        "other" => Some(PluralCategory::Other),
        _ => None,
    }
}

/// The entry of `START,END,RESULT`.
fn entry_of(text: &str) -> Option<PluralRange> {
    let (start, rest) = text.split_once(',')?;
    let (end, result) = rest.split_once(',')?;
    Some(PluralRange {
        start: category_of(start)?,
        end: category_of(end)?,
        result: category_of(result)?,
    })
}

/// The categories of ranges of a text of one entry, or of none.
fn categories_of(alloc: Global, text: &str) -> Result<Option<PluralRanges>, AllocError> {
    if text.is_empty() {
        return Ok(Some(PluralRanges::empty(alloc)));
    }
    let Some(entry) = entry_of(text) else {
        return Ok(None);
    };
    match PluralRanges::try_new(alloc, &[entry]) {
        Ok(ranges) => Ok(Some(ranges)),
        Err(PluralRangesError::OutOfMemory) => Err(AllocError),
        Err(PluralRangesError::RepeatedPair) => Ok(None),
    }
}

/// What `push_range` answers; in front of an error stands what was written anyway.
fn pushed(
    alloc: Global,
    form: &Form,
    style: &PluralRangeStyle<'_>,
    start: &[u8],
    end: &[u8],
) -> CallResult {
    let mut out = Vec::new(alloc);
    match push_range(alloc, form, style, start, end, &mut out) {
        Ok(()) => Ok(Some(text_of(alloc, &out)?)),
        Err(error) if out.is_empty() => not_ranged(alloc, error),
        Err(RangeTextError::OutOfMemory) => Err(AllocError),
        Err(_) => Ok(Some(text_of(alloc, &out)?)),
    }
}

/// What a form writes for a range in a style, by categories.
fn in_style(
    alloc: Global,
    form: &Form,
    style: RangeStyle<'_>,
    plural_ranges: &PluralRanges,
    asked: AskedRange<'_>,
) -> CallResult {
    let (start, end) = (bytes_of(alloc, asked.start)?, bytes_of(alloc, asked.end)?);
    let style = PluralRangeStyle {
        style,
        plural_ranges,
    };
    pushed(alloc, form, &style, &start, &end)
}

/// What a form writes for a range in a style, by the categories that are asked for.
fn by_categories(
    alloc: Global,
    form: &Form,
    style: RangeStyle<'_>,
    asked: AskedRange<'_>,
) -> CallResult {
    match categories_of(alloc, asked.entries)? {
        Some(categories) => in_style(alloc, form, style, &categories, asked),
        None => Ok(None),
    }
}

/// The range pattern of a text, with an approximately sign if there is one.
fn pattern_of(
    alloc: Global,
    text: &str,
    sign: Option<&str>,
) -> Result<Option<RangePattern>, AllocError> {
    let pattern = match RangePattern::parse(alloc, text) {
        Ok(pattern) => pattern,
        Err(RangePatternError::OutOfMemory) => return Err(AllocError),
        Err(RangePatternError::BadRangePattern) => return Ok(None),
    };
    match sign {
        Some(sign) => {
            let sign = String::from_str(alloc, sign)?;
            Ok(Some(pattern.with_approximately_sign(sign)))
        }
        None => Ok(Some(pattern)),
    }
}

/// What a form writes for a range. Behind the pattern may stand an approximately sign, as in
/// `{0}–{1}; ~`: one of two equal texts is then written with it.
pub(crate) fn ranged(alloc: Global, form: &Form, asked: AskedRange<'_>) -> CallResult {
    let (text, sign, fallback) = match asked.pattern.split_once("; ") {
        Some((text, sign)) => (text, Some(sign), RangeIdentityFallback::Approximately),
        None => (asked.pattern, None, RangeIdentityFallback::SingleValue),
    };
    let Some(pattern) = pattern_of(alloc, text, sign)? else {
        return Ok(None);
    };
    let style = RangeStyle {
        pattern: &pattern,
        fallback,
    };
    by_categories(alloc, form, style, asked)
}
