//! Calls of `CldrPattern` and `SignedPattern`.
//!
//! Texts are the minus sign, the plus sign, the percent sign and a currency's symbol, as `-|+|%|$`.

use crate::decimal::spelled::held;
use crate::dimension_faults::{Fault, said, yes_or_no};
use crate::dimension_making::sign_of;
use fixed_decimal::Sign;
use icu_dimension_data::{AffixTexts, CldrPattern, SignedPattern, SignedPatterns};
use std::alloc::{AllocError, Global};
use writeable::{ASCII_DIGITS, PartsText, Writeable};

/// The texts of a word.
pub(crate) fn texts_of(word: &str) -> Result<AffixTexts<'_>, Fault> {
    let mut texts = word.split('|');
    Ok(AffixTexts {
        minus_sign: texts.next().ok_or(Fault::Unreadable)?,
        plus_sign: texts.next().ok_or(Fault::Unreadable)?,
        percent_sign: texts.next().ok_or(Fault::Unreadable)?,
        currency: texts.next().ok_or(Fault::Unreadable)?,
    })
}

/// The patterns of a text with other texts in it.
fn patterns_of(alloc: Global, pattern: &str, texts: &str) -> Result<SignedPatterns, Fault> {
    let texts = texts_of(texts)?;
    let pattern = CldrPattern::parse(alloc, pattern)?;
    Ok(pattern.resolve(alloc, &texts, &ASCII_DIGITS)?)
}

/// What a copy of a pattern is resolved to.
fn resolved_copy(
    alloc: Global,
    pattern: &CldrPattern,
    texts: &AffixTexts<'_>,
) -> Result<SignedPatterns, Fault> {
    let copy = pattern.copy(alloc)?;
    Ok(copy.resolve(alloc, texts, &ASCII_DIGITS)?)
}

/// Patterns and a sign.
type Around<'a> = (&'a SignedPatterns, Sign);

/// The pattern of the sign.
fn pattern_of<'a>((patterns, sign): Around<'a>) -> SignedPattern<'a> {
    patterns.for_sign(sign)
}

/// A number in a pattern, as it is displayed.
fn displayed(alloc: Global, around: Around<'_>, number: &str) -> Result<String, AllocError> {
    format!(in alloc; "{}", pattern_of(around).interpolate(number))
}

/// The same under a width and a fill, which change nothing.
fn displayed_wide(alloc: Global, around: Around<'_>, number: &str) -> Result<String, AllocError> {
    format!(in alloc; "{:*^80}", pattern_of(around).interpolate(number))
}

/// A number in the pattern with one place that is made of a pattern.
fn flat_text(alloc: Global, around: Around<'_>, number: &str) -> Result<String, Fault> {
    let flat = pattern_of(around).to_pattern(alloc)?;
    Ok(flat.interpolate(number).write_to_string(alloc)?)
}

/// A text, and another one if it isn't the same.
fn unless_same(
    alloc: Global,
    text: String,
    how: &str,
    other: Result<String, Fault>,
) -> Result<String, Fault> {
    let other = other?;
    if other.as_str() == text.as_str() {
        Ok(text)
    } else {
        Ok(format!(in alloc; "{text}, but {how} {other}")?)
    }
}

/// The text of a value that needs memory.
fn made(text: Result<String, AllocError>) -> Result<String, Fault> {
    Ok(text?)
}

/// A number in the pattern of a sign: written, displayed, and in the pattern with one place.
fn text_of(
    alloc: Global,
    patterns: &SignedPatterns,
    sign: Sign,
    number: &str,
) -> Result<String, Fault> {
    let around = (patterns, sign);
    let text = pattern_of(around)
        .interpolate(number)
        .write_to_string(alloc)?;
    let text = unless_same(
        alloc,
        text,
        "displayed",
        made(displayed(alloc, around, number)),
    )?;
    let wide = made(displayed_wide(alloc, around, number));
    let text = unless_same(alloc, text, "under a width", wide)?;
    unless_same(
        alloc,
        text,
        "with one place",
        flat_text(alloc, around, number),
    )
}

/// A number without a sign, with a minus and with a plus.
fn of_signs(alloc: Global, patterns: &SignedPatterns, number: &str) -> Result<String, Fault> {
    let mut text = text_of(alloc, patterns, Sign::None, number)?;
    for sign in [Sign::Negative, Sign::Positive] {
        text.push_str(" | ")?;
        text.push_str(text_of(alloc, patterns, sign, number)?.as_str())?;
    }
    Ok(text)
}

/// The same by a copy of patterns.
fn of_copy(alloc: Global, patterns: &SignedPatterns, number: &str) -> Result<String, Fault> {
    let copy = patterns.copy(alloc)?;
    of_signs(alloc, &copy, number)
}

/// The same by a copy of the pattern that was read.
fn of_copied_pattern(
    alloc: Global,
    pattern: &CldrPattern,
    texts: &AffixTexts<'_>,
    number: &str,
) -> Result<String, Fault> {
    let patterns = resolved_copy(alloc, pattern, texts)?;
    of_signs(alloc, &patterns, number)
}

/// A number in the pattern of each sign, also by a copy of the patterns.
fn of_patterns(alloc: Global, patterns: &SignedPatterns, number: &str) -> Result<String, Fault> {
    let text = of_signs(alloc, patterns, number)?;
    unless_same(alloc, text, "by a copy", of_copy(alloc, patterns, number))
}

/// The same for a pattern with these texts.
fn of_resolved(
    alloc: Global,
    pattern: &CldrPattern,
    texts: &AffixTexts<'_>,
    number: &str,
) -> Result<String, Fault> {
    let patterns = pattern.resolve(alloc, texts, &ASCII_DIGITS)?;
    of_patterns(alloc, &patterns, number)
}

/// A number in the pattern of each sign, also by copies.
fn interpolate(alloc: Global, pattern: &str, texts: &str, number: &str) -> Result<String, Fault> {
    let texts = texts_of(texts)?;
    let pattern = CldrPattern::parse(alloc, pattern)?;
    let text = of_resolved(alloc, &pattern, &texts, number)?;
    let copied = of_copied_pattern(alloc, &pattern, &texts, number);
    unless_same(alloc, text, "by a copied pattern", copied)
}

/// What a call of the patterns of a text answers for a sign and a word.
fn by_text(
    alloc: Global,
    (pattern, texts): (&str, &str),
    call: &str,
    (sign, word): (&str, &str),
) -> Result<String, Fault> {
    let patterns = patterns_of(alloc, pattern, texts)?;
    of_pattern(alloc, &patterns, call, (sign, word))
}

/// A number in a pattern with its parts.
fn parts_text(alloc: Global, around: Around<'_>, number: &str) -> Result<String, Fault> {
    let mut sink = PartsText::new(alloc);
    pattern_of(around)
        .interpolate(number)
        .write_to_parts(&mut sink)?;
    Ok(held(alloc, "", &sink)?)
}

/// Appends what a sink with room for that many events holds in the end; whether that is all.
fn push_beginning(
    alloc: Global,
    around: Around<'_>,
    number: &str,
    limit: usize,
    beginnings: &mut String,
) -> Result<bool, Fault> {
    let mut sink = PartsText::with_limit(alloc, limit);
    let written = pattern_of(around)
        .interpolate(number)
        .write_to_parts(&mut sink);
    beginnings.push_str(sink.text())?;
    if sink.growth_refused() {
        return Err(Fault::OutOfMemory);
    }
    Ok(written.is_ok())
}

/// What sinks with room for 0, 1, 2 and more events hold in the end, with `,` between them, up to
/// the first that takes all.
fn beginnings(alloc: Global, around: Around<'_>, number: &str) -> Result<String, Fault> {
    let mut beginnings = String::new(alloc);
    for limit in 0..100 {
        if limit > 0 {
            beginnings.push(',')?;
        }
        if push_beginning(alloc, around, number, limit, &mut beginnings)? {
            break;
        }
    }
    Ok(beginnings)
}

/// The patterns of permilles for a pattern of percents, with other texts in them.
fn permilles_of(alloc: Global, pattern: &str, texts: &str) -> Result<SignedPatterns, Fault> {
    let texts = texts_of(texts)?;
    let pattern = CldrPattern::parse(alloc, pattern)?;
    let permilles = pattern.permilles(alloc)?;
    Ok(permilles.resolve(alloc, &texts, &ASCII_DIGITS)?)
}

/// A number of permilles in a pattern of percents with its parts.
fn permilles(
    alloc: Global,
    (pattern, texts): (&str, &str),
    sign: &str,
    number: &str,
) -> Result<String, Fault> {
    let sign = sign_of(sign)?;
    let patterns = permilles_of(alloc, pattern, texts)?;
    parts_text(alloc, (&patterns, sign), number)
}

/// The characters of a word.
fn characters_of(alloc: Global, word: &str) -> Result<Vec<char>, Fault> {
    let mut characters = Vec::new(alloc);
    for character in word.chars() {
        characters.push(character)?;
    }
    Ok(characters)
}

/// Whether none of the characters of a word stand around numbers.
fn has_none_of(alloc: Global, around: Around<'_>, word: &str) -> Result<String, Fault> {
    let listed = characters_of(alloc, word)?;
    yes_or_no(alloc, pattern_of(around).has_none_of(&listed))
}

/// What a call of a pattern answers for a word.
fn of_pattern(
    alloc: Global,
    patterns: &SignedPatterns,
    call: &str,
    (sign, word): (&str, &str),
) -> Result<String, Fault> {
    let around = (patterns, sign_of(sign)?);
    match call {
        "write_to_parts" => parts_text(alloc, around, word),
        "write_limited" => beginnings(alloc, around, word),
        "to_pattern" => flat_text(alloc, around, "{0}"),
        "has_none_of" => has_none_of(alloc, around, word),
        _ => Err(Fault::Unreadable),
    }
}

/// Whether a pattern puts the same characters around numbers as another one.
fn has_those_of(
    alloc: Global,
    around: Around<'_>,
    (other_pattern, other_texts, other_sign): (&str, &str, &str),
) -> Result<String, Fault> {
    let other_sign = sign_of(other_sign)?;
    let other = patterns_of(alloc, other_pattern, other_texts)?;
    let other = other.for_sign(other_sign);
    yes_or_no(alloc, pattern_of(around).has_same_characters(&other))
}

/// Whether two patterns put the same characters around numbers.
fn has_same_characters(
    alloc: Global,
    (pattern, texts, sign): (&str, &str, &str),
    (other_pattern, other_texts, other_sign): (&str, &str, &str),
) -> Result<String, Fault> {
    let sign = sign_of(sign)?;
    let one = patterns_of(alloc, pattern, texts)?;
    has_those_of(
        alloc,
        (&one, sign),
        (other_pattern, other_texts, other_sign),
    )
}

/// A number in a pattern that stands in another one, with its parts.
fn nested(
    alloc: Global,
    outer: &SignedPatterns,
    inner: &SignedPatterns,
    number: &str,
) -> Result<String, Fault> {
    let mut sink = PartsText::new(alloc);
    let value = inner.for_sign(Sign::None).interpolate(number);
    outer
        .for_sign(Sign::None)
        .interpolate(value)
        .write_to_parts(&mut sink)?;
    Ok(held(alloc, "", &sink)?)
}

/// The same for the texts of the inner pattern.
fn within(
    alloc: Global,
    outer: &SignedPatterns,
    (inner, inner_texts): (&str, &str),
    number: &str,
) -> Result<String, Fault> {
    let inner = patterns_of(alloc, inner, inner_texts)?;
    nested(alloc, outer, &inner, number)
}

/// The same for texts of both patterns.
fn write_nested(
    alloc: Global,
    (outer, outer_texts): (&str, &str),
    (inner, inner_texts): (&str, &str),
    number: &str,
) -> Result<String, Fault> {
    let outer = patterns_of(alloc, outer, outer_texts)?;
    within(alloc, &outer, (inner, inner_texts), number)
}

/// Whether a text is read as a pattern.
pub(crate) fn parse(alloc: Global, text: &str) -> Result<String, Fault> {
    match CldrPattern::parse(alloc, text) {
        Ok(_) => said(alloc, "read"),
        Err(fault) => Err(fault.into()),
    }
}

/// What a call of patterns answers.
pub(crate) fn returned(alloc: Global, call: &str, arguments: &[String]) -> Result<String, Fault> {
    match arguments {
        [text] if call == "parse" => parse(alloc, text),
        [pattern, texts, word] => match call {
            "interpolate" => interpolate(alloc, pattern, texts, word),
            "to_pattern" => by_text(alloc, (pattern, texts), call, (word, "")),
            _ => Err(Fault::Unreadable),
        },
        [pattern, texts, sign, word] if call == "permilles" => {
            permilles(alloc, (pattern, texts), sign, word)
        }
        [pattern, texts, sign, word] => by_text(alloc, (pattern, texts), call, (sign, word)),
        [outer, outer_texts, inner, inner_texts, number] if call == "write_nested" => {
            write_nested(alloc, (outer, outer_texts), (inner, inner_texts), number)
        }
        [one, texts, sign, other, other_texts, other_sign] if call == "has_same_characters" => {
            has_same_characters(alloc, (one, texts, sign), (other, other_texts, other_sign))
        }
        _ => Err(Fault::Unreadable),
    }
}
