//! Calls of `icu_decimal_symbols`. Symbols are spelled by their seven texts with `|` between them:
//! before and behind a negative number, before and behind a positive one, the decimal separator, the
//! grouping separator, the numbering system. Grouping sizes are spelled `3,2,1`: the primary, the
//! secondary, the least count before the last group.

use crate::bytes;
use crate::words::{equal_or_different, said, yes_or_no};
use icu_decimal_data::{
    DecimalSymbolStrsBuilder, DecimalSymbols, DecimalSymbolsStrs, GroupingSizes, SymbolsError,
    SymbolsView,
};
use icu_decimal_readable::are_numbers_readable;
use rows::Documents;
use std::alloc::{AllocError, Global};

/// The builder of the seven texts of an argument.
fn builder_of(text: &str) -> Option<DecimalSymbolStrsBuilder<'_>> {
    let mut texts = text.split('|');
    let builder = DecimalSymbolStrsBuilder {
        minus_sign_prefix: texts.next()?,
        minus_sign_suffix: texts.next()?,
        plus_sign_prefix: texts.next()?,
        plus_sign_suffix: texts.next()?,
        decimal_separator: texts.next()?,
        grouping_separator: texts.next()?,
        numsys: texts.next()?,
    };
    match texts.next() {
        Some(_) => None,
        None => Some(builder),
    }
}

/// The sizes of an argument.
pub(crate) fn sizes_of(text: &str) -> Option<GroupingSizes> {
    let (primary, rest) = text.split_once(',')?;
    let (secondary, min_grouping) = rest.split_once(',')?;
    Some(GroupingSizes {
        primary: primary.parse().ok()?,
        secondary: secondary.parse().ok()?,
        min_grouping: min_grouping.parse().ok()?,
    })
}

/// Seven texts as they are spelled.
fn joined(alloc: Global, texts: [&str; 7]) -> Result<String, AllocError> {
    let mut text = String::new(alloc);
    for (index, piece) in texts.iter().enumerate() {
        if index > 0 {
            text.push('|')?;
        }
        text.push_str(piece)?;
    }
    Ok(text)
}

/// The texts of symbols.
fn spelled(alloc: Global, symbols: &DecimalSymbolsStrs) -> Result<String, AllocError> {
    joined(
        alloc,
        [
            symbols.minus_sign_prefix(),
            symbols.minus_sign_suffix(),
            symbols.plus_sign_prefix(),
            symbols.plus_sign_suffix(),
            symbols.decimal_separator(),
            symbols.grouping_separator(),
            symbols.numsys(),
        ],
    )
}

/// The texts and the sizes of symbols.
fn spelled_with_sizes(alloc: Global, symbols: &DecimalSymbols) -> Result<String, AllocError> {
    let texts = joined(
        alloc,
        [
            symbols.minus_sign_prefix(),
            symbols.minus_sign_suffix(),
            symbols.plus_sign_prefix(),
            symbols.plus_sign_suffix(),
            symbols.decimal_separator(),
            symbols.grouping_separator(),
            symbols.numsys(),
        ],
    )?;
    let sizes = symbols.grouping_sizes;
    format!(in alloc;
        "{texts} {},{},{}",
        sizes.primary, sizes.secondary, sizes.min_grouping
    )
}

/// The texts of a view.
fn spelled_view(alloc: Global, view: SymbolsView<'_>) -> Result<String, AllocError> {
    joined(
        alloc,
        [
            view.minus_sign_prefix(),
            view.minus_sign_suffix(),
            view.plus_sign_prefix(),
            view.plus_sign_suffix(),
            view.decimal_separator(),
            view.grouping_separator(),
            view.numsys(),
        ],
    )
}

/// The texts of a builder.
fn spelled_builder(
    alloc: Global,
    builder: &DecimalSymbolStrsBuilder<'_>,
) -> Result<String, AllocError> {
    joined(
        alloc,
        [
            builder.minus_sign_prefix,
            builder.minus_sign_suffix,
            builder.plus_sign_prefix,
            builder.plus_sign_suffix,
            builder.decimal_separator,
            builder.grouping_separator,
            builder.numsys,
        ],
    )
}

/// The answer of a call that may fail; an error by its name.
fn reported(
    alloc: Global,
    returned: Result<Option<String>, SymbolsError>,
) -> Result<Option<String>, AllocError> {
    match returned {
        Ok(returned) => Ok(returned),
        Err(SymbolsError::OutOfMemory) => Err(AllocError),
        Err(SymbolsError::TooLarge) => said(alloc, "TooLarge"),
        Err(SymbolsError::BadNumberingSystem) => said(alloc, "BadNumberingSystem"),
    }
}

/// The symbols of an argument.
fn symbols_of(alloc: Global, text: &str) -> Result<Option<DecimalSymbolsStrs>, SymbolsError> {
    match builder_of(text) {
        Some(builder) => Ok(Some(builder.build(alloc)?)),
        None => Ok(None),
    }
}

/// The symbols of an argument with the sizes of another.
fn symbols_with_sizes(
    alloc: Global,
    text: &str,
    sizes: &str,
) -> Result<Option<DecimalSymbols>, SymbolsError> {
    match (symbols_of(alloc, text)?, sizes_of(sizes)) {
        (Some(strings), Some(grouping_sizes)) => Ok(Some(DecimalSymbols {
            strings,
            grouping_sizes,
        })),
        _ => Ok(None),
    }
}

fn build(alloc: Global, text: &str) -> Result<Option<String>, SymbolsError> {
    match symbols_of(alloc, text)? {
        Some(symbols) => Ok(Some(spelled(alloc, &symbols)?)),
        None => Ok(None),
    }
}

/// The texts of the builder of symbols, and whether it builds equal ones.
fn builder_from(alloc: Global, text: &str) -> Result<Option<String>, SymbolsError> {
    let Some(symbols) = symbols_of(alloc, text)? else {
        return Ok(None);
    };
    let builder = DecimalSymbolStrsBuilder::from(&symbols);
    let is_equal = equal_or_different(builder.build(alloc)? == symbols);
    let texts = spelled_builder(alloc, &builder)?;
    Ok(Some(format!(in alloc; "{texts} {is_equal}")?))
}

fn texts_eq(alloc: Global, one: &str, other: &str) -> Result<Option<String>, SymbolsError> {
    match (symbols_of(alloc, one)?, symbols_of(alloc, other)?) {
        (Some(one), Some(other)) => Ok(said(alloc, equal_or_different(one == other))?),
        _ => Ok(None),
    }
}

fn eq(
    alloc: Global,
    one: Option<DecimalSymbols>,
    other: Option<DecimalSymbols>,
) -> Result<Option<String>, SymbolsError> {
    match (one, other) {
        (Some(one), Some(other)) => Ok(said(alloc, equal_or_different(one == other))?),
        _ => Ok(None),
    }
}

/// A copy, and whether it is equal.
fn copy(alloc: Global, text: &str, sizes: &str) -> Result<Option<String>, SymbolsError> {
    let Some(symbols) = symbols_with_sizes(alloc, text, sizes)? else {
        return Ok(None);
    };
    let copy = symbols.copy(alloc)?;
    let is_equal = equal_or_different(copy == symbols);
    let copy = spelled_with_sizes(alloc, &copy)?;
    Ok(Some(format!(in alloc; "{copy} {is_equal}")?))
}

fn english(alloc: Global) -> Result<Option<String>, SymbolsError> {
    let symbols = DecimalSymbols::new_en_for_testing(alloc)?;
    Ok(Some(spelled_with_sizes(alloc, &symbols)?))
}

fn as_bytes(alloc: Global, text: &str) -> Result<Option<String>, SymbolsError> {
    match symbols_of(alloc, text)? {
        Some(symbols) => Ok(Some(bytes::spelled(alloc, symbols.as_bytes())?)),
        None => Ok(None),
    }
}

/// What bytes are read as.
fn parse(alloc: Global, bytes: Option<Vec<u8>>) -> Result<Option<String>, AllocError> {
    let Some(bytes) = bytes else {
        return Ok(None);
    };
    match SymbolsView::parse(&bytes) {
        Ok(view) => Ok(Some(spelled_view(alloc, view)?)),
        Err(damaged) => Ok(Some(format!(in alloc; "Damaged {}", damaged.byte)?)),
    }
}

/// The damaged byte of each beginning of bytes, from none of them to all, `read` where it is none.
fn parse_beginnings(alloc: Global, bytes: Option<Vec<u8>>) -> Result<Option<String>, AllocError> {
    let Some(bytes) = bytes else {
        return Ok(None);
    };
    let mut returned = String::new(alloc);
    for len in 0..=bytes.len() {
        let beginning = bytes.get(..len).unwrap_or_default();
        let word = match SymbolsView::parse(beginning) {
            Ok(_) => String::from_str(alloc, "read")?,
            Err(damaged) => format!(in alloc; "{} ", damaged.byte)?,
        };
        returned.push_str(word.as_str())?;
    }
    Ok(Some(returned))
}

/// The ten digits of a text.
fn digits_of(text: &str) -> Option<[char; 10]> {
    let mut digits = ['0'; 10];
    let mut characters = text.chars();
    for digit in &mut digits {
        *digit = characters.next()?;
    }
    match characters.next() {
        Some(_) => None,
        None => Some(digits),
    }
}

/// Whether English symbols with these digits determine their numbers.
fn readable(alloc: Global, digits: &str) -> Result<Option<String>, SymbolsError> {
    let symbols = DecimalSymbols::new_en_for_testing(alloc)?;
    match digits_of(digits) {
        Some(digits) => {
            let is_readable = are_numbers_readable(&symbols, &digits);
            Ok(said(alloc, yes_or_no(is_readable))?)
        }
        None => Ok(None),
    }
}

/// What a call of symbols answers.
fn result_of(
    alloc: Global,
    call: &str,
    arguments: &[String],
) -> Result<Option<String>, SymbolsError> {
    match arguments {
        [] if call == "new_en_for_testing" => english(alloc),
        [text] => match call {
            "build" => build(alloc, text),
            "DecimalSymbolStrsBuilder::from" => builder_from(alloc, text),
            "DecimalSymbolsStrs::as_bytes" => as_bytes(alloc, text),
            "are_numbers_readable" => readable(alloc, text),
            _ => Ok(None),
        },
        [text, other] => match call {
            "DecimalSymbolsStrs::eq" => texts_eq(alloc, text, other),
            "DecimalSymbols::copy" => copy(alloc, text, other),
            _ => Ok(None),
        },
        [one, sizes, other, other_sizes] if call == "DecimalSymbols::eq" => eq(
            alloc,
            symbols_with_sizes(alloc, one, sizes)?,
            symbols_with_sizes(alloc, other, other_sizes)?,
        ),
        _ => Ok(None),
    }
}

/// What a call of symbols or of their bytes answers.
pub(crate) fn returned(
    alloc: Global,
    documents: &Documents,
    call: &str,
    arguments: &[String],
) -> Result<Option<String>, AllocError> {
    match arguments {
        [text, changes @ ..] if call == "SymbolsView::parse" => {
            parse(alloc, bytes::bytes_of(alloc, documents, text, changes)?)
        }
        [text] if call == "SymbolsView::parse_beginnings" => {
            parse_beginnings(alloc, bytes::bytes_of(alloc, documents, text, &[])?)
        }
        _ => reported(alloc, result_of(alloc, call, arguments)),
    }
}
