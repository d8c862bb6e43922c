//! Calls of `number_forms`, and what needs a form.

use crate::bytes::{bytes_of, text_of};
use crate::explanations::{Explained, explanation};
use crate::faults::{no_form, not_written};
use crate::lines::{ran, reported};
use crate::options::{parsed, settings_of};
use crate::ranges::{AskedRange, ranged};
use crate::words::{Pair, file_of, given, options_of};
use crate::{CallResult, lines, parts, records};
use decimal_lines::{Mode, TextError};
use fixed_decimal::{Decimal, Sign};
use locnum_lines::LineSettings;
use number_formatters::{Formatter, Settings};
use number_forms::Form;
use rows::Documents;
use std::alloc::{AllocError, Global};

/// What is asked of a form.
#[derive(Clone, Copy)]
pub(crate) enum Question<'a> {
    /// Whether there is one.
    Made,
    /// What it writes for a text.
    Pushed(&'a str),
    /// The same with its parts.
    Marked(&'a str),
    /// The decimal that it writes for a text.
    Decimal(&'a str),
    /// What writes.
    Formatter,
    /// What a run over an input leaves.
    Run(&'a str),
    /// What the report of a run says.
    Report(&'a str),
    /// What it writes for a range.
    Ranged(AskedRange<'a>),
    /// An explanation.
    Explained(Explained<'a>),
}

/// What `Form::push` answers; in front of an error stands what was written anyway.
fn pushed(alloc: Global, form: &Form, text: &[u8]) -> CallResult {
    let mut out = Vec::new(alloc);
    match form.push(alloc, text, &mut out) {
        Ok(()) => Ok(Some(text_of(alloc, &out)?)),
        Err(TextError::OutOfMemory) => Err(AllocError),
        Err(error) if out.is_empty() => not_written(alloc, error),
        Err(_) => Ok(Some(text_of(alloc, &out)?)),
    }
}

/// What `Form::mark` answers.
fn marked(alloc: Global, form: &Form, text: &[u8]) -> CallResult {
    match form.mark(alloc, text) {
        Ok(text) => Ok(Some(parts::spelled(alloc, &text)?)),
        Err(error) => not_written(alloc, error),
    }
}

/// The character of a digit.
fn character_of(digit: u8) -> char {
    char::from(b'0' + digit % 10)
}

/// Appends digits.
fn push_digits(digits: &[u8], text: &mut String) -> Result<(), AllocError> {
    for digit in digits {
        text.push(character_of(*digit))?;
    }
    Ok(())
}

/// A decimal as its sign, its digits and its point.
fn decimal_text(alloc: Global, decimal: &Decimal) -> Result<String, AllocError> {
    let mut text = String::new(alloc);
    match decimal.sign {
        Sign::None => {}
        Sign::Negative => text.push('-')?,
        Sign::Positive => text.push('+')?,
    }
    push_digits(decimal.absolute.integer(), &mut text)?;
    let fraction = decimal.absolute.fraction();
    if !fraction.is_empty() {
        text.push('.')?;
        push_digits(fraction, &mut text)?;
    }
    Ok(text)
}

/// What `Form::decimal` answers.
fn decimal_of(alloc: Global, form: &Form, text: &[u8]) -> CallResult {
    match form.decimal(alloc, text) {
        Ok(decimal) => Ok(Some(decimal_text(alloc, &decimal)?)),
        Err(error) => not_written(alloc, error),
    }
}

/// The name of a formatter.
fn formatter_name(formatter: &Formatter) -> &'static str {
    match formatter {
        Formatter::Numbers(Mode::Plain(_)) => "Numbers Plain",
        Formatter::Numbers(Mode::Compact(_)) => "Numbers Compact",
        Formatter::ShortNumbers(_, _) => "ShortNumbers",
        Formatter::Money(_) => "Money",
        Formatter::MoneyNamed(_) => "MoneyNamed",
        Formatter::MoneyShort(_) => "MoneyShort",
        Formatter::ShortMoney(_, _) => "ShortMoney",
        Formatter::ShortNamed(_, _) => "ShortNamed",
        Formatter::ShortUnits(_, _) => "ShortUnits",
        Formatter::Percent(_) => "Percent",
        Formatter::Units(_) => "Units",
    }
}

/// What a form answers.
fn result_of<'a>(
    alloc: Global,
    form: &Form,
    (options, lines): (&'a [Pair<'a>], &LineSettings),
    question: Question<'_>,
) -> CallResult {
    match question {
        Question::Made => Ok(Some(String::from_str(alloc, "made")?)),
        Question::Pushed(text) => pushed(alloc, form, &bytes_of(alloc, text)?),
        Question::Marked(text) => marked(alloc, form, &bytes_of(alloc, text)?),
        Question::Decimal(text) => decimal_of(alloc, form, &bytes_of(alloc, text)?),
        Question::Formatter => Ok(Some(String::from_str(alloc, formatter_name(form.formatter()))?)),
        Question::Run(input) => ran(alloc, form, lines, &bytes_of(alloc, input)?),
        Question::Report(input) => reported(alloc, form, lines, &bytes_of(alloc, input)?),
        Question::Ranged(asked) => ranged(alloc, form, asked),
        Question::Explained(asked) => explanation(alloc, form, &given(options), asked),
    }
}

/// What a form answers that isn't used any more.
fn last_result_of<'a>(
    alloc: Global,
    form: Form,
    asked: (&'a [Pair<'a>], &LineSettings),
    question: Question<'_>,
) -> CallResult {
    let answer = result_of(alloc, &form, asked, question);
    drop(form);
    answer
}

/// What the form of a file answers. A form is given back by a function of its own, since all that
/// it may hold is gone through there.
fn by_form<'a>(
    alloc: Global,
    settings: &Settings<'_>,
    file: &[u8],
    asked: (&'a [Pair<'a>], &LineSettings),
    question: Question<'_>,
) -> CallResult {
    match Form::of(alloc, settings, file) {
        Ok(form) => last_result_of(alloc, form, asked, question),
        Err(error) => no_form(alloc, error),
    }
}

/// What the form of a file and of options answers.
fn by_options<'a>(
    alloc: Global,
    options: &'a [Pair<'a>],
    file: &[u8],
    question: Question<'_>,
) -> CallResult {
    match settings_of(alloc, options)? {
        Some(settings) => {
            let asked = (options, &settings.lines);
            by_form(alloc, &settings.settings, file, asked, question)
        }
        None => Ok(None),
    }
}

/// The same for the file of a word.
fn by_file<'a>(
    alloc: Global,
    documents: &Documents,
    options: &'a [Pair<'a>],
    word: &str,
    question: Question<'_>,
) -> CallResult {
    match file_of(alloc, documents, word)? {
        Some(file) => by_options(alloc, options, &file, question),
        None => Ok(None),
    }
}

/// What a call asks of a form that has no other word.
fn question_alone<'a>(call: &str) -> Option<Question<'a>> {
    match call {
        "make" => Some(Question::Made),
        "formatter" => Some(Question::Formatter),
        _ => None,
    }
}

/// What a call asks of a form by one word.
fn question_by<'a>(call: &str, word: &'a str) -> Option<Question<'a>> {
    match call {
        "push" => Some(Question::Pushed(word)),
        "mark" => Some(Question::Marked(word)),
        "decimal" => Some(Question::Decimal(word)),
        "run" => Some(Question::Run(word)),
        "report" => Some(Question::Report(word)),
        _ => None,
    }
}

/// What a call asks of a form by these words.
fn question_of<'a>(call: &str, words: &'a [String]) -> Option<Question<'a>> {
    match words {
        [] => question_alone(call),
        [word] => question_by(call, word.as_str()),
        _ if call == "range" => Some(Question::Ranged(AskedRange::of(words)?)),
        _ if call == "plural_range" => Some(Question::Ranged(AskedRange::by_category(words)?)),
        _ => Some(Question::Explained(Explained::of(call, words)?)),
    }
}

/// What a call answers whose arguments end in options.
pub(crate) fn returned(
    alloc: Global,
    documents: &Documents,
    call: &str,
    words: &[String],
    options: &[String],
) -> CallResult {
    let Some(options) = options_of(alloc, options)? else {
        return Ok(None);
    };
    match call {
        "parse_options" => parsed(alloc, words, &options),
        "find" | "is_open" | "behind_mark" | "push_padded" => {
            records::returned(alloc, call, words, &options)
        }
        _ => match words.split_first() {
            Some((file, words)) => match question_of(call, words) {
                Some(question) => by_file(alloc, documents, &options, file.as_str(), question),
                None => Ok(None),
            },
            None => Ok(None),
        },
    }
}
