//! Calls of `decimal_lines`.

use crate::bytes::{bytes_of, push_behind, text_of};
use crate::counts::at_once;
use crate::faults::{displayed, no_tables, not_written};
use crate::options::push_grouping;
use crate::rooms::{Filling, filled};
use crate::words::{file_of, texts_of};
use crate::{CallResult, parts, pieces};
use decimal_lines::{
    Mode, RunError, StartError, TextError, Words, compact_options, format_parts, judge_tables,
    mark_shown, parse_words, plain_options, read_decimal, run,
};
use icu_decimal::options::GroupingStrategy;
use rows::{Documents, SlowReader};
use std::alloc::{AllocError, Global};

/// Appends what words ask for.
fn push_words(alloc: Global, words: &Words<'_>, text: &mut String) -> Result<(), AllocError> {
    text.push_str("path ")?;
    text.push_str(words.path)?;
    text.push_str(" locale ")?;
    text.push_str(words.locale.as_str())?;
    text.push_str(format!(in alloc; " style {:?}", words.style)?.as_str())?;
    let system = match &words.system {
        Some(system) => system.as_str(),
        None => "",
    };
    push_behind(" system ", system.as_bytes(), text)?;
    push_grouping(alloc, words.grouping, text)
}

/// What words ask for.
fn asked_by(alloc: Global, words: &Words<'_>) -> Result<String, AllocError> {
    let mut text = String::new(alloc);
    push_words(alloc, words, &mut text)?;
    Ok(text)
}

/// What `parse_words` answers.
fn words_text(alloc: Global, words: &[String]) -> CallResult {
    match parse_words(&texts_of(alloc, words)?) {
        Some(words) => Ok(Some(asked_by(alloc, &words)?)),
        None => Ok(Some(String::from_str(alloc, "nothing")?)),
    }
}

/// The strategy of a word; `none` is none.
fn strategy_of(word: &str) -> Option<Option<GroupingStrategy>> {
    match word {
        "none" => Some(None),
        "Auto" => Some(Some(GroupingStrategy::Auto)),
        "Never" => Some(Some(GroupingStrategy::Never)),
        _ => None,
    }
}

/// The name of a strategy.
fn strategy_text(alloc: Global, strategy: Option<GroupingStrategy>) -> CallResult {
    match strategy {
        Some(strategy) => Ok(Some(format!(in alloc; "{strategy:?}")?)),
        None => Ok(Some(String::from_str(alloc, "none")?)),
    }
}

/// The strategy that `plain_options` or `compact_options` has for a strategy.
fn strategy_by(call: &str, asked: Option<GroupingStrategy>) -> Option<GroupingStrategy> {
    if call == "plain_options" {
        plain_options(asked).grouping_strategy
    } else {
        compact_options(asked).grouping_strategy
    }
}

/// The strategy that `plain_options` or `compact_options` has for that of a word.
fn options_text(alloc: Global, call: &str, arguments: &[String]) -> CallResult {
    let [word] = arguments else {
        return Ok(None);
    };
    match strategy_of(word.as_str()) {
        Some(asked) => strategy_text(alloc, strategy_by(call, asked)),
        None => Ok(None),
    }
}

/// Whether `judge_tables` accepts a file.
fn judgement(alloc: Global, file: &[u8]) -> CallResult {
    match judge_tables(alloc, file) {
        Ok(()) => Ok(Some(String::from_str(alloc, "accepted")?)),
        Err(fault) => no_tables(alloc, fault),
    }
}

/// What `judge_tables` answers.
fn judged(alloc: Global, documents: &Documents, arguments: &[String]) -> CallResult {
    let [file] = arguments else {
        return Ok(None);
    };
    match file_of(alloc, documents, file.as_str())? {
        Some(file) => judgement(alloc, &file),
        None => Ok(None),
    }
}

/// What is asked of a mode.
#[derive(Clone, Copy)]
enum Question<'a> {
    /// Whether there is one.
    Made,
    /// What `run` writes for an input.
    Run(&'a str),
    /// A text with its parts, by `format_parts` or by `read_decimal` and `mark_shown`.
    Parts(&'a str),
    Shown(&'a str),
    /// What fills a room.
    Filled(Filling<'a>),
}

/// What a run leaves over an input of which that many bytes are read at once.
fn ran_by(alloc: Global, mode: &Mode, bytes: &[u8], at_once: usize) -> Result<String, AllocError> {
    let mut reader = SlowReader {
        bytes,
        good: usize::MAX,
        at_once,
    };
    let mut output = Vec::new(alloc);
    match run(alloc, mode, &mut reader, &mut output) {
        Ok(()) => text_of(alloc, &output),
        Err(RunError::Read) => String::from_str(alloc, "Read"),
        // a `Vec` takes what is written while there is memory
        Err(RunError::Write | RunError::OutOfMemory) => Err(AllocError),
    }
}

/// What `run` leaves, however many bytes are read at once.
fn ran(alloc: Global, mode: &Mode, input: &[u8]) -> CallResult {
    let whole = ran_by(alloc, mode, input, usize::MAX)?;
    for count in at_once(input, &[1]) {
        let text = ran_by(alloc, mode, input, *count)?;
        if text != whole {
            return Ok(Some(format!(in alloc; "{whole}, but by {count} bytes {text}")?));
        }
    }
    Ok(Some(whole))
}

/// A text with its parts, or why there are none.
fn parts_text(alloc: Global, marked: Result<writeable::PartsText, TextError>) -> CallResult {
    match marked {
        Ok(text) => Ok(Some(parts::spelled(alloc, &text)?)),
        Err(error) => not_written(alloc, error),
    }
}

/// What a mode shows for the decimal of a text, with its parts.
fn shown(alloc: Global, mode: &Mode, text: &[u8]) -> CallResult {
    match read_decimal(alloc, text) {
        Ok(decimal) => parts_text(alloc, mark_shown(alloc, mode, &decimal)),
        Err(error) => not_written(alloc, error),
    }
}

/// What a mode answers.
fn result_of(alloc: Global, mode: &Mode, question: Question<'_>) -> CallResult {
    match question {
        Question::Made => Ok(Some(String::from_str(alloc, "made")?)),
        Question::Run(input) => ran(alloc, mode, &bytes_of(alloc, input)?),
        Question::Parts(text) => {
            parts_text(alloc, format_parts(alloc, mode, &bytes_of(alloc, text)?))
        }
        Question::Shown(text) => shown(alloc, mode, &bytes_of(alloc, text)?),
        Question::Filled(filling) => filled(alloc, mode, filling),
    }
}

/// What a mode answers, or why there is none.
fn by_mode(alloc: Global, made: &Result<Mode, StartError>, question: Question<'_>) -> CallResult {
    match made {
        Ok(mode) => result_of(alloc, mode, question),
        Err(StartError::OutOfMemory) => Err(AllocError),
        Err(error) => Ok(Some(format!(in alloc; "{error:?}")?)),
    }
}

/// What the mode of words and of a file answers.
fn by_words(alloc: Global, words: &[&str], file: &[u8], question: Question<'_>) -> CallResult {
    match parse_words(words) {
        Some(words) => by_mode(alloc, &Mode::make(alloc, &words, file), question),
        None => Ok(None),
    }
}

/// What the mode of words answers, of which the first is a file; without words the English one.
fn by_texts(
    alloc: Global,
    documents: &Documents,
    words: &[String],
    question: Question<'_>,
) -> CallResult {
    let Some(file) = words.first() else {
        return by_mode(alloc, &Mode::english(alloc), question);
    };
    match file_of(alloc, documents, file.as_str())? {
        Some(file) => by_words(alloc, &texts_of(alloc, words)?, &file, question),
        None => Ok(None),
    }
}

/// What a call asks of a mode by the first of these words, and the words behind it.
fn question_by<'a>(call: &str, words: &'a [String]) -> Option<(Question<'a>, &'a [String])> {
    let (first, words) = words.split_first()?;
    match call {
        "run_mode" => Some((Question::Run(first.as_str()), words)),
        "format_parts" => Some((Question::Parts(first.as_str()), words)),
        "mark_shown" => Some((Question::Shown(first.as_str()), words)),
        _ => {
            let (text, words) = words.split_first()?;
            let filling = Filling::of(call, first.as_str(), text.as_str())?;
            Some((Question::Filled(filling), words))
        }
    }
}

/// What a call answers that asks a mode, whose words stand behind the other arguments.
fn asked_of_mode(
    alloc: Global,
    documents: &Documents,
    call: &str,
    arguments: &[String],
) -> CallResult {
    if call == "make_mode" {
        return by_texts(alloc, documents, arguments, Question::Made);
    }
    match question_by(call, arguments) {
        Some((question, words)) => by_texts(alloc, documents, words, question),
        None => Ok(None),
    }
}

/// The text of the fault that two words name.
fn fault_text(alloc: Global, arguments: &[String]) -> CallResult {
    match arguments {
        [kind, name] => displayed(alloc, kind.as_str(), name.as_str()),
        _ => Ok(None),
    }
}

/// What a call answers whose arguments are words alone.
pub(crate) fn returned(
    alloc: Global,
    documents: &Documents,
    call: &str,
    arguments: &[String],
) -> CallResult {
    if call.starts_with("push_") {
        return pieces::returned(alloc, call, arguments);
    }
    match call {
        "parse_words" => words_text(alloc, arguments),
        "plain_options" | "compact_options" => options_text(alloc, call, arguments),
        "judge_tables" => judged(alloc, documents, arguments),
        "display" => fault_text(alloc, arguments),
        _ => asked_of_mode(alloc, documents, call, arguments),
    }
}
