//! Command lines, as arguments of a row.

use crate::bytes::bytes_of;
use locnum_options::{Environment, Given};
use rows::Documents;
use std::alloc::{AllocError, Global};

/// An option and its text.
pub(crate) type Pair<'a> = (&'a str, &'a str);

/// The options that have no text.
const FLAGS: &[&str] = &[
    "accounting",
    "cash",
    "csv",
    "explain",
    "percent",
    "permille",
    "zero-terminated",
];

/// The arguments in front of the first option, and those from there on.
pub(crate) fn cut_at_options(arguments: &[String]) -> (&[String], &[String]) {
    let count = arguments
        .iter()
        .position(|argument| argument.as_str().starts_with("--"))
        .unwrap_or(arguments.len());
    (
        arguments.get(..count).unwrap_or_default(),
        arguments.get(count..).unwrap_or_default(),
    )
}

/// Appends the options of words. Whether each word is an option or the text of one.
fn push_options<'a>(words: &'a [String], options: &mut Vec<Pair<'a>>) -> Result<bool, AllocError> {
    let mut waiting: Option<&str> = None;
    for word in words {
        waiting = match (waiting, word.as_str().strip_prefix("--")) {
            (Some(option), _) => {
                options.push((option, word.as_str()))?;
                None
            }
            (None, Some(flag)) if FLAGS.contains(&flag) => {
                options.push((flag, ""))?;
                None
            }
            (None, Some(option)) => Some(option),
            (None, None) => return Ok(false),
        };
    }
    Ok(waiting.is_none())
}

/// The options of words: each with the word behind it, and one of [`FLAGS`] with an empty text.
/// `None` where a word stands at the place of an option, or an option has no text.
pub(crate) fn options_of<'a>(
    alloc: Global,
    words: &'a [String],
) -> Result<Option<Vec<Pair<'a>>>, AllocError> {
    let mut options = Vec::new(alloc);
    if push_options(words, &mut options)? {
        Ok(Some(options))
    } else {
        Ok(None)
    }
}

/// What these options give in an environment that says nothing.
pub(crate) fn given<'a>(options: &'a [Pair<'a>]) -> Given<'a> {
    Given {
        options,
        environment: Environment {
            all: None,
            numeric: None,
            language: None,
        },
    }
}

/// The variables of the environment that words set, as `LANG=de_DE.UTF-8`.
pub(crate) fn environment_of<'a>(words: &'a [String]) -> Option<Environment<'a>> {
    let mut environment = Environment {
        all: None,
        numeric: None,
        language: None,
    };
    for word in words {
        let (name, text) = word.as_str().split_once('=')?;
        match name {
            "LC_ALL" => environment.all = Some(text),
            "LC_NUMERIC" => environment.numeric = Some(text),
            "LANG" => environment.language = Some(text),
            _ => return None,
        }
    }
    Some(environment)
}

/// The bytes of the file of a name that ends in `.json`, and else those of the word itself.
pub(crate) fn file_of(
    alloc: Global,
    documents: &Documents,
    word: &str,
) -> Result<Option<Vec<u8>>, AllocError> {
    if !word.ends_with(".json") {
        return Ok(Some(bytes_of(alloc, word)?));
    }
    match documents.bytes(word) {
        Some(bytes) => Ok(Some(Vec::from_slice(alloc, bytes)?)),
        None => Ok(None),
    }
}

/// The texts of strings.
pub(crate) fn texts_of(alloc: Global, strings: &[String]) -> Result<Vec<&str>, AllocError> {
    let mut texts = Vec::new(alloc);
    for string in strings {
        texts.push(string.as_str())?;
    }
    Ok(texts)
}
