//! Arguments as C hands them over.

ghost use Rattle.std.specs.Prelude.{◌≡◌, option_map};
ghost use Rattle.talmuiga_c.specs.Asked.{text_in, words_asked, words_in};

use decimal_lines::{Words, parse_words};
use std::str;

/// The text of some bytes, where they are UTF-8.
#[tactic(auto, using(crate::proofs::Texts::texts_in))]
pub fn text_in(bytes: &[u8]) -> Option<&str>
    ensures { option_map (λ text. text.now) result ≡ text_in bytes.now }
{
    match str::from_utf8(bytes) {
        Ok(text) => Some(text),
        Err(_) => None,
    }
}

/// The arguments of four texts, the last of which may be empty.
fn words_in<'a>(
    locale: &'a str,
    system: &'a str,
    style: &'a str,
    grouping: &'a str,
) -> Option<Words<'a>>
    ensures { result ≡ words_in locale.now system.now style.now grouping.now }
{
    if grouping.is_empty() {
        parse_words(&["", locale, system, style])
    } else {
        parse_words(&["", locale, system, style, grouping])
    }
}

/// What four texts ask for: a locale, a numbering system or a hyphen, a style and a strategy or
/// nothing.
///
/// `None` where one isn't UTF-8, or is no such argument.
#[tactic(auto, unfolding(crate::specs::Asked::words_asked))]
pub fn words_asked<'a>(
    locale: &'a [u8],
    system: &'a [u8],
    style: &'a [u8],
    grouping: &'a [u8],
) -> Option<Words<'a>>
    ensures { result ≡ words_asked locale.now system.now style.now grouping.now }
{
    words_in(
        text_in(locale)?,
        text_in(system)?,
        text_in(style)?,
        text_in(grouping)?,
    )
}
