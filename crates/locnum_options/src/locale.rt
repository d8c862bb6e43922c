//! Locales as people and environments write them, in the form of BCP 47.

ghost use Rattle.std.specs.Prelude.{◌≡◌, ◌++◌, ◌<◌, ◌∷◌, IfOk, IfSome, Ok, OnOk, codes, length, map, option_map};
ghost use Rattle.locnum_options.specs.Locale.{before_mark, cased, cased_byte, environment_locale, environment_text, is_mark, is_no_locale, is_separator, locale_given, locale_named, locale_text, set_or, subtags_left, subtags_of};
ghost use Rattle.locnum_options.specs.Options.{GivesOption};

use crate::fault::OptionFault;
use crate::given::{Environment, Given};
use icu_provider::DataLocale;
use std::alloc::{AllocError, Global};
use std::str;

/// Whether a byte is a dot or an at sign, behind which an encoding or a modifier stands.
fn is_mark(byte: u8) -> bool
    ensures { result ≡ is_mark byte }
{
    byte == b'.' || byte == b'@'
}

/// What stands before the first dot or at sign.
fn before_mark(text: &[u8]) -> &[u8]
    ensures { result.now ≡ before_mark text.now }
{
    for (index, byte) in text.iter().enumerate() {
        if is_mark(*byte) {
            return &text[..index];
        }
    }
    text
}

/// Whether a byte is a hyphen or an underscore.
fn is_separator(byte: u8) -> bool
    ensures { result ≡ is_separator byte }
{
    byte == b'-' || byte == b'_'
}

/// The first subtag, and what stands behind its separator; none where there is no separator.
fn next_subtag(text: &[u8]) -> (&[u8], Option<&[u8]>)
    ensures subtags { subtags_of text.now
        ≡ result.0.now ∷ subtags_left (option_map (λ t. t.now) result.1) }
    ensures shorter { IfSome result.1 (λ t. length t.now < length text.now) }
{
    for (index, byte) in text.iter().enumerate() {
        if is_separator(*byte) {
            return (&text[..index], Some(&text[index + 1..]));
        }
    }
    (text, None)
}

/// A byte as a capital letter, or as a small one.
fn cased_byte(is_large: bool, byte: u8) -> u8
    ensures { result ≡ cased_byte is_large byte }
{
    if is_large {
        byte.to_ascii_uppercase()
    } else {
        byte.to_ascii_lowercase()
    }
}

/// Writes bytes as capital letters, or as small ones.
fn push_letters(is_large: bool, bytes: &[u8], out: &mut Vec<u8>) -> Result<(), AllocError>
    ensures { OnOk result (out.new.items ≡ out.old.items ++ map (cased_byte is_large) bytes.now) }
{
    for byte in bytes {
        out.push(cased_byte(is_large, *byte))?;
    }
    Ok(())
}

/// Writes a subtag: small letters behind a singleton and in front; else two capital letters, four of
/// which the first is a capital one, or small ones.
#[tactic(auto, unfolding(crate::specs::Locale::cased))]
fn push_subtag(is_small: bool, subtag: &[u8], out: &mut Vec<u8>) -> Result<(), AllocError>
    ensures { OnOk result (out.new.items ≡ out.old.items ++ cased is_small subtag.now) }
{
    if is_small {
        return push_letters(false, subtag, out);
    }
    match subtag.len() {
        2 => push_letters(true, subtag, out),
        4 => {
            push_letters(true, &subtag[..1], out)?;
            push_letters(false, &subtag[1..], out)
        }
        _ => push_letters(false, subtag, out),
    }
}

/// The text of a locale in the form of BCP 47, `de-DE` of `de_DE.UTF-8`.
#[tactic(auto, unfolding(crate::specs::Locale::locale_text, crate::specs::Locale::behind_language))]
fn locale_text(alloc: Global, text: &[u8]) -> Result<Vec<u8>, AllocError>
    ensures { IfOk result (λ v. v.items ≡ locale_text text.now) }
{
    let mut out = Vec::new(alloc);
    let (language, mut rest) = next_subtag(before_mark(text));
    push_subtag(true, language, &mut out)?;
    let mut is_small = language.len() == 1;
    while let Some(bytes) = rest {
        let (subtag, behind) = next_subtag(bytes);
        out.push(b'-')?;
        push_subtag(is_small, subtag, &mut out)?;
        is_small = is_small || subtag.len() == 1;
        rest = behind;
    }
    Ok(out)
}

/// The locale of a text.
#[tactic(auto, unfolding(crate::specs::Locale::locale_named))]
fn locale_named(alloc: Global, text: &str) -> Result<DataLocale, OptionFault>
    ensures { GivesOption (λ x. x) result (locale_named text.now) }
{
    let bytes = locale_text(alloc, text.as_bytes())?;
    let Ok(text) = str::from_utf8(&bytes) else {
        return Err(OptionFault::Locale);
    };
    match DataLocale::try_from_str(text) {
        Ok(locale) => Ok(locale),
        Err(_) => Err(OptionFault::Locale),
    }
}

/// The text of a variable that is set and isn't empty, or else another text.
fn set_or<'a>(variable: Option<&'a str>, other: &'a str) -> &'a str
    ensures { result.now ≡ set_or (option_map (λ t. t.now) variable.entry) other.entry.now }
{
    match variable {
        None => other,
        Some("") => other,
        Some(text) => text,
    }
}

/// The text of the first variable that is set and isn't empty.
#[tactic(auto, unfolding(crate::specs::Locale::environment_text))]
fn environment_text<'a>(environment: &Environment<'a>) -> &'a str
    ensures { result.now ≡ environment_text environment.now }
{
    let numeric = set_or(environment.numeric, set_or(environment.language, "C"));
    set_or(environment.all, numeric)
}

/// Whether a text names no locale, but what programs without one do.
fn is_no_locale(text: &[u8]) -> bool
    ensures { result ≡ is_no_locale text.now }
{
    text == b"C".as_slice() || text == b"POSIX".as_slice()
}

/// The default locale.
#[tactic(auto, using(crate::proofs::English::english_named))]
fn english() -> Result<DataLocale, OptionFault>
    ensures { result ≡ Ok (codes "en") }
{
    match DataLocale::try_from_str("en") {
        Ok(locale) => Ok(locale),
        Err(_) => Err(OptionFault::Locale),
    }
}

/// The locale of the environment.
#[tactic(auto, unfolding(crate::specs::Locale::environment_locale))]
fn environment_locale(alloc: Global, environment: &Environment) -> Result<DataLocale, OptionFault>
    ensures { GivesOption (λ x. x) result (environment_locale environment.now) }
{
    let text = environment_text(environment);
    if is_no_locale(before_mark(text.as_bytes())) {
        return english();
    }
    locale_named(alloc, text)
}

/// The locale that is asked for; `en` by default.
// promise: The locale is the given one, or that of the environment.
// mutations: locale_region_left_small, locale_of_an_empty_variable
#[tactic(auto, unfolding(crate::specs::Locale::locale_given))]
pub(crate) fn locale_given(alloc: Global, given: &Given) -> Result<DataLocale, OptionFault>
    ensures { GivesOption (λ x. x) result (locale_given given.now) }
{
    match given.text("locale") {
        None => english(),
        Some("env") => environment_locale(alloc, &given.environment),
        Some(text) => locale_named(alloc, text),
    }
}
