//! The arguments that the program is started with.

ghost use Rattle.std.specs.Prelude.{◌≡◌, map};
ghost use Rattle.decimal_lines.specs.Words.{grouping_named, locale_named, strategy_named, style_named, system_named, words_from, words_of};

use icu_decimal_options::options::GroupingStrategy;
use icu_provider::{DataLocale, NumberingSystem};
use std::marker::Model;

/// How numbers are written: in full, or shortened by the short or the long patterns of the tables.
#[derive(Clone, Copy, Debug, PartialEq, Eq)]
pub enum Style {
    /// In full, as `15,127`.
    Plain,
    /// By the short patterns, as `15K`.
    Short,
    /// By the long patterns, as `15 thousand`.
    Long,
}

/// What the arguments ask for (this project's own).
#[derive(Debug, Drop)]
pub struct Words<'a> {
    /// The file of the tables; any text.
    pub path: &'a str,
    /// The locale whose data is taken.
    pub locale: DataLocale,
    /// The numbering system that is preferred; `None` where none is.
    pub system: Option<NumberingSystem>,
    /// How numbers are written.
    pub style: Style,
    /// When separators are written; `None` is the default of the style.
    pub grouping: Option<GroupingStrategy>,
}

impl<'a> Model for Words<'a> {
    ghost use Rattle.decimal_lines.specs.Words.{WordsData};

    ghost Value = { WordsData };

    ghost view = { λ w. record {
      path = w.path.now;
      locale = w.locale;
      system = w.system;
      style = w.style;
      grouping = w.grouping;
    } };
}

/// The locale of an argument.
#[tactic(auto, unfolding(crate::specs::Words::locale_named))]
fn locale_named(word: &str) -> Option<DataLocale>
    ensures { result ≡ locale_named word.now }
{
    match DataLocale::try_from_str(word) {
        Ok(locale) => Some(locale),
        Err(_) => None,
    }
}

/// The numbering system of an argument; none for a hyphen.
#[tactic(auto, unfolding(crate::specs::Words::system_named))]
fn system_named(word: &str) -> Option<Option<NumberingSystem>>
    ensures { result ≡ system_named word.now }
{
    if word == "-" {
        return Some(None);
    }
    match NumberingSystem::try_from_str(word) {
        Ok(system) => Some(Some(system)),
        Err(_) => None,
    }
}

/// The style of an argument.
#[tactic(auto, unfolding(crate::specs::Words::style_named))]
fn style_named(word: &str) -> Option<Style>
    ensures { result ≡ style_named word.now }
{
    match word {
        "plain" => Some(Style::Plain),
        "short" => Some(Style::Short),
        "long" => Some(Style::Long),
        _ => None,
    }
}

/// The grouping strategy of an argument.
#[tactic(auto, unfolding(crate::specs::Words::strategy_named))]
fn strategy_named(word: &str) -> Option<GroupingStrategy>
    ensures { result ≡ strategy_named word.now }
{
    match word {
        "auto" => Some(GroupingStrategy::Auto),
        "never" => Some(GroupingStrategy::Never),
        "always" => Some(GroupingStrategy::Always),
        "min2" => Some(GroupingStrategy::Min2),
        _ => None,
    }
}

/// The grouping strategy of the last argument, which may be absent.
#[tactic(auto, unfolding(crate::specs::Words::grouping_named))]
fn grouping_named(more: &[&str]) -> Option<Option<GroupingStrategy>>
    ensures { result ≡ grouping_named (map (λ w. w.now) more.now) }
{
    match more {
        [] => Some(None),
        [word] => Some(Some(strategy_named(word)?)),
        _ => None,
    }
}

/// What the first four arguments and the others after them ask for.
#[tactic(auto, unfolding(crate::specs::Words::words_from))]
fn words_from<'a>(
    path: &'a str,
    locale: &str,
    system: &str,
    style: &str,
    more: &[&str],
) -> Option<Words<'a>>
    ensures { result ≡ words_from path.now locale.now system.now style.now
        (map (λ w. w.now) more.now) }
{
    Some(Words {
        path,
        locale: locale_named(locale)?,
        system: system_named(system)?,
        style: style_named(style)?,
        grouping: grouping_named(more)?,
    })
}

/// What the arguments after the program's name ask for: `TABLES LOCALE NU|- plain|short|long`, and
/// where it is given one of `auto`, `never`, `always` and `min2` (this project's own).
///
/// `None` for any other arguments: a wrong count, also 0; an ill-formed locale or numbering system; an
/// unknown style or strategy.
// promise: The arguments determine what is asked for, or nothing is.
// mutations: words_long_read_as_short, words_min3_accepted
#[tactic(auto, unfolding(crate::specs::Words::words_of))]
pub fn parse_words<'a>(words: &[&'a str]) -> Option<Words<'a>>
    ensures { result ≡ words_of (map (λ w. w.now) words.now) }
{
    match words {
        [path, locale, system, style, more @ ..] => words_from(path, locale, system, style, more),
        _ => None,
    }
}
