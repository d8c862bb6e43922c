//! A provider that copies what it keeps, each thing by its identifier.

ghost use Rattle.std.specs.Prelude.{◌≡◌, Ok, find, option_map, unwrap_or};
ghost use Rattle.std.specs.Option.{option_copied};
ghost use Rattle.icu_provider.specs.Answer.{Answers, refused, as_answer};
ghost use Rattle.icu_provider.specs.Identifier.{identifier_of, same_identifier};
ghost use Rattle.icu_provider.specs.declared.error.DataErrorKind.TheVariants.{IdentifierNotFound};

use super::fixtures::LATIN;
use super::kept::{Kept, Table, Texts, Thousands};
use icu_decimal::provider::{
    DecimalCompactLongV1, DecimalCompactShortV1, DecimalDigitsV1, DecimalSymbols, DecimalSymbolsV1,
};
use icu_plurals::{PluralCategory, PluralRules, PluralsCardinalV1};
use icu_provider::{DataError, DataErrorKind, DataIdentifierBorrowed, DataProvider, DataRequest};
use std::alloc::Global;

/// What is answered by a system, or none, and a locale.
#[derive(Drop)]
struct Entry<T> {
    system: Option<&'static str>,
    locale: &'static str,
    answer: Result<T, DataError>,
}

impl<T> Entry<T> {
    fn is_for(&self, id: &DataIdentifierBorrowed<'_>) -> bool
        ensures { result ≡ same_identifier
            (record {
              system = option_map (λ s. s.now) self.now.system;
              locale = self.now.locale.now;
            }) (identifier_of id.now) }
    {
        self.system == id.system() && self.locale == id.locale()
    }
}

/// The first entry for the identifier.
fn entry_for<'a, T>(
    entries: &'a [Entry<T>],
    id: &DataIdentifierBorrowed<'_>,
) -> Option<&'a Entry<T>>
    ensures { option_copied result
        ≡ find (λ e. same_identifier (record {
          system = option_map (λ s. s.now) e.system;
          locale = e.locale.now;
        }) (identifier_of id.now)) entries.entry.now }
{
    entries.iter().find(|entry| entry.is_for(id))
}

/// The answer of the first entry for the identifier.
#[tactic(auto, using(icu_provider::specs::Answer::as_answer_answers))]
fn look_up<T: Kept>(
    alloc: Global,
    entries: &[Entry<T>],
    id: &DataIdentifierBorrowed<'_>,
) -> Result<T, DataError>
    ensures { Answers result
        (unwrap_or (option_map (λ e. as_answer e.answer)
        (find (λ e. same_identifier (record {
          system = option_map (λ s. s.now) e.system;
          locale = e.locale.now;
        }) (identifier_of id.now)) entries.now)) (refused IdentifierNotFound)) }
{
    match entry_for(entries, id) {
        Some(entry) => match &entry.answer {
            Ok(kept) => kept.copied(alloc),
            Err(error) => Err(*error),
        },
        None => Err(DataErrorKind::IdentifierNotFound.into()),
    }
}

/// What the tests' provider keeps.
#[derive(Drop)]
pub(super) struct Shelf {
    symbols: Vec<Entry<DecimalSymbols>>,
    digits: Vec<Entry<[char; 10]>>,
    rules: Vec<Entry<PluralRules>>,
    short: Vec<Entry<Table>>,
    long: Vec<Entry<Table>>,
}

impl DataProvider<DecimalSymbolsV1> for Shelf {
    ghost answer = { λ shelf id.
        unwrap_or (option_map (λ e. as_answer e.answer)
        (find (λ e. same_identifier (record {
          system = option_map (λ s. s.now) e.system;
          locale = e.locale.now;
        }) id) shelf.symbols.items)) (refused IdentifierNotFound) };

    fn load(&self, alloc: Global, request: &DataRequest<'_>) -> Result<DecimalSymbols, DataError> {
        look_up(alloc, &self.symbols, &request.id)
    }
}

impl DataProvider<DecimalDigitsV1> for Shelf {
    ghost answer = { λ shelf id.
        unwrap_or (option_map (λ e. as_answer e.answer)
        (find (λ e. same_identifier (record {
          system = option_map (λ s. s.now) e.system;
          locale = e.locale.now;
        }) id) shelf.digits.items)) (refused IdentifierNotFound) };

    fn load(&self, alloc: Global, request: &DataRequest<'_>) -> Result<[char; 10], DataError> {
        look_up(alloc, &self.digits, &request.id)
    }
}

impl DataProvider<PluralsCardinalV1> for Shelf {
    ghost answer = { λ shelf id.
        unwrap_or (option_map (λ e. as_answer e.answer)
        (find (λ e. same_identifier (record {
          system = option_map (λ s. s.now) e.system;
          locale = e.locale.now;
        }) id) shelf.rules.items)) (refused IdentifierNotFound) };

    fn load(&self, alloc: Global, request: &DataRequest<'_>) -> Result<PluralRules, DataError> {
        look_up(alloc, &self.rules, &request.id)
    }
}

impl DataProvider<DecimalCompactShortV1> for Shelf {
    ghost answer = { λ shelf id.
        unwrap_or (option_map (λ e. as_answer e.answer)
        (find (λ e. same_identifier (record {
          system = option_map (λ s. s.now) e.system;
          locale = e.locale.now;
        }) id) shelf.short.items)) (refused IdentifierNotFound) };

    fn load(&self, alloc: Global, request: &DataRequest<'_>) -> Result<Table, DataError> {
        look_up(alloc, &self.short, &request.id)
    }
}

impl DataProvider<DecimalCompactLongV1> for Shelf {
    ghost answer = { λ shelf id.
        unwrap_or (option_map (λ e. as_answer e.answer)
        (find (λ e. same_identifier (record {
          system = option_map (λ s. s.now) e.system;
          locale = e.locale.now;
        }) id) shelf.long.items)) (refused IdentifierNotFound) };

    fn load(&self, alloc: Global, request: &DataRequest<'_>) -> Result<Table, DataError> {
        look_up(alloc, &self.long, &request.id)
    }
}

/// What is answered by English and by the rest, kind by kind: the symbols, the digits, the rules
/// and the patterns.
pub(super) type Refusals = [Option<DataError>; 4];

const ENGLISH_TEXTS: Texts = (".", ",", "latn");

/// A row: a system, a locale, and what is answered by them.
type Row<T> = (Option<&'static str>, &'static str, Result<T, DataError>);

/// An error of the provider's own, with its text.
pub(super) const KEPT_AWAY: DataError = DataError {
    kind: DataErrorKind::Custom,
    context: "kept away",
};

/// Memory ran out for what is kept: no error of a row, nor one that is asked for, is this
/// one.
pub(super) const WANT_OF_MEMORY: DataError = DataError {
    kind: DataErrorKind::OutOfMemory,
    context: "",
};

const SYMBOLS: &[Row<Texts>] = &[
    (None, "en", Ok(ENGLISH_TEXTS)),
    (Some("nosymb"), "en", Err(KEPT_AWAY)),
];

const ARABIC: [char; 10] = ['٠', '١', '٢', '٣', '٤', '٥', '٦', '٧', '٨', '٩'];

const DIGITS: &[Row<[char; 10]>] = &[
    (Some("latn"), "und", Ok(LATIN)),
    (Some("arab"), "en", Ok(ARABIC)),
    (Some("nodigits"), "en", Err(KEPT_AWAY)),
];

const SHORT: &[Row<Thousands>] = &[
    (None, "en", Ok(("K", "K"))),
    (Some("arab"), "en", Ok(("k", "k"))),
    (Some("nopatt"), "en", Err(KEPT_AWAY)),
];

const LONG: &[Row<Thousands>] = &[(None, "en", Ok((" thousand", " thousands")))];

const ENGLISH_RULES: &[(PluralCategory, &str)] = &[(PluralCategory::One, "i = 1 and v = 0")];

const RULES: &[Row<&[(PluralCategory, &str)]>] = &[
    (None, "en", Ok(ENGLISH_RULES)),
    (Some("arab"), "en", Err(KEPT_AWAY)),
];

/// Puts the entry of a row, or an error of it, behind others; whether memory was found for it.
fn is_put<T: Kept>(
    alloc: Global,
    entries: &mut Vec<Entry<T>>,
    (system, locale, row): &Row<T::Row>,
    refusal: Option<DataError>,
) -> bool {
    let entry = Entry {
        system: *system,
        locale: *locale,
        answer: answer_of(alloc, row, refusal),
    };
    !is_wanting(&entry.answer) && entries.push(entry).is_ok()
}

/// The entries of rows, or errors of all of them; none if out of memory.
fn entries_of<T: Kept>(
    alloc: Global,
    rows: &[Row<T::Row>],
    refusal: Option<DataError>,
) -> Option<Vec<Entry<T>>> {
    let mut entries = Vec::new(alloc);
    for row in rows {
        if !is_put(alloc, &mut entries, row, refusal) {
            return None;
        }
    }
    Some(entries)
}

/// What is answered of a row, with an error of its own where memory ran out.
fn answer_of<T: Kept>(
    alloc: Global,
    row: &Result<T::Row, DataError>,
    refusal: Option<DataError>,
) -> Result<T, DataError> {
    match refusal {
        Some(error) => Err(error),
        None => match row {
            Err(error) => Err(*error),
            Ok(row) => T::made(alloc, *row).ok_or(WANT_OF_MEMORY),
        },
    }
}

/// Whether an answer is that error.
fn is_wanting<T>(answer: &Result<T, DataError>) -> bool {
    match answer {
        Ok(_) => false,
        Err(error) => *error == WANT_OF_MEMORY,
    }
}

impl Shelf {
    /// The shelf of all rows, with these errors; none if out of memory.
    pub(super) fn made(alloc: Global, refusals: Refusals) -> Option<Shelf> {
        let [symbols, digits, rules, patterns] = refusals;
        let plain = entries_of(alloc, SYMBOLS, symbols).zip(entries_of(alloc, DIGITS, digits));
        let rules = entries_of(alloc, RULES, rules);
        let tables = entries_of(alloc, SHORT, patterns).zip(entries_of(alloc, LONG, patterns));
        match plain.zip(rules).zip(tables) {
            Some((((symbols, digits), rules), (short, long))) => Some(Shelf {
                symbols,
                digits,
                rules,
                short,
                long,
            }),
            None => None,
        }
    }
}
