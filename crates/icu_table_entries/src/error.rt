//! Why tables are rejected.

ghost use Rattle.std.specs.Prelude.{◌≡◌, Err};
ghost use Rattle.icu_table_entries.specs.Keys.{name_of};
ghost use Rattle.icu_table_entries.specs.declared.error.TableError.TheVariants.{Entry, OutOfMemory};

use std::alloc::{AllocError, AllocFailed};
use std::fmt;
use thiserror::Error;

/// A key of the document, or of an object in it.
#[derive(Clone, Copy, Debug, PartialEq, Eq)]
pub enum Key {
    /// The document itself, whose name is empty.
    Document,
    Symbols,
    Digits,
    Rules,
    Short,
    Long,
    Locale,
    System,
    Minus,
    Plus,
    Decimal,
    Group,
    Numsys,
    Sizes,
    Patterns,
    ExplicitZero,
    ExplicitOne,
    /// Of an entry, the patterns of numbers that aren't shortened; of elements, the plural category
    /// zero.
    Zero,
    One,
    Two,
    Few,
    Many,
    Other,
    CurrencyDigits,
    Percents,
    Units,
    Currencies,
    CurrencySymbols,
    CurrencyDecimals,
    CurrencyCompact,
    Pattern,
    Percent,
    Width,
    Unit,
    Standard,
    Accounting,
    Names,
    Ordinals,
    Permille,
    Ranges,
    PluralRanges,
    Approximately,
}

impl Key {
    /// The key as the document spells it.
    // promise: Each key is spelled as stated.
    // mutations: group_key_misspelt
    pub fn name(self) -> &'static str
        ensures { result.now ≡ name_of self }
    {
        match self {
            Key::Document => "",
            Key::Symbols => "symbols",
            Key::Digits => "digits",
            Key::Rules => "rules",
            Key::Short => "short",
            Key::Long => "long",
            Key::Locale => "locale",
            Key::System => "system",
            Key::Minus => "minus",
            Key::Plus => "plus",
            Key::Decimal => "decimal",
            Key::Group => "group",
            Key::Numsys => "numsys",
            Key::Sizes => "sizes",
            Key::Patterns => "patterns",
            Key::ExplicitZero => "explicit_zero",
            Key::ExplicitOne => "explicit_one",
            Key::Zero => "zero",
            Key::One => "one",
            Key::Two => "two",
            Key::Few => "few",
            Key::Many => "many",
            Key::Other => "other",
            Key::CurrencyDigits => "currency_digits",
            Key::Percents => "percents",
            Key::Units => "units",
            Key::Currencies => "currencies",
            Key::CurrencySymbols => "currency_symbols",
            Key::CurrencyDecimals => "currency_decimals",
            Key::CurrencyCompact => "currency_compact",
            Key::Pattern => "pattern",
            Key::Percent => "percent",
            Key::Width => "width",
            Key::Unit => "unit",
            Key::Standard => "standard",
            Key::Accounting => "accounting",
            Key::Names => "names",
            Key::Ordinals => "ordinals",
            Key::Permille => "permille",
            Key::Ranges => "ranges",
            Key::PluralRanges => "plural_ranges",
            Key::Approximately => "approximately",
        }
    }
}

impl fmt::Display for Key {
    ghost use Rattle.std.specs.Prelude.{Some};
    ghost use Rattle.icu_table_entries.specs.Keys.{name_of};

    ghost output = { λ key. Some (name_of key) };

    fn fmt<W: fmt::Write>(&self, f: &mut fmt::Formatter<W>) -> fmt::Result {
        f.write_str(self.name())
    }
}

/// Why an entry is rejected, once all its fields have the right kinds.
#[derive(Clone, Copy, Debug, PartialEq, Eq, Error)]
pub enum EntryFault {
    /// The locale isn't 1 to 63 ASCII letters, digits and hyphens.
    #[error("bad locale")]
    BadLocale,
    /// The numbering system that the entry is for isn't 3 to 8 ASCII lower-case letters and digits.
    #[error("bad numbering system")]
    BadNumberingSystem,
    /// A pattern has two placeholders or more.
    #[error("a pattern has more than one place")]
    BadPlace,
    /// The condition of a plural rule isn't in the grammar of UTS 35 Part 3 (Plural rules syntax).
    #[error("rule {rule} isn't a condition, by its byte {byte}")]
    BadRule {
        /// The index of the rule in its list.
        rule: usize,
        /// The byte offset of the first token that can't stand there; the end of what is read, if
        /// the text ends too early.
        byte: usize,
    },
    /// The seven texts of symbols are more than 255 bytes together.
    #[error("the symbols are more than 255 bytes together")]
    SymbolsTooLarge,
    /// The numbering system that the symbols name isn't 3 to 8 ASCII lower-case letters and digits.
    #[error("the symbols name no numbering system")]
    BadSymbolsNumberingSystem,
    /// An exponent is below that of the type just before.
    #[error("compact exponents fall")]
    ExponentsFall,
    /// A kept type has an exponent above it.
    #[error("a compact exponent is above its type")]
    ExponentAboveType,
    /// A kept type is more than 15 above its exponent.
    #[error("a compact type is more than 15 above its exponent")]
    TooManyZeros,
    /// The literals of the kept patterns are more than 65,535 bytes together.
    #[error("the literals of the compact patterns are more than 65535 bytes together")]
    PatternsTooLarge,
    /// A type of compact money has the patterns of the type just before under another exponent.
    #[error("type {log10_type} repeats the patterns of the type before under another exponent")]
    RepeatedPatterns {
        /// The later of the two types.
        log10_type: u8,
    },
    /// The code of a currency isn't three ASCII capitals.
    #[error("bad currency code")]
    BadCurrencyCode,
    /// An amount has more than 15 fraction digits.
    #[error("more than 15 fraction digits")]
    TooManyDigits,
    /// The step of cash isn't 1, 2, 5 or 25, with zeros behind it or none.
    #[error("the step of cash isn't 1, 2, 5 or 25 with zeros behind it")]
    BadCashStep,
    /// A width is none of `long`, `short` and `narrow`.
    #[error("bad width")]
    BadWidth,
    /// A subpattern of a pattern of CLDR has no number part.
    #[error("a pattern has no number part before its byte {byte}")]
    NoNumber {
        /// The byte offset at which the subpattern ends.
        byte: usize,
    },
    /// A subpattern of a pattern of CLDR has a second number part, apart from the first.
    #[error("a pattern has a second number part at its byte {byte}")]
    TwoNumbers {
        /// The byte offset at which the second begins.
        byte: usize,
    },
    /// A quote of a pattern of CLDR isn't closed.
    #[error("a pattern has a quote at its byte {byte} that isn't closed")]
    UnclosedQuote {
        /// The byte offset of the quote.
        byte: usize,
    },
    /// A pattern of CLDR has a third subpattern.
    #[error("a pattern has a third subpattern behind its byte {byte}")]
    ThirdSubpattern {
        /// The byte offset of the semicolon before it.
        byte: usize,
    },
    /// A pattern of CLDR has a character that is reserved.
    #[error("a pattern has a reserved character at its byte {byte}")]
    ReservedCharacter {
        /// The byte offset of the character.
        byte: usize,
    },
    /// A pattern of money has a subpattern without `¤`, the place of the currency's symbol.
    #[error("a pattern of money has no place for the symbol")]
    NoSymbolPlace,
    /// A pattern of percents has a subpattern without `%`, the place of the percent sign.
    #[error("a pattern of percents has no place for the percent sign")]
    NoPercentPlace,
    /// The text of a sign is empty.
    #[error("`{name}` is empty")]
    EmptyText {
        /// The key of the text.
        name: Key,
    },
    /// The pattern of a number with a currency's name hasn't one place for each of the two.
    #[error("a pattern of names hasn't one place for the number and one for the name")]
    BadNamePlaces,
    /// The pattern of a range isn't `{0}`, some text without braces, and `{1}`.
    #[error("the pattern of a range isn't some text between two places")]
    BadRangePattern,
    /// A category of plural ranges is none of `zero`, `one`, `two`, `few`, `many` and `other`.
    #[error("triple {range} has a plural category that isn't known")]
    BadCategory {
        /// The index of the triple in its list.
        range: usize,
    },
    /// A pair of categories has two results.
    #[error("triple {range} has the categories of a later one")]
    RepeatedPair {
        /// The index of the earlier triple in its list.
        range: usize,
    },
}

/// Why tables were not made (this project's own).
#[derive(Clone, Copy, Debug, PartialEq, Eq, Error)]
pub enum TableError {
    /// The text isn't JSON.
    #[error("not JSON")]
    NotJson,
    /// Somewhere in the value a number isn't a 64-bit whole number.
    #[error("a number that is no 64-bit whole number")]
    Float,
    /// A required key is absent.
    #[error("`{0}` is missing")]
    Missing(Key),
    /// A value under the key, or a member of a list under it, has another kind, count or range.
    #[error("`{0}` has the wrong kind")]
    WrongKind(Key),
    /// An entry of a list of the document was rejected.
    #[error("entry {index} of `{key}`: {fault}")]
    Entry {
        /// The key of the list.
        key: Key,
        /// The index of the entry in its list.
        index: usize,
        /// Why it was rejected.
        fault: EntryFault,
    },
    /// Memory ran out.
    #[error("out of memory")]
    OutOfMemory,
}

impl From<AllocError> for TableError {
    ghost from_gives = { λ _ e. e ≡ OutOfMemory };

    fn from(_e: AllocError) -> TableError {
        TableError::OutOfMemory
    }
}

impl<T: Drop> From<AllocFailed<T>> for TableError {
    ghost from_gives = { λ _ e. e ≡ OutOfMemory };

    fn from(_e: AllocFailed<T>) -> TableError {
        TableError::OutOfMemory
    }
}

/// Where an entry stands: under which key, and at which index of the list.
#[derive(Clone, Copy, Debug)]
pub struct Position {
    pub key: Key,
    pub index: usize,
}

impl Position {
    /// The error of the entry for a fault.
    pub fn refusal(self, fault: EntryFault) -> TableError
        ensures { result ≡ Entry self.key self.index fault }
    {
        TableError::Entry {
            key: self.key,
            index: self.index,
            fault,
        }
    }
}
