//! What a skeleton sets.

use fixed_decimal::{RoundingIncrement, SignDisplay, SignedRoundingMode};

/// Compact notation, or none.
#[derive(Clone, Copy, Debug, PartialEq, Eq)]
pub enum Notation {
    /// Numbers in full: `notation-simple`.
    Simple,
    /// `compact-short`, `K`.
    CompactShort,
    /// `compact-long`, `KK`.
    CompactLong,
}

/// The code of a currency: the bytes of three ASCII letters, capital ones in what was read.
#[derive(Clone, Copy, Debug, PartialEq, Eq)]
pub struct CurrencyLetters {
    /// The first letter.
    pub first: u8,
    /// The second letter.
    pub second: u8,
    /// The third letter.
    pub third: u8,
}

/// What a number counts.
#[derive(Clone, Copy)]
pub enum NumberUnit<'a> {
    /// Nothing: `base-unit`.
    None,
    /// `percent`, `%`; the number isn't multiplied.
    Percent,
    /// `permille`; the number isn't multiplied.
    Permille,
    /// `currency/EUR`.
    Currency(CurrencyLetters),
    /// `unit/kilometer-per-hour`: words of ASCII small letters and digits with `-` between them. It
    /// isn't checked that a unit has the name.
    Named(&'a str),
}

/// How long a unit or the symbol of a currency is written.
#[derive(Clone, Copy, Debug, PartialEq, Eq)]
pub enum UnitWidth {
    /// `unit-width-narrow`.
    Narrow,
    /// `unit-width-short`.
    Short,
    /// `unit-width-full-name`.
    FullName,
    /// `unit-width-iso-code`.
    IsoCode,
    /// `unit-width-hidden`.
    Hidden,
}

/// Which of two counts of digits decides if they want to round at different places.
#[derive(Clone, Copy, Debug, PartialEq, Eq)]
pub enum Priority {
    /// The one that keeps more digits: `r`.
    Relaxed,
    /// The one that keeps fewer digits: `s`.
    Strict,
}

/// Where a number is rounded, and how many digits are written at least.
#[derive(Clone, Copy, Debug, PartialEq, Eq)]
pub enum Precision {
    /// Fraction digits: `.00##`, `.00*`, `precision-integer`. `precision-unlimited` has no least and
    /// no greatest count.
    Fraction {
        /// That many at least.
        least: u16,
        /// That many at most, if there is such a count.
        most: Option<u16>,
    },
    /// Significant digits: `@@##`, `@@*`.
    Significant {
        /// That many at least.
        least: u16,
        /// That many at most, if there is such a count.
        most: Option<u16>,
    },
    /// Multiples of an increment times ten to the power: `precision-increment/0.05`.
    Increment {
        /// The number without its zeros.
        increment: RoundingIncrement,
        /// The power of ten of the last digit of the increment.
        power: i16,
        /// That many fraction digits at least.
        least: u16,
    },
    /// Fraction digits beside significant ones: `.00##/@@*`, `.00##/@@#r`.
    Both {
        /// That many fraction digits at least.
        least: u16,
        /// That many fraction digits at most, if there is such a count.
        most: Option<u16>,
        /// That many significant digits at least.
        few: u16,
        /// That many significant digits at most.
        many: u16,
        /// Which of the two counts decides.
        priority: Priority,
        /// Whether the least count of fraction digits stays, whichever count decides.
        keeps_least: bool,
    },
    /// The digits of the currency.
    Currency {
        /// In cash: `precision-currency-cash`; else `precision-currency-standard`.
        is_cash: bool,
    },
}

/// How digits are grouped.
#[derive(Clone, Copy, Debug, PartialEq, Eq)]
pub enum Grouping {
    /// `group-off`, `,_`.
    Off,
    /// `group-min2`, `,?`.
    Min2,
    /// `group-auto`.
    Auto,
    /// `group-on-aligned`, `,!`.
    OnAligned,
    /// `group-thousands`.
    Thousands,
}

/// The settings of a skeleton, with defaults where nothing is set.
#[derive(Clone, Copy)]
pub struct Skeleton<'a> {
    /// `Simple` by default.
    pub notation: Notation,
    /// `None` by default.
    pub unit: NumberUnit<'a>,
    /// `Short` by default.
    pub width: UnitWidth,
    /// The default depends on the notation and the unit.
    pub precision: Option<Precision>,
    /// `/w` behind the precision: a whole number is written without a fraction.
    pub hides_zeros_of_whole: bool,
    /// `HalfEven` by default.
    pub mode: SignedRoundingMode,
    /// The least count of digits before the decimal separator; 1 by default.
    pub integer_digits: u16,
    /// The power of ten by which a number is multiplied; 0 by default.
    pub scale: i16,
    /// The default depends on the notation.
    pub grouping: Option<Grouping>,
    /// The name of a numbering system, 3 to 8 ASCII small letters or digits; that of the locale by
    /// default.
    pub system: Option<&'a str>,
    /// `Auto` by default.
    pub sign: SignDisplay,
    /// Whether a negative amount of money has the locale's form for accounting, as in parentheses.
    pub is_accounting: bool,
}
