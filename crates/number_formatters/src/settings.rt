//! What a form is to be, besides the tables.

ghost use Rattle.std.specs.Prelude.{◌≡◌};
ghost use Rattle.number_formatters.specs.Settings.{is_half_even, unit_text};

use fixed_decimal::{SignDisplay, SignedRoundingMode, UnsignedRoundingMode};
use icu_decimal_options::options::GroupingStrategy;
use icu_dimension::options::{CurrencySign, Width};
use icu_dimension_data::CurrencyCode;
use icu_provider::{DataLocale, NumberingSystem};
use skeleton_settings::{Notation, Precision};
use std::marker::Model;

/// When separators are written, and between which groups (this project's own).
#[derive(Clone, Copy, Debug, PartialEq, Eq)]
pub enum FormGrouping {
    /// By a strategy, between the groups of the locale.
    Strategy(GroupingStrategy),
    /// Between the groups of the locale, or groups of three digits where the locale has none; one
    /// digit before the last group suffices.
    OnAligned,
    /// Between groups of three digits; one digit before the last group suffices.
    Thousands,
}

/// Which patterns write a unit.
#[derive(Clone, Copy, Debug, PartialEq, Eq)]
pub enum UnitWidth {
    /// The long ones, as `2 kilometers`.
    Long,
    /// The short ones, as `2 km`.
    Short,
    /// The narrow ones, as `2km`.
    Narrow,
}

/// Which unit it is (this project's own).
#[derive(Clone, Copy, Debug)]
pub enum UnitName<'a> {
    /// The unit `percent` of the tables, as `12 percent`.
    Percent,
    /// The unit `permille` of the tables, as `12 permille`.
    Permille,
    /// A unit as the tables name it, as `kilometer`.
    Named(&'a str),
}

impl<'a> UnitName<'a> {
    /// The name of the unit in the tables.
    pub fn text(self) -> &'a str
        ensures { result.now ≡ unit_text self.entry }
    {
        match self {
            UnitName::Percent => "percent",
            UnitName::Permille => "permille",
            UnitName::Named(name) => name,
        }
    }
}

/// What is written of a number (this project's own).
#[derive(Clone, Copy, Debug)]
pub enum Kind<'a> {
    /// The number in full, as `15,127`.
    Plain,
    /// The number by the short patterns, as `15K`.
    Short,
    /// The number by the long patterns, as `15 thousand`.
    Long,
    /// An amount of money with the symbol of its currency, as `$15,127.00`.
    Money {
        /// The currency.
        code: CurrencyCode,
        /// Which symbol it has.
        width: Width,
        /// Which pattern writes a sign.
        sign: CurrencySign,
        /// Whether amounts are those of cash, where no precision is asked for.
        is_cash: bool,
    },
    /// An amount of money with the name of its currency, as `15,127.00 US dollars`.
    MoneyNamed {
        /// The currency.
        code: CurrencyCode,
        /// Whether amounts are those of cash, where no precision is asked for.
        is_cash: bool,
        /// Whether the number is shortened, and by which patterns, as in `15K US dollars`.
        notation: Notation,
    },
    /// An amount of money by the short patterns of its currency, as `$15K`.
    MoneyShort {
        /// The currency.
        code: CurrencyCode,
        /// Which symbol it has.
        width: Width,
        /// Which pattern writes a sign, where no compact pattern writes the amount.
        sign: CurrencySign,
    },
    /// The number of percents, as `12%` of 12.
    Percent,
    /// The number of permilles, as `12‰` of 12.
    Permille,
    /// The number with a unit, as `2 km`.
    Unit {
        /// The unit.
        unit: UnitName<'a>,
        /// Which patterns write it.
        width: UnitWidth,
        /// Whether the number is shortened, and by which patterns, as in `2K km`.
        notation: Notation,
    },
}

/// Whether a mode is half to even.
pub(crate) fn is_half_even(mode: SignedRoundingMode) -> bool
    ensures { result ≡ is_half_even mode }
{
    match mode {
        SignedRoundingMode::Unsigned(UnsignedRoundingMode::HalfEven) => true,
        SignedRoundingMode::Unsigned(
            UnsignedRoundingMode::Expand
            | UnsignedRoundingMode::Trunc
            | UnsignedRoundingMode::HalfExpand
            | UnsignedRoundingMode::HalfTrunc,
        ) => false,
        SignedRoundingMode::Ceil | SignedRoundingMode::Floor => false,
        SignedRoundingMode::HalfCeil | SignedRoundingMode::HalfFloor => false,
    }
}

/// What a form is to be (this project's own).
#[derive(Debug, Drop)]
pub struct Settings<'a> {
    /// The locale whose data is taken.
    pub locale: DataLocale,
    /// The numbering system that is preferred; `None` where none is.
    pub system: Option<NumberingSystem>,
    /// When separators are written; `None` is the default: `min2` for compact numbers and compact
    /// amounts, else `auto`.
    pub grouping: Option<FormGrouping>,
    /// How fine a written number is. `None`: as the digits of the currency for money in full;
    /// no fraction digit, or two significant digits, for what is shortened; else the digits are as
    /// they are given. The precision of a currency is two digits where no currency is asked for.
    pub precision: Option<Precision>,
    /// Which of the numbers around it is taken for a number, where numbers are rounded.
    pub mode: SignedRoundingMode,
    /// Whether a whole number is written without fraction digits, where numbers are rounded.
    pub hides_zeros_of_whole: bool,
    /// How many digits a number has before its fraction digits at least, where numbers are rounded.
    pub integer_digits: u16,
    /// The power of ten by which a number is multiplied before anything else: 2 for the percents of
    /// a number.
    pub scale: i16,
    /// Which signs are written.
    pub sign: SignDisplay,
    /// What is written.
    pub kind: Kind<'a>,
}

impl<'a> Model for Settings<'a> {
    ghost use Rattle.number_formatters.specs.Settings.{FormSettings};

    ghost Value = { FormSettings };

    ghost view = { λ w. record {
      locale = w.locale;
      system = w.system;
      grouping = w.grouping;
      precision = w.precision;
      mode = w.mode;
      hides_zeros_of_whole = w.hides_zeros_of_whole;
      integer_digits = w.integer_digits;
      scale = w.scale;
      sign = w.sign;
      kind = w.kind;
    } };
}
