//! Why options are rejected.

ghost use Rattle.std.specs.Prelude.{◌≡◌};
ghost use Rattle.locnum_options.specs.declared.fault.OptionFault.TheVariants.{OutOfMemory};

use crate::beside::{NumberOption, name_of};
use number_formatters::Unsupported;
use number_skeleton::SkeletonFault;
use std::alloc::{AllocError, AllocFailed};
use thiserror::Error;

/// Why options are rejected.
#[derive(Clone, Copy, Debug, PartialEq, Eq, Error)]
pub enum OptionFault {
    /// The text isn't a locale.
    #[error("--locale: not a locale")]
    Locale,
    /// The text isn't the name of a numbering system.
    #[error("--system: not the name of a numbering system")]
    System,
    /// The text isn't a grouping strategy.
    #[error("--grouping: neither auto, never, always nor min2")]
    Grouping,
    /// The text isn't a count of fraction digits or a range of counts.
    #[error("--fraction: neither N nor MIN..MAX, each at most 999")]
    Fraction,
    /// The text isn't a count of significant digits or a range of counts.
    #[error("--significant: neither N nor MIN..MAX, each from 1 to 999")]
    Significant,
    /// The text isn't an increment that number skeletons have.
    #[error("--increment: not 1, 2, 5 or 25 times a power of ten, in digits")]
    Increment,
    /// The text isn't a count of digits from 1 on.
    #[error("--integer: not a number of digits, from 1 to 999")]
    Integer,
    /// The text isn't a scale that number skeletons have.
    #[error("--scale: not a power of ten in digits, such as 100 or 0.01")]
    Scale,
    /// The text isn't a number skeleton.
    #[error("skeleton: {0}")]
    Skeleton(SkeletonFault),
    /// The skeleton asks for what no form has.
    #[error("skeleton: not supported: {0}")]
    Unsupported(Unsupported),
    /// An option says what a skeleton says.
    #[error("--skeleton: not with --{}", name_of(*.0))]
    BesideSkeleton(NumberOption),
    /// More than one option says how fine numbers are.
    #[error("--fraction, --significant, --increment and --cash: not together")]
    Precisions,
    /// The text isn't a rounding mode.
    #[error("--round: neither up, down, ceiling nor floor, with or without half-, nor half-even")]
    Round,
    /// The text isn't a way of showing signs.
    #[error("--sign: neither auto, always, never, except-zero nor negative")]
    Sign,
    /// The text isn't a style.
    #[error("--style: neither plain, short nor long")]
    Style,
    /// The text isn't three capital letters.
    #[error("--currency: not three capital letters")]
    Currency,
    /// The text isn't a width of what is asked for.
    #[error("--width: short, narrow, code, hidden or name for money; long, short or narrow for units")]
    Width,
    /// The accounting pattern is asked for with the names of currencies, which have none.
    #[error("--accounting: not with --width name")]
    Accounting,
    /// Compact amounts are asked for with digits of cash, which they don't have.
    #[error("--cash: not with --style short or long")]
    CompactCash,
    /// Two kinds of numbers are asked for at once.
    #[error("--currency, --percent, --permille and --unit: not together")]
    Together,
    /// An option of money without a currency, or a width without something that has one.
    #[error("--accounting and --cash want --currency, and --width wants --currency or --unit")]
    Alone,
    /// Compact numbers are asked for with an increment of which 1 is no multiple.
    #[error("--increment: not with --style short or long, unless 1 is a multiple of it")]
    CompactIncrement,
    /// A rounding mode is asked for where nothing is rounded.
    #[error("--round wants --fraction, --significant, --increment or --currency")]
    NothingRounded,
    /// Explanations are asked for with a padding, which they don't have.
    #[error("--explain: not with --padding")]
    Explained,
    /// The text isn't one byte.
    #[error("--delimiter: neither a single byte nor tab")]
    Delimiter,
    /// CSV is asked for with a delimiter that it has another use for.
    #[error("--csv: --delimiter is neither a quote, a line feed nor a carriage return")]
    CsvDelimiter,
    /// CSV is asked for with lines that end in NUL.
    #[error("--csv: not with --zero-terminated")]
    CsvZero,
    /// The text is neither a list of ranges nor one of names.
    #[error("--field: neither a list of N, N-, N-M, -M or -, from 1 on, nor one of names")]
    Fields,
    /// Fields are chosen by the names of a header that isn't asked for.
    #[error("--field: names are those of a header, which --header asks for")]
    Names,
    /// The text isn't a count of lines.
    #[error("--header: not a count of lines, from 1 on")]
    Header,
    /// The text isn't a count of columns.
    #[error("--padding: neither N nor -N, from 1 to 65535")]
    Padding,
    /// The text doesn't say what becomes of texts that are rejected.
    #[error("--invalid: neither abort, fail, warn nor ignore")]
    Invalid,
    /// An allocation failed.
    #[error("out of memory")]
    OutOfMemory,
}

impl From<AllocError> for OptionFault {
    ghost from_gives = { λ _ e. e ≡ OutOfMemory };

    fn from(_e: AllocError) -> OptionFault {
        OptionFault::OutOfMemory
    }
}

impl<T: Drop> From<AllocFailed<T>> for OptionFault {
    ghost from_gives = { λ _ e. e ≡ OutOfMemory };

    fn from(_e: AllocFailed<T>) -> OptionFault {
        OptionFault::OutOfMemory
    }
}
