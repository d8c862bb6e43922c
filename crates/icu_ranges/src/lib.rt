//! Ranges of numbers, as `3–5` and `-3 – 5`, over any formatter of numbers.
#![tactic(auto)]

mod approximately;
mod around;
mod currency_range_formatter;
mod decimal_range;
mod edges;
pub mod error;
mod joined;
pub mod laws;
mod loading;
mod number_range_formatter;
mod options;
mod order;
mod percent_range_formatter;
mod plural_ranges;
mod range_pattern;
mod range_style;
mod showing;

pub use approximately::Approximated;
pub use currency_range_formatter::CurrencyRangeFormatter;
pub use decimal_range::{DecimalRange, Descending};
pub use error::{PluralRangesError, RangePatternError};
pub use loading::{PluralsRangesV1, RangePatternsV1};
pub use number_range_formatter::NumberRangeFormatter;
pub use options::RangeIdentityFallback;
pub use percent_range_formatter::PercentRangeFormatter;
pub use plural_ranges::{PluralRange, PluralRanges, first_repeated};
pub use range_pattern::RangePattern;
pub use range_style::RangeStyle;
