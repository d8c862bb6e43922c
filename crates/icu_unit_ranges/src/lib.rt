//! Ranges of numbers with a unit or with the name of a currency, as `3–5 km` and
//! `1.00–2.00 US dollars`, over any formatter of numbers.
#![tactic(auto)]

mod given;
mod long_currency_range_formatter;
mod names;
mod plural_range_style;
mod recording;
mod showing;
mod single;
mod unit_pattern;
mod units;
mod units_range_formatter;
mod values;

pub use given::GivenNumber;
pub use long_currency_range_formatter::LongCurrencyRangeFormatter;
pub use plural_range_style::PluralRangeStyle;
pub use units_range_formatter::UnitsRangeFormatter;
