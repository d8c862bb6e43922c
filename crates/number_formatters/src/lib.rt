//! Formatters of numbers, money, percents and units, by settings: what settings say, also those of
//! a number skeleton, and the formatter that the answers of tables make.
#![tactic(auto)]

mod formatter;
mod grouped;
mod loading;
mod loading_compact;
mod loading_short;
mod settings;
mod skeleton;

pub use formatter::{Formatter, LoadedFormatter};
pub use loading::{load_money, load_percent, load_permille, load_plain, money_options};
pub use loading_compact::{compact_money_options, load_money_short, load_named_by, load_unit_by};
pub use loading_short::{load_long, load_short};
pub use settings::{FormGrouping, Kind, Settings, UnitName, UnitWidth};
pub use skeleton::Unsupported;
