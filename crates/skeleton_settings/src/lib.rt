//! The settings of a number skeleton, and their canonical text.
#![tactic(auto)]

mod canonical;
mod canonical_digits;
mod canonical_words;
mod settings;

pub use settings::{
    CurrencyLetters, Grouping, Notation, NumberUnit, Precision, Priority, Skeleton, UnitWidth,
};
