//! Number skeletons: a text is read as settings, or has one first fault.
#![tactic(auto)]

mod bytes;
mod cuts;
mod draft;
mod fault;
mod fragments;
pub mod laws;
mod numbers;
mod options;
mod reader;
mod stems;
mod tokens;
mod values;
mod words;

pub use fault::{FaultKind, Setting, SkeletonFault, Thing};
pub use reader::read_skeleton;
pub use skeleton_settings::{
    CurrencyLetters, Grouping, Notation, NumberUnit, Precision, Priority, Skeleton, UnitWidth,
};
