//! Values and errors displayed under a width, a fill and a precision.

mod base;
mod data;
mod decimals;
