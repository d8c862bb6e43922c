//! Errors displayed under a width, a fill and a precision.

mod forms;
mod modes;
