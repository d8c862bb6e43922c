//! Lines, the forms of reports and their errors.

mod fields;
mod modes;
mod slow;
mod styles;
