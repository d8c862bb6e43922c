//! Lines with numbers in their fields.

mod failing;
mod running;
