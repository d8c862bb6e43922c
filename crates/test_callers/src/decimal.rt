//! Tests of numbers, of units, and of their tables.

mod equal;
mod fixtures;
mod instances;
mod kept;
mod loading;
mod one_locale;
mod shelf;
mod styles;
mod table_styles;
mod told;
