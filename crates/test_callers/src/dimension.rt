//! Tests of money, percents and units.

mod instances;
mod making;
mod readable;
mod refusing;
mod told;
mod withheld;
