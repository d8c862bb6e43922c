//! The digits of decimals.

use crate::CallResult;
use fixed_decimal::Decimal;
use icu_decimal::DecimalFormatter;
use icu_decimal::options::{DecimalFormatterOptions, GroupingStrategy};
use icu_decimal_data::DecimalSymbols;
use std::alloc::{AllocError, Global};
use writeable::ASCII_DIGITS;

/// A formatter that writes digits, a point and a sign.
fn plain(alloc: Global) -> Result<DecimalFormatter, AllocError> {
    let Ok(symbols) = DecimalSymbols::new_en_for_testing(alloc) else {
        return Err(AllocError);
    };
    let options = DecimalFormatterOptions {
        grouping_strategy: Some(GroupingStrategy::Never),
    };
    Ok(DecimalFormatter::from_parts(symbols, ASCII_DIGITS, options))
}

/// The digits of a decimal, with its sign.
pub(crate) fn digits_of(alloc: Global, decimal: &Decimal) -> CallResult {
    let formatter = plain(alloc)?;
    match formatter.format_to_string(alloc, decimal) {
        Ok(text) => Ok(Some(text)),
        Err(_) => Err(AllocError),
    }
}
