//! The compact tables of a currency.

use icu_decimal_data::CompactPatterns;
use icu_pattern::SinglePlaceholder;

/// The compact patterns of a currency in a locale, as `$0M`, for numbers without a sign, with a
/// minus and with a plus. They have the signs and the symbol in them
/// ([`CompactRows::resolve`]).
///
/// [`CompactRows::resolve`]: crate::CompactRows::resolve
#[derive(Drop)]
pub struct CompactCurrencyPatterns {
    /// For numbers without a sign.
    pub none: CompactPatterns<SinglePlaceholder>,
    /// For numbers with a minus.
    pub minus: CompactPatterns<SinglePlaceholder>,
    /// For numbers with a plus.
    pub plus: CompactPatterns<SinglePlaceholder>,
}
