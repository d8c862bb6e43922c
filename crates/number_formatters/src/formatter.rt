//! What writes numbers, and how they are rounded before.

use decimal_lines::Mode;
use icu_decimal::{CompactDecimalFormatter, DecimalFormatter};
use icu_dimension::{
    CompactCurrencyFormatter, CurrencyFormatter, LongCurrencyFormatter, PercentFormatter,
    UnitsFormatter,
};
use number_rounding::Rounding;

/// What writes a number, whose digits and sign are given.
#[derive(Drop)]
pub enum Formatter {
    /// The number alone, in full or shortened.
    Numbers(Mode),
    /// The number shortened by patterns, with digits that are asked for.
    ShortNumbers(CompactDecimalFormatter, Rounding),
    /// An amount of money with the symbol of its currency.
    Money(CurrencyFormatter<DecimalFormatter>),
    /// An amount of money with the name of its currency.
    MoneyNamed(LongCurrencyFormatter<DecimalFormatter>),
    /// An amount of money in compact form with the symbol of its currency.
    MoneyShort(CompactCurrencyFormatter),
    /// The same, with digits that are asked for.
    ShortMoney(CompactCurrencyFormatter, Rounding),
    /// An amount of money in compact form with the name of its currency.
    ShortNamed(LongCurrencyFormatter<CompactDecimalFormatter>, Rounding),
    /// The number of percents or of permilles.
    Percent(PercentFormatter<DecimalFormatter>),
    /// The number with a unit.
    Units(UnitsFormatter<DecimalFormatter>),
    /// The number in compact form with a unit.
    ShortUnits(UnitsFormatter<CompactDecimalFormatter>, Rounding),
}

/// A formatter of what tables answer (this project's own).
#[derive(Drop)]
pub struct LoadedFormatter {
    /// How numbers are rounded before it writes them, if they are. A formatter that shortens
    /// numbers has the rounding itself.
    pub rounding: Option<Rounding>,
    /// What writes them.
    pub formatter: Formatter,
}
