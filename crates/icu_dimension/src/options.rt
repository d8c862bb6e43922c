//! How amounts of money are written (ICU4X, `CurrencyFormatterOptions`).

use icu_decimal_options::options::DecimalFormatterOptions;

/// Which symbol a currency has.
#[derive(Clone, Copy, Debug, PartialEq, Eq)]
pub enum Width {
    /// The symbol that distinguishes it from other currencies, as `US$`.
    Short,
    /// The narrow symbol, as `$`.
    Narrow,
    /// The code in place of the symbol, as `USD` (this project's own).
    IsoCode,
    /// No symbol (this project's own).
    Hidden,
}

/// Which pattern writes a sign.
#[derive(Clone, Copy, Debug, PartialEq, Eq)]
pub enum CurrencySign {
    /// That of the standard pattern, as `-$1.00`.
    Standard,
    /// That of the accounting pattern, as `($1.00)`.
    Accounting,
}

/// How amounts of money are written.
#[derive(Clone, Copy, Debug, PartialEq, Eq)]
pub struct CurrencyFormatterOptions {
    /// How the number is written.
    pub decimal: DecimalFormatterOptions,
    /// Which symbol the currency has.
    pub width: Width,
    /// Which pattern writes a sign.
    pub sign: CurrencySign,
}

/// The short symbol and the standard pattern.
impl Default for CurrencyFormatterOptions {
    ghost use Rattle.std.specs.Prelude.{◌≡◌, None};
    ghost use Rattle.icu_dimension.specs.declared.options.Width.TheVariants.{Short};
    ghost use Rattle.icu_dimension.specs.declared.options.CurrencySign.TheVariants.{Standard};

    ghost is_default = { λ o.
        o ≡ record {
          decimal = record { grouping_strategy = None };
          width = Short;
          sign = Standard;
        } };

    fn default() -> Self {
        CurrencyFormatterOptions {
            decimal: DecimalFormatterOptions::default(),
            width: Width::Short,
            sign: CurrencySign::Standard,
        }
    }
}
