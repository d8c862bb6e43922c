//! What a locale says about money: its patterns, and the symbols of a currency.

use crate::options::{CurrencyFormatterOptions, CurrencySign, Width};
use icu_dimension_data::{AffixTexts, CldrPattern, CurrencyCode, SignedPatterns};
use std::alloc::{AllocError, Global};
use std::marker::Model;

/// The patterns of money of a locale, with the texts of its signs.
#[derive(Drop)]
pub struct CurrencyPatterns {
    standard: CldrPattern,
    accounting: CldrPattern,
    minus_sign: String,
    plus_sign: String,
}

impl Model for CurrencyPatterns {
    ghost use Rattle.std.specs.String.{string_bytes};
    ghost use Rattle.icu_dimension.specs.CurrencyData.{MoneyPatterns};

    ghost Value = { MoneyPatterns };

    ghost view = { λ p. record {
      standard = p.standard;
      accounting = p.accounting;
      minus_sign = string_bytes p.minus_sign;
      plus_sign = string_bytes p.plus_sign;
    } };
}

/// The symbols of a currency in a locale.
#[derive(Drop)]
pub struct CurrencySymbols {
    short: String,
    narrow: String,
}

impl Model for CurrencySymbols {
    ghost use Rattle.std.specs.String.{string_bytes};
    ghost use Rattle.icu_dimension.specs.CurrencyData.{SymbolTexts};

    ghost Value = { SymbolTexts };

    ghost view = { λ s. record { short = string_bytes s.short; narrow = string_bytes s.narrow } };
}

impl CurrencySymbols {
    ghost use Rattle.std.specs.Prelude.{◌≡◌, IfOk};
    ghost use Rattle.icu_dimension.specs.CurrencyData.{symbol_of};

    /// The symbols of a currency: the one that distinguishes it from others, as `US$`, and the
    /// narrow one, as `$`.
    pub fn new(alloc: Global, short: &str, narrow: &str) -> Result<Self, AllocError>
        ensures { IfOk result (λ s. s ≡ record { short = short.now; narrow = narrow.now }) }
    {
        Ok(CurrencySymbols {
            short: String::from_str(alloc, short)?,
            narrow: String::from_str(alloc, narrow)?,
        })
    }

    /// What a width has for the symbol of the currency with this code.
    pub(crate) fn of_width<'a>(&'a self, code: &'a CurrencyCode, width: Width) -> &'a str
        ensures { result.now ≡ symbol_of self.now code.now width }
    {
        match width {
            Width::Short => self.short.as_str(),
            Width::Narrow => self.narrow.as_str(),
            Width::IsoCode => code.as_str(),
            Width::Hidden => "",
        }
    }
}

impl CurrencyPatterns {
    ghost use Rattle.std.specs.Prelude.{◌≡◌, IfOk};
    ghost use Rattle.icu_dimension.specs.CurrencyData.{money_patterns, pattern_for};

    /// The patterns of money of a locale, as `¤#,##0.00` and `¤#,##0.00;(¤#,##0.00)`, and its
    /// signs.
    pub fn new(
        alloc: Global,
        standard: CldrPattern,
        accounting: CldrPattern,
        minus_sign: &str,
        plus_sign: &str,
    ) -> Result<Self, AllocError>
        ensures { IfOk result (λ p. p ≡ record {
          standard = standard;
          accounting = accounting;
          minus_sign = minus_sign.now;
          plus_sign = plus_sign.now;
        }) }
    {
        let minus_sign = String::from_str(alloc, minus_sign)?;
        let plus_sign = String::from_str(alloc, plus_sign)?;
        Ok(CurrencyPatterns {
            standard,
            accounting,
            minus_sign,
            plus_sign,
        })
    }

    /// The pattern of a sign.
    fn of_sign(&self, sign: CurrencySign) -> &CldrPattern
        ensures { result.now ≡ pattern_for self.now sign }
    {
        match sign {
            CurrencySign::Standard => &self.standard,
            CurrencySign::Accounting => &self.accounting,
        }
    }

    /// The patterns of the three signs for the currency with this code, around numbers with these
    /// ten digits.
    // promise: A code or nothing stands where no symbol is wanted.
    // mutations: code_of_a_currency_as_its_symbol, hidden_symbol_as_the_short_one
    pub(crate) fn resolve(
        &self,
        alloc: Global,
        symbols: &CurrencySymbols,
        code: &CurrencyCode,
        digits: &[char; 10],
        options: CurrencyFormatterOptions,
    ) -> Result<SignedPatterns, AllocError>
        ensures { IfOk result (λ p.
            p ≡ money_patterns digits.now self.now symbols.now code.now options) }
    {
        let texts = AffixTexts {
            minus_sign: self.minus_sign.as_str(),
            plus_sign: self.plus_sign.as_str(),
            percent_sign: "%",
            currency: symbols.of_width(code, options.width),
        };
        self.of_sign(options.sign).resolve(alloc, &texts, digits)
    }
}
