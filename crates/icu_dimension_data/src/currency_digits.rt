//! How many fraction digits the amounts of a currency have.

ghost use Rattle.std.specs.Prelude.{◌≡◌, ◌≢◌, ◌↔◌, ◌-ℤ◌, IfErr, IfOk, IsErrAnd, MatchResult, pos};
ghost use Rattle.fixed_decimal.specs.Rounding.{IsRounded, RoundsPastLimits};
ghost use Rattle.fixed_decimal.specs.Unsigned.{IsUnsigned};

use crate::currency_code::CurrencyCode;
use fixed_decimal::{Decimal, DecimalError, RoundingIncrement};
use std::marker::Model;

/// The step of amounts in cash, counted in the last of their fraction digits (CLDR, `currencyData`,
/// `info`, `cashRounding`): of francs 5, as the smallest coin has 5 hundredths of a franc.
#[derive(Clone, Copy, Debug, PartialEq, Eq)]
pub struct CashStep {
    /// The step without the zeros at its end.
    pub increment: RoundingIncrement,
    /// How many zeros stand at its end.
    pub zeros: u8,
}

impl CashStep {
    ghost use Rattle.std.specs.Prelude.{◌≡◌};
    ghost use Rattle.icu_dimension_data.specs.Digits.{cash_step};

    /// The step of a number, if that is 1, 2, 5 or 25 with zeros behind it or none.
    // promise: A number has its step, or none.
    // mutations: step_of_fifty_read_as_five
    #[tactic(auto, unfolding(crate::specs::Digits::cash_step))]
    pub fn of_number(number: u8) -> Option<CashStep>
        ensures { result ≡ cash_step number }
    {
        let (increment, zeros) = match number {
            1 => (RoundingIncrement::MultiplesOf1, 0),
            2 => (RoundingIncrement::MultiplesOf2, 0),
            5 => (RoundingIncrement::MultiplesOf5, 0),
            10 => (RoundingIncrement::MultiplesOf1, 1),
            20 => (RoundingIncrement::MultiplesOf2, 1),
            25 => (RoundingIncrement::MultiplesOf25, 0),
            50 => (RoundingIncrement::MultiplesOf5, 1),
            100 => (RoundingIncrement::MultiplesOf1, 2),
            200 => (RoundingIncrement::MultiplesOf2, 2),
            250 => (RoundingIncrement::MultiplesOf25, 1),
            _ => return None,
        };
        Some(CashStep { increment, zeros })
    }
}

/// How many fraction digits amounts of a currency have (CLDR, `currencyData`, `info`).
#[derive(Clone, Copy, Debug, PartialEq, Eq)]
pub struct FractionDigits {
    /// In writing and in accounts.
    pub standard: u8,
    /// In cash.
    pub cash: u8,
    /// The step of amounts in cash.
    pub cash_step: CashStep,
}

/// The digits of a currency.
#[derive(Clone, Copy, Debug, PartialEq, Eq)]
pub struct CurrencyEntry {
    /// The code of the currency.
    pub code: CurrencyCode,
    /// The digits of its amounts.
    pub digits: FractionDigits,
}

/// How many fraction digits the amounts of each currency have.
#[derive(Drop)]
pub struct CurrencyDigits {
    pub(crate) entries: Vec<CurrencyEntry>,
    pub(crate) others: FractionDigits,
}

impl Model for CurrencyDigits {
    ghost use Rattle.icu_dimension_data.specs.Digits.{Digits};

    ghost Value = { Digits };

    ghost view = { λ d. record { entries = d.entries.items; others = d.others } };
}

impl CurrencyDigits {
    ghost use Rattle.std.specs.Prelude.{◌≡◌};
    ghost use Rattle.icu_dimension_data.specs.Digits.{digits_of};

    /// The digits of these currencies, and of all others. Of several entries with one code the
    /// first counts.
    pub fn new(entries: Vec<CurrencyEntry>, others: FractionDigits) -> Self
        ensures { result ≡ record { entries = entries.items; others = others } }
    {
        CurrencyDigits { entries, others }
    }

    /// The digits of a currency.
    // promise: A currency has its entry's digits, or those of all others.
    // mutations: digits_of_another_currency
    pub fn of(&self, code: CurrencyCode) -> FractionDigits
        ensures { result ≡ digits_of self.now code }
    {
        for entry in &self.entries {
            if entry.code == code {
                return entry.digits;
            }
        }
        self.others
    }
}

/// The power of the last of that many fraction digits.
fn last_power(digits: u8) -> i16
    ensures { result ≡ pos 0 -ℤ pos digits }
{
    -i16::from(digits)
}

/// The amount rounded to that many fraction digits, half to even; where it has fewer, zeros are
/// written behind them. `Limit` and out of memory hand the amount back, as [`Decimal::rounded`]
/// does.
// promise: An amount is rounded to these digits; its sign stays.
// mutations: rounded_to_one_digit_more
pub fn rounded_to(amount: Decimal, digits: u8) -> Result<Decimal, (Decimal, DecimalError)>
    ensures rounded { IfOk result (λ y.
        IsRounded amount.absolute (pos 0 -ℤ pos digits) y.absolute) }
    ensures sign { IfOk result (λ y. y.sign ≡ amount.sign) }
    ensures valid { MatchResult result (λ y. IsUnsigned y.absolute) (λ e. IsUnsigned e.0.absolute) }
    ensures limit { IsErrAnd result (λ e. e.1 ≡ DecimalError.Limit)
        ↔ RoundsPastLimits amount.absolute (pos 0 -ℤ pos digits) }
    ensures no_syntax { IfErr result (λ e. e.1 ≢ DecimalError.Syntax) }
    ensures handed_back { IfErr result (λ e. e.0 ≡ amount) }
{
    amount.rounded(last_power(digits))
}
