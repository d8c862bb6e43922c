//! Codes of currencies.

ghost use Rattle.std.specs.Prelude.{◌≡◌, ◌↔◌, IfOk, IsOk};
ghost use Rattle.std.specs.List.{list_all};
ghost use Rattle.icu_dimension_data.specs.Currency.{is_capital, is_currency_code, IsCurrencyCode};

use std::marker::Model;
use std::{fmt, str};
use thiserror::Error;

/// The text isn't the code of a currency: it isn't three ASCII capitals.
#[derive(Clone, Copy, Debug, PartialEq, Eq, Error)]
#[error("not the code of a currency")]
pub struct BadCurrencyCode;

/// The code of a currency in the form of ISO 4217, as `EUR`: three ASCII capitals. It isn't checked
/// that a currency has the code.
#[derive(Clone, Copy, Debug, PartialEq, Eq)]
pub struct CurrencyCode {
    letters: [u8; 3],
}

impl Model for CurrencyCode {
    ghost use Rattle.std.specs.Prelude.{ℕ, List};
    ghost use Rattle.icu_dimension_data.specs.Currency.{IsCurrencyCode};

    ghost Value = { List ℕ };

    ghost view = { λ c. c.letters };

    ghost invariant = { λ c. IsCurrencyCode c.letters };

    ghost inverse = { λ letters. record { letters = letters } };
}

fn is_capital(byte: u8) -> bool
    ensures { result ≡ is_capital byte }
{
    byte.is_ascii_uppercase()
}

fn are_capitals(bytes: &[u8]) -> bool
    ensures { result ≡ list_all is_capital bytes.now }
{
    bytes.iter().all(|byte| is_capital(*byte))
}

#[tactic(auto, unfolding(crate::specs::Currency::is_currency_code))]
fn is_code(bytes: &[u8]) -> bool
    ensures { result ≡ is_currency_code bytes.now }
{
    bytes.len() == 3 && are_capitals(bytes)
}

impl CurrencyCode {
    /// The code that a text spells. Small letters are rejected.
    // promise: Exactly three ASCII capitals are a currency's code.
    // mutations: code_small_letters_accepted
    pub fn try_from_str(text: &str) -> Result<Self, BadCurrencyCode>
        ensures accepted { IsOk result ↔ IsCurrencyCode text.now }
        ensures code { IfOk result (λ code. code ≡ text.now) }
    {
        let bytes = text.as_bytes();
        if !is_code(bytes) {
            return Err(BadCurrencyCode);
        }
        let mut letters = [0; 3];
        letters.copy_from_slice(bytes);
        Ok(CurrencyCode { letters })
    }

    /// The three letters.
    pub fn as_str(&self) -> &str
        ensures letters { result.now ≡ self.now }
        ensures valid { IsCurrencyCode self.now }
    {
        match str::from_utf8(&self.letters) {
            Ok(letters) => letters,
            Err(_) => unreachable!(),
        }
    }
}

impl fmt::Display for CurrencyCode {
    ghost use Rattle.std.specs.Prelude.{Some};

    ghost output = { λ c. Some c };

    fn fmt<F: fmt::Write>(&self, f: &mut fmt::Formatter<F>) -> fmt::Result {
        f.write_str(self.as_str())
    }
}
