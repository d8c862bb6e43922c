//! Entries of the digits of currencies.

ghost use Rattle.std.specs.Prelude.{◌≡◌, IfOk, Option, option_map};
ghost use Rattle.std.specs.List.{filter_map};
ghost use Rattle.serde_json.specs.View.{view};
ghost use Rattle.icu_table_entries.specs.Reading.{Gives};
ghost use Rattle.icu_dimension_tables.specs.CurrencyDigits.{cash_step_of, code_or_default, currency_code_of, currency_digits_under};
ghost use Rattle.icu_dimension_tables.specs.CurrencyDigits.{currency_digits_of, currency_in, default_digits, fraction_digits_of};
ghost use Rattle.icu_dimension_tables.specs.CurrencyDigits.{members_in, step_number_in};

use fixed_decimal::RoundingIncrement;
use icu_dimension_data::{CashStep, CurrencyCode, CurrencyDigits, CurrencyEntry, FractionDigits};
use icu_provider::DataLocale;
use icu_table_entries::entries::{EntryKind, optional_entries};
use icu_table_entries::fields::{byte_in, list_in, text_in};
use icu_table_entries::{EntryFault, Key, Position, TableError};
use serde_json::Value;
use std::alloc::{AllocError, Global};

/// The digits of a currency, or of all others.
#[derive(Drop)]
pub struct DigitsRow {
    /// The currency's code; none for all others.
    pub code: Option<CurrencyCode>,
    /// The digits.
    pub digits: FractionDigits,
}

/// The code of a currency.
#[tactic(auto, unfolding(crate::specs::CurrencyDigits::currency_code_of))]
pub fn currency_code_of(position: Position, text: &str) -> Result<CurrencyCode, TableError>
    ensures { Gives (λ x. x) result (currency_code_of position text.now) }
{
    match CurrencyCode::try_from_str(text) {
        Ok(code) => Ok(code),
        Err(_) => Err(position.refusal(EntryFault::BadCurrencyCode)),
    }
}

/// The code of a currency, or none for `DEFAULT`.
#[tactic(auto, unfolding(crate::specs::CurrencyDigits::code_or_default))]
fn code_or_default(position: Position, text: &str) -> Result<Option<CurrencyCode>, TableError>
    ensures { Gives (λ x. x) result (code_or_default position text.now) }
{
    if text == "DEFAULT" {
        return Ok(None);
    }
    Ok(Some(currency_code_of(position, text)?))
}

/// That many fraction digits, if they are 15 at most.
#[tactic(auto, unfolding(crate::specs::CurrencyDigits::fraction_digits_of))]
fn fraction_digits_of(position: Position, digits: u8) -> Result<u8, TableError>
    ensures { Gives (λ x. x) result (fraction_digits_of position digits) }
{
    if digits > 15 {
        return Err(position.refusal(EntryFault::TooManyDigits));
    }
    Ok(digits)
}

/// The step of cash of a number, if it has one.
#[tactic(auto, unfolding(crate::specs::CurrencyDigits::cash_step_of))]
fn cash_step_of(position: Position, number: u8) -> Result<CashStep, TableError>
    ensures { Gives (λ x. x) result (cash_step_of position number) }
{
    match CashStep::of_number(number) {
        Some(step) => Ok(step),
        None => Err(position.refusal(EntryFault::BadCashStep)),
    }
}

/// A list of three values, or of four.
#[tactic(auto, unfolding(crate::specs::CurrencyDigits::members_in))]
fn members_in(
    value: &Value,
    key: Key,
) -> Result<(&Value, (&Value, (&Value, Option<&Value>))), TableError>
    ensures { Gives
        (λ x. (
          view x.0.now,
          (
            view x.1.0.now,
            (
              view x.1.1.0.now,
              option_map (λ d. view d.now) x.1.1.1,
            ),
          ),
        ))
        result (members_in key (view value.now)) }
{
    match list_in(value, key)? {
        [code, standard, cash] => Ok((code, (standard, (cash, None)))),
        [code, standard, cash, step] => Ok((code, (standard, (cash, Some(step))))),
        _ => Err(TableError::WrongKind(key)),
    }
}

/// The number of the step of cash: without a member it is one.
#[tactic(auto, unfolding(crate::specs::CurrencyDigits::step_number_in))]
fn step_number_in(value: Option<&Value>, key: Key) -> Result<u8, TableError>
    ensures { Gives (λ x. x) result (step_number_in key
        (option_map (λ d. view d.now) value.entry)) }
{
    match value {
        Some(value) => byte_in(value, key),
        None => Ok(1),
    }
}

/// A row of the digits of currencies.
pub struct DigitsRowEntry;

impl EntryKind for DigitsRowEntry {
    type Entry = DigitsRow;

    ghost use Rattle.std.specs.Prelude.{true};
    ghost use Rattle.icu_dimension_tables.specs.CurrencyDigits.{digits_row_at};

    ghost read_at = { digits_row_at };

    ghost serves = { λ locale entry. true };

    #[tactic(auto, unfolding(crate::specs::CurrencyDigits::digits_row_at))]
    fn from_entry(
        alloc: Global,
        position: Position,
        value: &Value,
    ) -> Result<Self::Entry, TableError> {
        let (text, (standard, (cash, step))) = members_in(value, position.key)?;
        let text = text_in(text, position.key)?;
        let standard = byte_in(standard, position.key)?;
        let cash = byte_in(cash, position.key)?;
        let step = step_number_in(step, position.key)?;
        let code = code_or_default(position, text)?;
        let digits = FractionDigits {
            standard: fraction_digits_of(position, standard)?,
            cash: fraction_digits_of(position, cash)?,
            cash_step: cash_step_of(position, step)?,
        };
        Ok(DigitsRow { code, digits })
    }

    /// Digits are the same in each locale.
    fn serves(_entry: &Self::Entry, _locale: &DataLocale) -> bool {
        true
    }
}

impl DigitsRow {
    /// The currency with its digits, if the row is that of one currency.
    fn currency(&self) -> Option<CurrencyEntry>
        ensures { result ≡ currency_in self.now }
    {
        match self.code {
            Some(code) => Some(CurrencyEntry {
                code,
                digits: self.digits,
            }),
            None => None,
        }
    }
}

/// The rows that are those of one currency.
fn currencies(alloc: Global, rows: &[DigitsRow]) -> Result<Vec<CurrencyEntry>, AllocError>
    ensures { IfOk result (λ v. v.items ≡ filter_map currency_in rows.now) }
{
    rows.iter().filter_map(|row| row.currency()).collect(alloc)
}

/// The digits of the first row for all others.
#[tactic(auto, unfolding(crate::specs::CurrencyDigits::default_digits))]
fn default_digits(rows: &[DigitsRow]) -> FractionDigits
    ensures { result ≡ default_digits rows.now }
{
    for row in rows {
        if row.code.is_none() {
            return row.digits;
        }
    }
    FractionDigits {
        standard: 2,
        cash: 2,
        cash_step: CashStep {
            increment: RoundingIncrement::MultiplesOf1,
            zeros: 0,
        },
    }
}

/// The digits of all currencies by rows, if there are any.
pub fn digits_of_rows(
    alloc: Global,
    rows: &Option<Vec<DigitsRow>>,
) -> Result<Option<CurrencyDigits>, AllocError>
    ensures { IfOk result (λ d. d
        ≡ option_map currency_digits_of (option_map (λ v. v.items) rows.now)) }
{
    let Some(rows) = rows else {
        return Ok(None);
    };
    let currencies = currencies(alloc, rows)?;
    Ok(Some(CurrencyDigits::new(currencies, default_digits(rows))))
}

/// The digits of all currencies, if the document has their key.
#[tactic(auto, unfolding(crate::specs::CurrencyDigits::currency_digits_under))]
pub fn currency_digits_under(
    alloc: Global,
    value: &Value,
) -> Result<Option<CurrencyDigits>, TableError>
    ensures { Gives (λ x. x) result (currency_digits_under (view value.now)) }
{
    let rows = optional_entries::<DigitsRowEntry>(alloc, value, Key::CurrencyDigits)?;
    Ok(digits_of_rows(alloc, &rows)?)
}
