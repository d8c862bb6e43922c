//! Calls of codes and digits of currencies, of errors of patterns and of parts.
//!
//! Digits are spelled `DEFAULT 2 2; CHF 2 2 5`: those of all other currencies, and then of each code
//! the digits, the digits in cash, and the number of the step of cash if that isn't 1. A step is
//! answered as its increment and its zeros.

use crate::decimal::compact::digits_of_number;
use crate::dimension_faults::{Fault, said, yes_or_no};
use crate::dimension_making::decimal;
use crate::money::code_of;
use fixed_decimal::{Decimal, RoundingIncrement, Sign};
use icu_dimension_data::parts::{
    CURRENCY, MINUS_SIGN, PER_MILLE_SIGN, PERCENT_SIGN, PLUS_SIGN, UNIT,
};
use icu_dimension_data::{
    BadCurrencyCode, CashStep, CurrencyCode, CurrencyDigits, CurrencyEntry, FractionDigits,
    PatternFault,
};
use std::alloc::Global;
use writeable::Part;

/// The code that a text is read as, and as it is displayed if that is another text.
fn try_from_str(alloc: Global, text: &str) -> Result<String, Fault> {
    match CurrencyCode::try_from_str(text) {
        Ok(code) => {
            let shown = format!(in alloc; "{code}")?;
            if shown.as_str() == code.as_str() {
                Ok(shown)
            } else {
                Ok(format!(in alloc; "{}, but displayed {shown}", code.as_str())?)
            }
        }
        Err(BadCurrencyCode) => said(alloc, "BadCurrencyCode"),
    }
}

/// Whether two codes are equal.
fn eq(alloc: Global, one: &str, other: &str) -> Result<String, Fault> {
    match code_of(one).zip(code_of(other)) {
        Some((one, other)) => yes_or_no(alloc, one == other),
        None => Err(Fault::Unreadable),
    }
}

/// A step of cash: its increment and its zeros.
fn step_text(alloc: Global, step: CashStep) -> Result<String, Fault> {
    let increment = match step.increment {
        RoundingIncrement::MultiplesOf1 => "MultiplesOf1",
        RoundingIncrement::MultiplesOf2 => "MultiplesOf2",
        RoundingIncrement::MultiplesOf5 => "MultiplesOf5",
        RoundingIncrement::MultiplesOf25 => "MultiplesOf25",
    };
    Ok(format!(in alloc; "{increment} {}", step.zeros)?)
}

/// The step of cash of a number.
fn of_number(alloc: Global, word: &str) -> Result<String, Fault> {
    let Some(number) = word.parse().ok() else {
        return Err(Fault::Unreadable);
    };
    match CashStep::of_number(number) {
        Some(step) => step_text(alloc, step),
        None => said(alloc, "none"),
    }
}

/// The digits of `STANDARD CASH`, or of `STANDARD CASH STEP`.
fn digits_of(text: &str) -> Option<FractionDigits> {
    let (standard, cash) = text.split_once(' ')?;
    let (cash, step) = cash.split_once(' ').unwrap_or((cash, "1"));
    Some(FractionDigits {
        standard: standard.parse().ok()?,
        cash: cash.parse().ok()?,
        cash_step: CashStep::of_number(step.parse().ok()?)?,
    })
}

/// The digits of a currency, its digits in cash, and its step of cash if that isn't one.
pub(crate) fn digits_text(alloc: Global, digits: FractionDigits) -> Result<String, Fault> {
    let (standard, cash) = (digits.standard, digits.cash);
    let step = step_text(alloc, digits.cash_step)?;
    if step.as_str() == "MultiplesOf1 0" {
        Ok(format!(in alloc; "{standard} {cash}")?)
    } else {
        Ok(format!(in alloc; "{standard} {cash} {step}")?)
    }
}

/// The entry of `CODE STANDARD CASH`.
fn entry_of(text: &str) -> Option<CurrencyEntry> {
    let (code, digits) = text.split_once(' ')?;
    match code_of(code).zip(digits_of(digits)) {
        Some((code, digits)) => Some(CurrencyEntry { code, digits }),
        None => None,
    }
}

/// Puts the entry that a text spells behind others.
fn push_entry(entries: &mut Vec<CurrencyEntry>, text: &str) -> Result<(), Fault> {
    match entry_of(text) {
        Some(entry) => match entries.push(entry) {
            Ok(()) => Ok(()),
            Err(_) => Err(Fault::OutOfMemory),
        },
        None => Err(Fault::Unreadable),
    }
}

/// The digits that a word spells.
fn all_digits(alloc: Global, word: &str) -> Result<CurrencyDigits, Fault> {
    let mut parts = word.split("; ");
    let others = parts.next().unwrap_or_default().strip_prefix("DEFAULT ");
    let others = digits_of(others.unwrap_or_default()).ok_or(Fault::Unreadable)?;
    let mut entries = Vec::new(alloc);
    for part in parts {
        push_entry(&mut entries, part)?;
    }
    Ok(CurrencyDigits::new(entries, others))
}

/// What digits answer for a code.
fn by_digits(alloc: Global, word: &str, code: &str) -> Result<String, Fault> {
    let digits = all_digits(alloc, word)?;
    of(alloc, &digits, code)
}

/// The digits of a code, and those that a copy has if they are others.
fn of(alloc: Global, digits: &CurrencyDigits, code: &str) -> Result<String, Fault> {
    let Some(code) = code_of(code) else {
        return Err(Fault::Unreadable);
    };
    let found = digits.of(code);
    let copied = digits.copy(alloc)?.of(code);
    if found == copied {
        digits_text(alloc, found)
    } else {
        said(alloc, "others by a copy")
    }
}

/// An amount as it is spelled.
fn amount_text(alloc: Global, amount: &Decimal) -> Result<String, Fault> {
    let sign = match amount.sign {
        Sign::Negative => "-",
        Sign::Positive => "+",
        Sign::None => "",
    };
    let digits = digits_of_number(alloc, &amount.absolute)?;
    Ok(format!(in alloc; "{sign}{digits}")?)
}

/// An amount rounded to that many digits.
fn rounded_to(alloc: Global, word: &str) -> Result<String, Fault> {
    let amount = decimal(alloc, word)?;
    amount_text(alloc, &amount)
}

/// The fault of a name and a byte.
fn fault_of(name: &str, byte: usize) -> Option<PatternFault> {
    match name {
        "NoNumber" => Some(PatternFault::NoNumber { byte }),
        "TwoNumbers" => Some(PatternFault::TwoNumbers { byte }),
        "UnclosedQuote" => Some(PatternFault::UnclosedQuote { byte }),
        "ThirdSubpattern" => Some(PatternFault::ThirdSubpattern { byte }),
        "Reserved" => Some(PatternFault::Reserved { byte }),
        "OutOfMemory" => Some(PatternFault::OutOfMemory),
        _ => None,
    }
}

/// How a fault is displayed.
fn displayed(alloc: Global, name: &str, byte: &str) -> Result<String, Fault> {
    match fault_of(name, byte.parse().unwrap_or_default()) {
        Some(fault) => Ok(format!(in alloc; "{fault}")?),
        None => Err(Fault::Unreadable),
    }
}

/// How the error of codes is displayed.
fn bad_code(alloc: Global) -> Result<String, Fault> {
    Ok(format!(in alloc; "{}", BadCurrencyCode)?)
}

/// The part of a name.
fn part_of(name: &str) -> Option<Part> {
    match name {
        "MINUS_SIGN" => Some(MINUS_SIGN),
        "PLUS_SIGN" => Some(PLUS_SIGN),
        "CURRENCY" => Some(CURRENCY),
        "PERCENT_SIGN" => Some(PERCENT_SIGN),
        "PER_MILLE_SIGN" => Some(PER_MILLE_SIGN),
        "UNIT" => Some(UNIT),
        _ => None,
    }
}

/// The category and the value of a part.
fn part_text(alloc: Global, name: &str) -> Result<String, Fault> {
    match part_of(name) {
        Some(part) => Ok(format!(in alloc; "{} {}", part.category, part.value)?),
        None => Err(Fault::Unreadable),
    }
}

/// What a call with one argument answers.
fn answer_of_one(alloc: Global, kind: &str, call: &str, word: &str) -> Result<String, Fault> {
    match kind {
        "CurrencyCode" if call == "try_from_str" => try_from_str(alloc, word),
        "CashStep" if call == "of_number" => of_number(alloc, word),
        "PatternFault" if call == "display" => displayed(alloc, word, ""),
        "" if call == "rounded_to" => rounded_to(alloc, word),
        "" if call == "parts" => part_text(alloc, word),
        _ => Err(Fault::Unreadable),
    }
}

/// What a call with two arguments answers.
fn result_of_two(
    alloc: Global,
    kind: &str,
    call: &str,
    (one, other): (&str, &str),
) -> Result<String, Fault> {
    match kind {
        "CurrencyCode" if call == "eq" => eq(alloc, one, other),
        "CurrencyDigits" if call == "of" => by_digits(alloc, one, other),
        "PatternFault" if call == "display" => displayed(alloc, one, other),
        _ => Err(Fault::Unreadable),
    }
}

/// What a call of codes and digits answers.
pub(crate) fn returned(
    alloc: Global,
    kind: &str,
    call: &str,
    arguments: &[String],
) -> Result<String, Fault> {
    match arguments {
        [] if kind == "BadCurrencyCode" && call == "display" => bad_code(alloc),
        [word] => answer_of_one(alloc, kind, call, word),
        [one, other] => result_of_two(alloc, kind, call, (one, other)),
        _ => Err(Fault::Unreadable),
    }
}
