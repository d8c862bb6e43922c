//! Callers that conclude from equal texts of money to equal amounts, proved by public clauses alone.

ghost use Rattle.std.specs.Prelude.{◌≡◌, IfSome, IsTrue};

use crate::dimension::making::{ENGLISH, Money, decimal, money_of};
use fixed_decimal::Decimal;
use icu_decimal::DecimalFormatter;
use icu_dimension::CurrencyFormatter;
use icu_dimension::laws::{money_text_tells, told_apart_share_no_text};
use std::alloc::Global;

const DOLLARS: Money = (ENGLISH, "¤#,##0.00", "$");

const US_DOLLARS: Money = (ENGLISH, "¤#,##0.00", "US$");

/// A sign shows nothing of the amount.
const HIDDEN: Money = (ENGLISH, "¤0;¤0", "$");

/// Whether two amounts have one text: then they are equal. None if the formatter isn't readable or
/// memory runs out.
fn have_one_text(
    alloc: Global,
    money: &CurrencyFormatter<DecimalFormatter>,
    one: &Decimal,
    other: &Decimal,
) -> Option<bool>
    ensures { IfSome result (λ same. IsTrue same →
        (one.now.sign ≡ other.now.sign) × (one.now.absolute ≡ other.now.absolute)) }
{
    money_text_tells();
    let _ = one.absolute.is_zero();
    let _ = other.absolute.is_zero();
    if !money.is_readable() {
        return None;
    }
    let Ok(first) = money.write_to_string(alloc, one) else {
        return None;
    };
    let Ok(second) = money.write_to_string(alloc, other) else {
        return None;
    };
    Some(first == second)
}

/// Whether amounts by two formatters have one text, which they never have. None if the formatters
/// aren't distinguished or memory runs out.
fn share_a_text(
    alloc: Global,
    money: &CurrencyFormatter<DecimalFormatter>,
    amount: &Decimal,
    other_money: &CurrencyFormatter<DecimalFormatter>,
    other_amount: &Decimal,
) -> Option<bool>
    ensures { IfSome result (λ same. ¬ IsTrue same) }
{
    told_apart_share_no_text();
    let _ = amount.absolute.is_zero();
    let _ = other_amount.absolute.is_zero();
    if !money.is_told_apart_from(other_money) {
        return None;
    }
    let Ok(first) = money.write_to_string(alloc, amount) else {
        return None;
    };
    let Ok(second) = other_money.write_to_string(alloc, other_amount) else {
        return None;
    };
    Some(first == second)
}

/// Two amounts, and whether they have one text.
const AMOUNTS: &[(Money, &str, &str, Option<bool>)] = &[
    (DOLLARS, "1234.5", "1234.5", Some(true)),
    (DOLLARS, "-1234.5", "1234.5", Some(false)),
    (DOLLARS, "1.5", "1.50", Some(false)),
    (HIDDEN, "1", "1", None),
];

/// Whether two amounts have one text; none if out of memory, too.
fn is_one_text(alloc: Global, money: Money, one: &str, other: &str) -> Option<bool> {
    match money_of(alloc, money).zip(decimal(alloc, one).zip(decimal(alloc, other))) {
        Some((money, (one, other))) => have_one_text(alloc, &money, &one, &other),
        None => None,
    }
}

/// The same, asked once more where nothing was answered.
fn tells(alloc: Global, money: Money, one: &str, other: &str) -> Option<bool> {
    match is_one_text(alloc, money, one, other) {
        Some(same) => Some(same),
        None => is_one_text(alloc, money, one, other),
    }
}

#[test]
fn equal_texts_of_readable_money_are_of_one_amount(rt: HostRuntime) {
    for &(money, one, other, same) in AMOUNTS {
        assert!(rt; tells(rt.alloc(), money, one, other) == same);
    }
}

/// Two kinds of money, and whether they are distinguished by the texts of 1 of each.
const TOLD: &[(Money, Money, Option<bool>)] = &[
    (DOLLARS, US_DOLLARS, Some(false)),
    (DOLLARS, DOLLARS, None),
];

/// Whether 1 of each has one text; none if out of memory, too.
fn is_a_text_shared(alloc: Global, one: Money, other: Money) -> Option<bool> {
    let amount = decimal(alloc, "1");
    match money_of(alloc, one).zip(money_of(alloc, other).zip(amount)) {
        Some((one, (other, amount))) => share_a_text(alloc, &one, &amount, &other, &amount),
        None => None,
    }
}

/// The same, asked once more where nothing was answered.
fn tell_of_texts(alloc: Global, one: Money, other: Money) -> Option<bool> {
    match is_a_text_shared(alloc, one, other) {
        Some(same) => Some(same),
        None => is_a_text_shared(alloc, one, other),
    }
}

#[test]
fn no_text_is_shared_where_money_is_told_apart(rt: HostRuntime) {
    for &(one, other, same) in TOLD {
        assert!(rt; tell_of_texts(rt.alloc(), one, other) == same);
    }
}
