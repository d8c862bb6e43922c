//! From two equal texts of money to what they determine: a caller of the law, proved by public
//! clauses alone.

ghost use Rattle.std.specs.Prelude.{IfSome, IsTrue};
ghost use Rattle.test_callers.specs.OneAmount.{AreOneAmount};

use crate::dimension::making::{ENGLISH, Money, Numbers, decimal, money_of};
use fixed_decimal::Decimal;
use icu_decimal::DecimalFormatter;
use icu_dimension::CurrencyFormatter;
use icu_dimension::laws::money_text_tells_the_symbol;
use std::alloc::Global;

/// Whether two amounts have one text: then they are one amount. None if memory runs out.
fn have_one_text(
    alloc: Global,
    money: &CurrencyFormatter<DecimalFormatter>,
    amount: &Decimal,
    other_money: &CurrencyFormatter<DecimalFormatter>,
    other_amount: &Decimal,
) -> Option<bool>
    ensures { IfSome result (λ same. IsTrue same →
        AreOneAmount money.now other_money.now amount.now.sign other_amount.now.sign
        amount.now.absolute other_amount.now.absolute) }
{
    money_text_tells_the_symbol();
    let _ = amount.absolute.is_zero();
    let _ = other_amount.absolute.is_zero();
    let Ok(first) = money.write_to_string(alloc, amount) else {
        return None;
    };
    let Ok(second) = other_money.write_to_string(alloc, other_amount) else {
        return None;
    };
    Some(first == second)
}

/// A symbol and an amount.
type Amount = (&'static str, &'static str);

/// Money of a currency, and an amount.
fn made(
    alloc: Global,
    (numbers, pattern): (Numbers, &'static str),
    (symbol, amount): Amount,
) -> Option<(CurrencyFormatter<DecimalFormatter>, Decimal)> {
    let money: Money = (numbers, pattern, symbol);
    money_of(alloc, money).zip(decimal(alloc, amount))
}

/// Whether two amounts in one pattern have one text.
fn is_one_text(
    alloc: Global,
    pattern: (Numbers, &'static str),
    one: Amount,
    other: Amount,
) -> Option<bool> {
    match made(alloc, pattern, one).zip(made(alloc, pattern, other)) {
        Some(((money, amount), (other_money, other_amount))) => {
            have_one_text(alloc, &money, &amount, &other_money, &other_amount)
        }
        None => None,
    }
}

/// Numbers with U+00A0 between groups.
const SPACED: Numbers = Numbers {
    decimal: ",",
    group: "\u{a0}",
    minus: "-",
};

/// A pattern and two amounts, and whether they have one text.
const PAIRS: &[((Numbers, &str), Amount, Amount, bool)] = &[
    ((ENGLISH, "¤#,##0.00"), ("$", "-1.5"), ("$", "-1.5"), true),
    ((ENGLISH, "¤#,##0.00"), ("$", "-1.5"), ("$", "1.5"), false),
    ((ENGLISH, "¤#,##0.00"), ("$", "1.5"), ("$", "1.50"), false),
    ((ENGLISH, "¤#,##0.00"), ("$", "1"), ("€", "1"), false),
    ((ENGLISH, "¤#,##0.00"), ("A", "1"), ("AU", "1"), false),
    ((ENGLISH, "#,##0.00¤"), ("$", "1"), ("$A", "1"), false),
];

/// A pattern and two amounts that have one text, since a premise of the law isn't met.
const UNTOLD: &[((Numbers, &str), Amount, Amount)] = &[
    ((ENGLISH, "#,##0"), ("$", "1"), ("€", "1")),
    ((ENGLISH, "¤#,##0"), ("A", "1"), ("A\u{a0}", "1")),
    ((ENGLISH, "#,##0¤"), ("A", "1"), ("\u{a0}A", "1")),
    ((ENGLISH, "¤#,##0;¤#,##0"), ("$", "1"), ("$", "-1")),
    (
        (ENGLISH, "¤#,##0;¤\u{a0}#,##0"),
        ("CHF", "1"),
        ("CHF", "-1"),
    ),
    ((ENGLISH, "¤#,##0"), ("-$", "1"), ("$", "-1")),
    ((SPACED, "¤#,##0"), ("$1", "234"), ("$", "1234")),
];

/// Whether two amounts have one text, asked once more where memory ran out.
fn share_a_text(
    alloc: Global,
    pattern: (Numbers, &'static str),
    one: Amount,
    other: Amount,
) -> Option<bool> {
    match is_one_text(alloc, pattern, one, other) {
        Some(same) => Some(same),
        None => is_one_text(alloc, pattern, one, other),
    }
}

#[test]
fn equal_texts_are_of_one_amount(rt: HostRuntime) {
    for &(pattern, one, other, same) in PAIRS {
        assert!(rt; share_a_text(rt.alloc(), pattern, one, other) == Some(same));
    }
}

#[test]
fn texts_are_equal_where_a_premise_fails(rt: HostRuntime) {
    for &(pattern, one, other) in UNTOLD {
        assert!(rt; share_a_text(rt.alloc(), pattern, one, other) == Some(true));
    }
}
