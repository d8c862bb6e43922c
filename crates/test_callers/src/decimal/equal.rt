//! Formatted values that are equal, and values that are lent or kept.

ghost use Rattle.std.specs.Prelude.{◌≡◌, true};

use super::fixtures::{english, read};
use fixed_decimal::Decimal;
use icu_decimal::options::GroupingStrategy;
use icu_decimal::{Cow, DecimalFormatter};
use std::alloc::Global;
use std::process::Abort;

/// Whether a decimal is formatted as the same value twice: it always is.
fn formats_alike(formatter: &DecimalFormatter, decimal: &Decimal) -> bool
    ensures { result ≡ true }
{
    formatter.format(decimal) == formatter.format(decimal)
}

fn formats_twice(rt: &impl Abort, alloc: Global) -> bool {
    let english = english(rt, alloc, GroupingStrategy::Auto);
    let decimal = read(rt, alloc, "-1234.5");
    formats_alike(&english, &decimal)
}

#[test]
fn equals_what_is_formatted_again(rt: HostRuntime) {
    assert!(rt; formats_twice(&rt, rt.alloc()));
}

/// Whether two formatters write a decimal with the same symbols and options.
fn are_same(one: &DecimalFormatter, other: &DecimalFormatter, decimal: &Decimal) -> bool {
    one.format(decimal) == other.format(decimal)
}

fn compares(rt: &impl Abort, alloc: Global) -> bool {
    let grouped = english(rt, alloc, GroupingStrategy::Auto);
    let ungrouped = english(rt, alloc, GroupingStrategy::Never);
    !are_same(&grouped, &ungrouped, &read(rt, alloc, "-1234.5"))
}

#[test]
fn differs_from_what_other_options_format(rt: HostRuntime) {
    assert!(rt; compares(&rt, rt.alloc()));
}

/// Whether values are equal where both are lent or both are kept, and the values are.
fn compares_values() -> bool {
    let five = 5;
    let again = 5;
    let six = 6;
    Cow::Borrowed(&five) == Cow::Borrowed(&again)
        && Cow::Owned(five) == Cow::Owned(again)
        && Cow::Borrowed(&five) != Cow::Borrowed(&six)
        && Cow::Owned(five) != Cow::Owned(six)
        && Cow::Borrowed(&five) != Cow::Owned(five)
}

#[test]
fn compares_lent_and_kept_values(rt: HostRuntime) {
    assert!(rt; compares_values());
}

/// Whether a value is the same, lent or kept.
fn gives_values() -> bool {
    let five = 5;
    *Cow::Borrowed(&five).get() == 5 && *Cow::Owned(five).get() == 5
}

#[test]
fn gives_lent_and_kept_values(rt: HostRuntime) {
    assert!(rt; gives_values());
}
