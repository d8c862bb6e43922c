//! Which of the values by plural category a range has.

ghost use Rattle.std.specs.Prelude.{◌≡◌};
ghost use Rattle.std.specs.Option.{option_copied};
ghost use Rattle.icu_plurals.specs.Elements.{category_value};
ghost use Rattle.icu_unit_ranges.specs.Values.{value_for};

use icu_plurals::{PluralCategory, PluralElements};

/// The value of a category, if it has one of its own.
fn category_value<T>(elements: &PluralElements<T>, category: PluralCategory) -> Option<&T>
    ensures { option_copied result ≡ category_value elements.now category }
{
    match category {
        PluralCategory::Zero => elements.slot(2),
        PluralCategory::One => elements.slot(3),
        PluralCategory::Two => elements.slot(4),
        PluralCategory::Few => elements.slot(5),
        PluralCategory::Many => elements.slot(6),
        PluralCategory::Other => None,
    }
}

/// The value for all other numbers.
pub(crate) fn other_value<T>(elements: &PluralElements<T>) -> &T
    ensures { result.now ≡ elements.now.other }
{
    match elements.slot(7) {
        Some(value) => value,
        None => unreachable!(),
    }
}

/// The value of a category: its own, or else the one for all other numbers.
pub(crate) fn value_for<T>(elements: &PluralElements<T>, category: PluralCategory) -> &T
    ensures { result.now ≡ value_for elements.now category }
{
    match category_value(elements, category) {
        Some(value) => value,
        None => other_value(elements),
    }
}
