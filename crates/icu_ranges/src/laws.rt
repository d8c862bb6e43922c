//! What holds of ranges. The functions do nothing: each is its contract.

ghost use Rattle.std.specs.Prelude.{◌≡◌};
ghost use Rattle.fixed_decimal.specs.Unsigned.{Unsigned};
ghost use Rattle.icu_decimal_interface.specs.Nested.{BothSuch, ShownPair};
ghost use Rattle.icu_decimal_interface.specs.Shown.{Shown};
ghost use Rattle.icu_ranges.specs.Order.{Ends, IsAbove};
ghost use Rattle.icu_ranges.specs.RangeLaws.{ApproximatelyIsForEqualTexts, IdentityIsEqualTexts, IsShownAbove};

use icu_decimal_interface::AbstractFormatter;

/// Each end of a range is what the formatter shows of that number alone, and nothing else.
pub fn ends_are_shown_alone<F: AbstractFormatter>()
    ensures { (f : F) (u v : Unsigned) (p : ShownPair) → BothSuch (F.shows f u) (F.shows f v) p →
        ((n : Shown) → F.shows f u n → n ≡ p.first)
        × ((n : Shown) → F.shows f v n → n ≡ p.second) }
{}

/// Of a range the start isn't shown above the end, signs counted.
// promise: The shown start isn't above the shown end.
pub fn ends_stand_in_order<F: AbstractFormatter>()
    ensures { (f : F) (r : Ends) (n m : Shown) → ¬ (IsAbove r.start r.end) →
        F.shows f r.start.absolute n → F.shows f r.end.absolute m →
        ¬ (IsShownAbove r n m) }
{}

/// Where a single value is wanted, two texts are written as one exactly if they are equal.
// promise: Two texts are written as one exactly if they are equal.
pub fn identity_is_equal_texts()
    ensures { IdentityIsEqualTexts }
{}

/// Where the approximately sign is wanted, one text is written with it exactly if two are equal.
// promise: Exactly equal texts get the approximately sign.
pub fn approximately_is_for_equal_texts()
    ensures { ApproximatelyIsForEqualTexts }
{}
