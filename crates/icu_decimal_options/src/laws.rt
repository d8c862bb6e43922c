//! Laws of digit groups, for all sizes and strategies. The functions do nothing: each is its
//! contract.

ghost use Rattle.icu_decimal_options.specs.GroupingLaws.{SeparatorsTakenOut, DigitsHaveAGrouping, DigitsHaveOneGrouping};

/// Without the separators the text is the integer's digits, in order.
// promise: Without their separators the groups are the digits.
pub fn separators_taken_out()
    ensures { SeparatorsTakenOut }
{}

/// Digits that are more than the primary size have exactly one grouping by the sizes.
// promise: More digits than the primary size have one grouping.
pub fn grouping_is_unique()
    ensures some { DigitsHaveAGrouping }
    ensures one { DigitsHaveOneGrouping }
{}
