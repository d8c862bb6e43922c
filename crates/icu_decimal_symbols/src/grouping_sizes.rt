//! Sizes of the groups of integer digits.

/// How many integer digits stand between grouping separators (UTS 35, Number Patterns).
#[derive(Clone, Copy, Debug, PartialEq, Eq)]
pub struct GroupingSizes {
    /// Digits in the lowest group, the one before the decimal separator. With 0 nothing is grouped.
    pub primary: u8,
    /// Digits in each group above the lowest; 0 means the same as `primary`. It is 2 in `1,00,000`.
    pub secondary: u8,
    /// The least number of digits above the lowest group for there to be a separator; 0 counts as
    /// 1. With 2, `1000` has no separator and `10,000` has one.
    pub min_grouping: u8,
}
