//! What stands before and after the number of a pattern.

/// One piece of what stands before or after a number: a character as it is, or what a locale or a
/// currency puts in its place (UTS 35 Part 3, Number Pattern Character Definitions).
#[derive(Clone, Copy, Debug, PartialEq, Eq)]
pub enum AffixToken {
    /// A character that stands for itself.
    Character(char),
    /// `¤`, the currency's symbol.
    CurrencySymbol,
    /// `-`, the minus sign of the locale.
    MinusSign,
    /// `+`, the plus sign of the locale.
    PlusSign,
    /// `%`, the percent sign of the locale.
    PercentSign,
    /// The per mille sign of the locale, which stands for `%` in a pattern of permilles. No text of
    /// a pattern spells it.
    PerMilleSign,
}
