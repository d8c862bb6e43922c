//! The plural categories.

/// A plural category (UTS 35 Part 3, Language Plural Rules; ICU4X, `icu_plurals::PluralCategory`).
#[derive(Clone, Copy, Debug, PartialEq, Eq)]
pub enum PluralCategory {
    /// As in Arabic or Latvian for zero.
    Zero,
    /// The singular, in many languages for one.
    One,
    /// The dual.
    Two,
    /// The paucal, as in Russian for two to four.
    Few,
    /// As in Arabic for eleven to ninety-nine, in French for a million.
    Many,
    /// Every number that no other category takes.
    Other,
}
