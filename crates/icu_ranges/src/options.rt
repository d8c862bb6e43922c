//! How ranges are written.

/// What is written where both ends of a range have one text, as those of 3 and 3.0 by a formatter
/// without fractions (ICU `UNumberRangeIdentityFallback`).
#[derive(Clone, Copy, Debug, PartialEq, Eq)]
pub enum RangeIdentityFallback {
    /// The text, once.
    SingleValue,
    /// The text once, with the approximately sign of the range pattern, as `~3` (the default, as in
    /// ICU).
    Approximately,
    /// The text twice, with the separator between.
    Range,
}

impl Default for RangeIdentityFallback {
    ghost use Rattle.std.specs.Prelude.{◌≡◌};
    ghost use Rattle.icu_ranges.specs.declared.options.RangeIdentityFallback.TheVariants.{Approximately};

    ghost is_default = { λ fallback. fallback ≡ Approximately };

    fn default() -> Self {
        RangeIdentityFallback::Approximately
    }
}
