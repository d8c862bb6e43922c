//! Options of formatters: how they group digits (ICU4X `options`).

/// Whether an integer is grouped, and from how many digits on (ICU4X `GroupingStrategy`).
#[derive(Clone, Copy, Debug, PartialEq, Eq, Hash)]
pub enum GroupingStrategy {
    /// As the locale's group sizes say.
    Auto,
    /// No separators.
    Never,
    /// As the locale's group sizes say.
    Always,
    /// As the locale's group sizes say, but only with at least two digits before the last group.
    Min2,
}

/// The default is `Auto`.
impl Default for GroupingStrategy {
    ghost use Rattle.std.specs.Prelude.{◌≡◌};
    ghost use Rattle.icu_decimal_options.specs.declared.options.GroupingStrategy.TheVariants.{Auto};

    ghost is_default = { λ strategy. strategy ≡ Auto };

    // promise: By default a strategy is `Auto`.
    // mutations: options_strategy_default_never
    fn default() -> Self {
        GroupingStrategy::Auto
    }
}

/// Options of a decimal formatter (ICU4X `DecimalFormatterOptions`).
#[derive(Clone, Copy, Debug, PartialEq, Eq, Hash)]
pub struct DecimalFormatterOptions {
    /// When separators are written; `None` acts as `Auto`.
    pub grouping_strategy: Option<GroupingStrategy>,
}

/// The default has no strategy.
impl Default for DecimalFormatterOptions {
    ghost use Rattle.std.specs.Prelude.{◌≡◌, None};

    ghost is_default = { λ options. options ≡ record { grouping_strategy = None } };

    fn default() -> Self {
        DecimalFormatterOptions {
            grouping_strategy: None,
        }
    }
}

impl From<GroupingStrategy> for DecimalFormatterOptions {
    ghost use Rattle.std.specs.Prelude.{◌≡◌, Some};

    ghost from_gives = { λ strategy options.
        options ≡ record { grouping_strategy = Some strategy } };

    fn from(strategy: GroupingStrategy) -> Self {
        DecimalFormatterOptions {
            grouping_strategy: Some(strategy),
        }
    }
}

/// Options of a compact decimal formatter (ICU4X `CompactDecimalFormatterOptions`).
#[derive(Debug, Clone, PartialEq, Eq, Drop)]
pub struct CompactDecimalFormatterOptions {
    /// When separators are written; `None` acts as `Auto`, although ICU4X's documentation says
    /// `Min2`.
    pub grouping_strategy: Option<GroupingStrategy>,
}

/// The default strategy is `Min2`.
impl Default for CompactDecimalFormatterOptions {
    ghost use Rattle.std.specs.Prelude.{◌≡◌, Some};
    ghost use Rattle.icu_decimal_options.specs.declared.options.GroupingStrategy.TheVariants.{Min2};

    ghost is_default = { λ options. options ≡ record { grouping_strategy = Some Min2 } };

    fn default() -> Self {
        CompactDecimalFormatterOptions::from(GroupingStrategy::Min2)
    }
}

impl From<GroupingStrategy> for CompactDecimalFormatterOptions {
    ghost use Rattle.std.specs.Prelude.{◌≡◌, Some};

    ghost from_gives = { λ strategy options.
        options ≡ record { grouping_strategy = Some strategy } };

    fn from(grouping_strategy: GroupingStrategy) -> Self {
        CompactDecimalFormatterOptions {
            grouping_strategy: Some(grouping_strategy),
        }
    }
}

impl From<DecimalFormatterOptions> for CompactDecimalFormatterOptions {
    ghost use Rattle.std.specs.Prelude.{◌≡◌};

    ghost from_gives = { λ plain compact.
        compact ≡ record { grouping_strategy = plain.grouping_strategy } };

    fn from(plain: DecimalFormatterOptions) -> Self {
        CompactDecimalFormatterOptions {
            grouping_strategy: plain.grouping_strategy,
        }
    }
}

impl From<CompactDecimalFormatterOptions> for DecimalFormatterOptions {
    ghost use Rattle.std.specs.Prelude.{◌≡◌};

    ghost from_gives = { λ compact plain.
        plain ≡ record { grouping_strategy = compact.grouping_strategy } };

    fn from(compact: CompactDecimalFormatterOptions) -> Self {
        DecimalFormatterOptions {
            grouping_strategy: compact.grouping_strategy,
        }
    }
}
