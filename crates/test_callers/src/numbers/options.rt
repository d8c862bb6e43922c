//! Options that are equal, and their hashes.

use icu_decimal_options::options::{
    CompactDecimalFormatterOptions, DecimalFormatterOptions, GroupingStrategy,
};
use std::hash::{DefaultHasher, Hash, Hasher};

const STRATEGIES: [GroupingStrategy; 4] = [
    GroupingStrategy::Auto,
    GroupingStrategy::Never,
    GroupingStrategy::Always,
    GroupingStrategy::Min2,
];

/// The hash of options with this strategy.
fn hash_of(strategy: GroupingStrategy) -> u64 {
    let mut hasher = DefaultHasher::new();
    DecimalFormatterOptions::from(strategy).hash(&mut hasher);
    hasher.finish()
}

/// Whether options of these strategies are equal, as plain ones and as compact ones.
fn are_equal(one: GroupingStrategy, other: GroupingStrategy) -> bool {
    DecimalFormatterOptions::from(one) == DecimalFormatterOptions::from(other)
        && CompactDecimalFormatterOptions::from(one) == CompactDecimalFormatterOptions::from(other)
}

#[test]
fn compares_and_hashes_options(rt: HostRuntime) {
    for &one in &STRATEGIES {
        for &other in &STRATEGIES {
            assert_eq!(rt; are_equal(one, other), one == other);
            assert_eq!(rt; hash_of(one) == hash_of(other), one == other);
        }
    }
}
