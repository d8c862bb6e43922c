//! Where separators stand in an integer.

ghost use Rattle.std.specs.Prelude.{◌≡◌, ℕ, ◌+◌, ◌-◌, ◌*◌, ◌%◌, ◌<◌, ◌≤◌, ◌↔◌, IsTrue, List, length, pos, ◌+ℤ◌, ◌<ℤ◌, MatchOption};
ghost use Rattle.icu_decimal_options.specs.Grouping.{digit_groups, EndsGroup, HasSeparatorAfter, groups_ever, least_before, secondary_size};
ghost use Rattle.icu_decimal_options.specs.Grouping.{is_grouped, IsLongestUngrouped};

use crate::options::GroupingStrategy;
use icu_decimal_symbols::GroupingSizes;

/// Whether a separator follows the digit at `magnitude`, in a number whose first digit is at the
/// magnitude `upper`.
///
/// Above `upper` the answer is that of the group sizes alone; below 0 there are no separators.
// promise: It is true exactly where a group ends but isn't the last.
// mutations: groups_last_one_not_separated
pub fn check(upper: i16, magnitude: i16, strategy: GroupingStrategy, sizes: GroupingSizes) -> bool
    // True exactly where the digit at the magnitude is the last of a group, but not of the last group.
    ensures groups { (digits : List ℕ) (m : ℕ) → pos (length digits) ≡ upper +ℤ pos 1
        → magnitude ≡ pos m → m < length digits
        → (IsTrue result ↔ EndsGroup (digit_groups digits sizes strategy) m) }
    ensures rule { IsTrue result ↔ HasSeparatorAfter upper magnitude strategy sizes }
{
    let (Some(upper), Some(magnitude)) = (natural(upper), natural(magnitude)) else {
        return false;
    };
    is_grouped(upper + 1, strategy, sizes) && ends_group(magnitude, sizes)
}

/// The number, if it isn't negative.
fn natural(number: i16) -> Option<usize>
    ensures { MatchOption result (number <ℤ pos 0) (λ n. (number ≡ pos n) × (n < 32768)) }
{
    usize::try_from(number).ok()
}

/// The least number of digits that have to stand before the last group.
fn least_before(strategy: GroupingStrategy, sizes: GroupingSizes) -> usize
    ensures { result ≡ least_before strategy sizes }
{
    let least = match strategy {
        GroupingStrategy::Auto | GroupingStrategy::Never | GroupingStrategy::Always => 1,
        GroupingStrategy::Min2 => 2,
    };
    usize::from(sizes.min_grouping).max(least)
}

/// The greatest number of digits that aren't grouped; more digits are. If digits are never grouped,
/// this is `usize::MAX`.
// promise: A count is grouped exactly where it is greater than this.
// mutations: longest_ungrouped_one_more
pub fn longest_ungrouped(strategy: GroupingStrategy, sizes: GroupingSizes) -> usize
    ensures { IsLongestUngrouped result sizes strategy }
{
    let primary = usize::from(sizes.primary);
    if strategy == GroupingStrategy::Never || primary == 0 {
        return usize::MAX;
    }
    primary + least_before(strategy, sizes) - 1
}

/// Whether this many digits are grouped.
fn is_grouped(count: usize, strategy: GroupingStrategy, sizes: GroupingSizes) -> bool
    ensures { result ≡ is_grouped count sizes strategy }
{
    let primary = usize::from(sizes.primary);
    strategy != GroupingStrategy::Never
        && primary != 0
        && least_before(strategy, sizes) <= count.saturating_sub(primary)
}

/// The size of the groups before the last one: the secondary size, or the primary size if that is
/// 0.
// promise: The secondary size is the primary one where it is 0.
// mutations: secondary_size_always_the_primary
pub fn secondary_size(sizes: GroupingSizes) -> usize
    ensures { result ≡ secondary_size sizes }
{
    if sizes.secondary == 0 {
        usize::from(sizes.primary)
    } else {
        usize::from(sizes.secondary)
    }
}

/// Whether the digits below a magnitude make whole groups.
fn ends_group(magnitude: usize, sizes: GroupingSizes) -> bool
    requires { 0 < sizes.primary }
    ensures { IsTrue result ↔ ((sizes.primary ≤ magnitude)
        × ((magnitude - sizes.primary) % secondary_size sizes ≡ 0)) }
{
    let primary = usize::from(sizes.primary);
    magnitude >= primary && (magnitude - primary) % secondary_size(sizes) == 0
}
