//! Digits in groups.
ghost use Rattle.std.specs.Prelude.{◌≡◌, ◌<◌};
ghost use Rattle.writeable.specs.Counted.{IsGap, next_size};

use crate::sink::Part;

/// How many digits stand in a group, and what stands between two groups.
#[derive(Clone, Copy, Debug, PartialEq, Eq)]
pub struct Grouping<'l> {
    /// How many digits stand in the last group.
    pub primary: usize,
    /// How many stand in each group before it; the first one may have less.
    pub secondary: usize,
    /// The part around each separator; none where it stands alone.
    pub part: Option<Part>,
    /// What stands between two groups.
    pub separator: &'l str,
}

/// How many digits stand before the first separator.
pub(crate) fn first_group(count: usize, primary: usize, secondary: usize) -> usize
    requires { 0 < secondary }
    ensures { IsGap primary secondary count result }
{
    if count <= primary {
        count
    } else {
        (count - primary - 1) % secondary + 1
    }
}

/// How many digits stand in the next group, where `count` digits are left and a group begins with
/// them.
pub(crate) fn next_group(count: usize, primary: usize, secondary: usize) -> usize
    ensures { result ≡ next_size primary secondary count }
{
    if count == primary { primary } else { secondary }
}
