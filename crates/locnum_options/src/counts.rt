//! Counts of digits.

ghost use Rattle.std.specs.Prelude.{◌≡◌, option_map};
ghost use Rattle.locnum_options.specs.Counts.{behind_dot, count_named, counts_between, counts_named};

use crate::texts::{cut_at, number_named};

/// As many digits at least, and as many at most.
#[derive(Clone, Copy, Debug, PartialEq, Eq)]
pub(crate) struct Counts {
    /// As many at least.
    pub(crate) least: u16,
    /// As many at most.
    pub(crate) most: u16,
}

/// A number of digits.
#[tactic(auto, unfolding(crate::specs::Counts::count_named))]
pub(crate) fn count_named(text: &str) -> Option<u16>
    ensures { result ≡ count_named text.now }
{
    let number = number_named(text)?;
    if number > 999 {
        return None;
    }
    Some(number as u16)
}

/// What stands behind a dot.
fn behind_dot(text: &str) -> Option<&str>
    ensures { option_map (λ t. t.now) result ≡ behind_dot text.now }
{
    text.strip_prefix('.')
}

/// The counts between two numbers of digits.
#[tactic(auto, unfolding(crate::specs::Counts::counts_between))]
fn counts_between(least: &str, behind: &str) -> Option<Counts>
    ensures { result ≡ counts_between least.now behind.now }
{
    let least = count_named(least)?;
    let most = count_named(behind_dot(behind)?)?;
    if least > most {
        return None;
    }
    Some(Counts { least, most })
}

/// The counts of a text: `N`, or `MIN..MAX`.
#[tactic(auto, unfolding(crate::specs::Counts::counts_named))]
pub(crate) fn counts_named(text: &str) -> Option<Counts>
    ensures { result ≡ counts_named text.now }
{
    match cut_at(text, '.') {
        Some((least, behind)) => counts_between(least, behind),
        None => {
            let count = count_named(text)?;
            Some(Counts {
                least: count,
                most: count,
            })
        }
    }
}
