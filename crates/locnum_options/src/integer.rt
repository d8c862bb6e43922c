//! How many digits a number has before its fraction digits at least.

ghost use Rattle.std.specs.Prelude.{◌≡◌, option_map};
ghost use Rattle.locnum_options.specs.Integer.{integer_given, integer_named};

use crate::counts::count_named;
use crate::fault::OptionFault;

/// A count of digits from 1 on.
#[tactic(auto, unfolding(crate::specs::Integer::integer_named))]
fn integer_named(text: &str) -> Result<u16, OptionFault>
    ensures { result ≡ integer_named text.now }
{
    match count_named(text) {
        None | Some(0) => Err(OptionFault::Integer),
        Some(count) => Ok(count),
    }
}

/// How many digits there are at least; one by default.
#[tactic(auto, unfolding(crate::specs::Integer::integer_given))]
pub(crate) fn integer_given(text: Option<&str>) -> Result<u16, OptionFault>
    ensures { result ≡ integer_given (option_map (λ t. t.now) text.entry) }
{
    match text {
        Some(text) => integer_named(text),
        None => Ok(1),
    }
}
