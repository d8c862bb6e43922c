//! What is explained.

ghost use Rattle.std.specs.Prelude.{◌≡◌};
ghost use Rattle.locnum_options.specs.Explained.{explain_given, is_lined};

use crate::fault::OptionFault;
use crate::given::Given;

/// What is explained of an input (this project's own).
#[derive(Clone, Copy, Debug, PartialEq, Eq)]
pub enum Explain {
    /// Nothing: numbers are written.
    Nothing,
    /// Each line, which is one number.
    Lines,
    /// The chosen fields of lines.
    Fields,
}

/// Whether an option is given that says how lines are cut.
#[tactic(auto, unfolding(crate::specs::Explained::is_lined))]
fn is_lined(given: &Given) -> bool
    ensures { result ≡ is_lined given.now }
{
    given.flag("csv")
        || given.flag("delimiter")
        || given.flag("field")
        || given.flag("header")
        || given.flag("zero-terminated")
}

/// What is explained: the fields of lines where an option says how lines are cut.
#[tactic(auto, unfolding(crate::specs::Explained::explain_given))]
pub(crate) fn explain_given(given: &Given) -> Result<Explain, OptionFault>
    ensures { result ≡ explain_given given.now }
{
    if !given.flag("explain") {
        return Ok(Explain::Nothing);
    }
    if given.flag("padding") {
        return Err(OptionFault::Explained);
    }
    if is_lined(given) {
        return Ok(Explain::Fields);
    }
    Ok(Explain::Lines)
}
