//! Options that don't stand beside a skeleton.

ghost use Rattle.std.specs.Prelude.{◌≡◌};
ghost use Rattle.locnum_options.specs.Beside.{first_given, name_of, option_beside};

use crate::given::Given;

/// An option that says of numbers what a skeleton says, too (this project's own).
#[derive(Clone, Copy, Debug, PartialEq, Eq)]
pub enum NumberOption {
    /// `--style`.
    Style,
    /// `--currency`.
    Currency,
    /// `--percent`.
    Percent,
    /// `--permille`.
    Permille,
    /// `--unit`.
    Unit,
    /// `--width`.
    Width,
    /// `--accounting`.
    Accounting,
    /// `--cash`.
    Cash,
    /// `--fraction`.
    Fraction,
    /// `--significant`.
    Significant,
    /// `--increment`.
    Increment,
    /// `--round`.
    Round,
    /// `--integer`.
    Integer,
    /// `--scale`.
    Scale,
    /// `--grouping`.
    Grouping,
    /// `--sign`.
    Sign,
    /// `--system`.
    System,
}

/// The name of an option, without the two dashes.
pub(crate) fn name_of(option: NumberOption) -> &'static str
    ensures { result.now ≡ name_of option }
{
    match option {
        NumberOption::Style => "style",
        NumberOption::Currency => "currency",
        NumberOption::Percent => "percent",
        NumberOption::Permille => "permille",
        NumberOption::Unit => "unit",
        NumberOption::Width => "width",
        NumberOption::Accounting => "accounting",
        NumberOption::Cash => "cash",
        NumberOption::Fraction => "fraction",
        NumberOption::Significant => "significant",
        NumberOption::Increment => "increment",
        NumberOption::Round => "round",
        NumberOption::Integer => "integer",
        NumberOption::Scale => "scale",
        NumberOption::Grouping => "grouping",
        NumberOption::Sign => "sign",
        NumberOption::System => "system",
    }
}

/// The first of some options that is given.
#[tactic(auto, unfolding(crate::specs::Beside::first_given))]
fn first_given(given: &Given, options: &[NumberOption]) -> Option<NumberOption>
    ensures { result ≡ first_given given.now options.now }
{
    for option in options {
        if given.flag(name_of(*option)) {
            return Some(*option);
        }
    }
    None
}

/// The first option that is given of those that don't stand beside a skeleton.
#[tactic(auto, unfolding(crate::specs::Beside::option_beside))]
pub(crate) fn option_beside(given: &Given) -> Option<NumberOption>
    ensures { result ≡ option_beside given.now }
{
    let options = [
        NumberOption::Style,
        NumberOption::Currency,
        NumberOption::Percent,
        NumberOption::Permille,
        NumberOption::Unit,
        NumberOption::Width,
        NumberOption::Accounting,
        NumberOption::Cash,
        NumberOption::Fraction,
        NumberOption::Significant,
        NumberOption::Increment,
        NumberOption::Round,
        NumberOption::Integer,
        NumberOption::Scale,
        NumberOption::Grouping,
        NumberOption::Sign,
        NumberOption::System,
    ];
    first_given(given, &options)
}
